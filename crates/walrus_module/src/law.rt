//! The laws of a module in memory, as contracts of functions in which nothing runs; and a function that makes the calls of which one of them speaks.
ghost use Rattle.std.specs.Prelude.{◌≡◌, IfOk, false};
ghost use Rattle.walrus_theorem.specs.OkLaws.{AreCounted};
ghost use Rattle.walrus_theorem.specs.Once.{TypesLocals};
ghost use Rattle.walrus_theorem.specs.Refused.{IsSayable};
ghost use Rattle.walrus_module.specs.Check.{CheckedIsWellMade};
ghost use Rattle.walrus_module.specs.Following.{FollowedWrite};
ghost use Rattle.walrus_module.specs.Laws.{AbsentIsUncounted, EmitsAgain, HeldAreCounted, UnsayableIsOpen};
ghost use Rattle.walrus_module.specs.Settings.{settings};
ghost use Rattle.walrus_module.specs.View.{view};

use crate::module::Module;
use std::alloc::Global;
use walrus_items::{CustomSection, Result};

/// A module for which [`emit_wasm`](crate::Module::emit_wasm) answered bytes is left as it is by a second call, which answers
/// the same bytes, or is refused for want of memory or by a custom section that is asked. So the clauses of the two calls say,
/// of each module that has no custom section of its own called `name` or `producers`; of others they don't tell the bytes.
/// Both are calls without [`preserve_code_transform`](crate::ModuleConfig::preserve_code_transform): under it sections follow the code.
/// The parameter only names the type of custom sections.
pub fn second_emission_is_the_same(_module: &Module)
    ensures same { EmitsAgain ⟦<dyn CustomSection as CustomSection>⟧ }
    ensures needed { UnsayableIsOpen ⟦<dyn CustomSection as CustomSection>⟧ }
{}

/// As an abstract module, a module in memory counts in each body the locals that this declares, as well-made modules do,
/// where each local that a body uses is there; and where it isn't, not always.
pub fn bodies_are_counted(module: &Module)
    ensures counted { TypesLocals (view ⟦<dyn CustomSection as CustomSection>⟧ «module».now)
        → AreCounted (view ⟦<dyn CustomSection as CustomSection>⟧ «module».now) }
    ensures held { HeldAreCounted }
    ensures needed { AbsentIsUncounted }
{}

/// A module that passes [`check`](crate::Module::check) is well made, where its bodies are well formed and no custom section of its own is called
/// `name` or `producers`. The parameter only names the type of custom sections.
pub fn checked_is_well_made(_module: &Module)
    ensures { CheckedIsWellMade ⟦<dyn CustomSection as CustomSection>⟧ }
{}

/// Where each value of a caller's type of sections says under indices what its state tells, a section of that type that followed a code transform in its box says
/// what the state tells that the old one gave for it, and its type is such a one again: it is the same type. The parameter only names the type of
/// custom sections.
pub fn followed_sections_write_by_state(_module: &Module)
    ensures { FollowedWrite ⟦<dyn CustomSection as CustomSection>⟧ }
{}

/// The bytes of a first and of a second call, which are the same, as [`second_emission_is_the_same`] says: so that law hangs on the contract of
/// [`emit_wasm`](crate::Module::emit_wasm). Nothing is said under `preserve_code_transform`, nor where a custom section of the module's own is called
/// `name` or `producers`.
///
/// # Errors
///
/// Those of [`emit_wasm`](crate::Module::emit_wasm).
pub fn emitted_twice(alloc: Global, module: &mut Module) -> Result<(Vec<u8>, Vec<u8>)>
    ensures { (settings «module».old).preserve_code_transform ≡ false
        → IsSayable (view ⟦<dyn CustomSection as CustomSection>⟧ «module».old)
        → IfOk result (λ r. r.1.items ≡ r.0.items) }
{
    let first = module.emit_wasm(alloc)?;
    let second = module.emit_wasm(alloc)?;
    Ok((first, second))
}
