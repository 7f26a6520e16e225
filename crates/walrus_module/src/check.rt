//! Whether a module may be written, told before bytes go out ("Validation > Modules").
ghost use Rattle.std.specs.Prelude.{MatchResult, IfOk};
ghost use Rattle.std.specs.Bool.{Decides};
ghost use Rattle.walrus_contents.specs.View.{parts_view};
ghost use Rattle.walrus_model.specs.Dead.{HasDead};
ghost use Rattle.walrus_model.specs.Rules.{FunctionTypesHold, LimitsHold, OffsetsHold};
ghost use Rattle.walrus_module.specs.Check.{IsFlaw, NamesAreApart, PassesCheck, RefusesCheck, StartHolds};
ghost use Rattle.walrus_module.specs.Tested.{Judges};
ghost use Rattle.walrus_module.specs.View.{held_view};

use crate::declared::do_all_declare_few;
use crate::exported::{are_exports_apart, is_start_empty};
use crate::flaw::Flaw;
use crate::limits::{are_memories_limited, are_tables_limited};
use crate::module::Module;
use crate::offsets::{are_data_placed, are_elements_placed};
use crate::spelled::are_forms_spelled;
use crate::typed::{are_functions_typed, are_tags_typed, do_all_blocks_hold};
use std::alloc::{AllocError, Global};
use std::result;
use walrus_contents::{Parts, check_live};
use walrus_items::{Error, Result};
use walrus_plan::prepare;
use wasm_wire::BrokenRule;

impl<S> Module<S> {
    /// Whether the module may be written, for who edits without proofs: that all that is named is there, that each item can be given one index,
    /// that bytes spell each type and each constant expression, and that the rules of a module hold. Nothing is written and nothing changes; custom
    /// sections aren't asked, and whether bodies are well formed isn't looked at. What passes is well made where its bodies are well formed
    /// ([`checked_is_well_made`](crate::checked_is_well_made)).
    ///
    /// # Errors
    ///
    /// Each with a cause of its own, which of several is open: `InvalidWasm` where a function, a tag or a block has no function type, limits aren't
    /// allowed, two exports have one name, the start function takes or gives something, an offset is one operator that gives at once another value than
    /// an address, or a body declares more than 50,000 locals; `DeadItem`, `TwoIndices`, `NoIndex`, `NotWritable` and `TooLarge` as
    /// [`emit_wasm`](Module::emit_wasm); and `Memory`.
    pub fn check(&self, alloc: Global) -> Result<()>
        ensures { MatchResult result (λ _. PassesCheck (held_view self.now))
            (RefusesCheck (held_view self.now)) }
    {
        Ok(self.diagnose(alloc)?)
    }

    /// The same as [`check`](Module::check), which tells the rule that is broken.
    ///
    /// # Errors
    ///
    /// The rule, one of `FunctionTypes`, `Limits`, `ExportNames`, `Start`, `Offsets` and `Locals`, or the cause beside them, each only where it is so. Which
    /// of several is open.
    pub fn diagnose(&self, alloc: Global) -> result::Result<(), Flaw>
        ensures { MatchResult result (λ _. PassesCheck (held_view self.now))
            (IsFlaw (held_view self.now)) }
    {
        diagnose_parts(alloc, self.parts())
    }
}

// The same of parts.
fn diagnose_parts(alloc: Global, parts: Parts<'_>) -> result::Result<(), Flaw>
    ensures { MatchResult result (λ _. PassesCheck (parts_view parts.entry))
        (IsFlaw (parts_view parts.entry)) }
{
    check_live(alloc, parts)?;
    let prepared = prepare(alloc, parts)?;
    drop(prepared);
    if !are_forms_spelled(parts) {
        return Err(Flaw::Form(Error::NotWritable));
    }
    let broken = broken_rule(alloc, parts)?;
    match broken {
        None => Ok(()),
        Some(rule) => Err(Flaw::Rule(rule)),
    }
}

// Whether functions, tags and blocks have function types.
fn are_types_kept(parts: Parts<'_>) -> result::Result<bool, AllocError>
    ensures { IfOk result (λ kept. Decides kept (FunctionTypesHold (parts_view parts.entry))) }
{
    if !are_functions_typed(parts.funcs, parts.types) {
        return Ok(false);
    }
    if !are_tags_typed(parts.tags, parts.types) {
        return Ok(false);
    }
    let hold = do_all_blocks_hold(parts.funcs, parts.types)?;
    Ok(hold)
}

// Whether limits are allowed.
fn are_limits_kept(parts: Parts<'_>) -> bool
    ensures { Decides result (LimitsHold (parts_view parts.entry)) }
{
    if !are_tables_limited(parts.tables) {
        return false;
    }
    are_memories_limited(parts.memories)
}

// Whether the offsets of active segments are addresses.
fn are_offsets_kept(parts: Parts<'_>) -> bool
    ensures { Decides result (OffsetsHold (parts_view parts.entry)) }
{
    if !are_elements_placed(parts) {
        return false;
    }
    are_data_placed(parts)
}

// Whether the start function takes and gives nothing.
fn is_start_kept(parts: Parts<'_>) -> bool
    ensures { Decides result (StartHolds (parts_view parts.entry)) }
{
    is_start_empty(parts)
}

// Whether exports have names of their own.
fn are_names_kept(alloc: Global, parts: Parts<'_>) -> result::Result<bool, AllocError>
    ensures { IfOk result (λ kept. Decides kept (NamesAreApart (parts_view parts.entry))) }
{
    let apart = are_exports_apart(alloc, parts.exports)?;
    Ok(apart)
}

// Which of these rules is broken, the number of locals that a body declares among them.
fn broken_rule(alloc: Global, parts: Parts<'_>) -> result::Result<Option<BrokenRule>, AllocError>
    requires there { HasDead (parts_view parts) → ⊥ }
    ensures { IfOk result (Judges (parts_view parts.entry)) }
{
    if !are_limits_kept(parts) {
        return Ok(Some(BrokenRule::Limits));
    }
    if !are_offsets_kept(parts) {
        return Ok(Some(BrokenRule::Offsets));
    }
    let typed = are_types_kept(parts)?;
    if !typed {
        return Ok(Some(BrokenRule::FunctionTypes));
    }
    if !is_start_kept(parts) {
        return Ok(Some(BrokenRule::Start));
    }
    let apart = are_names_kept(alloc, parts)?;
    if !apart {
        return Ok(Some(BrokenRule::ExportNames));
    }
    let few = do_all_declare_few(alloc, parts.funcs)?;
    if !few {
        return Ok(Some(BrokenRule::Locals));
    }
    Ok(None)
}
