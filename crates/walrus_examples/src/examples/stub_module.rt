//! What a linker or a tester does with imports that nobody will give: each function that a module was to import becomes one of its own,
//! which traps.

ghost use Rattle.std.specs.Prelude.{◌≡◌, ◌+◌};
ghost use Rattle.walrus.specs.Base.Id.{place};
ghost use Rattle.walrus.specs.Items.Imports.{imports};
ghost use Rattle.walrus.specs.Modules.Flags.{config_of, defaults};
ghost use Rattle.walrus_tools.specs.Stub.{comes_from};
ghost use Rattle.walrus_tools.specs.StubAnswers.{AnswersStubbed, StubsAll, StubsOne};

use std::alloc::Global;
use walrus::{ImportId, ImportKind, Module, ModuleImports, Result, finished};
use walrus_tools::trap_import;

// Whether the import of this id is there, comes from this module and brings a function.
fn is_from(all: &ModuleImports, at: ImportId, from: &str) -> bool
    ensures { result ≡ comes_from from.now (imports all.now) (place at) }
{
    if !all.contains(at) || all.get(at).module.as_str() != from {
        return false;
    }
    match all.get(at).kind {
        ImportKind::Function(_) => true,
        _ => false,
    }
}

// The function that the import at this place brings traps, if it comes from this module.
fn trap_at<S>(alloc: Global, module: &mut Module<S>, at: usize, from: &str) -> Result<()>
    ensures { StubsOne from.now at (at + 1) «module».old «module».new result }
{
    let import = ImportId::at(at);
    if !is_from(&module.imports, import, from) {
        return Ok(());
    }
    trap_import(alloc, module, import)?;
    Ok(())
}

// All functions that are imported from this module trap.
fn trap_all<S>(alloc: Global, module: &mut Module<S>, from: &str) -> Result<()>
    ensures { StubsAll from.now «module».old «module».new result }
{
    'places: for at in 0..module.imports.next_id().index() {
        trap_at(alloc, module, at, from)?;
    }
    Ok(())
}

/// The bytes of the module where each function that was imported from the module of this name is local, of its old type, and traps; then
/// without what nothing reaches.
///
/// # Errors
///
/// `InvalidWasm` only where the bytes are no module that keeps the rules, `TooLarge` only where what is kept has a count or a size past
/// 32 bits, and `Memory`.
pub fn stub_module(alloc: Global, bytes: &[u8], from: &str) -> Result<Vec<u8>>
    ensures { AnswersStubbed (config_of defaults) bytes.now from.now result }
{
    let mut module = Module::from_buffer(alloc, bytes)?;
    trap_all(alloc, &mut module, from)?;
    finished(alloc, module)
}
