//! What a linker or a tester does with imports that nobody will give, chosen by their names: the functions that they brought trap.

ghost use Rattle.std.specs.Prelude.{◌+◌};
ghost use Rattle.walrus.specs.Base.Marks.{is_marked};
ghost use Rattle.walrus_sections.specs.Choice.{choices_seen};
ghost use Rattle.walrus_tools.specs.StubMatching.{AnswersMatching, StubsChosen, StubsHit, StubsHits};
ghost use Rattle.walrus.specs.Wanted.{config_wanted};

use crate::import_choice::chosen_imports;
use crate::import_traps::trap_import;
use std::alloc::Global;
use walrus::{ImportId, ImportKey, Marks, Module, ModuleConfig, Result, Wanted, finished_ready};
use walrus_sections::Choice;

// The function that the import at this place brings traps, if that is marked.
fn trap_hit<S>(
    alloc: Global,
    module: &mut Module<S>,
    at: usize,
    marks: &Marks<ImportKey>,
) -> Result<()>
    ensures { StubsHit (is_marked marks.now) at (at + 1) «module».old «module».new result }
{
    let found = ImportId::at(at);
    if !marks.is_marked(found) {
        return Ok(());
    }
    trap_import(alloc, module, found)?;
    Ok(())
}

// All functions trap that marked imports bring.
fn trap_hits<S>(alloc: Global, module: &mut Module<S>, marks: &Marks<ImportKey>) -> Result<()>
    ensures { StubsHits (is_marked marks.now) «module».old «module».new result }
{
    'places: for at in 0..module.imports.next_id().index() {
        trap_hit(alloc, module, at, marks)?;
    }
    Ok(())
}

/// All functions trap that chosen imports bring. `NotFound` where there is no such import, and `Memory`.
pub(crate) fn stub_chosen<S>(
    alloc: Global,
    module: &mut Module<S>,
    modules: &[Choice<'_>],
    names: &[Choice<'_>],
) -> Result<()>
    ensures { StubsChosen (choices_seen modules.now) (choices_seen names.now) «module».old «module».new
        result }
{
    let marks = chosen_imports(alloc, &module.imports, modules, names)?;
    trap_hits(alloc, module, &marks)
}

/// The bytes of the module where each function is local, of its old type, and traps that was imported from a module of which `modules` says
/// that it goes, and under a name of which `names` does; where there are no `names`, under any name. Then without what nothing reaches.
///
/// # Errors
///
/// `InvalidWasm` only where the bytes are no module that keeps the rules, `NotFound` only where no function is imported so, `TooLarge` only
/// where what is kept has a count or a size past 32 bits, and `Memory`.
pub fn stub_matching(
    alloc: Global,
    bytes: &[u8],
    wanted: Wanted,
    modules: &[Choice<'_>],
    names: &[Choice<'_>],
) -> Result<Vec<u8>>
    ensures { AnswersMatching (config_wanted wanted) bytes.now (choices_seen modules.now)
        (choices_seen names.now) result }
{
    let config = ModuleConfig::of_choices(wanted.names, wanted.producers, wanted.legacy);
    let mut module = config.parse(alloc, bytes)?;
    stub_chosen(alloc, &mut module, modules, names)?;
    finished_ready(alloc, module)
}
