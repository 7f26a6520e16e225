//! An import whose function traps from now on.

ghost use Rattle.walrus.specs.Modules.Replaced.{ReplacesImport};
ghost use Rattle.walrus_tools.specs.StubAnswers.{PutsTrap};

use crate::traps::put_trap;
use std::alloc::Global;
use walrus::{FunctionId, ImportId, InstrSeqBuilder, LocalId, Module, Result};

/// The function that this import brings is local under its id, and traps.
///
/// # Errors
///
/// As `replace_import` of a module: `NotFound` only where the import brings no function, `TooLarge`, and `Memory`.
pub fn trap_import<S>(alloc: Global, module: &mut Module<S>, at: ImportId) -> Result<FunctionId>
    ensures { ReplacesImport PutsTrap at «module».old «module».new result }
{
    module.replace_import(
        alloc,
        at,
        |body: &mut InstrSeqBuilder, _args: &Vec<LocalId>| -> Result<()> { put_trap(body) },
    )
}
