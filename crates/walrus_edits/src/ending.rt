//! What is done last with a module that was edited: it is checked, what nothing reaches goes where that is asked for, and it is written.

ghost use Rattle.walrus_edits.specs.Ending.{EndsChecked, EndsFormed};

use std::alloc::Global;
use std::result;
use walrus::passes::gc;
use walrus::{CustomSection, Flaw, Module, Result};

// The bytes of a module that passed the check, without what nothing reaches, if that is asked for.
fn emit_left(alloc: Global, mut module: Module, collects: bool) -> Result<Vec<u8>>
    ensures { EndsChecked ⟦<dyn CustomSection as CustomSection>⟧ «module» collects result }
{
    if !collects {
        return module.emit_wasm(alloc);
    }
    gc::run(alloc, &mut module)?;
    module.emit_wasm(alloc)
}

/// The bytes of the module, which keeps the rules; without what nothing reaches, if that is asked for.
///
/// # Errors
///
/// Of a module of which bodies and custom sections are known to be fine: what [`diagnose`](walrus::Module::diagnose) tells; `DeadItem` only where
/// gc is asked for and a root leads to what isn't there, as a table may whose segment is gone; `TooLarge` only where what is left has a count or a size
/// past 32 bits; and `Memory`.
pub(crate) fn written(
    alloc: Global,
    module: Module,
    collects: bool,
) -> result::Result<Vec<u8>, Flaw>
    ensures { EndsFormed ⟦<dyn CustomSection as CustomSection>⟧ «module» collects result }
{
    module.diagnose(alloc)?;
    let output = emit_left(alloc, module, collects)?;
    Ok(output)
}
