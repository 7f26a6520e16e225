//! What a snipper does by function: those that won't be called trap, and what they alone reached goes.

ghost use Rattle.walrus_tools.specs.FunctionMeaning.{texts};
ghost use Rattle.walrus_tools.specs.TrapEdit.{AnswersMeant};
ghost use Rattle.walrus.specs.Wanted.{config_wanted};

use crate::function_meaning::Meant;
use crate::trap_bodies::trap_meant;
use std::alloc::Global;
use walrus::{ModuleConfig, Result, Wanted, finished_ready};

/// The bytes of the module where each function that one of these texts means traps at once, under its own id, so that whoever calls it
/// traps; then without what nothing reaches. For a name without a star the functions and the exports are walked once each, and so they are for
/// one with a star, however many functions it means.
///
/// # Errors
///
/// `InvalidWasm` only where the bytes are no module that keeps the rules. By the first text that is refused: `NotFound` only where it means no
/// function, and `NotReplaceable` only where it means an imported one. `TooLarge` only where what is kept has a count or a size past 32 bits,
/// and `Memory`.
pub fn snip_functions(
    alloc: Global,
    bytes: &[u8],
    wanted: Wanted,
    functions: &[Meant<'_>],
) -> Result<Vec<u8>>
    ensures { AnswersMeant (config_wanted wanted) bytes.now (texts functions.now) result }
{
    let config = ModuleConfig::of_choices(wanted.names, wanted.producers, wanted.legacy);
    let mut module = config.parse(alloc, bytes)?;
    trap_meant(alloc, &mut module, functions)?;
    finished_ready(alloc, module)
}
