//! Which NAME fits no export, for who was told that one does.

ghost use Rattle.walrus_sections.specs.Choice.{choices_seen};
ghost use Rattle.walrus_tools.specs.ChosenModule.{AnswersUnfit};
ghost use Rattle.walrus.specs.Wanted.{config_wanted};

use crate::named_exports::unfit_number;
use std::alloc::Global;
use walrus::{ModuleConfig, Result, Wanted};
use walrus_sections::Choice;

/// The number, from 0, of the first choice that fits the name of no export of the module, or `None` where each fits one.
///
/// # Errors
///
/// `InvalidWasm` only where the bytes are no module that keeps the rules, and `Memory`.
pub fn unfit(
    alloc: Global,
    bytes: &[u8],
    wanted: Wanted,
    choices: &[Choice<'_>],
) -> Result<Option<usize>>
    ensures { AnswersUnfit (config_wanted wanted) bytes.now (choices_seen choices.now) result }
{
    let config = ModuleConfig::of_choices(wanted.names, wanted.producers, wanted.legacy);
    let module = config.parse(alloc, bytes)?;
    Ok(unfit_number(alloc, &module.exports, choices)?)
}
