//! What the program does where roots are chosen by name: the exports that won't be used go, and then what nothing reaches.

ghost use Rattle.walrus_sections.specs.Choice.{choices_seen};
ghost use Rattle.walrus_tools.specs.ChosenModule.{AnswersChosen, NoneChosen};
ghost use Rattle.walrus.specs.Wanted.{config_wanted};

use crate::keep::keep_chosen;
use std::alloc::Global;
use walrus::{ModuleConfig, Result, Wanted, finished_ready};
use walrus_sections::Choice;

/// The bytes of the module where of its exports those are left that are chosen; then without what nothing reaches. An export is chosen if a
/// choice of what is kept fits its name, or there is no such choice; and if no other choice fits it. The start function and active segments
/// stay roots. Takes a look-up or two for each export and each choice without a star, and for each choice with one a walk over all exports.
///
/// # Errors
///
/// `InvalidWasm` only where the bytes are no module that keeps the rules, `NotFound` only where a choice fits no export
/// ([`unfit`](crate::unfit) tells which), `TooLarge` only where what is kept has a count or a size past 32 bits, and `Memory`.
pub fn gc_chosen(
    alloc: Global,
    bytes: &[u8],
    wanted: Wanted,
    choices: &[Choice<'_>],
) -> Result<Vec<u8>>
    ensures { AnswersChosen (config_wanted wanted) bytes.now (choices_seen choices.now) result }
{
    let config = ModuleConfig::of_choices(wanted.names, wanted.producers, wanted.legacy);
    let mut module = config.parse(alloc, bytes)?;
    keep_chosen(alloc, &mut module, choices)?;
    finished_ready(alloc, module)
}

/// A law: of no choices [`gc_chosen`] promises what [`gc`](crate::gc) does.
pub fn none_is_chosen()
    ensures { NoneChosen }
{}
