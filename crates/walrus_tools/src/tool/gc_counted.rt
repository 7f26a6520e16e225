//! What the program does where it says what was dropped: a module without what nothing reaches, and how many items and bytes went.

ghost use Rattle.walrus_sections.specs.Choice.{choices_seen};
ghost use Rattle.walrus_tools.specs.ChosenModule.{KeepsChosen, RefusesChosen};
ghost use Rattle.walrus.specs.Wanted.{config_wanted};
ghost use Rattle.walrus_tools.specs.Weigh.{AnswersWeighed};

use crate::keep::keep_chosen;
use crate::kinds::kinds_of;
use crate::weigh::{Smaller, finished_weighed};
use std::alloc::Global;
use walrus::{ModuleConfig, Result, Wanted};
use walrus_sections::Choice;

/// The bytes that [`gc_chosen`](crate::gc_chosen) makes, and what is told of them: how many items and bytes were read, and how many are left. The
/// module is read and searched once.
///
/// # Errors
///
/// Those of [`gc_chosen`](crate::gc_chosen).
pub fn gc_counted(
    alloc: Global,
    bytes: &[u8],
    wanted: Wanted,
    choices: &[Choice<'_>],
) -> Result<Smaller>
    ensures { AnswersWeighed
        (KeepsChosen (choices_seen choices.now)) (RefusesChosen (choices_seen choices.now))
        (config_wanted wanted) bytes.now result }
{
    let config = ModuleConfig::of_choices(wanted.names, wanted.producers, wanted.legacy);
    let mut module = config.parse(alloc, bytes)?;
    let before = kinds_of(&module);
    keep_chosen(alloc, &mut module, choices)?;
    finished_weighed(alloc, bytes, before, module)
}
