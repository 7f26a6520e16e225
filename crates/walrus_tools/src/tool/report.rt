//! What a developer asks before anything is written: how many items and bytes there are, and how many would be left.

ghost use Rattle.walrus_sections.specs.Choice.{choices_seen};
ghost use Rattle.walrus.specs.Wanted.{config_wanted};
ghost use Rattle.walrus_tools.specs.Weigh.{AnswersReport};

use crate::tool::gc_counted::gc_counted;
use crate::weigh::Weighed;
use std::alloc::Global;
use walrus::{Result, Wanted};
use walrus_sections::Choice;

/// What [`gc_counted`](crate::gc_counted) tells: how many items and bytes there are, and how many are left where of the exports those stay that are chosen,
/// and what nothing reaches goes.
///
/// # Errors
///
/// Those of [`gc_chosen`](crate::gc_chosen).
pub fn report(
    alloc: Global,
    bytes: &[u8],
    wanted: Wanted,
    choices: &[Choice<'_>],
) -> Result<Weighed>
    ensures { AnswersReport (config_wanted wanted) bytes.now (choices_seen choices.now) result }
{
    let smaller = gc_counted(alloc, bytes, wanted, choices)?;
    Ok(smaller.told)
}
