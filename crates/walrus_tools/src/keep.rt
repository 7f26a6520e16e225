//! The edit that leaves of a module's exports those that are chosen. It stands in front of what is made of a module of chosen roots.

ghost use Rattle.walrus_sections.specs.Choice.{choices_seen};
ghost use Rattle.walrus_tools.specs.ChosenModule.{KeepsOrRefuses};

use crate::named_exports::{drop_others, unfit_number};
use std::alloc::Global;
use walrus::{Error, Module, Result};
use walrus_sections::{Choice, chooser_of};

/// The exports whose names aren't chosen are gone. `NotFound` exactly where a choice fits no export, unless memory runs out.
pub(crate) fn keep_chosen<S>(
    alloc: Global,
    module: &mut Module<S>,
    choices: &[Choice<'_>],
) -> Result<()>
    ensures { KeepsOrRefuses (choices_seen choices.now) «module».old «module».new result }
{
    if unfit_number(alloc, &module.exports, choices)?.is_some() {
        return Err(Error::NotFound);
    }
    let chooser = chooser_of(alloc, choices)?;
    drop_others(&mut module.exports, &chooser);
    Ok(())
}
