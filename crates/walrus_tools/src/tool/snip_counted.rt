//! What a snipper does by function, where it says what was dropped.

ghost use Rattle.walrus_tools.specs.FunctionMeaning.{texts};
ghost use Rattle.walrus_tools.specs.TrapEdit.{RefusesMeant, SnipsMeant};
ghost use Rattle.walrus.specs.Wanted.{config_wanted};
ghost use Rattle.walrus_tools.specs.Weigh.{AnswersWeighed};

use crate::function_meaning::Meant;
use crate::kinds::kinds_of;
use crate::trap_bodies::trap_meant;
use crate::weigh::{Smaller, finished_weighed};
use std::alloc::Global;
use walrus::{ModuleConfig, Result, Wanted};

/// The bytes that [`snip_functions`](crate::snip_functions) makes, and what is told of them: how many items and bytes were read, and how many are
/// left. The body of a function that traps now and stays isn't counted as dropped.
///
/// # Errors
///
/// Those of [`snip_functions`](crate::snip_functions).
pub fn snip_counted(
    alloc: Global,
    bytes: &[u8],
    wanted: Wanted,
    functions: &[Meant<'_>],
) -> Result<Smaller>
    ensures { AnswersWeighed
        (SnipsMeant (texts functions.now)) (RefusesMeant (texts functions.now))
        (config_wanted wanted) bytes.now result }
{
    let config = ModuleConfig::of_choices(wanted.names, wanted.producers, wanted.legacy);
    let mut module = config.parse(alloc, bytes)?;
    let before = kinds_of(&module);
    trap_meant(alloc, &mut module, functions)?;
    finished_weighed(alloc, bytes, before, module)
}
