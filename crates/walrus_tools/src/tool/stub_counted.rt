//! What a linker or a tester does with imports that nobody will give, where it says what was dropped.

ghost use Rattle.walrus_sections.specs.Choice.{choices_seen};
ghost use Rattle.walrus_tools.specs.StubMatching.{RefusesMatching, StubsMatching};
ghost use Rattle.walrus.specs.Wanted.{config_wanted};
ghost use Rattle.walrus_tools.specs.Weigh.{AnswersWeighed};

use crate::kinds::kinds_of;
use crate::tool::stub_matching::stub_chosen;
use crate::weigh::{Smaller, finished_weighed};
use std::alloc::Global;
use walrus::{ModuleConfig, Result, Wanted};
use walrus_sections::Choice;

/// The bytes that [`stub_matching`](crate::stub_matching) makes, and what is told of them: how many items and bytes were read, and how many are
/// left.
///
/// # Errors
///
/// Those of [`stub_matching`](crate::stub_matching).
pub fn stub_counted(
    alloc: Global,
    bytes: &[u8],
    wanted: Wanted,
    modules: &[Choice<'_>],
    names: &[Choice<'_>],
) -> Result<Smaller>
    ensures { AnswersWeighed
        (StubsMatching (choices_seen modules.now) (choices_seen names.now))
        (RefusesMatching (choices_seen modules.now) (choices_seen names.now))
        (config_wanted wanted) bytes.now result }
{
    let config = ModuleConfig::of_choices(wanted.names, wanted.producers, wanted.legacy);
    let mut module = config.parse(alloc, bytes)?;
    let before = kinds_of(&module);
    stub_chosen(alloc, &mut module, modules, names)?;
    finished_weighed(alloc, bytes, before, module)
}
