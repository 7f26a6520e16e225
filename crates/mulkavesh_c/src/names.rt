//! The calls that take lists of choices: of sections, of functions and of imports. Names are compared as bytes; no name of a module is bytes that aren't UTF-8,
//! so those aren't found.

ghost use Rattle.std.specs.Prelude.{◌≡◌, MatchResult};
ghost use Rattle.walrus_sections.specs.Choice.{AreChoices, choices_seen};
ghost use Rattle.walrus_tools.specs.FunctionMeaning.{texts};
ghost use Rattle.walrus_sections.specs.StripAnswers.{AnswersStripped};
ghost use Rattle.walrus_tools.specs.StubMatching.{AnswersMatching};
ghost use Rattle.walrus_tools.specs.TrapEdit.{AnswersMeant};
ghost use Rattle.walrus_tools.specs.Wanted.{config_wanted};
ghost use Rattle.mulkavesh_c.specs.Names.{LacksChoices, LacksTexts, UnderChoices, UnderLists, UnderTexts, names_of};

use std::alloc::Global;
use walrus_sections::{Choice, read_choices, strip};
use walrus_tools::{Error, Meant, Wanted, snip_functions, stub_matching};

/// The choices that the bytes are. Bytes that are no list of choices choose nothing that could be found.
pub(crate) fn choices_of<'a>(alloc: Global, bytes: &'a [u8]) -> Result<Vec<Choice<'a>>, Error>
    ensures { MatchResult result (λ v. AreChoices bytes.now (choices_seen v.items)) (LacksChoices bytes.now) }
{
    match read_choices(alloc, bytes)? {
        Some(choices) => Ok(choices),
        None => Err(Error::NotFound),
    }
}

// The texts that the names of choices are.
fn texts_of<'a>(alloc: Global, choices: &[Choice<'a>]) -> Result<Vec<Meant<'a>>, Error>
    ensures { MatchResult result (λ v. texts v.items ≡ names_of (choices_seen choices.now))
        (LacksTexts (names_of (choices_seen choices.now))) }
{
    let mut meant = Vec::new(alloc);
    'choices: for choice in choices {
        let Ok(name) = str::from_utf8(choice.name) else {
            return Err(Error::NotFound);
        };
        meant.push(Meant { name })?;
    }
    Ok(meant)
}

/// The bytes without the custom sections that go by these choices.
pub(crate) fn stripped(alloc: Global, input: &[u8], choice: &[u8]) -> Result<Vec<u8>, Error>
    ensures { UnderChoices choice.now (AnswersStripped input.now) result }
{
    let choices = choices_of(alloc, choice)?;
    strip(alloc, input, &choices)
}

/// The module in which the functions trap that the names of these choices mean.
pub(crate) fn snipped(
    alloc: Global,
    input: &[u8],
    wanted: Wanted,
    function: &[u8],
) -> Result<Vec<u8>, Error>
    ensures { UnderTexts function.now (AnswersMeant (config_wanted wanted) input.now) result }
{
    let choices = choices_of(alloc, function)?;
    let meant = texts_of(alloc, &choices)?;
    snip_functions(alloc, input, wanted, &meant)
}

/// The module in which the functions trap that were imported from modules and under names that go by these choices.
pub(crate) fn stubbed(
    alloc: Global,
    input: &[u8],
    wanted: Wanted,
    from: &[u8],
    name: &[u8],
) -> Result<Vec<u8>, Error>
    ensures { UnderLists from.now name.now (AnswersMatching (config_wanted wanted) input.now) result }
{
    let modules = choices_of(alloc, from)?;
    let names = choices_of(alloc, name)?;
    stub_matching(alloc, input, wanted, &modules, &names)
}
