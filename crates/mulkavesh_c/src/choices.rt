//! What is made under a choice of exports. Where a NAME of it fits none, its number is told.

ghost use Rattle.std.specs.Prelude.{◌≡◌, Err};
ghost use Rattle.walrus_sections.specs.Choice.{choices_seen};
ghost use Rattle.walrus_tools.specs.Facade.{NotFound};
ghost use Rattle.walrus_tools.specs.Wanted.{config_wanted};
ghost use Rattle.mulkavesh_c.specs.ChosenRoots.{IsNumbered, MakesChosen, is_missing};
ghost use Rattle.mulkavesh_c.specs.Questions.{AnswersCallers, AnswersLines, AnswersTo, AnswersWhy};

use crate::answer::Made;
use crate::names::choices_of;
use crate::question::Question;
use std::alloc::Global;
use walrus_sections::Choice;
use walrus_tools::{
    Error, Wanted, caller_list, dropped_list, export_list, function_list, gc_chosen, import_list,
    reason_list, report, report_lines, unfit,
};

// What is kept and dropped, as the bytes of a text.
fn reported(
    alloc: Global,
    input: &[u8],
    wanted: Wanted,
    choices: &[Choice<'_>],
) -> Result<Vec<u8>, Error>
    ensures { AnswersLines (config_wanted wanted) input.now (choices_seen choices.now) result }
{
    let told = report(alloc, input, wanted, choices)?;
    Ok(report_lines(alloc, &told)?.into_bytes())
}

// Why what this text means stays, as bytes.
fn reasoned(
    alloc: Global,
    input: &[u8],
    wanted: Wanted,
    choices: &[Choice<'_>],
    text: &[u8],
) -> Result<Vec<u8>, Error>
    ensures { AnswersWhy text.now (config_wanted wanted) input.now (choices_seen choices.now) result }
{
    match str::from_utf8(text) {
        Ok(text) => reason_list(alloc, input, wanted, choices, text),
        Err(_) => Err(Error::NotFound),
    }
}

// What stays and refers to what this text means, as bytes.
fn referred(
    alloc: Global,
    input: &[u8],
    wanted: Wanted,
    choices: &[Choice<'_>],
    text: &[u8],
) -> Result<Vec<u8>, Error>
    ensures { AnswersCallers text.now (config_wanted wanted) input.now (choices_seen choices.now)
        result }
{
    match str::from_utf8(text) {
        Ok(text) => caller_list(alloc, input, wanted, choices, text),
        Err(_) => Err(Error::NotFound),
    }
}

// The answer under these choices.
fn answered(
    alloc: Global,
    question: Question<'_>,
    input: &[u8],
    wanted: Wanted,
    choices: &[Choice<'_>],
) -> Result<Vec<u8>, Error>
    ensures { AnswersTo question.entry (config_wanted wanted) input.now (choices_seen choices.now) result }
{
    match question {
        Question::Smaller => gc_chosen(alloc, input, wanted, choices),
        Question::Report => reported(alloc, input, wanted, choices),
        Question::Listed => function_list(alloc, input, wanted, choices),
        Question::Dropped => dropped_list(alloc, input, wanted, choices),
        Question::Exports => export_list(alloc, input, wanted, choices),
        Question::Imports => import_list(alloc, input, wanted, choices),
        Question::Why(text) => reasoned(alloc, input, wanted, choices, text),
        Question::Callers(text) => referred(alloc, input, wanted, choices, text),
    }
}

// Whether it says that something wasn't found.
fn is_missing(error: &Error) -> bool
    ensures { result ≡ is_missing error.now }
{
    match error {
        Error::NotFound => true,
        _ => false,
    }
}

// The refusal where something wasn't found: with the number of the first choice that fits no export, or else with how many they are.
fn unfound(alloc: Global, input: &[u8], wanted: Wanted, choices: &[Choice<'_>]) -> Made
    ensures { IsNumbered (config_wanted wanted) input.now (choices_seen choices.now) (Err NotFound) result }
{
    match unfit(alloc, input, wanted, choices) {
        Ok(found) => Made {
            answer: Err(Error::NotFound),
            number: found.unwrap_or(choices.len()),
        },
        Err(error) => Made::of(Err(error)),
    }
}

// What was answered under these choices, with the number where something wasn't found.
fn numbered(
    alloc: Global,
    input: &[u8],
    wanted: Wanted,
    choices: &[Choice<'_>],
    answer: Result<Vec<u8>, Error>,
) -> Made
    ensures { IsNumbered (config_wanted wanted) input.now (choices_seen choices.now) answer result }
{
    let error = match answer {
        Ok(bytes) => return Made::of(Ok(bytes)),
        Err(error) => error,
    };
    if is_missing(&error) {
        return unfound(alloc, input, wanted, choices);
    }
    Made::of(Err(error))
}

/// What is made under the choices that these bytes are.
pub(crate) fn answer_to(
    alloc: Global,
    question: Question<'_>,
    input: &[u8],
    wanted: Wanted,
    choice: &[u8],
) -> Made
    ensures { MakesChosen (config_wanted wanted) input.now choice.now
        (AnswersTo question.entry (config_wanted wanted) input.now) result }
{
    let choices = match choices_of(alloc, choice) {
        Ok(choices) => choices,
        Err(error) => return Made::of(Err(error)),
    };
    let answer = answered(alloc, question, input, wanted, &choices);
    numbered(alloc, input, wanted, &choices, answer)
}
