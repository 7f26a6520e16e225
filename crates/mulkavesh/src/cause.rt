//! Why an order isn't carried out, and what is said of that.

ghost use Rattle.std.specs.Prelude.{◌≡◌, IfOk, IfSome};
ghost use Rattle.mulkavesh.specs.Cause.{SaysFault, SaysRefused, SaysUnfit, WordsRefusal, absent_text, refusal_text, said_text, unfit_text};
ghost use Rattle.mulkavesh.specs.Choices.{roots_of};
ghost use Rattle.walrus_tools.specs.Wanted.{config_wanted};

use crate::choices::roots_of;
use crate::order::{Order, Work};
use crate::verdicts::REFUSED;
use crate::visible::add_shown;
use std::alloc::{AllocError, Global};
use walrus_tools::{Error, Fault, Wanted, diagnose, fault_words, unfit};

/// Why an order isn't carried out.
#[derive(Drop)]
pub enum Cause {
    /// The source failed.
    Read,
    /// The sink failed.
    Write,
    /// The order is refused. What is said of that, where more was found than the error says: what is wrong with invalid bytes, or which NAME fits
    /// nothing.
    Refused(Error, Option<Vec<u8>>),
}

/// What is said of bytes that are refused by this error, where more can be found than the error says, and memory suffices for that.
pub(crate) fn said_of(alloc: Global, order: &Order, bytes: &[u8], error: &Error) -> Option<Vec<u8>>
    ensures { IfSome result (λ text. SaysRefused order.now bytes.now error.now text.items) }
{
    match error {
        Error::InvalidWasm(_) => fault_in(alloc, bytes, order.wanted),
        Error::NotFound => unfit_in(alloc, order, bytes).unwrap_or(None),
        _ => None,
    }
}

// What is said of bytes that are invalid.
fn fault_in(alloc: Global, bytes: &[u8], wanted: Wanted) -> Option<Vec<u8>>
    ensures { IfSome result (λ text. SaysFault (config_wanted wanted) bytes.now text.items) }
{
    match diagnose(alloc, bytes, wanted) {
        Ok(Some(fault)) => worded(alloc, fault, bytes).ok(),
        _ => None,
    }
}

// What is said of NAMEs of which one fits no export, if one does.
fn unfit_in(alloc: Global, order: &Order, bytes: &[u8]) -> Result<Option<Vec<u8>>, Error>
    ensures { IfOk result (λ said. IfSome said (λ text.
        SaysUnfit (config_wanted order.now.wanted) bytes.now (roots_of order.now) text.items)) }
{
    let choices = roots_of(alloc, order)?;
    if choices.is_empty() {
        return Ok(None);
    }
    let Some(number) = unfit(alloc, bytes, order.wanted, &choices)? else {
        return Ok(None);
    };
    let Some(choice) = choices.get(number) else {
        return Ok(None);
    };
    Ok(Some(unfit_text(alloc, choice.name)?))
}

// What is said of a NAME that fits no export.
fn unfit_text(alloc: Global, name: &[u8]) -> Result<Vec<u8>, AllocError>
    ensures { IfOk result (λ text. text.items ≡ unfit_text name.now) }
{
    let mut text = Vec::new(alloc);
    text.extend_from_slice(b"no export fits ")?;
    add_shown(&mut text, name)?;
    Ok(text)
}

/// What is said of bytes that are invalid, and behind it what is wrong with them.
pub(crate) fn worded(alloc: Global, fault: Fault, bytes: &[u8]) -> Result<Vec<u8>, AllocError>
    ensures { IfOk result (λ text. WordsRefusal bytes.now fault text.items) }
{
    let words = fault_words(alloc, fault, bytes)?;
    let mut text = String::from_str(alloc, REFUSED)?;
    text.push_str(": ")?;
    text.push_str(words.as_str())?;
    Ok(text.into_bytes())
}

/// What a refusal says: what was found, or else what the error says.
pub(crate) fn text_said<'a>(work: Work, error: &'a Error, said: &'a Option<Vec<u8>>) -> &'a [u8]
    ensures { result.now ≡ said_text work error.now said.now }
{
    match said {
        Some(text) => text.as_slice(),
        None => text_of(work, error).as_bytes(),
    }
}

// What a refusal says, in the words of the subcommand.
fn text_of(work: Work, error: &Error) -> &str
    ensures { result.now ≡ refusal_text work error.now }
{
    match error {
        Error::InvalidWasm(_) => REFUSED,
        Error::NotFound => absent(work),
        Error::NotReplaceable => "one of the functions is imported",
        other => other.text(),
    }
}

// What isn't there.
fn absent(work: Work) -> &'static str
    ensures { result.now ≡ absent_text work }
{
    match work {
        Work::Strip => "one of the options fits no custom section",
        Work::Snip => "there is no such function",
        Work::Stub => "no function is imported so",
        Work::Why => "there is no such function or export",
        _ => "one of the options fits no export",
    }
}
