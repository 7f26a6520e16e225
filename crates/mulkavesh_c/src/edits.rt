//! What a list of edits comes to that is refused: its status, and the number that is told as the length.

ghost use Rattle.std.specs.Prelude.{◌≡◌};
ghost use Rattle.mulkavesh_c.specs.Edits.{status_of_flaw, status_of_refusal, status_or, told_of_edit, told_of_refusal};

use crate::answer::{NO_MEMORY, TOO_LARGE, refused, status_of};
use walrus_edits::{Flaw, Refusal};
use walrus_tools::Error;

/// An edit isn't of its form, or can't be made of what the ones before it left; how many these are is told.
const BAD_EDIT: u32 = 7;
/// What all edits left can't be written; the number of the cause is told.
const BAD_MODULE: u32 = 8;

// The status of what is too large and of memory that ran out, or else this one.
fn status_or(error: &Error, other: u32) -> u32
    ensures { result ≡ status_or error.now other }
{
    match error {
        Error::TooLarge => TOO_LARGE,
        Error::Memory(_) => NO_MEMORY,
        _ => other,
    }
}

// What is told of an edit that is refused, where so many before it were made.
fn told_of_edit(applied: usize, error: &Error) -> usize
    ensures { result ≡ told_of_edit applied error.now }
{
    match error {
        Error::TooLarge => 0,
        Error::Memory(_) => 0,
        _ => applied,
    }
}

// The status where this is wrong with what all edits left.
fn status_of_flaw(flaw: &Flaw) -> u32
    ensures { result ≡ status_of_flaw flaw.now }
{
    match flaw {
        Flaw::Rule(_) => BAD_MODULE,
        Flaw::Form(error) => status_or(error, BAD_MODULE),
    }
}

/// Nothing is written: this is why.
pub(crate) fn refuse(refusal: &Refusal, length: &mut usize) -> u32
    ensures status { result ≡ status_of_refusal refusal.now }
    ensures told { length.new ≡ told_of_refusal refusal.now }
{
    match refusal {
        Refusal::Input(error) => refused(length, status_of(error)),
        Refusal::Edit(applied, error) => {
            *length = told_of_edit(*applied, error);
            status_or(error, BAD_EDIT)
        }
        Refusal::Whole(flaw) => {
            // None where memory ran out, or what is left is too large.
            *length = flaw.number() as usize;
            status_of_flaw(flaw)
        }
    }
}
