//! Choices by name, and a list of them as bytes, which is how a program hands them over.

ghost use Rattle.std.specs.Prelude.{◌≡◌, ◌↔◌, IfOk, true};
ghost use Rattle.walrus_sections.specs.Choice.{AllGo, AreRead, FitsOne, Goes, IsFirst, IsList, OneList, Suits, choice_seen, choices_seen};

use crate::tool::fits::fits;
use std::alloc::{AllocError, Global};

/// What is said of each text that a name fits: that it is kept, or that it goes.
#[derive(Clone, Copy, Debug, PartialEq, Eq)]
pub struct Choice<'a> {
    /// Whether such a text is kept. Else it goes.
    pub is_kept: bool,
    /// The name. A star in it stands for any bytes, a backslash and a star for a star.
    pub name: &'a [u8],
}

// The choice at the front of the bytes, and the bytes behind it.
fn first_choice(bytes: &[u8]) -> Option<(Choice<'_>, &[u8])>
    ensures { IsFirst bytes.now result }
{
    let [kind, a, b, c, d, rest @ ..] = bytes else {
        return None;
    };
    if *kind > 1 {
        return None;
    }
    let length = u32::from_le_bytes([*a, *b, *c, *d]);
    let (name, behind) = rest.split_at_checked(length as usize)?;
    let choice = Choice {
        is_kept: *kind == 1,
        name,
    };
    Some((choice, behind))
}

/// Whether the bytes are a list of choices, as [`read_choices`] reads it. Takes no memory.
pub fn are_choices(bytes: &[u8]) -> bool
    ensures { (result ≡ true) ↔ IsList bytes.now }
{
    let mut left = bytes;
    'records: while !left.is_empty() {
        let Some((_choice, behind)) = first_choice(left) else {
            return false;
        };
        left = behind;
    }
    true
}

/// Whether the bytes are a list of choices that all say that such texts go. Takes no memory.
pub fn all_go(bytes: &[u8]) -> bool
    ensures { (result ≡ true) ↔ AllGo bytes.now }
{
    let mut left = bytes;
    'records: while !left.is_empty() {
        let Some((choice, behind)) = first_choice(left) else {
            return false;
        };
        if choice.is_kept {
            return false;
        }
        left = behind;
    }
    true
}

/// The choices that the bytes are, one record after another: a byte that is 1 where such texts are kept and 0 where they go, four bytes of
/// length, the lowest first, and so many bytes, the name. `None` where the bytes are no such list.
pub fn read_choices<'a>(
    alloc: Global,
    bytes: &'a [u8],
) -> Result<Option<Vec<Choice<'a>>>, AllocError>
    ensures { IfOk result (AreRead bytes.now) }
{
    let mut choices = Vec::new(alloc);
    let mut left = bytes;
    'records: while !left.is_empty() {
        let Some((choice, behind)) = first_choice(left) else {
            return Ok(None);
        };
        choices.push(choice)?;
        left = behind;
    }
    Ok(Some(choices))
}

// Whether the choice is of this kind, and its name fits the text.
fn suits(choice: &Choice<'_>, is_kept: bool, text: &[u8]) -> bool
    ensures { (result ≡ true) ↔ Suits is_kept text.now (choice_seen choice.now) }
{
    choice.is_kept == is_kept && fits(choice.name, text)
}

// Whether a choice of this kind fits the text.
fn fits_one(choices: &[Choice<'_>], is_kept: bool, text: &[u8]) -> bool
    ensures { (result ≡ true) ↔ FitsOne (choices_seen choices.now) is_kept text.now }
{
    'choices: for choice in choices {
        if suits(choice, is_kept, text) {
            return true;
        }
    }
    false
}

/// Whether a text goes: some choice says that it goes, and none that it is kept.
pub fn goes(choices: &[Choice<'_>], text: &[u8]) -> bool
    ensures { (result ≡ true) ↔ Goes (choices_seen choices.now) text.now }
{
    fits_one(choices, false, text) && !fits_one(choices, true, text)
}

/// A law: bytes are at most one list of choices.
pub fn list_is_one()
    ensures { OneList }
{}
