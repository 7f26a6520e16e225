//! What a packager does: the custom sections that won't be read go, and all else stays as it is.

ghost use Rattle.std.specs.Prelude.{◌≡◌, ◌↔◌, IfOk, false, map, true};
ghost use Rattle.wasm_frames.specs.Pieces.{piece_record};
ghost use Rattle.walrus_sections.specs.Choice.{choice_seen, choices_seen};
ghost use Rattle.walrus_sections.specs.StripAnswers.{AllFit, AnswersStripped, AreLeft, FitsName, FitsSection, OneFitsNone, SectionGoes};
ghost use Rattle.walrus_sections.specs.StripSteps.{IsLeftOf, IsMet, ReadsPieces};

use crate::choice::{Choice, goes};
use crate::tool::fits::fits;
use std::alloc::{AllocError, Global};
use std::result;
use walrus_items::{Error, ErrorKind, Result};
use wasm_frames::{Pieced, RawPiece, pieces_until};

// The magic number and the version ("Binary Format > Modules").
const HEADER: &[u8] = b"\x00asm\x01\x00\x00\x00";

// Whether the choice fits the name of the section.
fn fits_name(choice: &Choice<'_>, piece: &RawPiece<'_>) -> bool
    ensures { (result ≡ true) ↔ FitsName (choice_seen choice.now) (piece_record piece.now).name }
{
    match piece.name {
        Some(name) => fits(choice.name, name.as_bytes()),
        None => false,
    }
}

// Whether the choice fits the name of one of the sections.
fn fits_section(pieces: &[RawPiece<'_>], choice: &Choice<'_>) -> bool
    ensures { (result ≡ true) ↔ FitsSection (map piece_record pieces.now) (choice_seen choice.now) }
{
    for piece in pieces {
        if fits_name(choice, piece) {
            return true;
        }
    }
    false
}

// Whether the choice is one of what is kept, or fits the name of one of the sections.
fn is_met(pieces: &[RawPiece<'_>], choice: &Choice<'_>) -> bool
    ensures { (result ≡ true) ↔ IsMet (map piece_record pieces.now) (choice_seen choice.now) }
{
    choice.is_kept || fits_section(pieces, choice)
}

// Whether each choice of what goes fits the name of one of the sections.
fn all_fit(pieces: &[RawPiece<'_>], choices: &[Choice<'_>]) -> bool
    ensures all { result ≡ true → AllFit (map piece_record pieces.now) (choices_seen choices.now) }
    ensures none { result ≡ false
        → OneFitsNone (map piece_record pieces.now) (choices_seen choices.now) }
{
    for choice in choices {
        if !is_met(pieces, choice) {
            return false;
        }
    }
    true
}

// Whether the section goes.
fn section_goes(choices: &[Choice<'_>], piece: &RawPiece<'_>) -> bool
    ensures { (result ≡ true) ↔ SectionGoes (choices_seen choices.now) (piece_record piece.now) }
{
    match piece.name {
        Some(name) => goes(choices, name.as_bytes()),
        None => false,
    }
}

// The bytes of the section, or none where it goes.
fn left_of<'a>(choices: &[Choice<'_>], piece: &RawPiece<'a>) -> &'a [u8]
    ensures { IsLeftOf (choices_seen choices.now) (piece_record piece.now) result.now }
{
    if section_goes(choices, piece) {
        &[]
    } else {
        piece.bytes
    }
}

// The header, and of the sections those that don't go.
fn what_is_left(
    alloc: Global,
    pieces: &[RawPiece<'_>],
    choices: &[Choice<'_>],
) -> result::Result<Vec<u8>, AllocError>
    ensures { IfOk result (λ v. AreLeft (choices_seen choices.now)
        (map piece_record pieces.now) v.items) }
{
    let mut output = Vec::new(alloc);
    output.extend_from_slice(HEADER)?;
    for piece in pieces {
        output.extend_from_slice(left_of(choices, piece))?;
    }
    Ok(output)
}

// The sections, where they are all of the bytes behind the header.
fn whole_pieces(alloc: Global, bytes: &[u8]) -> Result<Vec<RawPiece<'_>>>
    ensures { ReadsPieces bytes.now result }
{
    match pieces_until(alloc, bytes)? {
        Pieced::Whole(pieces) => Ok(pieces),
        Pieced::NoHeader => Err(Error::InvalidWasm(ErrorKind::InvalidWasm)),
        Pieced::Until(_pieces, _place) => Err(Error::InvalidWasm(ErrorKind::InvalidWasm)),
    }
}

/// The bytes without the custom sections that go by these choices: the header, and all other sections as they stand, byte for byte and in
/// their order. What the sections hold isn't read. Takes time by the product of the number of sections, that of choices, and the lengths of
/// their names.
///
/// # Errors
///
/// `InvalidWasm` exactly where the bytes aren't a header and whole sections up to their end, `NotFound` only where a choice of what goes fits
/// the name of no custom section, and `Memory`.
pub fn strip(alloc: Global, bytes: &[u8], choices: &[Choice<'_>]) -> Result<Vec<u8>>
    ensures { AnswersStripped bytes.now (choices_seen choices.now) result }
{
    let pieces = whole_pieces(alloc, bytes)?;
    if !all_fit(&pieces, choices) {
        return Err(Error::NotFound);
    }
    Ok(what_is_left(alloc, &pieces, choices)?)
}
