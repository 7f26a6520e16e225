//! Reading a module's sections as they stand, whatever they hold (Binary Format > Modules > Sections).

ghost use Rattle.std.specs.Prelude.{◌≡◌, Bool, Some, IfOk, option_map};
ghost use Rattle.wasm_forms.specs.Reading.{Gives};
ghost use Rattle.wasm_frames.specs.Steps.{GoesOn};
ghost use Rattle.wasm_frames.specs.Pieces.{
  IsPieced,
  HasOneRow,
  HasOneStop,
  IsCutShort,
  HoldsAll,
  ModuleHasPieces,
  is_list,
  piece_record,
};
ghost use Rattle.wasm_frames.specs.PieceSteps.{name_in, count_in, piece_at};

use crate::read::read_header;
use std::alloc::{AllocError, Global};
use wasm_forms::{WireError, read_block, read_byte, read_name, read_u32};

/// A section as it stands, whatever it holds (Binary Format > Modules > Sections).
#[derive(Clone, Copy, Debug, PartialEq, Eq)]
pub struct RawPiece<'a> {
    /// The byte in front, one that the standard gives no meaning among them.
    pub id: u8,
    /// The name of a custom section (id 0).
    pub name: Option<&'a str>,
    /// The place of the id, in bytes from the start of the input.
    pub start: usize,
    /// The count in front of the content of a list (the ids 1 to 7, 9 to 11 and 13), where a number stands there.
    pub entries: Option<u32>,
    /// The id, the size and the content.
    pub bytes: &'a [u8],
}

/// How far bytes are sections: what [`pieces_until`] found.
#[derive(Drop)]
pub enum Pieced<'a> {
    /// All that stands behind the magic number and the version: the sections.
    Whole(Vec<RawPiece<'a>>),
    /// The magic number and the version don't stand in front.
    NoHeader,
    /// These sections stand up to this place, in bytes from the start of the input. Bytes are left there, and no section
    /// stands in front of them.
    Until(Vec<RawPiece<'a>>, usize),
}

/// The content of a section with this id is a list.
fn is_list_id(id: u8) -> bool
    ensures { result ≡ is_list id }
{
    0 < id && id < 14 && id != 8 && id != 12
}

/// The name in front of a custom section's content.
#[tactic(auto, unfolding(crate::specs::PieceSteps::name_in))]
fn read_name_in(id: u8, content: &[u8]) -> Result<Option<&str>, WireError>
    ensures { Gives (λ o. option_map (λ n. n.now) o) result (name_in id content.now) }
{
    if id != 0 {
        return Ok(None);
    }
    let (name, _behind) = read_name(content)?;
    Ok(Some(name))
}

/// The count in front of a list's content.
#[tactic(auto, unfolding(crate::specs::PieceSteps::count_in))]
fn read_count_in(id: u8, content: &[u8]) -> Result<Option<u32>, WireError>
    ensures { Gives (λ o. o) result (Some (count_in id content.now)) }
{
    if !is_list_id(id) {
        return Ok(None);
    }
    match read_u32(content) {
        Ok((count, _behind)) => Ok(Some(count)),
        Err(WireError::Malformed) => Ok(None),
        Err(failed) => Err(failed),
    }
}

/// The section at this place, and the bytes behind it.
#[tactic(auto, unfolding(crate::specs::PieceSteps::piece_at))]
fn read_piece(place: usize, bytes: &[u8]) -> Result<(RawPiece<'_>, &[u8]), WireError>
    ensures { Gives (λ x. (piece_record x.0, x.1.now)) result (piece_at place bytes.now) }
{
    let (id, after) = read_byte(bytes)?;
    let (content, rest) = read_block(after)?;
    let name = read_name_in(id, content)?;
    let entries = read_count_in(id, content)?;
    let piece = RawPiece {
        id,
        name,
        start: place,
        entries,
        bytes: &bytes[..bytes.len() - rest.len()],
    };
    Ok((piece, rest))
}

/// The section at this place and the bytes behind it, or `None` where none stands there.
fn next_piece(place: usize, bytes: &[u8]) -> Result<Option<(RawPiece<'_>, &[u8])>, AllocError>
    ensures { IfOk result (λ o. GoesOn (λ x. (piece_record x.0, x.1.now)) o (piece_at place bytes.now)) }
{
    match read_piece(place, bytes) {
        Ok(found) => Ok(Some(found)),
        Err(WireError::Memory(failed)) => Err(failed),
        // no reader refuses anything as too large
        Err(WireError::Malformed | WireError::TooLarge) => Ok(None),
    }
}

/// How far bytes are sections, by their framing alone: all of them, or up to which place, and these sections as they stand
/// (Binary Format > Modules > Sections). A section is an id, a size and that many bytes, the first of which are a name where
/// the id is 0. Takes time by the length of the input.
///
/// # Errors
///
/// Where memory runs out, and never else.
pub fn pieces_until(alloc: Global, bytes: &[u8]) -> Result<Pieced<'_>, AllocError>
    ensures { IfOk result (λ p. IsPieced bytes.now p) }
{
    let Some(mut rest) = read_header(bytes) else {
        return Ok(Pieced::NoHeader);
    };
    let mut pieces = Vec::new(alloc);
    while !rest.is_empty() {
        let place = bytes.len() - rest.len();
        let Some((piece, behind)) = next_piece(place, rest)? else {
            return Ok(Pieced::Until(pieces, place));
        };
        pieces.push(piece)?;
        rest = behind;
    }
    Ok(Pieced::Whole(pieces))
}

/// The sections of bytes are one list, whole or up to a place, and never both. Their bytes behind the magic number and the
/// version are all of a whole one's bytes. Each module has such a list.
pub fn one_row()
    ensures once { HasOneRow }
    ensures one_stop { HasOneStop }
    ensures apart { IsCutShort }
    ensures all { HoldsAll }
    ensures of_modules { ModuleHasPieces }
{}
