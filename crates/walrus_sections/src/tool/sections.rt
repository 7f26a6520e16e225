//! What a developer asks of a module whatever its sections hold: which sections it has, where, and how large.

ghost use Rattle.std.specs.Prelude.{◌≡◌, ◌++◌, IfErr, IfOk, OnOk, flat_map, map, option_map};
ghost use Rattle.wasm_frames.specs.Pieces.{piece_record};
ghost use Rattle.walrus_sections.specs.Numbers.{IsLongName, RefusesIf, name_bytes};
ghost use Rattle.walrus_sections.specs.Sections.{AnswersPieced, AnswersSections, HasLongSection, IsLongList, IsLongSection, bit, count_of, is_counted, list_bytes, names_of, section_bytes};

use crate::numbers::{NO_NAME, add_number, add_text, narrow};
use std::alloc::Global;
use walrus_items::{Error, ErrorKind, Result};
use wasm_frames::{Pieced, RawPiece, pieces_until};

/// How far bytes are sections, by their framing alone: [`pieces_until`] with the library's error.
///
/// # Errors
///
/// `Memory` alone.
pub fn sections(alloc: Global, bytes: &[u8]) -> Result<Pieced<'_>>
    ensures { AnswersPieced bytes.now result }
{
    Ok(pieces_until(alloc, bytes)?)
}

// 1 where it is so, and else 0.
fn bit(is_so: bool) -> u8
    ensures { result ≡ bit is_so }
{
    if is_so { 1 } else { 0 }
}

// Whether a count of entries stands in a section, as 1 or 0, and the count, as 0 where none stands.
fn counted(entries: Option<u32>) -> (u8, u32)
    ensures { result ≡ (is_counted entries, count_of entries) }
{
    match entries {
        Some(count) => (1, count),
        None => (0, 0),
    }
}

// Puts the length of a section's name and the name behind the bytes, or what says that it has none.
fn add_name(to: &mut Vec<u8>, name: Option<&str>) -> Result<()>
    ensures value { OnOk result (to.new.items ≡ to.old.items
        ++ name_bytes (names_of (option_map (λ n. n.now) name.entry))) }
    ensures fits { OnOk result (IsLongName (names_of (option_map (λ n. n.now) name.entry)) → ⊥) }
    ensures refused { IfErr result (RefusesIf
        (IsLongName (names_of (option_map (λ n. n.now) name.entry)))) }
{
    match name {
        Some(name) => add_text(to, name),
        None => Ok(add_number(to, NO_NAME)?),
    }
}

// Puts a section behind the bytes.
pub(crate) fn add_section(to: &mut Vec<u8>, piece: RawPiece<'_>) -> Result<()>
    ensures value { OnOk result (to.new.items ≡ to.old.items
        ++ section_bytes (piece_record piece.entry)) }
    ensures fits { OnOk result (IsLongSection (piece_record piece.entry) → ⊥) }
    ensures refused { IfErr result (RefusesIf (IsLongSection (piece_record piece.entry))) }
{
    let start = narrow(piece.start)?;
    let size = narrow(piece.bytes.len())?;
    let (is_counted, count) = counted(piece.entries);
    to.push(piece.id)?;
    to.push(is_counted)?;
    add_number(to, start)?;
    add_number(to, size)?;
    add_number(to, count)?;
    add_name(to, piece.name)
}

// Puts the sections behind the bytes.
fn add_sections(to: &mut Vec<u8>, pieces: &[RawPiece<'_>]) -> Result<()>
    ensures value { OnOk result (to.new.items ≡ to.old.items
        ++ flat_map section_bytes (map piece_record pieces.now)) }
    ensures fits { OnOk result (HasLongSection (map piece_record pieces.now) → ⊥) }
    ensures refused { IfErr result (RefusesIf (HasLongSection (map piece_record pieces.now))) }
{
    for piece in pieces {
        add_section(to, *piece)?;
    }
    Ok(())
}

// The sections up to this place, as bytes.
fn told(alloc: Global, is_whole: bool, place: usize, pieces: &[RawPiece<'_>]) -> Result<Vec<u8>>
    ensures value { IfOk result (λ list. list.items
        ≡ list_bytes is_whole place (map piece_record pieces.now)) }
    ensures fits { OnOk result (IsLongList place (map piece_record pieces.now) → ⊥) }
    ensures refused { IfErr result (RefusesIf (IsLongList place (map piece_record pieces.now))) }
{
    let end = narrow(place)?;
    let mut list = Vec::new(alloc);
    list.push(bit(is_whole))?;
    add_number(&mut list, end)?;
    add_sections(&mut list, pieces)?;
    Ok(list)
}

/// The sections of bytes as they stand, whatever they hold: a byte that is 1 where sections reach the end of the input and else 0, and the
/// place where they end; then of each the id, a byte that is 1 where a count of entries stands in it and else 0, and four numbers: its place,
/// how many bytes it has with its id and its size, the count of its entries, 0 where none stands, and the length of its name, [`NO_NAME`] for
/// none; and then the name. Numbers have 32 bits, the lowest byte first, and places are in bytes from the start of the input.
///
/// # Errors
///
/// `InvalidWasm` exactly where the magic number and the version don't stand in front, `TooLarge` only where one of the numbers passes 32 bits,
/// and `Memory`.
pub fn section_list(alloc: Global, bytes: &[u8]) -> Result<Vec<u8>>
    ensures { AnswersSections bytes.now result }
{
    match pieces_until(alloc, bytes)? {
        Pieced::Whole(pieces) => told(alloc, true, bytes.len(), &pieces),
        Pieced::NoHeader => Err(Error::InvalidWasm(ErrorKind::InvalidWasm)),
        Pieced::Until(pieces, place) => told(alloc, false, place, &pieces),
    }
}
