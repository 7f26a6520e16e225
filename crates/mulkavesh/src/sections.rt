//! The sections of a module, as a text: for people a line each, for programs an array of objects.

ghost use Rattle.std.specs.Prelude.{◌≡◌, ◌++◌, IfOk, OnOk, false, flat_map, map, option_map};
ghost use Rattle.mulkavesh.specs.Sections.{count_text, kind_text, kind_word, section_line, stop_text, what_text};
ghost use Rattle.mulkavesh.specs.Subcommands.{ForPeople, TellsAll, TellsSections};
ghost use Rattle.walrus_sections.specs.Sections.{piece_record};

use crate::json::add_string;
use crate::numbers::add_decimal;
use crate::order::Order;
use crate::parts;
use crate::subcommands::Made;
use crate::visible::add_shown;
use std::alloc::{AllocError, Global};
use walrus_sections::{Pieced, RawPiece, sections};
use walrus_tools::{Error, ErrorKind};

// The standard's word for the section with this id; none where it gives the id no meaning.
fn kind_of(id: u8) -> Option<&'static str>
    ensures { option_map (λ w. w.now) result ≡ kind_word id }
{
    let word = match id {
        1 => "type",
        2 => "import",
        3 => "function",
        4 => "table",
        5 => "memory",
        6 => "global",
        7 => "export",
        8 => "start",
        9 => "element",
        10 => "code",
        11 => "data",
        12 => "data count",
        13 => "tag",
        _ => return None,
    };
    Some(word)
}

// Puts what the section with this id is behind the text.
fn add_kind(alloc: Global, to: &mut Vec<u8>, id: u8) -> Result<(), AllocError>
    ensures { OnOk result (to.new.items ≡ to.old.items ++ kind_text id) }
{
    match kind_of(id) {
        Some(word) => to.extend_from_slice(word.as_bytes()),
        None => {
            to.extend_from_slice(b"unknown ")?;
            add_decimal(alloc, to, id as u64)
        }
    }
}

// Puts what the section is behind the text.
fn add_what(alloc: Global, to: &mut Vec<u8>, id: u8, name: Option<&str>) -> Result<(), AllocError>
    ensures { OnOk result (to.new.items ≡ to.old.items
        ++ what_text id (option_map (λ n. n.now) name.entry)) }
{
    match name {
        Some(name) => {
            to.extend_from_slice(b"custom ")?;
            add_shown(to, name.as_bytes())
        }
        None => add_kind(alloc, to, id),
    }
}

// Puts the count of entries behind the text, where there is one.
fn add_count(alloc: Global, to: &mut Vec<u8>, entries: Option<u32>) -> Result<(), AllocError>
    ensures { OnOk result (to.new.items ≡ to.old.items ++ count_text entries) }
{
    let Some(count) = entries else {
        return Ok(());
    };
    to.push(b' ')?;
    add_decimal(alloc, to, count as u64)
}

/// Puts the line of a section behind the text.
pub(crate) fn add_line(
    alloc: Global,
    to: &mut Vec<u8>,
    piece: RawPiece<'_>,
) -> Result<(), AllocError>
    ensures { OnOk result (to.new.items ≡ to.old.items ++ section_line (piece_record piece.entry)) }
{
    add_decimal(alloc, to, piece.start as u64)?;
    to.push(b' ')?;
    add_decimal(alloc, to, piece.bytes.len() as u64)?;
    to.push(b' ')?;
    add_what(alloc, to, piece.id, piece.name)?;
    add_count(alloc, to, piece.entries)?;
    Ok(to.push(b'\n')?)
}

// A line for each section.
fn text(alloc: Global, pieces: &[RawPiece<'_>]) -> Result<Vec<u8>, AllocError>
    ensures { IfOk result (λ text. text.items
        ≡ flat_map section_line (map piece_record pieces.now)) }
{
    let mut text = Vec::new(alloc);
    for piece in pieces {
        add_line(alloc, &mut text, *piece)?;
    }
    Ok(text)
}

/// Puts the object of a section behind the text.
pub(crate) fn add_object(
    alloc: Global,
    to: &mut Vec<u8>,
    piece: RawPiece<'_>,
) -> Result<(), AllocError> {
    to.extend_from_slice(b"{\"id\":")?;
    add_decimal(alloc, to, piece.id as u64)?;
    to.extend_from_slice(b",\"kind\":\"")?;
    let kind = if piece.id == 0 {
        "custom"
    } else {
        kind_of(piece.id).unwrap_or("unknown")
    };
    to.extend_from_slice(kind.as_bytes())?;
    to.extend_from_slice(b"\",\"name\":")?;
    match piece.name {
        Some(name) => add_string(to, name.as_bytes())?,
        None => to.extend_from_slice(b"null")?,
    }
    to.extend_from_slice(b",\"start\":")?;
    add_decimal(alloc, to, piece.start as u64)?;
    to.extend_from_slice(b",\"size\":")?;
    add_decimal(alloc, to, piece.bytes.len() as u64)?;
    to.extend_from_slice(b",\"entries\":")?;
    match piece.entries {
        Some(count) => add_decimal(alloc, to, count as u64)?,
        None => to.extend_from_slice(b"null")?,
    }
    Ok(to.push(b'}')?)
}

// An array of the sections, an object each.
fn json(alloc: Global, pieces: &[RawPiece<'_>]) -> Result<Vec<u8>, AllocError> {
    let mut text = Vec::new(alloc);
    text.push(b'[')?;
    for piece in pieces {
        if text.len() > 1 {
            text.extend_from_slice(b",\n ")?;
        }
        add_object(alloc, &mut text, *piece)?;
    }
    text.extend_from_slice(b"]\n")?;
    Ok(text)
}

// The sections, for people or for programs.
fn listed(alloc: Global, is_json: bool, pieces: &[RawPiece<'_>]) -> Result<Vec<u8>, AllocError>
    ensures { IfOk result (λ text. ForPeople is_json (text.items
        ≡ flat_map section_line (map piece_record pieces.now))) }
{
    if is_json {
        return json(alloc, pieces);
    }
    text(alloc, pieces)
}

// What is said where no section stands at this place.
fn stop(alloc: Global, place: usize) -> Result<Vec<u8>, AllocError>
    ensures { IfOk result (λ note. note.items ≡ stop_text false place) }
{
    let mut note = Vec::new(alloc);
    note.extend_from_slice(b"mulkavesh: no section stands at byte ")?;
    add_decimal(alloc, &mut note, place as u64)?;
    note.push(b'\n')?;
    Ok(note)
}

// The sections as they stand, whatever they hold; where bytes are left behind them, the place is noted, and that is a refusal.
fn stand(alloc: Global, is_json: bool, bytes: &[u8]) -> Result<Made, Error>
    ensures { TellsSections bytes.now is_json result }
{
    match sections(alloc, bytes)? {
        Pieced::Whole(pieces) => Ok(Made {
            output: listed(alloc, is_json, &pieces)?,
            note: Vec::new(alloc),
            is_refused: false,
        }),
        Pieced::NoHeader => Err(Error::InvalidWasm(ErrorKind::InvalidWasm)),
        Pieced::Until(pieces, place) => Ok(Made {
            output: listed(alloc, is_json, &pieces)?,
            note: stop(alloc, place)?,
            is_refused: true,
        }),
    }
}

/// The sections as they stand; or all that a module has, where the order says so.
pub(crate) fn told(alloc: Global, order: &Order, bytes: &[u8]) -> Result<Made, Error>
    ensures { TellsAll bytes.now order.now.is_all order.now.is_json result }
{
    if order.is_all {
        return parts::told(alloc, order.is_json, bytes);
    }
    stand(alloc, order.is_json, bytes)
}
