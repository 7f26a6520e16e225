//! The parts of a module, as a text: its sections, and the functions and the data segments in them.

ghost use Rattle.std.specs.Prelude.{◌≡◌, ◌++◌, IfOk, OnOk, flat_map, map};
ghost use Rattle.mulkavesh.specs.Sections.{item_line, part_line};
ghost use Rattle.mulkavesh.specs.Subcommands.{ForPeople, TellsParts};
ghost use Rattle.walrus_sections.specs.PartList.{part_record};

use crate::numbers::add_decimal;
use crate::sections;
use crate::subcommands::Made;
use std::alloc::{AllocError, Global};
use walrus_sections::{Item, Part, section_parts};
use walrus_tools::Error;

// Puts the line of a function or a data segment behind the text.
fn add_item(alloc: Global, to: &mut Vec<u8>, word: &str, item: Item) -> Result<(), AllocError>
    ensures { OnOk result (to.new.items ≡ to.old.items ++ item_line word.now item) }
{
    to.extend_from_slice(b"  ")?;
    add_decimal(alloc, to, item.start as u64)?;
    to.push(b' ')?;
    add_decimal(alloc, to, item.size as u64)?;
    to.push(b' ')?;
    to.extend_from_slice(word.as_bytes())?;
    to.push(b' ')?;
    add_decimal(alloc, to, item.index as u64)?;
    Ok(to.push(b'\n')?)
}

// Puts the line of a part behind the text.
fn add_line(alloc: Global, to: &mut Vec<u8>, part: Part<'_>) -> Result<(), AllocError>
    ensures { OnOk result (to.new.items ≡ to.old.items ++ part_line (part_record part.entry)) }
{
    match part {
        Part::Section(piece) => sections::add_line(alloc, to, piece),
        Part::Function(function) => add_item(alloc, to, "function", function),
        Part::Segment(segment) => add_item(alloc, to, "data", segment),
    }
}

// A line for each part.
fn text(alloc: Global, parts: &[Part<'_>]) -> Result<Vec<u8>, AllocError>
    ensures { IfOk result (λ text. text.items ≡ flat_map part_line (map part_record parts.now)) }
{
    let mut text = Vec::new(alloc);
    for part in parts {
        add_line(alloc, &mut text, *part)?;
    }
    Ok(text)
}

// Puts the object of a function or a data segment behind the text.
fn add_item_object(
    alloc: Global,
    to: &mut Vec<u8>,
    word: &str,
    item: Item,
) -> Result<(), AllocError> {
    to.extend_from_slice(b"{\"kind\":\"")?;
    to.extend_from_slice(word.as_bytes())?;
    to.extend_from_slice(b"\",\"index\":")?;
    add_decimal(alloc, to, item.index as u64)?;
    to.extend_from_slice(b",\"start\":")?;
    add_decimal(alloc, to, item.start as u64)?;
    to.extend_from_slice(b",\"size\":")?;
    add_decimal(alloc, to, item.size as u64)?;
    Ok(to.push(b'}')?)
}

// Puts the object of a part behind the text.
fn add_object(alloc: Global, to: &mut Vec<u8>, part: Part<'_>) -> Result<(), AllocError> {
    match part {
        Part::Section(piece) => sections::add_object(alloc, to, piece),
        Part::Function(function) => add_item_object(alloc, to, "function", function),
        Part::Segment(segment) => add_item_object(alloc, to, "data", segment),
    }
}

// An array of the parts, an object each.
fn json(alloc: Global, parts: &[Part<'_>]) -> Result<Vec<u8>, AllocError> {
    let mut text = Vec::new(alloc);
    text.push(b'[')?;
    for part in parts {
        if text.len() > 1 {
            text.extend_from_slice(b",\n ")?;
        }
        add_object(alloc, &mut text, *part)?;
    }
    text.extend_from_slice(b"]\n")?;
    Ok(text)
}

// The parts, for people or for programs.
fn listed(alloc: Global, is_json: bool, parts: &[Part<'_>]) -> Result<Vec<u8>, AllocError>
    ensures { IfOk result (λ text. ForPeople is_json (text.items
        ≡ flat_map part_line (map part_record parts.now))) }
{
    if is_json {
        return json(alloc, parts);
    }
    text(alloc, parts)
}

/// The parts of a module: behind a section the functions or the data segments in it.
pub(crate) fn told(alloc: Global, is_json: bool, bytes: &[u8]) -> Result<Made, Error>
    ensures { TellsParts bytes.now is_json result }
{
    let parts = section_parts(alloc, bytes)?;
    Ok(Made {
        output: listed(alloc, is_json, &parts)?,
        note: Vec::new(alloc),
        is_refused: false,
    })
}
