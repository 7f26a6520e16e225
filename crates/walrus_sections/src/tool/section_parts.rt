//! What a developer asks of a module's sections and of what stands in them: which functions and data segments, where, and how large.

ghost use Rattle.std.specs.Prelude.{◌≡◌, ◌++◌, IfErr, IfOk, OnOk, flat_map, map};
ghost use Rattle.walrus_sections.specs.Numbers.{RefusesIf};
ghost use Rattle.walrus_sections.specs.PartList.{AnswersPartList, AnswersParts, AreLong, HasLongPart, IsLongItem, IsLongPart, item_bytes, part_bytes, part_record, parts_bytes};

use crate::numbers::{NO_NAME, add_number, narrow};
use crate::parts::{Item, Part, read_parts};
use crate::tool::sections::add_section;
use std::alloc::Global;
use walrus_items::Result;

/// What a function is told as, in place of the id of a section: 128 more than a section of code.
const FUNCTION: u8 = 138;
/// What a data segment is told as: 128 more than a section of data.
const SEGMENT: u8 = 139;

/// The parts of a module: its sections as they stand, and behind a section of code the functions in it, behind one of data the data
/// segments. A function is told by its body, with the index that it has among all functions.
///
/// # Errors
///
/// `InvalidWasm` exactly where the bytes aren't the sections of a module, and `Memory`.
pub fn section_parts(alloc: Global, bytes: &[u8]) -> Result<Vec<Part<'_>>>
    ensures { AnswersParts bytes.now result }
{
    Ok(read_parts(alloc, bytes)?)
}

// Puts a function or a data segment behind the bytes, as a section with this id.
fn add_item(to: &mut Vec<u8>, id: u8, item: Item) -> Result<()>
    ensures value { OnOk result (to.new.items ≡ to.old.items ++ item_bytes id item) }
    ensures fits { OnOk result (IsLongItem item → ⊥) }
    ensures refused { IfErr result (RefusesIf (IsLongItem item)) }
{
    let start = narrow(item.start)?;
    let size = narrow(item.size)?;
    let index = narrow(item.index)?;
    to.push(id)?;
    to.push(1)?;
    add_number(to, start)?;
    add_number(to, size)?;
    add_number(to, index)?;
    Ok(add_number(to, NO_NAME)?)
}

// Puts a part behind the bytes.
fn add_part(to: &mut Vec<u8>, part: Part<'_>) -> Result<()>
    ensures value { OnOk result (to.new.items ≡ to.old.items ++ part_bytes (part_record part.entry)) }
    ensures fits { OnOk result (IsLongPart (part_record part.entry) → ⊥) }
    ensures refused { IfErr result (RefusesIf (IsLongPart (part_record part.entry))) }
{
    match part {
        Part::Section(piece) => add_section(to, piece),
        Part::Function(function) => add_item(to, FUNCTION, function),
        Part::Segment(segment) => add_item(to, SEGMENT, segment),
    }
}

// Puts the parts behind the bytes.
fn add_parts(to: &mut Vec<u8>, parts: &[Part<'_>]) -> Result<()>
    ensures value { OnOk result (to.new.items ≡ to.old.items
        ++ flat_map part_bytes (map part_record parts.now)) }
    ensures fits { OnOk result (HasLongPart (map part_record parts.now) → ⊥) }
    ensures refused { IfErr result (RefusesIf (HasLongPart (map part_record parts.now))) }
{
    for part in parts {
        add_part(to, *part)?;
    }
    Ok(())
}

// The parts of a module of so many bytes, as bytes.
fn told(alloc: Global, place: usize, parts: &[Part<'_>]) -> Result<Vec<u8>>
    ensures value { IfOk result (λ list. list.items ≡ parts_bytes place (map part_record parts.now)) }
    ensures fits { OnOk result (AreLong place (map part_record parts.now) → ⊥) }
    ensures refused { IfErr result (RefusesIf (AreLong place (map part_record parts.now))) }
{
    let end = narrow(place)?;
    let mut list = Vec::new(alloc);
    list.push(1)?;
    add_number(&mut list, end)?;
    add_parts(&mut list, parts)?;
    Ok(list)
}

/// The parts of a module as [`section_list`](crate::tool::sections::section_list) tells sections: a function as a section with the id 138,
/// a data segment as one with the id 139. The count of their entries is their index, and they have no name.
///
/// # Errors
///
/// `InvalidWasm` exactly where the bytes aren't the sections of a module, `TooLarge` only where one of the numbers passes 32 bits, and `Memory`.
pub fn part_list(alloc: Global, bytes: &[u8]) -> Result<Vec<u8>>
    ensures { AnswersPartList bytes.now result }
{
    let parts = section_parts(alloc, bytes)?;
    told(alloc, bytes.len(), &parts)
}
