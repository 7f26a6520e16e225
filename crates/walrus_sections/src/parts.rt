//! The parts of a module: its sections, and the functions and the data segments in them.

ghost use Rattle.std.specs.Prelude.{◌≡◌, ◌+◌, ◌≤◌, ◌<◌, ◌^◌, IfErr, IfOk, filter, length, map};
ghost use Rattle.wasm_forms.specs.Reading.{Gives};
ghost use Rattle.wasm_entries.specs.Record.{import_entry};
ghost use Rattle.wasm_frames.specs.Pieces.{piece_record};
ghost use Rattle.walrus_sections.specs.Parts.{FramesNothing, HasOnePartList, HasParts, IsImported, ModuleHasParts, OnlyModulesHaveParts, brings_function, part_record};
ghost use Rattle.walrus_sections.specs.PartSteps.{item_at, items_from, items_in, part_from};

use std::alloc::Global;
use wasm_entries::{RawData, RawDesc, RawImport};
use wasm_forms::{Element, WireError, read_block, read_byte, read_u32};
use wasm_frames::{Pieced, RawPiece, pieces_until, read_module};

/// A function with a body, or a data segment, as it stands in a module's bytes.
#[derive(Clone, Copy, Debug, PartialEq, Eq)]
pub struct Item {
    /// Its index in the index space of its kind: functions that are imported come first.
    pub index: usize,
    /// The place of its first byte, in bytes from the start of the input: of a function the first behind the size of its body.
    pub start: usize,
    /// How many bytes it has: of a function those of its body, its size not among them.
    pub size: usize,
}

/// A part of a module.
#[derive(Clone, Copy, Debug, PartialEq, Eq)]
pub enum Part<'a> {
    /// A section as it stands.
    Section(RawPiece<'a>),
    /// A function with a body.
    Function(Item),
    /// A data segment.
    Segment(Item),
}

// Whether an import brings a function.
fn brings_function(import: &RawImport<'_>) -> bool
    ensures { result ≡ brings_function (import_entry «import».now) }
{
    matches!(import.desc(), RawDesc::Function(_))
}

// How many functions these imports bring.
fn count_imported(imports: &[RawImport<'_>]) -> usize
    ensures { result ≡ length (filter (λ i. brings_function (import_entry i)) imports.now) }
{
    imports
        .iter()
        .filter(|import| brings_function(import))
        .count()
}

// How many functions the module imports. Refused where the bytes are no module.
fn imported_functions(alloc: Global, bytes: &[u8]) -> Result<usize, WireError>
    ensures value { IfOk result (λ n. IsImported bytes.now n) }
    ensures refused { IfErr result (λ e. FramesNothing bytes.now e) }
{
    let module = read_module(alloc, bytes)?;
    Ok(count_imported(&module.imports))
}

// The function or the data segment in front of bytes that reach to this end, and the bytes behind it.
#[tactic(auto, unfolding(crate::specs::PartSteps::item_at))]
fn read_item<'a>(
    alloc: Global,
    is_code: bool,
    index: usize,
    end: usize,
    bytes: &'a [u8],
) -> Result<(Part<'a>, &'a [u8]), WireError>
    requires { length bytes.now ≤ end }
    ensures { Gives (λ x. (part_record x.0, x.1.now)) result (item_at is_code index end bytes.now) }
{
    let front = end - bytes.len();
    if is_code {
        let (body, rest) = read_block(bytes)?;
        let start = front + (bytes.len() - rest.len() - body.len());
        let size = body.len();
        return Ok((Part::Function(Item { index, start, size }), rest));
    }
    let (_segment, rest) = RawData::read(alloc, bytes)?;
    let start = front;
    let size = bytes.len() - rest.len();
    Ok((Part::Segment(Item { index, start, size }), rest))
}

// Puts so many of them behind the parts, and gives the index behind the last.
fn add_row<'a>(
    alloc: Global,
    to: &mut Vec<Part<'a>>,
    is_code: bool,
    count: u32,
    index: usize,
    end: usize,
    bytes: &'a [u8],
) -> Result<usize, WireError>
    requires within { length bytes.now ≤ end }
    requires room { index + length bytes.now < 2 ^ 64 }
    ensures { Gives (λ n. (map part_record to.new.items, n)) result
        (items_from is_code count index end (map part_record to.old.items) bytes.now) }
{
    let mut next = index;
    let mut rest = bytes;
    'items: for _taken in 0..count {
        let (part, behind) = read_item(alloc, is_code, next, end, rest)?;
        to.push(part)?;
        next += 1;
        rest = behind;
    }
    Ok(next)
}

// Puts the functions of a code section, or the segments of a data section, behind the parts, and gives the index behind the last.
#[tactic(auto, unfolding(crate::specs::PartSteps::items_in))]
fn add_items<'a>(
    alloc: Global,
    to: &mut Vec<Part<'a>>,
    is_code: bool,
    index: usize,
    piece: RawPiece<'a>,
) -> Result<usize, WireError>
    requires within { piece.start + length piece.bytes.now < 2 ^ 64 }
    requires room { index + length piece.bytes.now < 2 ^ 64 }
    ensures { Gives (λ n. (map part_record to.new.items, n)) result
        (items_in is_code index piece.entry.start (map part_record to.old.items) piece.entry.bytes.now) }
{
    let (_id, after) = read_byte(piece.bytes)?;
    let (content, _behind) = read_block(after)?;
    let (count, row) = read_u32(content)?;
    let end = piece.start + piece.bytes.len();
    add_row(alloc, to, is_code, count, index, end, row)
}

// Puts a section and what stands in it behind the parts, and gives the indices behind its functions and its data segments.
#[tactic(auto, unfolding(crate::specs::PartSteps::part_from))]
fn add_part<'a>(
    alloc: Global,
    to: &mut Vec<Part<'a>>,
    functions: usize,
    segments: usize,
    piece: RawPiece<'a>,
) -> Result<(usize, usize), WireError>
    requires within { piece.start + length piece.bytes.now < 2 ^ 64 }
    requires functions { piece.id ≡ 10 → functions + length piece.bytes.now < 2 ^ 64 }
    requires segments { segments + length piece.bytes.now < 2 ^ 64 }
    ensures { Gives (λ n. (map part_record to.new.items, n)) result
        (part_from functions segments (map part_record to.old.items) (piece_record piece.entry)) }
{
    to.push(Part::Section(piece))?;
    match piece.id {
        10 => Ok((add_items(alloc, to, true, functions, piece)?, segments)),
        11 => Ok((functions, add_items(alloc, to, false, segments, piece)?)),
        _ => Ok((functions, segments)),
    }
}

/// The parts of a module: each section as it stands, and behind a code section its functions, behind a data section its segments.
///
/// # Errors
///
/// `Malformed` exactly where the bytes are no module, and `Memory`.
pub(crate) fn read_parts(alloc: Global, bytes: &[u8]) -> Result<Vec<Part<'_>>, WireError>
    ensures value { IfOk result (λ parts. HasParts bytes.now (map part_record parts.items)) }
    ensures refused { IfErr result (λ e. FramesNothing bytes.now e) }
{
    let mut functions = imported_functions(alloc, bytes)?;
    let Pieced::Whole(pieces) = pieces_until(alloc, bytes)? else {
        // a module is sections up to its end
        return Err(WireError::Malformed);
    };
    let mut parts = Vec::new(alloc);
    let mut segments = 0;
    'sections: for piece in &pieces {
        let (next_function, next_segment) = add_part(
            alloc, &mut parts, functions, segments, *piece,
        )?;
        functions = next_function;
        segments = next_segment;
    }
    Ok(parts)
}

/// No bytes have two lists of parts. Each module has one, and no other bytes have any.
pub fn one_part_list()
    ensures once { HasOnePartList }
    ensures all { ModuleHasParts }
    ensures only { OnlyModulesHaveParts }
{}
