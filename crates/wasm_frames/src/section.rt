//! A section's records (Binary Format > Modules > Sections).

ghost use Rattle.std.specs.Prelude.{◌+◌, ◌<◌, ◌^◌, length, map};
ghost use Rattle.wasm_forms.specs.Reading.{Gives};
ghost use Rattle.wasm_forms.specs.Grammar.{U32, Vector};
ghost use Rattle.wasm_entries.specs.Record.{group};
ghost use Rattle.wasm_entries.specs.TypeForms.{group_form, tag_type};
ghost use Rattle.wasm_frames.specs.Steps.{section_record, whole, content_at, section_at};

use crate::code::read_code;
use crate::custom::read_custom;
use crate::record::{RawBody, RawCustom};
use crate::tag::read_tags;
use std::alloc::Global;
use wasm_entries::{
    RawData, RawElement, RawExport, RawGlobal, RawGroup, RawImport, RawLimits, RawTable,
    read_groups,
};
use wasm_forms::{Element, WireError, read_block, read_byte, read_u32, read_vector};

/// What one section holds.
#[derive(Drop)]
pub enum RawSection<'a> {
    /// A custom section.
    Custom(RawCustom<'a>),
    /// The type section.
    Types(Vec<RawGroup>),
    /// The import section.
    Imports(Vec<RawImport<'a>>),
    /// The function section: each function's type.
    Functions(Vec<u32>),
    /// The table section.
    Tables(Vec<RawTable>),
    /// The memory section.
    Memories(Vec<RawLimits>),
    /// The global section.
    Globals(Vec<RawGlobal>),
    /// The export section.
    Exports(Vec<RawExport<'a>>),
    /// The start section: the function.
    Start(u32),
    /// The element section.
    Elements(Vec<RawElement>),
    /// The code section.
    Code(Vec<RawBody<'a>>),
    /// The data section.
    DataSegments(Vec<RawData<'a>>),
    /// The data count section.
    DataCount(u32),
    /// The tag section: each tag's type.
    Tags(Vec<u32>),
}

/// The vector that all of these bytes are.
#[tactic(auto, unfolding(crate::specs::Steps::whole))]
fn read_all<'a, E: Element<'a> + Drop>(alloc: Global, bytes: &'a [u8]) -> Result<Vec<E>, WireError>
    ensures { Gives (λ v. map E.view v.items) result (whole (Vector E.form) bytes.now) }
{
    let (items, rest) = read_vector::<E>(alloc, bytes)?;
    match rest {
        [] => Ok(items),
        _ => Err(WireError::Malformed),
    }
}

/// The groups of types that all of these bytes are.
#[tactic(auto, unfolding(crate::specs::Steps::whole))]
fn read_all_groups(alloc: Global, bytes: &[u8]) -> Result<Vec<RawGroup>, WireError>
    ensures { Gives (λ v. map group v.items) result (whole (Vector group_form) bytes.now) }
{
    let (groups, rest) = read_groups(alloc, bytes)?;
    match rest {
        [] => Ok(groups),
        _ => Err(WireError::Malformed),
    }
}

/// The tags that all of these bytes are.
#[tactic(auto, unfolding(crate::specs::Steps::whole))]
fn read_all_tags(alloc: Global, bytes: &[u8]) -> Result<Vec<u32>, WireError>
    ensures { Gives (λ v. v.items) result (whole (Vector tag_type) bytes.now) }
{
    let (tags, rest) = read_tags(alloc, bytes)?;
    match rest {
        [] => Ok(tags),
        _ => Err(WireError::Malformed),
    }
}

/// The number that all of these bytes are.
#[tactic(auto, unfolding(crate::specs::Steps::whole))]
fn read_number(bytes: &[u8]) -> Result<u32, WireError>
    ensures { Gives (λ n. n) result (whole U32 bytes.now) }
{
    let (number, rest) = read_u32(bytes)?;
    match rest {
        [] => Ok(number),
        _ => Err(WireError::Malformed),
    }
}

/// The content of a section with this id that all of these bytes are, the first of which stands at this place (Binary Format > Modules > Sections).
/// Places are told of bodies alone.
/// `Malformed` where no section has this id, or the bytes aren't the content of one.
#[tactic(auto, unfolding(crate::specs::Steps::content_at, crate::specs::Steps::content_of))]
pub fn read_content<'a>(
    alloc: Global,
    id: u8,
    place: usize,
    bytes: &'a [u8],
) -> Result<RawSection<'a>, WireError>
    requires { place + length bytes.now < 2 ^ 64 }
    ensures { Gives section_record result (content_at id place bytes.now) }
{
    match id {
        0 => Ok(RawSection::Custom(read_custom(bytes)?)),
        1 => Ok(RawSection::Types(read_all_groups(alloc, bytes)?)),
        2 => Ok(RawSection::Imports(read_all(alloc, bytes)?)),
        3 => Ok(RawSection::Functions(read_all(alloc, bytes)?)),
        4 => Ok(RawSection::Tables(read_all(alloc, bytes)?)),
        5 => Ok(RawSection::Memories(read_all(alloc, bytes)?)),
        6 => Ok(RawSection::Globals(read_all(alloc, bytes)?)),
        7 => Ok(RawSection::Exports(read_all(alloc, bytes)?)),
        8 => Ok(RawSection::Start(read_number(bytes)?)),
        9 => Ok(RawSection::Elements(read_all(alloc, bytes)?)),
        10 => Ok(RawSection::Code(read_code(alloc, place, bytes)?)),
        11 => Ok(RawSection::DataSegments(read_all(alloc, bytes)?)),
        12 => Ok(RawSection::DataCount(read_number(bytes)?)),
        13 => Ok(RawSection::Tags(read_all_tags(alloc, bytes)?)),
        _ => Err(WireError::Malformed),
    }
}

/// The section at this place, and the bytes behind it.
#[tactic(auto, unfolding(crate::specs::Steps::section_at))]
pub fn read_section<'a>(
    alloc: Global,
    place: usize,
    bytes: &'a [u8],
) -> Result<(RawSection<'a>, &'a [u8]), WireError>
    requires { place + length bytes.now < 2 ^ 64 }
    ensures { Gives (λ x. (section_record x.0, x.1.now)) result (section_at place bytes.now) }
{
    let (id, after) = read_byte(bytes)?;
    let (content, rest) = read_block(after)?;
    let start = place + (bytes.len() - rest.len() - content.len());
    let section = read_content(alloc, id, start, content)?;
    Ok((section, rest))
}
