//! The sections of a module behind its code, appended to the bytes of those before. A refusal says nothing.
ghost use Rattle.std.specs.Prelude.{◌≡◌, ◌++◌, ◌∷◌, All, IfOk, IsSome, OnOk, length, map};
ghost use Rattle.wasm_entries.specs.Record.{data_entry};
ghost use Rattle.wasm_forms.specs.Spelling.{number_bytes};
ghost use Rattle.wasm_frames.specs.Frames as frames;
ghost use Rattle.wasm_frames.specs.Record.{custom_record};
ghost use Rattle.wasm_frames.specs.Spelling.{custom_bytes};
ghost use Rattle.wasm_wire.specs.ModuleSpelling.{group_of};
ghost use Rattle.wasm_writer.specs.Spelling.{SectionFits, listed, spelled};
ghost use Rattle.walrus_base.specs.Arena.{items};
ghost use Rattle.walrus_code.specs.Indices.{index_of};
ghost use Rattle.walrus_constants.specs.Segments.{named_data};
ghost use Rattle.walrus_contents.specs.View.{data_of};
ghost use Rattle.walrus_items.specs.Data.{data_segments};
ghost use Rattle.walrus_writing.specs.BySection.{AreSegments, Stand, Writes};

use crate::data::raw_data;
use crate::room::likely_behind;
use std::alloc::Global;
use walrus_code::IdsToIndices;
use walrus_items::{Error, ModuleData, Result};
use wasm_entries::RawData;
use wasm_forms::{Written, write_u32, write_vector};
use wasm_frames::RawCustom;
use wasm_wire::CustomGroup;
use wasm_writer::{measured_name, measured_vector, plus};

// The id and the size of a section, for whose content room is made.
fn open(to: &mut Vec<u8>, id: u8, size: u32) -> Result<()>
    ensures { OnOk result (to.new.items ≡ to.old.items ++ id ∷ number_bytes size) }
{
    to.reserve((size as usize).saturating_add(11))?;
    to.push(id)?;
    write_u32(to, size)?;
    Ok(())
}

/// Makes room for these sections, where there isn't enough: not all of it may be used.
pub fn room_behind(to: &mut Vec<u8>, all: &ModuleData, customs: &[RawCustom<'_>]) -> Result<()>
    ensures { to.new.items ≡ to.old.items }
{
    to.reserve_exact(likely_behind(all, customs))?;
    Ok(())
}

// The data section of these records.
fn append_data(to: &mut Vec<u8>, segments: &[RawData<'_>]) -> Result<()>
    ensures { let listed_segments = map data_entry segments.now in
        OnOk result ((to.new.items ≡ to.old.items ++ listed frames.DataSegments listed_segments)
        × SectionFits (frames.DataSegments listed_segments)) }
{
    if segments.is_empty() {
        return Ok(());
    }
    let size = measured_vector(segments)?;
    open(to, 11, size)?;
    write_vector(to, segments)?;
    Ok(())
}

/// The data section.
pub fn write_data(
    alloc: Global,
    to: &mut Vec<u8>,
    all: &ModuleData,
    indices: &IdsToIndices,
) -> Result<()>
    requires indexed { All (λ o. IsSome o) (map (λ d. named_data (index_of indices.now) (data_of d))
        (items (data_segments all.now))) }
    ensures { OnOk result (Writes frames.DataSegments (map data_entry)
        (AreSegments (index_of indices.now) (items (data_segments all.now)))
        to.old.items to.new.items) }
{
    let raw = raw_data(alloc, all, indices)?;
    append_data(to, raw.as_slice())?;
    Ok(())
}

// How many bytes the content of a custom section has.
fn custom_len(custom: &RawCustom<'_>) -> Result<u32>
    ensures { IfOk result (λ size. size ≡ length (custom_bytes (custom_record custom.now))) }
{
    let Ok(behind) = u32::try_from(custom.bytes.len()) else {
        return Err(Error::TooLarge);
    };
    let size = plus(measured_name(custom.name)?, behind)?;
    Ok(size)
}

// A custom section.
fn append_custom(to: &mut Vec<u8>, custom: &RawCustom<'_>) -> Result<()>
    ensures { OnOk result (to.new.items
        ≡ to.old.items ++ spelled (frames.CustomSection (custom_record custom.now))) }
{
    let size = custom_len(custom)?;
    open(to, 0, size)?;
    custom.write(to)?;
    Ok(())
}

/// The custom sections of a group, in the order in which they are.
pub fn append_customs(to: &mut Vec<u8>, group: CustomGroup, customs: &[RawCustom<'_>]) -> Result<()>
    ensures { OnOk result (Stand to.old.items to.new.items
        (map frames.CustomSection (group_of group (map custom_record customs.now)))) }
{
    'sections: for section in customs {
        if group.has(section.name) {
            append_custom(to, section)?;
        }
    }
    Ok(())
}
