//! The data segments of a module, as records ("Binary Format > Modules > Data Section").
ghost use Rattle.std.specs.Prelude.{◌≡◌, Some, IsSome, IfOk, IfErr, IfSome, All, map};
ghost use Rattle.wasm_entries.specs.Record.{data_entry};
ghost use Rattle.wasm_entries.specs.Spelling.{DataStands, IsIndex};
ghost use Rattle.walrus_base.specs.Arena.{items};
ghost use Rattle.walrus_base.specs.Id.{place};
ghost use Rattle.walrus_code.specs.Indices.{index_of};
ghost use Rattle.walrus_constants.specs.Segments.{named_data};
ghost use Rattle.walrus_contents.specs.View.{data_kind_of, data_of};
ghost use Rattle.walrus_items.specs.Data.{data_segments, data_value};
ghost use Rattle.walrus_model.specs.Sections as said;
ghost use Rattle.walrus_base.specs.Operators.{Memories};
ghost use Rattle.walrus_writing.specs.Segments.{IndexesData, IndexesMode, IsSpelledData, RefusesData};

use std::alloc::Global;
use walrus_base::MemoryId;
use walrus_code::{IdsToIndices, IrError};
use walrus_constants::raw_const;
use walrus_items::{Data, DataKind, Error, ModuleData};
use wasm_entries::{RawData, RawDataMode};

// The index of a memory, if it has one, which is a number of 32 bits.
fn memory_index(id: MemoryId, indices: &IdsToIndices) -> Option<u32>
    ensures same { result ≡ index_of indices.now Memories (place id) }
    ensures stands { IfSome result IsIndex }
{
    match indices.get_memory_index(id) {
        Some(index) => Some(index),
        None => None,
    }
}

// How a data segment is used, over indices.
fn raw_mode(alloc: Global, kind: &DataKind, indices: &IdsToIndices) -> Result<RawDataMode, IrError>
    ensures { IndexesMode (index_of indices.now) (data_kind_of kind.now) result }
{
    match kind {
        DataKind::Active { memory, offset } => {
            let Some(index) = memory_index(*memory, indices) else {
                return Err(IrError::NoIndex);
            };
            let raw_offset = raw_const(alloc, offset, indices)?;
            Ok(RawDataMode::Active(index, Box::new(alloc, raw_offset)?))
        }
        DataKind::Passive => Ok(RawDataMode::Passive),
    }
}

/// The record of a data segment, which bytes can spell. Its bytes are lent.
///
/// # Errors
///
/// [`IrError::NoIndex`] where its memory or an item in its offset has no index, [`IrError::NotWritable`] where no bytes spell its
/// offset, and [`IrError::Memory`].
pub fn raw_segment<'a>(
    alloc: Global,
    segment: &'a Data,
    indices: &IdsToIndices,
) -> Result<RawData<'a>, IrError>
    ensures { IndexesData (index_of indices.now) (data_of (data_value segment.now)) result }
{
    let mode = raw_mode(alloc, &segment.kind, indices)?;
    Ok(RawData {
        mode,
        bytes: segment.value.as_slice(),
    })
}

/// The records of the data segments, by rising id. Their bytes are lent.
///
/// # Errors
///
/// `NotWritable` where no bytes spell the offset of one, and `Memory`.
pub fn raw_data<'a>(
    alloc: Global,
    all: &'a ModuleData,
    indices: &IdsToIndices,
) -> Result<Vec<RawData<'a>>, Error>
    requires indexed { All (λ o. IsSome o) (map (λ d. named_data (index_of indices.now) (data_of d))
        (items (data_segments all.now))) }
    ensures value { IfOk result (λ raw. map (λ d. Some (said.data_of (data_entry d))) raw.items
        ≡ map (λ d. named_data (index_of indices.now) (data_of d)) (items (data_segments all.now))) }
    ensures stand { IfOk result (λ raw. All (λ d. DataStands (data_entry d)) raw.items) }
    ensures spelled { IfOk result (λ _. All IsSpelledData (items (data_segments all.now))) }
    ensures fails { IfErr result (RefusesData (items (data_segments all.now))) }
{
    let mut raw = Vec::with_capacity(alloc, all.len())?;
    for segment in all.iter() {
        let one = raw_segment(alloc, segment, indices)?;
        raw.push(one)?;
    }
    Ok(raw)
}
