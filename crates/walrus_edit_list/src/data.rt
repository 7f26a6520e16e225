//! Data segments that come, are written anew, or go ("Structure > Modules > Data Segments"). The set of a memory has those that are active in it.

ghost use Rattle.std.specs.Prelude.{◌≡◌, IsOkUnless, MatchResult, OnOk, Some, false, map, option_map, slice_set, true};
ghost use Rattle.wasm_entries.specs.Record.{data_entry, data_mode, expression};
ghost use Rattle.walrus_base.specs.Arena.{IsLive, item_at};
ghost use Rattle.walrus_base.specs.Id.{place};
ghost use Rattle.walrus_base.specs.Operators.{Memories};
ghost use Rattle.walrus_code.specs.Indices.{ids_at};
ghost use Rattle.walrus_contents.specs.View.{data_kind_of};
ghost use Rattle.walrus_items.specs.Data.{data_segments};
ghost use Rattle.walrus_items.specs.Errors.{out_of_memory};
ghost use Rattle.walrus_items.specs.Memories.{memories};
ghost use Rattle.walrus_model.specs.Abstract.{ActiveData};
ghost use Rattle.walrus_model.specs.Constants.{consts_of};
ghost use Rattle.walrus_model.specs.Sections as said;
ghost use Rattle.walrus_module.specs.View.{contents_of};
ghost use Rattle.walrus_edit_list.specs.Constants.{Finds};
ghost use Rattle.walrus_edit_list.specs.Data.{AddsData, AddsSegment, DeletesData, RefusesData, RefusesDeleteData, RefusesSegment, RefusesSetData, SetsData, data_kind_there, in_memory, with_data};
ghost use Rattle.walrus_edit_list.specs.SegmentSets.{changed_at, memory_with, there};

use crate::constants::constant;
use crate::ids::ids_of;
use std::alloc::Global;
use walrus_base::{DataId, MemoryId};
use walrus_code::IndicesToIds;
use walrus_items::{DataKind, Error, ModuleData, ModuleMemories, Result};
use walrus_module::Module;
use wasm_entries::{RawData, RawDataMode, RawExpression};

// The memory of this number, which is there.
fn memory_there(number: u32, ids: &IndicesToIds, all: &ModuleMemories) -> Result<MemoryId>
    ensures { Finds place result (there (memories all.now) (ids_at ids.now Memories number)) }
{
    match ids.get_memory(number) {
        Some(id) => {
            if all.contains(id) {
                Ok(id)
            } else {
                Err(Error::DeadItem)
            }
        }
        None => Err(Error::DeadItem),
    }
}

// Data that is active in the memory of this number.
fn active_data(
    alloc: Global,
    number: u32,
    offset: &RawExpression,
    ids: &IndicesToIds,
    all: &ModuleMemories,
) -> Result<DataKind>
    ensures { Finds data_kind_of result (data_kind_there (ids_at ids.now) (memories all.now)
        (ActiveData number (consts_of (expression offset.now)))) }
{
    let memory = memory_there(number, ids, all)?;
    let offset = constant(alloc, offset, ids)?;
    Ok(DataKind::Active { memory, offset })
}

// How a segment is used.
fn read_kind(
    alloc: Global,
    raw: &RawDataMode,
    ids: &IndicesToIds,
    all: &ModuleMemories,
) -> Result<DataKind>
    ensures { Finds data_kind_of result (data_kind_there (ids_at ids.now) (memories all.now)
        (said.data_kind (data_mode raw.now))) }
{
    match raw {
        RawDataMode::Active(number, offset) => active_data(alloc, *number, offset, ids, all),
        RawDataMode::Passive => Ok(DataKind::Passive),
    }
}

// The set of this memory has the segment, where the memory is there.
fn put_in(memory: MemoryId, segment: DataId, all: &mut ModuleMemories) -> Result<()>
    ensures kept { OnOk result (memories all.new
        ≡ changed_at (memory_with true (place segment)) (Some (place memory)) (memories all.old)) }
    ensures fails { IsOkUnless result out_of_memory }
{
    if !all.contains(memory) {
        return Ok(());
    }
    all.get_mut(memory).data_segments.insert(segment)?;
    Ok(())
}

// The set of this memory doesn't have the segment, where the memory is there.
fn take_out(memory: MemoryId, segment: DataId, all: &mut ModuleMemories)
    ensures { memories all.new
        ≡ changed_at (memory_with false (place segment)) (Some (place memory)) (memories all.old) }
{
    if all.contains(memory) {
        let _was_in = all.get_mut(memory).data_segments.remove(segment);
    }
}

// The set of the memory that a segment of this kind is active in has it.
fn keep(kind: &DataKind, segment: DataId, all: &mut ModuleMemories) -> Result<()>
    ensures kept { OnOk result (memories all.new
        ≡ in_memory true (data_kind_of kind.now) (place segment) (memories all.old)) }
    ensures fails { IsOkUnless result out_of_memory }
{
    match kind {
        DataKind::Active { memory, .. } => put_in(*memory, segment, all),
        DataKind::Passive => Ok(()),
    }
}

// The set of the memory that a segment of this kind is active in doesn't have it.
fn free(kind: &DataKind, segment: DataId, all: &mut ModuleMemories)
    ensures { memories all.new
        ≡ in_memory false (data_kind_of kind.now) (place segment) (memories all.old) }
{
    if let DataKind::Active { memory, .. } = kind {
        take_out(*memory, segment, all);
    }
}

// Adds the segment of an entry.
fn add_segment<S>(alloc: Global, raw: &RawData<'_>, module: &mut Module<S>) -> Result<()>
    ensures { MatchResult result
        (λ _. AddsSegment (data_entry raw.now)
        (contents_of «module».old) (contents_of «module».new))
        (RefusesSegment (data_entry raw.now) (contents_of «module».old)) }
{
    let ids = ids_of(alloc, module)?;
    let kind = read_kind(alloc, &raw.mode, &ids, &module.memories)?;
    let value = raw.bytes.to_vec(alloc)?;
    keep(&kind, module.data_.next_id(), &mut module.memories)?;
    module.data_.add(kind, value)?;
    Ok(())
}

/// Adds data segments, each behind the others (Binary Format > Modules > Data Section). The set of its memory has each that is active.
///
/// # Errors
///
/// `DeadItem` only where one names what isn't there, `TooLarge` only where more than 2^32 ids of a space were given, and `Memory`.
pub(crate) fn add_data<S>(alloc: Global, raw: &[RawData<'_>], module: &mut Module<S>) -> Result<()>
    ensures { MatchResult result
        (λ _. AddsData (map data_entry raw.now)
        (contents_of «module».old) (contents_of «module».new))
        (RefusesData (map data_entry raw.now) (contents_of «module».old)) }
{
    'segments: for entry in raw {
        add_segment(alloc, entry, module)?;
    }
    Ok(())
}

// The segment of this live id has this kind and these bytes.
fn write(id: DataId, kind: DataKind, value: Vec<u8>, all: &mut ModuleData)
    requires { IsLive (data_segments all.old) (place id) }
    ensures { data_segments all.new ≡ slice_set (data_segments all.old) (place id)
        (option_map (with_data kind value.items) (item_at (data_segments all.old) (place id))) }
{
    let segment = all.get_mut(id);
    segment.kind = kind;
    segment.value = value;
}

/// Writes the data segment of this id anew. It has its name. It goes from the set of the memory that it was active in, and comes into that of
/// the one that it is active in.
///
/// # Errors
///
/// `DeadItem` exactly where it isn't there, or the entry names what isn't, `TooLarge` only where more than 2^32 ids of a
/// space were given, and `Memory`.
pub(crate) fn set_data<S>(
    alloc: Global,
    number: u32,
    raw: &RawData<'_>,
    module: &mut Module<S>,
) -> Result<()>
    ensures { MatchResult result
        (λ _. SetsData number (data_entry raw.now)
        (contents_of «module».old) (contents_of «module».new))
        (RefusesSetData number (data_entry raw.now) (contents_of «module».old)) }
{
    let id = DataId::at(number as usize);
    if !module.data_.contains(id) {
        return Err(Error::DeadItem);
    }
    let ids = ids_of(alloc, module)?;
    let kind = read_kind(alloc, &raw.mode, &ids, &module.memories)?;
    let value = raw.bytes.to_vec(alloc)?;
    free(&module.data_.get(id).kind, id, &mut module.memories);
    keep(&kind, id, &mut module.memories)?;
    write(id, kind, value, &mut module.data_);
    Ok(())
}

/// Takes the data segment of this id away, out of the set of its memory too. `DeadItem` exactly where it isn't there.
pub(crate) fn delete_data<S>(number: u32, module: &mut Module<S>) -> Result<()>
    ensures { MatchResult result
        (λ _. DeletesData number (contents_of «module».old) (contents_of «module».new))
        (RefusesDeleteData number (contents_of «module».old)) }
{
    let id = DataId::at(number as usize);
    if !module.data_.contains(id) {
        return Err(Error::DeadItem);
    }
    free(&module.data_.get(id).kind, id, &mut module.memories);
    module.data_.delete(id);
    Ok(())
}
