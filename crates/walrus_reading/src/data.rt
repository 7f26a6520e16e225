//! The data segments that sections define. Each gets the next id, and a memory keeps those that are active in it.
ghost use Rattle.std.specs.Prelude.{◌≡◌, ◌==◌, ◌∷◌, [], length, map, All, IfOk, OnOk, IsOkUnless, Some};
ghost use Rattle.wasm_entries.specs.Record.{data_entry, data_mode};
ghost use Rattle.walrus_base.specs.Arena.{IsLive};
ghost use Rattle.walrus_base.specs.Id.{place};
ghost use Rattle.walrus_base.specs.Operators.{Memories};
ghost use Rattle.walrus_code.specs.Indices.{ids_at};
ghost use Rattle.walrus_contents.specs.View.{data_kind_of};
ghost use Rattle.walrus_items.specs.Data.{data_segments};
ghost use Rattle.walrus_items.specs.Memories.{memories};
ghost use Rattle.walrus_model.specs.Abstract.{ActiveData};
ghost use Rattle.walrus_model.specs.Constants.{consts_of};
ghost use Rattle.walrus_model.specs.Sections.{data_kind, data_of};
ghost use Rattle.walrus_items.specs.Errors.{out_of_memory};
ghost use Rattle.walrus_reading.specs.Held.{HasShortOffset, HoldsData};
ghost use Rattle.walrus_reading.specs.Kept.{IsOnLive, all_data_kept, data_kept, kept_from, memory_keeping};
ghost use Rattle.walrus_reading.specs.Placed.{AddsPlaced};
ghost use Rattle.walrus_reading.specs.Stays.{ConstStays, DataStays, ModeStays};

use crate::globals::read_initialiser;
use std::alloc::Global;
use walrus_base::{DataId, MemoryId};
use walrus_code::IndicesToIds;
use walrus_items::{DataKind, ModuleData, ModuleMemories, Result};
use wasm_entries::{RawConst, RawData, RawDataMode};

// Active data in the memory of this index.
fn read_active(
    alloc: Global,
    memory: u32,
    offset: &[RawConst],
    indices: &IndicesToIds,
) -> Result<DataKind>
    requires declared { ids_at indices.now Memories memory ≡ Some memory }
    requires stays { ConstStays (ids_at indices.now) offset.now }
    ensures value { IfOk result (λ kind. data_kind_of kind ≡ ActiveData memory (consts_of offset.now)) }
    ensures short { IfOk result HasShortOffset }
    ensures fails { IsOkUnless result out_of_memory }
{
    let Some(memory) = indices.get_memory(memory) else {
        unreachable!();
    };
    let offset = read_initialiser(alloc, offset, indices)?;
    Ok(DataKind::Active { memory, offset })
}

// How a segment is used.
fn read_kind(alloc: Global, raw: &RawDataMode, indices: &IndicesToIds) -> Result<DataKind>
    requires stays { ModeStays (ids_at indices.now) (data_mode raw.now) }
    ensures value { IfOk result (λ kind. data_kind_of kind ≡ data_kind (data_mode raw.now)) }
    ensures short { IfOk result HasShortOffset }
    ensures fails { IsOkUnless result out_of_memory }
{
    match raw {
        RawDataMode::Active(memory, offset) => read_active(
            alloc,
            *memory,
            offset.operators(),
            indices,
        ),
        RawDataMode::Passive => Ok(DataKind::Passive),
    }
}

// The memory keeps the segment from now on.
fn keep(memory: MemoryId, segment: DataId, all: &mut ModuleMemories) -> Result<()>
    requires there { IsLive (memories all.old) (place memory) }
    ensures kept { OnOk result (memories all.new ≡ kept_from memory_keeping 0 (λ y. place memory == y)
        (place segment) (memories all.old)) }
    ensures fails { IsOkUnless result out_of_memory }
{
    all.get_mut(memory).data_segments.insert(segment)?;
    Ok(())
}

// The memory that a segment of this kind is active in keeps it from now on.
fn keep_active(kind: &DataKind, segment: DataId, all: &mut ModuleMemories) -> Result<()>
    requires there { IsOnLive (memories all.old) (data_kind_of kind.now) }
    ensures kept { OnOk result (memories all.new
        ≡ data_kept (data_kind_of kind.now) (place segment) (memories all.old)) }
    ensures fails { IsOkUnless result out_of_memory }
{
    match kind {
        DataKind::Active { memory, .. } => keep(*memory, segment, all),
        DataKind::Passive => Ok(()),
    }
}

// A segment of this entry, with the next id.
fn add_segment(
    alloc: Global,
    raw: &RawData<'_>,
    indices: &IndicesToIds,
    within: &mut ModuleMemories,
    all: &mut ModuleData,
) -> Result<()>
    requires stays { DataStays (ids_at indices.now) (data_entry raw.now) }
    requires there { IsOnLive (memories within.old) (data_kind (data_entry raw.now).mode) }
    ensures added { OnOk result (AddsPlaced HoldsData (data_of (data_entry raw.now) ∷ [])
        (data_segments all.old) (data_segments all.new)) }
    ensures kept { OnOk result (memories within.new ≡ data_kept (data_kind (data_entry raw.now).mode)
        (length (data_segments all.old)) (memories within.old)) }
    ensures fails { IsOkUnless result out_of_memory }
{
    let kind = read_kind(alloc, &raw.mode, indices)?;
    keep_active(&kind, all.next_id(), within)?;
    let value = raw.bytes.to_vec(alloc)?;
    all.add(kind, value)?;
    Ok(())
}

/// Adds the segments of a data section, and puts each active one into the set of its memory (Binary Format > Modules > Data
/// Section).
pub(crate) fn add_data(
    alloc: Global,
    raw: &[RawData<'_>],
    indices: &IndicesToIds,
    within: &mut ModuleMemories,
    all: &mut ModuleData,
) -> Result<()>
    requires stay { All (DataStays (ids_at indices.now)) (map data_entry raw.now) }
    requires there { All (λ d. IsOnLive (memories within.old) (data_kind d.mode)) (map data_entry raw.now) }
    ensures added { OnOk result (AddsPlaced HoldsData (map data_of (map data_entry raw.now))
        (data_segments all.old) (data_segments all.new)) }
    ensures kept { OnOk result (memories within.new ≡ all_data_kept (length (data_segments all.old))
        (map data_of (map data_entry raw.now)) (memories within.old)) }
    ensures fails { IsOkUnless result out_of_memory }
{
    all.reserve(raw.len())?;
    for entry in raw {
        add_segment(alloc, entry, indices, within, all)?;
    }
    Ok(())
}
