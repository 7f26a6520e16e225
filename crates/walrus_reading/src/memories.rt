//! The memories of a module that is read.
ghost use Rattle.std.specs.Prelude.{◌∷◌, [], map, OnOk, IsOkUnless};
ghost use Rattle.walrus_items.specs.Memories.{memories};
ghost use Rattle.walrus_model.specs.Sections.{memory_of};
ghost use Rattle.walrus_items.specs.Errors.{out_of_memory};
ghost use Rattle.walrus_reading.specs.Held.{HoldsMemory, none_kept};
ghost use Rattle.walrus_reading.specs.Placed.{AddsPlaced};

use walrus_items::{ModuleMemories, Result};
use wasm_entries::RawLimits;

// A memory of this type, with the next id.
fn add_memory(limits: RawLimits, all: &mut ModuleMemories) -> Result<()>
    ensures added { OnOk result (AddsPlaced (HoldsMemory none_kept) (memory_of limits ∷ []) (memories all.old)
        (memories all.new)) }
    ensures fails { IsOkUnless result out_of_memory }
{
    all.add_local(
        limits.shared,
        limits.wide,
        limits.minimum,
        limits.maximum,
        limits.page,
    )?;
    Ok(())
}

/// Adds the memories of a memory section (Binary Format > Modules > Memory Section).
pub(crate) fn add_memories(raw: &[RawLimits], all: &mut ModuleMemories) -> Result<()>
    ensures added { OnOk result (AddsPlaced (HoldsMemory none_kept) (map memory_of raw.now) (memories all.old)
        (memories all.new)) }
    ensures fails { IsOkUnless result out_of_memory }
{
    all.reserve(raw.len())?;
    for limits in raw {
        add_memory(*limits, all)?;
    }
    Ok(())
}
