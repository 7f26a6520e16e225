//! The memory section of a module that is written, and limits.
ghost use Rattle.std.specs.Prelude.{◌≡◌, map, All, Some, IfOk, IsOkUnless};
ghost use Rattle.walrus_base.specs.Arena.{items};
ghost use Rattle.walrus_items.specs.Memories.{memories, memory_value};
ghost use Rattle.walrus_contents.specs.View.{memory_of};
ghost use Rattle.walrus_items.specs.Errors.{out_of_memory};
ghost use Rattle.wasm_entries.specs.TypeSpelling.{LimitsStand};
ghost use Rattle.walrus_plan.specs.Brought.{own_of};
ghost use Rattle.walrus_writing.specs.Parts.{limits_with, memory_limits};

use std::alloc::Global;
use walrus_items::{Memory, ModuleMemories, Result};
use wasm_entries::RawLimits;

// Limits of these numbers, which are of 64 and of 32 bits.
pub fn raw_limits(
    minimum: u64,
    maximum: Option<u64>,
    shared: bool,
    wide: bool,
    page: Option<u32>,
) -> RawLimits
    ensures value { result ≡ limits_with minimum maximum shared wide page }
    ensures stands { LimitsStand result }
{
    RawLimits {
        minimum,
        maximum,
        shared,
        wide,
        page,
    }
}

/// The limits of a memory.
pub fn raw_memory(memory: &Memory) -> RawLimits
    ensures value { result ≡ memory_limits (memory_of (memory_value memory.now)) }
    ensures stands { LimitsStand result }
{
    raw_limits(
        memory.initial,
        memory.maximum,
        memory.shared,
        memory.memory64,
        memory.page_size_log2,
    )
}

// The limits of each memory that the module defines, by rising id.
pub fn raw_memories(alloc: Global, all: &ModuleMemories) -> Result<Vec<RawLimits>>
    ensures value { IfOk result (λ raw. map Some raw.items
        ≡ map (λ m. Some (memory_limits (memory_of m)))
        (own_of (λ x. x.imported_by) (items (memories all.now)))) }
    ensures stand { IfOk result (λ raw. All LimitsStand raw.items) }
    ensures fails { IsOkUnless result out_of_memory }
{
    let mut raw = Vec::with_capacity(alloc, all.len())?;
    for memory in all.iter() {
        if memory.import.is_none() {
            raw.push(raw_memory(memory))?;
        }
    }
    Ok(raw)
}
