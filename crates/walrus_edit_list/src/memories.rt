//! Memories whose types are written anew ("Structure > Modules > Memories").

ghost use Rattle.std.specs.Prelude.{◌≡◌, MatchResult, option_map, slice_set};
ghost use Rattle.walrus_base.specs.Arena.{IsLive, item_at};
ghost use Rattle.walrus_base.specs.Id.{place};
ghost use Rattle.walrus_items.specs.Memories.{memories};
ghost use Rattle.walrus_module.specs.View.{contents_of};
ghost use Rattle.walrus_edit_list.specs.Memories.{RefusesSetMemory, SetsMemory, of_size};

use walrus_base::MemoryId;
use walrus_items::{Error, ModuleMemories, Result};
use walrus_module::Module;
use wasm_entries::RawLimits;

// The memory of this live id has this size.
fn resize(id: MemoryId, size: RawLimits, all: &mut ModuleMemories)
    requires { IsLive (memories all.old) (place id) }
    ensures { memories all.new ≡ slice_set (memories all.old) (place id)
        (option_map (of_size size) (item_at (memories all.old) (place id))) }
{
    let memory = all.get_mut(id);
    memory.shared = size.shared;
    memory.memory64 = size.wide;
    memory.initial = size.minimum;
    memory.maximum = size.maximum;
    memory.page_size_log2 = size.page;
}

/// Writes the type of the memory of this id anew; what brings it stays. `DeadItem` exactly where it isn't there.
pub(crate) fn set_memory<S>(number: u32, size: RawLimits, module: &mut Module<S>) -> Result<()>
    ensures { MatchResult result
        (λ _. SetsMemory number size (contents_of «module».old) (contents_of «module».new))
        (RefusesSetMemory number (contents_of «module».old)) }
{
    let id = MemoryId::at(number as usize);
    if !module.memories.contains(id) {
        return Err(Error::DeadItem);
    }
    resize(id, size, &mut module.memories);
    Ok(())
}
