//! The memory of a module that has just one.
ghost use Rattle.std.specs.Prelude.{◌≡◌, map};
ghost use Rattle.std.specs.Result.{result_map_both};
ghost use Rattle.walrus_base.specs.Arena.{items};
ghost use Rattle.walrus_base.specs.Id.{place};
ghost use Rattle.walrus_items.specs.Memories.{memories};
ghost use Rattle.walrus_module.specs.OnlyMemory.{only_memory};

use crate::module::Module;
use walrus_base::MemoryId;
use walrus_items::{Error, Result};

impl<S> Module<S> {
    /// The own id of the module's only memory, exported or not: `NoMemory` where there is none, `SeveralMemories` where there are more.
    pub fn get_memory_id(&self) -> Result<MemoryId>
        ensures { result_map_both place (λ e. e) result
            ≡ only_memory (map (λ y. y.id) (items (memories self.now.memories))) }
    {
        let mut rest = self.memories.iter();
        let Some(first) = rest.next() else {
            return Err(Error::NoMemory);
        };
        if rest.next().is_some() {
            return Err(Error::SeveralMemories);
        }
        Ok(first.id())
    }
}
