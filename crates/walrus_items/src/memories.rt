//! The memories of a module ("Structure > Modules > Memories").
ghost use Rattle.std.specs.Prelude.{◌≡◌, [], Some, None, IsTrue, ◌↔◌, IsOkUnless, count_by, is_some, slice_set, IsOk, OnOk, length};
ghost use Rattle.std.specs.Borrow.{sem};
ghost use Rattle.std.specs.Iterator.{YieldsFirstBy, item_count};
ghost use Rattle.walrus_base.specs.Id.{place};
ghost use Rattle.walrus_base.specs.Arena.{HasRoom, item_at, IsLive, items, entries, kept_by};
ghost use Rattle.walrus_items.specs.Errors.{out_of_memory};
ghost use Rattle.walrus_items.specs.Added.{IsAdded, no_segments};

use crate::error::Result;
use crate::items::{Fresh, Item, ItemEntries, ItemIter, Items, Marked};
use crate::sets::no_ids;
use walrus_base::{DataKey, IdHashSet, ImportId, MemoryId, MemoryKey};

/// A memory of a module.
#[derive(Drop)]
pub struct Memory {
    id: MemoryId,
    /// How many pages it has at first, and at least.
    pub initial: u64,
    /// How many pages it can have at most.
    pub maximum: Option<u64>,
    /// The exponent of 2 of the bytes of a page; without one a page has 65,536 bytes.
    pub page_size_log2: Option<u32>,
    /// The import that brings it in, if one does.
    pub import: Option<ImportId>,
    /// Whether threads share it.
    pub shared: bool,
    /// Whether its addresses have 64 bits.
    pub memory64: bool,
    /// The data segments that are kept as long as the memory is.
    pub data_segments: IdHashSet<DataKey>,
    /// The name that the name section gives it.
    pub name: Option<String>,
}

impl Memory {
    ghost use Rattle.walrus_items.specs.Memories.{memory_value};

    /// The id under which the memory was added.
    pub fn id(&self) -> MemoryId
        ensures { place result ≡ (memory_value self.now).id }
    {
        self.id
    }
}

impl Item for Memory {
    ghost use Rattle.walrus_items.specs.Memories.{MemoryValue, memory_value};

    ghost Seen = { MemoryValue };

    ghost value = { memory_value };
}

impl Fresh for Memory {}

impl Marked for Memory {}

/// The memories of a module, by their ids. Deleted ids are never used again.
pub type ModuleMemories = Items<MemoryKey, Memory>;

impl Items<MemoryKey, Memory> {
    ghost use Rattle.walrus_items.specs.Memories.{MemoryValue, memory_value, memories, memories_left, memory_entries_left};

    /// Adds a memory that this import brings in, without a name and segments. `Memory` is the only error; then nothing
    /// changes.
    pub fn add_import(
        &mut self,
        shared: bool,
        memory64: bool,
        initial: u64,
        maximum: Option<u64>,
        page_size_log2: Option<u32>,
        import: ImportId,
    ) -> Result<MemoryId>
        ensures added { IsAdded result (memories self.old) (memories self.new) (λ own. record {
          id = own;
          shared = shared;
          memory64 = memory64;
          initial = initial;
          maximum = maximum;
          page_size_log2 = page_size_log2;
          imported_by = Some (place «import»);
          segments = no_segments;
          name = None;
        }) }
        ensures succeeds { HasRoom self.old.arena 1 → IsOk result }
    {
        let id = self.arena.next_id();
        Ok(
            self.arena.alloc(Memory {
                id,
                shared,
                memory64,
                initial,
                maximum,
                page_size_log2,
                import: Some(import),
                data_segments: no_ids(self.alloc),
                name: None,
            })?,
        )
    }

    /// Adds a memory of the module's own, without a name and segments. `Memory` is the only error; then nothing changes.
    pub fn add_local(
        &mut self,
        shared: bool,
        memory64: bool,
        initial: u64,
        maximum: Option<u64>,
        page_size_log2: Option<u32>,
    ) -> Result<MemoryId>
        ensures { IsAdded result (memories self.old) (memories self.new) (λ own. record {
          id = own;
          shared = shared;
          memory64 = memory64;
          initial = initial;
          maximum = maximum;
          page_size_log2 = page_size_log2;
          imported_by = None;
          segments = no_segments;
          name = None;
        }) }
    {
        let id = self.arena.next_id();
        Ok(
            self.arena.alloc(Memory {
                id,
                shared,
                memory64,
                initial,
                maximum,
                page_size_log2,
                import: None,
                data_segments: no_ids(self.alloc),
                name: None,
            })?,
        )
    }
}

/// The memories of a module, by rising id.
pub type MemoryIter<'a> = ItemIter<'a, MemoryKey, Memory>;

/// The memories of a module with their ids, by rising id.
pub type MemoryEntries<'a> = ItemEntries<'a, MemoryKey, Memory>;
