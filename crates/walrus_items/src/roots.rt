//! What custom sections ask to keep.

ghost use Rattle.std.specs.Prelude.{◌≡◌, IfOk, IsOkUnless};
ghost use Rattle.walrus_base.specs.Id.{place};
ghost use Rattle.walrus_base.specs.Operators.{Functions, Tables, Memories, Globals, Tags};
ghost use Rattle.walrus_items.specs.Roots.{RootLists, places, no_roots, with_place};
ghost use Rattle.walrus_items.specs.Errors.{out_of_memory};

use crate::error::Result;
use std::alloc::Global;
use std::marker::Model;
use walrus_base::{FunctionId, GlobalId, MemoryId, TableId, TagId};

/// The items that custom sections ask to keep, by kind, in the order in which they were asked for.
#[derive(Drop)]
pub struct Roots {
    funcs: Vec<FunctionId>,
    tables: Vec<TableId>,
    memories: Vec<MemoryId>,
    globals: Vec<GlobalId>,
    tags: Vec<TagId>,
}

impl Model for Roots {
    ghost Value = { RootLists };

    ghost view = { λ r. record {
      funcs = places r.funcs.items;
      tables = places r.tables.items;
      memories = places r.memories.items;
      globals = places r.globals.items;
      tags = places r.tags.items;
    } };
}

impl Roots {
    /// Nothing is asked for yet. Takes no memory.
    pub fn new(alloc: Global) -> Roots
        ensures { result ≡ no_roots }
    {
        Roots {
            funcs: Vec::new(alloc),
            tables: Vec::new(alloc),
            memories: Vec::new(alloc),
            globals: Vec::new(alloc),
            tags: Vec::new(alloc),
        }
    }

    /// Asks to keep the function of this id, behind those asked for before, and hands the roots on for the next call.
    /// `Memory` is the only error.
    pub fn push_func(&mut self, id: FunctionId) -> Result<&mut Roots>
        ensures same_reference { IfOk result (λ r. r.ghost_name ≡ self.entry.ghost_name) }
        ensures value { IfOk result (λ r. r.now ≡ with_place self.old Functions (place id)) }
        ensures fails { IsOkUnless result out_of_memory }
    {
        self.funcs.push(id)?;
        Ok(self)
    }

    /// Asks to keep the table of this id, behind those asked for before, and hands the roots on for the next call.
    /// `Memory` is the only error.
    pub fn push_table(&mut self, id: TableId) -> Result<&mut Roots>
        ensures same_reference { IfOk result (λ r. r.ghost_name ≡ self.entry.ghost_name) }
        ensures value { IfOk result (λ r. r.now ≡ with_place self.old Tables (place id)) }
        ensures fails { IsOkUnless result out_of_memory }
    {
        self.tables.push(id)?;
        Ok(self)
    }

    /// Asks to keep the memory of this id, behind those asked for before, and hands the roots on for the next call.
    /// `Memory` is the only error.
    pub fn push_memory(&mut self, id: MemoryId) -> Result<&mut Roots>
        ensures same_reference { IfOk result (λ r. r.ghost_name ≡ self.entry.ghost_name) }
        ensures value { IfOk result (λ r. r.now ≡ with_place self.old Memories (place id)) }
        ensures fails { IsOkUnless result out_of_memory }
    {
        self.memories.push(id)?;
        Ok(self)
    }

    /// Asks to keep the global of this id, behind those asked for before, and hands the roots on for the next call.
    /// `Memory` is the only error.
    pub fn push_global(&mut self, id: GlobalId) -> Result<&mut Roots>
        ensures same_reference { IfOk result (λ r. r.ghost_name ≡ self.entry.ghost_name) }
        ensures value { IfOk result (λ r. r.now ≡ with_place self.old Globals (place id)) }
        ensures fails { IsOkUnless result out_of_memory }
    {
        self.globals.push(id)?;
        Ok(self)
    }

    /// Asks to keep the tag of this id, behind those asked for before, and hands the roots on for the next call.
    /// `Memory` is the only error.
    pub fn push_tag(&mut self, id: TagId) -> Result<&mut Roots>
        ensures same_reference { IfOk result (λ r. r.ghost_name ≡ self.entry.ghost_name) }
        ensures value { IfOk result (λ r. r.now ≡ with_place self.old Tags (place id)) }
        ensures fails { IsOkUnless result out_of_memory }
    {
        self.tags.push(id)?;
        Ok(self)
    }

    /// The functions asked for, in order.
    pub fn funcs(&self) -> &[FunctionId]
        ensures { places result.now ≡ self.now.funcs }
    {
        &self.funcs
    }

    /// The tables asked for, in order.
    pub fn tables(&self) -> &[TableId]
        ensures { places result.now ≡ self.now.tables }
    {
        &self.tables
    }

    /// The memories asked for, in order.
    pub fn memories(&self) -> &[MemoryId]
        ensures { places result.now ≡ self.now.memories }
    {
        &self.memories
    }

    /// The globals asked for, in order.
    pub fn globals(&self) -> &[GlobalId]
        ensures { places result.now ≡ self.now.globals }
    {
        &self.globals
    }

    /// The tags asked for, in order.
    pub fn tags(&self) -> &[TagId]
        ensures { places result.now ≡ self.now.tags }
    {
        &self.tags
    }
}
