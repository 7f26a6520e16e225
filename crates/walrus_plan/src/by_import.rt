//! The order of the items of each index space: what imports bring, by rising import, and then what the module defines ("Structure > Modules >
//! Indices").
ghost use Rattle.std.specs.Prelude.{◌≡◌, ◌++◌, map, IfOk, OnOk, IsOkUnless};
ghost use Rattle.walrus_base.specs.Arena.{entries, items};
ghost use Rattle.walrus_base.specs.Id.{place};
ghost use Rattle.walrus_base.specs.Operators.{Functions, Globals, Memories, Tables, Tags};
ghost use Rattle.walrus_items.specs.Globals.{globals};
ghost use Rattle.walrus_items.specs.Memories.{memories};
ghost use Rattle.walrus_items.specs.Tables.{tables};
ghost use Rattle.walrus_items.specs.Tags.{tags};
ghost use Rattle.walrus_items.specs.Imports.{imports};
ghost use Rattle.walrus_items.specs.Errors.{out_of_memory};
ghost use Rattle.walrus_plan.specs.Brought.{IsLonger, own_places, places_brought};

use crate::origins::{global_import, tag_import};
use std::alloc::Global;
use walrus_base::{FunctionId, GlobalId, MemoryId, TableId, TagId};
use walrus_items::{
    ImportKind, ModuleGlobals, ModuleImports, ModuleMemories, ModuleTables, ModuleTags, Result,
};

/// What imports bring, in a list for each kind of items.
#[derive(Drop)]
pub struct Brought {
    pub functions: Vec<FunctionId>,
    pub tables: Vec<TableId>,
    pub memories: Vec<MemoryId>,
    pub tags: Vec<TagId>,
    pub globals: Vec<GlobalId>,
}

impl Brought {
    // Adds an item to the list of its kind. Want of memory is the only refusal.
    fn push(&mut self, kind: ImportKind) -> Result<()>
        ensures functions { OnOk result (IsLonger self.old.functions self.new.functions Functions kind) }
        ensures tables { OnOk result (IsLonger self.old.tables self.new.tables Tables kind) }
        ensures memories { OnOk result (IsLonger self.old.memories self.new.memories Memories kind) }
        ensures tags { OnOk result (IsLonger self.old.tags self.new.tags Tags kind) }
        ensures globals { OnOk result (IsLonger self.old.globals self.new.globals Globals kind) }
        ensures fails { IsOkUnless result out_of_memory }
    {
        match kind {
            ImportKind::Function(id) => self.functions.push(id)?,
            ImportKind::Table(id) => self.tables.push(id)?,
            ImportKind::Memory(id) => self.memories.push(id)?,
            ImportKind::Global(id) => self.globals.push(id)?,
            ImportKind::Tag(id) => self.tags.push(id)?,
        }
        Ok(())
    }
}

/// The items that imports bring, by rising import. Want of memory is the only refusal.
pub fn brought_ids(alloc: Global, all: &ModuleImports) -> Result<Brought>
    ensures functions { IfOk result (λ ids. map place ids.functions.items
        ≡ places_brought Functions (items (imports all.now))) }
    ensures tables { IfOk result (λ ids. map place ids.tables.items
        ≡ places_brought Tables (items (imports all.now))) }
    ensures memories { IfOk result (λ ids. map place ids.memories.items
        ≡ places_brought Memories (items (imports all.now))) }
    ensures tags { IfOk result (λ ids. map place ids.tags.items
        ≡ places_brought Tags (items (imports all.now))) }
    ensures globals { IfOk result (λ ids. map place ids.globals.items
        ≡ places_brought Globals (items (imports all.now))) }
    ensures fails { IsOkUnless result out_of_memory }
{
    let mut ids = Brought {
        functions: Vec::new(alloc),
        tables: Vec::new(alloc),
        memories: Vec::new(alloc),
        tags: Vec::new(alloc),
        globals: Vec::new(alloc),
    };
    'imports: for import in all.iter() {
        ids.push(import.kind)?;
    }
    Ok(ids)
}

/// The tables: what imports bring, and then what the module defines, by rising id. Want of memory is the only refusal.
pub fn tables_by_import(brought: Vec<TableId>, all: &ModuleTables) -> Result<Vec<TableId>>
    ensures value { IfOk result (λ ids. map place ids.items ≡ map place brought.items
        ++ own_places (λ x. x.imported_by) (entries (tables all.now))) }
    ensures fails { IsOkUnless result out_of_memory }
{
    let mut ids = brought;
    for (id, table) in all.iter_entries() {
        if table.import.is_none() {
            ids.push(id)?;
        }
    }
    Ok(ids)
}

/// The memories: what imports bring, and then what the module defines, by rising id. Want of memory is the only refusal.
pub fn memories_by_import(brought: Vec<MemoryId>, all: &ModuleMemories) -> Result<Vec<MemoryId>>
    ensures value { IfOk result (λ ids. map place ids.items ≡ map place brought.items
        ++ own_places (λ x. x.imported_by) (entries (memories all.now))) }
    ensures fails { IsOkUnless result out_of_memory }
{
    let mut ids = brought;
    for (id, memory) in all.iter_entries() {
        if memory.import.is_none() {
            ids.push(id)?;
        }
    }
    Ok(ids)
}

/// The globals: what imports bring, and then what the module defines, by rising id. Want of memory is the only refusal.
pub fn globals_by_import(brought: Vec<GlobalId>, all: &ModuleGlobals) -> Result<Vec<GlobalId>>
    ensures value { IfOk result (λ ids. map place ids.items ≡ map place brought.items
        ++ own_places (λ x. x.imported_by) (entries (globals all.now))) }
    ensures fails { IsOkUnless result out_of_memory }
{
    let mut ids = brought;
    for (id, global) in all.iter_entries() {
        if global_import(&global.kind).is_none() {
            ids.push(id)?;
        }
    }
    Ok(ids)
}

/// The tags: what imports bring, and then what the module defines, by rising id. Want of memory is the only refusal.
pub fn tags_by_import(brought: Vec<TagId>, all: &ModuleTags) -> Result<Vec<TagId>>
    ensures value { IfOk result (λ ids. map place ids.items ≡ map place brought.items
        ++ own_places (λ x. x.imported_by) (entries (tags all.now))) }
    ensures fails { IsOkUnless result out_of_memory }
{
    let mut ids = brought;
    for (id, tag) in all.iter_entries() {
        if tag_import(&tag.kind).is_none() {
            ids.push(id)?;
        }
    }
    Ok(ids)
}
