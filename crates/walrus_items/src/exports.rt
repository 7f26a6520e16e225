//! The exports of a module ("Structure > Modules > Exports").
ghost use Rattle.std.specs.Prelude.{◌≡◌, ◌++◌, ◌∷◌, [], length, Some, None, IsTrue, ◌↔◌, MatchResult, IfOk, IsOkUnless, count_by, is_some, slice_set, option_map, OnOk};
ghost use Rattle.std.specs.Option.{ok_or};
ghost use Rattle.std.specs.Borrow.{sem};
ghost use Rattle.std.specs.Iterator.{YieldsFirstBy, item_count};
ghost use Rattle.walrus_base.specs.Id.{place};
ghost use Rattle.walrus_base.specs.Arena.{HasRoom, item_at, IsLive, items, entries};
ghost use Rattle.walrus_base.specs.Operators.{Tables, Memories, Globals, function_item};
ghost use Rattle.walrus_items.specs.Errors.{out_of_memory};
ghost use Rattle.walrus_items.specs.Kinds.{exported};
ghost use Rattle.walrus_items.specs.Searches.{first, RemovesFound};

use crate::error::{Error, Result};
use crate::items::{Fresh, Item, ItemEntries, ItemIter, Items};
use crate::kinds::ExportItem;
use walrus_base::{ExportId, ExportKey, FunctionId, GlobalId, MemoryId, TableId};

/// An export of a module.
#[derive(Debug, Drop)]
pub struct Export {
    id: ExportId,
    /// The name under which the item is exported.
    pub name: String,
    /// What is exported.
    pub item: ExportItem,
}

impl Export {
    ghost use Rattle.walrus_items.specs.Exports.{export_value};

    /// The id under which the export was added.
    pub fn id(&self) -> ExportId
        ensures { place result ≡ (export_value self.now).id }
    {
        self.id
    }

    /// An equal export. `Memory` is the only error.
    pub fn try_clone(&self) -> Result<Export>
        ensures value { IfOk result (λ e. export_value e ≡ export_value self.now) }
        ensures fails { IsOkUnless result out_of_memory }
    {
        Ok(Export {
            id: self.id,
            name: self.name.clone()?,
            item: self.item,
        })
    }
}

impl Item for Export {
    ghost use Rattle.walrus_items.specs.Exports.{ExportValue, export_value};

    ghost Seen = { ExportValue };

    ghost value = { export_value };
}

impl Fresh for Export {}

/// The exports of a module, by their ids. Deleted ids are never used again.
pub type ModuleExports = Items<ExportKey, Export>;

impl Items<ExportKey, Export> {
    ghost use Rattle.walrus_items.specs.Exports.{ExportValue, export_value, exports, exports_left, export_entries_left, is_named, exports_item, function_named};

    /// Exports an item under a name. `Memory` is the only error; then nothing changes.
    pub fn add(&mut self, name: &str, item: ExportItem) -> Result<ExportId>
        ensures { MatchResult result
            (λ id. (place id ≡ length (exports self.old))
            × (exports self.new ≡ exports self.old
            ++ Some (record { id = place id; name = name.now; item = item }) ∷ []))
            (λ e. (e ≡ out_of_memory) × (exports self.new ≡ exports self.old)) }
    {
        let name = String::from_str(self.alloc, name)?;
        let id = self.arena.next_id();
        Ok(self.arena.alloc(Export { id, name, item })?)
    }

    /// Takes the export of a live id away: another name of `delete`.
    pub fn remove_root(&mut self, id: ExportId)
        requires { IsLive (exports self.old) (place id) }
        ensures { exports self.new ≡ slice_set (exports self.old) (place id) None }
    {
        self.delete(id);
    }

    /// The first function exported under this name, or `NotFound` where there is none.
    pub fn get_func(&self, name: &str) -> Result<FunctionId>
        ensures { result ≡ ok_or (function_named name.now (exports self.now)) Error.NotFound }
    {
        for (_, export) in self.arena.iter() {
            if export.name.as_str() == name {
                if let ExportItem::Function(id) = export.item {
                    return Ok(id);
                }
            }
        }
        Err(Error::NotFound)
    }

    /// The first export of this function.
    pub fn get_exported_func(&self, id: FunctionId) -> Option<&Export>
        ensures { option_map (λ e. export_value e.now) result ≡ option_map (λ e. e.1)
            (first (exports_item (function_item (place id))) (exports self.now)) }
    {
        self.first_of(ExportItem::Function(id))
    }

    /// The first export of this table.
    pub fn get_exported_table(&self, id: TableId) -> Option<&Export>
        ensures { option_map (λ e. export_value e.now) result ≡ option_map (λ e. e.1)
            (first (exports_item (Tables, place id)) (exports self.now)) }
    {
        self.first_of(ExportItem::Table(id))
    }

    /// The first export of this memory.
    pub fn get_exported_memory(&self, id: MemoryId) -> Option<&Export>
        ensures { option_map (λ e. export_value e.now) result ≡ option_map (λ e. e.1)
            (first (exports_item (Memories, place id)) (exports self.now)) }
    {
        self.first_of(ExportItem::Memory(id))
    }

    /// The first export of this global.
    pub fn get_exported_global(&self, id: GlobalId) -> Option<&Export>
        ensures { option_map (λ e. export_value e.now) result ≡ option_map (λ e. e.1)
            (first (exports_item (Globals, place id)) (exports self.now)) }
    {
        self.first_of(ExportItem::Global(id))
    }

    /// Takes away the first export of this name, or answers `NotFound` where there is none.
    pub fn remove(&mut self, name: &str) -> Result<()>
        ensures { RemovesFound (first (is_named name.now) (exports self.old)) (exports self.old)
            (exports self.new) result }
    {
        match self.first_named(name) {
            Some(found) => {
                self.delete(found);
                Ok(())
            }
            None => Err(Error::NotFound),
        }
    }

    /// The id, which is its place, of the first export of this item.
    pub fn first_id_of(&self, item: ExportItem) -> Option<ExportId>
        ensures { option_map place result ≡ option_map (λ e. e.0)
            (first (exports_item (exported item)) (exports self.now)) }
    {
        for (at, export) in self.arena.iter() {
            if export.item.is_same(item) {
                return Some(at);
            }
        }
        None
    }

    // The first export of this item.
    fn first_of(&self, item: ExportItem) -> Option<&Export>
        ensures { option_map (λ e. export_value e.now) result ≡ option_map (λ e. e.1)
            (first (exports_item (exported item)) (exports self.now)) }
    {
        for (_, export) in self.arena.iter() {
            if export.item.is_same(item) {
                return Some(export);
            }
        }
        None
    }

    // The id of the first export of this name.
    fn first_named(&self, name: &str) -> Option<ExportId>
        ensures { option_map place result ≡ option_map (λ e. e.0)
            (first (is_named name.now) (exports self.now)) }
    {
        for (id, export) in self.arena.iter() {
            if export.name.as_str() == name {
                return Some(id);
            }
        }
        None
    }
}

/// The exports of a module, by rising id.
pub type ExportIter<'a> = ItemIter<'a, ExportKey, Export>;

/// The exports of a module with their ids, by rising id.
pub type ExportEntries<'a> = ItemEntries<'a, ExportKey, Export>;
