//! The imports of a module ("Structure > Modules > Imports").
ghost use Rattle.std.specs.Prelude.{◌≡◌, ◌++◌, ◌∷◌, [], length, Some, None, IsTrue, ◌↔◌, MatchResult, IfOk, IsOkUnless, count_by, is_some, slice_set, option_map, OnOk};
ghost use Rattle.std.specs.Borrow.{sem};
ghost use Rattle.std.specs.Iterator.{YieldsFirstBy, item_count};
ghost use Rattle.std.specs.Option.{ok_or};
ghost use Rattle.walrus_base.specs.Id.{place};
ghost use Rattle.walrus_base.specs.Arena.{HasRoom, item_at, IsLive, items, entries};
ghost use Rattle.walrus_base.specs.Operators.{function_item};
ghost use Rattle.walrus_items.specs.Errors.{out_of_memory};
ghost use Rattle.walrus_items.specs.Kinds.{imported};
ghost use Rattle.walrus_items.specs.Keeping.{kept_slot, kept_where};
ghost use Rattle.walrus_items.specs.Searches.{first, RemovesFound};

use crate::error::{Error, Result};
use crate::items::{Fresh, Item, ItemEntries, ItemIter, Items};
use crate::kinds::ImportKind;
use crate::marks::ItemMarks;
use walrus_base::{FunctionId, ImportId, ImportKey};

/// An import of a module.
#[derive(Debug, Drop, PartialEq, Eq, Hash)]
pub struct Import {
    id: ImportId,
    /// The name of the module that the item comes from.
    pub module: String,
    /// The name that the item has there.
    pub name: String,
    /// What is imported.
    pub kind: ImportKind,
}

impl Import {
    ghost use Rattle.walrus_items.specs.Imports.{import_value};

    /// The id under which the import was added.
    pub fn id(&self) -> ImportId
        ensures { place result ≡ (import_value self.now).id }
    {
        self.id
    }

    /// An equal import. `Memory` is the only error.
    pub fn try_clone(&self) -> Result<Import>
        ensures value { IfOk result (λ i. import_value i ≡ import_value self.now) }
        ensures fails { IsOkUnless result out_of_memory }
    {
        Ok(Import {
            id: self.id,
            module: self.module.clone()?,
            name: self.name.clone()?,
            kind: self.kind,
        })
    }
}

impl Item for Import {
    ghost use Rattle.walrus_items.specs.Imports.{ImportValue, import_value};

    ghost Seen = { ImportValue };

    ghost value = { import_value };
}

impl Fresh for Import {}

/// The imports of a module, by their ids. Deleted ids are never used again.
pub type ModuleImports = Items<ImportKey, Import>;

impl Items<ImportKey, Import> {
    ghost use Rattle.walrus_items.specs.Imports.{ImportValue, import_value, imports, imports_left, import_entries_left, is_import_of, imports_item, function_of, stays_under};

    /// Imports an item by the name of its module and its own. `Memory` is the only error; then nothing changes.
    pub fn add(&mut self, module: &str, name: &str, kind: ImportKind) -> Result<ImportId>
        ensures { MatchResult result
            (λ id. (place id ≡ length (imports self.old))
            × (imports self.new ≡ imports self.old
            ++ Some (record {
              id = place id;
              module_name = «module».now;
              name = name.now;
              kind = kind;
            }) ∷ []))
            (λ e. (e ≡ out_of_memory) × (imports self.new ≡ imports self.old)) }
    {
        let module = String::from_str(self.alloc, module)?;
        let name = String::from_str(self.alloc, name)?;
        let id = self.arena.next_id();
        Ok(
            self.arena.alloc(Import {
                id,
                module,
                name,
                kind,
            })?,
        )
    }

    /// Deletes every import whose item isn't marked. The others stay, and so do all places. Takes no memory.
    pub fn keep_only(&mut self, marks: ItemMarks<'_>)
        ensures { imports self.new ≡ kept_where (stays_under marks.entry) (imports self.old) }
    {
        for place in 0..self.next_id().index() {
            self.delete_unmarked(ImportId::at(place), marks);
        }
    }

    // Deletes the import of the id, if it is there and its item isn't marked.
    fn delete_unmarked(&mut self, id: ImportId, marks: ItemMarks<'_>)
        ensures { imports self.new ≡ slice_set (imports self.old) (place id)
            (kept_slot (stays_under marks.entry) (item_at (imports self.old) (place id))) }
    {
        if self.arena.contains(id) && !marks.has_import(self.arena.get(id).kind) {
            self.delete(id);
        }
    }

    /// The first import of these two names.
    pub fn find(&self, module: &str, name: &str) -> Option<ImportId>
        ensures { option_map place result ≡ option_map (λ e. e.0)
            (first (is_import_of «module».now name.now) (imports self.now)) }
    {
        for (id, import) in self.arena.iter() {
            if import.module.as_str() == module && import.name.as_str() == name {
                return Some(id);
            }
        }
        None
    }

    /// The first function imported by these two names, or `NotFound` where there is none.
    pub fn get_func(&self, module: &str, name: &str) -> Result<FunctionId>
        ensures { result ≡ ok_or (function_of «module».now name.now (imports self.now)) Error.NotFound }
    {
        for (_, import) in self.arena.iter() {
            if import.module.as_str() == module && import.name.as_str() == name {
                if let ImportKind::Function(id) = import.kind {
                    return Ok(id);
                }
            }
        }
        Err(Error::NotFound)
    }

    /// The id, which is its place, of the first import of this item.
    pub fn first_id_of(&self, kind: ImportKind) -> Option<ImportId>
        ensures { option_map place result ≡ option_map (λ e. e.0)
            (first (imports_item (imported kind)) (imports self.now)) }
    {
        for (at, import) in self.arena.iter() {
            if import.kind.is_same(kind) {
                return Some(at);
            }
        }
        None
    }

    /// The first import of this function.
    pub fn get_imported_func(&self, id: FunctionId) -> Option<&Import>
        ensures { option_map (λ i. import_value i.now) result ≡ option_map (λ e. e.1)
            (first (imports_item (function_item (place id))) (imports self.now)) }
    {
        for (_, import) in self.arena.iter() {
            if let ImportKind::Function(imported) = import.kind {
                if imported == id {
                    return Some(import);
                }
            }
        }
        None
    }

    /// Takes away the first import of these two names, or answers `NotFound` where there is none.
    pub fn remove(&mut self, module: &str, name: &str) -> Result<()>
        ensures { RemovesFound (first (is_import_of «module».now name.now) (imports self.old))
            (imports self.old) (imports self.new) result }
    {
        match self.find(module, name) {
            Some(found) => {
                self.delete(found);
                Ok(())
            }
            None => Err(Error::NotFound),
        }
    }
}

/// The imports of a module, by rising id.
pub type ImportIter<'a> = ItemIter<'a, ImportKey, Import>;

/// The imports of a module with their ids, by rising id.
pub type ImportEntries<'a> = ItemEntries<'a, ImportKey, Import>;
