//! The globals of a module ("Structure > Modules > Globals").
ghost use Rattle.std.specs.Prelude.{◌≡◌, [], Some, None, IsTrue, ◌↔◌, IsOkUnless, count_by, is_some, slice_set, IsOk, OnOk, length};
ghost use Rattle.std.specs.Borrow.{sem};
ghost use Rattle.std.specs.Iterator.{YieldsFirstBy, item_count};
ghost use Rattle.walrus_base.specs.Id.{place};
ghost use Rattle.walrus_base.specs.Arena.{HasRoom, item_at, IsLive, items, entries, kept_by};
ghost use Rattle.walrus_items.specs.Errors.{out_of_memory};
ghost use Rattle.walrus_items.specs.Added.{IsAdded};
ghost use Rattle.walrus_base.specs.Value.{val_type};

use crate::error::Result;
use crate::items::{Fresh, Item, ItemEntries, ItemIter, Items, Marked};
use crate::kinds::GlobalKind;
use walrus_base::{ConstExpr, GlobalId, GlobalKey, ImportId, ValType};

/// A global of a module.
#[derive(Drop)]
pub struct Global {
    id: GlobalId,
    /// The type of its value.
    pub ty: ValType,
    /// Whether its value can be changed.
    pub mutable: bool,
    /// Whether threads share it.
    pub shared: bool,
    /// Where the global comes from.
    pub kind: GlobalKind,
    /// The name that the name section gives it.
    pub name: Option<String>,
}

impl Global {
    ghost use Rattle.walrus_items.specs.Globals.{global_value};

    /// The id under which the global was added.
    pub fn id(&self) -> GlobalId
        ensures { place result ≡ (global_value self.now).id }
    {
        self.id
    }
}

impl Item for Global {
    ghost use Rattle.walrus_items.specs.Globals.{GlobalValue, global_value};

    ghost Seen = { GlobalValue };

    ghost value = { global_value };
}

impl Fresh for Global {}

impl Marked for Global {}

/// The globals of a module, by their ids. Deleted ids are never used again.
pub type ModuleGlobals = Items<GlobalKey, Global>;

impl Items<GlobalKey, Global> {
    ghost use Rattle.walrus_items.specs.Globals.{GlobalValue, global_value, globals, globals_left, global_entries_left};

    /// Adds a global that this import brings in, without a name. `Memory` is the only error; then nothing changes.
    pub fn add_import(
        &mut self,
        ty: ValType,
        mutable: bool,
        shared: bool,
        import: ImportId,
    ) -> Result<GlobalId>
        ensures added { IsAdded result (globals self.old) (globals self.new) (λ own. record {
          id = own;
          ty = val_type ty;
          mutable = mutable;
          shared = shared;
          imported_by = Some (place «import»);
          initialiser = None;
          name = None;
        }) }
        ensures succeeds { HasRoom self.old.arena 1 → IsOk result }
    {
        let id = self.arena.next_id();
        Ok(
            self.arena.alloc(Global {
                id,
                ty,
                mutable,
                shared,
                kind: GlobalKind::Import(import),
                name: None,
            })?,
        )
    }

    /// Adds a global with this initialiser, without a name. `Memory` is the only error; then nothing changes.
    pub fn add_local(
        &mut self,
        ty: ValType,
        mutable: bool,
        shared: bool,
        init: ConstExpr,
    ) -> Result<GlobalId>
        ensures { IsAdded result (globals self.old) (globals self.new) (λ own. record {
          id = own;
          ty = val_type ty;
          mutable = mutable;
          shared = shared;
          imported_by = None;
          initialiser = Some init;
          name = None;
        }) }
    {
        let id = self.arena.next_id();
        Ok(
            self.arena.alloc(Global {
                id,
                ty,
                mutable,
                shared,
                kind: GlobalKind::Local(init),
                name: None,
            })?,
        )
    }
}

/// The globals of a module, by rising id.
pub type GlobalIter<'a> = ItemIter<'a, GlobalKey, Global>;

/// The globals of a module with their ids, by rising id.
pub type GlobalEntries<'a> = ItemEntries<'a, GlobalKey, Global>;
