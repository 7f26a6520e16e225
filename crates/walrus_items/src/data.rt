//! The data segments of a module ("Structure > Modules > Data Segments").
ghost use Rattle.std.specs.Prelude.{◌≡◌, [], Some, None, IsTrue, ◌↔◌, IsOkUnless, count_by, is_some, slice_set, OnOk, length};
ghost use Rattle.std.specs.Borrow.{sem};
ghost use Rattle.std.specs.Iterator.{YieldsFirstBy, item_count};
ghost use Rattle.walrus_base.specs.Id.{place};
ghost use Rattle.walrus_base.specs.Arena.{HasRoom, item_at, IsLive, items, entries, kept_by};
ghost use Rattle.walrus_items.specs.Errors.{out_of_memory};
ghost use Rattle.walrus_items.specs.Added.{IsAdded};

use crate::error::Result;
use crate::items::{Fresh, Item, ItemEntries, ItemIter, Items, Marked};
use crate::segments::DataKind;
use walrus_base::{DataId, DataKey};

/// A data segment of a module.
#[derive(Drop)]
pub struct Data {
    id: DataId,
    /// How the segment is used.
    pub kind: DataKind,
    /// Its bytes.
    pub value: Vec<u8>,
    /// The name that the name section gives it.
    pub name: Option<String>,
}

impl Data {
    ghost use Rattle.walrus_items.specs.Data.{data_value, is_passive_data};

    /// The id under which the segment was added.
    pub fn id(&self) -> DataId
        ensures { place result ≡ (data_value self.now).id }
    {
        self.id
    }

    /// Whether the segment is copied by operators alone.
    pub fn is_passive(&self) -> bool
        ensures { result ≡ is_passive_data (data_value self.now).kind }
    {
        matches!(self.kind, DataKind::Passive)
    }
}

impl Item for Data {
    ghost use Rattle.walrus_items.specs.Data.{DataValue, data_value};

    ghost Seen = { DataValue };

    ghost value = { data_value };
}

impl Marked for Data {}

impl Fresh for Data {}

/// The data segments of a module, by their ids. Deleted ids are never used again.
pub type ModuleData = Items<DataKey, Data>;

impl Items<DataKey, Data> {
    ghost use Rattle.walrus_items.specs.Data.{DataValue, data_value, data_segments};

    /// Adds a segment of this kind with these bytes, without a name. No memory's set changes. `Memory` is the only error; then
    /// nothing changes.
    pub fn add(&mut self, kind: DataKind, value: Vec<u8>) -> Result<DataId>
        ensures { IsAdded result (data_segments self.old) (data_segments self.new) (λ own. record {
          id = own;
          kind = kind;
          value = value.items;
          name = None;
        }) }
    {
        let id = self.arena.next_id();
        Ok(
            self.arena.alloc(Data {
                id,
                kind,
                value,
                name: None,
            })?,
        )
    }
}

/// The data segments of a module, by rising id.
pub type DataIter<'a> = ItemIter<'a, DataKey, Data>;

/// The data segments of a module with their ids, by rising id.
pub type DataEntries<'a> = ItemEntries<'a, DataKey, Data>;
