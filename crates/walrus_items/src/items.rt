//! One collection for all kinds of items.
ghost use Rattle.std.specs.Prelude.{◌≡◌, ◌↔◌, [], None, Some, IsTrue, IsOkUnless, IfOk, OnOk, All, count_by, is_some, length, map, slice_set};
ghost use Rattle.std.specs.Borrow.{sem};
ghost use Rattle.std.specs.Iterator.{YieldsFirstBy, item_count};
ghost use Rattle.walrus_base.specs.Arena.{HasRoom, IsLive, entries, item_at, items, kept_by, live_places};
ghost use Rattle.walrus_base.specs.Id.{place};
ghost use Rattle.walrus_base.specs.Marks.{is_marked};
ghost use Rattle.walrus_items.specs.Errors.{out_of_memory};
ghost use Rattle.walrus_items.specs.Held.{held, held_left, held_entries_left};

use crate::error::Result;
use std::alloc::Global;
use walrus_base::{ArenaIter, Id, Marks, TombstoneArena};

/// What a collection holds. Contracts see of an item its `value`, a `Seen`.
pub trait Item {
    ghost Seen: { Type 0 };

    ghost value: { Self → Seen };
}

/// A kind of items of which a pass marks those that stay.
pub trait Marked: Item {}

/// A kind of items whose collection begins without a refusal.
pub trait Fresh: Item {}

/// The items of one kind, by their ids. Deleted ids are never used again.
#[derive(Drop)]
pub struct Items<K, T> {
    pub(crate) arena: TombstoneArena<K, T>,
    pub(crate) alloc: Global,
}

impl<K, T: Item> Items<K, T> {
    ghost use Rattle.walrus_items.specs.LendsItem.{LendsItem};

    /// Makes room for `additional` more items, but for what they own. `Memory` is the only error.
    pub fn reserve(&mut self, additional: usize) -> Result<()>
        ensures same { held T.value self.new ≡ held T.value self.old }
        ensures room { OnOk result (HasRoom self.new.arena additional) }
        ensures fails { IsOkUnless result out_of_memory }
    {
        self.arena.reserve(additional)?;
        Ok(())
    }

    /// The id that the next item gets.
    pub fn next_id(&self) -> Id<K>
        ensures { place result ≡ length (held T.value self.now) }
    {
        self.arena.next_id()
    }

    /// The item of a live id.
    pub fn get(&self, id: Id<K>) -> &T
        requires { IsLive (held T.value self.now) (place id) }
        ensures { item_at (held T.value self.now) (place id) ≡ Some (T.value result.now) }
    {
        self.arena.get(id)
    }

    /// The item of a live id, for writing.
    pub fn get_mut(&mut self, id: Id<K>) -> &mut T
        requires { IsLive (held T.value self.old) (place id) }
        ensures* writes_back { sem 𝓛 (LendsItem K.row T.row self.entry (place id) result) }
        ensures value { item_at (held T.value self.old) (place id) ≡ Some (T.value result.now) }
    {
        self.arena.get_mut(id)
    }

    /// Whether the item of the id is there.
    pub fn contains(&self, id: Id<K>) -> bool
        ensures { IsTrue result ↔ IsLive (held T.value self.now) (place id) }
    {
        self.arena.contains(id)
    }

    /// Takes the item of a live id away.
    pub fn delete(&mut self, id: Id<K>)
    where
        T: Drop,
        requires { IsLive (held T.value self.old) (place id) }
        ensures { held T.value self.new ≡ slice_set (held T.value self.old) (place id) None }
    {
        let _ = self.arena.delete(id);
    }

    /// How many items there are.
    pub fn len(&self) -> usize
        ensures { result ≡ count_by is_some (held T.value self.now) }
    {
        self.arena.len()
    }

    /// Whether there is no item.
    pub fn is_empty(&self) -> bool
        ensures { IsTrue result ↔ (count_by is_some (held T.value self.now) ≡ 0) }
    {
        self.len() == 0
    }

    /// The items, by rising id.
    pub fn iter(&self) -> ItemIter<'_, K, T>
        ensures { held_left T.value result ≡ items (held T.value self.now) }
    {
        ItemIter {
            rest: self.arena.iter(),
        }
    }

    /// The items with their ids, by rising id.
    pub fn iter_entries(&self) -> ItemEntries<'_, K, T>
        ensures { held_entries_left T.value result ≡ entries (held T.value self.now) }
    {
        ItemEntries {
            rest: self.arena.iter(),
        }
    }

    /// The ids of the items, by rising place. Takes memory once; `Memory` is the only error.
    pub fn ids(&self, alloc: Global) -> Result<Vec<Id<K>>>
        ensures value { IfOk result (λ ids. map place ids.items ≡ live_places (held T.value self.now)) }
        ensures live { IfOk result (λ ids. All (λ id. IsLive (held T.value self.now) (place id)) ids.items) }
        ensures fails { IsOkUnless result out_of_memory }
    {
        Ok(self.arena.ids(alloc)?)
    }
}

impl<K, T: Fresh> Items<K, T> {
    /// No items. Takes no memory until the first one comes.
    pub fn new(alloc: Global) -> Items<K, T>
        ensures { held T.value result ≡ [] }
    {
        Items {
            arena: TombstoneArena::new(alloc),
            alloc,
        }
    }
}

impl<K, T: Marked> Items<K, T> {
    /// Deletes every item that isn't marked. The others stay, and so do all places. Takes no memory.
    pub fn keep_only(&mut self, marks: &Marks<K>)
    where
        T: Drop,
        ensures { held T.value self.new ≡ kept_by (is_marked marks.now) (held T.value self.old) }
    {
        self.arena.keep_only(marks);
    }
}

/// The items of a collection, by rising id.
#[derive(Drop)]
pub struct ItemIter<'a, K, T> {
    rest: ArenaIter<'a, K, T>,
}

impl<'a, K, T: Item> Iterator for ItemIter<'a, K, T> {
    type Item = &'a T;

    ghost next_gives = { YieldsFirstBy (λ x. T.value x.now) (held_left T.value) };

    ghost remaining = { item_count (held_left T.value) };

    fn next(&mut self) -> Option<&'a T> {
        match self.rest.next() {
            Some((_, item)) => Some(item),
            None => None,
        }
    }
}

/// The items of a collection with their ids, by rising id.
#[derive(Drop)]
pub struct ItemEntries<'a, K, T> {
    rest: ArenaIter<'a, K, T>,
}

impl<'a, K, T: Item> Iterator for ItemEntries<'a, K, T> {
    type Item = (Id<K>, &'a T);

    ghost next_gives = { YieldsFirstBy (λ e. (place e.0, T.value e.1.now)) (held_entries_left T.value) };

    ghost remaining = { item_count (held_entries_left T.value) };

    fn next(&mut self) -> Option<(Id<K>, &'a T)> {
        self.rest.next()
    }
}
