//! Items by their ids, in the order in which they came.
ghost use Rattle.std.specs.Prelude.{ℕ, ◌≡◌, ◌<◌, ◌++◌, ◌∷◌, [], length, map, All, Some, None, IfOk, IsTrue, IsSome, IsOk, OnOk, ◌↔◌, MatchResult, count_by, is_some, slice_set, if◌then◌else◌};
ghost use Rattle.std.specs.Borrow.{sem};
ghost use Rattle.std.specs.Iterator.{YieldsFirstBy, item_count};
ghost use Rattle.walrus_base.specs.Arena.{HasRoom, slots, item_at, IsLive, entries, entries_left, kept_by, live_places};
ghost use Rattle.walrus_base.specs.LendsSome.{LendsSome};
ghost use Rattle.walrus_base.specs.Id.{place};
ghost use Rattle.walrus_base.specs.Marks.{is_marked};

use crate::id::Id;
use crate::marks::Marks;
use std::alloc::{AllocError, Global};
use std::marker::PhantomData;

/// A list of places, each with an item or the mark that its item was deleted.
///
/// A place is never used again. So ids are given in rising order, and the id of a deleted item stays dead.
#[derive(Drop)]
pub struct TombstoneArena<K, T> {
    places: Vec<Option<T>>,
    kind: PhantomData<K>,
}

// The value of an option that has one, for writing.
fn some_mut<T>(slot: &mut Option<T>) -> &mut T
    requires { IsSome slot.old }
    ensures* writes_back { sem 𝓛 (LendsSome T.row slot.entry result) }
    ensures value { slot.old ≡ Some result.now }
{
    match slot {
        Some(item) => item,
        None => unreachable!(),
    }
}

/// Empties every place that isn't marked, and leaves the others as they are. Takes no memory.
pub fn keep_marked<K, T>(places: &mut Vec<Option<T>>, marks: &Marks<K>)
where
    T: Drop,
    ensures { places.new.items ≡ kept_by (is_marked marks.now) places.old.items }
{
    for place in 0..places.len() {
        empty_unless(marks.is_marked(Id::at(place)), places, place);
    }
}

// Empties a place, unless it is kept.
fn empty_unless<T>(is_kept: bool, places: &mut Vec<Option<T>>, place: usize)
where
    T: Drop,
    requires { place < length places.old.items }
    ensures { places.new.items
        ≡ (if is_kept then places.old.items else slice_set places.old.items place None) }
{
    if !is_kept {
        places[place] = None;
    }
}

/// The ids of the items that are at these places, by rising place. Takes memory once.
pub fn live_ids<K, T>(alloc: Global, places: &[Option<T>]) -> Result<Vec<Id<K>>, AllocError>
    ensures value { IfOk result (λ ids. map place ids.items ≡ live_places places.now) }
    ensures live { IfOk result (λ ids. All (λ id. IsLive places.now (place id)) ids.items) }
{
    let mut ids = Vec::with_capacity(alloc, places.len())?;
    for (id, _item) in ArenaIter::over(places) {
        ids.push(id)?;
    }
    Ok(ids)
}

impl<K, T> TombstoneArena<K, T> {
    ghost use Rattle.walrus_base.specs.Lends.{LendsItem};

    /// An arena with no place. It takes no memory until the first item comes.
    pub fn new(alloc: Global) -> TombstoneArena<K, T>
        ensures { slots result ≡ [] }
    {
        TombstoneArena {
            places: Vec::new(alloc),
            kind: PhantomData,
        }
    }

    /// Makes room for `additional` more items: so many can then be added without asking for memory.
    pub fn reserve(&mut self, additional: usize) -> Result<(), AllocError>
        ensures same { slots self.new ≡ slots self.old }
        ensures room { OnOk result (HasRoom self.new additional) }
    {
        self.places.reserve(additional)
    }

    /// The id that the next item gets.
    pub fn next_id(&self) -> Id<K>
        ensures { place result ≡ length (slots self.now) }
    {
        Id::at(self.places.len())
    }

    /// Adds an item at the next place. Where memory runs out, the item is dropped and nothing changes.
    pub fn alloc(&mut self, item: T) -> Result<Id<K>, AllocError>
    where
        T: Drop,
        ensures added { MatchResult result
            (λ id. (place id ≡ length (slots self.old))
            × (slots self.new ≡ slots self.old ++ Some item ∷ []))
            (λ _. slots self.new ≡ slots self.old) }
        ensures succeeds { HasRoom self.old 1 → IsOk result }
    {
        let id = self.next_id();
        self.places.push(Some(item))?;
        Ok(id)
    }

    /// Adds the item that `make` makes of its id. Where memory runs out, the item is dropped and nothing changes.
    pub fn alloc_with_id<F: FnOnce(Id<K>) -> T>(&mut self, make: F) -> Result<Id<K>, AllocError>
    where
        T: Drop,
        requires { (id : _) → place id ≡ length (slots self.old) → F.pre make id }
        ensures { MatchResult result
            (λ id. (place id ≡ length (slots self.old)) × ((item : T) × F.post make id item
            × (slots self.new ≡ slots self.old ++ Some item ∷ [])))
            (λ _. slots self.new ≡ slots self.old) }
    {
        let id = self.next_id();
        self.places.push(Some(make(id)))?;
        Ok(id)
    }

    /// The item of a live id.
    pub fn get(&self, id: Id<K>) -> &T
        requires { IsLive (slots self.now) (place id) }
        ensures { item_at (slots self.now) (place id) ≡ Some result.now }
    {
        match &self.places[id.index()] {
            Some(item) => item,
            None => unreachable!(),
        }
    }

    /// The item of a live id, for writing.
    pub fn get_mut(&mut self, id: Id<K>) -> &mut T
        requires { IsLive (slots self.old) (place id) }
        ensures* writes_back { sem 𝓛 (LendsItem K.row T.row self.entry (place id) result) }
        ensures value { item_at (slots self.old) (place id) ≡ Some result.now }
    {
        some_mut(&mut self.places[id.index()])
    }

    /// Whether the item of the id is there.
    pub fn contains(&self, id: Id<K>) -> bool
        ensures { IsTrue result ↔ IsLive (slots self.now) (place id) }
    {
        match self.places.get(id.index()) {
            Some(slot) => slot.is_some(),
            None => false,
        }
    }

    /// Takes the item of a live id out. Its place stays empty for good. Takes no memory.
    pub fn delete(&mut self, id: Id<K>) -> T
        requires { IsLive (slots self.old) (place id) }
        ensures item { item_at (slots self.old) (place id) ≡ Some result }
        ensures left { slots self.new ≡ slice_set (slots self.old) (place id) None }
    {
        match self.places[id.index()].take() {
            Some(item) => item,
            None => unreachable!(),
        }
    }

    /// Deletes every item that isn't marked. The others stay, and so do all places. Takes no memory.
    pub fn keep_only(&mut self, marks: &Marks<K>)
    where
        T: Drop,
        ensures kept { slots self.new ≡ kept_by (is_marked marks.now) (slots self.old) }
        ensures each { (p : ℕ) → item_at (slots self.new) p
            ≡ (if is_marked marks.now p then item_at (slots self.old) p else None) }
    {
        keep_marked(&mut self.places, marks);
    }

    /// How many items there are. Deleted ones aren't counted.
    pub fn len(&self) -> usize
        ensures { result ≡ count_by is_some (slots self.now) }
    {
        self.places.iter().filter(|slot| slot.is_some()).count()
    }

    /// Whether there is no item.
    pub fn is_empty(&self) -> bool
        ensures { IsTrue result ↔ (count_by is_some (slots self.now) ≡ 0) }
    {
        self.len() == 0
    }

    /// The items with their ids, by rising place.
    pub fn iter(&self) -> ArenaIter<'_, K, T>
        ensures { entries_left result ≡ entries (slots self.now) }
    {
        ArenaIter::over(self.places.as_slice())
    }

    /// The ids of the items, by rising place. Takes memory once.
    pub fn ids(&self, alloc: Global) -> Result<Vec<Id<K>>, AllocError>
        ensures value { IfOk result (λ ids. map place ids.items ≡ live_places (slots self.now)) }
        ensures live { IfOk result (λ ids. All (λ id. IsLive (slots self.now) (place id)) ids.items) }
    {
        live_ids(alloc, self.places.as_slice())
    }
}

/// The items of an arena with their ids, by rising place.
#[derive(Drop)]
pub struct ArenaIter<'a, K, T> {
    places: &'a [Option<T>],
    // The first place that is still to be seen.
    place: usize,
    kind: PhantomData<K>,
}

impl<'a, K, T> ArenaIter<'a, K, T> {
    // The items at these places.
    fn over(places: &'a [Option<T>]) -> ArenaIter<'a, K, T>
        ensures { entries_left result ≡ entries places.now }
    {
        ArenaIter {
            places,
            place: 0,
            kind: PhantomData,
        }
    }
}

impl<'a, K, T> Iterator for ArenaIter<'a, K, T> {
    type Item = (Id<K>, &'a T);

    ghost next_gives = { YieldsFirstBy (λ item. (place item.0, item.1.now)) entries_left };

    ghost remaining = { item_count entries_left };

    fn next(&mut self) -> Option<(Id<K>, &'a T)> {
        while let Some(slot) = self.places.get(self.place) {
            let place = self.place;
            self.place += 1;
            if let Some(item) = slot {
                return Some((Id::at(place), item));
            }
        }
        None
    }
}
