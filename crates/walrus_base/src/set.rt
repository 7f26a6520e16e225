//! Sets of ids.
ghost use Rattle.std.specs.Prelude.{◌≡◌, ◌≢◌, ◌<◌, ℕ, IfOk, MatchResult, Some, true, false, not};
ghost use Rattle.std.specs.Iterator.{YieldsFirstBy, item_count};
ghost use Rattle.walrus_base.specs.IdSet.{has_id, has_place, ids_in, ids_left, Adds, HasAlone, Removes, SameIds};
ghost use Rattle.walrus_base.specs.Id.{place};

use crate::id::Id;
use std::alloc::{AllocError, Global};
use std::collections::{BTreeSet, btree_set};
use std::marker::PhantomData;

/// A set of ids. Its memory goes by how many ids are in, wherever their places are.
#[derive(Drop)]
pub struct IdHashSet<K> {
    // There from the first id on.
    places: Option<Box<BTreeSet<usize>>>,
    alloc: Global,
    kind: PhantomData<K>,
}

impl<K> IdHashSet<K> {
    /// A set with no id. It takes no memory until the first id comes.
    pub fn new(alloc: Global) -> IdHashSet<K>
        ensures { (number : ℕ) → has_id result number ≡ false }
    {
        IdHashSet {
            places: None,
            alloc,
            kind: PhantomData,
        }
    }

    /// Puts an id in, and answers whether it is new there. Where memory runs out, nothing changes.
    pub fn insert(&mut self, id: Id<K>) -> Result<bool, AllocError>
        ensures { MatchResult result
            (λ is_new. (is_new ≡ not (has_id self.old (place id))) × Adds self.old self.new (place id))
            (λ _. SameIds self.old self.new) }
    {
        if let Some(places) = &mut self.places {
            return match places.insert(id.index()) {
                Ok(is_new) => Ok(is_new),
                Err(_) => Err(AllocError),
            };
        }
        self.places = Some(one_place(self.alloc, id.index())?);
        Ok(true)
    }

    /// Whether the id is in.
    pub fn contains(&self, id: Id<K>) -> bool
        ensures { result ≡ has_id self.now (place id) }
    {
        match &self.places {
            Some(places) => places.contains(&id.index()),
            None => false,
        }
    }

    /// Takes an id out, and answers whether it was in. Takes no memory.
    pub fn remove(&mut self, id: Id<K>) -> bool
        ensures was_in { result ≡ has_id self.old (place id) }
        ensures removes { Removes self.old self.new (place id) }
    {
        match &mut self.places {
            Some(places) => places.remove(&id.index()),
            None => false,
        }
    }

    /// The ids that are in, by rising place.
    pub fn iter(&self) -> IdHashSetIter<'_, K>
        ensures { ids_left result ≡ ids_in self.now }
    {
        IdHashSetIter {
            rest: match &self.places {
                Some(places) => Some(places.iter()),
                None => None,
            },
            kind: PhantomData,
        }
    }
}

// A set with this place alone.
fn one_place(alloc: Global, place: usize) -> Result<Box<BTreeSet<usize>>, AllocError>
    ensures { IfOk result (λ places. HasAlone (has_place (Some places)) place) }
{
    let mut places = BTreeSet::new(alloc);
    match places.insert(place) {
        Ok(_) => Ok(Box::new(alloc, places)?),
        Err(_) => Err(AllocError),
    }
}

/// The ids of a set, by rising place.
#[derive(Drop)]
pub struct IdHashSetIter<'a, K> {
    rest: Option<btree_set::Iter<'a, usize>>,
    kind: PhantomData<K>,
}

impl<'a, K> Iterator for IdHashSetIter<'a, K> {
    type Item = Id<K>;

    ghost next_gives = { YieldsFirstBy place ids_left };

    ghost remaining = { item_count ids_left };

    fn next(&mut self) -> Option<Id<K>> {
        match self.rest.as_mut()?.next() {
            Some(place) => Some(Id::at(*place)),
            None => None,
        }
    }
}
