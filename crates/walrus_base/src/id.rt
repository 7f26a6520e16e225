//! The id of an item.
ghost use Rattle.std.specs.Prelude.{◌≡◌, ◌==◌};
ghost use Rattle.std.proofs.Common.{rules};
ghost use Rattle.std.specs.Cmp.{partial_order_from_own_ties};
ghost use Rattle.std.specs.Cmp.Rules.{comparing, hashing};
ghost use Rattle.std.specs.Hash as fed;
ghost use Rattle.std.specs.Ordering.{on, nat_cmp, as_partial_cmp};
ghost use Rattle.walrus_base.specs.Id.{place};

use std::cmp::Ordering;
use std::hash::{Hash, Hasher};
use std::marker::PhantomData;

/// The place of an item in the arena that made the id. `K` marks the kind of the item.
///
/// Ids are compared, ordered and hashed by their places.
// The place stands in two halves, so that an id is aligned to four bytes and leaves no gap behind a tag.
#[derive_where(Clone, Copy, Debug)]
pub struct Id<K> {
    high: u32,
    low: u32,
    #[derive_where(skip)]
    kind: PhantomData<K>,
}

impl<K> Id<K> {
    /// The id of the item at a place.
    #[tactic(auto, unfolding(crate::specs::Id::place))]
    pub fn at(index: usize) -> Id<K>
        ensures { place result ≡ index }
    {
        Id {
            high: (index / (1 << 32)) as u32,
            low: (index % (1 << 32)) as u32,
            kind: PhantomData,
        }
    }

    /// The place of the item in its arena, counted from 0.
    #[tactic(auto, unfolding(crate::specs::Id::place))]
    pub fn index(self) -> usize
        ensures { result ≡ place self }
    {
        self.high as usize * (1 << 32) + self.low as usize
    }
}

impl<K> PartialEq for Id<K> {
    ghost eq = { λ a b. place a == place b };

    ghost laws = { Prim.search (comparing, rules) };

    fn eq(&self, other: &Id<K>) -> bool {
        self.index() == other.index()
    }
}

impl<K> Eq for Id<K> {
    ghost laws = { Prim.search (comparing, rules) };
}

impl<K> Ord for Id<K> {
    ghost cmp = { on place nat_cmp };

    ghost total = { Prim.search (comparing, rules) };

    ghost matches_partial_cmp = { Prim.search (comparing, rules) };

    ghost matches_eq = { Prim.search (comparing, rules) };

    fn cmp(&self, other: &Id<K>) -> Ordering {
        self.index().cmp(&other.index())
    }
}

impl<K> PartialOrd for Id<K> {
    ghost partial_cmp = { as_partial_cmp (on place nat_cmp) };

    ghost laws = { partial_order_from_own_ties (Prim.search (comparing, rules))
        (Prim.search (comparing, rules)) };

    fn partial_cmp(&self, other: &Id<K>) -> Option<Ordering> {
        Some(self.cmp(other))
    }
}

impl<K> Hash for Id<K> {
    ghost hash_input = { λ id. fed.u64 (place id) };

    ghost respects_eq = { Prim.search (hashing, rules) };

    fn hash<H: Hasher>(&self, state: &mut H) {
        self.index().hash(state);
    }
}
