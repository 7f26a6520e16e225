//! Marks of items by their ids.
ghost use Rattle.std.specs.Prelude.{◌≡◌, ◌<◌, ℕ, IfOk, false, not};
ghost use Rattle.std.specs.Iterator.{YieldsFirstBy, item_count};
ghost use Rattle.walrus_base.specs.Id.{place};
ghost use Rattle.walrus_base.specs.Marks.{Sets, is_marked, mark_places, marks_left, places_marked};

use crate::id::Id;
use std::alloc::{AllocError, Global};
use std::marker::PhantomData;

/// Marks of the items at so many places, made at once: a mark is set without asking for memory.
#[derive(Drop)]
pub struct Marks<K> {
    marks: Vec<bool>,
    kind: PhantomData<K>,
}

impl<K> Marks<K> {
    /// Marks for the items at this many places, from 0 on, none of which is set.
    pub fn new(alloc: Global, places: usize) -> Result<Marks<K>, AllocError>
        ensures places { IfOk result (λ marks. mark_places marks ≡ places) }
        ensures none { IfOk result (λ marks. (number : ℕ) → is_marked marks number ≡ false) }
    {
        Ok(Marks {
            marks: vec![in alloc; false; places]?,
            kind: PhantomData,
        })
    }

    /// Marks an item whose place there is a mark for, and answers whether it wasn't marked.
    pub fn mark(&mut self, id: Id<K>) -> bool
        requires { place id < mark_places self.old }
        ensures is_new { result ≡ not (is_marked self.old (place id)) }
        ensures sets { Sets self.old self.new (place id) }
    {
        let place = id.index();
        let is_new = !self.marks[place];
        self.marks[place] = true;
        is_new
    }

    /// Whether the item is marked.
    pub fn is_marked(&self, id: Id<K>) -> bool
        ensures { result ≡ is_marked self.now (place id) }
    {
        match self.marks.get(id.index()) {
            Some(mark) => *mark,
            None => false,
        }
    }

    /// How many places there are marks for.
    pub fn places(&self) -> usize
        ensures { result ≡ mark_places self.now }
    {
        self.marks.len()
    }

    /// The ids of the items that are marked, by rising place.
    pub fn iter(&self) -> MarksIter<'_, K>
        ensures { marks_left result ≡ places_marked self.now }
    {
        MarksIter {
            marks: self.marks.as_slice(),
            place: 0,
            kind: PhantomData,
        }
    }
}

/// The ids of the items that are marked, by rising place.
#[derive(Drop)]
pub struct MarksIter<'a, K> {
    marks: &'a [bool],
    // The first place that is still to be seen.
    place: usize,
    kind: PhantomData<K>,
}

impl<'a, K> Iterator for MarksIter<'a, K> {
    type Item = Id<K>;

    ghost next_gives = { YieldsFirstBy place marks_left };

    ghost remaining = { item_count marks_left };

    fn next(&mut self) -> Option<Id<K>> {
        while let Some(mark) = self.marks.get(self.place) {
            let place = self.place;
            self.place += 1;
            if *mark {
                return Some(Id::at(place));
            }
        }
        None
    }
}
