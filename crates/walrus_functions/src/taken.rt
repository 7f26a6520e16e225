//! Places of parameters.
ghost use Rattle.std.specs.Prelude.{◌≡◌, ◌+◌, ◌||◌, ◌<◌, ◌^◌, ℕ, false, nat_eq, not, IfOk, IsTrue};
ghost use Rattle.std.specs.HashSet as set;
ghost use Rattle.walrus_functions.specs.Declaring.{is_in_range, is_taken};

use std::alloc::{AllocError, Global};
use std::collections::HashSet;

// Places that are taken: a range of them, and others. Parameters mostly follow one another: then they are in the range, which takes no
// memory, and in which a place is found without a hash.
#[derive(Drop)]
pub(crate) struct TakenPlaces {
    // The place at which the range begins.
    first: usize,
    // How many places it has.
    count: usize,
    // The places that were taken out of turn.
    others: HashSet<usize>,
}

impl TakenPlaces {
    // No place is taken. Takes no memory until one is taken out of turn.
    pub(crate) fn new(alloc: Global) -> TakenPlaces
        ensures { (x : ℕ) → is_taken result x ≡ false }
    {
        TakenPlaces {
            first: 0,
            count: 0,
            others: HashSet::new(alloc),
        }
    }

    // Whether the range has this place.
    fn has(&self, place: usize) -> bool
        ensures { result ≡ is_in_range self.now place }
    {
        place >= self.first && place - self.first < self.count
    }

    // Whether this place goes to the end of the range.
    fn is_next(&self, place: usize) -> bool
        ensures next { IsTrue result → place ≡ self.now.first + self.now.count }
        ensures room { IsTrue result → self.now.count + 1 < 2 ^ 64 }
    {
        place >= self.first && place - self.first == self.count && self.count < usize::MAX
    }

    // Whether a place was taken out of turn. Where none was, as mostly, no hash is made.
    fn has_other(&self, place: usize) -> bool
        ensures { result ≡ set.contains nat_eq self.now.others place }
    {
        if self.others.is_empty() {
            return false;
        }
        self.others.contains(&place)
    }

    // Whether a place is taken.
    pub(crate) fn contains(&self, place: usize) -> bool
        ensures { result ≡ is_taken self.now place }
    {
        self.has(place) || self.has_other(place)
    }

    // Takes a place, and tells whether it wasn't taken before.
    pub(crate) fn take(&mut self, place: usize) -> Result<bool, AllocError>
        ensures added { IfOk result (λ is_new. is_new ≡ not (is_taken self.old place)) }
        ensures taken { IfOk result (λ _. (x : ℕ) → is_taken self.new x
            ≡ (is_taken self.old x || nat_eq x place)) }
    {
        if self.contains(place) {
            return Ok(false);
        }
        if self.count == 0 {
            self.first = place;
            self.count = 1;
        } else if self.is_next(place) {
            self.count += 1;
        } else {
            self.others.insert(place)?;
        }
        Ok(true)
    }
}
