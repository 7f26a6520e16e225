//! The indices of a function's locals (Structure > Modules > Indices).
ghost use Rattle.std.specs.Prelude.{◌≡◌, ◌≤◌, ◌^◌, ◌<◌, ◌*◌, ◌+◌, ℕ, IfOk, MatchResult, None, length};
ghost use Rattle.walrus_base.specs.Id.{place};
ghost use Rattle.walrus_code.specs.Indices.{is_in_window, local_index, locals_given, NumbersLocal, SameLocals};

use std::alloc::{AllocError, Global};
use std::collections::HashMap;
use walrus_base::LocalId;

/// The indices that the locals of one function get in the output, by their ids.
///
/// It holds the locals that are given an index and places between them, so that a small function costs little in a module with
/// many locals.
#[derive(Drop)]
pub struct LocalNumbers {
    // The place at which the window begins.
    first: usize,
    // By the places from there on.
    window: Vec<Option<u32>>,
    // By the places of locals beside the window.
    outside: HashMap<usize, u32>,
    // How many are given.
    count: usize,
}

// The first place of these locals, and how many places lie from there to the last one; no place where they lie far apart.
fn window_of(ids: &[LocalId]) -> (usize, usize)
    ensures few { result.1 ≤ 8 * length ids.now + 7 }
{
    let mut first = usize::MAX;
    let mut past = 0;
    for id in ids {
        first = first.min(id.index());
        past = past.max(id.index().saturating_add(1));
    }
    let span = past.saturating_sub(first);
    if span / 8 <= ids.len() {
        (first, span)
    } else {
        (first, 0)
    }
}

impl LocalNumbers {
    /// No index is given yet. Takes no memory until the first one is.
    pub fn new(alloc: Global) -> LocalNumbers
        ensures given { locals_given result ≡ 0 }
        ensures indices { (number : ℕ) → local_index result number ≡ None }
    {
        LocalNumbers {
            first: 0,
            window: Vec::new(alloc),
            outside: HashMap::new(alloc),
            count: 0,
        }
    }

    /// No index is given yet. Where these locals lie close together, they will be found fastest, in memory by their count.
    pub fn around(alloc: Global, ids: &[LocalId]) -> Result<LocalNumbers, AllocError>
        ensures given { IfOk result (λ numbers. locals_given numbers ≡ 0) }
        ensures indices { IfOk result (λ numbers. (number : ℕ) → local_index numbers number ≡ None) }
    {
        let (first, span) = window_of(ids);
        let mut window = Vec::new(alloc);
        window.resize(span, None)?;
        Ok(LocalNumbers {
            first,
            window,
            outside: HashMap::new(alloc),
            count: 0,
        })
    }

    /// Gives the local, which has no index yet, the next one. Where memory runs out, nothing changes.
    pub fn push(&mut self, id: LocalId) -> Result<(), AllocError>
        requires is_new { local_index self.old (place id) ≡ None }
        requires room { locals_given self.old < 2 ^ 32 }
        ensures { MatchResult result
            (λ _. NumbersLocal self.old self.new (place id))
            (λ _. SameLocals self.old self.new) }
    {
        let place = id.index();
        let index = self.count as u32;
        if self.has(place) {
            self.window[place - self.first] = Some(index);
        } else {
            self.outside.insert(place, index)?;
        }
        self.count += 1;
        Ok(())
    }

    // Whether the window has this place.
    fn has(&self, place: usize) -> bool
        ensures { result ≡ is_in_window self.now place }
    {
        place >= self.first && place - self.first < self.window.len()
    }

    /// The index of the local, if it is given one.
    pub fn get(&self, id: LocalId) -> Option<u32>
        ensures { result ≡ local_index self.now (place id) }
    {
        let number = id.index();
        if self.has(number) {
            self.window[number - self.first]
        } else {
            self.outside.get(&number).copied()
        }
    }

    /// How many indices are given.
    pub fn len(&self) -> usize
        ensures { result ≡ locals_given self.now }
    {
        self.count
    }
}
