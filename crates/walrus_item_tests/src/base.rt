//! Arenas, marks and sets of ids.

use std::alloc::Global;
use std::test::Fail;
use test_support::{demand, first_id};
use walrus_base::{FunctionId, FunctionKey, Id, IdHashSet, Marks, TombstoneArena};

type Numbers = TombstoneArena<FunctionKey, usize>;

// Adds two numbers, deletes the first and changes the second.
fn change(arena: &mut Numbers) -> bool {
    let (Ok(first), Ok(second)) = (arena.alloc(10), arena.alloc_with_id(|_| 20)) else {
        return false;
    };
    let deleted = arena.delete(first);
    *arena.get_mut(second) = 21;
    deleted == 10 && first < second && arena.contains(second) && *arena.get(second) == 21
}

// Adds a number, which is marked, and keeps it alone.
fn keep_third(alloc: Global, arena: &mut Numbers) -> Result<(), Fail> {
    let third = arena.next_id();
    demand(arena.alloc(30)? == third, "the next id")?;
    let mut marks = Marks::new(alloc, 3)?;
    demand(
        third.index() < marks.places() && marks.mark(third),
        "a new mark",
    )?;
    demand(marks.is_marked(third), "a mark")?;
    demand(marks.iter().next() == Some(third), "the first mark")?;
    arena.keep_only(&marks);
    demand(arena.len() == 1, "what is marked")
}

#[test]
fn an_arena_keeps_its_places(rt: HostRuntime) -> Result<(), Fail> {
    let mut arena = TombstoneArena::new(rt.alloc());
    demand(arena.is_empty(), "nothing at first")?;
    arena.reserve(3)?;
    demand(change(&mut arena), "the second of two numbers is changed")?;
    demand(arena.iter().take(2).count() == 1, "one of two numbers")?;
    keep_third(rt.alloc(), &mut arena)
}

#[test]
fn a_set_knows_its_ids(rt: HostRuntime) -> Result<(), Fail> {
    let mut set: IdHashSet<FunctionKey> = IdHashSet::new(rt.alloc());
    let id: FunctionId = first_id(rt.alloc());
    demand(set.insert(id)?, "a new id")?;
    demand(set.contains(id), "an id")?;
    demand(set.remove(id), "an id that was there")
}

// Whether each of many sets takes the id of a place far out: with a byte a place they would need a terabyte.
fn are_small_sets(alloc: Global) -> bool {
    let mut sets: Vec<IdHashSet<FunctionKey>> = Vec::new(alloc);
    for _turn in 0..100_000 {
        let mut set = IdHashSet::new(alloc);
        if !matches!(set.insert(Id::at(10_000_000)), Ok(true)) || sets.push(set).is_err() {
            return false;
        }
    }
    sets.len() == 100_000
}

#[test]
fn a_set_takes_memory_by_what_is_in_it(rt: HostRuntime) -> Result<(), Fail> {
    demand(are_small_sets(rt.alloc()), "many sets")
}
