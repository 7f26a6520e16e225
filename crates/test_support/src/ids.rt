//! Ids that aren't of any module.

use std::alloc::Global;
use walrus_base::{Id, TombstoneArena};

/// An id at the first place.
pub fn first_id<K>(alloc: Global) -> Id<K> {
    let arena: TombstoneArena<K, u8> = TombstoneArena::new(alloc);
    arena.next_id()
}

/// An id at the second place, where memory suffices.
pub fn second_id<K>(alloc: Global) -> Id<K> {
    let mut arena: TombstoneArena<K, u8> = TombstoneArena::new(alloc);
    let _first = arena.alloc(0);
    arena.next_id()
}
