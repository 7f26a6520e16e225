//! Sets of ids that nothing was put into.
ghost use Rattle.std.specs.Prelude.{◌≡◌};
ghost use Rattle.walrus_base.specs.IdSet.{has_id};
ghost use Rattle.walrus_items.specs.Added.{no_segments};

use std::alloc::Global;
use walrus_base::IdHashSet;

// A set in which no segment is. Takes no memory.
pub(crate) fn no_ids<K>(alloc: Global) -> IdHashSet<K>
    ensures { has_id result ≡ no_segments }
{
    IdHashSet::new(alloc)
}
