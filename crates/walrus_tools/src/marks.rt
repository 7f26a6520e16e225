//! Marks that are set one after another, and whether one was.

ghost use Rattle.std.specs.Prelude.{◌≡◌, ◌<◌};
ghost use Rattle.walrus.specs.Base.Id.{place};
ghost use Rattle.walrus.specs.Base.Marks.{mark_places};
ghost use Rattle.walrus_tools.specs.MarkSteps.{Meets};

use walrus::{Id, Marks};

/// Marks of items, and whether one was met since that was last unset.
#[derive(Drop)]
pub(crate) struct Marking<K> {
    pub(crate) marks: Marks<K>,
    pub(crate) is_met: bool,
}

/// Marks an item, and one is met.
pub(crate) fn meet<K>(marking: &mut Marking<K>, id: Id<K>)
    requires { place id < mark_places marking.old.marks }
    ensures { Meets (λ p. p ≡ place id) marking.old marking.new }
{
    let _is_new = marking.marks.mark(id);
    marking.is_met = true;
}
