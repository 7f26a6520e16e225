//! The members of a group of types.
ghost use Rattle.std.specs.Prelude.{◌≡◌};
ghost use Rattle.std.specs.Iterator.{YieldsFirstBy, item_count};
ghost use Rattle.walrus_base.specs.Id.{place};

use crate::id::Id;
use crate::keys::TypeId;

/// The ids of the members of a group, in order (Structure > Types > Recursive Types).
#[derive(Drop)]
pub struct GroupIds {
    next: usize,
    end: usize,
}

impl GroupIds {
    ghost use Rattle.walrus_base.specs.TypesLeft.{ids_left};
    ghost use Rattle.walrus_base.specs.TypeDef.{places_between};

    // The ids of the places from the first on, up to the end.
    pub(crate) fn between(first: usize, end: usize) -> GroupIds
        ensures { ids_left result ≡ places_between first end }
    {
        GroupIds { next: first, end }
    }
}

impl Iterator for GroupIds {
    type Item = TypeId;

    ghost use Rattle.walrus_base.specs.TypesLeft.{ids_left};

    ghost next_gives = { YieldsFirstBy (λ id. place id) ids_left };

    ghost remaining = { item_count ids_left };

    fn next(&mut self) -> Option<TypeId> {
        if self.next >= self.end {
            return None;
        }
        let id = Id::at(self.next);
        self.next += 1;
        Some(id)
    }
}
