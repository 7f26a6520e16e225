//! The types of a module, one by one.
ghost use Rattle.std.specs.Iterator.{YieldsFirstBy, item_count};

use crate::types::Type;

/// The types of a module, by rising id.
#[derive(Drop)]
pub struct TypeIter<'a> {
    places: &'a [Option<Type>],
    // The first place that is still to be seen.
    place: usize,
}

impl<'a> TypeIter<'a> {
    ghost use Rattle.std.specs.Prelude.{◌≡◌, map};
    ghost use Rattle.walrus_base.specs.Arena.{entries};
    ghost use Rattle.walrus_base.specs.TypesLeft.{types_left, place_and_def};

    // The types at these places, which are those from 0 on.
    pub(crate) fn over(places: &'a [Option<Type>]) -> TypeIter<'a>
        ensures { types_left result ≡ map (λ entry. place_and_def entry.1) (entries places.now) }
    {
        TypeIter { places, place: 0 }
    }
}

impl<'a> Iterator for TypeIter<'a> {
    type Item = &'a Type;

    ghost use Rattle.walrus_base.specs.TypesLeft.{types_left, place_and_def};

    ghost next_gives = { YieldsFirstBy (λ item. place_and_def item.now) types_left };

    ghost remaining = { item_count types_left };

    fn next(&mut self) -> Option<&'a Type> {
        while let Some(slot) = self.places.get(self.place) {
            self.place += 1;
            if let Some(item) = slot {
                return Some(item);
            }
        }
        None
    }
}
