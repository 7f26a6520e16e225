//! Where operators went, by where they stood.
ghost use Rattle.std.specs.Prelude.{◌≡◌, ℕ, IfOk, IsOkUnless, OnOk, Some, if◌then◌else◌, map, nat_eq};
ghost use Rattle.std.specs.HashMap.{get};
ghost use Rattle.walrus_code.specs.Location.{location};
ghost use Rattle.walrus_items.specs.Errors.{out_of_memory};
ghost use Rattle.walrus_items.specs.Transform.{location_of};
ghost use Rattle.walrus.specs.Places.{fitting, last_place};

use std::alloc::Global;
use std::collections::HashMap;
use walrus_ir::InstrLocId;
use walrus_items::Result;

// Takes the new place of this move for its old one.
fn note_move(places: &mut HashMap<u32, usize>, entry: &(InstrLocId, usize)) -> Result<()>
    ensures value { OnOk result ((old : ℕ) → get nat_eq places.new old
        ≡ (if nat_eq (location entry.now.0) old then Some entry.now.1 else get nat_eq places.old old)) }
    ensures fails { IsOkUnless result out_of_memory }
{
    places.insert(entry.0.value(), entry.1)?;
    Ok(())
}

// The last new place of each old one.
pub(crate) fn moves_by_place(
    alloc: Global,
    moves: &[(InstrLocId, usize)],
) -> Result<HashMap<u32, usize>>
    ensures value { IfOk result (λ places. (old : ℕ) → get nat_eq places old
        ≡ last_place (map location_of moves.now) old) }
    ensures fails { IsOkUnless result out_of_memory }
{
    let mut places = HashMap::new(alloc);
    'moves: for entry in moves {
        note_move(&mut places, entry)?;
    }
    Ok(places)
}

// The place, if it has 32 bits.
pub(crate) fn fitting(place: usize) -> Option<u32>
    ensures { result ≡ fitting place }
{
    if place <= u32::MAX as usize {
        Some(place as u32)
    } else {
        None
    }
}
