//! The places of bodies and of the operators in them, put in order ("Binary Format > Modules > Code Section").
ghost use Rattle.std.specs.Prelude.{◌≡◌, ◌+◌, ◌<◌, ◌≤◌, ◌++◌, All, IfOk, IsOkUnless, IsPermutation, OnOk, drop, flat_map, length, map, true, zip};
ghost use Rattle.std.specs.List.{AllZip};
ghost use Rattle.walrus_base.specs.Id.{place};
ghost use Rattle.walrus_code.specs.Location.{location};
ghost use Rattle.walrus_items.specs.Errors.{out_of_memory};
ghost use Rattle.walrus_items.specs.Transform.{location_of, range_of};
ghost use Rattle.walrus_writing.specs.Located.{AreSorted, LastPlaces, all_placed_from, by_ends, ends_of, first_if_last, is_first_last, lasts, placed_at, placed_from, placed_one, places_in};

use crate::offsets::LocatedBody;
use std::alloc::Global;
use std::ops::Range;
use walrus_base::FunctionId;
use walrus_code::InstrLocId;
use walrus_items::Result;

// Each function's id with where its body starts and ends, in the order of the bodies.
fn pair_ranges(
    alloc: Global,
    order: &[FunctionId],
    ranges: &[Range<usize>],
) -> Result<Vec<(FunctionId, (usize, usize))>>
    requires as_many { length order.now ≡ length ranges.now }
    ensures value { IfOk result (λ pairs. map (λ e. (place e.0, e.1)) pairs.items
        ≡ zip (map place order.now) (map ends_of ranges.now)) }
    ensures fails { IsOkUnless result out_of_memory }
{
    let mut pairs = Vec::with_capacity(alloc, order.len())?;
    let mut index: usize = 0;
    'order: for id in order {
        let range = &ranges[index];
        pairs.push((*id, (range.start, range.end)))?;
        index += 1;
    }
    Ok(pairs)
}

// The same as ranges.
fn ranges_of(
    alloc: Global,
    pairs: &[(FunctionId, (usize, usize))],
) -> Result<Vec<(FunctionId, Range<usize>)>>
    ensures value { IfOk result (λ ranges. map range_of ranges.items
        ≡ map (λ e. (place e.0, e.1)) pairs.now) }
    ensures fails { IsOkUnless result out_of_memory }
{
    let mut ranges = Vec::with_capacity(alloc, pairs.len())?;
    'pairs: for pair in pairs {
        ranges.push((pair.0, (pair.1).0..(pair.1).1))?;
    }
    Ok(ranges)
}

/// The functions of this order with the ranges of their bodies, by rising id.
pub fn function_ranges(
    alloc: Global,
    order: &[FunctionId],
    ranges: &[Range<usize>],
) -> Result<Vec<(FunctionId, Range<usize>)>>
    requires as_many { length order.now ≡ length ranges.now }
    ensures value { IfOk result (λ sorted. AreSorted by_ends
        (zip (map place order.now) (map ends_of ranges.now)) (map range_of sorted.items)) }
    ensures fails { IsOkUnless result out_of_memory }
{
    let mut pairs = pair_ranges(alloc, order, ranges)?;
    pairs.sort_unstable();
    ranges_of(alloc, pairs.as_slice())
}

// Puts a location with its place behind others, unless it is the default.
fn push_place(to: &mut Vec<(u32, usize)>, origin: InstrLocId, place: usize) -> Result<()>
    ensures value { OnOk result (to.new.items ≡ to.old.items ++ placed_one (location origin) place) }
    ensures fails { IsOkUnless result out_of_memory }
{
    if origin.is_default() {
        return Ok(());
    }
    to.push((origin.value(), place))?;
    Ok(())
}

// Puts the locations of a body that stands between these places behind others, each with its place.
fn push_places(
    to: &mut Vec<(u32, usize)>,
    start: usize,
    end: usize,
    places: &[(InstrLocId, usize)],
) -> Result<()>
    requires within { All (λ o. start + o.1 ≤ end) places.now }
    ensures value { OnOk result (to.new.items
        ≡ to.old.items ++ placed_from start (map location_of places.now)) }
    ensures fails { IsOkUnless result out_of_memory }
{
    'places: for offset in places {
        push_place(to, offset.0, start + offset.1)?;
    }
    Ok(())
}

// The functions of this order, each with its place in it.
fn numbered(alloc: Global, order: &[FunctionId]) -> Result<Vec<(FunctionId, usize)>>
    ensures value { IfOk result (λ turns. map (λ t. t.1) turns.items ≡ places_in 0 order.now) }
    ensures fails { IsOkUnless result out_of_memory }
{
    let mut turns = Vec::with_capacity(alloc, order.len())?;
    'order: for at in 0..order.len() {
        turns.push((order[at], at))?;
    }
    Ok(turns)
}

// The same by rising id.
fn by_rising_id(alloc: Global, order: &[FunctionId]) -> Result<Vec<(FunctionId, usize)>>
    ensures value { IfOk result (λ all. IsPermutation (places_in 0 order.now) (map (λ t. t.1) all.items)) }
    ensures fails { IsOkUnless result out_of_memory }
{
    let mut turns = numbered(alloc, order)?;
    turns.sort_unstable();
    Ok(turns)
}

// Puts the locations of the body at this place among these behind others.
fn push_body(
    to: &mut Vec<(u32, usize)>,
    ranges: &[Range<usize>],
    bodies: &[LocatedBody],
    at: usize,
) -> Result<()>
    requires there { at < length bodies.now }
    requires as_many { length bodies.now ≡ length ranges.now }
    requires within { AllZip (λ range body. All (λ o. range.start + o.1 ≤ range.end) body.places.items)
        ranges.now bodies.now }
    ensures value { OnOk result (to.new.items ≡ to.old.items ++ placed_at (map (λ r. r.start) ranges.now)
        (map (λ b. map location_of b.places.items) bodies.now) at) }
    ensures fails { IsOkUnless result out_of_memory }
{
    let range = &ranges[at];
    let body = &bodies[at];
    push_places(to, range.start, range.end, body.places.as_slice())
}

// The locations of all bodies, each with its place, body for body in the order of these turns.
fn placed_in_turn(
    alloc: Global,
    turns: &[(FunctionId, usize)],
    ranges: &[Range<usize>],
    bodies: &[LocatedBody],
) -> Result<Vec<(u32, usize)>>
    requires each { IsPermutation (places_in 0 bodies.now) (map (λ t. t.1) turns.now) }
    requires as_many { length bodies.now ≡ length ranges.now }
    requires within { AllZip (λ range body. All (λ o. range.start + o.1 ≤ range.end) body.places.items)
        ranges.now bodies.now }
    ensures value { IfOk result (λ found. found.items ≡ flat_map (placed_at (map (λ r. r.start) ranges.now)
        (map (λ b. map location_of b.places.items) bodies.now)) (map (λ t. t.1) turns.now)) }
    ensures fails { IsOkUnless result out_of_memory }
{
    let mut found = Vec::new(alloc);
    'turns: for turn in turns {
        push_body(&mut found, ranges, bodies, turn.1)?;
    }
    Ok(found)
}

/// The locations of the operators of the bodies of these functions, which have these ranges, each with its place. The bodies come by rising
/// id, since their locations rise so in a module as it was read: sorting them takes one look then.
pub fn all_places(
    alloc: Global,
    order: &[FunctionId],
    ranges: &[Range<usize>],
    bodies: &[LocatedBody],
) -> Result<Vec<(u32, usize)>>
    requires ordered { length order.now ≡ length bodies.now }
    requires as_many { length bodies.now ≡ length ranges.now }
    requires within { AllZip (λ range body. All (λ o. range.start + o.1 ≤ range.end) body.places.items)
        ranges.now bodies.now }
    ensures value { IfOk result (λ found. IsPermutation (all_placed_from (map (λ r. r.start) ranges.now)
        (map (λ b. map location_of b.places.items) bodies.now)) found.items) }
    ensures fails { IsOkUnless result out_of_memory }
{
    let turns = by_rising_id(alloc, order)?;
    placed_in_turn(alloc, turns.as_slice(), ranges, bodies)
}

// Whether the pair at this place is the last one of its location, in a sorted list.
fn is_last(sorted: &[(u32, usize)], index: usize) -> bool
    requires within { index < length sorted.now }
    ensures { result ≡ is_first_last (drop index sorted.now) }
{
    let next = index + 1;
    next == sorted.len() || sorted[index].0 != sorted[next].0
}

// Puts the pair at this place behind others, if it is the last one of its location.
fn push_last(to: &mut Vec<(InstrLocId, usize)>, sorted: &[(u32, usize)], index: usize) -> Result<()>
    requires within { index < length sorted.now }
    ensures value { OnOk result (map location_of to.new.items
        ≡ map location_of to.old.items ++ first_if_last (drop index sorted.now)) }
    ensures fails { IsOkUnless result out_of_memory }
{
    if !is_last(sorted, index) {
        return Ok(());
    }
    let last = &sorted[index];
    to.push((InstrLocId::new(last.0), last.1))?;
    Ok(())
}

// Of each location the last place, in a sorted list.
fn last_places(alloc: Global, sorted: &[(u32, usize)]) -> Result<Vec<(InstrLocId, usize)>>
    ensures value { IfOk result (λ last. map location_of last.items ≡ lasts sorted.now) }
    ensures fails { IsOkUnless result out_of_memory }
{
    let mut last = Vec::with_capacity(alloc, sorted.len())?;
    'sorted: for index in 0..sorted.len() {
        push_last(&mut last, sorted, index)?;
    }
    Ok(last)
}

/// Of each of these locations with places the last of its places, by rising location.
pub fn instruction_map(alloc: Global, placed: Vec<(u32, usize)>) -> Result<Vec<(InstrLocId, usize)>>
    ensures value { IfOk result (λ last. LastPlaces true placed.items (map location_of last.items)) }
    ensures fails { IsOkUnless result out_of_memory }
{
    let mut found = placed;
    found.sort_unstable();
    last_places(alloc, found.as_slice())
}
