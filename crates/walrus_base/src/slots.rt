//! The places in which the types of a module are kept.
ghost use Rattle.std.specs.Prelude.{◌≡◌, ◌∷◌, ℕ, Some, IfOk, MatchOption, OnOk, IsTrue, slice_set, count_by, is_some, None, []};
ghost use Rattle.walrus_base.specs.Arena.{item_at, IsLive};
ghost use Rattle.walrus_base.specs.Id.{place};
ghost use Rattle.walrus_base.specs.TypeDef.{places_between, type_def, type_place, name_bytes};
ghost use Rattle.walrus_base.specs.TypeSlots.{defs, names, new_group, no_names, cleared};
ghost use Rattle.walrus_base.specs.OwnIds.{under_own_ids};
ghost use Rattle.walrus_base.specs.Alone.{alone, NamesNot, NotesOnly};
ghost use Rattle.walrus_base.specs.Composite.{function_type};
ghost use Rattle.walrus_base.specs.Function.{AsAlone};
ghost use Rattle.walrus_base.specs.Index.{places_at};
ghost use Rattle.walrus_base.specs.PlaceList.{has, MayEndIn};

use crate::composite::{FunctionType, NewType};
use crate::id::Id;
use crate::index::FunctionIndex;
use crate::keys::TypeId;
use crate::names::names_type;
use crate::types::Type;
use std::alloc::{AllocError, Global};

// The types of a group of these members, whose places begin at the first.
pub(crate) fn placed(
    alloc: Global,
    first: usize,
    members: Vec<NewType>,
) -> Result<Vec<Option<Type>>, AllocError>
    ensures group { IfOk result (λ added. defs added.items ≡ new_group first members.items) }
    ensures unnamed { IfOk result (λ added. names added.items ≡ no_names members.items) }
    ensures own { IfOk result (λ added. IsTrue (under_own_ids first added.items)) }
{
    let Some(end) = first.checked_add(members.len()) else {
        return Err(AllocError);
    };
    let mut added = Vec::with_capacity(alloc, members.len())?;
    for member in members {
        let Some(place) = first.checked_add(added.len()) else {
            return Err(AllocError);
        };
        added.push(Some(Type::new(Id::at(place), first, end, member)))?;
    }
    Ok(added)
}

// Empties the places from the first on, up to the end.
pub(crate) fn clear(places: &mut Vec<Option<Type>>, first: usize, end: usize)
    ensures { places.new.items ≡ cleared (places_between first end) places.old.items }
{
    for place in first..end {
        clear_place(places, place);
    }
}

// Empties a place, if there is one.
fn clear_place<T>(places: &mut Vec<Option<T>>, place: usize)
where
    T: Drop,
    ensures { places.new.items ≡ slice_set places.old.items place None }
{
    if place < places.len() {
        places[place] = None;
    }
}

// How many places have an item.
pub(crate) fn count_items<T>(places: &[Option<T>]) -> usize
    ensures { result ≡ count_by is_some places.now }
{
    places.iter().filter(|slot| slot.is_some()).count()
}

// Gives the type at a place this name.
pub(crate) fn rename(places: &mut Vec<Option<Type>>, place: usize, name: Option<String>)
    requires { IsLive places.old.items place }
    ensures defs { defs places.new.items ≡ defs places.old.items }
    ensures names { names places.new.items ≡ slice_set (names places.old.items) place
        (Some (name_bytes name)) }
    ensures own { (start : ℕ) → under_own_ids start places.new.items ≡ under_own_ids start places.old.items }
{
    if let Some(mut ty) = places[place].take() {
        ty.name = name;
        places[place] = Some(ty);
    }
}

// Puts the type at a place into the index, if there is one that is the only one of its group and a final type of functions
// without supertype that doesn't name itself.
pub(crate) fn note_alone(index: &mut FunctionIndex, slot: &Option<Type>) -> Result<(), AllocError>
    ensures stays { NotesOnly slot.now index.old index.new }
    ensures noted { OnOk result ((ty : _) (f : _) → slot.now ≡ Some ty
        → type_def ty ≡ alone (type_place ty) (function_type f) → NamesNot (function_type f) (type_place ty)
        → IsTrue (has (places_at index.new f) (type_place ty))) }
{
    match slot {
        Some(ty) => match ty.alone_function() {
            Some(function) => note_apart(index, function, ty.id()),
            None => Ok(()),
        },
        None => Ok(()),
    }
}

// Puts the id under the type of functions, unless that names it.
fn note_apart(
    index: &mut FunctionIndex,
    function: &FunctionType,
    id: TypeId,
) -> Result<(), AllocError>
    ensures stays { (q : _) → MayEndIn (NamesNot (function_type q) (place id))
        (places_at index.old q) (place id) (places_at index.new q) }
    ensures noted { OnOk result ((q : _) → function_type q ≡ function_type function.now
        → NamesNot (function_type q) (place id) → IsTrue (has (places_at index.new q) (place id))) }
{
    if names_type(function, id) {
        return Ok(());
    }
    index.note(function, id)
}
