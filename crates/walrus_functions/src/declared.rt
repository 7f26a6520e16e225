//! The locals that a body declares when it is written, in their order (Binary Format > Modules > Code Section).
ghost use Rattle.std.specs.Prelude.{◌≡◌, ℕ, List, map, option_map, IfOk, MatchOption, nat_eq};
ghost use Rattle.std.specs.List.{IsDistinct, list_any};
ghost use Rattle.std.specs.List.Sorted.{IsStrictlySortedBy};
ghost use Rattle.std.specs.Ordering.{nat_cmp};
ghost use Rattle.walrus_base.specs.Arena.{item_at};
ghost use Rattle.walrus_base.specs.Id.{place};
ghost use Rattle.walrus_base.specs.Locals.{locals};
ghost use Rattle.walrus_base.specs.Operators.{locals_of};
ghost use Rattle.walrus_base.specs.Value.{val_type};
ghost use Rattle.walrus_code.specs.Code.{ops_of};
ghost use Rattle.walrus_functions.specs.DeclaredLocals.{rank, AreDeclared};
ghost use Rattle.walrus_functions.specs.Declaring.{HasPlaces, is_taken, AreOnce, AreTyped, same_local, typed, AreLowest, lowest_of, key_of, AreInOrder};
ghost use Rattle.walrus_functions.specs.EmittedBody.{types_of};

use crate::lowest::Lowest;
use crate::marks::{mark_named, marked_locals, named_window, no_marks};
use crate::ranked::{by_ranks, highest_rank};
use crate::taken::TakenPlaces;
use std::alloc::{AllocError, Global};
use walrus_base::{LocalId, ModuleLocals, ValType};
use walrus_code::{Operator, push_locals};

// The places of locals; none where one stands among them twice.
pub(crate) fn distinct_places(
    alloc: Global,
    ids: &[LocalId],
) -> Result<Option<TakenPlaces>, AllocError>
    ensures { IfOk result (λ found. MatchOption found (IsDistinct nat_eq (map place ids.now) → ⊥)
        (λ places. HasPlaces (map place ids.now) places)) }
{
    let mut places = TakenPlaces::new(alloc);
    for id in ids {
        if !places.take(id.index())? {
            return Ok(None);
        }
    }
    Ok(Some(places))
}

// The type of a local, if it is there.
pub(crate) fn type_at(module_locals: &ModuleLocals, id: LocalId) -> Option<ValType>
    ensures { option_map val_type result ≡ item_at (types_of (locals module_locals.now)) (place id) }
{
    if module_locals.contains(id) {
        Some(module_locals.get(id).ty())
    } else {
        None
    }
}

// The locals that operators name, in order.
fn named_locals(alloc: Global, operators: &[Operator]) -> Result<Vec<LocalId>, AllocError>
    ensures { IfOk result (λ named. map place named.items ≡ locals_of (ops_of operators.now)) }
{
    let mut named = Vec::new(alloc);
    for operator in operators {
        push_locals(&mut named, operator)?;
    }
    Ok(named)
}

// Takes each of these locals once, by rising place.
fn take_once(named: &mut Vec<LocalId>)
    ensures { AreOnce (map place named.old.items) (map place named.new.items) }
{
    named.sort_unstable();
    named.dedup();
}

// The locals that operators name, each once, by rising place.
pub(crate) fn named_once(alloc: Global, operators: &[Operator]) -> Result<Vec<LocalId>, AllocError>
    ensures { IfOk result (λ named. AreOnce (locals_of (ops_of operators.now)) (map place named.items)) }
{
    let (first, span) = named_window(operators);
    let mut marks = no_marks(alloc, span)?;
    if mark_named(&mut marks, first, operators) {
        return marked_locals(alloc, first, marks.as_slice());
    }
    let mut named = named_locals(alloc, operators)?;
    take_once(&mut named);
    Ok(named)
}

// Whether a local is among these, which stand by rising place.
fn is_among(named: &[LocalId], id: LocalId) -> bool
    requires { IsStrictlySortedBy nat_cmp (map place named.now) }
    ensures { result ≡ list_any (nat_eq (place id)) (map place named.now) }
{
    named.binary_search(&id).is_ok()
}

// Whether each of these locals is among the named ones, which stand by rising place.
pub(crate) fn which_named(
    alloc: Global,
    ids: &[LocalId],
    named: &[LocalId],
) -> Result<Vec<bool>, AllocError>
    requires { IsStrictlySortedBy nat_cmp (map place named.now) }
    ensures { IfOk result (λ used. used.items
        ≡ map (λ id. list_any (nat_eq (place id)) (map place named.now)) ids.now) }
{
    let mut used = Vec::with_capacity(alloc, ids.len())?;
    for id in ids {
        used.push(is_among(named, *id))?;
    }
    Ok(used)
}

// Those of these locals that are no parameters and that are there, by their places, with their types.
fn typed_locals(
    alloc: Global,
    named: &[LocalId],
    parameters: &TakenPlaces,
    module_locals: &ModuleLocals,
) -> Result<Vec<(usize, ValType)>, AllocError>
    requires distinct { IsDistinct nat_eq (map place named.now) }
    requires rising { IsStrictlySortedBy nat_cmp (map place named.now) }
    ensures typed { IfOk result (λ found. AreTyped (types_of (locals module_locals.now)) (map place named.now)
        (is_taken parameters.now) (map typed found.items)) }
    ensures distinct { IfOk result (λ found. IsDistinct same_local found.items) }
    ensures rising { IfOk result (λ found. IsStrictlySortedBy nat_cmp (map (λ e. e.0) found.items)) }
{
    let mut found = Vec::with_capacity(alloc, named.len())?;
    for id in named {
        if parameters.contains(id.index()) {
            continue;
        }
        if let Some(ty) = type_at(module_locals, *id) {
            found.push((id.index(), ty))?;
        }
    }
    Ok(found)
}

// For each type the lowest of these locals that has it.
fn lowest_locals(alloc: Global, found: &[(usize, ValType)]) -> Result<Lowest, AllocError>
    ensures { IfOk result (λ lowest. AreLowest found.now (lowest_of lowest)) }
{
    let mut lowest = Lowest::new(alloc);
    for (local, ty) in found {
        lowest.note(*local, *ty)?;
    }
    Ok(lowest)
}

// Where types go in the order of declarations: the number types and the vector type by their bytes, then references.
pub(crate) fn rank(ty: ValType) -> u8
    ensures { result ≡ rank (val_type ty) }
{
    match ty {
        ValType::I32 => 0,
        ValType::I64 => 1,
        ValType::F32 => 2,
        ValType::F64 => 3,
        ValType::V128 => 4,
        ValType::Ref(_) => 5,
    }
}

// What these locals are ordered by: the rank of the type, the lowest local of the type, and the local.
fn keys(
    alloc: Global,
    found: &[(usize, ValType)],
    lowest: &Lowest,
) -> Result<Vec<(u8, usize, usize)>, AllocError>
    ensures { IfOk result (λ keys. keys.items ≡ map (key_of (lowest_of lowest.now)) found.now) }
{
    let mut keys = Vec::with_capacity(alloc, found.len())?;
    for (local, ty) in found {
        let low = lowest.lowest(*ty).unwrap_or(*local);
        keys.push((rank(*ty), low, *local))?;
    }
    Ok(keys)
}

// The keys of these locals, in order.
fn in_order(
    alloc: Global,
    found: &[(usize, ValType)],
) -> Result<Vec<(u8, usize, usize)>, AllocError>
    requires { IsDistinct same_local found.now }
    ensures { IfOk result (λ keys. (order : AreInOrder found.now keys.items)
        × ((v w : _) → val_type v ≡ val_type w → order.lowest v ≡ order.lowest w)) }
{
    let lowest = lowest_locals(alloc, found)?;
    let mut keys = keys(alloc, found, &lowest)?;
    keys.sort_unstable();
    Ok(keys)
}

// The locals of keys.
fn ids_of(alloc: Global, keys: &[(u8, usize, usize)]) -> Result<Vec<LocalId>, AllocError>
    ensures { IfOk result (λ ids. map place ids.items ≡ map (λ key. key.2) keys.now) }
{
    let mut ids = Vec::with_capacity(alloc, keys.len())?;
    for (_, _, local) in keys {
        ids.push(LocalId::at(*local))?;
    }
    Ok(ids)
}

// Those of the named locals that are no parameters and that are there, in the order in which they are declared.
pub(crate) fn order_declared(
    alloc: Global,
    named: &[LocalId],
    parameters: &TakenPlaces,
    module_locals: &ModuleLocals,
) -> Result<Vec<LocalId>, AllocError>
    requires distinct { IsDistinct nat_eq (map place named.now) }
    requires rising { IsStrictlySortedBy nat_cmp (map place named.now) }
    ensures { IfOk result (λ ids. (used those : List ℕ) → AreOnce used (map place named.now)
        → ((p : ℕ) → is_taken parameters.now p ≡ list_any (nat_eq p) those)
        → AreDeclared (types_of (locals module_locals.now)) used those (map place ids.items)) }
{
    let found = typed_locals(alloc, named, parameters, module_locals)?;
    let held = found.as_slice();
    let highest = highest_rank(held);
    if highest < 5 {
        return by_ranks(alloc, held, highest + 1);
    }
    let keys = in_order(alloc, held)?;
    ids_of(alloc, keys.as_slice())
}
