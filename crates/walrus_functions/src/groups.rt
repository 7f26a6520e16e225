//! The declarations of a body's locals (Binary Format > Modules > Code Section): one for each type.
ghost use Rattle.std.specs.Prelude.{◌≡◌, ◌≤◌, ◌<◌, ◌+◌, ◌-◌, ◌^◌, ◌∷◌, ℕ, Some, length, map, All, IfOk, IsSome, nat_eq};
ghost use Rattle.std.specs.List.{IsDistinct, range_with_len};
ghost use Rattle.walrus_base.specs.Arena.{item_at};
ghost use Rattle.walrus_base.specs.Id.{place};
ghost use Rattle.walrus_base.specs.Locals.{locals};
ghost use Rattle.walrus_base.specs.Shape.{place_in};
ghost use Rattle.walrus_base.specs.Value.{val_type};
ghost use Rattle.walrus_code.specs.Indices.{index_of, local_index};
ghost use Rattle.walrus_bodies.specs.Declarations.{declarations_of};
ghost use Rattle.walrus_functions.specs.Declaring.{group_of, AreRuns, Declares};
ghost use Rattle.walrus_functions.specs.EmittedBody.{types_of};
ghost use Rattle.walrus_functions.specs.Held.{held_at};
ghost use Rattle.walrus_functions.specs.Writing.{DeclaresLocals};

use crate::declared::type_at;
use std::alloc::{AllocError, Global};
use walrus_base::{LocalId, ModuleLocals, ValType};
use walrus_bodies::Declaration;
use walrus_code::{IdsToIndices, IrError, LocalNumbers, index_value};

// The type of a local that is there.
fn type_of(module_locals: &ModuleLocals, id: LocalId) -> ValType
    requires { IsSome (item_at (types_of (locals module_locals.now)) (place id)) }
    ensures { Some (val_type result) ≡ item_at (types_of (locals module_locals.now)) (place id) }
{
    let Some(ty) = type_at(module_locals, id) else {
        unreachable!()
    };
    ty
}

// The types of locals, each with how often it stands there before another one comes.
pub(crate) fn runs(
    alloc: Global,
    module_locals: &ModuleLocals,
    ids: &[LocalId],
) -> Result<Vec<(u32, ValType)>, AllocError>
    requires there { All (λ id. IsSome (item_at (types_of (locals module_locals.now)) (place id))) ids.now }
    requires few { length ids.now < 2 ^ 32 }
    ensures { IfOk result (λ groups. AreRuns
        (map (λ id. held_at (types_of (locals module_locals.now)) (place id)) ids.now)
        (map group_of groups.items)) }
{
    match ids {
        [] => Ok(Vec::new(alloc)),
        [first, rest @ ..] => runs_from(alloc, module_locals, *first, rest),
    }
}

// The same, with the first local apart.
fn runs_from(
    alloc: Global,
    module_locals: &ModuleLocals,
    first: LocalId,
    rest: &[LocalId],
) -> Result<Vec<(u32, ValType)>, AllocError>
    requires there { All (λ id. IsSome (item_at (types_of (locals module_locals.now)) (place id)))
        (first ∷ rest.now) }
    requires few { length rest.now < 2 ^ 32 - 1 }
    ensures { IfOk result (λ groups. AreRuns
        (map (λ id. held_at (types_of (locals module_locals.now)) (place id)) (first ∷ rest.now))
        (map group_of groups.items)) }
{
    let mut groups = Vec::new(alloc);
    let mut current = type_of(module_locals, first);
    let mut count = 1;
    for id in rest {
        let ty = type_of(module_locals, *id);
        if ty == current {
            count += 1;
        } else {
            groups.push((count, current))?;
            current = ty;
            count = 1;
        }
    }
    groups.push((count, current))?;
    Ok(groups)
}

// The types of the locals from one place up to another, each with how often it stands there before another one comes.
fn runs_between(
    alloc: Global,
    module_locals: &ModuleLocals,
    first: usize,
    end: usize,
) -> Result<Vec<(u32, ValType)>, AllocError>
    requires there { (x : ℕ) → first ≤ x → x < end
        → IsSome (item_at (types_of (locals module_locals.now)) x) }
    requires few { end < first + 2 ^ 32 }
    ensures { IfOk result (λ groups. AreRuns
        (map (held_at (types_of (locals module_locals.now))) (range_with_len first (end - first)))
        (map group_of groups.items)) }
{
    let mut groups = Vec::new(alloc);
    if first >= end {
        return Ok(groups);
    }
    let mut last = type_of(module_locals, LocalId::at(first));
    let mut times = 1;
    'places: for place in first + 1..end {
        let next = type_of(module_locals, LocalId::at(place));
        if next == last {
            times += 1;
        } else {
            groups.push((times, last))?;
            last = next;
            times = 1;
        }
    }
    groups.push((times, last))?;
    Ok(groups)
}

// The declarations of the locals from one place up to another.
pub(crate) fn declare_from(
    alloc: Global,
    module_locals: &ModuleLocals,
    first: usize,
    end: usize,
    indices: &IdsToIndices,
) -> Result<Vec<Declaration>, IrError>
    requires there { (x : ℕ) → first ≤ x → x < end
        → IsSome (item_at (types_of (locals module_locals.now)) x) }
    requires few { end < first + 2 ^ 32 }
    ensures { DeclaresLocals (index_of indices.now) (types_of (locals module_locals.now))
        (range_with_len first (end - first)) (λ ds. declarations_of ds.items) result }
{
    let groups = runs_between(alloc, module_locals, first, end)?;
    declarations(alloc, groups.as_slice(), indices)
}

// The declarations of groups.
pub(crate) fn declarations(
    alloc: Global,
    groups: &[(u32, ValType)],
    indices: &IdsToIndices,
) -> Result<Vec<Declaration>, IrError>
    ensures { Declares (index_of indices.now) (map group_of groups.now)
        (λ ds. declarations_of ds.items) result }
{
    let mut declarations = Vec::with_capacity(alloc, groups.len())?;
    for (count, ty) in groups {
        let value = index_value(*ty, indices)?;
        declarations.push(Declaration {
            count: *count,
            value,
        })?;
    }
    Ok(declarations)
}

// Gives locals their indices, one after another.
pub(crate) fn number_locals(alloc: Global, ids: &[LocalId]) -> Result<LocalNumbers, AllocError>
    requires distinct { IsDistinct nat_eq (map place ids.now) }
    requires room { length ids.now ≤ 2 ^ 32 }
    ensures { IfOk result (λ numbers. (x : ℕ) → local_index numbers x ≡ place_in (map place ids.now) x) }
{
    let mut numbers = LocalNumbers::around(alloc, ids)?;
    for id in ids {
        numbers.push(*id)?;
    }
    Ok(numbers)
}
