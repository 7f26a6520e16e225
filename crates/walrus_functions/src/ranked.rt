//! Locals by the ranks of their types: the order of declarations where none of them is a reference.
ghost use Rattle.std.specs.Prelude.{◌≡◌, ◌≤◌, ◌++◌, ◌∷◌, [], map, All, IfOk};
ghost use Rattle.walrus_base.specs.Id.{place};
ghost use Rattle.walrus_base.specs.Value.{val_type};
ghost use Rattle.walrus_functions.specs.DeclaredLocals.{rank};
ghost use Rattle.walrus_functions.specs.Ranked.{by_ranks, of_rank};

use crate::declared::rank;
use std::alloc::{AllocError, Global};
use walrus_base::{LocalId, ValType};

// The higher one of a rank and that of a type.
fn higher(highest: u8, ty: ValType) -> u8
    ensures { (highest ≤ result) × (rank (val_type ty) ≤ result) }
{
    highest.max(rank(ty))
}

// The highest rank of these locals' types.
pub(crate) fn highest_rank(found: &[(usize, ValType)]) -> u8
    ensures { All (λ e. rank (val_type e.1) ≤ result) found.now }
{
    let mut highest = 0;
    'found: for (_, ty) in found {
        highest = higher(highest, *ty);
    }
    highest
}

// Takes a local whose type has this rank.
fn push_if_ranked(
    ids: &mut Vec<LocalId>,
    local: usize,
    ty: ValType,
    wanted: u8,
) -> Result<(), AllocError>
    ensures { IfOk result (λ _. map place ids.new.items
        ≡ map place ids.old.items ++ map (λ e. e.0) (of_rank wanted ((local, ty) ∷ []))) }
{
    if rank(ty) == wanted {
        ids.push(LocalId::at(local))?;
    }
    Ok(())
}

// Takes those of these locals whose types have this rank.
fn push_ranked(
    ids: &mut Vec<LocalId>,
    found: &[(usize, ValType)],
    wanted: u8,
) -> Result<(), AllocError>
    ensures { IfOk result (λ _. map place ids.new.items
        ≡ map place ids.old.items ++ map (λ e. e.0) (of_rank wanted found.now)) }
{
    'found: for (local, ty) in found {
        push_if_ranked(ids, *local, *ty, wanted)?;
    }
    Ok(())
}

// Those of these locals whose types have lower ranks than `count`, rank by rank.
pub(crate) fn by_ranks(
    alloc: Global,
    found: &[(usize, ValType)],
    count: u8,
) -> Result<Vec<LocalId>, AllocError>
    ensures { IfOk result (λ ids. map place ids.items ≡ map (λ e. e.0) (by_ranks count found.now)) }
{
    let mut ids = Vec::with_capacity(alloc, found.len())?;
    'ranks: for wanted in 0..count {
        push_ranked(&mut ids, found, wanted)?;
    }
    Ok(ids)
}
