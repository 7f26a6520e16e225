//! Whether the locals of a body keep their indices when it is written (Binary Format > Modules > Code Section).
ghost use Rattle.std.specs.Prelude.{◌≡◌, ◌≤◌, ◌<◌, ◌+◌, ◌^◌, ℕ, Bool, List, false, length, slice_index_or, true, IfSome, IsTrue};
ghost use Rattle.walrus_base.specs.Id.{place};
ghost use Rattle.walrus_base.specs.Locals.{locals};
ghost use Rattle.walrus_functions.specs.EmittedBody.{types_of};
ghost use Rattle.walrus_functions.specs.Kept.{KeepsIndices, rank_at};

use crate::declared::{rank, type_at};
use walrus_base::{LocalId, ModuleLocals};

// The rank of a local's type, if the local is used, isn't of a reference type, and its rank isn't below `least`.
fn next_rank(module_locals: &ModuleLocals, id: LocalId, is_used: bool, least: u8) -> Option<u8>
    ensures used { IfSome result (λ rank. is_used ≡ true) }
    ensures ranked { IfSome result (λ r. (rank_at (types_of (locals module_locals.now)) (place id) ≡ r)
        × (least ≤ r) × (r < 5)) }
{
    if !is_used {
        return None;
    }
    let rank = rank(type_at(module_locals, id)?);
    if least <= rank && rank < 5 {
        Some(rank)
    } else {
        None
    }
}

// Whether each local behind the parameters is used, and is of a type that goes behind those before: so many locals lie from the place `first`
// on.
pub(crate) fn keeps_indices(
    module_locals: &ModuleLocals,
    used: &[bool],
    first: usize,
    params: usize,
    count: usize,
) -> bool
    requires many { length used.now ≡ count }
    requires room { first + count < 2 ^ 64 }
    ensures { IsTrue result → KeepsIndices (types_of (locals module_locals.now)) used.now first params count }
{
    if params > count {
        return false;
    }
    let mut least = 0;
    'locals: for index in params..count {
        let id = LocalId::at(first + index);
        let Some(rank) = next_rank(module_locals, id, used[index], least) else {
            return false;
        };
        least = rank;
    }
    true
}

// Whether each local behind the parameters is of a type that goes behind those before, as `keeps_indices` asks of locals that all are used.
pub(crate) fn are_ranked(
    module_locals: &ModuleLocals,
    first: usize,
    params: usize,
    count: usize,
) -> bool
    requires room { first + count < 2 ^ 64 }
    ensures within { IsTrue result → params ≤ count }
    ensures kept { IsTrue result → (flags : List Bool)
        → ((i : ℕ) → params ≤ i → i < count → slice_index_or flags i false ≡ true)
        → KeepsIndices (types_of (locals module_locals.now)) flags first params count }
{
    if params > count {
        return false;
    }
    let mut lowest = 0;
    'locals: for index in params..count {
        let id = LocalId::at(first + index);
        let Some(rank) = next_rank(module_locals, id, true, lowest) else {
            return false;
        };
        lowest = rank;
    }
    true
}
