//! The function section of a module that is written.
ghost use Rattle.std.specs.Prelude.{◌≡◌, map, All, Some, IsSome, IfOk, IsOkUnless, option_and_then};
ghost use Rattle.walrus_base.specs.Arena.{items};
ghost use Rattle.walrus_base.specs.Id.{place};
ghost use Rattle.walrus_code.specs.Indices.{index_of};
ghost use Rattle.walrus_items.specs.Functions.{functions};
ghost use Rattle.walrus_contents.specs.View.{parts_view};
ghost use Rattle.walrus_items.specs.Errors.{out_of_memory};
ghost use Rattle.walrus_writing.specs.Parts.{index_at, type_index};

use crate::bodies::local_of;
use std::alloc::Global;
use walrus_base::FunctionId;
use walrus_code::IdsToIndices;
use walrus_contents::Parts;
use walrus_items::{ModuleFunctions, Result};

// The index of a function's type, if the function has a body.
fn index_of_type(funcs: &ModuleFunctions, id: FunctionId, indices: &IdsToIndices) -> Option<u32>
    ensures { result ≡ index_at (functions funcs.now) (index_of indices.now) (place id) }
{
    let local = local_of(funcs, id)?;
    indices.get_type_index(local.ty())
}

fn raw_function(parts: Parts<'_>, id: FunctionId, indices: &IdsToIndices) -> Option<u32>
    ensures { result ≡ option_and_then (type_index (index_of indices.now))
        ((parts_view parts.entry).functions (place id)) }
{
    index_of_type(parts.funcs, id, indices)
}

// The index of each function's type, in the order of the functions.
pub fn raw_functions(
    alloc: Global,
    parts: Parts<'_>,
    order: &[FunctionId],
    indices: &IdsToIndices,
) -> Result<Vec<u32>>
    requires indexed { All (λ id. IsSome (option_and_then (type_index (index_of indices.now))
        ((parts_view parts).functions (place id)))) order.now }
    ensures value { IfOk result (λ raw. map Some raw.items
        ≡ map (λ id. option_and_then (type_index (index_of indices.now))
        ((parts_view parts.entry).functions (place id))) order.now) }
    ensures fails { IsOkUnless result out_of_memory }
{
    let mut raw = Vec::with_capacity(alloc, order.len())?;
    for id in order {
        let Some(index) = raw_function(parts, *id, indices) else {
            unreachable!();
        };
        raw.push(index)?;
    }
    Ok(raw)
}
