//! The types of a module that is read.
ghost use Rattle.std.specs.Prelude.{◌≡◌, ◌≢◌, ◌<◌, [], length, map, All, OnOk, IsOkUnless, Some, None};
ghost use Rattle.std.specs.List.{range_with_len};
ghost use Rattle.walrus_base.specs.ModuleTypes.{type_names, type_slots};
ghost use Rattle.walrus_base.specs.Operators.{Space, Types};
ghost use Rattle.walrus_code.specs.Indices.{places_in};
ghost use Rattle.walrus_groups.specs.Groups.{types_from, AreDeclared};
ghost use Rattle.walrus_model.specs.Reads.{declared};
ghost use Rattle.walrus_items.specs.Errors.{out_of_memory};
ghost use Rattle.wasm_entries.specs.Record.{group};

use std::alloc::{AllocError, Global};
use walrus_base::ModuleTypes;
use walrus_code::{IndicesToIds, IrError};
use walrus_groups::read_types;
use walrus_items::{Error, Result};
use wasm_entries::RawGroup;

// Each type gets the next id and the next index, and no name.
pub fn add_types(
    alloc: Global,
    raw: &[RawGroup],
    indices: &mut IndicesToIds,
    types: &mut ModuleTypes,
) -> Result<()>
    requires none { type_slots types.old ≡ [] }
    requires no_names { type_names types.old ≡ [] }
    requires no_indices { (space : Space) → places_in indices.old space ≡ [] }
    requires declared { AreDeclared 0 (map group raw.now) }
    ensures added { OnOk result (type_slots types.new ≡ map Some (types_from 0 (map group raw.now))) }
    ensures numbered { OnOk result (places_in indices.new Types ≡ range_with_len 0
        (length (types_from 0 (map group raw.now)))) }
    ensures others { OnOk result ((space : Space) → space ≢ Types → places_in indices.new space ≡ []) }
    ensures unnamed { OnOk result (All (λ name. name ≡ Some None) (type_names types.new)) }
    ensures fails { IsOkUnless result out_of_memory }
{
    match read_types(alloc, raw, indices, types) {
        Ok(()) => Ok(()),
        Err(IrError::Memory(error)) => Err(Error::Memory(error)),
        // A section has fewer than 2^32 bytes, and so fewer types.
        Err(IrError::TooLarge) => Err(Error::Memory(AllocError)),
        Err(_) => unreachable!(),
    }
}
