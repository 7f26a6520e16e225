//! The type section of a module that is written.
ghost use Rattle.std.specs.Prelude.{map, IfOk, IfErr};
ghost use Rattle.walrus_base.specs.Arena.{items};
ghost use Rattle.walrus_base.specs.ModuleTypes.{type_slots};
ghost use Rattle.walrus_groups.specs.Indexed.{NumbersTypes, AreIndexed, LacksAnIndex};
ghost use Rattle.walrus_code.specs.Indices.{index_of};
ghost use Rattle.wasm_entries.specs.Record.{group};
ghost use Rattle.walrus_writing.specs.Refusals.{RefusesTypes};

use std::alloc::Global;
use walrus_base::ModuleTypes;
use walrus_code::IdsToIndices;
use walrus_groups::index_types;
use walrus_items::Result;
use wasm_entries::RawGroup;

// The groups of the type section.
pub fn raw_types(
    alloc: Global,
    types: &ModuleTypes,
    indices: &IdsToIndices,
) -> Result<Vec<RawGroup>>
    requires numbered { NumbersTypes (index_of indices.now) (type_slots types.now) }
    requires indexed { LacksAnIndex (index_of indices.now) (items (type_slots types.now)) → ⊥ }
    ensures value { IfOk result (λ raw. AreIndexed (index_of indices.now) (items (type_slots types.now))
        (map group raw.items)) }
    ensures fails { IfErr result (RefusesTypes (type_slots types.now)) }
{
    let groups = index_types(alloc, types, indices)?;
    Ok(groups)
}
