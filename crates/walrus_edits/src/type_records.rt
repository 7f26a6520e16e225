//! What is told of types.

ghost use Rattle.walrus_edits.specs.TypeRecords.{GroupsTypes};

use std::alloc::Global;
use walrus::{Error, IdsToIndices, ModuleTypes, Result};
use walrus_code::Numbering;
use walrus_groups::index_types;
use wasm_entries::RawGroup;

/// The groups of a module's types, each under the index of its place, by rising id.
pub(crate) fn type_groups(alloc: Global, types: &ModuleTypes) -> Result<Vec<RawGroup>>
    ensures { GroupsTypes types.now result }
{
    let ids = types.ids(alloc)?;
    if ids.len() > 1 << 32 {
        return Err(Error::TooLarge);
    }
    let mut indices = IdsToIndices::new(alloc);
    indices.types = Numbering::along(alloc, &ids)?;
    Ok(index_types(alloc, types, &indices)?)
}
