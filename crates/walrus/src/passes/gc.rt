//! Dropping what nothing reaches.

ghost use Rattle.walrus.specs.Collected.{CollectsOrStays};

use crate::passes::used::marked;
use std::alloc::Global;
use walrus_module::{CustomSection, ItemMarks, Module, Result};

/// Deletes the items that the module's roots don't reach, but the memory that stays with data, and the imports of items that
/// don't stay. A second run deletes nothing. What the custom sections ask to keep stays.
///
/// # Errors
///
/// Those of [`Used::new`](crate::passes::used::Used::new); then nothing is deleted.
pub fn run(alloc: Global, module: &mut Module) -> Result<()>
    ensures { CollectsOrStays ⟦<dyn CustomSection as CustomSection>⟧ «module».old «module».new result }
{
    let marks = marked(alloc, module)?;
    module.funcs.keep_only(&marks.funcs);
    module.types.keep_only(&marks.types);
    module.imports.keep_only(ItemMarks {
        funcs: &marks.funcs,
        tables: &marks.tables,
        memories: &marks.memories,
        globals: &marks.globals,
        tags: &marks.tags,
    });
    module.tables.keep_only(&marks.tables);
    module.memories.keep_only(&marks.memories);
    module.tags.keep_only(&marks.tags);
    module.globals.keep_only(&marks.globals);
    module.elements.keep_only(&marks.elements);
    module.data_.keep_only(&marks.data_);
    Ok(())
}
