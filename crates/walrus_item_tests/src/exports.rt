//! Exports of all kinds.

use std::alloc::Global;
use std::test::Fail;
use test_support::{demand, first_id};
use walrus_base::{ExportId, FunctionId, GlobalId, MemoryId, TableId, TagId};
use walrus_ir::ItemId;
use walrus_items::{Export, ExportItem, ModuleExports};

fn is_of(found: Option<&Export>, id: ExportId) -> bool {
    match found {
        Some(export) => export.id() == id,
        None => false,
    }
}

fn find_table(exports: &mut ModuleExports, table: TableId) -> Result<(), Fail> {
    let id = exports.add("table", table.into())?;
    demand(
        is_of(exports.get_exported_table(table), id),
        "the export of a table",
    )
}

fn find_memory(exports: &mut ModuleExports, memory: MemoryId) -> Result<(), Fail> {
    let id = exports.add("memory", memory.into())?;
    demand(
        is_of(exports.get_exported_memory(memory), id),
        "the export of a memory",
    )
}

fn find_global(exports: &mut ModuleExports, global: GlobalId) -> Result<(), Fail> {
    let id = exports.add("global", global.into())?;
    demand(
        is_of(exports.get_exported_global(global), id),
        "the export of a global",
    )
}

fn is_cloned(export: &Export) -> bool {
    match export.try_clone() {
        Ok(copy) => copy.id() == export.id(),
        Err(_) => false,
    }
}

fn find_function(exports: &mut ModuleExports, function: FunctionId) -> Result<(), Fail> {
    let id = exports.add("function", function.into())?;
    demand(
        exports.get_func("function").ok() == Some(function),
        "the function of a name",
    )?;
    demand(
        is_of(exports.get_exported_func(function), id),
        "the export of a function",
    )?;
    demand(
        exports.contains(id) && is_cloned(exports.get(id)),
        "a clone",
    )
}

fn is_taken_away(exports: &mut ModuleExports, id: ExportId) -> bool {
    if !exports.contains(id) {
        return false;
    }
    exports.remove_root(id);
    !exports.contains(id)
}

fn take_away(exports: &mut ModuleExports, tag: TagId) -> Result<(), Fail> {
    let id = exports.add("tag", tag.into())?;
    demand(
        is_taken_away(exports, id),
        "an export is taken away by its id",
    )?;
    exports.remove("table")?;
    demand(exports.len() == 3, "an export is taken away by its name")
}

fn find_each(alloc: Global, exports: &mut ModuleExports) -> Result<(), Fail> {
    find_table(exports, first_id(alloc))?;
    find_memory(exports, first_id(alloc))?;
    find_global(exports, first_id(alloc))?;
    find_function(exports, first_id(alloc))
}

#[test]
fn exports_are_found(rt: HostRuntime) -> Result<(), Fail> {
    let mut exports = ModuleExports::new(rt.alloc());
    find_each(rt.alloc(), &mut exports)?;
    take_away(&mut exports, first_id(rt.alloc()))?;
    let tag = ExportItem::Tag(first_id(rt.alloc()));
    demand(
        matches!(tag.item_id(), ItemId::Tag(_)),
        "the item of an export",
    )
}
