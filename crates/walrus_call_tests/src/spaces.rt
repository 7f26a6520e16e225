//! Modules that hold items beside types and functions, written byte for byte; the module's only memory, and which globals gc keeps.

use crate::made::bare_module;
use std::alloc::Global;
use std::test::Fail;
use test_support::demand;
use walrus::passes::gc;
use walrus::{
    AbstractHeapType, ConstExpr, Error, ExportId, ExportItem, GlobalId, MemoryId, Module,
    ModuleGlobals, ValType, Value,
};
use walrus_test_support::{demand_output, reference};

// ---- memories

// Two memories, the second with 64-bit addresses and at most 3 pages, and an export of it.
const TWO_MEMORIES: &str = "00 61 73 6D 01 00 00 00 05 06 02 00 01 05 02 03 07 05 01 01 6D 02 01";

fn is_the_only_memory(module: &Module, memory: MemoryId) -> bool {
    match module.get_memory_id() {
        Ok(only) => only == memory,
        Err(_) => false,
    }
}

fn add_wide_memory(module: &mut Module) -> Result<ExportId, Error> {
    let wide = module.memories.add_local(false, true, 2, Some(3), None)?;
    module.exports.add("m", ExportItem::Memory(wide))
}

// Fails where the export wasn't added, or the module with it is written otherwise; then it is taken away with all that it needs.
fn demand_alone(
    alloc: Global,
    module: &mut Module,
    added: Result<ExportId, Error>,
    expected: &str,
) -> Result<(), Fail> {
    let export = added?;
    demand_output(alloc, module.emit_wasm(alloc), expected)?;
    if module.exports.contains(export) {
        module.exports.delete(export);
    }
    gc::run(alloc, module)?;
    Ok(())
}

// Fails where the first memory isn't the only one while it is alone, though nothing exports it, or both are written otherwise.
fn write_memories(alloc: Global, module: &mut Module) -> Result<(), Fail> {
    let first = module.memories.add_local(false, false, 1, None, None)?;
    demand(is_the_only_memory(module, first), "the only memory")?;
    let added = add_wide_memory(module);
    demand_alone(alloc, module, added, TWO_MEMORIES)
}

// ---- tags

// A tag of the type of functions that take and give nothing, and an export of it.
const ONE_TAG: &str =
    "00 61 73 6D 01 00 00 00 01 04 01 60 00 00 0D 03 01 00 00 07 05 01 01 74 04 00";

fn add_tag(module: &mut Module) -> Result<ExportId, Error> {
    let ty = module.types.add(&[], &[])?;
    let tag = module.tags.add(ty)?;
    module.exports.add("t", ExportItem::Tag(tag))
}

// ---- tables

// A table of one to two functions or nulls, and an export of it.
const ONE_TABLE: &str = "00 61 73 6D 01 00 00 00 04 05 01 70 01 01 02 07 05 01 01 74 01 00";

fn add_table(module: &mut Module) -> Result<ExportId, Error> {
    let functions = reference(AbstractHeapType::Func);
    let table = module.tables.add_local(false, 1, Some(2), functions)?;
    module.exports.add("t", ExportItem::Table(table))
}

// ---- globals

// A mutable global of 64 bits that is -5 at first, one of 32 bits that is 7, and an export of the second.
const TWO_GLOBALS: &str =
    "00 61 73 6D 01 00 00 00 06 0B 02 7E 01 42 7B 0B 7F 00 41 07 0B 07 05 01 01 67 03 01";

// The second, one that reads it, and an export of that one.
const REACHED: &str =
    "00 61 73 6D 01 00 00 00 06 0B 02 7F 00 41 07 0B 7F 00 23 00 0B 07 05 01 01 67 03 01";

// The two globals, of which the second is answered.
fn add_globals(globals: &mut ModuleGlobals) -> Result<GlobalId, Error> {
    let five = ConstExpr::Value(Value::I64(-5));
    globals.add_local(ValType::I64, true, false, five)?;
    let seven = ConstExpr::Value(Value::I32(7));
    globals.add_local(ValType::I32, false, false, seven)
}

// Exports in place of the global one that reads it.
fn read_by_another(module: &mut Module, global: GlobalId) -> Result<ExportId, Error> {
    let init = ConstExpr::Global(global);
    let another = module.globals.add_local(ValType::I32, false, false, init)?;
    module.exports.remove("g")?;
    module.exports.add("g", another.into())
}

// Fails where two globals are written otherwise, or gc doesn't keep the exported one and the one that it reads alone.
fn write_globals(alloc: Global, module: &mut Module) -> Result<(), Fail> {
    let seven = add_globals(&mut module.globals)?;
    module.exports.add("g", ExportItem::Global(seven))?;
    demand_output(alloc, module.emit_wasm(alloc), TWO_GLOBALS)?;
    read_by_another(module, seven)?;
    gc::run(alloc, module)?;
    demand_output(alloc, module.emit_wasm(alloc), REACHED)
}

// ---- each space

fn write_each(alloc: Global, module: &mut Module) -> Result<(), Fail> {
    write_memories(alloc, module)?;
    let added = add_tag(module);
    demand_alone(alloc, module, added, ONE_TAG)?;
    let added = add_table(module);
    demand_alone(alloc, module, added, ONE_TABLE)?;
    write_globals(alloc, module)
}

#[test]
fn items_of_each_space_are_written(rt: HostRuntime) -> Result<(), Fail> {
    let mut module = bare_module(rt.alloc())?;
    write_each(rt.alloc(), &mut module)
}
