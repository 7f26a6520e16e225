//! Element segments in the set of their table: what gc keeps of them, and what it finds dead.

use crate::made::demand_left;
use crate::made_segments::{add_active, add_listed, bare_module, gc_finds_dead};
use std::alloc::Global;
use std::test::Fail;
use test_support::demand;
use walrus::{
    AbstractHeapType, ElementId, ElementKind, Error, ExportItem, Module, ModuleTables, TableId,
    Value,
};
use walrus_test_support::{demand_output, reference};

// An exported table, with it a passive segment of the function, and the function without a segment.
const KEPT: &str =
    "00 61 73 6D 01 00 00 00 01 04 01 60 00 00 03 02 01 00 04 04 01 70 00 01 07 05 01 01 74 01 00 09 05 01 01 00 01 00 0A 04 01 02 00 0B";

const EXPORTED: &str = "00 61 73 6D 01 00 00 00 04 04 01 70 00 01 07 05 01 01 74 01 00";

const WITHOUT_SEGMENT: &str =
    "00 61 73 6D 01 00 00 00 01 04 01 60 00 00 03 02 01 00 04 04 01 70 00 01 07 05 01 01 74 01 00 0A 04 01 02 00 0B";

// The exported table, to whose beginning the function is copied.
const ACTIVE_EXPORTED: &str =
    "00 61 73 6D 01 00 00 00 01 04 01 60 00 00 03 02 01 00 04 04 01 70 00 01 07 05 01 01 74 01 00 09 07 01 00 41 00 0B 01 00 0A 04 01 02 00 0B";

// An exported table of functions, with no segment in its set.
fn add_exported_table(module: &mut Module) -> Result<TableId, Error> {
    let functions = reference(AbstractHeapType::Func);
    let table = module.tables.add_local(false, 1, None, functions)?;
    module.exports.add("t", ExportItem::Table(table))?;
    Ok(table)
}

// A passive segment of a function, in no set.
fn add_passive(alloc: Global, module: &mut Module) -> Result<ElementId, Error> {
    let items = add_listed(alloc, module)?;
    module.elements.add(ElementKind::Passive, items)
}

// Whether the segment is new in the table's set.
fn enter(tables: &mut ModuleTables, table: TableId, segment: ElementId) -> bool {
    if !tables.contains(table) {
        return false;
    }
    matches!(
        tables.get_mut(table).elem_segments.insert(segment),
        Ok(true)
    )
}

// Whether the segment was in the table's set, out of which it is taken.
fn take_out(tables: &mut ModuleTables, table: TableId, segment: ElementId) -> bool {
    if !tables.contains(table) {
        return false;
    }
    tables.get_mut(table).elem_segments.remove(segment)
}

// Fails where a passive segment doesn't stay in the set, or stays once it is taken out.
fn keep_while_entered(alloc: Global, module: &mut Module, table: TableId) -> Result<(), Fail> {
    let segment = add_passive(alloc, module)?;
    demand(enter(&mut module.tables, table, segment), "new in the set")?;
    demand_left(alloc, module, KEPT)?;
    demand(take_out(&mut module.tables, table, segment), "in the set")?;
    demand_left(alloc, module, EXPORTED)
}

// Fails where a segment that is deleted isn't found by gc, or is in the way where the module is written.
fn delete(alloc: Global, module: &mut Module, segment: ElementId) -> Result<(), Fail> {
    if !module.elements.contains(segment) {
        return demand(false, "the segment");
    }
    module.elements.delete(segment);
    demand(gc_finds_dead(alloc, module), "DeadItem of gc")?;
    demand_output(alloc, module.emit_wasm(alloc), WITHOUT_SEGMENT)
}

// Fails where a passive segment isn't found once it is deleted in the set.
fn find_deleted(alloc: Global, module: &mut Module, table: TableId) -> Result<(), Fail> {
    let segment = add_passive(alloc, module)?;
    demand(enter(&mut module.tables, table, segment), "new in the set")?;
    delete(alloc, module, segment)
}

// Fails where either isn't so, the second once the first segment is gone.
fn enter_passive(alloc: Global, module: &mut Module) -> Result<(), Fail> {
    let table = add_exported_table(module)?;
    keep_while_entered(alloc, module, table)?;
    find_deleted(alloc, module, table)
}

#[test]
fn a_passive_segment_stays_in_the_set_and_is_found_deleted(rt: HostRuntime) -> Result<(), Fail> {
    let mut module = bare_module(rt.alloc())?;
    enter_passive(rt.alloc(), &mut module)
}

// Fails where an active segment doesn't stay in no set and in the set, or isn't found once it is deleted there.
fn keep_active(alloc: Global, module: &mut Module) -> Result<(), Fail> {
    let table = add_exported_table(module)?;
    let items = add_listed(alloc, module)?;
    let segment = add_active(module, table, Value::I32(0), items)?;
    demand_left(alloc, module, ACTIVE_EXPORTED)?;
    demand(enter(&mut module.tables, table, segment), "new in the set")?;
    demand_left(alloc, module, ACTIVE_EXPORTED)?;
    delete(alloc, module, segment)
}

#[test]
fn an_active_segment_stays_in_no_set_and_in_the_set(rt: HostRuntime) -> Result<(), Fail> {
    let mut module = bare_module(rt.alloc())?;
    keep_active(rt.alloc(), &mut module)
}
