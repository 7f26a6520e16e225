//! Element segments of a module that a program edits: which of them gc keeps, what is found dead, what they declare, and with which
//! flag they are written.

use crate::made::demand_left;
use crate::made_segments::{add_active, add_listed, bare_module, gc_finds_dead};
use std::alloc::Global;
use std::test::Fail;
use test_support::demand;
use walrus::passes::gc;
use walrus::{
    AbstractHeapType, Arg, Args, ConstExpr, ElementId, ElementItems, ElementKind, Error,
    ExportItem, FunctionBuilder, FunctionId, LocalFunction, Module, ModuleTypes, Operator, RefType,
    TableId, Value,
};
use walrus_test_support::{add_function, demand_output, is_as_before, listed, reference, shown};

const EMPTY: &str = "00 61 73 6D 01 00 00 00";

// A table of one function at least, and an empty function that is copied to its beginning.
const ACTIVE: &str =
    "00 61 73 6D 01 00 00 00 01 04 01 60 00 00 03 02 01 00 04 04 01 70 00 01 09 07 01 00 41 00 0B 01 00 0A 04 01 02 00 0B";

// The same by an expression, of the type of all functions.
const BY_EXPRESSION: &str =
    "00 61 73 6D 01 00 00 00 01 04 01 60 00 00 03 02 01 00 04 04 01 70 00 01 09 09 01 04 41 00 0B 01 D2 00 0B 0A 04 01 02 00 0B";

// The same in a table with indices of 64 bits, which is named.
const IN_WIDE_TABLE: &str =
    "00 61 73 6D 01 00 00 00 01 04 01 60 00 00 03 02 01 00 04 04 01 70 04 01 09 09 01 02 00 42 00 0B 00 01 00 0A 04 01 02 00 0B";

// A table of outer references, whose first one is null.
const OF_OTHER_TYPE: &str =
    "00 61 73 6D 01 00 00 00 04 04 01 6F 00 01 09 0B 01 06 00 41 00 0B 6F 01 D0 6F 0B";

// A passive segment of the function.
const PASSIVE: &str =
    "00 61 73 6D 01 00 00 00 01 04 01 60 00 00 03 02 01 00 09 05 01 01 00 01 00 0A 04 01 02 00 0B";

// A segment that declares the function.
const DECLARED: &str =
    "00 61 73 6D 01 00 00 00 01 04 01 60 00 00 03 02 01 00 09 05 01 03 00 01 00 0A 04 01 02 00 0B";

// An exported function that refers to the other one, which a segment declares.
const REFERRED: &str =
    "00 61 73 6D 01 00 00 00 01 04 01 60 00 00 03 03 02 00 00 07 05 01 01 66 00 00 09 05 01 03 00 01 01 0A 0A 02 05 00 D2 01 1A 0B 02 00 0B";

// The operators ref.func and drop.
const REF_FUNC: u32 = 210;

const DROP: u32 = 26;

// ---- segments of each kind

// Fails where this isn't written, or gc leaves something else than that.
fn demand_both(alloc: Global, module: &mut Module, written: &str, left: &str) -> Result<(), Fail> {
    demand_output(alloc, module.emit_wasm(alloc), written)?;
    demand_left(alloc, module, left)
}

// A table of functions, and a segment of one that is active at its beginning.
fn add_active_table(alloc: Global, module: &mut Module) -> Result<TableId, Error> {
    let functions = reference(AbstractHeapType::Func);
    let table = module.tables.add_local(false, 1, None, functions)?;
    let items = add_listed(alloc, module)?;
    add_active(module, table, Value::I32(0), items)?;
    Ok(table)
}

// Whether emission refuses since something is dead, and leaves the module as it was.
fn emission_finds_dead(alloc: Global, module: &mut Module) -> bool {
    let before = shown(alloc, module);
    matches!(module.emit_wasm(alloc), Err(Error::DeadItem)) && is_as_before(alloc, module, &before)
}

// Fails where the table of an active segment that is deleted isn't found by gc and by emission.
fn delete(alloc: Global, module: &mut Module, table: TableId) -> Result<(), Fail> {
    if !module.tables.contains(table) {
        return demand(false, "the table");
    }
    module.tables.delete(table);
    demand(gc_finds_dead(alloc, module), "DeadItem of gc")?;
    demand(emission_finds_dead(alloc, module), "DeadItem of emission")
}

// Fails where the segment doesn't stay with its table, or misses it once it is deleted.
fn keep_active(alloc: Global, module: &mut Module) -> Result<(), Fail> {
    let table = add_active_table(alloc, module)?;
    demand_both(alloc, module, ACTIVE, ACTIVE)?;
    delete(alloc, module, table)
}

#[test]
fn an_active_segment_stays_with_its_table(rt: HostRuntime) -> Result<(), Fail> {
    let mut module = bare_module(rt.alloc())?;
    keep_active(rt.alloc(), &mut module)
}

// Fails where a passive segment that nothing names stays, or what it lists.
fn lose_passive(alloc: Global, module: &mut Module) -> Result<(), Fail> {
    let items = add_listed(alloc, module)?;
    module.elements.add(ElementKind::Passive, items)?;
    demand_both(alloc, module, PASSIVE, EMPTY)
}

// Fails where a declared segment doesn't stay with its function.
fn keep_declared(alloc: Global, module: &mut Module) -> Result<(), Fail> {
    let items = add_listed(alloc, module)?;
    module.elements.add(ElementKind::Declared, items)?;
    demand_both(alloc, module, DECLARED, DECLARED)
}

// Fails where either isn't so, the second in the module of which gc left nothing.
fn add_in_no_table(alloc: Global, module: &mut Module) -> Result<(), Fail> {
    lose_passive(alloc, module)?;
    keep_declared(alloc, module)
}

#[test]
fn a_passive_segment_goes_and_a_declared_one_stays(rt: HostRuntime) -> Result<(), Fail> {
    let mut module = bare_module(rt.alloc())?;
    add_in_no_table(rt.alloc(), &mut module)
}

// ---- flags

fn expression(alloc: Global, ty: RefType, item: ConstExpr) -> Result<ElementItems, Error> {
    let mut items = Vec::new(alloc);
    items.push(item)?;
    Ok(ElementItems::Expressions(ty, items))
}

fn add_expression(alloc: Global, module: &mut Module) -> Result<ElementId, Error> {
    let functions = reference(AbstractHeapType::Func);
    let table = module.tables.add_local(false, 1, None, functions)?;
    let function = add_function(alloc, module)?;
    let items = expression(alloc, functions, ConstExpr::RefFunc(function))?;
    add_active(module, table, Value::I32(0), items)
}

fn add_to_wide_table(alloc: Global, module: &mut Module) -> Result<ElementId, Error> {
    let functions = reference(AbstractHeapType::Func);
    let table = module.tables.add_local(true, 1, None, functions)?;
    let items = add_listed(alloc, module)?;
    add_active(module, table, Value::I64(0), items)
}

fn add_of_other_type(alloc: Global, module: &mut Module) -> Result<ElementId, Error> {
    let outer = reference(AbstractHeapType::Extern);
    let table = module.tables.add_local(false, 1, None, outer)?;
    let items = expression(alloc, outer, ConstExpr::RefNull(outer))?;
    add_active(module, table, Value::I32(0), items)
}

// Fails where the segment wasn't added, or the module with it is written otherwise; then it is taken away with all that it needs.
fn demand_alone(
    alloc: Global,
    module: &mut Module,
    added: Result<ElementId, Error>,
    expected: &str,
) -> Result<(), Fail> {
    let segment = added?;
    demand_output(alloc, module.emit_wasm(alloc), expected)?;
    if module.elements.contains(segment) {
        module.elements.delete(segment);
    }
    gc::run(alloc, module)?;
    Ok(())
}

// Fails where the table isn't left out beside expressions of functions, or not named if it has wide indices or another type.
fn write_flags(alloc: Global, module: &mut Module) -> Result<(), Fail> {
    let added = add_expression(alloc, module);
    demand_alone(alloc, module, added, BY_EXPRESSION)?;
    let added = add_to_wide_table(alloc, module);
    demand_alone(alloc, module, added, IN_WIDE_TABLE)?;
    let added = add_of_other_type(alloc, module);
    demand_alone(alloc, module, added, OF_OTHER_TYPE)
}

#[test]
fn an_active_segment_is_written_with_its_flags(rt: HostRuntime) -> Result<(), Fail> {
    let mut module = bare_module(rt.alloc())?;
    write_flags(rt.alloc(), &mut module)
}

// ---- what segments declare

// A function that refers to this one.
fn referring(
    alloc: Global,
    types: &mut ModuleTypes,
    function: FunctionId,
) -> Result<LocalFunction, Error> {
    let mut builder = FunctionBuilder::new(alloc, types, &[], &[])?;
    let refers = Operator::new(REF_FUNC, Args::One(Arg::Function(function)));
    builder.func_body().instr(refers)?;
    builder.func_body().instr(Operator::new(DROP, Args::None))?;
    Ok(builder.local_func(Vec::new(alloc))?)
}

// An exported function that refers to another one, which is answered.
fn add_reference(alloc: Global, module: &mut Module) -> Result<FunctionId, Error> {
    let other = add_function(alloc, module)?;
    let local = referring(alloc, &mut module.types, other)?;
    let function = module.funcs.add_local(local)?;
    module.exports.add("f", ExportItem::Function(function))?;
    Ok(other)
}

// Fails where emission doesn't add the segment that declares, or a second one adds another.
fn declare_once(alloc: Global, module: &mut Module) -> Result<(), Fail> {
    add_reference(alloc, module)?;
    demand_output(alloc, module.emit_wasm(alloc), REFERRED)?;
    demand_output(alloc, module.emit_wasm(alloc), REFERRED)?;
    demand(module.elements.len() == 1, "one segment")
}

#[test]
fn emission_declares_a_reference(rt: HostRuntime) -> Result<(), Fail> {
    let mut module = bare_module(rt.alloc())?;
    declare_once(rt.alloc(), &mut module)
}

// The same functions, and a segment that declares the other one.
fn add_declaration(alloc: Global, module: &mut Module) -> Result<ElementId, Error> {
    let other = add_reference(alloc, module)?;
    let items = listed(alloc, other)?;
    module.elements.add(ElementKind::Declared, items)
}

#[test]
fn a_segment_declares_a_reference(rt: HostRuntime) -> Result<(), Fail> {
    let mut module = bare_module(rt.alloc())?;
    let added = add_declaration(rt.alloc(), &mut module);
    demand_alone(rt.alloc(), &mut module, added, REFERRED)
}
