//! Data segments of a module that a program edits: which of them gc keeps, what is found dead, and what is written.

use crate::made::{bare_module, demand_dead, demand_left};
use std::alloc::Global;
use std::test::Fail;
use test_support::demand;
use walrus::passes::gc;
use walrus::{
    Arg, Args, ConstExpr, DataId, DataKind, Error, ExportItem, FunctionBuilder, MemoryId, Module,
    Operator, Value,
};
use walrus_test_support::demand_output;

const EMPTY: &str = "00 61 73 6D 01 00 00 00";

// A memory of one page, and two bytes that are copied to its beginning.
const ACTIVE: &str = "00 61 73 6D 01 00 00 00 05 03 01 00 01 0B 08 01 00 41 00 0B 02 61 62";

// A passive segment of these bytes, which is counted.
const PASSIVE: &str = "00 61 73 6D 01 00 00 00 0C 01 01 0B 05 01 01 02 61 62";

// An exported memory of one page, and with it the passive segment.
const EXPORTED: &str = "00 61 73 6D 01 00 00 00 05 03 01 00 01 07 05 01 01 6D 02 00";

const KEPT: &str =
    "00 61 73 6D 01 00 00 00 05 03 01 00 01 07 05 01 01 6D 02 00 0C 01 01 0B 05 01 01 02 61 62";

// An exported function that drops the passive segment, and a memory of one page.
const SPARE: &str =
    "00 61 73 6D 01 00 00 00 01 04 01 60 00 00 03 02 01 00 05 03 01 00 01 07 05 01 01 66 00 00 0C 01 01 0A 07 01 05 00 FC 09 00 0B 0B 05 01 01 02 61 62";

// The operator data.drop, number 9 behind the byte 252.
const DATA_DROP: u32 = (252 << 16) + 9;

fn add_memory(module: &mut Module, pages: u64) -> Result<MemoryId, Error> {
    module.memories.add_local(false, false, pages, None, None)
}

// Two bytes of this kind.
fn add_segment(alloc: Global, module: &mut Module, kind: DataKind) -> Result<DataId, Error> {
    let mut value = Vec::new(alloc);
    value.push(b'a')?;
    value.push(b'b')?;
    module.data_.add(kind, value)
}

// ---- active and passive segments

fn with_active(alloc: Global) -> Result<(Module, MemoryId), Error> {
    let mut module = bare_module(alloc)?;
    let memory = add_memory(&mut module, 1)?;
    let offset = ConstExpr::Value(Value::I32(0));
    add_segment(alloc, &mut module, DataKind::Active { memory, offset })?;
    Ok((module, memory))
}

#[test]
fn an_active_segment_stays_with_its_memory(rt: HostRuntime) -> Result<(), Fail> {
    let (mut module, _memory) = with_active(rt.alloc())?;
    demand_output(rt.alloc(), module.emit_wasm(rt.alloc()), ACTIVE)?;
    demand_left(rt.alloc(), &mut module, ACTIVE)
}

fn with_passive(alloc: Global) -> Result<Module, Error> {
    let mut module = bare_module(alloc)?;
    add_segment(alloc, &mut module, DataKind::Passive)?;
    Ok(module)
}

#[test]
fn a_passive_segment_that_nothing_names_goes(rt: HostRuntime) -> Result<(), Fail> {
    let mut module = with_passive(rt.alloc())?;
    demand_output(rt.alloc(), module.emit_wasm(rt.alloc()), PASSIVE)?;
    demand_left(rt.alloc(), &mut module, EMPTY)
}

// Fails where the memory of an active segment that is deleted isn't found by gc and by emission.
fn delete_memory(alloc: Global, module: &mut Module, memory: MemoryId) -> Result<(), Fail> {
    if !module.memories.contains(memory) {
        return demand(false, "the memory");
    }
    module.memories.delete(memory);
    demand_dead(alloc, module)
}

#[test]
fn a_deleted_memory_of_a_segment_is_found(rt: HostRuntime) -> Result<(), Fail> {
    let (mut module, memory) = with_active(rt.alloc())?;
    delete_memory(rt.alloc(), &mut module, memory)
}

// ---- the set of a memory

// An exported memory with a passive segment in its set.
fn with_set(alloc: Global) -> Result<(Module, MemoryId, DataId), Error> {
    let mut module = bare_module(alloc)?;
    let memory = add_memory(&mut module, 1)?;
    module.exports.add("m", ExportItem::Memory(memory))?;
    let segment = add_segment(alloc, &mut module, DataKind::Passive)?;
    if module.memories.contains(memory) {
        module
            .memories
            .get_mut(memory)
            .data_segments
            .insert(segment)?;
    }
    Ok((module, memory, segment))
}

#[test]
fn a_segment_in_the_set_of_a_memory_stays(rt: HostRuntime) -> Result<(), Fail> {
    let (mut module, _memory, _segment) = with_set(rt.alloc())?;
    demand_left(rt.alloc(), &mut module, KEPT)
}

// Fails where a segment that is taken out of the set doesn't go.
fn take_out(
    alloc: Global,
    module: &mut Module,
    memory: MemoryId,
    segment: DataId,
) -> Result<(), Fail> {
    if !module.memories.contains(memory) {
        return demand(false, "the memory");
    }
    module
        .memories
        .get_mut(memory)
        .data_segments
        .remove(segment);
    demand_left(alloc, module, EXPORTED)
}

#[test]
fn a_segment_taken_out_of_the_set_goes(rt: HostRuntime) -> Result<(), Fail> {
    let (mut module, memory, segment) = with_set(rt.alloc())?;
    take_out(rt.alloc(), &mut module, memory, segment)
}

// Fails where a segment that is deleted while it is in the set isn't found by gc, or is in the way where the module is written.
fn delete_segment(alloc: Global, module: &mut Module, segment: DataId) -> Result<(), Fail> {
    if !module.data_.contains(segment) {
        return demand(false, "the segment");
    }
    module.data_.delete(segment);
    demand(
        matches!(gc::run(alloc, module), Err(Error::DeadItem)),
        "DeadItem of gc",
    )?;
    demand_output(alloc, module.emit_wasm(alloc), EXPORTED)
}

#[test]
fn a_deleted_segment_in_the_set_is_found(rt: HostRuntime) -> Result<(), Fail> {
    let (mut module, _memory, segment) = with_set(rt.alloc())?;
    delete_segment(rt.alloc(), &mut module, segment)
}

// ---- the spare memory

// An exported function that drops a passive segment, and two memories that nothing names.
fn with_spare(alloc: Global) -> Result<Module, Error> {
    let mut module = bare_module(alloc)?;
    add_memory(&mut module, 1)?;
    add_memory(&mut module, 2)?;
    let segment = add_segment(alloc, &mut module, DataKind::Passive)?;
    let mut builder = FunctionBuilder::new(alloc, &mut module.types, &[], &[])?;
    let drops = Operator::new(DATA_DROP, Args::One(Arg::Data(segment)));
    builder.func_body().instr(drops)?;
    let local = builder.local_func(Vec::new(alloc))?;
    let function = module.funcs.add_local(local)?;
    module.exports.add("f", ExportItem::Function(function))?;
    Ok(module)
}

#[test]
fn the_first_memory_stays_with_data(rt: HostRuntime) -> Result<(), Fail> {
    let mut module = with_spare(rt.alloc())?;
    demand_left(rt.alloc(), &mut module, SPARE)
}
