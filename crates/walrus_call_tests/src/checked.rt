//! A module that is edited so that it keeps a rule no more: a check tells, before bytes go out, and passes it once that is mended.

use crate::made::read;
use std::alloc::Global;
use std::test::Fail;
use test_support::{demand, is_text};
use walrus::{
    ConstExpr, DataId, DataKind, Error, ExportItem, FunctionId, MemoryId, Module, ValType, Value,
};
use walrus_test_support::demand_output;

// Two empty functions, of which the second is exported.
const INPUT: &str =
    "00 61 73 6D 01 00 00 00 01 04 01 60 00 00 03 03 02 00 00 07 05 01 01 66 00 01 0A 07 02 02 00 0B 02 00 0B";

// The text of what breaks a rule.
const INVALID: &str = "The input WebAssembly is invalid";

fn is_told(alloc: Global, module: &Module) -> bool {
    match module.check(alloc) {
        Ok(()) => false,
        Err(refusal) => is_text(refusal.text(), INVALID),
    }
}

fn passes(alloc: Global, module: &Module) -> bool {
    module.check(alloc).is_ok()
}

// ---- an export name twice

fn export_again(module: &mut Module) -> Result<(), Error> {
    let function = module.exports.get_func("f")?;
    module.exports.add("f", ExportItem::Function(function))?;
    Ok(())
}

fn tells_names(alloc: Global, module: &mut Module) -> Result<(), Fail> {
    export_again(module)?;
    demand(is_told(alloc, module), "told: an export name twice")?;
    module.exports.remove("f")?;
    demand(passes(alloc, module), "passes: one export")
}

// ---- a minimum above its maximum

fn set_maximum(module: &mut Module, memory: MemoryId) {
    if module.memories.contains(memory) {
        module.memories.get_mut(memory).maximum = Some(3);
    }
}

fn tells_limits(alloc: Global, module: &mut Module) -> Result<MemoryId, Fail> {
    let memory = module.memories.add_local(false, false, 3, Some(2), None)?;
    demand(is_told(alloc, module), "told: a minimum above its maximum")?;
    set_maximum(module, memory);
    demand(passes(alloc, module), "passes: the limits in order")?;
    Ok(memory)
}

// ---- an offset of the wrong type

fn at(memory: MemoryId, value: Value) -> DataKind {
    DataKind::Active {
        memory,
        offset: ConstExpr::Value(value),
    }
}

fn place(module: &mut Module, segment: DataId, memory: MemoryId) {
    if module.data_.contains(segment) {
        module.data_.get_mut(segment).kind = at(memory, Value::I32(0));
    }
}

fn tells_offsets(alloc: Global, module: &mut Module, memory: MemoryId) -> Result<(), Fail> {
    let segment = module
        .data_
        .add(at(memory, Value::I64(0)), Vec::new(alloc))?;
    demand(is_told(alloc, module), "told: an offset of 64 bits")?;
    place(module, segment, memory);
    demand(passes(alloc, module), "passes: an offset of 32 bits")
}

// ---- a start function with a parameter

fn import_function(module: &mut Module) -> Result<FunctionId, Error> {
    let ty = module.types.add(&[ValType::I32], &[])?;
    let (function, _import) = module.add_import_func("m", "n", ty)?;
    Ok(function)
}

fn tells_start(alloc: Global, module: &mut Module) -> Result<(), Fail> {
    module.start = Some(import_function(module)?);
    demand(
        is_told(alloc, module),
        "told: a start function with a parameter",
    )?;
    module.start = None;
    demand(passes(alloc, module), "passes: no start function")
}

fn tells_in_turn(alloc: Global, module: &mut Module) -> Result<(), Fail> {
    demand(passes(alloc, module), "passes: as it was read")?;
    demand_output(alloc, module.emit_wasm(alloc), INPUT)?;
    tells_names(alloc, module)?;
    let memory = tells_limits(alloc, module)?;
    tells_offsets(alloc, module, memory)?;
    tells_start(alloc, module)
}

#[test]
fn a_check_tells_before_bytes_go_out(rt: HostRuntime) -> Result<(), Fail> {
    let mut module = read(rt.alloc(), INPUT)?;
    tells_in_turn(rt.alloc(), &mut module)
}
