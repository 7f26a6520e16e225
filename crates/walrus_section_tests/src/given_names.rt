//! Names that a program gives are written, and left out where that is asked for.

use std::alloc::Global;
use std::test::Fail;
use test_support::add_bytes;
use walrus::{Error, FunctionId, FunctionKind, LocalId, Module, ModuleConfig};
use walrus_test_support::demand_output;

// An exported function that drops its parameter.
const UNNAMED: &str =
    "00 61 73 6D 01 00 00 00 01 05 01 60 01 7F 00 03 02 01 00 07 05 01 01 66 00 00 0A 07 01 05 00 20 00 1A 0B";

// The same, where the module is called `m`, the function `a`, and the parameter `x`.
const NAMED: &str =
    "00 61 73 6D 01 00 00 00 01 05 01 60 01 7F 00 03 02 01 00 07 05 01 01 66 00 00 0A 07 01 05 00 20 00 1A 0B 00 17 04 6E 61 6D 65 00 02 01 6D 01 04 01 00 01 61 02 06 01 00 01 00 01 78";

fn read(alloc: Global, names: bool) -> Result<Module, Error> {
    let mut bytes = Vec::new(alloc);
    add_bytes(&mut bytes, UNNAMED);
    let mut config = ModuleConfig::new();
    config
        .generate_producers_section(false)
        .generate_name_section(names);
    Module::from_buffer_with_config(alloc, &bytes, &config)
}

fn parameter(alloc: Global, module: &Module, id: FunctionId) -> Option<LocalId> {
    if !module.funcs.contains(id) {
        return None;
    }
    match &module.funcs.get(id).kind {
        FunctionKind::Local(function) => function.args(alloc).ok()?.first().copied(),
        FunctionKind::Import(_) | FunctionKind::Uninitialized(_) => None,
    }
}

fn set_name(alloc: Global, name: &mut Option<String>, text: &str) -> Result<(), Error> {
    *name = Some(String::from_str(alloc, text)?);
    Ok(())
}

// Names the function, and this parameter of it, where both are there.
fn name_function(
    alloc: Global,
    module: &mut Module,
    id: FunctionId,
    local: LocalId,
) -> Result<(), Error> {
    if !module.funcs.contains(id) || !module.locals.contains(local) {
        return Err(Error::NotFound);
    }
    set_name(alloc, &mut module.funcs.get_mut(id).name, "a")?;
    set_name(alloc, &mut module.locals.get_mut(local).name, "x")
}

fn name_all(alloc: Global, module: &mut Module) -> Result<(), Error> {
    let id = module.exports.get_func("f")?;
    let Some(local) = parameter(alloc, module, id) else {
        return Err(Error::NotFound);
    };
    set_name(alloc, &mut module.name, "m")?;
    name_function(alloc, module, id, local)
}

// Fails where the names can't be given, or are written otherwise.
fn name_and_write(alloc: Global, module: &mut Module, expected: &str) -> Result<(), Fail> {
    name_all(alloc, module)?;
    demand_output(alloc, module.emit_wasm(alloc), expected)
}

fn demand_written(alloc: Global, names: bool, expected: &str) -> Result<(), Fail> {
    let mut module = read(alloc, names)?;
    name_and_write(alloc, &mut module, expected)
}

#[test]
fn names_are_written(rt: HostRuntime) -> Result<(), Fail> {
    demand_written(rt.alloc(), true, NAMED)?;
    demand_written(rt.alloc(), false, UNNAMED)
}
