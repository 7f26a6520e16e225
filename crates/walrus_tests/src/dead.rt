//! An exported function that a program deletes, or leaves without a body: it is found, and nothing changes.

use crate::made::bare_module;
use std::alloc::Global;
use std::test::Fail;
use test_support::demand;
use walrus::passes::{Used, gc};
use walrus::{Error, ExportItem, FunctionId, FunctionKind, Module};
use walrus_test_support::{add_function, demand_output, is_as_before, shown};

// What is left of the module where nothing is exported: the function that nothing reaches.
const UNREACHED: &str = "00 61 73 6D 01 00 00 00 01 04 01 60 00 00 03 02 01 00 0A 04 01 02 00 0B";

// Adds an exported function, and one that nothing reaches.
fn add_exported(alloc: Global, module: &mut Module) -> Result<FunctionId, Error> {
    let exported = add_function(alloc, module)?;
    add_function(alloc, module)?;
    module.exports.add("f", ExportItem::Function(exported))?;
    Ok(exported)
}

fn is_dead(answer: Result<(), Error>) -> bool {
    matches!(answer, Err(Error::DeadItem))
}

fn is_searched(alloc: Global, module: &Module) -> Result<(), Error> {
    Used::new(alloc, module)?;
    Ok(())
}

fn is_emitted(alloc: Global, module: &mut Module) -> Result<(), Error> {
    module.emit_wasm(alloc)?;
    Ok(())
}

// Fails where a search, gc or emission doesn't find it dead, the two that might change something twice, or one of them changes something.
fn find(alloc: Global, module: &mut Module) -> Result<(), Fail> {
    let before = shown(alloc, module);
    demand(is_dead(is_searched(alloc, module)), "DeadItem of a search")?;
    let is_found = is_dead(gc::run(alloc, module)) && is_dead(is_emitted(alloc, module));
    demand(is_found, "DeadItem of gc and of emission")?;
    let is_found = is_dead(gc::run(alloc, module)) && is_dead(is_emitted(alloc, module));
    demand(is_found, "DeadItem of a second gc and a second emission")?;
    demand(is_as_before(alloc, module, &before), "the module as before")
}

// Fails where the function isn't found dead once it is deleted, or the rest isn't written once the export is gone too.
fn delete(alloc: Global, module: &mut Module) -> Result<(), Fail> {
    let exported = add_exported(alloc, module)?;
    if !module.funcs.contains(exported) {
        return demand(false, "the function");
    }
    module.funcs.delete(exported);
    find(alloc, module)?;
    module.exports.remove("f")?;
    demand_output(alloc, module.emit_wasm(alloc), UNREACHED)
}

#[test]
fn a_deleted_function_that_is_exported_is_found(rt: HostRuntime) -> Result<(), Fail> {
    let mut module = bare_module(rt.alloc())?;
    delete(rt.alloc(), &mut module)
}

fn lose_body(module: &mut Module, function: FunctionId) -> bool {
    if !module.funcs.contains(function) {
        return false;
    }
    let ty = module.funcs.get(function).ty();
    module.funcs.get_mut(function).kind = FunctionKind::Uninitialized(ty);
    true
}

// Fails where the function isn't found dead once it has no body.
fn find_without_body(alloc: Global, module: &mut Module) -> Result<(), Fail> {
    let exported = add_exported(alloc, module)?;
    demand(lose_body(module, exported), "the function")?;
    find(alloc, module)
}

#[test]
fn an_exported_function_without_a_body_is_found(rt: HostRuntime) -> Result<(), Fail> {
    let mut module = bare_module(rt.alloc())?;
    find_without_body(rt.alloc(), &mut module)
}
