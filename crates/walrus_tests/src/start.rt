//! The start function of a module that a program edits: it stays with all that it calls, and one that was deleted is found.

use crate::made::{bare_module, demand_dead, demand_left};
use std::alloc::Global;
use std::test::Fail;
use test_support::demand;
use walrus::{Error, FunctionId, Module};
use walrus_test_support::add_function;

// One function, the start function.
const ONE_START: &str =
    "00 61 73 6D 01 00 00 00 01 04 01 60 00 00 03 02 01 00 08 01 00 0A 04 01 02 00 0B";

// Such a module, whose second function is the start function, with the ids of both.
fn with_start(alloc: Global) -> Result<(Module, FunctionId, FunctionId), Error> {
    let mut module = bare_module(alloc)?;
    let other = add_function(alloc, &mut module)?;
    let start = add_function(alloc, &mut module)?;
    module.start = Some(start);
    Ok((module, other, start))
}

// Fails where gc doesn't keep the start function alone.
fn keep_start(
    alloc: Global,
    module: &mut Module,
    other: FunctionId,
    start: FunctionId,
) -> Result<(), Fail> {
    demand_left(alloc, module, ONE_START)?;
    demand(module.start == Some(start), "the start function")?;
    demand(module.funcs.contains(start), "its id")?;
    demand(!module.funcs.contains(other), "not the other one")
}

#[test]
fn the_start_function_stays(rt: HostRuntime) -> Result<(), Fail> {
    let (mut module, other, start) = with_start(rt.alloc())?;
    keep_start(rt.alloc(), &mut module, other, start)
}

// Fails where a start function that is deleted isn't found by gc and by emission, or is missed where there is none.
fn delete_start(alloc: Global, module: &mut Module, start: FunctionId) -> Result<(), Fail> {
    if !module.funcs.contains(start) {
        return demand(false, "the start function");
    }
    module.funcs.delete(start);
    demand_dead(alloc, module)?;
    module.start = None;
    module.emit_wasm(alloc)?;
    Ok(())
}

#[test]
fn a_deleted_start_function_is_found(rt: HostRuntime) -> Result<(), Fail> {
    let (mut module, _other, start) = with_start(rt.alloc())?;
    delete_start(rt.alloc(), &mut module, start)
}
