//! The body of a function of another module in the place of one of this module: it is written by the locals and memories that are there.

use crate::made::read;
use std::alloc::Global;
use std::mem::swap;
use std::test::Fail;
use test_support::demand;
use walrus::{Error, FunctionId, ModuleFunctions};
use walrus_test_support::demand_output;

// Two locals of i32, one used before the other.
const TWO_OF_I32: &str =
    "00 61 73 6D 01 00 00 00 01 04 01 60 00 00 03 02 01 00 07 05 01 01 66 00 00 0A 0C 01 0A 01 02 7F 20 00 1A 20 01 1A 0B";

// A local of f64, and behind it one of i32, which is used first.
const F64_AND_I32: &str =
    "00 61 73 6D 01 00 00 00 01 04 01 60 00 00 03 02 01 00 07 05 01 01 66 00 00 0A 0E 01 0C 02 01 7C 01 7F 20 01 1A 20 00 1A 0B";

// The first body over the other's locals: i32 stands in front of f64 where it is written.
const RENUMBERED: &str =
    "00 61 73 6D 01 00 00 00 01 04 01 60 00 00 03 02 01 00 07 05 01 01 66 00 00 0A 0E 01 0C 02 01 7F 01 7C 20 01 1A 20 00 1A 0B";

// One local of i32.
const ONE_OF_I32: &str =
    "00 61 73 6D 01 00 00 00 01 04 01 60 00 00 03 02 01 00 07 05 01 01 66 00 00 0A 09 01 07 01 01 7F 20 00 1A 0B";

// A memory, from which a body loads.
const LOADS: &str =
    "00 61 73 6D 01 00 00 00 01 04 01 60 00 00 03 02 01 00 05 03 01 00 01 07 05 01 01 66 00 00 0A 0A 01 08 00 41 00 28 02 00 1A 0B";

// A memory, and a body that does nothing.
const IDLE: &str =
    "00 61 73 6D 01 00 00 00 01 04 01 60 00 00 03 02 01 00 05 03 01 00 01 07 05 01 01 66 00 00 0A 04 01 02 00 0B";

// The body that loads where a memory is imported: its own one is the second.
const LOADS_FROM_SECOND: &str =
    "00 61 73 6D 01 00 00 00 01 04 01 60 00 00 02 08 01 01 6D 01 79 02 00 01 03 02 01 00 05 03 01 00 01 07 05 01 01 66 00 00 0A 0B 01 09 00 41 00 28 42 01 00 1A 0B";

// The bodies of the first functions of two modules change their places; answers whether both are there.
fn cross(functions: &mut ModuleFunctions, others: &mut ModuleFunctions) -> bool {
    let id = FunctionId::at(0);
    if !functions.contains(id) || !others.contains(id) {
        return false;
    }
    swap(
        &mut functions.get_mut(id).kind,
        &mut others.get_mut(id).kind,
    );
    true
}

// The body of the first function of one text in the place of that of another one, which is written.
fn written(alloc: Global, first: &str, second: &str) -> Result<Result<Vec<u8>, Error>, Fail> {
    let mut from = read(alloc, first)?;
    let mut to = read(alloc, second)?;
    demand(cross(&mut from.funcs, &mut to.funcs), "an exchange")?;
    Ok(to.emit_wasm(alloc))
}

#[test]
fn locals_of_other_types(rt: HostRuntime) -> Result<(), Fail> {
    let output = written(rt.alloc(), TWO_OF_I32, F64_AND_I32)?;
    demand_output(rt.alloc(), output, RENUMBERED)
}

#[test]
fn locals_that_are_not_there(rt: HostRuntime) -> Result<(), Fail> {
    let output = written(rt.alloc(), TWO_OF_I32, ONE_OF_I32)?;
    demand(output.is_err(), "no module where a local isn't there")
}

#[test]
fn a_memory_that_is_not_there(rt: HostRuntime) -> Result<(), Fail> {
    let output = written(rt.alloc(), LOADS, ONE_OF_I32)?;
    demand(output.is_err(), "no module where the memory isn't there")
}

#[test]
fn the_same_memory(rt: HostRuntime) -> Result<(), Fail> {
    let output = written(rt.alloc(), LOADS, IDLE)?;
    demand_output(rt.alloc(), output, LOADS)
}

#[test]
fn a_memory_in_front(rt: HostRuntime) -> Result<(), Fail> {
    let mut from = read(rt.alloc(), LOADS)?;
    let mut to = read(rt.alloc(), IDLE)?;
    demand(cross(&mut from.funcs, &mut to.funcs), "an exchange")?;
    let _added = to.add_import_memory("m", "y", false, false, 1, None, None)?;
    demand_output(rt.alloc(), to.emit_wasm(rt.alloc()), LOADS_FROM_SECOND)
}
