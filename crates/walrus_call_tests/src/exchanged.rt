//! A function of another module in the place of one of this module.

use crate::made::read;
use std::alloc::Global;
use std::mem::swap;
use std::test::Fail;
use test_support::demand;
use walrus::passes::gc;
use walrus::{FunctionId, Module, ModuleFunctions};
use walrus_test_support::demand_output;

// Two functions, of which the first is exported.
const FIRST_EXPORTED: &str =
    "00 61 73 6D 01 00 00 00 01 04 01 60 00 00 03 03 02 00 00 07 05 01 01 61 00 00 0A 0A 02 02 00 0B 05 00 41 00 1A 0B";

// The same, where the second is exported.
const SECOND_EXPORTED: &str =
    "00 61 73 6D 01 00 00 00 01 04 01 60 00 00 03 03 02 00 00 07 05 01 01 61 00 01 0A 0A 02 02 00 0B 05 00 41 00 1A 0B";

// What is kept where the second stands in the place of the first.
const SECOND_ALONE: &str =
    "00 61 73 6D 01 00 00 00 01 04 01 60 00 00 03 02 01 00 07 05 01 01 61 00 00 0A 07 01 05 00 41 00 1A 0B";

fn exchange(
    functions: &mut ModuleFunctions,
    first: FunctionId,
    others: &mut ModuleFunctions,
    second: FunctionId,
) -> bool {
    if !functions.contains(first) || !others.contains(second) {
        return false;
    }
    swap(functions.get_mut(first), others.get_mut(second));
    true
}

// Fails where a function of another module, with its own id there, doesn't stand for the exported one in whose place it is.
fn stand_in_its_place(alloc: Global, module: &mut Module, other: &mut Module) -> Result<(), Fail> {
    let first = module.exports.get_func("a")?;
    let second = other.exports.get_func("a")?;
    demand(
        exchange(&mut module.funcs, first, &mut other.funcs, second),
        "an exchange",
    )?;
    gc::run(alloc, module)?;
    demand_output(alloc, module.emit_wasm(alloc), SECOND_ALONE)
}

fn exchange_with_another(alloc: Global, module: &mut Module) -> Result<(), Fail> {
    let mut other = read(alloc, SECOND_EXPORTED)?;
    stand_in_its_place(alloc, module, &mut other)
}

#[test]
fn a_function_of_another_module(rt: HostRuntime) -> Result<(), Fail> {
    let mut module = read(rt.alloc(), FIRST_EXPORTED)?;
    exchange_with_another(rt.alloc(), &mut module)
}
