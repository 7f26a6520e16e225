//! The library as its users call it.

use crate::made::read;
use std::alloc::Global;
use std::test::Fail;
use test_support::{add_bytes, are, demand};
use walrus::law::written_as_parsed;
use walrus::passes::{Used, gc};
use walrus::{Error, FunctionId, Module, ModuleConfig};
use walrus_test_support::demand_output;

const EMPTY: &str = "00 61 73 6D 01 00 00 00";

// Two empty functions, of which the second is exported, and what comes of them.
const INPUT: &str =
    "00 61 73 6D 01 00 00 00 01 04 01 60 00 00 03 03 02 00 00 07 05 01 01 66 00 01 0A 07 02 02 00 0B 02 00 0B";

const OUTPUT: &str =
    "00 61 73 6D 01 00 00 00 01 04 01 60 00 00 03 02 01 00 07 05 01 01 66 00 00 0A 04 01 02 00 0B";

fn is_used(alloc: Global, module: &Module, function: FunctionId) -> bool {
    match Used::new(alloc, module) {
        Ok(used) => used.funcs.contains(function),
        Err(_) => false,
    }
}

// Fails where the module isn't written as it was read, or, once the other function is dropped, twice as the same.
fn drop_the_other(alloc: Global, module: &mut Module) -> Result<(), Fail> {
    let exported = module.exports.get_func("f")?;
    demand_output(alloc, module.emit_wasm(alloc), INPUT)?;
    demand(is_used(alloc, module, exported), "used: the exported one")?;
    gc::run(alloc, module)?;
    demand_output(alloc, module.emit_wasm(alloc), OUTPUT)?;
    demand_output(alloc, module.emit_wasm(alloc), OUTPUT)
}

// Fails where something stays though nothing is exported.
fn drop_all(alloc: Global, module: &mut Module) -> Result<(), Fail> {
    module.exports.remove("f")?;
    gc::run(alloc, module)?;
    demand_output(alloc, module.emit_wasm(alloc), EMPTY)
}

fn drop_in_turn(alloc: Global, module: &mut Module) -> Result<(), Fail> {
    drop_the_other(alloc, module)?;
    drop_all(alloc, module)
}

#[test]
fn reads_drops_and_writes(rt: HostRuntime) -> Result<(), Fail> {
    let mut module = read(rt.alloc(), INPUT)?;
    drop_in_turn(rt.alloc(), &mut module)
}

// What the module that the text says is written as, in which nothing dead is looked for.
fn written_whole(alloc: Global, text: &str) -> Result<Vec<u8>, Error> {
    let mut bytes = Vec::new(alloc);
    add_bytes(&mut bytes, text);
    let mut config = ModuleConfig::new();
    config.generate_producers_section(false);
    let mut module = config.parse(alloc, &bytes)?;
    module.emit_whole(alloc)
}

// The same of bytes that are handed over.
fn handed_over(alloc: Global, text: &str) -> Result<Vec<u8>, Error> {
    let mut bytes = Vec::new(alloc);
    add_bytes(&mut bytes, text);
    let mut config = ModuleConfig::new();
    config.generate_producers_section(false);
    let mut module = config.parse_whole(alloc, bytes)?;
    module.emit_wasm(alloc)
}

// The same by the one call that reads and writes.
fn written_at_once(alloc: Global, text: &str) -> Result<Vec<u8>, Error> {
    let mut bytes = Vec::new(alloc);
    add_bytes(&mut bytes, text);
    let mut config = ModuleConfig::new();
    config.generate_producers_section(false);
    written_as_parsed(alloc, &bytes, &config)
}

#[test]
fn what_was_read_is_written_whole(rt: HostRuntime) -> Result<(), Fail> {
    let alloc = rt.alloc();
    demand_output(alloc, written_whole(alloc, INPUT), INPUT)?;
    demand_output(alloc, written_at_once(alloc, INPUT), INPUT)
}

// An exported function of 41 nops, so that most bytes are a body.
const MOSTLY_BODY: &str =
    "00 61 73 6D 01 00 00 00 01 04 01 60 00 00 03 02 01 00 07 05 01 01 66 00 00 0A 2D 01 2B 00 01 01 01 01 01 01 01 01 01 01 01 01 01 01 01 01 01 01 01 01 01 01 01 01 01 01 01 01 01 01 01 01 01 01 01 01 01 01 01 01 01 0B";

#[test]
fn what_is_handed_over_is_written_whole(rt: HostRuntime) -> Result<(), Fail> {
    let alloc = rt.alloc();
    demand_output(alloc, handed_over(alloc, INPUT), INPUT)?;
    demand_output(alloc, handed_over(alloc, MOSTLY_BODY), MOSTLY_BODY)
}

// Two equal types, a function of each, which are exported as a and b.
const TWO_TYPES: &str =
    "00 61 73 6D 01 00 00 00 01 07 02 60 00 00 60 00 00 03 03 02 00 01 07 09 02 01 61 00 00 01 62 00 01 0A 07 02 02 00 0B 02 00 0B";

// The same with one type for both functions.
const ONE_TYPE: &str =
    "00 61 73 6D 01 00 00 00 01 04 01 60 00 00 03 03 02 00 00 07 09 02 01 61 00 00 01 62 00 01 0A 07 02 02 00 0B 02 00 0B";

fn has_one_type_or_both(alloc: Global, module: &mut Module) -> bool {
    match module.emit_wasm(alloc) {
        Ok(bytes) => are(alloc, &bytes, ONE_TYPE) || are(alloc, &bytes, TWO_TYPES),
        Err(_) => false,
    }
}

fn keep_equal_types(alloc: Global, module: &mut Module) -> Result<(), Fail> {
    gc::run(alloc, module)?;
    demand(
        has_one_type_or_both(alloc, module),
        "the functions a and b in order, of two equal types or of one",
    )
}

#[test]
fn equal_types(rt: HostRuntime) -> Result<(), Fail> {
    let mut module = read(rt.alloc(), TWO_TYPES)?;
    keep_equal_types(rt.alloc(), &mut module)
}
