//! The producers section of a module that was read: its fields stay in their order, a value is put into the first field of its name,
//! and this program stands behind them.

use std::alloc::Global;
use std::test::Fail;
use test_support::add_bytes;
use walrus::{Error, Module};
use walrus_test_support::demand_output;

// Two fields `sdk`: a of version 1, and a of version 2.
const TWO_FIELDS: &str =
    "00 61 73 6D 01 00 00 00 00 1D 09 70 72 6F 64 75 63 65 72 73 02 03 73 64 6B 01 01 61 01 31 03 73 64 6B 01 01 61 01 32";

// The first has version 3, and walrus 0.28.0 stands in `processed-by` behind both.
const PUT_IN: &str =
    "00 61 73 6D 01 00 00 00 00 39 09 70 72 6F 64 75 63 65 72 73 03 03 73 64 6B 01 01 61 01 33 03 73 64 6B 01 01 61 01 32 0C 70 72 6F 63 65 73 73 65 64 2D 62 79 01 06 77 61 6C 72 75 73 06 30 2E 32 38 2E 30";

fn read_with_producers(alloc: Global) -> Result<Module, Error> {
    let mut bytes = Vec::new(alloc);
    add_bytes(&mut bytes, TWO_FIELDS);
    Module::from_buffer(alloc, &bytes)
}

fn put_in(alloc: Global, module: &mut Module) -> Result<(), Fail> {
    module.producers.add_sdk("a", "3")?;
    demand_output(alloc, module.emit_wasm(alloc), PUT_IN)
}

#[test]
fn a_value_goes_into_the_first_field(rt: HostRuntime) -> Result<(), Fail> {
    let mut module = read_with_producers(rt.alloc())?;
    put_in(rt.alloc(), &mut module)
}
