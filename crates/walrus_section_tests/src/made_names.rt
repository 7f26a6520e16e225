//! Names that are made of indices, for functions and locals that have none.

use crate::made::demand_left;
use std::alloc::Global;
use std::test::Fail;
use test_support::{add_bytes, demand};
use walrus::{Error, Module, ModuleConfig};

// Modules, and what they are written as, once they are read so and what nothing reaches is dropped.
const ROWS: [(&str, &str); 4] = [
    // two functions, of which the second is exported
    (
        "00 61 73 6D 01 00 00 00 01 04 01 60 00 00 03 03 02 00 00 07 05 01 01 66 00 01 0A 07 02 02 00 0B 02 00 0B",
        "00 61 73 6D 01 00 00 00 01 04 01 60 00 00 03 02 01 00 07 05 01 01 66 00 00 0A 04 01 02 00 0B 00 0C 04 6E 61 6D 65 01 05 01 00 02 66 31",
    ),
    // an imported function, and one with two parameters and two other locals, of each of which it uses the second
    (
        "00 61 73 6D 01 00 00 00 01 09 02 60 00 00 60 02 7F 7F 00 02 07 01 01 65 01 69 00 00 03 02 01 01 07 05 01 01 66 00 01 0A 0E 01 0C 02 01 7E 01 7F 20 01 21 03 10 00 0B",
        "00 61 73 6D 01 00 00 00 01 09 02 60 00 00 60 02 7F 7F 00 02 07 01 01 65 01 69 00 00 03 02 01 01 07 05 01 01 66 00 01 0A 0C 01 0A 01 01 7F 20 01 21 02 10 00 0B 00 1B 04 6E 61 6D 65 01 05 01 01 02 66 31 02 0D 01 01 02 01 04 61 72 67 31 02 02 6C 33",
    ),
    // the same, where the function is called `a` and the last local `x`, and the parameter has a name without letters
    (
        "00 61 73 6D 01 00 00 00 01 09 02 60 00 00 60 02 7F 7F 00 02 07 01 01 65 01 69 00 00 03 02 01 01 07 05 01 01 66 00 01 0A 0E 01 0C 02 01 7E 01 7F 20 01 21 03 10 00 0B 00 15 04 6E 61 6D 65 01 04 01 01 01 61 02 08 01 01 02 01 00 03 01 78",
        "00 61 73 6D 01 00 00 00 01 09 02 60 00 00 60 02 7F 7F 00 02 07 01 01 65 01 69 00 00 03 02 01 01 07 05 01 01 66 00 01 0A 0C 01 0A 01 01 7F 20 01 21 02 10 00 0B 00 19 04 6E 61 6D 65 01 04 01 01 01 61 02 0C 01 01 02 01 04 61 72 67 31 02 01 78",
    ),
    // the same, where the function has a name without letters, which stays
    (
        "00 61 73 6D 01 00 00 00 01 09 02 60 00 00 60 02 7F 7F 00 02 07 01 01 65 01 69 00 00 03 02 01 01 07 05 01 01 66 00 01 0A 0E 01 0C 02 01 7E 01 7F 20 01 21 03 10 00 0B 00 0A 04 6E 61 6D 65 01 03 01 01 00",
        "00 61 73 6D 01 00 00 00 01 09 02 60 00 00 60 02 7F 7F 00 02 07 01 01 65 01 69 00 00 03 02 01 01 07 05 01 01 66 00 01 0A 0C 01 0A 01 01 7F 20 01 21 02 10 00 0B 00 19 04 6E 61 6D 65 01 03 01 01 00 02 0D 01 01 02 01 04 61 72 67 31 02 02 6C 33",
    ),
];

fn read(alloc: Global, input: &str) -> Result<Module, Error> {
    let mut bytes = Vec::new(alloc);
    add_bytes(&mut bytes, input);
    let mut config = ModuleConfig::new();
    config
        .generate_producers_section(false)
        .generate_synthetic_names_for_anonymous_items(true);
    Module::from_buffer_with_config(alloc, &bytes, &config)
}

fn demand_named(alloc: Global, input: &str, output: &str) -> Result<(), Fail> {
    let Ok(mut module) = read(alloc, input) else {
        return demand(false, input);
    };
    demand_left(alloc, &mut module, output)
}

#[test]
fn names_are_made(rt: HostRuntime) -> Result<(), Fail> {
    for (input, output) in &ROWS {
        demand_named(rt.alloc(), input, output)?;
    }
    Ok(())
}
