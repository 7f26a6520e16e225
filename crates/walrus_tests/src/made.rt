//! The module that tests of edits begin with, what gc leaves of one, and that what is dead is found.

use std::alloc::Global;
use std::test::Fail;
use test_support::demand;
use walrus::passes::gc;
use walrus::{Error, Module, ModuleConfig};
use walrus_test_support::demand_output;

/// A module that holds nothing, to be written without producers.
pub(crate) fn bare_module(alloc: Global) -> Result<Module, Error> {
    let mut config = ModuleConfig::new();
    config.generate_producers_section(false);
    Module::with_config(alloc, config)
}

/// Fails where gc doesn't pass, or leaves what is written otherwise.
pub(crate) fn demand_left(alloc: Global, module: &mut Module, expected: &str) -> Result<(), Fail> {
    gc::run(alloc, module)?;
    demand_output(alloc, module.emit_wasm(alloc), expected)
}

/// Fails where something dead isn't found by gc and by emission.
pub(crate) fn demand_dead(alloc: Global, module: &mut Module) -> Result<(), Fail> {
    demand(
        matches!(gc::run(alloc, module), Err(Error::DeadItem)),
        "DeadItem of gc",
    )?;
    demand(
        matches!(module.emit_wasm(alloc), Err(Error::DeadItem)),
        "DeadItem of emission",
    )
}
