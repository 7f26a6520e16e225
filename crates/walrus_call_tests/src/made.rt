//! The modules that these tests begin with.

use std::alloc::Global;
use test_support::add_bytes;
use walrus::{Error, Module, ModuleConfig};

/// A module that holds nothing, to be written without producers.
pub(crate) fn bare_module(alloc: Global) -> Result<Module, Error> {
    let mut config = ModuleConfig::new();
    config.generate_producers_section(false);
    Module::with_config(alloc, config)
}

/// The module that the text says, to be written without producers.
pub(crate) fn read(alloc: Global, text: &str) -> Result<Module, Error> {
    let mut bytes = Vec::new(alloc);
    add_bytes(&mut bytes, text);
    let mut config = ModuleConfig::new();
    config.generate_producers_section(false);
    config.parse(alloc, &bytes)
}
