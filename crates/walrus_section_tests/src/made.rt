//! The modules that the tests of custom sections and names begin with, and what gc leaves of one.

use crate::noted::{Noted, Refuses};
use std::alloc::Global;
use std::test::Fail;
use test_support::add_bytes;
use walrus::passes::gc;
use walrus::{Error, FunctionId, Module, ModuleConfig, ModuleFunctions, SectionEntry};
use walrus_test_support::demand_output;

// Two functions of one type, neither exported.
const TWO_FUNCTIONS: &str =
    "00 61 73 6D 01 00 00 00 01 04 01 60 00 00 03 03 02 00 00 0A 07 02 02 00 0B 02 00 0B";

/// The module that the text says, to be written without producers.
pub(crate) fn read(alloc: Global, text: &str) -> Result<Module, Error> {
    let mut bytes = Vec::new(alloc);
    add_bytes(&mut bytes, text);
    let mut config = ModuleConfig::new();
    config.generate_producers_section(false);
    Module::from_buffer_with_config(alloc, &bytes, &config)
}

/// Two functions of one type, neither exported; to be written without producers.
pub(crate) fn two_functions(alloc: Global) -> Result<Module, Error> {
    read(alloc, TWO_FUNCTIONS)
}

/// Fails where gc doesn't pass, or leaves what is written otherwise.
pub(crate) fn demand_left(alloc: Global, module: &mut Module, expected: &str) -> Result<(), Fail> {
    gc::run(alloc, module)?;
    demand_output(alloc, module.emit_wasm(alloc), expected)
}

/// Fails where the module isn't written so twice.
pub(crate) fn demand_twice(alloc: Global, module: &mut Module, expected: &str) -> Result<(), Fail> {
    demand_output(alloc, module.emit_wasm(alloc), expected)?;
    demand_output(alloc, module.emit_wasm(alloc), expected)
}

// The second function.
fn second(functions: &ModuleFunctions) -> Option<FunctionId> {
    let mut all = functions.iter();
    all.next()?;
    Some(all.next()?.id())
}

/// Adds a section of this name that keeps the second function, and answers whether it was added.
pub(crate) fn add_noted(
    alloc: Global,
    module: &mut Module,
    name: &'static str,
    refuses: Refuses,
) -> bool {
    let Some(function) = second(&module.funcs) else {
        return false;
    };
    let noted = Noted {
        alloc,
        name,
        function,
        refuses,
    };
    match Box::new(alloc, noted) {
        Ok(section) => module.customs.add(SectionEntry::Boxed(section)).is_ok(),
        Err(_) => false,
    }
}
