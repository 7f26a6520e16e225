//! The module that the tests of element segments begin with, what they add to it, and that gc finds what is dead.

use std::alloc::Global;
use walrus::passes::gc;
use walrus::{
    ConstExpr, ElementId, ElementItems, ElementKind, Error, Module, ModuleConfig, TableId, Value,
};
use walrus_test_support::{add_function, is_as_before, listed, shown};

/// A module that holds nothing, to be written without producers.
pub(crate) fn bare_module(alloc: Global) -> Result<Module, Error> {
    let mut config = ModuleConfig::new();
    config.generate_producers_section(false);
    Module::with_config(alloc, config)
}

/// Adds a function that does nothing, and answers the items of a segment that lists it alone.
pub(crate) fn add_listed(alloc: Global, module: &mut Module) -> Result<ElementItems, Error> {
    let function = add_function(alloc, module)?;
    listed(alloc, function)
}

/// Adds a segment of these items that is active in the table, behind so many of its places.
pub(crate) fn add_active(
    module: &mut Module,
    table: TableId,
    start: Value,
    items: ElementItems,
) -> Result<ElementId, Error> {
    let offset = ConstExpr::Value(start);
    module
        .elements
        .add(ElementKind::Active { table, offset }, items)
}

/// Whether gc refuses since something is dead, and leaves the module as it was.
pub(crate) fn gc_finds_dead(alloc: Global, module: &mut Module) -> bool {
    let before = shown(alloc, module);
    matches!(gc::run(alloc, module), Err(Error::DeadItem)) && is_as_before(alloc, module, &before)
}
