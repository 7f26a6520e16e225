//! Names that were read, as a program finds them: by name, and with the items.

use crate::made::read;
use crate::names::ALL;
use std::alloc::Global;
use std::test::Fail;
use test_support::{demand, is_name};
use walrus::passes::gc;
use walrus::{
    Module, ModuleData, ModuleElements, ModuleGlobals, ModuleLocals, ModuleMemories, ModuleTables,
    ModuleTypes,
};

fn finds_functions(module: &Module) -> bool {
    match module.exports.get_func("f") {
        Ok(function) => {
            module.funcs.by_name("large") == Some(function)
                && module.funcs.by_name("i").is_some()
                && module.funcs.by_name("f").is_none()
        }
        Err(_) => false,
    }
}

// Whether the first of a kind has this name.
fn is_first_type(types: &ModuleTypes, name: &str) -> bool {
    match types.iter().next() {
        Some(first) => is_name(&first.name, name),
        None => false,
    }
}

fn is_first_table(tables: &ModuleTables, name: &str) -> bool {
    match tables.iter().next() {
        Some(first) => is_name(&first.name, name),
        None => false,
    }
}

fn is_first_memory(memories: &ModuleMemories, name: &str) -> bool {
    match memories.iter().next() {
        Some(first) => is_name(&first.name, name),
        None => false,
    }
}

fn is_first_global(globals: &ModuleGlobals, name: &str) -> bool {
    match globals.iter().next() {
        Some(first) => is_name(&first.name, name),
        None => false,
    }
}

fn is_first_local(locals: &ModuleLocals, name: &str) -> bool {
    match locals.iter().next() {
        Some(first) => is_name(&first.name, name),
        None => false,
    }
}

fn is_first_element(elements: &ModuleElements, name: &str) -> bool {
    match elements.iter().next() {
        Some(first) => is_name(&first.name, name),
        None => false,
    }
}

fn is_first_data(segments: &ModuleData, name: &str) -> bool {
    match segments.iter().next() {
        Some(first) => is_name(&first.name, name),
        None => false,
    }
}

// Whether the first type, table, memory and global have these names.
fn first_are_named(module: &Module, ty: &str, table: &str, memory: &str, global: &str) -> bool {
    is_first_type(&module.types, ty)
        && is_first_table(&module.tables, table)
        && is_first_memory(&module.memories, memory)
        && is_first_global(&module.globals, global)
}

// The same of the first local and the first segments.
fn others_are_named(module: &Module, local: &str, elements: &str, data: &str) -> bool {
    is_first_local(&module.locals, local)
        && is_first_element(&module.elements, elements)
        && is_first_data(&module.data_, data)
}

// Fails where not all is found, also what nothing reaches.
fn find_all(module: &Module) -> Result<(), Fail> {
    demand(is_name(&module.name, "m"), "the module's name")?;
    demand(finds_functions(module), "functions")?;
    demand(module.funcs.by_name("dead").is_some(), "the dead one")?;
    demand(
        first_are_named(module, "gone", "t0", "m0", "g0"),
        "the first type, table, memory and global",
    )?;
    demand(
        others_are_named(module, "p", "e0", "d0"),
        "the first local and segments",
    )
}

// The same, once what nothing reaches is dropped.
fn find_reached(module: &Module) -> Result<(), Fail> {
    demand(is_name(&module.name, "m"), "the module's name behind gc")?;
    demand(finds_functions(module), "functions behind gc")?;
    demand(module.funcs.by_name("dead").is_none(), "no dead one")?;
    demand(
        first_are_named(module, "tv", "t", "mem", "g"),
        "the first type, table, memory and global behind gc",
    )?;
    demand(
        others_are_named(module, "p", "e", "d"),
        "the first local and segments behind gc",
    )
}

fn find_in_turn(alloc: Global, module: &mut Module) -> Result<(), Fail> {
    find_all(module)?;
    gc::run(alloc, module)?;
    find_reached(module)
}

#[test]
fn names_are_found(rt: HostRuntime) -> Result<(), Fail> {
    let mut module = read(rt.alloc(), ALL)?;
    find_in_turn(rt.alloc(), &mut module)
}
