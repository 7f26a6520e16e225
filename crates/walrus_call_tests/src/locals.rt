//! Functions that a program builds with a local which their type or the module doesn't have.

use crate::made::bare_module;
use std::alloc::Global;
use std::test::Fail;
use test_support::{demand, second_id};
use walrus::passes::{Used, gc};
use walrus::{Error, FunctionBuilder, LocalId, Module, ValType};

// Adds an exported function of a type without parameters, which has an argument all the same.
fn add_with_argument(alloc: Global, module: &mut Module) -> Result<(), Error> {
    let builder = FunctionBuilder::new(alloc, &mut module.types, &[], &[])?;
    let mut arguments = Vec::new(alloc);
    arguments.push(module.locals.add(ValType::I32)?)?;
    let local = builder.local_func(arguments)?;
    let function = module.funcs.add_local(local)?;
    module.exports.add("f", function.into())?;
    Ok(())
}

// Fails where gc doesn't pass, or the function is written.
fn argument_without_parameter(alloc: Global, module: &mut Module) -> Result<(), Fail> {
    add_with_argument(alloc, module)?;
    gc::run(alloc, module)?;
    demand(
        matches!(module.emit_wasm(alloc), Err(Error::NotWritable)),
        "an argument without a parameter: NotWritable",
    )
}

#[test]
fn an_argument_without_a_parameter(rt: HostRuntime) -> Result<(), Fail> {
    let mut module = bare_module(rt.alloc())?;
    argument_without_parameter(rt.alloc(), &mut module)
}

// Adds an exported function that reads this local.
fn add_reading(alloc: Global, module: &mut Module, local: LocalId) -> Result<(), Error> {
    let mut builder = FunctionBuilder::new(alloc, &mut module.types, &[], &[])?;
    builder.func_body().local_get(local)?;
    let body = builder.local_func(Vec::new(alloc))?;
    let function = module.funcs.add_local(body)?;
    module.exports.add("f", function.into())?;
    Ok(())
}

fn is_found_by_search(alloc: Global, module: &Module) -> bool {
    matches!(Used::new(alloc, module), Err(Error::DeadItem))
}

fn is_found_by_emission(alloc: Global, module: &mut Module) -> bool {
    matches!(
        module.emit_wasm(alloc),
        Err(Error::DeadItem | Error::NotWritable)
    )
}

// Fails where a search, gc or emission doesn't find that the local isn't there.
fn local_past_the_last(alloc: Global, module: &mut Module) -> Result<(), Fail> {
    module.locals.add(ValType::I32)?;
    add_reading(alloc, module, second_id(alloc))?;
    demand(is_found_by_search(alloc, module), "DeadItem of a search")?;
    demand(
        matches!(gc::run(alloc, module), Err(Error::DeadItem)),
        "DeadItem of gc",
    )?;
    demand(is_found_by_emission(alloc, module), "emission finds it")
}

#[test]
fn a_local_past_the_last(rt: HostRuntime) -> Result<(), Fail> {
    let mut module = bare_module(rt.alloc())?;
    local_past_the_last(rt.alloc(), &mut module)
}
