//! Functions that a program builds with a local which their type or the module doesn't have.

use crate::page::Page;
use test_support::second_id;
use walrus::{ExportItem, FunctionBuilder, Module, Result, ValType};

/// Adds an exported function of a type without parameters, which has an argument all the same.
pub fn argument_without_parameter<S>(page: &mut Page, module: &mut Module<S>) -> Result<()> {
    let builder = FunctionBuilder::new(page.alloc(), &mut module.types, &[], &[])?;
    let mut arguments = Vec::new(page.alloc());
    arguments.push(module.locals.add(ValType::I32)?)?;
    let local = builder.local_func(arguments)?;
    let function = module.funcs.add_local(local)?;
    module.exports.add("f", ExportItem::Function(function))?;
    Ok(())
}

/// Adds an exported function that reads a second local, of which the module has one.
pub fn local_past_the_last<S>(page: &mut Page, module: &mut Module<S>) -> Result<()> {
    module.locals.add(ValType::I32)?;
    let mut builder = FunctionBuilder::new(page.alloc(), &mut module.types, &[], &[])?;
    builder.func_body().local_get(second_id(page.alloc()))?;
    let local = builder.local_func(Vec::new(page.alloc()))?;
    let function = module.funcs.add_local(local)?;
    module.exports.add("f", ExportItem::Function(function))?;
    Ok(())
}
