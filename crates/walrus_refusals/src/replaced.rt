//! What scenes replace: the first function, exported or imported.

use crate::adds::first_function;
use crate::steps::Kind;
use std::alloc::Global;
use walrus::{FunctionId, ImportId, InstrSeqBuilder, LocalId, Module, Result};

// Makes a number and drops it.
fn put_dropped(body: &mut InstrSeqBuilder) -> Result<()> {
    body.i32_const(4321)?;
    body.drop_()?;
    Ok(())
}

fn replace_exported<S>(
    alloc: Global,
    module: &mut Module<S>,
    id: FunctionId,
) -> Result<FunctionId> {
    module.replace_exported_func(
        alloc,
        id,
        |body: &mut InstrSeqBuilder, _args: &Vec<LocalId>| -> Result<()> { put_dropped(body) },
    )
}

fn replace_imported<S>(
    alloc: Global,
    module: &mut Module<S>,
    id: FunctionId,
) -> Result<FunctionId> {
    module.replace_imported_func(
        alloc,
        id,
        |body: &mut InstrSeqBuilder, _args: &Vec<LocalId>| -> Result<()> { put_dropped(body) },
    )
}

/// Replaces the function of the first import by one that makes a number and drops it.
pub fn replace_brought<S>(alloc: Global, module: &mut Module<S>) -> Result<FunctionId> {
    module.replace_import(
        alloc,
        ImportId::at(0),
        |body: &mut InstrSeqBuilder, _args: &Vec<LocalId>| -> Result<()> { put_dropped(body) },
    )
}

/// Replaces the first function by one that makes a number and drops it: an exported one, or else an imported one.
pub fn replace<S>(alloc: Global, module: &mut Module<S>, kind: Kind) -> Result<FunctionId> {
    let id = first_function(&module.funcs)?;
    match kind {
        Kind::Export => replace_exported(alloc, module, id),
        _ => replace_imported(alloc, module, id),
    }
}
