//! What scenes make, and how they look at it.

use std::alloc::Global;
use test_support::is_text;
use walrus::{Error, Export, ExportId, FunctionBuilder, FunctionId, Module, ModuleExports, Result};

/// Adds a function that makes a number and drops it.
pub fn add_number<S>(alloc: Global, module: &mut Module<S>) -> Result<FunctionId> {
    let mut builder = FunctionBuilder::new(alloc, &mut module.types, &[], &[])?;
    builder.func_body().i32_const(1234)?.drop_()?;
    let local = builder.local_func(Vec::new(alloc))?;
    module.funcs.add_local(local)
}

/// What a caller's closure answers that refuses with the text `no`.
pub fn no(alloc: Global) -> Result<()> {
    Err(Error::Caller(String::from_str(alloc, "no")?))
}

/// Whether what was found is the export of this id and name.
pub fn is_export(found: Option<&Export>, id: ExportId, name: &str) -> bool {
    match found {
        Some(export) => export.id() == id && is_text(&export.name, name),
        None => false,
    }
}

/// Takes the export of this id away, if it is there.
pub fn take_away(exports: &mut ModuleExports, id: ExportId) {
    if exports.contains(id) {
        exports.delete(id);
    }
}
