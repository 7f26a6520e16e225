//! Imports: of a function of the module's own, found by their names, and a replacement that its closure refuses.

use crate::made::{add_number, no};
use crate::page::Page;
use std::alloc::Global;
use walrus::{
    ConstExpr, FunctionId, FunctionKind, ImportId, ImportKind, InstrSeqBuilder, LocalId, Module,
    ModuleFunctions, ModuleImports, Result, ValType, Value,
};

fn is_function(answer: Result<FunctionId>, id: FunctionId) -> bool {
    match answer {
        Ok(found) => found == id,
        Err(_) => false,
    }
}

/// Adds a function with a body, which an import names.
pub fn import_local<S>(page: &mut Page, module: &mut Module<S>) -> Result<()> {
    let function = add_number(page.alloc(), module)?;
    module
        .imports
        .add("mod", "dummy", ImportKind::Function(function))?;
    let is_imported = module.imports.get_imported_func(function).is_some();
    page.holds("an import of the function is found", is_imported)?;
    let is_found = is_function(module.imports.get_func("mod", "dummy"), function);
    page.holds("the function is found by the names", is_found)
}

fn take_away(imports: &mut ModuleImports, id: ImportId) {
    if imports.contains(id) {
        imports.delete(id);
    }
}

/// Adds an import, and tells whether it is found by its names, also once another one is deleted.
pub fn find_import<S>(page: &mut Page, module: &mut Module<S>) -> Result<()> {
    let one = ConstExpr::Value(Value::I32(1));
    let global = module.globals.add_local(ValType::I32, false, false, one)?;
    let other = module
        .imports
        .add("m", "other", ImportKind::Global(global))?;
    page.holds(
        "an import of these names is found",
        module.imports.find("m", "n").is_some(),
    )?;
    let id = module.imports.add("m", "n", ImportKind::Global(global))?;
    page.holds(
        "the new one is found",
        module.imports.find("m", "n") == Some(id),
    )?;
    take_away(&mut module.imports, other);
    page.holds(
        "the other one is found",
        module.imports.find("m", "other").is_some(),
    )?;
    page.holds(
        "the new one is found",
        module.imports.find("m", "n") == Some(id),
    )
}

/// Imports a function.
pub fn import_function<S>(module: &mut Module<S>) -> Result<()> {
    let ty = module.types.add(&[], &[])?;
    module.add_import_func("m", "f", ty)?;
    Ok(())
}

fn replaced<S>(alloc: Global, module: &mut Module<S>, id: FunctionId) -> Result<FunctionId> {
    module.replace_imported_func(
        alloc,
        id,
        |_body: &mut InstrSeqBuilder, _args: &Vec<LocalId>| -> Result<()> { no(alloc) },
    )
}

fn is_imported(functions: &ModuleFunctions, id: FunctionId) -> bool {
    functions.contains(id) && matches!(functions.get(id).kind, FunctionKind::Import(_))
}

/// Tells why the imported function isn't replaced where the closure that builds another one refuses.
pub fn refuse_imported<S>(page: &mut Page, module: &mut Module<S>) -> Result<()> {
    let id = module.imports.get_func("m", "f")?;
    let answer = replaced(page.alloc(), module, id);
    page.ended("the closure's answer", answer)?;
    page.holds("the function is imported", is_imported(&module.funcs, id))?;
    page.holds(
        "the import is there",
        is_function(module.imports.get_func("m", "f"), id),
    )
}
