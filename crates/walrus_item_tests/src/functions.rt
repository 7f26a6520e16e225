//! Functions, and where they come from.

use std::alloc::{AllocError, Global};
use std::test::Fail;
use test_support::{demand, first_id, second_id};
use walrus_base::{FunctionId, ImportId, TypeId};
use walrus_ir::LocalFunction;
use walrus_items::{FunctionKind, ImportedFunction, ModuleFunctions};

fn called_f(alloc: Global) -> Result<LocalFunction, AllocError> {
    let name = Some(String::from_str(alloc, "f")?);
    let ty = second_id(alloc);
    LocalFunction::new(alloc, ty, Vec::new(alloc), Vec::new(alloc), name)
}

fn is_of_type(functions: &ModuleFunctions, id: FunctionId, ty: TypeId) -> bool {
    functions.contains(id) && functions.get(id).id() == id && functions.get(id).ty() == ty
}

fn add_two(alloc: Global, functions: &mut ModuleFunctions) -> Result<(), Fail> {
    let imported = functions.add_import(first_id(alloc), first_id(alloc))?;
    demand(imported.index() == 0, "a function that is imported")?;
    let local = functions.add_local(called_f(alloc)?)?;
    demand(
        is_of_type(functions, local, second_id(alloc)),
        "a function with a body",
    )?;
    demand(
        functions.by_name("f") == Some(local),
        "the function of a name",
    )?;
    demand(
        functions.iter_local().take(2).count() == 1,
        "the functions with a body",
    )
}

#[test]
fn functions_are_added(rt: HostRuntime) -> Result<(), Fail> {
    let mut functions = ModuleFunctions::new(rt.alloc())?;
    add_two(rt.alloc(), &mut functions)
}

fn takes_import(kind: &mut FunctionKind, import: ImportId) -> bool {
    if !matches!(kind, FunctionKind::Import(_)) {
        return false;
    }
    kind.unwrap_import_mut().import = import;
    matches!(kind, FunctionKind::Import(_)) && kind.unwrap_import().import == import
}

fn changes_type(kind: &mut FunctionKind, ty: TypeId) -> bool {
    if !matches!(kind, FunctionKind::Local(_)) {
        return false;
    }
    kind.unwrap_local_mut().set_ty(ty);
    matches!(kind, FunctionKind::Local(_)) && kind.unwrap_local().ty() == ty
}

#[test]
fn kinds_of_functions_are_changed(rt: HostRuntime) -> Result<(), Fail> {
    let mut imported = FunctionKind::Import(ImportedFunction {
        import: first_id(rt.alloc()),
        ty: first_id(rt.alloc()),
    });
    demand(
        takes_import(&mut imported, second_id(rt.alloc())),
        "another import",
    )?;
    let mut local = FunctionKind::Local(called_f(rt.alloc())?);
    demand(
        changes_type(&mut local, first_id(rt.alloc())),
        "a body of another type",
    )
}
