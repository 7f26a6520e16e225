//! Items that are added with the imports that bring them.

use crate::made::bare_module;
use std::alloc::Global;
use std::test::Fail;
use test_support::demand;
use walrus::{AbstractHeapType, ImportId, ImportKind, Module, ModuleImports, TypeId, ValType};
use walrus_test_support::{demand_output, reference};

// Of the module `m` a function `f` that takes and gives nothing, a table `t` of one to two functions or nulls, a shared memory `y` of 3 to 4
// pages with 64-bit addresses, a mutable global `g` of 64 bits, and a tag `e` of the function's type.
const IMPORTS: &str =
    "00 61 73 6D 01 00 00 00 01 04 01 60 00 00 02 26 05 01 6D 01 66 00 00 01 6D 01 74 01 70 01 01 02 01 6D 01 79 02 07 03 04 01 6D 01 67 03 7E 01 01 6D 01 65 04 00 00";

// Whether the import is there, and brings this item.
fn brings(imports: &ModuleImports, import: ImportId, item: ImportKind) -> bool {
    imports.contains(import) && imports.get(import).kind == item
}

fn adds_function(module: &mut Module, ty: TypeId) -> bool {
    match module.add_import_func("m", "f", ty) {
        Ok((id, import)) => brings(&module.imports, import, ImportKind::Function(id)),
        Err(_) => false,
    }
}

fn adds_table(module: &mut Module) -> bool {
    let functions = reference(AbstractHeapType::Func);
    match module.add_import_table("m", "t", false, 1, Some(2), functions) {
        Ok((id, import)) => brings(&module.imports, import, ImportKind::Table(id)),
        Err(_) => false,
    }
}

fn adds_memory(module: &mut Module) -> bool {
    match module.add_import_memory("m", "y", true, true, 3, Some(4), None) {
        Ok((id, import)) => brings(&module.imports, import, ImportKind::Memory(id)),
        Err(_) => false,
    }
}

fn adds_global(module: &mut Module) -> bool {
    match module.add_import_global("m", "g", ValType::I64, true, false) {
        Ok((id, import)) => brings(&module.imports, import, ImportKind::Global(id)),
        Err(_) => false,
    }
}

fn adds_tag(module: &mut Module, ty: TypeId) -> bool {
    match module.add_import_tag("m", "e", ty) {
        Ok((id, import)) => brings(&module.imports, import, ImportKind::Tag(id)),
        Err(_) => false,
    }
}

// Fails where an item doesn't come with an import that brings it, or all of them are written otherwise.
fn add_each(alloc: Global, module: &mut Module) -> Result<(), Fail> {
    let ty = module.types.add(&[], &[])?;
    demand(adds_function(module, ty), "a function")?;
    demand(adds_table(module), "a table")?;
    demand(adds_memory(module), "a memory")?;
    demand(adds_global(module), "a global")?;
    demand(adds_tag(module, ty), "a tag")?;
    demand_output(alloc, module.emit_wasm(alloc), IMPORTS)
}

#[test]
fn each_kind_of_import(rt: HostRuntime) -> Result<(), Fail> {
    let mut module = bare_module(rt.alloc())?;
    add_each(rt.alloc(), &mut module)
}
