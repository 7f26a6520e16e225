//! Exported and imported functions that are replaced by ones that are built, and why they aren't.

use crate::made::{bare_module, read};
use std::alloc::Global;
use std::test::Fail;
use test_support::{demand, is_text};
use walrus::passes::gc;
use walrus::{
    Error, ExportId, ExportItem, FunctionId, FunctionKind, ImportId, ImportKind, InstrSeqBuilder,
    LocalId, Module, ModuleFunctions, ModuleImports,
};
use walrus_test_support::{add_function, demand_output, is_as_before, shown};

// ---- bodies

// Drops the first argument, if there is one, and puts a number behind it.
fn put_number(body: &mut InstrSeqBuilder, args: &Vec<LocalId>) -> Result<(), Error> {
    if let Some(first) = args.first() {
        body.local_get(*first)?.drop_()?;
    }
    body.i32_const(4321)?;
    Ok(())
}

fn put_and_drop(body: &mut InstrSeqBuilder) -> Result<(), Error> {
    body.i32_const(4321)?.drop_()?;
    Ok(())
}

fn put_trap(body: &mut InstrSeqBuilder) -> Result<(), Error> {
    body.unreachable()?;
    Ok(())
}

fn export_number(alloc: Global, module: &mut Module, id: FunctionId) -> Result<FunctionId, Error> {
    module.replace_exported_func(
        alloc,
        id,
        |body: &mut InstrSeqBuilder, args: &Vec<LocalId>| -> Result<(), Error> {
            put_number(body, args)
        },
    )
}

fn export_dropped(alloc: Global, module: &mut Module, id: FunctionId) -> Result<FunctionId, Error> {
    module.replace_exported_func(
        alloc,
        id,
        |body: &mut InstrSeqBuilder, _args: &Vec<LocalId>| -> Result<(), Error> {
            put_and_drop(body)
        },
    )
}

fn import_number(alloc: Global, module: &mut Module, id: FunctionId) -> Result<FunctionId, Error> {
    module.replace_imported_func(
        alloc,
        id,
        |body: &mut InstrSeqBuilder, args: &Vec<LocalId>| -> Result<(), Error> {
            put_number(body, args)
        },
    )
}

fn brought_number(
    alloc: Global,
    module: &mut Module,
    import: ImportId,
) -> Result<FunctionId, Error> {
    module.replace_import(
        alloc,
        import,
        |body: &mut InstrSeqBuilder, args: &Vec<LocalId>| -> Result<(), Error> {
            put_number(body, args)
        },
    )
}

fn import_trap(alloc: Global, module: &mut Module, id: FunctionId) -> Result<FunctionId, Error> {
    module.replace_imported_func(
        alloc,
        id,
        |body: &mut InstrSeqBuilder, _args: &Vec<LocalId>| -> Result<(), Error> { put_trap(body) },
    )
}

// ---- exported functions

// A function that gives back what it takes, exported as `a` and as `b`.
const TWICE_EXPORTED: &str =
    "00 61 73 6D 01 00 00 00 01 06 01 60 01 7F 01 7F 03 02 01 00 07 09 02 01 61 00 00 01 62 00 00 0A 06 01 04 00 20 00 0B";

// The same, where `a` is a function that gives 4321.
const FIRST_REPLACED: &str =
    "00 61 73 6D 01 00 00 00 01 06 01 60 01 7F 01 7F 03 03 02 00 00 07 09 02 01 61 00 00 01 62 00 01 0A 0F 02 08 00 20 00 1A 41 E1 21 0B 04 00 20 00 0B";

fn replace_first_export(alloc: Global, module: &mut Module) -> Result<(), Fail> {
    let old = module.exports.get_func("a")?;
    let new = export_number(alloc, module, old)?;
    demand(module.exports.get_func("a")? == new, "the first export")?;
    demand(module.exports.get_func("b")? == old, "the second export")?;
    demand_output(alloc, module.emit_wasm(alloc), FIRST_REPLACED)
}

#[test]
fn the_first_of_two_exports(rt: HostRuntime) -> Result<(), Fail> {
    let mut module = read(rt.alloc(), TWICE_EXPORTED)?;
    replace_first_export(rt.alloc(), &mut module)
}

// A function that makes a number and drops it, exported as `dummy`.
const DUMMY: &str =
    "00 61 73 6D 01 00 00 00 01 04 01 60 00 00 03 02 01 00 07 09 01 05 64 75 6D 6D 79 00 00 0A 08 01 06 00 41 E1 21 1A 0B";

fn export_dummy(alloc: Global, module: &mut Module) -> Result<ExportId, Error> {
    let function = add_function(alloc, module)?;
    module.exports.add("dummy", ExportItem::Function(function))
}

fn is_dummy(module: &Module, function: FunctionId, export: ExportId) -> bool {
    match module.exports.get_exported_func(function) {
        Some(found) => found.id() == export && is_text(&found.name, "dummy"),
        None => false,
    }
}

fn is_refused(answer: Result<FunctionId, Error>, why: &str) -> bool {
    match answer {
        Ok(_) => false,
        Err(refusal) => is_text(refusal.text(), why),
    }
}

fn replace_dummy(alloc: Global, module: &mut Module) -> Result<(), Fail> {
    let export = export_dummy(alloc, module)?;
    let old = module.exports.get_func("dummy")?;
    let new = export_dropped(alloc, module, old)?;
    demand(is_dummy(module, new, export), "the export's id and name")?;
    demand(
        !is_dummy(module, old, export),
        "an export of the old function",
    )?;
    let again = export_dropped(alloc, module, old);
    demand(
        is_refused(again, "no exported function with this id"),
        "again",
    )?;
    gc::run(alloc, module)?;
    demand_output(alloc, module.emit_wasm(alloc), DUMMY)
}

#[test]
fn an_exported_function(rt: HostRuntime) -> Result<(), Fail> {
    let mut module = bare_module(rt.alloc())?;
    replace_dummy(rt.alloc(), &mut module)
}

// ---- imported functions

// An imported function that takes a number and gives one, exported as `a`.
const IMPORTED: &str =
    "00 61 73 6D 01 00 00 00 01 06 01 60 01 7F 01 7F 02 07 01 01 6D 01 66 00 00 07 05 01 01 61 00 00";

// The same, where the function is there, and gives 4321.
const IMPORT_REPLACED: &str =
    "00 61 73 6D 01 00 00 00 01 06 01 60 01 7F 01 7F 03 02 01 00 07 05 01 01 61 00 00 0A 0A 01 08 00 20 00 1A 41 E1 21 0B";

fn replace_import(alloc: Global, module: &mut Module) -> Result<(), Fail> {
    let id = module.exports.get_func("a")?;
    demand(import_number(alloc, module, id)? == id, "the same id")?;
    demand_output(alloc, module.emit_wasm(alloc), IMPORT_REPLACED)
}

#[test]
fn an_imported_function_with_a_parameter(rt: HostRuntime) -> Result<(), Fail> {
    let mut module = read(rt.alloc(), IMPORTED)?;
    replace_import(rt.alloc(), &mut module)
}

fn delete_import(imports: &mut ModuleImports, id: ImportId) {
    if imports.contains(id) {
        imports.delete(id);
    }
}

// The import is named, not the function; another import of the same function stays.
fn replace_brought(alloc: Global, module: &mut Module) -> Result<(), Fail> {
    let id = module.exports.get_func("a")?;
    let import = ImportId::at(0);
    let other = module.imports.add("m", "g", ImportKind::Function(id))?;
    demand(
        brought_number(alloc, module, import)? == id,
        "the same id, by its import",
    )?;
    demand(
        !module.imports.contains(import) && module.imports.contains(other),
        "the import that was named goes, and no other",
    )?;
    delete_import(&mut module.imports, other);
    demand_output(alloc, module.emit_wasm(alloc), IMPORT_REPLACED)
}

#[test]
fn the_function_of_an_import(rt: HostRuntime) -> Result<(), Fail> {
    let mut module = read(rt.alloc(), IMPORTED)?;
    replace_brought(rt.alloc(), &mut module)
}

fn is_there(module: &Module, id: FunctionId) -> bool {
    module.funcs.contains(id)
        && match &module.funcs.get(id).kind {
            FunctionKind::Local(_) => true,
            FunctionKind::Import(_) | FunctionKind::Uninitialized(_) => false,
        }
}

fn is_imported(module: &Module, id: FunctionId, import: ImportId) -> bool {
    module.imports.contains(import) || module.imports.get_imported_func(id).is_some()
}

fn replace_trap(alloc: Global, module: &mut Module) -> Result<(), Fail> {
    let ty = module.types.add(&[], &[])?;
    let (id, import) = module.add_import_func("mod", "dummy", ty)?;
    demand(import_trap(alloc, module, id)? == id, "the same id")?;
    demand(is_there(module, id), "a function of the module")?;
    demand(!is_imported(module, id, import), "an import of it")
}

#[test]
fn an_imported_function(rt: HostRuntime) -> Result<(), Fail> {
    let mut module = bare_module(rt.alloc())?;
    replace_trap(rt.alloc(), &mut module)
}

// ---- refused

const NOT_REPLACEABLE: &str = "cannot replace function";

const NOT_LIVE: &str = "reference to an item that is not live";

// Whether both calls are refused so, and leave the module as it was.
fn refuses_both(
    alloc: Global,
    module: &mut Module,
    id: FunctionId,
    exported: &str,
    imported: &str,
) -> bool {
    let before = shown(alloc, module);
    is_refused(export_number(alloc, module, id), exported)
        && is_as_before(alloc, module, &before)
        && is_refused(import_number(alloc, module, id), imported)
        && is_as_before(alloc, module, &before)
}

// Lets an export and an import name the function.
fn export_import(module: &mut Module, id: FunctionId) -> Result<(), Error> {
    module.exports.add("x", ExportItem::Function(id))?;
    module.imports.add("m", "f", ImportKind::Function(id))?;
    Ok(())
}

fn delete(functions: &mut ModuleFunctions, id: FunctionId) {
    if functions.contains(id) {
        functions.delete(id);
    }
}

// Fails where a function is replaced that nothing exports or imports, that isn't of that kind, or that isn't there.
fn refuse_local(alloc: Global, module: &mut Module) -> Result<(), Fail> {
    let id = add_function(alloc, module)?;
    let none = "no exported function with this id";
    demand(
        refuses_both(alloc, module, id, none, "no imported function with this id"),
        "a function that nothing names",
    )?;
    export_import(module, id)?;
    let before = shown(alloc, module);
    let answer = import_number(alloc, module, id);
    demand(
        is_refused(answer, NOT_REPLACEABLE) && is_as_before(alloc, module, &before),
        "an import of a function of the module",
    )?;
    delete(&mut module.funcs, id);
    demand(
        refuses_both(alloc, module, id, NOT_LIVE, NOT_LIVE),
        "a function that isn't there",
    )
}

#[test]
fn a_function_of_the_module_is_refused(rt: HostRuntime) -> Result<(), Fail> {
    let mut module = bare_module(rt.alloc())?;
    refuse_local(rt.alloc(), &mut module)
}

// Whether the import's function isn't replaced for this reason, and the module is as it was.
fn refuses_import(alloc: Global, module: &mut Module, import: ImportId, why: &str) -> bool {
    let before = shown(alloc, module);
    is_refused(brought_number(alloc, module, import), why) && is_as_before(alloc, module, &before)
}

// Fails where something is replaced for an import that isn't there, of no function, or of a function of the module.
fn refuse_brought(alloc: Global, module: &mut Module) -> Result<(), Fail> {
    demand(
        refuses_import(alloc, module, ImportId::at(0), NOT_LIVE),
        "an import that isn't there",
    )?;
    let (_, memory) = module.add_import_memory("m", "m", false, false, 1, None, None)?;
    demand(
        refuses_import(alloc, module, memory, "no imported function with this id"),
        "an import of a memory",
    )?;
    let local = add_function(alloc, module)?;
    let import = module.imports.add("m", "f", ImportKind::Function(local))?;
    demand(
        refuses_import(alloc, module, import, NOT_REPLACEABLE),
        "an import of a function of the module",
    )?;
    delete(&mut module.funcs, local);
    demand(
        refuses_import(alloc, module, import, NOT_LIVE),
        "an import of a function that isn't there",
    )
}

#[test]
fn an_import_of_no_imported_function_is_refused(rt: HostRuntime) -> Result<(), Fail> {
    let mut module = bare_module(rt.alloc())?;
    refuse_brought(rt.alloc(), &mut module)
}

// A closure that builds something and then refuses.
fn refused_by_closure(
    alloc: Global,
    module: &mut Module,
    id: FunctionId,
) -> Result<FunctionId, Error> {
    module.replace_exported_func(
        alloc,
        id,
        |body: &mut InstrSeqBuilder, _args: &Vec<LocalId>| -> Result<(), Error> {
            put_trap(body)?;
            Err(Error::NotFound)
        },
    )
}

fn refuse_export(alloc: Global, module: &mut Module) -> Result<(), Fail> {
    let imported = module.exports.get_func("a")?;
    let before = shown(alloc, module);
    let answer = export_number(alloc, module, imported);
    demand(
        is_refused(answer, NOT_REPLACEABLE) && is_as_before(alloc, module, &before),
        "an export of an imported function",
    )?;
    export_dummy(alloc, module)?;
    let before = shown(alloc, module);
    let local = module.exports.get_func("dummy")?;
    let answer = refused_by_closure(alloc, module, local);
    demand(
        is_refused(answer, "not found") && is_as_before(alloc, module, &before),
        "what the closure answers",
    )
}

#[test]
fn an_export_of_an_imported_function_is_refused(rt: HostRuntime) -> Result<(), Fail> {
    let mut module = read(rt.alloc(), IMPORTED)?;
    refuse_export(rt.alloc(), &mut module)
}
