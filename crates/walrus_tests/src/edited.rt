//! Modules that a program has edited so that they can't be written: why emission refuses, before gc and behind it.

use crate::made::bare_module;
use std::alloc::Global;
use std::test::Fail;
use test_support::{demand, is_text};
use walrus::passes::gc;
use walrus::{
    AbstractHeapType, ConstExpr, Error, ExportId, ExportItem, FunctionId, GlobalId, GlobalKind,
    HeapType, ImportKind, Module, ModuleGlobals, RefType, ValType, Value,
};
use walrus_test_support::{add_function, demand_output, is_as_before, reference, shown};

const EMPTY: &str = "00 61 73 6D 01 00 00 00";

// The texts of what emission refuses with.
const NO_INDEX: &str = "an item has no index";

const TWO_INDICES: &str = "an item has two indices";

const NOT_WRITABLE: &str = "a form that cannot be written";

const TOO_LARGE: &str = "a count or size passes 32 bits";

// Whether emission refuses with this text, and leaves the module as it was.
fn is_refused(alloc: Global, module: &mut Module, why: &str) -> bool {
    let before = shown(alloc, module);
    match module.emit_wasm(alloc) {
        Ok(_) => false,
        Err(refusal) => is_text(refusal.text(), why) && is_as_before(alloc, module, &before),
    }
}

// Fails where the module is written though its export is gone, or refused otherwise, or where gc then leaves something.
fn demand_dropped(alloc: Global, module: &mut Module, why: &str, what: &str) -> Result<(), Fail> {
    module.exports.remove("x")?;
    demand(is_refused(alloc, module, why), what)?;
    gc::run(alloc, module)?;
    demand_output(alloc, module.emit_wasm(alloc), EMPTY)
}

// Fails where the module, which was edited so, is written before gc or behind it, or refused otherwise, or gc leaves something without the export.
fn demand_refused(
    alloc: Global,
    module: &mut Module,
    edited: Result<ExportId, Error>,
    why: &str,
    what: &str,
) -> Result<(), Fail> {
    edited?;
    demand(is_refused(alloc, module, why), what)?;
    gc::run(alloc, module)?;
    demand(is_refused(alloc, module, why), what)?;
    demand_dropped(alloc, module, why, what)
}

// ---- imports and items

// An imported function that is exported, and that a second import names.
fn import_twice(module: &mut Module) -> Result<ExportId, Error> {
    let ty = module.types.add(&[], &[])?;
    let (function, _) = module.add_import_func("m", "f", ty)?;
    module
        .imports
        .add("m", "again", ImportKind::Function(function))?;
    module.exports.add("x", ExportItem::Function(function))
}

// An imported function whose import is deleted.
fn add_without_import(module: &mut Module) -> Result<FunctionId, Error> {
    let ty = module.types.add(&[], &[])?;
    let (function, import) = module.add_import_func("m", "f", ty)?;
    if module.imports.contains(import) {
        module.imports.delete(import);
    }
    Ok(function)
}

// Such a function, exported.
fn export_without_import(module: &mut Module) -> Result<ExportId, Error> {
    let function = add_without_import(module)?;
    module.exports.add("x", ExportItem::Function(function))
}

// Such a function, exported, which another import names than the one that it says.
fn import_by_another(module: &mut Module) -> Result<ExportId, Error> {
    let function = add_without_import(module)?;
    module
        .imports
        .add("m", "f", ImportKind::Function(function))?;
    module.exports.add("x", ExportItem::Function(function))
}

// An exported function of the module that an import names.
fn import_local(alloc: Global, module: &mut Module) -> Result<ExportId, Error> {
    let function = add_function(alloc, module)?;
    module
        .imports
        .add("mod", "dummy", ImportKind::Function(function))?;
    module.exports.add("x", ExportItem::Function(function))
}

fn demand_matching(alloc: Global, module: &mut Module) -> Result<(), Fail> {
    let edited = import_twice(module);
    let what = "two imports of one function";
    demand_refused(alloc, module, edited, TWO_INDICES, what)?;
    let edited = export_without_import(module);
    let what = "a function whose import is deleted";
    demand_refused(alloc, module, edited, NO_INDEX, what)?;
    let edited = import_by_another(module);
    let what = "a function that another import names";
    demand_refused(alloc, module, edited, NO_INDEX, what)?;
    let edited = import_local(alloc, module);
    let what = "a function of the module that an import names";
    demand_refused(alloc, module, edited, TWO_INDICES, what)
}

#[test]
fn imports_and_items_that_do_not_match(rt: HostRuntime) -> Result<(), Fail> {
    let mut module = bare_module(rt.alloc())?;
    demand_matching(rt.alloc(), &mut module)
}

// ---- initialisers, types and limits

fn add_global(
    globals: &mut ModuleGlobals,
    ty: ValType,
    init: ConstExpr,
) -> Result<GlobalId, Error> {
    globals.add_local(ty, false, false, init)
}

// An exported table whose initialiser reads a global of the module.
fn read_own(module: &mut Module) -> Result<ExportId, Error> {
    let ty = reference(AbstractHeapType::Func);
    let null = ConstExpr::RefNull(ty);
    let global = add_global(&mut module.globals, ValType::Ref(ty), null)?;
    let init = Some(ConstExpr::Global(global));
    let table = module.tables.add_local_with_init(false, 1, None, ty, init)?;
    module.exports.add("x", ExportItem::Table(table))
}

// Two globals, of which the first, which is answered, reads the second.
fn add_reading_later(globals: &mut ModuleGlobals) -> Result<GlobalId, Error> {
    let one = ConstExpr::Value(Value::I32(1));
    let first = add_global(globals, ValType::I32, one)?;
    let two = ConstExpr::Value(Value::I32(2));
    let second = add_global(globals, ValType::I32, two)?;
    if globals.contains(first) {
        globals.get_mut(first).kind = GlobalKind::Local(ConstExpr::Global(second));
    }
    Ok(first)
}

// An exported global whose initialiser reads a later one.
fn read_later(module: &mut Module) -> Result<ExportId, Error> {
    let global = add_reading_later(&mut module.globals)?;
    module.exports.add("x", ExportItem::Global(global))
}

// An exported global whose initialiser has no operator.
fn initialise_by_nothing(alloc: Global, module: &mut Module) -> Result<ExportId, Error> {
    let none = ConstExpr::Extended(Vec::new(alloc));
    let global = add_global(&mut module.globals, ValType::I32, none)?;
    module.exports.add("x", ExportItem::Global(global))
}

// An exported global of an exact reference type.
fn add_exact(module: &mut Module) -> Result<ExportId, Error> {
    let ty = RefType {
        nullable: true,
        heap_type: HeapType::Exact(module.types.add(&[], &[])?),
    };
    let null = ConstExpr::RefNull(reference(AbstractHeapType::Func));
    let global = add_global(&mut module.globals, ValType::Ref(ty), null)?;
    module.exports.add("x", ExportItem::Global(global))
}

// An exported memory of 32-bit addresses and 2^32 pages.
fn add_large(module: &mut Module) -> Result<ExportId, Error> {
    let pages = 4_294_967_296;
    let memory = module.memories.add_local(false, false, pages, None, None)?;
    module.exports.add("x", ExportItem::Memory(memory))
}

fn demand_reading_earlier(alloc: Global, module: &mut Module) -> Result<(), Fail> {
    let edited = read_own(module);
    demand_refused(alloc, module, edited, NO_INDEX, "an initialiser of a table")?;
    let edited = read_later(module);
    demand_refused(
        alloc,
        module,
        edited,
        NO_INDEX,
        "an initialiser of a global",
    )
}

#[test]
fn initialisers_that_read_what_is_not_before(rt: HostRuntime) -> Result<(), Fail> {
    let mut module = bare_module(rt.alloc())?;
    demand_reading_earlier(rt.alloc(), &mut module)
}

fn demand_spelled(alloc: Global, module: &mut Module) -> Result<(), Fail> {
    let edited = initialise_by_nothing(alloc, module);
    demand_refused(alloc, module, edited, NOT_WRITABLE, "no operator")?;
    let edited = add_exact(module);
    demand_refused(alloc, module, edited, NOT_WRITABLE, "an exact type")?;
    let edited = add_large(module);
    demand_refused(alloc, module, edited, TOO_LARGE, "2^32 pages")
}

#[test]
fn what_no_bytes_spell(rt: HostRuntime) -> Result<(), Fail> {
    let mut module = bare_module(rt.alloc())?;
    demand_spelled(rt.alloc(), &mut module)
}
