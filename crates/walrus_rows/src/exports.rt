//! Exports: searches by item and by name, ids behind a deletion, and a replacement that its closure refuses.

use crate::made::{add_number, is_export, no, take_away};
use crate::page::Page;
use std::alloc::Global;
use test_support::first_id;
use walrus::{
    Export, ExportId, ExportItem, FunctionId, Id, InstrSeqBuilder, LocalId, Module, ModuleExports,
    Result,
};

/// Tells whether exports of items are found which nothing exports.
pub fn unknown_exports(page: &mut Page, exports: &ModuleExports) -> Result<()> {
    let alloc = page.alloc();
    let function = exports.get_exported_func(first_id(alloc)).is_some();
    let table = exports.get_exported_table(first_id(alloc)).is_some();
    let memory = exports.get_exported_memory(first_id(alloc)).is_some();
    let global = exports.get_exported_global(first_id(alloc)).is_some();
    page.holds("an export of the function", function)?;
    page.holds("an export of the table", table)?;
    page.holds("an export of the memory", memory)?;
    page.holds("an export of the global", global)
}

fn find(page: &mut Page, exports: &ModuleExports, function: FunctionId) -> Result<()> {
    page.holds(
        "an export of the function",
        exports.get_exported_func(function).is_some(),
    )?;
    page.ended("a function of the name", exports.get_func("dummy"))
}

/// Exports a function and deletes the export, and tells before and behind whether it is found.
pub fn delete_export(page: &mut Page, exports: &mut ModuleExports) -> Result<()> {
    let function = first_id(page.alloc());
    let id = exports.add("dummy", ExportItem::Function(function))?;
    find(page, exports, function)?;
    take_away(exports, id);
    find(page, exports, function)
}

// Lets each export export this item.
fn set_all(exports: &mut ModuleExports, item: ExportItem) {
    for place in 0..exports.next_id().index() {
        let id = Id::at(place);
        if exports.contains(id) {
            exports.get_mut(id).item = item;
        }
    }
}

/// Exports a function, lets each export export another one, and tells which of the two are found.
pub fn exchange_item<S>(page: &mut Page, module: &mut Module<S>) -> Result<()> {
    let first = add_number(page.alloc(), module)?;
    let second = add_number(page.alloc(), module)?;
    let id = module.exports.add("dummy", ExportItem::Function(first))?;
    page.holds("two functions", first != second)?;
    let found = is_export(module.exports.get_exported_func(first), id, "dummy");
    page.holds("the first is exported", found)?;
    set_all(&mut module.exports, ExportItem::Function(second));
    let left = module.exports.get_exported_func(first).is_some();
    page.holds("the first is still exported", left)?;
    let found = is_export(module.exports.get_exported_func(second), id, "dummy");
    page.holds("the second is, under the same id and name", found)
}

fn is_function(answer: Result<FunctionId>, id: FunctionId) -> bool {
    match answer {
        Ok(found) => found == id,
        Err(_) => false,
    }
}

// Takes the first export of the name away, and tells which of the two is left.
fn remove(
    page: &mut Page,
    exports: &mut ModuleExports,
    first: ExportId,
    second: ExportId,
) -> Result<()> {
    page.ended("the name is taken away", exports.remove("x"))?;
    page.holds("the first is there", exports.contains(first))?;
    page.holds("the second is there", exports.contains(second))
}

/// Exports a memory and a function under one name, which is taken away three times.
pub fn same_export_name<S>(page: &mut Page, module: &mut Module<S>) -> Result<()> {
    let function = add_number(page.alloc(), module)?;
    let memory = module.memories.add_local(false, false, 1, None, None)?;
    let first = module.exports.add("x", ExportItem::Memory(memory))?;
    let second = module.exports.add("x", ExportItem::Function(function))?;
    let found = is_function(module.exports.get_func("x"), function);
    page.holds("the function is found by the name", found)?;
    remove(page, &mut module.exports, first, second)?;
    remove(page, &mut module.exports, first, second)?;
    page.ended("the name is taken away", module.exports.remove("x"))
}

fn is_of(found: Option<&Export>, id: ExportId) -> bool {
    match found {
        Some(export) => export.id() == id,
        None => false,
    }
}

fn are_two(exports: &ModuleExports, first: ExportId, second: ExportId) -> bool {
    let mut all = exports.iter();
    is_of(all.next(), first) && is_of(all.next(), second) && all.next().is_none()
}

/// Exports a function three times, deletes the second export, and adds another one.
pub fn delete_second(page: &mut Page, exports: &mut ModuleExports) -> Result<()> {
    let item = ExportItem::Function(first_id(page.alloc()));
    let first = exports.add("a", item)?;
    let second = exports.add("b", item)?;
    let third = exports.add("c", item)?;
    take_away(exports, second);
    page.holds(
        "the first and the third are left, in order",
        are_two(exports, first, third),
    )?;
    page.holds("the second is there", exports.contains(second))?;
    let fourth = exports.add("d", item)?;
    let is_new = fourth != first && fourth != second && fourth != third;
    page.holds("the next one has an id that none had", is_new)
}

/// Adds a function, which is exported as `a`.
pub fn export_number<S>(page: &mut Page, module: &mut Module<S>) -> Result<()> {
    let function = add_number(page.alloc(), module)?;
    module.exports.add("a", ExportItem::Function(function))?;
    Ok(())
}

fn replaced<S>(alloc: Global, module: &mut Module<S>, id: FunctionId) -> Result<FunctionId> {
    module.replace_exported_func(
        alloc,
        id,
        |_body: &mut InstrSeqBuilder, _args: &Vec<LocalId>| -> Result<()> { no(alloc) },
    )
}

/// Tells why the function exported as `a` isn't replaced where the closure that builds another one refuses.
pub fn refuse_exported<S>(page: &mut Page, module: &mut Module<S>) -> Result<()> {
    let id = module.exports.get_func("a")?;
    let answer = replaced(page.alloc(), module, id);
    page.ended("the closure's answer", answer)?;
    page.holds(
        "the function is exported",
        is_function(module.exports.get_func("a"), id),
    )
}
