//! What all collections do alike, of globals.

use std::alloc::Global;
use std::test::Fail;
use test_support::{demand, first_id};
use walrus_base::{GlobalId, Marks};
use walrus_ir::{ConstExpr, ValType, Value};
use walrus_items::ModuleGlobals;

// Adds a global that an import brings in, and one of the module's own, whose id is answered.
fn add_two(alloc: Global, globals: &mut ModuleGlobals) -> Result<GlobalId, Fail> {
    globals.reserve(2)?;
    let imported = globals.add_import(ValType::I64, true, false, first_id(alloc))?;
    demand(imported.index() == 0, "a global that is imported")?;
    let seven = ConstExpr::Value(Value::I32(7));
    let local = globals.add_local(ValType::I32, false, true, seven)?;
    demand(local.index() == 1, "a global with an initialiser")?;
    Ok(local)
}

fn are_two(globals: &ModuleGlobals) -> Result<(), Fail> {
    demand(globals.len() == 2, "how many there are")?;
    demand(globals.iter().take(3).count() == 2, "all of them")?;
    demand(
        globals.iter_entries().take(3).count() == 2,
        "all with their ids",
    )?;
    demand(globals.next_id().index() == 2, "the id that comes next")
}

fn becomes_mutable(globals: &mut ModuleGlobals, id: GlobalId) -> bool {
    if !globals.contains(id) || globals.get(id).id() != id {
        return false;
    }
    globals.get_mut(id).mutable = true;
    globals.contains(id) && globals.get(id).mutable
}

fn is_deleted(globals: &mut ModuleGlobals, id: GlobalId) -> bool {
    if !globals.contains(id) {
        return false;
    }
    globals.delete(id);
    globals.len() == 1
}

// Whether these are the ids of all globals that are there.
fn have_ids(alloc: Global, globals: &ModuleGlobals, wanted: &[GlobalId]) -> bool {
    match globals.ids(alloc) {
        Ok(ids) => ids.as_slice() == wanted,
        Err(_) => false,
    }
}

// Nothing is left where none is marked.
fn lose_all(alloc: Global, globals: &mut ModuleGlobals) -> Result<(), Fail> {
    let marks = Marks::new(alloc, 2)?;
    globals.keep_only(&marks);
    demand(globals.is_empty(), "none that isn't marked")
}

#[test]
fn globals_are_held(rt: HostRuntime) -> Result<(), Fail> {
    let mut globals = ModuleGlobals::new(rt.alloc());
    let local = add_two(rt.alloc(), &mut globals)?;
    are_two(&globals)?;
    let all = [first_id(rt.alloc()), local];
    demand(have_ids(rt.alloc(), &globals, &all), "both ids")?;
    demand(becomes_mutable(&mut globals, local), "a global is changed")?;
    demand(is_deleted(&mut globals, local), "a global is deleted")?;
    demand(
        have_ids(rt.alloc(), &globals, &[first_id(rt.alloc())]),
        "the id of the other",
    )?;
    lose_all(rt.alloc(), &mut globals)
}
