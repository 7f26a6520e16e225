//! Imports of all kinds.

use std::alloc::Global;
use std::hash::{DefaultHasher, Hash, Hasher};
use std::test::Fail;
use test_support::{demand, first_id};
use walrus_base::{FunctionId, GlobalId, ImportId, Marks, MemoryId, TableId, TagId};
use walrus_items::{Import, ItemMarks, ModuleImports};

fn add_each(alloc: Global, imports: &mut ModuleImports) -> Result<ImportId, Fail> {
    let function: FunctionId = first_id(alloc);
    let table: TableId = first_id(alloc);
    let memory: MemoryId = first_id(alloc);
    let global: GlobalId = first_id(alloc);
    let tag: TagId = first_id(alloc);
    imports.add("m", "f", function.into())?;
    imports.add("m", "t", table.into())?;
    imports.add("m", "m", memory.into())?;
    imports.add("m", "g", global.into())?;
    let last = imports.add("m", "e", tag.into())?;
    demand(
        imports.find("m", "e") == Some(last),
        "the import of two names",
    )?;
    Ok(last)
}

fn hash_of(import: &Import) -> u64 {
    let mut state = DefaultHasher::new();
    import.hash(&mut state);
    state.finish()
}

// Whether a clone is equal, and has the same hash, of which no clause speaks.
fn is_cloned(import: &Import) -> bool {
    match import.try_clone() {
        Ok(copy) => copy == *import && hash_of(&copy) == hash_of(import),
        Err(_) => false,
    }
}

fn is_of(found: Option<&Import>, imports: &ModuleImports) -> bool {
    match found {
        Some(import) => imports.find("m", "f") == Some(import.id()) && is_cloned(import),
        None => false,
    }
}

fn find_function(imports: &ModuleImports, function: FunctionId) -> Result<(), Fail> {
    demand(
        imports.get_func("m", "f").ok() == Some(function),
        "the function of two names",
    )?;
    demand(
        is_of(imports.get_imported_func(function), imports),
        "the import of a function",
    )
}

// Keeps what stays where nothing is marked.
fn lose_all(alloc: Global, imports: &mut ModuleImports) -> Result<(), Fail> {
    let funcs = Marks::new(alloc, 1)?;
    let tables = Marks::new(alloc, 1)?;
    let memories = Marks::new(alloc, 1)?;
    let globals = Marks::new(alloc, 1)?;
    let tags = Marks::new(alloc, 1)?;
    imports.keep_only(ItemMarks {
        funcs: &funcs,
        tables: &tables,
        memories: &memories,
        globals: &globals,
        tags: &tags,
    });
    demand(imports.is_empty(), "none whose item isn't marked")
}

#[test]
fn imports_are_found(rt: HostRuntime) -> Result<(), Fail> {
    let mut imports = ModuleImports::new(rt.alloc());
    add_each(rt.alloc(), &mut imports)?;
    find_function(&imports, first_id(rt.alloc()))?;
    imports.remove("m", "f")?;
    demand(imports.len() == 4, "an import is taken away by its names")?;
    lose_all(rt.alloc(), &mut imports)
}
