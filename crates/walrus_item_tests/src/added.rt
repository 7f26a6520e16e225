//! Tables, memories and tags: each call that adds one, and what tells which one it is.

use std::alloc::Global;
use std::test::Fail;
use test_support::{demand, first_id, second_id};
use walrus_ir::{AbstractHeapType, ConstExpr, HeapType, RefType};
use walrus_items::{ModuleMemories, ModuleTables, ModuleTags, Tag};

fn nullable(heap: AbstractHeapType) -> RefType {
    RefType {
        nullable: true,
        heap_type: HeapType::Abstract(heap),
    }
}

fn add_tables(alloc: Global, tables: &mut ModuleTables) -> Result<(), Fail> {
    let externref = nullable(AbstractHeapType::Extern);
    let imported = tables.add_import(true, 3, Some(4), externref, second_id(alloc))?;
    demand(imported.index() == 0, "a table that is imported")?;
    let null = Some(ConstExpr::RefNull(externref));
    let filled = tables.add_local_with_init(false, 1, None, externref, null)?;
    demand(filled.index() == 1, "a table with an initialiser")?;
    let main = tables.add_local(false, 1, Some(2), nullable(AbstractHeapType::Func))?;
    demand(
        tables.contains(main) && tables.get(main).id() == main,
        "a table without",
    )?;
    demand(
        tables.main_function_table().ok() == Some(Some(main)),
        "the only table of functions",
    )
}

#[test]
fn tables_are_added(rt: HostRuntime) -> Result<(), Fail> {
    let mut tables = ModuleTables::new(rt.alloc());
    add_tables(rt.alloc(), &mut tables)
}

fn add_memories(alloc: Global, memories: &mut ModuleMemories) -> Result<(), Fail> {
    let imported = memories.add_import(false, false, 1, None, None, second_id(alloc))?;
    demand(imported.index() == 0, "a memory that is imported")?;
    let local = memories.add_local(true, true, 1024, Some(2048), Some(16))?;
    demand(
        memories.contains(local) && memories.get(local).id() == local,
        "a memory of the module's own",
    )
}

#[test]
fn memories_are_added(rt: HostRuntime) -> Result<(), Fail> {
    let mut memories = ModuleMemories::new(rt.alloc());
    add_memories(rt.alloc(), &mut memories)
}

fn add_tags(alloc: Global, tags: &mut ModuleTags) -> Result<(), Fail> {
    let imported = tags.add_import(first_id(alloc), second_id(alloc))?;
    demand(imported.index() == 0, "a tag that is imported")?;
    let local = tags.add(second_id(alloc))?;
    demand(
        tags.contains(local) && tags.get(local).id() == local,
        "a tag of the module's own",
    )
}

#[test]
fn tags_are_added(rt: HostRuntime) -> Result<(), Fail> {
    let mut tags = ModuleTags::new(rt.alloc())?;
    add_tags(rt.alloc(), &mut tags)?;
    let tag = Tag::new(first_id(rt.alloc()), second_id(rt.alloc()));
    demand(tag.ty() == second_id(rt.alloc()), "a tag of no collection")
}
