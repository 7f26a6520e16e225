//! Memories and tables: how many there are, and which is the only one.

use crate::page::Page;
use walrus::{
    AbstractHeapType, HeapType, MemoryId, Module, ModuleTables, RefType, Result, TableId,
};

fn is_only_memory(answer: Result<MemoryId>, id: MemoryId) -> bool {
    match answer {
        Ok(found) => found == id,
        Err(_) => false,
    }
}

/// Adds two memories, and tells before, between and behind how many there are, and whether one is the only one.
pub fn count_memories<S>(page: &mut Page, module: &mut Module<S>) -> Result<()> {
    page.number("memories", module.memories.len())?;
    page.ended("the only memory", module.get_memory_id())?;
    let first = module
        .memories
        .add_local(false, false, 0, Some(1024), None)?;
    page.number("memories", module.memories.len())?;
    page.holds(
        "the first is the only one",
        is_only_memory(module.get_memory_id(), first),
    )?;
    module
        .memories
        .add_local(true, true, 1024, Some(2048), Some(16))?;
    page.number("memories", module.memories.len())?;
    page.ended("the only memory", module.get_memory_id())
}

fn nullable(heap: AbstractHeapType) -> RefType {
    RefType {
        nullable: true,
        heap_type: HeapType::Abstract(heap),
    }
}

fn is_none(answer: Result<Option<TableId>>) -> bool {
    matches!(answer, Ok(None))
}

fn is_table(answer: Result<Option<TableId>>, id: TableId) -> bool {
    match answer {
        Ok(Some(found)) => found == id,
        _ => false,
    }
}

/// Adds a table of external references and two of functions, and tells behind each whether one is the only table of functions.
pub fn find_table(page: &mut Page, tables: &mut ModuleTables) -> Result<()> {
    tables.add_local(false, 1, None, nullable(AbstractHeapType::Extern))?;
    page.holds("there is none", is_none(tables.main_function_table()))?;
    let main = tables.add_local(false, 1, None, nullable(AbstractHeapType::Func))?;
    page.holds(
        "the second is it",
        is_table(tables.main_function_table(), main),
    )?;
    tables.add_local(false, 1, None, nullable(AbstractHeapType::Func))?;
    page.ended("the table of functions", tables.main_function_table())
}
