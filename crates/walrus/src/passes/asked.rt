//! What the custom sections of a module ask to keep, as items.

ghost use Rattle.std.specs.Prelude.{OnOk, map};
ghost use Rattle.walrus_base.specs.Id.{place};
ghost use Rattle.walrus_base.specs.Operators.{Functions, Globals, Memories, Tables, Tags};
ghost use Rattle.walrus_contents.specs.Named.{Puts};
ghost use Rattle.walrus.specs.Asked.{asked_items};

use std::alloc::AllocError;
use std::result;
use walrus_module::{FunctionId, GlobalId, ItemId, MemoryId, Roots, TableId, TagId};

/// Puts what is asked for behind `to`, kind by kind, each in the order in which it was asked for.
pub(crate) fn push_asked(asked: &Roots, to: &mut Vec<ItemId>) -> result::Result<(), AllocError>
    ensures { OnOk result (Puts to.old to.new (asked_items asked.now)) }
{
    push_functions(asked.funcs(), to)?;
    push_tables(asked.tables(), to)?;
    push_memories(asked.memories(), to)?;
    push_tags(asked.tags(), to)?;
    push_globals(asked.globals(), to)
}

// The same for functions.
fn push_functions(ids: &[FunctionId], to: &mut Vec<ItemId>) -> result::Result<(), AllocError>
    ensures { OnOk result (Puts to.old to.new (map (λ i. (Functions, i)) (map place ids.now))) }
{
    for id in ids {
        to.push(ItemId::Function(*id))?;
    }
    Ok(())
}

// The same for tables.
fn push_tables(ids: &[TableId], to: &mut Vec<ItemId>) -> result::Result<(), AllocError>
    ensures { OnOk result (Puts to.old to.new (map (λ i. (Tables, i)) (map place ids.now))) }
{
    for id in ids {
        to.push(ItemId::Table(*id))?;
    }
    Ok(())
}

// The same for memories.
fn push_memories(ids: &[MemoryId], to: &mut Vec<ItemId>) -> result::Result<(), AllocError>
    ensures { OnOk result (Puts to.old to.new (map (λ i. (Memories, i)) (map place ids.now))) }
{
    for id in ids {
        to.push(ItemId::Memory(*id))?;
    }
    Ok(())
}

// The same for tags.
fn push_tags(ids: &[TagId], to: &mut Vec<ItemId>) -> result::Result<(), AllocError>
    ensures { OnOk result (Puts to.old to.new (map (λ i. (Tags, i)) (map place ids.now))) }
{
    for id in ids {
        to.push(ItemId::Tag(*id))?;
    }
    Ok(())
}

// The same for globals.
fn push_globals(ids: &[GlobalId], to: &mut Vec<ItemId>) -> result::Result<(), AllocError>
    ensures { OnOk result (Puts to.old to.new (map (λ i. (Globals, i)) (map place ids.now))) }
{
    for id in ids {
        to.push(ItemId::Global(*id))?;
    }
    Ok(())
}
