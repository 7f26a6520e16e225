//! Chains of references from a root to an item, where one leads there.

use crate::counted::{DROPS_DATA, GROUP};
use crate::made::read;
use std::alloc::Global;
use std::test::Fail;
use test_support::demand;
use walrus::passes::why::chain_to;
use walrus::{DataId, FunctionId, GlobalId, ItemId, MemoryId, Result, TypeId};

// Whether the answer is this chain, or none where this is empty.
fn is_chain(answer: Result<Option<Vec<ItemId>>>, wanted: &[ItemId]) -> bool {
    match answer {
        Ok(Some(chain)) => chain.as_slice() == wanted,
        Ok(None) => wanted.is_empty(),
        Err(_) => false,
    }
}

// Whether this chain leads to the item in the module that the text says, or none where this is empty.
fn leads(alloc: Global, text: &str, item: ItemId, wanted: &[ItemId]) -> bool {
    match read(alloc, text) {
        Ok(module) => is_chain(chain_to(alloc, &module, item), wanted),
        Err(_) => false,
    }
}

#[test]
fn a_member_is_named_by_its_type(rt: HostRuntime) -> std::result::Result<(), Fail> {
    let global = ItemId::Global(GlobalId::at(0));
    let first = ItemId::Type(TypeId::at(0));
    let second = ItemId::Type(TypeId::at(1));
    let wanted = [global, first, second];
    demand(
        leads(rt.alloc(), GROUP, second, &wanted),
        "the global, its type, the other one of the group",
    )?;
    demand(
        leads(rt.alloc(), GROUP, global, &wanted[..1]),
        "a root alone",
    )
}

#[test]
fn the_spare_memory_is_not_reached(rt: HostRuntime) -> std::result::Result<(), Fail> {
    let data = ItemId::Data(DataId::at(0));
    let wanted = [ItemId::Function(FunctionId::at(0)), data];
    demand(
        leads(rt.alloc(), DROPS_DATA, data, &wanted),
        "the function that drops the segment",
    )?;
    let memory = ItemId::Memory(MemoryId::at(0));
    demand(leads(rt.alloc(), DROPS_DATA, memory, &[]), "the memory")
}
