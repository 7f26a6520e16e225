//! What operators name (Structure > Modules > Indices).
ghost use Rattle.std.specs.Prelude.{◌≡◌, ◌++◌, length, map, flat_map, take, option_map, option_to_list, OnOk, OnErr};
ghost use Rattle.walrus_base.specs.Id.{place};
ghost use Rattle.walrus_base.specs.Operators.{type_item, arg_names, arg_locals, op_names, op_locals, block_names};
ghost use Rattle.walrus_base.specs.Value.{val_type, heap_type};
ghost use Rattle.walrus_base.specs.Types.{heap_names, val_names};
ghost use Rattle.walrus_code.specs.Code.{arg_of, block_of, item_of, op_of};

use crate::operator::{Arg, BlockType, Operator};
use std::alloc::AllocError;
use walrus_base::{
    DataId, ElementId, FunctionId, GlobalId, HeapType, LocalId, MemoryId, TableId, TagId, TypeId,
    ValType,
};

/// An item that an operator can name, in one of the index spaces.
#[derive(Clone, Copy, Debug, PartialEq, Eq, PartialOrd, Ord, Hash)]
pub enum ItemId {
    /// A type.
    Type(TypeId),
    /// A function.
    Function(FunctionId),
    /// A table.
    Table(TableId),
    /// A memory.
    Memory(MemoryId),
    /// A tag.
    Tag(TagId),
    /// A global.
    Global(GlobalId),
    /// An element segment.
    Element(ElementId),
    /// A data segment.
    Data(DataId),
}

/// Puts the items that the operator names behind those of `to`, in the order in which they stand in it. Where memory runs
/// out, nothing changes.
pub fn push_names(to: &mut Vec<ItemId>, operator: &Operator) -> Result<(), AllocError>
    ensures names { OnOk result (map item_of to.new.items ≡ map item_of to.old.items
        ++ op_names (op_of operator.now)) }
    ensures unchanged { OnErr result (to.new.items ≡ to.old.items) }
{
    let before = to.len();
    let pushed = push_items(to, operator.args.as_slice());
    if pushed.is_err() {
        to.truncate(before);
    }
    pushed
}

// The items that arguments name. Refused, some of them may stand behind those of `to`.
fn push_items(to: &mut Vec<ItemId>, args: &[Arg]) -> Result<(), AllocError>
    ensures names { OnOk result (map item_of to.new.items ≡ map item_of to.old.items ++ flat_map arg_names
        (map arg_of args.now)) }
    ensures kept { take (length to.old.items) to.new.items ≡ to.old.items }
{
    for arg in args {
        if let Some(item) = item_of_arg(arg) {
            to.push(item)?;
        }
    }
    Ok(())
}

// The item that an argument names.
fn item_of_arg(arg: &Arg) -> Option<ItemId>
    ensures { map item_of (option_to_list result) ≡ arg_names (arg_of arg.now) }
{
    match *arg {
        Arg::Function(id) => Some(ItemId::Function(id)),
        Arg::Type(id) => Some(ItemId::Type(id)),
        Arg::Table(id) => Some(ItemId::Table(id)),
        Arg::Memory(memory) | Arg::Access { memory, .. } => Some(ItemId::Memory(memory)),
        Arg::Global(id) => Some(ItemId::Global(id)),
        Arg::Tag(id) => Some(ItemId::Tag(id)),
        Arg::Element(id) => Some(ItemId::Element(id)),
        Arg::Data(id) => Some(ItemId::Data(id)),
        Arg::Value(value) => type_of_value(value).map(ItemId::Type),
        Arg::Heap(heap) => type_of_heap(heap).map(ItemId::Type),
        Arg::Block(block) => type_of_block(block).map(ItemId::Type),
        Arg::Local(_)
        | Arg::Label(_)
        | Arg::Count(_)
        | Arg::Number(_)
        | Arg::Byte(_)
        | Arg::S32(_)
        | Arg::S64(_)
        | Arg::F32(_)
        | Arg::F64(_) => None,
    }
}

// The type that the type of a block names.
fn type_of_block(block: BlockType) -> Option<TypeId>
    ensures { map place (option_to_list result) ≡ block_names (block_of block) }
{
    match block {
        BlockType::NoResult => None,
        BlockType::OneResult(value) => type_of_value(value),
        BlockType::OfType(id) => Some(id),
    }
}

// The type that a value type names.
fn type_of_value(value: ValType) -> Option<TypeId>
    ensures { map place (option_to_list result) ≡ val_names (val_type value) }
{
    match value {
        ValType::I32 | ValType::I64 | ValType::F32 | ValType::F64 | ValType::V128 => None,
        ValType::Ref(reference) => type_of_heap(reference.heap_type),
    }
}

// The type that a heap type names.
fn type_of_heap(heap: HeapType) -> Option<TypeId>
    ensures { map place (option_to_list result) ≡ heap_names (heap_type heap) }
{
    match heap {
        HeapType::Abstract(_) => None,
        HeapType::Concrete(id) | HeapType::Exact(id) => Some(id),
    }
}

/// Puts the locals that the operator names behind those of `to`, in the order in which they stand in it. Where memory runs
/// out, nothing changes.
pub fn push_locals(to: &mut Vec<LocalId>, operator: &Operator) -> Result<(), AllocError>
    ensures locals { OnOk result (map place to.new.items ≡ map place to.old.items
        ++ op_locals (op_of operator.now)) }
    ensures unchanged { OnErr result (to.new.items ≡ to.old.items) }
{
    let start = to.len();
    let pushed = push_arg_locals(to, operator.args.as_slice());
    if pushed.is_err() {
        to.truncate(start);
    }
    pushed
}

// The locals that arguments name. Refused, some of them may stand behind those of `to`.
fn push_arg_locals(to: &mut Vec<LocalId>, args: &[Arg]) -> Result<(), AllocError>
    ensures locals { OnOk result (map place to.new.items ≡ map place to.old.items ++ flat_map arg_locals
        (map arg_of args.now)) }
    ensures kept { take (length to.old.items) to.new.items ≡ to.old.items }
{
    for arg in args {
        if let Arg::Local(id) = *arg {
            to.push(id)?;
        }
    }
    Ok(())
}
