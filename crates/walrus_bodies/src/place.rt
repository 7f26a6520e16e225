//! Operators over indices, as operators over the ids of the items at these places (Structure > Modules > Indices).
#![tactic(auto, unfolding(crate::specs::PlainCode::limits_in, crate::specs::Function::name_of, crate::specs::Function::as_text, crate::specs::Function::body_of, crate::specs::Function::locations_of, crate::specs::Function::args_of, crate::specs::Function::handlers_in, crate::specs::Function::listed_in, crate::specs::Function::located_in))]

ghost use Rattle.std.specs.Prelude.{◌≡◌, map, IfOk};
ghost use Rattle.walrus_base.specs.Value.{abstract_heap, heap_type, val_type};
ghost use Rattle.wasm_text.specs.Operators as wire;
ghost use Rattle.walrus_code.specs.Code.{arg_of, args_of, block_of, op_of};
ghost use Rattle.walrus_code.specs.FromRaw as from_raw;
ghost use Rattle.walrus_bodies.specs.Placed.{moved_arg, placed_op};

use std::alloc::{AllocError, Global};
use walrus_base::{AbstractHeapType, HeapType, Id, RefType, ValType};
use walrus_code::{Arg, Args, BlockType, InstrLocId, Operator};
use wasm_forms::{RawHeap, RawVal};
use wasm_opcodes::types::{
    HEAP_ANY, HEAP_ARRAY, HEAP_EQ, HEAP_EXN, HEAP_EXTERN, HEAP_FUNC, HEAP_I31, HEAP_NO_EXTERN,
    HEAP_NO_FUNC, HEAP_NONE, HEAP_STRUCT,
};
use wasm_operators::{RawArg, RawBlock, RawOperator};

// The operator with the id of the item at each place in it, at the location `loc`. Takes no memory for fewer than two arguments.
pub(crate) fn place_operator(
    alloc: Global,
    raw: &RawOperator,
    loc: InstrLocId,
    first_local: u32,
) -> Result<Operator, AllocError>
    ensures placed { IfOk result (λ operator. op_of operator ≡ placed_op first_local (wire.op_of raw.now)) }
    ensures located { IfOk result (λ operator. operator.loc ≡ loc) }
{
    let args = place_args(alloc, raw.args.as_slice(), first_local)?;
    Ok(Operator {
        op: raw.op,
        loc,
        args,
    })
}

// The arguments of an operator.
fn place_args(alloc: Global, args: &[RawArg], first_local: u32) -> Result<Args, AllocError>
    ensures { IfOk result (λ found. args_of found
        ≡ map (moved_arg first_local) (map from_raw.arg_of args.now)) }
{
    match args {
        [] => Ok(Args::None),
        [arg] => Ok(Args::One(place_arg(arg, first_local))),
        _ => Ok(Args::Several(place_each(alloc, args, first_local)?)),
    }
}

// Arguments one by one.
fn place_each(alloc: Global, args: &[RawArg], first_local: u32) -> Result<Vec<Arg>, AllocError>
    ensures { IfOk result (λ found. map arg_of found.items
        ≡ map (moved_arg first_local) (map from_raw.arg_of args.now)) }
{
    let mut found = Vec::with_capacity(alloc, args.len())?;
    for arg in args {
        found.push(place_arg(arg, first_local))?;
    }
    Ok(found)
}

// An argument.
pub(crate) fn place_arg(arg: &RawArg, first_local: u32) -> Arg
    ensures { arg_of result ≡ moved_arg first_local (from_raw.arg_of arg.now) }
{
    match *arg {
        RawArg::Function(index) => Arg::Function(Id::at(index as usize)),
        RawArg::Type(index) => Arg::Type(Id::at(index as usize)),
        RawArg::Table(index) => Arg::Table(Id::at(index as usize)),
        RawArg::Memory(index) => Arg::Memory(Id::at(index as usize)),
        RawArg::Global(index) => Arg::Global(Id::at(index as usize)),
        RawArg::Tag(index) => Arg::Tag(Id::at(index as usize)),
        RawArg::Element(index) => Arg::Element(Id::at(index as usize)),
        RawArg::Data(index) => Arg::Data(Id::at(index as usize)),
        RawArg::Local(index) => Arg::Local(Id::at(first_local as usize + index as usize)),
        RawArg::Label(label) => Arg::Label(label),
        RawArg::Count(count) => Arg::Count(count),
        RawArg::Number(number) => Arg::Number(number),
        RawArg::Byte(byte) => Arg::Byte(byte),
        RawArg::S32(value) => Arg::S32(value),
        RawArg::S64(value) => Arg::S64(value),
        RawArg::F32(bits) => Arg::F32(bits),
        RawArg::F64(bits) => Arg::F64(bits),
        RawArg::Value(value) => Arg::Value(place_value(value)),
        RawArg::Heap(heap) => Arg::Heap(place_heap(heap)),
        RawArg::Block(block) => Arg::Block(place_block(block)),
        RawArg::Access {
            flags,
            memory,
            offset,
        } => Arg::Access {
            flags,
            memory: Id::at(memory as usize),
            offset,
        },
    }
}

// The type of a block.
fn place_block(block: RawBlock) -> BlockType
    ensures { block_of result ≡ from_raw.block_of block }
{
    match block {
        RawBlock::NoResult => BlockType::NoResult,
        RawBlock::OneResult(value) => BlockType::OneResult(place_value(value)),
        RawBlock::OfType(index) => BlockType::OfType(Id::at(index as usize)),
    }
}

// A value type.
fn place_value(value: RawVal) -> ValType
    ensures { val_type result ≡ from_raw.val_of value }
{
    match value {
        RawVal::I32 => ValType::I32,
        RawVal::I64 => ValType::I64,
        RawVal::F32 => ValType::F32,
        RawVal::F64 => ValType::F64,
        RawVal::V128 => ValType::V128,
        RawVal::Ref(reference) => ValType::Ref(RefType {
            nullable: reference.nullable,
            heap_type: place_heap(reference.heap),
        }),
    }
}

// A heap type.
fn place_heap(heap: RawHeap) -> HeapType
    ensures { heap_type result ≡ from_raw.heap_of heap }
{
    match heap {
        RawHeap::Abstract(byte) => HeapType::Abstract(abstract_heap(byte)),
        RawHeap::Index(index) => HeapType::Concrete(Id::at(index as usize)),
    }
}

// The abstract heap type of a byte from 69 to 74 (Binary Format > Types > Heap Types).
fn abstract_heap(byte: u8) -> AbstractHeapType
    ensures { abstract_heap result ≡ from_raw.abstract_of byte }
{
    match byte {
        HEAP_EXN => AbstractHeapType::Exn,
        HEAP_ARRAY => AbstractHeapType::Array,
        HEAP_STRUCT => AbstractHeapType::Struct,
        HEAP_I31 => AbstractHeapType::I31,
        HEAP_EQ => AbstractHeapType::Eq,
        HEAP_ANY => AbstractHeapType::Any,
        HEAP_EXTERN => AbstractHeapType::Extern,
        HEAP_FUNC => AbstractHeapType::Func,
        HEAP_NONE => AbstractHeapType::None,
        HEAP_NO_EXTERN => AbstractHeapType::NoExtern,
        HEAP_NO_FUNC => AbstractHeapType::NoFunc,
        _ => AbstractHeapType::NoExn,
    }
}
