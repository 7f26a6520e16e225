//! The numbers of an operator that the code holds are in their ranges, as contracts.

ghost use Rattle.std.specs.Prelude.{◌<◌, ◌^◌};
ghost use Rattle.wasm_forms.specs.Writing.{EachFits};
ghost use Rattle.wasm_operators.specs.Operators.{op_of};
ghost use Rattle.wasm_operators.specs.Standing.{ArgHeld, BlockHeld, HeapHeld, OpStands, ValueHeld};

use crate::operator::{RawArg, RawBlock, RawOperator};
use wasm_forms::{RawHeap, RawVal};

/// What the code holds as a byte is in its range.
fn byte_is_held(byte: &u8)
    ensures { byte.now < 2 ^ 8 }
{
    let _byte = *byte;
}

/// What the code holds as a number of 32 bits is in its range.
fn number_is_held(number: &u32)
    ensures { number.now < 2 ^ 32 }
{
    let _number = *number;
}

/// What the code holds as a number of 64 bits is in its range.
fn wide_is_held(number: &u64)
    ensures { number.now < 2 ^ 64 }
{
    let _number = *number;
}

/// What the code holds as a value type is in its range.
fn value_is_held(value: &RawVal)
    ensures { ValueHeld value.now }
{
    if let RawVal::Ref(reference) = value {
        heap_is_held(&reference.heap);
    }
}

/// What the code holds as a heap type is in its range.
fn heap_is_held(heap: &RawHeap)
    ensures { HeapHeld heap.now }
{
    match heap {
        RawHeap::Abstract(byte) => byte_is_held(byte),
        RawHeap::Index(index) => number_is_held(index),
    }
}

/// What the code holds as the type of a block is in its range.
fn block_is_held(block: &RawBlock)
    ensures { BlockHeld block.now }
{
    match block {
        RawBlock::NoResult => {}
        RawBlock::OneResult(value) => value_is_held(value),
        RawBlock::OfType(index) => number_is_held(index),
    }
}

/// What the code holds as an argument is in its range.
fn arg_is_held(arg: &RawArg)
    ensures { ArgHeld arg.now }
{
    match arg {
        RawArg::Function(number)
        | RawArg::Type(number)
        | RawArg::Table(number)
        | RawArg::Memory(number)
        | RawArg::Global(number)
        | RawArg::Tag(number)
        | RawArg::Element(number)
        | RawArg::Data(number)
        | RawArg::Local(number)
        | RawArg::Label(number)
        | RawArg::Count(number)
        | RawArg::Number(number)
        | RawArg::F32(number) => number_is_held(number),
        RawArg::Byte(byte) => byte_is_held(byte),
        RawArg::S32(value) => {
            let _value = *value;
        }
        RawArg::S64(value) => {
            let _value = *value;
        }
        RawArg::F64(bits) => wide_is_held(bits),
        RawArg::Value(value) => value_is_held(value),
        RawArg::Heap(heap) => heap_is_held(heap),
        RawArg::Block(block) => block_is_held(block),
        RawArg::Access {
            flags,
            memory,
            offset,
        } => {
            let _flags = *flags;
            let _memory = *memory;
            let _offset = *offset;
        }
    }
}

/// What the code holds as arguments is in their ranges.
fn args_are_held(args: &[RawArg])
    ensures { EachFits ArgHeld args.now }
{
    'each: for arg in args {
        arg_is_held(arg);
    }
}

/// What the code holds as an operator has its numbers in their ranges, and so is one of those of which
/// [`operator_spelling_stands`](crate::operator_spelling_stands) speaks. A law, for proofs: it does nothing.
pub fn operator_is_held(operator: &RawOperator)
    ensures { OpStands (op_of operator.now) }
{
    args_are_held(operator.args.as_slice());
}
