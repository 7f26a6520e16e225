//! Operators over indices, as operators over ids (Structure > Modules > Indices).
ghost use Rattle.std.specs.Prelude.{◌≡◌, ◌<◌, length, map, option_map, IfOk};
ghost use Rattle.walrus_base.specs.Value.{abstract_heap, heap_type, val_type};
ghost use Rattle.wasm_operators.specs.Operators as wire;
ghost use Rattle.walrus_code.specs.Code.{arg_of, args_of, block_of, op_of};
ghost use Rattle.walrus_code.specs.FromRaw as from_raw;
ghost use Rattle.walrus_code.specs.Indices.{ids_at};
ghost use Rattle.walrus_code.specs.Names.{named_heap, named_val, named_block, named_arg, named_args, named_op};
ghost use Rattle.walrus_code.specs.Results.{locals_at, Finds, NeedsNoMemory};

use crate::error::IrError;
use crate::indices::IndicesToIds;
use crate::location::InstrLocId;
use crate::operator::{Arg, Args, BlockType, Operator};
use std::alloc::Global;
use walrus_base::{AbstractHeapType, HeapType, LocalId, RefType, ValType};
use wasm_forms::{RawHeap, RawVal};
use wasm_opcodes::types::{
    HEAP_ANY, HEAP_ARRAY, HEAP_EQ, HEAP_EXN, HEAP_EXTERN, HEAP_FUNC, HEAP_I31, HEAP_NO_EXTERN,
    HEAP_NO_FUNC, HEAP_NONE, HEAP_STRUCT,
};
use wasm_operators::{RawArg, RawBlock, RawOperator};

/// The operator with the id for each index of an item or a local in it, at the location `loc`. `locals` are the function's
/// locals by their indices. Takes no memory for fewer than two arguments.
///
/// Refused as [`IrError::Malformed`] where an index in it isn't declared.
pub fn name_operator(
    alloc: Global,
    raw: &RawOperator,
    loc: InstrLocId,
    indices: &IndicesToIds,
    locals: &[LocalId],
) -> Result<Operator, IrError>
    ensures named { Finds op_of result (named_op (ids_at indices.now) (locals_at locals.now)
        (from_raw.op_of (wire.op_of raw.now))) }
    ensures located { IfOk result (λ operator. operator.loc ≡ loc) }
    ensures few_arguments { length (wire.args_of raw.now.args) < 2 → NeedsNoMemory result }
{
    let args = name_args(alloc, raw.args.as_slice(), indices, locals)?;
    Ok(Operator {
        op: raw.op,
        args,
        loc,
    })
}

// The arguments of an operator.
fn name_args(
    alloc: Global,
    args: &[RawArg],
    indices: &IndicesToIds,
    locals: &[LocalId],
) -> Result<Args, IrError>
    ensures named { Finds args_of result (named_args (ids_at indices.now) (locals_at locals.now)
        (map from_raw.arg_of args.now)) }
    ensures few { length args.now < 2 → NeedsNoMemory result }
{
    match args {
        [] => Ok(Args::None),
        [arg] => match name_arg(arg, indices, locals) {
            Some(found) => Ok(Args::One(found)),
            None => Err(IrError::Malformed),
        },
        _ => Ok(Args::Several(name_each(alloc, args, indices, locals)?)),
    }
}

// Arguments one by one.
fn name_each(
    alloc: Global,
    args: &[RawArg],
    indices: &IndicesToIds,
    locals: &[LocalId],
) -> Result<Vec<Arg>, IrError>
    ensures { Finds (λ found. map arg_of found.items) result
        (named_args (ids_at indices.now) (locals_at locals.now) (map from_raw.arg_of args.now)) }
{
    let mut found = Vec::with_capacity(alloc, args.len())?;
    for arg in args {
        let Some(named) = name_arg(arg, indices, locals) else {
            return Err(IrError::Malformed);
        };
        found.push(named)?;
    }
    Ok(found)
}

// An argument; none where an index in it isn't declared.
fn name_arg(arg: &RawArg, indices: &IndicesToIds, locals: &[LocalId]) -> Option<Arg>
    ensures { option_map arg_of result ≡ named_arg (ids_at indices.now) (locals_at locals.now)
        (from_raw.arg_of arg.now) }
{
    match *arg {
        RawArg::Function(index) => Some(Arg::Function(indices.get_func(index)?)),
        RawArg::Type(index) => Some(Arg::Type(indices.get_type(index)?)),
        RawArg::Table(index) => Some(Arg::Table(indices.get_table(index)?)),
        RawArg::Memory(index) => Some(Arg::Memory(indices.get_memory(index)?)),
        RawArg::Global(index) => Some(Arg::Global(indices.get_global(index)?)),
        RawArg::Tag(index) => Some(Arg::Tag(indices.get_tag(index)?)),
        RawArg::Element(index) => Some(Arg::Element(indices.get_element(index)?)),
        RawArg::Data(index) => Some(Arg::Data(indices.get_data(index)?)),
        RawArg::Local(index) => Some(Arg::Local(*locals.get(index as usize)?)),
        RawArg::Label(label) => Some(Arg::Label(label)),
        RawArg::Count(count) => Some(Arg::Count(count)),
        RawArg::Number(number) => Some(Arg::Number(number)),
        RawArg::Byte(byte) => Some(Arg::Byte(byte)),
        RawArg::S32(value) => Some(Arg::S32(value)),
        RawArg::S64(value) => Some(Arg::S64(value)),
        RawArg::F32(bits) => Some(Arg::F32(bits)),
        RawArg::F64(bits) => Some(Arg::F64(bits)),
        RawArg::Value(value) => Some(Arg::Value(name_value(value, indices)?)),
        RawArg::Heap(heap) => Some(Arg::Heap(name_heap(heap, indices)?)),
        RawArg::Block(block) => Some(Arg::Block(name_block(block, indices)?)),
        RawArg::Access {
            flags,
            memory,
            offset,
        } => Some(Arg::Access {
            flags,
            memory: indices.get_memory(memory)?,
            offset,
        }),
    }
}

// The type of a block; none where an index in it isn't declared.
fn name_block(block: RawBlock, indices: &IndicesToIds) -> Option<BlockType>
    ensures { option_map block_of result ≡ named_block (ids_at indices.now) (from_raw.block_of block) }
{
    match block {
        RawBlock::NoResult => Some(BlockType::NoResult),
        RawBlock::OneResult(value) => Some(BlockType::OneResult(name_value(value, indices)?)),
        RawBlock::OfType(index) => Some(BlockType::OfType(indices.get_type(index)?)),
    }
}

/// The value type with the id for the index of a type in it; none where that index isn't declared.
pub fn name_value(value: RawVal, indices: &IndicesToIds) -> Option<ValType>
    ensures { option_map val_type result ≡ named_val (ids_at indices.now) (from_raw.val_of value) }
{
    match value {
        RawVal::I32 => Some(ValType::I32),
        RawVal::I64 => Some(ValType::I64),
        RawVal::F32 => Some(ValType::F32),
        RawVal::F64 => Some(ValType::F64),
        RawVal::V128 => Some(ValType::V128),
        RawVal::Ref(reference) => Some(ValType::Ref(RefType {
            nullable: reference.nullable,
            heap_type: name_heap(reference.heap, indices)?,
        })),
    }
}

// A heap type; none where an index in it isn't declared.
fn name_heap(heap: RawHeap, indices: &IndicesToIds) -> Option<HeapType>
    ensures { option_map heap_type result ≡ named_heap (ids_at indices.now) (from_raw.heap_of heap) }
{
    match heap {
        RawHeap::Abstract(byte) => Some(HeapType::Abstract(abstract_heap(byte))),
        RawHeap::Index(index) => Some(HeapType::Concrete(indices.get_type(index)?)),
    }
}

// The abstract heap type of a byte from 69 to 74 (Binary Format > Types > Heap Types).
fn abstract_heap(byte: u8) -> AbstractHeapType
    ensures { abstract_heap result ≡ from_raw.abstract_of byte }
{
    match byte {
        HEAP_EXN => AbstractHeapType::Exn,
        HEAP_ARRAY => AbstractHeapType::Array,
        HEAP_STRUCT => AbstractHeapType::Struct,
        HEAP_I31 => AbstractHeapType::I31,
        HEAP_EQ => AbstractHeapType::Eq,
        HEAP_ANY => AbstractHeapType::Any,
        HEAP_EXTERN => AbstractHeapType::Extern,
        HEAP_FUNC => AbstractHeapType::Func,
        HEAP_NONE => AbstractHeapType::None,
        HEAP_NO_EXTERN => AbstractHeapType::NoExtern,
        HEAP_NO_FUNC => AbstractHeapType::NoFunc,
        _ => AbstractHeapType::NoExn,
    }
}
