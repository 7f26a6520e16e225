//! Operators over ids, as operators over indices (Structure > Modules > Indices).
ghost use Rattle.std.specs.Prelude.{◌≡◌, ◌<◌, true, length, map, ok_or, All, IfOk};
ghost use Rattle.wasm_forms.specs.Types.{is_abstract, HeapStands, ValueStands};
ghost use Rattle.walrus_base.specs.Value.{abstract_heap, heap_type, val_type};
ghost use Rattle.wasm_operators.specs.Operators as wire;
ghost use Rattle.walrus_code.specs.declared.error.IrError.TheVariants.{NoIndex};
ghost use Rattle.walrus_code.specs.Code.{arg_of, args_of, block_of, op_of};
ghost use Rattle.walrus_code.specs.FromRaw as from_raw;
ghost use Rattle.walrus_code.specs.Indices.{index_of, local_index};
ghost use Rattle.walrus_code.specs.Names.{named_heap, named_val, named_block, named_arg, named_args, named_op};
ghost use Rattle.walrus_code.specs.Results.{heap_is_exact, val_is_exact, block_is_exact, arg_is_exact, args_are_exact, Indexes, IndexesIn, NeedsNoMemory};
ghost use Rattle.walrus_code.specs.Stands.{BlockStands, ArgStands};

use crate::error::IrError;
use crate::local_numbers::LocalNumbers;
use crate::numbering::IdsToIndices;
use crate::operator::{Arg, BlockType, Operator};
use std::alloc::Global;
use walrus_base::{AbstractHeapType, HeapType, ValType};
use wasm_forms::{RawHeap, RawRef, RawVal};
use wasm_opcodes::types::{
    HEAP_ANY, HEAP_ARRAY, HEAP_EQ, HEAP_EXN, HEAP_EXTERN, HEAP_FUNC, HEAP_I31, HEAP_NO_EXN,
    HEAP_NO_EXTERN, HEAP_NO_FUNC, HEAP_NONE, HEAP_STRUCT,
};
use wasm_operators::{RawArg, RawArgs, RawBlock, RawOperator};

/// The operator with the index for each item and local in it, which bytes can spell. `locals` are the indices of the
/// function's locals. Takes no memory for fewer than two arguments.
///
/// Refused as [`IrError::NoIndex`] where an item or a local in it has no index, as [`IrError::NotWritable`] where an exact
/// heap type stands in it.
pub fn index_operator(
    alloc: Global,
    operator: &Operator,
    indices: &IdsToIndices,
    locals: &LocalNumbers,
) -> Result<RawOperator, IrError>
    ensures indexed { Indexes (λ raw. from_raw.op_of (wire.op_of raw)) result (op_of operator.now)
        (named_op (index_of indices.now) (local_index locals.now) (op_of operator.now)) }
    ensures spelled { IfOk result (λ raw. All ArgStands (wire.args_of raw.args)) }
    ensures few_arguments { length (args_of operator.now.args) < 2 → NeedsNoMemory result }
{
    let args = index_args(alloc, operator.args.as_slice(), indices, locals)?;
    Ok(RawOperator {
        op: operator.op,
        args,
    })
}

// The arguments of an operator.
fn index_args(
    alloc: Global,
    args: &[Arg],
    indices: &IdsToIndices,
    locals: &LocalNumbers,
) -> Result<RawArgs, IrError>
    ensures indexed { IndexesIn (λ raw. map from_raw.arg_of (wire.args_of raw)) result
        (args_are_exact (map arg_of args.now)) (named_args (index_of indices.now) (local_index locals.now)
        (map arg_of args.now)) }
    ensures spelled { IfOk result (λ raw. All ArgStands (wire.args_of raw)) }
    ensures few { length args.now < 2 → NeedsNoMemory result }
{
    match args {
        [] => Ok(RawArgs::None),
        [arg] => Ok(RawArgs::One(index_arg(arg, indices, locals)?)),
        _ => Ok(RawArgs::Several(index_each(alloc, args, indices, locals)?)),
    }
}

// Arguments one by one.
fn index_each(
    alloc: Global,
    args: &[Arg],
    indices: &IdsToIndices,
    locals: &LocalNumbers,
) -> Result<Vec<RawArg>, IrError>
    ensures indexed { IndexesIn (λ raw. map from_raw.arg_of raw.items) result
        (args_are_exact (map arg_of args.now)) (named_args (index_of indices.now) (local_index locals.now)
        (map arg_of args.now)) }
    ensures spelled { IfOk result (λ raw. All ArgStands raw.items) }
{
    let mut raw = Vec::with_capacity(alloc, args.len())?;
    for arg in args {
        raw.push(index_arg(arg, indices, locals)?)?;
    }
    Ok(raw)
}

// An argument.
fn index_arg(arg: &Arg, indices: &IdsToIndices, locals: &LocalNumbers) -> Result<RawArg, IrError>
    ensures indexed { IndexesIn from_raw.arg_of result (arg_is_exact (arg_of arg.now))
        (named_arg (index_of indices.now) (local_index locals.now) (arg_of arg.now)) }
    ensures spelled { IfOk result ArgStands }
    ensures memory { NeedsNoMemory result }
{
    match *arg {
        Arg::Function(id) => Ok(RawArg::Function(given(indices.get_func_index(id))?)),
        Arg::Type(id) => Ok(RawArg::Type(given(indices.get_type_index(id))?)),
        Arg::Table(id) => Ok(RawArg::Table(given(indices.get_table_index(id))?)),
        Arg::Memory(id) => Ok(RawArg::Memory(given(indices.get_memory_index(id))?)),
        Arg::Global(id) => Ok(RawArg::Global(given(indices.get_global_index(id))?)),
        Arg::Tag(id) => Ok(RawArg::Tag(given(indices.get_tag_index(id))?)),
        Arg::Element(id) => Ok(RawArg::Element(given(indices.get_element_index(id))?)),
        Arg::Data(id) => Ok(RawArg::Data(given(indices.get_data_index(id))?)),
        Arg::Local(id) => Ok(RawArg::Local(given(locals.get(id))?)),
        Arg::Label(label) => Ok(RawArg::Label(label)),
        Arg::Count(count) => Ok(RawArg::Count(count)),
        Arg::Number(number) => Ok(RawArg::Number(number)),
        Arg::Byte(byte) => Ok(RawArg::Byte(byte)),
        Arg::S32(value) => Ok(RawArg::S32(value)),
        Arg::S64(value) => Ok(RawArg::S64(value)),
        Arg::F32(bits) => Ok(RawArg::F32(bits)),
        Arg::F64(bits) => Ok(RawArg::F64(bits)),
        Arg::Value(value) => Ok(RawArg::Value(index_value(value, indices)?)),
        Arg::Heap(heap) => Ok(RawArg::Heap(index_heap(heap, indices)?)),
        Arg::Block(block) => Ok(RawArg::Block(index_block(block, indices)?)),
        Arg::Access {
            flags,
            memory,
            offset,
        } => Ok(RawArg::Access {
            flags,
            memory: given(indices.get_memory_index(memory))?,
            offset,
        }),
    }
}

// The type of a block.
fn index_block(block: BlockType, indices: &IdsToIndices) -> Result<RawBlock, IrError>
    ensures indexed { IndexesIn from_raw.block_of result (block_is_exact (block_of block))
        (named_block (index_of indices.now) (block_of block)) }
    ensures spelled { IfOk result BlockStands }
    ensures memory { NeedsNoMemory result }
{
    match block {
        BlockType::NoResult => Ok(RawBlock::NoResult),
        BlockType::OneResult(value) => Ok(RawBlock::OneResult(index_value(value, indices)?)),
        BlockType::OfType(id) => Ok(RawBlock::OfType(given(indices.get_type_index(id))?)),
    }
}

/// The value type with the index for the id of a type in it. Takes no memory.
///
/// Refused as [`IrError::NoIndex`] where that type has no index, as [`IrError::NotWritable`] where it is exact.
pub fn index_value(value: ValType, indices: &IdsToIndices) -> Result<RawVal, IrError>
    ensures indexed { IndexesIn from_raw.val_of result (val_is_exact (val_type value))
        (named_val (index_of indices.now) (val_type value)) }
    ensures spelled { IfOk result ValueStands }
    ensures memory { NeedsNoMemory result }
{
    match value {
        ValType::I32 => Ok(RawVal::I32),
        ValType::I64 => Ok(RawVal::I64),
        ValType::F32 => Ok(RawVal::F32),
        ValType::F64 => Ok(RawVal::F64),
        ValType::V128 => Ok(RawVal::V128),
        ValType::Ref(reference) => Ok(RawVal::Ref(RawRef {
            nullable: reference.nullable,
            heap: index_heap(reference.heap_type, indices)?,
        })),
    }
}

// A heap type.
fn index_heap(heap: HeapType, indices: &IdsToIndices) -> Result<RawHeap, IrError>
    ensures indexed { IndexesIn from_raw.heap_of result (heap_is_exact (heap_type heap))
        (named_heap (index_of indices.now) (heap_type heap)) }
    ensures spelled { IfOk result HeapStands }
    ensures memory { NeedsNoMemory result }
{
    match heap {
        HeapType::Abstract(heap) => Ok(RawHeap::Abstract(abstract_byte(heap))),
        HeapType::Concrete(id) => Ok(RawHeap::Index(given(indices.get_type_index(id))?)),
        HeapType::Exact(_) => Err(IrError::NotWritable),
    }
}

// The byte of an abstract heap type (Binary Format > Types > Heap Types).
fn abstract_byte(heap: AbstractHeapType) -> u8
    ensures spells { from_raw.abstract_of result ≡ abstract_heap heap }
    ensures in_range { is_abstract result ≡ true }
{
    match heap {
        AbstractHeapType::Exn => HEAP_EXN,
        AbstractHeapType::Array => HEAP_ARRAY,
        AbstractHeapType::Struct => HEAP_STRUCT,
        AbstractHeapType::I31 => HEAP_I31,
        AbstractHeapType::Eq => HEAP_EQ,
        AbstractHeapType::Any => HEAP_ANY,
        AbstractHeapType::Extern => HEAP_EXTERN,
        AbstractHeapType::Func => HEAP_FUNC,
        AbstractHeapType::None => HEAP_NONE,
        AbstractHeapType::NoExtern => HEAP_NO_EXTERN,
        AbstractHeapType::NoFunc => HEAP_NO_FUNC,
        AbstractHeapType::NoExn => HEAP_NO_EXN,
    }
}

// The index, where one is given.
fn given(index: Option<u32>) -> Result<u32, IrError>
    ensures { result ≡ ok_or index NoIndex }
{
    index.ok_or(IrError::NoIndex)
}
