//! Constant expressions over ids, as constant expressions over indices.
ghost use Rattle.std.specs.Prelude.{◌≡◌, ◌∷◌, [], map, ok_or, All, IfOk};
ghost use Rattle.wasm_entries.specs.Record.{expression};
ghost use Rattle.wasm_entries.specs.Spelling.{ConstStands, ExpressionStands};
ghost use Rattle.walrus_base.specs.ConstOps.{const_op, const_ops, value_op, vector_const};
ghost use Rattle.walrus_code.specs.Indices.{index_of};
ghost use Rattle.walrus_code.specs.Results.{Indexes, IndexesIn, NeedsNoMemory};
ghost use Rattle.walrus_code.specs.declared.error.IrError.TheVariants.{NoIndex};
ghost use Rattle.walrus_model.specs.Constants.{const_of, consts_of};
ghost use Rattle.walrus_constants.specs.Named.{named_const_op, named_const};
ghost use Rattle.walrus_constants.specs.Written.{ops_are_exact, IndexesConst, IndexesConsts};

use crate::heap::raw_heap;
use std::alloc::Global;
use walrus_base::{ConstExpr, ConstOp, Value};
use walrus_code::{IdsToIndices, IrError};
use wasm_entries::{RawConst, RawExpression};

/// The constant expression with the index for each id in it, which bytes can spell (Binary Format > Instructions > Expressions).
///
/// # Errors
///
/// [`IrError::NoIndex`] where an item in it has no index, [`IrError::NotWritable`] where it has no operator or an exact heap
/// type stands in it, and [`IrError::Memory`].
pub fn raw_const(
    alloc: Global,
    expr: &ConstExpr,
    indices: &IdsToIndices,
) -> Result<RawExpression, IrError>
    ensures indexed { IndexesConst (λ raw. consts_of (expression raw)) (index_of indices.now)
        (const_ops expr.now) result }
    ensures spelled { IfOk result (λ raw. ExpressionStands (expression raw)) }
{
    match expr {
        ConstExpr::Value(value) => raw_alone(op_of_value(*value), indices),
        ConstExpr::Global(id) => raw_alone(ConstOp::GlobalGet(*id), indices),
        ConstExpr::RefNull(ty) => raw_alone(ConstOp::RefNull(ty.heap_type), indices),
        ConstExpr::RefFunc(id) => raw_alone(ConstOp::RefFunc(*id), indices),
        ConstExpr::Extended(ops) => raw_ops(alloc, ops.as_slice(), indices),
    }
}

/// The constant expressions with the index for each id in them, one by one, which bytes can spell: the items of a segment of elements
/// (Binary Format > Modules > Element Section).
///
/// # Errors
///
/// Those of [`raw_const`] for the first of them that is refused, and [`IrError::Memory`].
pub fn raw_consts(
    alloc: Global,
    all: &[ConstExpr],
    indices: &IdsToIndices,
) -> Result<Vec<RawExpression>, IrError>
    ensures indexed { IndexesConsts (λ raw. map consts_of (map expression raw.items)) (index_of indices.now)
        (map const_ops all.now) result }
    ensures spelled { IfOk result (λ raw. All ExpressionStands (map expression raw.items)) }
{
    let mut raw = Vec::with_capacity(alloc, all.len())?;
    for expr in all {
        raw.push(raw_const(alloc, expr, indices)?)?;
    }
    Ok(raw)
}

// The operator of a constant.
fn op_of_value(value: Value) -> ConstOp
    ensures { const_op result ≡ value_op value }
{
    match value {
        Value::I32(number) => ConstOp::I32Const(number),
        Value::I64(number) => ConstOp::I64Const(number),
        Value::F32(bits) => ConstOp::F32Const(bits),
        Value::F64(bits) => ConstOp::F64Const(bits),
        Value::V128(bytes) => ConstOp::V128Const(bytes),
    }
}

// The expression of one operator.
fn raw_alone(op: ConstOp, indices: &IdsToIndices) -> Result<RawExpression, IrError>
    ensures indexed { IndexesConst (λ raw. consts_of (expression raw)) (index_of indices.now)
        (const_op op ∷ []) result }
    ensures spelled { IfOk result (λ raw. ExpressionStands (expression raw)) }
{
    Ok(RawExpression::Single(raw_op(&op, indices)?))
}

// The expression of operators.
fn raw_ops(alloc: Global, ops: &[ConstOp], indices: &IdsToIndices) -> Result<RawExpression, IrError>
    ensures indexed { IndexesConst (λ raw. consts_of (expression raw)) (index_of indices.now)
        (map const_op ops.now) result }
    ensures spelled { IfOk result (λ raw. ExpressionStands (expression raw)) }
{
    if ops.is_empty() {
        return Err(IrError::NotWritable);
    }
    Ok(RawExpression::Listed(raw_each(alloc, ops, indices)?))
}

// Operators one by one.
fn raw_each(
    alloc: Global,
    ops: &[ConstOp],
    indices: &IdsToIndices,
) -> Result<Vec<RawConst>, IrError>
    ensures indexed { IndexesIn (λ raw. consts_of raw.items) result (ops_are_exact (map const_op ops.now))
        (named_const (index_of indices.now) (map const_op ops.now)) }
    ensures spelled { IfOk result (λ raw. All ConstStands raw.items) }
{
    let mut raw = Vec::with_capacity(alloc, ops.len())?;
    for op in ops {
        raw.push(raw_op(op, indices)?)?;
    }
    Ok(raw)
}

/// The operator of a constant expression with the index for each id in it, which bytes can spell. Takes no memory.
///
/// # Errors
///
/// [`IrError::NoIndex`] where an item in it has no index, [`IrError::NotWritable`] where it is the null of an exact heap type.
pub fn raw_op(op: &ConstOp, indices: &IdsToIndices) -> Result<RawConst, IrError>
    ensures indexed { Indexes const_of result (const_op op.now)
        (named_const_op (index_of indices.now) (const_op op.now)) }
    ensures spelled { IfOk result ConstStands }
    ensures memory { NeedsNoMemory result }
{
    match *op {
        ConstOp::GlobalGet(id) => Ok(RawConst::GlobalGet(given(indices.get_global_index(id))?)),
        ConstOp::I32Const(value) => Ok(RawConst::I32Const(value)),
        ConstOp::I64Const(value) => Ok(RawConst::I64Const(value)),
        ConstOp::F32Const(bits) => Ok(RawConst::F32Const(bits)),
        ConstOp::F64Const(bits) => Ok(RawConst::F64Const(bits)),
        ConstOp::V128Const(bytes) => Ok(raw_vector(bytes)),
        ConstOp::I32Add => Ok(RawConst::I32Add),
        ConstOp::I32Sub => Ok(RawConst::I32Sub),
        ConstOp::I32Mul => Ok(RawConst::I32Mul),
        ConstOp::I64Add => Ok(RawConst::I64Add),
        ConstOp::I64Sub => Ok(RawConst::I64Sub),
        ConstOp::I64Mul => Ok(RawConst::I64Mul),
        ConstOp::RefNull(heap) => Ok(RawConst::RefNull(raw_heap(heap, indices)?)),
        ConstOp::RefFunc(id) => Ok(RawConst::RefFunc(given(indices.get_func_index(id))?)),
        ConstOp::StructNew(id) => Ok(RawConst::StructNew(given(indices.get_type_index(id))?)),
        ConstOp::StructNewDefault(id) => {
            let index = given(indices.get_type_index(id))?;
            Ok(RawConst::StructNewDefault(index))
        }
        ConstOp::ArrayNew(id) => Ok(RawConst::ArrayNew(given(indices.get_type_index(id))?)),
        ConstOp::ArrayNewDefault(id) => {
            let index = given(indices.get_type_index(id))?;
            Ok(RawConst::ArrayNewDefault(index))
        }
        ConstOp::ArrayNewFixed(id, count) => {
            let index = given(indices.get_type_index(id))?;
            Ok(RawConst::ArrayNewFixed(index, count))
        }
        ConstOp::AnyConvertExtern => Ok(RawConst::AnyConvertExtern),
        ConstOp::ExternConvertAny => Ok(RawConst::ExternConvertAny),
        ConstOp::RefI31 => Ok(RawConst::RefI31),
    }
}

// The constant of a vector.
fn raw_vector(bytes: [u8; 16]) -> RawConst
    ensures operator { const_of result ≡ vector_const bytes }
    ensures spelled { ConstStands result }
{
    RawConst::V128Const(bytes)
}

// The index, where one is given.
fn given(index: Option<u32>) -> Result<u32, IrError>
    ensures { result ≡ ok_or index NoIndex }
{
    index.ok_or(IrError::NoIndex)
}
