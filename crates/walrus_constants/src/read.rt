//! Constant expressions over indices, as constant expressions over ids.
ghost use Rattle.std.specs.Prelude.{◌≡◌, ◌∷◌, [], true, false, length, map, option_map, All, IfOk, MatchOption, Some};
ghost use Rattle.wasm_entries.specs.Record.{expression};
ghost use Rattle.walrus_base.specs.ConstOps.{const_op, const_ops};
ghost use Rattle.walrus_code.specs.Indices.{ids_at};
ghost use Rattle.walrus_code.specs.Results.{Finds};
ghost use Rattle.walrus_groups.specs.Named.{each};
ghost use Rattle.walrus_model.specs.Constants.{const_of, consts_of};
ghost use Rattle.walrus_constants.specs.Named.{named_const_op, named_const};
ghost use Rattle.walrus_constants.specs.Short.{is_simple, is_short};

use crate::heap::read_heap;
use std::alloc::Global;
use walrus_base::{ConstExpr, ConstOp, RefType, Value};
use walrus_code::{IndicesToIds, IrError};
use wasm_entries::{RawConst, RawExpression};

/// The constant expression with the id for each index in it (Valid > Instructions > Expressions > Constant Expressions), in
/// its shortest form: a constant, a global's value, a null or a function that stands alone is a case of [`ConstExpr`], and
/// takes no memory; all else is the list of its operators.
///
/// # Errors
///
/// [`IrError::Malformed`] where an index in it isn't declared, and [`IrError::Memory`].
pub fn read_const(
    alloc: Global,
    raw: &[RawConst],
    indices: &IndicesToIds,
) -> Result<ConstExpr, IrError>
    ensures named { Finds const_ops result (named_const (ids_at indices.now) (consts_of raw.now)) }
    ensures short { IfOk result (λ expr. is_short expr ≡ true) }
{
    match raw {
        [only] => match read_op(only, indices) {
            Some(op) => alone(alloc, op),
            None => Err(IrError::Malformed),
        },
        _ => Ok(ConstExpr::Extended(read_ops(alloc, raw, indices)?)),
    }
}

/// The constant expressions with the id for each index in them, one by one and each in its shortest form: the items of a segment of
/// elements (Binary Format > Modules > Element Section).
///
/// # Errors
///
/// [`IrError::Malformed`] where an index in one of them isn't declared, and [`IrError::Memory`].
pub fn read_consts(
    alloc: Global,
    raw: &[RawExpression],
    indices: &IndicesToIds,
) -> Result<Vec<ConstExpr>, IrError>
    ensures named { Finds (λ found. map const_ops found.items) result
        (each (named_const (ids_at indices.now)) (map consts_of (map expression raw.now))) }
    ensures short { IfOk result (λ found. All (λ expr. is_short expr ≡ true) found.items) }
{
    let mut found = Vec::with_capacity(alloc, raw.len())?;
    for one in raw {
        found.push(read_const(alloc, one.operators(), indices)?)?;
    }
    Ok(found)
}

// The expression of one operator.
fn alone(alloc: Global, op: ConstOp) -> Result<ConstExpr, IrError>
    ensures operators { Finds const_ops result (Some (const_op op ∷ [])) }
    ensures short { IfOk result (λ expr. is_short expr ≡ true) }
{
    if let Some(expr) = simple(op) {
        return Ok(expr);
    }
    let mut ops = Vec::new(alloc);
    ops.push(op)?;
    Ok(ConstExpr::Extended(ops))
}

// The expression of an operator that is a case of its own.
fn simple(op: ConstOp) -> Option<ConstExpr>
    ensures { MatchOption result (is_simple op ≡ false)
        (λ expr. (const_ops expr ≡ const_op op ∷ []) × (is_short expr ≡ true)) }
{
    match op {
        ConstOp::GlobalGet(id) => Some(ConstExpr::Global(id)),
        ConstOp::I32Const(value) => Some(ConstExpr::Value(Value::I32(value))),
        ConstOp::I64Const(value) => Some(ConstExpr::Value(Value::I64(value))),
        ConstOp::F32Const(bits) => Some(ConstExpr::Value(Value::F32(bits))),
        ConstOp::F64Const(bits) => Some(ConstExpr::Value(Value::F64(bits))),
        ConstOp::V128Const(bytes) => Some(ConstExpr::Value(Value::V128(bytes))),
        ConstOp::RefNull(heap_type) => Some(ConstExpr::RefNull(RefType {
            nullable: true,
            heap_type,
        })),
        ConstOp::RefFunc(id) => Some(ConstExpr::RefFunc(id)),
        ConstOp::I32Add
        | ConstOp::I32Sub
        | ConstOp::I32Mul
        | ConstOp::I64Add
        | ConstOp::I64Sub
        | ConstOp::I64Mul
        | ConstOp::StructNew(_)
        | ConstOp::StructNewDefault(_)
        | ConstOp::ArrayNew(_)
        | ConstOp::ArrayNewDefault(_)
        | ConstOp::ArrayNewFixed(_, _)
        | ConstOp::AnyConvertExtern
        | ConstOp::ExternConvertAny
        | ConstOp::RefI31 => None,
    }
}

// Operators one by one.
fn read_ops(
    alloc: Global,
    raw: &[RawConst],
    indices: &IndicesToIds,
) -> Result<Vec<ConstOp>, IrError>
    ensures named { Finds (λ found. map const_op found.items) result
        (named_const (ids_at indices.now) (consts_of raw.now)) }
    ensures as_many { IfOk result (λ found. length found.items ≡ length raw.now) }
{
    let mut found = Vec::with_capacity(alloc, raw.len())?;
    for op in raw {
        let Some(named) = read_op(op, indices) else {
            return Err(IrError::Malformed);
        };
        found.push(named)?;
    }
    Ok(found)
}

/// The operator of a constant expression with the id for each index in it; none where an index in it isn't declared.
pub fn read_op(raw: &RawConst, indices: &IndicesToIds) -> Option<ConstOp>
    ensures { option_map const_op result ≡ named_const_op (ids_at indices.now) (const_of raw.now) }
{
    match *raw {
        RawConst::GlobalGet(index) => Some(ConstOp::GlobalGet(indices.get_global(index)?)),
        RawConst::I32Const(value) => Some(ConstOp::I32Const(value)),
        RawConst::I64Const(value) => Some(ConstOp::I64Const(value)),
        RawConst::F32Const(bits) => Some(ConstOp::F32Const(bits)),
        RawConst::F64Const(bits) => Some(ConstOp::F64Const(bits)),
        RawConst::V128Const(bytes) => Some(ConstOp::V128Const(bytes)),
        RawConst::I32Add => Some(ConstOp::I32Add),
        RawConst::I32Sub => Some(ConstOp::I32Sub),
        RawConst::I32Mul => Some(ConstOp::I32Mul),
        RawConst::I64Add => Some(ConstOp::I64Add),
        RawConst::I64Sub => Some(ConstOp::I64Sub),
        RawConst::I64Mul => Some(ConstOp::I64Mul),
        RawConst::RefNull(heap) => Some(ConstOp::RefNull(read_heap(heap, indices)?)),
        RawConst::RefFunc(index) => Some(ConstOp::RefFunc(indices.get_func(index)?)),
        RawConst::StructNew(index) => Some(ConstOp::StructNew(indices.get_type(index)?)),
        RawConst::StructNewDefault(index) => {
            Some(ConstOp::StructNewDefault(indices.get_type(index)?))
        }
        RawConst::ArrayNew(index) => Some(ConstOp::ArrayNew(indices.get_type(index)?)),
        RawConst::ArrayNewDefault(index) => {
            Some(ConstOp::ArrayNewDefault(indices.get_type(index)?))
        }
        RawConst::ArrayNewFixed(index, count) => {
            Some(ConstOp::ArrayNewFixed(indices.get_type(index)?, count))
        }
        RawConst::AnyConvertExtern => Some(ConstOp::AnyConvertExtern),
        RawConst::ExternConvertAny => Some(ConstOp::ExternConvertAny),
        RawConst::RefI31 => Some(ConstOp::RefI31),
    }
}
