//! Constant expressions (Binary Format > Instructions > Expressions), written.

ghost use Rattle.std.specs.Prelude.{map, ◌∷◌, ◌++◌, []};
ghost use Rattle.wasm_forms.specs.Writing.{Adds, Keeps, TakesRoom, FitsLength};
ghost use Rattle.wasm_forms.specs.Spelling.{f32_bytes, f64_bytes, integer_bytes, number_bytes, row_bytes, vector_bytes};
ghost use Rattle.wasm_forms.specs.Types.{heap_bytes};
ghost use Rattle.wasm_entries.specs.Record.{expression};
ghost use Rattle.wasm_entries.specs.Spelling.{const_bytes, expression_bytes};

use crate::record::{RawConst, RawExpression};
use wasm_forms::{
    RawHeap, WireError, write_f32, write_f64, write_heap_type, write_s32, write_s64, write_u32,
};
use wasm_opcodes::behind_fb::{
    ANY_CONVERT_EXTERN, ARRAY_NEW, ARRAY_NEW_DEFAULT, ARRAY_NEW_FIXED, EXTERN_CONVERT_ANY, REF_I31,
    STRUCT_NEW, STRUCT_NEW_DEFAULT,
};
use wasm_opcodes::behind_fd::V128_CONST;
use wasm_opcodes::one_byte::{
    END, F32_CONST, F64_CONST, GLOBAL_GET, I32_ADD, I32_CONST, I32_MUL, I32_SUB, I64_ADD,
    I64_CONST, I64_MUL, I64_SUB, PREFIX_FB, PREFIX_FD, REF_FUNC, REF_NULL,
};

/// Writes an operator that is one byte.
fn write_bare(to: &mut Vec<u8>, byte: u8) -> Result<(), WireError>
    ensures adds { Adds result to.old.items to.new.items (byte ∷ []) (Unit {0}) }
    ensures room { TakesRoom result to.old to.new (byte ∷ []) }
    ensures keeps { Keeps to.old.items to.new.items }
{
    to.push(byte)?;
    Ok(())
}

/// Writes an operator that is a byte and an index.
fn write_indexed(to: &mut Vec<u8>, byte: u8, index: u32) -> Result<(), WireError>
    ensures adds { Adds result to.old.items to.new.items (byte ∷ number_bytes index) (Unit {0}) }
    ensures room { TakesRoom result to.old to.new (byte ∷ number_bytes index) }
    ensures keeps { Keeps to.old.items to.new.items }
{
    to.push(byte)?;
    write_u32(to, index)?;
    Ok(())
}

/// Writes an operator behind the byte FB that has no argument.
fn write_prefixed(to: &mut Vec<u8>, byte: u8) -> Result<(), WireError>
    ensures adds { Adds result to.old.items to.new.items (PREFIX_FB ∷ byte ∷ []) (Unit {0}) }
    ensures room { TakesRoom result to.old to.new (PREFIX_FB ∷ byte ∷ []) }
    ensures keeps { Keeps to.old.items to.new.items }
{
    to.push(PREFIX_FB as u8)?;
    write_bare(to, byte)
}

/// Writes an operator behind the byte FB that has the index of a type.
fn write_typed(to: &mut Vec<u8>, byte: u8, ty: u32) -> Result<(), WireError>
    ensures adds { Adds result to.old.items to.new.items (PREFIX_FB ∷ byte ∷ number_bytes ty) (Unit {0}) }
    ensures room { TakesRoom result to.old to.new (PREFIX_FB ∷ byte ∷ number_bytes ty) }
    ensures keeps { Keeps to.old.items to.new.items }
{
    to.push(PREFIX_FB as u8)?;
    write_indexed(to, byte, ty)
}

/// Writes `array.new_fixed`.
fn write_array_new_fixed(to: &mut Vec<u8>, ty: u32, count: u32) -> Result<(), WireError>
    ensures adds { Adds result to.old.items to.new.items
        (PREFIX_FB ∷ ARRAY_NEW_FIXED ∷ (number_bytes ty ++ number_bytes count)) (Unit {0}) }
    ensures room { TakesRoom result to.old to.new
        (PREFIX_FB ∷ ARRAY_NEW_FIXED ∷ (number_bytes ty ++ number_bytes count)) }
    ensures keeps { Keeps to.old.items to.new.items }
{
    write_typed(to, ARRAY_NEW_FIXED as u8, ty)?;
    write_u32(to, count)?;
    Ok(())
}

/// Writes `i32.const`.
fn write_i32_const(to: &mut Vec<u8>, value: i32) -> Result<(), WireError>
    ensures adds { Adds result to.old.items to.new.items (I32_CONST ∷ integer_bytes value) (Unit {0}) }
    ensures room { TakesRoom result to.old to.new (I32_CONST ∷ integer_bytes value) }
    ensures keeps { Keeps to.old.items to.new.items }
{
    to.push(I32_CONST as u8)?;
    write_s32(to, value)?;
    Ok(())
}

/// Writes `i64.const`.
fn write_i64_const(to: &mut Vec<u8>, value: i64) -> Result<(), WireError>
    ensures adds { Adds result to.old.items to.new.items (I64_CONST ∷ integer_bytes value) (Unit {0}) }
    ensures room { TakesRoom result to.old to.new (I64_CONST ∷ integer_bytes value) }
    ensures keeps { Keeps to.old.items to.new.items }
{
    to.push(I64_CONST as u8)?;
    write_s64(to, value)?;
    Ok(())
}

/// Writes `f32.const`.
fn write_f32_const(to: &mut Vec<u8>, bits: u32) -> Result<(), WireError>
    ensures adds { Adds result to.old.items to.new.items (F32_CONST ∷ f32_bytes bits) (Unit {0}) }
    ensures room { TakesRoom result to.old to.new (F32_CONST ∷ f32_bytes bits) }
    ensures keeps { Keeps to.old.items to.new.items }
{
    to.push(F32_CONST as u8)?;
    write_f32(to, bits)?;
    Ok(())
}

/// Writes `f64.const`.
fn write_f64_const(to: &mut Vec<u8>, bits: u64) -> Result<(), WireError>
    ensures adds { Adds result to.old.items to.new.items (F64_CONST ∷ f64_bytes bits) (Unit {0}) }
    ensures room { TakesRoom result to.old to.new (F64_CONST ∷ f64_bytes bits) }
    ensures keeps { Keeps to.old.items to.new.items }
{
    to.push(F64_CONST as u8)?;
    write_f64(to, bits)?;
    Ok(())
}

/// Writes `v128.const`.
fn write_v128_const(to: &mut Vec<u8>, bytes: &[u8]) -> Result<(), WireError>
    ensures adds { Adds result to.old.items to.new.items (PREFIX_FD ∷ V128_CONST ∷ bytes.now) (Unit {0}) }
    ensures room { TakesRoom result to.old to.new (PREFIX_FD ∷ V128_CONST ∷ bytes.now) }
    ensures keeps { Keeps to.old.items to.new.items }
{
    to.push(PREFIX_FD as u8)?;
    to.push(V128_CONST as u8)?;
    to.extend_from_slice(bytes)?;
    Ok(())
}

/// Writes `ref.null`.
fn write_ref_null(to: &mut Vec<u8>, heap: &RawHeap) -> Result<(), WireError>
    ensures adds { Adds result to.old.items to.new.items (REF_NULL ∷ heap_bytes heap.now) (Unit {0}) }
    ensures room { TakesRoom result to.old to.new (REF_NULL ∷ heap_bytes heap.now) }
    ensures keeps { Keeps to.old.items to.new.items }
{
    to.push(REF_NULL as u8)?;
    write_heap_type(to, heap)
}

/// Writes an operator.
fn write_const(to: &mut Vec<u8>, operator: &RawConst) -> Result<(), WireError>
    ensures adds { Adds result to.old.items to.new.items (const_bytes operator.now) (Unit {0}) }
    ensures room { TakesRoom result to.old to.new (const_bytes operator.now) }
    ensures keeps { Keeps to.old.items to.new.items }
{
    match operator {
        RawConst::GlobalGet(global) => write_indexed(to, GLOBAL_GET as u8, *global),
        RawConst::I32Const(value) => write_i32_const(to, *value),
        RawConst::I64Const(value) => write_i64_const(to, *value),
        RawConst::F32Const(bits) => write_f32_const(to, *bits),
        RawConst::F64Const(bits) => write_f64_const(to, *bits),
        RawConst::V128Const(bytes) => write_v128_const(to, bytes),
        RawConst::I32Add => write_bare(to, I32_ADD as u8),
        RawConst::I32Sub => write_bare(to, I32_SUB as u8),
        RawConst::I32Mul => write_bare(to, I32_MUL as u8),
        RawConst::I64Add => write_bare(to, I64_ADD as u8),
        RawConst::I64Sub => write_bare(to, I64_SUB as u8),
        RawConst::I64Mul => write_bare(to, I64_MUL as u8),
        RawConst::RefNull(heap) => write_ref_null(to, heap),
        RawConst::RefFunc(function) => write_indexed(to, REF_FUNC as u8, *function),
        RawConst::StructNew(ty) => write_typed(to, STRUCT_NEW as u8, *ty),
        RawConst::StructNewDefault(ty) => write_typed(to, STRUCT_NEW_DEFAULT as u8, *ty),
        RawConst::ArrayNew(ty) => write_typed(to, ARRAY_NEW as u8, *ty),
        RawConst::ArrayNewDefault(ty) => write_typed(to, ARRAY_NEW_DEFAULT as u8, *ty),
        RawConst::ArrayNewFixed(ty, count) => write_array_new_fixed(to, *ty, *count),
        RawConst::AnyConvertExtern => write_prefixed(to, ANY_CONVERT_EXTERN as u8),
        RawConst::ExternConvertAny => write_prefixed(to, EXTERN_CONVERT_ANY as u8),
        RawConst::RefI31 => write_prefixed(to, REF_I31 as u8),
    }
}

/// Writes operators one after another.
fn write_operators(to: &mut Vec<u8>, operators: &[RawConst]) -> Result<(), WireError>
    ensures adds { Adds result to.old.items to.new.items (row_bytes const_bytes operators.now) (Unit {0}) }
    ensures room { TakesRoom result to.old to.new (row_bytes const_bytes operators.now) }
    ensures keeps { Keeps to.old.items to.new.items }
{
    'operators: for operator in operators {
        write_const(to, operator)?;
    }
    Ok(())
}

/// Writes a constant expression (Binary Format > Instructions > Expressions) behind the bytes of `to`: its operators, and the byte that
/// ends it. Refused, the bytes written before stay, and what was appended behind them means nothing.
///
/// # Errors
///
/// `Memory` alone.
pub fn write_expression(to: &mut Vec<u8>, operators: &[RawConst]) -> Result<(), WireError>
    ensures adds { Adds result to.old.items to.new.items (expression_bytes operators.now) (Unit {0}) }
    ensures room { TakesRoom result to.old to.new (expression_bytes operators.now) }
    ensures keeps { Keeps to.old.items to.new.items }
{
    write_operators(to, operators)?;
    write_bare(to, END as u8)
}

/// Writes expressions one after another.
fn write_each(to: &mut Vec<u8>, expressions: &[RawExpression]) -> Result<(), WireError>
    ensures adds { Adds result to.old.items to.new.items
        (row_bytes expression_bytes (map expression expressions.now)) (Unit {0}) }
    ensures room { TakesRoom result to.old to.new
        (row_bytes expression_bytes (map expression expressions.now)) }
    ensures keeps { Keeps to.old.items to.new.items }
{
    'expressions: for listed in expressions {
        write_expression(to, listed.operators())?;
    }
    Ok(())
}

/// Writes the count of the expressions and each of them (Binary Format > Modules > Element Section) behind the bytes of `to`. Refused,
/// the bytes written before stay, and what was appended behind them means nothing.
///
/// # Errors
///
/// `TooLarge` exactly where there are 2^32 expressions or more, and `Memory`.
pub fn write_expressions(to: &mut Vec<u8>, expressions: &[RawExpression]) -> Result<(), WireError>
    ensures adds { Adds result to.old.items to.new.items
        (vector_bytes expression_bytes (map expression expressions.now)) (FitsLength expressions.now) }
    ensures room { TakesRoom result to.old to.new
        (vector_bytes expression_bytes (map expression expressions.now)) }
    ensures keeps { Keeps to.old.items to.new.items }
{
    let Ok(count) = u32::try_from(expressions.len()) else {
        return Err(WireError::TooLarge);
    };
    write_u32(to, count)?;
    write_each(to, expressions)
}
