//! Constant expressions (Binary Format > Instructions > Expressions), read.

ghost use Rattle.std.specs.Prelude.{map, ◌≡◌, ◌∷◌, [], IfSome, Some};
ghost use Rattle.wasm_forms.specs.Reading.{Gives};
ghost use Rattle.wasm_forms.specs.Grammar.{F32, F64, ◌then◌, Made, Row, S32, S64, U32, Until, Vector, at};
ghost use Rattle.wasm_entries.specs.declared.record.RawConst.TheVariants as ops;
ghost use Rattle.wasm_entries.specs.Record.{expression};
ghost use Rattle.wasm_entries.specs.Forms.{prefixed, vector_op, const_from, expression_form};

use crate::record::{RawConst, RawExpression};
use std::alloc::Global;
use wasm_forms::{
    WireError, read_byte, read_f32, read_f64, read_heap_type, read_s32, read_s64, read_u32,
    room_for,
};
use wasm_opcodes::behind_fb::{
    ANY_CONVERT_EXTERN, ARRAY_NEW, ARRAY_NEW_DEFAULT, ARRAY_NEW_FIXED, EXTERN_CONVERT_ANY, REF_I31,
    STRUCT_NEW, STRUCT_NEW_DEFAULT,
};
use wasm_opcodes::behind_fd::V128_CONST;
use wasm_opcodes::one_byte::{
    END, F32_CONST, F64_CONST, GLOBAL_GET, I32_ADD, I32_CONST, I32_MUL, I32_SUB, I64_ADD,
    I64_CONST, I64_MUL, I64_SUB, PREFIX_FB, PREFIX_FD, REF_FUNC, REF_NULL,
};

/// What stands behind the byte of `i32.const`.
fn read_i32_const(bytes: &[u8]) -> Result<(RawConst, &[u8]), WireError>
    ensures { Gives (λ r. (r.0, r.1.now)) result (at (Made ops.I32Const S32) bytes.now) }
{
    let (value, rest) = read_s32(bytes)?;
    Ok((RawConst::I32Const(value), rest))
}

/// What stands behind the byte of `i64.const`.
fn read_i64_const(bytes: &[u8]) -> Result<(RawConst, &[u8]), WireError>
    ensures { Gives (λ r. (r.0, r.1.now)) result (at (Made ops.I64Const S64) bytes.now) }
{
    let (value, rest) = read_s64(bytes)?;
    Ok((RawConst::I64Const(value), rest))
}

/// What stands behind the byte of `f32.const`.
fn read_f32_const(bytes: &[u8]) -> Result<(RawConst, &[u8]), WireError>
    ensures { Gives (λ r. (r.0, r.1.now)) result (at (Made ops.F32Const F32) bytes.now) }
{
    let (bits, rest) = read_f32(bytes)?;
    Ok((RawConst::F32Const(bits), rest))
}

/// What stands behind the byte of `f64.const`.
fn read_f64_const(bytes: &[u8]) -> Result<(RawConst, &[u8]), WireError>
    ensures { Gives (λ r. (r.0, r.1.now)) result (at (Made ops.F64Const F64) bytes.now) }
{
    let (bits, rest) = read_f64(bytes)?;
    Ok((RawConst::F64Const(bits), rest))
}

/// What stands behind the bytes of `array.new_fixed`: a type, and how many elements.
fn read_array_new_fixed(bytes: &[u8]) -> Result<(RawConst, &[u8]), WireError>
    ensures { Gives (λ r. (r.0, r.1.now)) result
        (at (Made (λ x. ops.ArrayNewFixed x.0 x.1) (U32 then U32)) bytes.now) }
{
    let (ty, after) = read_u32(bytes)?;
    let (count, rest) = read_u32(after)?;
    Ok((RawConst::ArrayNewFixed(ty, count), rest))
}

/// What stands behind the byte FB and this number.
#[tactic(auto, unfolding(crate::specs::Forms::prefixed))]
fn read_prefixed(number: u32, bytes: &[u8]) -> Result<(RawConst, &[u8]), WireError>
    ensures { Gives (λ r. (r.0, r.1.now)) result (at (prefixed number) bytes.now) }
{
    match number {
        STRUCT_NEW => {
            let (ty, rest) = read_u32(bytes)?;
            Ok((RawConst::StructNew(ty), rest))
        }
        STRUCT_NEW_DEFAULT => {
            let (ty, rest) = read_u32(bytes)?;
            Ok((RawConst::StructNewDefault(ty), rest))
        }
        ARRAY_NEW => {
            let (ty, rest) = read_u32(bytes)?;
            Ok((RawConst::ArrayNew(ty), rest))
        }
        ARRAY_NEW_DEFAULT => {
            let (ty, rest) = read_u32(bytes)?;
            Ok((RawConst::ArrayNewDefault(ty), rest))
        }
        ARRAY_NEW_FIXED => read_array_new_fixed(bytes),
        ANY_CONVERT_EXTERN => Ok((RawConst::AnyConvertExtern, bytes)),
        EXTERN_CONVERT_ANY => Ok((RawConst::ExternConvertAny, bytes)),
        REF_I31 => Ok((RawConst::RefI31, bytes)),
        _ => Err(WireError::Malformed),
    }
}

/// What stands behind the byte FD and this number.
#[tactic(auto, unfolding(crate::specs::Forms::vector_op, wasm_forms::specs::Grammar::bytes_at))]
fn read_vector_op(number: u32, bytes: &[u8]) -> Result<(RawConst, &[u8]), WireError>
    ensures { Gives (λ r. (r.0, r.1.now)) result (at (vector_op number) bytes.now) }
{
    if number != V128_CONST {
        return Err(WireError::Malformed);
    }
    let Some((value, rest)) = bytes.split_first_chunk::<16>() else {
        return Err(WireError::Malformed);
    };
    Ok((RawConst::V128Const(*value), rest))
}

/// The operator that begins with this byte.
#[tactic(auto, unfolding(crate::specs::Forms::const_from))]
fn read_const_from(first: u8, bytes: &[u8]) -> Result<(RawConst, &[u8]), WireError>
    ensures { Gives (λ r. (r.0, r.1.now)) result (at (const_from first) bytes.now) }
{
    match u32::from(first) {
        GLOBAL_GET => {
            let (global, rest) = read_u32(bytes)?;
            Ok((RawConst::GlobalGet(global), rest))
        }
        I32_CONST => read_i32_const(bytes),
        I64_CONST => read_i64_const(bytes),
        F32_CONST => read_f32_const(bytes),
        F64_CONST => read_f64_const(bytes),
        I32_ADD => Ok((RawConst::I32Add, bytes)),
        I32_SUB => Ok((RawConst::I32Sub, bytes)),
        I32_MUL => Ok((RawConst::I32Mul, bytes)),
        I64_ADD => Ok((RawConst::I64Add, bytes)),
        I64_SUB => Ok((RawConst::I64Sub, bytes)),
        I64_MUL => Ok((RawConst::I64Mul, bytes)),
        REF_NULL => {
            let (heap, rest) = read_heap_type(bytes)?;
            Ok((RawConst::RefNull(heap), rest))
        }
        REF_FUNC => {
            let (function, rest) = read_u32(bytes)?;
            Ok((RawConst::RefFunc(function), rest))
        }
        PREFIX_FB => {
            let (number, rest) = read_u32(bytes)?;
            read_prefixed(number, rest)
        }
        PREFIX_FD => {
            let (number, rest) = read_u32(bytes)?;
            read_vector_op(number, rest)
        }
        _ => Err(WireError::Malformed),
    }
}

/// The one operator that stands before the byte 0B, where one does.
fn take_single(bytes: &[u8]) -> Option<(RawConst, &[u8])>
    ensures { IfSome result (λ r. at (Until END const_from) bytes.now ≡ Some (r.0 ∷ [], r.1.now)) }
{
    if bytes.len() < 2 {
        return None;
    }
    let Ok((first, after)) = read_byte(bytes) else {
        return None;
    };
    let Ok((operator, behind)) = read_const_from(first, after) else {
        return None;
    };
    let Ok((end, rest)) = read_byte(behind) else {
        return None;
    };
    if u32::from(end) != END {
        return None;
    }
    Some((operator, rest))
}

/// Operators up to the byte 0B.
fn take_operators(alloc: Global, bytes: &[u8]) -> Result<(Vec<RawConst>, &[u8]), WireError>
    ensures { Gives (λ r. (r.0.items, r.1.now)) result (at (Until END const_from) bytes.now) }
{
    let mut operators = Vec::new(alloc);
    let mut rest = bytes;
    'operators: for _turn in 0..bytes.len() {
        let (first, after) = read_byte(rest)?;
        if u32::from(first) == END {
            return Ok((operators, after));
        }
        let (operator, behind) = read_const_from(first, after)?;
        operators.push(operator)?;
        rest = behind;
    }
    Err(WireError::Malformed)
}

/// Reads a constant expression (Binary Format > Instructions > Expressions): at least one operator of those that may stand in one, and
/// the byte that ends it. Gives it with the bytes after it.
///
/// Refused as [`WireError::Malformed`] where none stands in front.
#[tactic(auto, unfolding(crate::specs::Forms::expression_form))]
pub fn read_expression(alloc: Global, bytes: &[u8]) -> Result<(RawExpression, &[u8]), WireError>
    ensures { Gives (λ r. (expression r.0, r.1.now)) result (at expression_form bytes.now) }
{
    if let Some((operator, rest)) = take_single(bytes) {
        return Ok((RawExpression::Single(operator), rest));
    }
    let (operators, rest) = take_operators(alloc, bytes)?;
    if operators.is_empty() {
        return Err(WireError::Malformed);
    }
    Ok((RawExpression::Listed(operators), rest))
}

/// So many expressions, one after another.
fn take_expressions(
    alloc: Global,
    count: u32,
    bytes: &[u8],
) -> Result<(Vec<RawExpression>, &[u8]), WireError>
    ensures { Gives (λ r. (map expression r.0.items, r.1.now)) result
        (at (Row expression_form count) bytes.now) }
{
    let mut expressions = Vec::with_capacity(alloc, room_for(count, bytes))?;
    let mut rest = bytes;
    'expressions: for _taken in 0..count {
        let (found, after) = read_expression(alloc, rest)?;
        expressions.push(found)?;
        rest = after;
    }
    Ok((expressions, rest))
}

/// Reads a u32 count and that many constant expressions, and gives them with the bytes after them
/// (Binary Format > Modules > Element Section). Memory is taken for as many as are told, but for no
/// more than there are bytes left.
///
/// Refused as [`WireError::Malformed`] where no count stands in front, or fewer expressions.
pub fn read_expressions(
    alloc: Global,
    bytes: &[u8],
) -> Result<(Vec<RawExpression>, &[u8]), WireError>
    ensures { Gives (λ r. (map expression r.0.items, r.1.now)) result
        (at (Vector expression_form) bytes.now) }
{
    let (count, rest) = read_u32(bytes)?;
    take_expressions(alloc, count, rest)
}
