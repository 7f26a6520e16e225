//! The lengths of constant expressions (Binary Format > Instructions > Expressions), in bytes.

ghost use Rattle.std.specs.Prelude.{◌≡◌, ◌+◌, ◌≤◌, length, map};
ghost use Rattle.wasm_forms.specs.Spelling.{row_bytes, vector_bytes};
ghost use Rattle.wasm_forms.specs.Writing.{FitsLength};
ghost use Rattle.wasm_entries.specs.Record.{expression};
ghost use Rattle.wasm_entries.specs.Spelling.{const_bytes, expression_bytes};
ghost use Rattle.wasm_writer.specs.Measures.{Measures};

use crate::number::{integer_len, number_len};
use crate::sum::plus;
use crate::type_lens::heap_len;
use wasm_entries::{RawConst, RawExpression};
use wasm_forms::WireError;

/// How many bytes `v128.const` has.
fn v128_const_len(bytes: &[u8; 16]) -> u32
    ensures written { result ≡ 2 + length bytes.now }
    ensures short { result ≤ 18 }
{
    2 + bytes.len() as u32
}

/// How many bytes an operator has, its arguments among them (Binary Format > Instructions).
pub fn const_len(operator: &RawConst) -> u32
    ensures written { result ≡ length (const_bytes operator.now) }
    ensures short { result ≤ 22 }
{
    match operator {
        RawConst::GlobalGet(index) | RawConst::RefFunc(index) => 1 + number_len(u64::from(*index)),
        RawConst::I32Const(value) => 1 + integer_len(i64::from(*value)),
        RawConst::I64Const(value) => 1 + integer_len(*value),
        RawConst::F32Const(_) => 5,
        RawConst::F64Const(_) => 9,
        RawConst::V128Const(bytes) => v128_const_len(bytes),
        RawConst::I32Add | RawConst::I32Sub | RawConst::I32Mul => 1,
        RawConst::I64Add | RawConst::I64Sub | RawConst::I64Mul => 1,
        RawConst::RefNull(heap) => 1 + heap_len(heap),
        RawConst::StructNew(ty) | RawConst::StructNewDefault(ty) => 2 + number_len(u64::from(*ty)),
        RawConst::ArrayNew(ty) | RawConst::ArrayNewDefault(ty) => 2 + number_len(u64::from(*ty)),
        RawConst::ArrayNewFixed(ty, count) => {
            2 + number_len(u64::from(*ty)) + number_len(u64::from(*count))
        }
        RawConst::AnyConvertExtern | RawConst::ExternConvertAny | RawConst::RefI31 => 2,
    }
}

/// How many bytes the operators have, one after another.
fn measured_operators(operators: &[RawConst]) -> Result<u32, WireError>
    ensures { Measures result (row_bytes const_bytes operators.now) (Unit {0}) }
{
    let mut total: u32 = 0;
    'operators: for operator in operators {
        total = plus(total, const_len(operator))?;
    }
    Ok(total)
}

/// How many bytes a constant expression has: its operators, and the byte that ends it (Binary Format > Instructions > Expressions).
///
/// # Errors
///
/// `TooLarge` exactly where it has 2^32 bytes or more.
pub fn measured_expression(operators: &[RawConst]) -> Result<u32, WireError>
    ensures { Measures result (expression_bytes operators.now) (Unit {0}) }
{
    plus(measured_operators(operators)?, 1)
}

/// How many bytes the expressions have, one after another.
fn measured_each(expressions: &[RawExpression]) -> Result<u32, WireError>
    ensures { Measures result (row_bytes (λ e. expression_bytes (expression e)) expressions.now) (Unit {0}) }
{
    let mut total: u32 = 0;
    'expressions: for listed in expressions {
        total = plus(total, measured_expression(listed.operators())?)?;
    }
    Ok(total)
}

/// How many bytes the count of the expressions and each of them have.
fn measured_counted(expressions: &[RawExpression]) -> Result<u32, WireError>
    ensures { Measures result (vector_bytes (λ e. expression_bytes (expression e)) expressions.now)
        (FitsLength expressions.now) }
{
    let Ok(count) = u32::try_from(expressions.len()) else {
        return Err(WireError::TooLarge);
    };
    plus(number_len(u64::from(count)), measured_each(expressions)?)
}

/// How many bytes the count of the expressions and each of them have (Binary Format > Modules > Element Section).
///
/// # Errors
///
/// `TooLarge` exactly where there are 2^32 expressions or more, or all in all they have 2^32 bytes or more.
pub fn measured_expressions(expressions: &[RawExpression]) -> Result<u32, WireError>
    ensures { Measures result (vector_bytes expression_bytes (map expression expressions.now))
        (FitsLength expressions.now) }
{
    measured_counted(expressions)
}
