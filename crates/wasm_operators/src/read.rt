//! Operators, read one by one (Binary Format > Instructions).

ghost use Rattle.std.specs.Prelude.{◌≡◌};
ghost use Rattle.wasm_forms.specs.Reading.{Gives};
ghost use Rattle.wasm_forms.specs.Grammar.{Reads, at};
ghost use Rattle.wasm_operators.specs.Forms.{arg_form, args_form, operator_of, operator_from, operator};
ghost use Rattle.wasm_operators.specs.Operators.{args_of, op_of};
ghost use Rattle.wasm_operators.specs.Pushing.{push_at};
ghost use Rattle.wasm_operators.specs.Table.{listed};

use crate::argument::read_one;
use crate::kind::Kind;
use crate::list::{CatchEntry, LabelEntry, ValueEntry, push_counted, push_sixteen};
use crate::operator::{RawArg, RawArgs, RawOperator};
use crate::table::kinds;
use std::alloc::Global;
use wasm_forms::{WireError, read_byte, read_u32};
use wasm_opcodes::one_byte::{PREFIX_FB, PREFIX_FE};

/// An argument of any kind, behind those of `to`.
#[tactic(auto, unfolding(crate::specs::Forms::arg_form))]
fn push_arg<'a>(to: &mut Vec<RawArg>, kind: Kind, bytes: &'a [u8]) -> Result<&'a [u8], WireError>
    ensures { Gives (λ r. (to.new.items, r.now)) result (push_at to.old.items (arg_form kind) bytes.now) }
{
    if kind.is_one() {
        let (arg, rest) = read_one(kind, bytes)?;
        to.push(arg)?;
        return Ok(rest);
    }
    match kind {
        Kind::Nothing => Ok(bytes),
        Kind::Catches => push_counted::<CatchEntry>(to, bytes),
        Kind::Labels => push_counted::<LabelEntry>(to, bytes),
        Kind::Values => push_counted::<ValueEntry>(to, bytes),
        Kind::SixteenBytes => push_sixteen(to, bytes),
        _ => unreachable!(),
    }
}

/// Arguments of these kinds, up to the first `Nothing`, in a list.
fn read_several<'a>(
    alloc: Global,
    listed_kinds: &[Kind],
    bytes: &'a [u8],
) -> Result<(Vec<RawArg>, &'a [u8]), WireError>
    ensures { Gives (λ r. (r.0.items, r.1.now)) result (at (args_form (listed listed_kinds.now)) bytes.now) }
{
    let mut args = Vec::new(alloc);
    let mut rest = bytes;
    'kinds: for kind in listed_kinds {
        if !kind.is_argument() {
            return Ok((args, rest));
        }
        rest = push_arg(&mut args, *kind, rest)?;
    }
    Ok((args, rest))
}

/// Arguments of these kinds, up to the first `Nothing`: none, or one that is no list, without memory.
fn read_args(
    alloc: Global,
    listed_kinds: [Kind; 4],
    bytes: &[u8],
) -> Result<(RawArgs, &[u8]), WireError>
    ensures { Gives (λ r. (args_of r.0, r.1.now)) result (at (args_form (listed listed_kinds)) bytes.now) }
{
    let [first, second, _, _] = listed_kinds;
    if !first.is_argument() {
        return Ok((RawArgs::None, bytes));
    }
    if first.is_one() && !second.is_argument() {
        let (arg, rest) = read_one(first, bytes)?;
        return Ok((RawArgs::One(arg), rest));
    }
    let (args, rest) = read_several(alloc, &listed_kinds, bytes)?;
    Ok((RawArgs::Several(args), rest))
}

/// What stands behind the number of an operator.
fn read_operator_of(alloc: Global, op: u32, bytes: &[u8]) -> Result<(RawOperator, &[u8]), WireError>
    ensures { Gives (λ r. (op_of r.0, r.1.now)) result (at (operator_of op) bytes.now) }
{
    let Some(listed_kinds) = kinds(op) else {
        return Err(WireError::Malformed);
    };
    let (args, rest) = read_args(alloc, listed_kinds, bytes)?;
    Ok((RawOperator { op, args }, rest))
}

/// What stands behind the first byte of an operator.
#[tactic(auto, unfolding(crate::specs::Forms::operator_from))]
fn read_operator_from(
    alloc: Global,
    first: u8,
    bytes: &[u8],
) -> Result<(RawOperator, &[u8]), WireError>
    ensures { Gives (λ r. (op_of r.0, r.1.now)) result (at (operator_from first) bytes.now) }
{
    if PREFIX_FB <= u32::from(first) && u32::from(first) <= PREFIX_FE {
        let (number, rest) = read_u32(bytes)?;
        if number >= 65_536 {
            return Err(WireError::Malformed);
        }
        return read_operator_of(alloc, u32::from(first) * 65_536 + number, rest);
    }
    read_operator_of(alloc, u32::from(first), bytes)
}

/// An operator, by its list function alone.
#[tactic(auto, unfolding(crate::specs::Forms::operator))]
fn take_operator(alloc: Global, bytes: &[u8]) -> Result<(RawOperator, &[u8]), WireError>
    ensures { Gives (λ r. (op_of r.0, r.1.now)) result (at operator bytes.now) }
{
    let (first, rest) = read_byte(bytes)?;
    read_operator_from(alloc, first, rest)
}

/// Reads an operator with its arguments (Binary Format > Instructions), and gives it with the bytes after it. An operator without
/// arguments, or with one that is no list, takes no memory; the others take it as arguments are read, and none for a count alone.
///
/// # Errors
///
/// [`WireError::Malformed`] where no operator stands in front, and `Memory`.
pub fn read_operator(alloc: Global, bytes: &[u8]) -> Result<(RawOperator, &[u8]), WireError>
    ensures gives { Gives (λ r. (op_of r.0, r.1.now)) result (at operator bytes.now) }
    ensures found { Reads operator (λ r. (op_of r.0, r.1.now)) bytes.now result }
{
    take_operator(alloc, bytes)
}
