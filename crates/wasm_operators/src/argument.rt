//! Arguments that are no lists, read (Binary Format > Instructions).

ghost use Rattle.std.specs.Prelude.{◌≡◌, ◌∷◌, [], true};
ghost use Rattle.wasm_forms.specs.Reading.{Gives};
ghost use Rattle.wasm_forms.specs.Grammar.{at};
ghost use Rattle.wasm_operators.specs.Forms.{block_from, block_type, has_memory, access_from, access, arg_form};
ghost use Rattle.wasm_operators.specs.Pushing.{is_number, is_one};

use crate::kind::Kind;
use crate::operator::{RawArg, RawBlock};
use wasm_forms::{
    WireError, read_byte, read_f32, read_f64, read_heap_type, read_index_from, read_s32, read_s64,
    read_u32, read_u64, read_value_from,
};
use wasm_opcodes::types::EMPTY_BLOCK;

/// The type of a block that begins with the byte `first`.
#[tactic(auto, unfolding(crate::specs::Forms::block_from))]
fn read_block_from(first: u8, bytes: &[u8]) -> Result<(RawBlock, &[u8]), WireError>
    ensures { Gives (λ r. (r.0, r.1.now)) result (at (block_from first) bytes.now) }
{
    if first == EMPTY_BLOCK {
        return Ok((RawBlock::NoResult, bytes));
    }
    if EMPTY_BLOCK < first && first < 128 {
        let (value, rest) = read_value_from(first, bytes)?;
        return Ok((RawBlock::OneResult(value), rest));
    }
    let (index, rest) = read_index_from(first, bytes)?;
    Ok((RawBlock::OfType(index), rest))
}

/// The type of a block.
#[tactic(auto, unfolding(crate::specs::Forms::block_type))]
fn read_block_type(bytes: &[u8]) -> Result<(RawBlock, &[u8]), WireError>
    ensures { Gives (λ r. (r.0, r.1.now)) result (at block_type bytes.now) }
{
    let (first, rest) = read_byte(bytes)?;
    read_block_from(first, rest)
}

/// Whether a memory stands behind the flags of an access.
#[inline]
fn names_memory(flags: u32) -> bool
    ensures { result ≡ has_memory flags }
{
    flags / 64 % 2 == 1
}

/// What stands behind the flags of an access.
#[tactic(auto, unfolding(crate::specs::Forms::access_from))]
fn read_access_from(flags: u32, bytes: &[u8]) -> Result<(RawArg, &[u8]), WireError>
    ensures { Gives (λ r. (r.0, r.1.now)) result (at (access_from flags) bytes.now) }
{
    if !names_memory(flags) {
        let (offset, rest) = read_u64(bytes)?;
        let memory = 0;
        return Ok((
            RawArg::Access {
                flags,
                memory,
                offset,
            },
            rest,
        ));
    }
    let flags = flags - 64;
    let (memory, behind) = read_u32(bytes)?;
    let (offset, rest) = read_u64(behind)?;
    Ok((
        RawArg::Access {
            flags,
            memory,
            offset,
        },
        rest,
    ))
}

/// An access to memory.
#[tactic(auto, unfolding(crate::specs::Forms::access))]
fn read_access(bytes: &[u8]) -> Result<(RawArg, &[u8]), WireError>
    ensures { Gives (λ r. (r.0, r.1.now)) result (at access bytes.now) }
{
    let (flags, rest) = read_u32(bytes)?;
    read_access_from(flags, rest)
}

/// A number of 32 bits, as an argument.
macro_rules! number_as {
    ($argument:path, $bytes:expr) => {{
        let (number, rest) = read_u32($bytes)?;
        Ok(($argument(number), rest))
    }};
}

/// An argument of a kind that is a number of 32 bits.
#[tactic(auto, unfolding(crate::specs::Forms::arg_form))]
fn read_number(kind: Kind, bytes: &[u8]) -> Result<(RawArg, &[u8]), WireError>
    requires { is_number kind ≡ true }
    ensures { Gives (λ r. (r.0 ∷ [], r.1.now)) result (at (arg_form kind) bytes.now) }
{
    match kind {
        Kind::Function => number_as!(RawArg::Function, bytes),
        Kind::Type => number_as!(RawArg::Type, bytes),
        Kind::Table => number_as!(RawArg::Table, bytes),
        Kind::Memory => number_as!(RawArg::Memory, bytes),
        Kind::Global => number_as!(RawArg::Global, bytes),
        Kind::Tag => number_as!(RawArg::Tag, bytes),
        Kind::Element => number_as!(RawArg::Element, bytes),
        Kind::Data => number_as!(RawArg::Data, bytes),
        Kind::Local => number_as!(RawArg::Local, bytes),
        Kind::Label => number_as!(RawArg::Label, bytes),
        Kind::Number => number_as!(RawArg::Number, bytes),
        _ => unreachable!(),
    }
}

/// An argument of a kind that is one argument.
#[tactic(auto, unfolding(crate::specs::Forms::arg_form))]
pub(crate) fn read_one(kind: Kind, bytes: &[u8]) -> Result<(RawArg, &[u8]), WireError>
    requires { is_one kind ≡ true }
    ensures { Gives (λ r. (r.0 ∷ [], r.1.now)) result (at (arg_form kind) bytes.now) }
{
    if kind.is_number() {
        return read_number(kind, bytes);
    }
    match kind {
        Kind::Block => {
            let (block, rest) = read_block_type(bytes)?;
            Ok((RawArg::Block(block), rest))
        }
        Kind::Access => read_access(bytes),
        Kind::Heap => {
            let (heap, rest) = read_heap_type(bytes)?;
            Ok((RawArg::Heap(heap), rest))
        }
        Kind::Byte => {
            let (byte, rest) = read_byte(bytes)?;
            Ok((RawArg::Byte(byte), rest))
        }
        Kind::S32 => {
            let (value, rest) = read_s32(bytes)?;
            Ok((RawArg::S32(value), rest))
        }
        Kind::S64 => {
            let (value, rest) = read_s64(bytes)?;
            Ok((RawArg::S64(value), rest))
        }
        Kind::F32 => {
            let (bits, rest) = read_f32(bytes)?;
            Ok((RawArg::F32(bits), rest))
        }
        Kind::F64 => {
            let (bits, rest) = read_f64(bytes)?;
            Ok((RawArg::F64(bits), rest))
        }
        _ => unreachable!(),
    }
}
