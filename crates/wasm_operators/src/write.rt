//! Operators, written (Binary Format > Instructions).

ghost use Rattle.std.specs.Prelude.{◌≡◌, ◌≢◌, ◌∷◌, [], ◌++◌, IfOk};
ghost use Rattle.wasm_forms.specs.declared.error.WireError.TheVariants.{Malformed, TooLarge};
ghost use Rattle.wasm_forms.specs.Spelling.{row_bytes};
ghost use Rattle.wasm_forms.specs.Types.{heap_bytes, value_bytes};
ghost use Rattle.wasm_operators.specs.Operators.{op_of};
ghost use Rattle.wasm_operators.specs.Spelling.{block_bytes, access_bytes, arg_bytes, code_bytes, op_bytes};

use crate::operator::{RawArg, RawBlock, RawOperator};
use std::alloc::AllocError;
use wasm_forms::{
    RawHeap, RawVal, WireError, Written, write_f32, write_f64, write_heap_type, write_index,
    write_s32, write_s64, write_u32, write_u64,
};
use wasm_opcodes::types::EMPTY_BLOCK;

/// The memory that was refused, where nothing else can have been.
pub fn memory_of(error: WireError) -> AllocError
    requires malformed { error ≢ Malformed }
    requires large { error ≢ TooLarge }
{
    match error {
        WireError::Memory(failed) => failed,
        WireError::Malformed | WireError::TooLarge => unreachable!(),
    }
}

/// Writes a value type.
fn write_value(to: &mut Vec<u8>, value: &RawVal) -> Result<(), AllocError>
    ensures { IfOk result (λ _. to.new.items ≡ to.old.items ++ value_bytes value.now) }
{
    match value.write(to) {
        Ok(()) => Ok(()),
        Err(error) => Err(memory_of(error)),
    }
}

/// Writes a heap type.
fn write_heap(to: &mut Vec<u8>, heap: &RawHeap) -> Result<(), AllocError>
    ensures { IfOk result (λ _. to.new.items ≡ to.old.items ++ heap_bytes heap.now) }
{
    match write_heap_type(to, heap) {
        Ok(()) => Ok(()),
        Err(error) => Err(memory_of(error)),
    }
}

/// Writes a byte.
fn write_byte(to: &mut Vec<u8>, byte: u8) -> Result<(), AllocError>
    ensures { IfOk result (λ _. to.new.items ≡ to.old.items ++ byte ∷ []) }
{
    to.push(byte)?;
    Ok(())
}

/// Writes the type of a block.
fn write_block(to: &mut Vec<u8>, block: &RawBlock) -> Result<(), AllocError>
    ensures { IfOk result (λ _. to.new.items ≡ to.old.items ++ block_bytes block.now) }
{
    match block {
        RawBlock::NoResult => write_byte(to, EMPTY_BLOCK),
        RawBlock::OneResult(value) => write_value(to, value),
        RawBlock::OfType(index) => write_index(to, *index),
    }
}

/// Writes an access to memory: bit 40 of the flags and the memory where it isn't memory 0.
fn write_access(to: &mut Vec<u8>, flags: u32, memory: u32, offset: u64) -> Result<(), AllocError>
    ensures { IfOk result (λ _. to.new.items ≡ to.old.items ++ access_bytes flags memory offset) }
{
    if memory == 0 {
        write_u32(to, flags)?;
    } else {
        write_u64(to, u64::from(flags) + 64)?;
        write_u32(to, memory)?;
    }
    write_u64(to, offset)
}

/// Writes an argument.
fn write_arg(to: &mut Vec<u8>, arg: &RawArg) -> Result<(), AllocError>
    ensures { IfOk result (λ _. to.new.items ≡ to.old.items ++ arg_bytes arg.now) }
{
    match arg {
        RawArg::Function(number)
        | RawArg::Type(number)
        | RawArg::Table(number)
        | RawArg::Memory(number)
        | RawArg::Global(number)
        | RawArg::Tag(number)
        | RawArg::Element(number)
        | RawArg::Data(number)
        | RawArg::Local(number)
        | RawArg::Label(number)
        | RawArg::Count(number)
        | RawArg::Number(number) => write_u32(to, *number),
        RawArg::Byte(byte) => write_byte(to, *byte),
        RawArg::S32(value) => write_s32(to, *value),
        RawArg::S64(value) => write_s64(to, *value),
        RawArg::F32(bits) => write_f32(to, *bits),
        RawArg::F64(bits) => write_f64(to, *bits),
        RawArg::Value(value) => write_value(to, value),
        RawArg::Heap(heap) => write_heap(to, heap),
        RawArg::Block(block) => write_block(to, block),
        RawArg::Access {
            flags,
            memory,
            offset,
        } => write_access(to, *flags, *memory, *offset),
    }
}

/// Writes arguments one after another.
fn write_args(to: &mut Vec<u8>, args: &[RawArg]) -> Result<(), AllocError>
    ensures { IfOk result (λ _. to.new.items ≡ to.old.items ++ row_bytes arg_bytes args.now) }
{
    'each: for arg in args {
        write_arg(to, arg)?;
    }
    Ok(())
}

/// Writes the byte of an operator, or its prefix byte and its number.
fn write_code(to: &mut Vec<u8>, op: u32) -> Result<(), AllocError>
    ensures { IfOk result (λ _. to.new.items ≡ to.old.items ++ code_bytes op) }
{
    if op < 65_536 {
        return write_byte(to, (op % 256) as u8);
    }
    write_byte(to, (op / 65_536 % 256) as u8)?;
    write_u32(to, op % 65_536)
}

/// Writes an operator with its arguments (Binary Format > Instructions) behind the bytes of `to`, numbers in their shortest spelling.
/// Refused, what was appended means nothing.
///
/// # Errors
///
/// Only memory runs out.
pub fn write_operator(to: &mut Vec<u8>, operator: &RawOperator) -> Result<(), AllocError>
    ensures { IfOk result (λ _. to.new.items ≡ to.old.items ++ op_bytes (op_of operator.now)) }
{
    write_code(to, operator.op)?;
    write_args(to, operator.args.as_slice())
}
