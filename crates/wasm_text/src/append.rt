//! Bytes with marks, written anew: what arguments name gets new numbers, and each argument at a mark its one spelling.

ghost use Rattle.std.specs.Prelude.{◌≡◌, ◌≢◌, ◌<◌, ◌≤◌, ◌+◌, ◌-◌, ◌++◌, length, true, ℕ, IfOk, IfSome, Some};
ghost use Rattle.wasm_text.specs.declared.mark.TheConstants.{MARK_ACCESS, MARK_BLOCK, MARK_S32, MARK_S64};
ghost use Rattle.wasm_text.specs.declared.places.TheConstants.{NO_PLACE};
ghost use Rattle.wasm_forms.specs.Types.{value_bytes};
ghost use Rattle.wasm_forms.specs.Grammar.{at, U32};
ghost use Rattle.wasm_forms.specs.Spelling.{number_bytes};
ghost use Rattle.wasm_forms.specs.Reading.{Gives};
ghost use Rattle.wasm_forms.specs.Writing.{Keeps};
ghost use Rattle.wasm_operators.specs.Forms.{access, access_from, block_from, block_type, has_memory};
ghost use Rattle.wasm_operators.specs.Spelling.{access_bytes, arg_bytes, block_bytes};
ghost use Rattle.wasm_operators.specs.Standing.{ArgHeld, BlockHeld, HeapHeld, ValueHeld};
ghost use Rattle.wasm_text.specs.Places.{between, IfShortest, Stands};
ghost use Rattle.wasm_text.specs.Marks.{AreInOrder, HasArgument, form_of, found, is_marked, kind_of, place_of};
ghost use Rattle.wasm_text.specs.Filling.{Fills, IfStays, Steps, renamed, renamed_block, renamed_heap, renamed_value};

use crate::mark::{
    MARK_ACCESS, MARK_BLOCK, MARK_FUNCTION, MARK_GLOBAL, MARK_LOCAL, MARK_MEMORY, MARK_NUMBER,
    MARK_S32, MARK_S64, MARK_TABLE, MARK_TYPE,
};
use crate::places::{NO_PLACE, byte_from, is_shortest, past_u64, rest_from};
use crate::renumbering::{NO_NUMBER, Numbers};
use std::alloc::AllocError;
use wasm_forms::{
    RawHeap, RawRef, RawVal, WireError, Written, read_byte, read_index_from, read_s32, read_s64,
    read_u32, read_u64, read_value_from, write_index, write_s32, write_s64, write_u32, write_u64,
};
use wasm_opcodes::types::EMPTY_BLOCK;
use wasm_operators::{RawArg, RawBlock, memory_of};

// The new number of an index.
#[inline]
fn new_index<N: Numbers>(numbers: &N, kind: u32, index: u32) -> Option<u32>
    ensures { result ≡ N.number numbers.now kind index }
{
    let new = numbers.new_number(kind, index);
    if new == NO_NUMBER {
        None
    } else {
        Some(new as u32)
    }
}

// A heap type with its new number.
fn rename_heap<N: Numbers>(numbers: &N, heap: RawHeap) -> Option<RawHeap>
    ensures is { result ≡ renamed_heap (N.number numbers.now) heap }
    ensures held { IfSome result (λ new. HeapHeld heap → HeapHeld new) }
{
    match heap {
        RawHeap::Abstract(byte) => Some(RawHeap::Abstract(byte)),
        RawHeap::Index(index) => Some(RawHeap::Index(new_index(numbers, MARK_TYPE, index)?)),
    }
}

// A value type with its new number.
fn rename_value<N: Numbers>(numbers: &N, value: RawVal) -> Option<RawVal>
    ensures is { result ≡ renamed_value (N.number numbers.now) value }
    ensures held { IfSome result (λ new. ValueHeld value → ValueHeld new) }
{
    match value {
        RawVal::Ref(reference) => {
            let nullable = reference.nullable;
            let heap = rename_heap(numbers, reference.heap)?;
            Some(RawVal::Ref(RawRef { nullable, heap }))
        }
        plain => Some(plain),
    }
}

// The type of a block with its new number.
fn rename_block<N: Numbers>(numbers: &N, block: RawBlock) -> Option<RawBlock>
    ensures is { result ≡ renamed_block (N.number numbers.now) block }
    ensures held { IfSome result (λ new. BlockHeld block → BlockHeld new) }
{
    match block {
        RawBlock::NoResult => Some(RawBlock::NoResult),
        RawBlock::OneResult(value) => Some(RawBlock::OneResult(rename_value(numbers, value)?)),
        RawBlock::OfType(index) => Some(RawBlock::OfType(new_index(numbers, MARK_TYPE, index)?)),
    }
}

// Copies what stands from one place up to another.
#[inline]
fn copy(to: &mut Vec<u8>, bytes: &[u8], from: usize, until: usize) -> Result<(), AllocError>
    requires ordered { from ≤ until }
    requires within { until ≤ length bytes.now }
    ensures copied { IfOk result (λ _. to.new.items ≡ to.old.items ++ between from until bytes.now) }
    ensures keeps { Keeps to.old.items to.new.items }
{
    to.extend_from_slice(&bytes[from..until])
}

// Writes a value type.
fn write_value(to: &mut Vec<u8>, value: &RawVal) -> Result<(), AllocError>
    ensures written { IfOk result (λ _. to.new.items ≡ to.old.items ++ value_bytes value.now) }
    ensures keeps { Keeps to.old.items to.new.items }
{
    match value.write(to) {
        Ok(()) => Ok(()),
        Err(error) => Err(memory_of(error)),
    }
}

// Writes the type of a block.
#[tactic(auto, using(wasm_forms::proofs::Keeping::keeps_on))]
fn write_block(to: &mut Vec<u8>, block: &RawBlock) -> Result<(), AllocError>
    ensures written { IfOk result (λ _. to.new.items ≡ to.old.items ++ block_bytes block.now) }
    ensures keeps { Keeps to.old.items to.new.items }
{
    match block {
        RawBlock::NoResult => {
            to.push(EMPTY_BLOCK)?;
            Ok(())
        }
        RawBlock::OneResult(value) => write_value(to, value),
        RawBlock::OfType(index) => write_index(to, *index),
    }
}

// Writes an access: bit 40 of the flags and the memory where it isn't memory 0.
#[tactic(auto, using(wasm_forms::proofs::Keeping::keeps_on))]
fn write_access(to: &mut Vec<u8>, flags: u32, memory: u32, offset: u64) -> Result<(), AllocError>
    ensures written { IfOk result (λ _. to.new.items ≡ to.old.items ++ access_bytes flags memory offset) }
    ensures keeps { Keeps to.old.items to.new.items }
{
    if memory == 0 {
        write_u32(to, flags)?;
    } else {
        write_u64(to, u64::from(flags) + 64)?;
        write_u32(to, memory)?;
    }
    write_u64(to, offset)
}

// The type of a block that begins with the byte `first`.
#[tactic(auto, unfolding(wasm_operators::specs::Forms::block_from))]
fn read_block_from(first: u8, bytes: &[u8]) -> Result<(RawBlock, &[u8]), WireError>
    ensures { Gives (λ r. (r.0, r.1.now)) result (at (block_from first) bytes.now) }
{
    if first == EMPTY_BLOCK {
        return Ok((RawBlock::NoResult, bytes));
    }
    if EMPTY_BLOCK < first && first < 128 {
        let (value, rest) = read_value_from(first, bytes)?;
        return Ok((RawBlock::OneResult(value), rest));
    }
    let (index, rest) = read_index_from(first, bytes)?;
    Ok((RawBlock::OfType(index), rest))
}

// The type of a block.
#[tactic(auto, unfolding(wasm_operators::specs::Forms::block_type))]
fn read_block_type(bytes: &[u8]) -> Result<(RawBlock, &[u8]), WireError>
    ensures { Gives (λ r. (r.0, r.1.now)) result (at block_type bytes.now) }
{
    let (first, rest) = read_byte(bytes)?;
    read_block_from(first, rest)
}

// Whether a memory stands behind the flags of an access.
#[inline]
fn names_memory(flags: u32) -> bool
    ensures { result ≡ has_memory flags }
{
    flags / 64 % 2 == 1
}

// What stands behind the flags of an access.
#[tactic(auto, unfolding(wasm_operators::specs::Forms::access_from))]
fn read_access_from(flags: u32, bytes: &[u8]) -> Result<(RawArg, &[u8]), WireError>
    ensures { Gives (λ r. (r.0, r.1.now)) result (at (access_from flags) bytes.now) }
{
    if !names_memory(flags) {
        let (offset, rest) = read_u64(bytes)?;
        let memory = 0;
        return Ok((
            RawArg::Access {
                flags,
                memory,
                offset,
            },
            rest,
        ));
    }
    let flags = flags - 64;
    let (memory, behind) = read_u32(bytes)?;
    let (offset, rest) = read_u64(behind)?;
    Ok((
        RawArg::Access {
            flags,
            memory,
            offset,
        },
        rest,
    ))
}

// An access to memory.
#[tactic(auto, unfolding(wasm_operators::specs::Forms::access))]
fn read_access(bytes: &[u8]) -> Result<(RawArg, &[u8]), WireError>
    ensures { Gives (λ r. (r.0, r.1.now)) result (at access bytes.now) }
{
    let (flags, rest) = read_u32(bytes)?;
    read_access_from(flags, rest)
}

// An index, a label or a count, as the argument at a mark of this kind.
#[tactic(auto, unfolding(crate::specs::Marks::form_of))]
fn read_number(kind: u32, bytes: &[u8]) -> Result<(RawArg, &[u8]), WireError>
    requires access { kind ≢ MARK_ACCESS }
    requires s32 { kind ≢ MARK_S32 }
    requires s64 { kind ≢ MARK_S64 }
    requires block { kind ≢ MARK_BLOCK }
    ensures { Gives (λ r. (r.0, r.1.now)) result (at (form_of kind) bytes.now) }
{
    let (number, rest) = read_u32(bytes)?;
    match kind {
        MARK_LOCAL => Ok((RawArg::Local(number), rest)),
        MARK_FUNCTION => Ok((RawArg::Function(number), rest)),
        MARK_GLOBAL => Ok((RawArg::Global(number), rest)),
        MARK_TYPE => Ok((RawArg::Type(number), rest)),
        MARK_TABLE => Ok((RawArg::Table(number), rest)),
        MARK_MEMORY => Ok((RawArg::Memory(number), rest)),
        MARK_NUMBER => Ok((RawArg::Number(number), rest)),
        _ => Err(WireError::Malformed),
    }
}

// The argument at a mark of this kind, which the bytes begin with, and the bytes behind it.
#[tactic(auto, unfolding(crate::specs::Marks::form_of))]
fn read_marked(kind: u32, bytes: &[u8]) -> Result<(RawArg, &[u8]), WireError>
    ensures { Gives (λ r. (r.0, r.1.now)) result (at (form_of kind) bytes.now) }
{
    match kind {
        MARK_ACCESS => read_access(bytes),
        MARK_S32 => {
            let (value, rest) = read_s32(bytes)?;
            Ok((RawArg::S32(value), rest))
        }
        MARK_S64 => {
            let (value, rest) = read_s64(bytes)?;
            Ok((RawArg::S64(value), rest))
        }
        MARK_BLOCK => {
            let (block, rest) = read_block_type(bytes)?;
            Ok((RawArg::Block(block), rest))
        }
        _ => read_number(kind, bytes),
    }
}

/// The argument that stands at a mark, and the bytes behind it.
///
/// # Errors
///
/// `AllocError` where no memory is left.
pub fn read_at_mark(bytes: &[u8], mark: u32) -> Result<(RawArg, &[u8]), AllocError>
    requires { HasArgument bytes.now mark }
    ensures { IfOk result (λ r. found bytes.now mark ≡ Some (r.0, r.1.now)) }
{
    match read_marked(mark % 16, rest_from(bytes, (mark / 16) as usize)) {
        Ok(read) => Ok(read),
        Err(error) => Err(memory_of(error)),
    }
}

// An argument with its new number.
fn rename_arg<N: Numbers>(numbers: &N, arg: RawArg) -> Option<RawArg>
    ensures is { result ≡ renamed (N.number numbers.now) arg }
    ensures held { IfSome result (λ new. ArgHeld arg → ArgHeld new) }
{
    match arg {
        RawArg::Function(n) => Some(RawArg::Function(new_index(numbers, MARK_FUNCTION, n)?)),
        RawArg::Type(n) => Some(RawArg::Type(new_index(numbers, MARK_TYPE, n)?)),
        RawArg::Table(n) => Some(RawArg::Table(new_index(numbers, MARK_TABLE, n)?)),
        RawArg::Memory(n) => Some(RawArg::Memory(new_index(numbers, MARK_MEMORY, n)?)),
        RawArg::Global(n) => Some(RawArg::Global(new_index(numbers, MARK_GLOBAL, n)?)),
        RawArg::Local(n) => Some(RawArg::Local(new_index(numbers, MARK_LOCAL, n)?)),
        RawArg::Tag(_) | RawArg::Element(_) | RawArg::Data(_) => None,
        RawArg::Value(value) => Some(RawArg::Value(rename_value(numbers, value)?)),
        RawArg::Heap(heap) => Some(RawArg::Heap(rename_heap(numbers, heap)?)),
        RawArg::Block(block) => Some(RawArg::Block(rename_block(numbers, block)?)),
        RawArg::Access {
            flags,
            memory,
            offset,
        } => {
            let memory = new_index(numbers, MARK_MEMORY, memory)?;
            Some(RawArg::Access {
                flags,
                memory,
                offset,
            })
        }
        plain => Some(plain),
    }
}

// Writes an argument that stands at marks.
fn write_marked(to: &mut Vec<u8>, arg: &RawArg) -> Result<(), AllocError>
    requires { is_marked arg.now ≡ true }
    ensures written { IfOk result (λ _. to.new.items ≡ to.old.items ++ arg_bytes arg.now) }
    ensures keeps { Keeps to.old.items to.new.items }
{
    match arg {
        RawArg::Function(number)
        | RawArg::Type(number)
        | RawArg::Table(number)
        | RawArg::Memory(number)
        | RawArg::Global(number)
        | RawArg::Local(number)
        | RawArg::Number(number) => write_u32(to, *number),
        RawArg::S32(value) => write_s32(to, *value),
        RawArg::S64(value) => write_s64(to, *value),
        RawArg::Block(block) => write_block(to, block),
        RawArg::Access {
            flags,
            memory,
            offset,
        } => write_access(to, *flags, *memory, *offset),
        _ => unreachable!(),
    }
}

// Copies what stands up to the argument at a mark, and writes that anew; answers the place behind it, or `NO_PLACE` where it has no new
// number.
#[inline(never)]
#[tactic(auto, using(wasm_forms::proofs::Keeping::keeps_on))]
fn put_anew<N: Numbers>(
    to: &mut Vec<u8>,
    bytes: &[u8],
    run: usize,
    mark: u32,
    numbers: &N,
) -> Result<usize, AllocError>
    requires ordered { run ≤ place_of mark }
    requires stands { HasArgument bytes.now mark }
    ensures steps { IfOk result (λ next.
        Steps (N.number numbers.now) bytes.now run mark to.old.items to.new.items next) }
    ensures keeps { Keeps to.old.items to.new.items }
{
    let (arg, rest) = read_at_mark(bytes, mark)?;
    let Some(new) = rename_arg(numbers, arg) else {
        return Ok(NO_PLACE);
    };
    copy(to, bytes, run, (mark / 16) as usize)?;
    write_marked(to, &new)?;
    Ok(bytes.len() - rest.len())
}

// Copies what stands up to an index, and writes its new number.
#[inline(never)]
fn put_number(
    to: &mut Vec<u8>,
    bytes: &[u8],
    run: usize,
    at: usize,
    number: u32,
) -> Result<(), AllocError>
    requires ordered { run ≤ at }
    requires within { at ≤ length bytes.now }
    ensures written { IfOk result (λ _. to.new.items
        ≡ to.old.items ++ between run at bytes.now ++ number_bytes number) }
    ensures keeps { Keeps to.old.items to.new.items }
{
    copy(to, bytes, run, at)?;
    write_u32(to, number)
}

// The index at a mark: in its one spelling, and with its number, it stays to be copied with what stands in front of it; else its new
// number is written.
#[inline(always)]
fn put_index_as<N: Numbers>(
    to: &mut Vec<u8>,
    bytes: &[u8],
    run: usize,
    mark: u32,
    numbers: &N,
    index: u32,
    behind: usize,
    shortest: bool,
) -> Result<usize, AllocError>
    requires ordered { run ≤ place_of mark }
    requires kind { kind_of mark ≤ 5 }
    requires stands { Stands U32 bytes.now (place_of mark) behind index }
    requires shortest { IfShortest (between (place_of mark) behind bytes.now) shortest }
    ensures steps { IfOk result (λ next.
        Steps (N.number numbers.now) bytes.now run mark to.old.items to.new.items next) }
    ensures keeps { Keeps to.old.items to.new.items }
{
    let Some(new) = new_index(numbers, mark % 16, index) else {
        return Ok(NO_PLACE);
    };
    if new == index && shortest {
        return Ok(run);
    }
    put_number(to, bytes, run, (mark / 16) as usize, new)?;
    Ok(behind)
}

// The index that stands at a place, and the bytes behind it.
#[inline]
fn read_index_at(bytes: &[u8], at: usize) -> Result<(u32, &[u8]), AllocError>
    requires { (behind index : ℕ) × Stands U32 bytes.now at behind index }
    ensures { IfOk result (λ r. Stands U32 bytes.now at (length bytes.now - length r.1.now) r.0) }
{
    match read_u32(rest_from(bytes, at)) {
        Ok(read) => Ok(read),
        Err(error) => Err(memory_of(error)),
    }
}

// The index at a mark that isn't one byte.
#[inline(never)]
fn put_long_index<N: Numbers>(
    to: &mut Vec<u8>,
    bytes: &[u8],
    run: usize,
    mark: u32,
    numbers: &N,
) -> Result<usize, AllocError>
    requires ordered { run ≤ place_of mark }
    requires stands { HasArgument bytes.now mark }
    requires kind { kind_of mark ≤ 5 }
    ensures steps { IfOk result (λ next.
        Steps (N.number numbers.now) bytes.now run mark to.old.items to.new.items next) }
    ensures keeps { Keeps to.old.items to.new.items }
{
    let at = (mark / 16) as usize;
    let (index, rest) = read_index_at(bytes, at)?;
    let behind = bytes.len() - rest.len();
    let shortest = is_shortest(bytes, at, behind);
    put_index_as(to, bytes, run, mark, numbers, index, behind, shortest)
}

// The index at a mark.
#[inline]
fn put_index<N: Numbers>(
    to: &mut Vec<u8>,
    bytes: &[u8],
    run: usize,
    mark: u32,
    numbers: &N,
) -> Result<usize, AllocError>
    requires ordered { run ≤ place_of mark }
    requires stands { HasArgument bytes.now mark }
    requires kind { kind_of mark ≤ 5 }
    ensures steps { IfOk result (λ next.
        Steps (N.number numbers.now) bytes.now run mark to.old.items to.new.items next) }
    ensures keeps { Keeps to.old.items to.new.items }
{
    let at = (mark / 16) as usize;
    match byte_from(bytes, at) {
        Some(byte) if byte < 128 => {
            put_index_as(to, bytes, run, mark, numbers, u32::from(byte), at + 1, true)
        }
        _ => put_long_index(to, bytes, run, mark, numbers),
    }
}

// Whether the access at a mark is one to memory 0 that keeps its number, with flags of one byte and an offset in its one spelling.
#[inline]
fn access_stays<N: Numbers>(bytes: &[u8], mark: u32, numbers: &N) -> bool
    requires { kind_of mark ≡ MARK_ACCESS }
    ensures { IfStays (N.number numbers.now) bytes.now mark result }
{
    let at = (mark / 16) as usize;
    let Some(flags) = byte_from(bytes, at) else {
        return false;
    };
    if flags >= 64 {
        return false;
    }
    let offset = at + 1;
    let behind = past_u64(bytes, offset);
    if behind != NO_PLACE && is_shortest(bytes, offset, behind) {
        let new = numbers.new_number(MARK_MEMORY, 0);
        return new == 0;
    }
    false
}

// Whether the argument at a mark, which is no index, stays as it stands: such an access does.
#[inline]
fn stays<N: Numbers>(bytes: &[u8], mark: u32, numbers: &N) -> bool
    ensures { IfStays (N.number numbers.now) bytes.now mark result }
{
    if mark % 16 == MARK_ACCESS {
        return access_stays(bytes, mark, numbers);
    }
    false
}

// What stands up to the argument at a mark stays to be copied where the argument stays too; else the argument is written anew.
#[inline]
fn put_mark<N: Numbers>(
    to: &mut Vec<u8>,
    bytes: &[u8],
    run: usize,
    mark: u32,
    numbers: &N,
) -> Result<usize, AllocError>
    requires ordered { run ≤ place_of mark }
    requires stands { HasArgument bytes.now mark }
    ensures steps { IfOk result (λ next.
        Steps (N.number numbers.now) bytes.now run mark to.old.items to.new.items next) }
    ensures keeps { Keeps to.old.items to.new.items }
{
    if mark % 16 <= MARK_MEMORY {
        return put_index(to, bytes, run, mark, numbers);
    }
    if stays(bytes, mark, numbers) {
        return Ok(run);
    }
    put_anew(to, bytes, run, mark, numbers)
}

// How many bytes there are.
#[inline]
fn count_of(bytes: &[u8]) -> usize
    ensures is { result ≡ length bytes.now }
    ensures small { result < NO_PLACE }
{
    bytes.len()
}

/// Appends the bytes, where what each argument at a mark names has the number that `numbers` gives, and each of these arguments stands in its
/// one spelling. `false` where one of them has no new number; what was appended means nothing then, nor where memory ran out.
///
/// # Errors
///
/// `AllocError` where no memory is left.
pub fn append_filled<N: Numbers>(
    to: &mut Vec<u8>,
    bytes: &[u8],
    marks: &[u32],
    numbers: &N,
) -> Result<bool, AllocError>
    requires { AreInOrder bytes.now 0 marks.now }
    ensures fills { Fills (N.number numbers.now) bytes.now marks.now to.old.items to.new.items result }
    ensures keeps { Keeps to.old.items to.new.items }
{
    let end = count_of(bytes);
    let mut run = 0;
    'marks: for mark in marks {
        run = put_mark(to, bytes, run, *mark, numbers)?;
        if run == NO_PLACE {
            return Ok(false);
        }
    }
    copy(to, bytes, run, end)?;
    Ok(true)
}
