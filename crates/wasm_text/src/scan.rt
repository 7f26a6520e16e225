//! Plain bodies, scanned operator by operator as they stand in bytes.

ghost use Rattle.std.specs.Prelude.{◌≡◌, ◌+◌, ◌<◌, ◌≤◌, ◌∷◌, [], ◌^◌, ◌⊎◌, ℕ, length, drop, slice_index_or, true, false, Some, IfOk, IfSome, OnOk, vec_capacity, vec_len};
ghost use Rattle.wasm_opcodes.specs.declared.one_byte.TheConstants.{END};
ghost use Rattle.wasm_operators.specs.declared.kind.Kind.TheVariants as kinds;
ghost use Rattle.wasm_operators.specs.Forms.{args_form};
ghost use Rattle.wasm_text.specs.Places.{IfPlace};
ghost use Rattle.wasm_text.specs.Bodies.{IsBody, IsNext, behind_else, behind_end, blocks_of};
ghost use Rattle.wasm_text.specs.Scans.{HasRoom, IsMarked, IsMarkedIfPadded, IsIndexed, Scans, ScansArgs, ScansClass, labels_form};
ghost use Rattle.wasm_text.specs.Unmarked.{AreNamed, IsShortAccess, ScansLeft};
ghost use Rattle.wasm_text.specs.declared.limits.Limits.{Limits as Limited};
ghost use Rattle.wasm_text.specs.declared.class.Class.TheVariants as class;

use crate::class::{Class, class_of};
use crate::limits::Limits;
use crate::mark::{
    MARK_ACCESS, MARK_BLOCK, MARK_FUNCTION, MARK_GLOBAL, MARK_LOCAL, MARK_MEMORY, MARK_NUMBER,
    MARK_S32, MARK_S64, MARK_TABLE, MARK_TYPE,
};
use crate::places::{
    NO_PLACE, byte_from, is_shortest, number_at, past_number, past_s32, past_s64, past_u64,
    rest_from,
};
use crate::unmarked::Unmarked;
use std::alloc::AllocError;
use wasm_forms::read_index_from;
use wasm_opcodes::one_byte::{END, IF};
use wasm_opcodes::types::{EMPTY_BLOCK, I32_TYPE, V128_TYPE};

// Numbers behind the byte FC (Binary Format > Instructions). Up to the first one stand saturating truncations, from TABLE_GROW to
// TABLE_FILL operators with one table.
const I64_TRUNC_SAT_F64_U: u8 = 7;

const MEMORY_COPY: u8 = 10;

const MEMORY_FILL: u8 = 11;

const TABLE_GROW: u8 = 15;

const TABLE_FILL: u8 = 17;

// Puts a mark behind the others, and answers the place behind the argument.
#[inline]
fn put_mark(marks: &mut Vec<u32>, at: usize, kind: u32, behind: usize) -> usize
    requires room { vec_len marks.old < vec_capacity marks.old }
    requires small { at < 2 ^ 28 }
    requires kind { kind < 16 }
    ensures marked { IsMarked at kind behind marks.old.items marks.new.items result }
    ensures capacity { vec_capacity marks.new ≡ vec_capacity marks.old }
{
    marks.push_reserved(at as u32 * 16 + kind);
    behind
}

// An index below a count, with a mark of this kind, that isn't one byte.
#[inline(never)]
fn scan_long_index(bytes: &[u8], at: usize, below: u32, kind: u32, marks: &mut Vec<u32>) -> usize
    requires room { HasRoom marks.old bytes.now at }
    requires kind { kind < 16 }
    ensures indexed { IfPlace result
        (IsIndexed below kind bytes.now at result marks.old.items marks.new.items) }
    ensures capacity { vec_capacity marks.new ≡ vec_capacity marks.old }
{
    if number_at(bytes, at) >= u64::from(below) {
        return NO_PLACE;
    }
    put_mark(marks, at, kind, past_number(bytes, at, 5))
}

// An index below a count, with a mark of this kind.
#[inline]
fn scan_index(bytes: &[u8], at: usize, below: u32, kind: u32, marks: &mut Vec<u32>) -> usize
    requires room { HasRoom marks.old bytes.now at }
    requires kind { kind < 16 }
    ensures indexed { IfPlace result
        (IsIndexed below kind bytes.now at result marks.old.items marks.new.items) }
    ensures capacity { vec_capacity marks.new ≡ vec_capacity marks.old }
{
    match byte_from(bytes, at) {
        Some(byte) if byte < 128 => {
            if u32::from(byte) >= below {
                return NO_PLACE;
            }
            put_mark(marks, at, kind, at + 1)
        }
        _ => scan_long_index(bytes, at, below, kind, marks),
    }
}

// Puts a mark behind the others, unless the argument stands in its one spelling.
#[inline]
fn put_mark_if_padded(
    bytes: &[u8],
    marks: &mut Vec<u32>,
    at: usize,
    kind: u32,
    behind: usize,
) -> usize
    requires room { HasRoom marks.old bytes.now at }
    requires forward { at ≤ behind }
    requires kind { kind < 16 }
    ensures marked { IsMarkedIfPadded bytes.now at kind behind marks.old.items marks.new.items result }
    ensures capacity { vec_capacity marks.new ≡ vec_capacity marks.old }
{
    if is_shortest(bytes, at, behind) {
        return behind;
    }
    put_mark(marks, at, kind, behind)
}

// A label.
#[inline]
fn scan_label(bytes: &[u8], at: usize, limits: &Limits, marks: &mut Vec<u32>) -> usize
    requires room { HasRoom marks.old bytes.now at }
    ensures scans { Scans (kinds.Label ∷ []) limits.now bytes.now at
        marks.old.items marks.new.items result }
    ensures capacity { vec_capacity marks.new ≡ vec_capacity marks.old }
{
    let label = number_at(bytes, at);
    if label >= limits.labels as u64 || label >= 1 << 32 {
        return NO_PLACE;
    }
    put_mark_if_padded(bytes, marks, at, MARK_NUMBER, past_number(bytes, at, 5))
}

// So many labels.
fn scan_label_row(
    count: u64,
    bytes: &[u8],
    at: usize,
    limits: &Limits,
    marks: &mut Vec<u32>,
) -> usize
    requires room { HasRoom marks.old bytes.now at }
    ensures scans { ScansArgs (labels_form count) limits.now bytes.now at
        marks.old.items marks.new.items result }
    ensures capacity { vec_capacity marks.new ≡ vec_capacity marks.old }
{
    let mut place = at;
    'labels: for _taken in 0..count {
        place = scan_label(bytes, place, limits, marks);
        if place == NO_PLACE {
            return NO_PLACE;
        }
    }
    place
}

// A count, that many labels, and a label.
#[inline(never)]
fn scan_labels(bytes: &[u8], at: usize, limits: &Limits, marks: &mut Vec<u32>) -> usize
    requires room { HasRoom marks.old bytes.now at }
    ensures scans { Scans (kinds.Labels ∷ kinds.Label ∷ []) limits.now bytes.now at
        marks.old.items marks.new.items result }
    ensures capacity { vec_capacity marks.new ≡ vec_capacity marks.old }
{
    let count = number_at(bytes, at);
    if count >= 1 << 32 {
        return NO_PLACE;
    }
    let first = past_number(bytes, at, 5);
    let behind = put_mark_if_padded(bytes, marks, at, MARK_NUMBER, first);
    if behind == NO_PLACE {
        return NO_PLACE;
    }
    let last = scan_label_row(count, bytes, behind, limits, marks);
    if last == NO_PLACE {
        return NO_PLACE;
    }
    scan_label(bytes, last, limits, marks)
}

// A type and a table.
#[inline(never)]
fn scan_type_table(bytes: &[u8], at: usize, limits: &Limits, marks: &mut Vec<u32>) -> usize
    requires room { HasRoom marks.old bytes.now at }
    ensures scans { Scans (kinds.«Type» ∷ kinds.Table ∷ []) limits.now bytes.now at
        marks.old.items marks.new.items result }
    ensures capacity { vec_capacity marks.new ≡ vec_capacity marks.old }
{
    let table = scan_index(bytes, at, limits.types, MARK_TYPE, marks);
    if table == NO_PLACE {
        return NO_PLACE;
    }
    scan_index(bytes, table, limits.tables, MARK_TABLE, marks)
}

// Two memories.
#[inline(never)]
fn scan_memories(bytes: &[u8], at: usize, limits: &Limits, marks: &mut Vec<u32>) -> usize
    requires room { HasRoom marks.old bytes.now at }
    ensures scans { Scans (kinds.Memory ∷ kinds.Memory ∷ []) limits.now bytes.now at
        marks.old.items marks.new.items result }
    ensures capacity { vec_capacity marks.new ≡ vec_capacity marks.old }
{
    let source = scan_index(bytes, at, limits.memories, MARK_MEMORY, marks);
    if source == NO_PLACE {
        return NO_PLACE;
    }
    scan_index(bytes, source, limits.memories, MARK_MEMORY, marks)
}

// Flags a local, where there are flags.
#[inline]
fn name_local(unmarked: &mut Unmarked, index: usize)
    ensures first { unmarked.new.first ≡ unmarked.old.first }
    ensures accessed { unmarked.new.accessed ≡ unmarked.old.accessed }
    ensures named { (n : ℕ) → slice_index_or unmarked.new.named.items n false ≡ true
        → (slice_index_or unmarked.old.named.items n false ≡ true) ⊎ (n ≡ index) }
{
    if index < unmarked.named.len() {
        unmarked.named[index] = true;
    }
}

// The index of a local that isn't one byte.
#[inline(never)]
fn scan_long_local(
    bytes: &[u8],
    at: usize,
    limits: &Limits,
    unmarked: &mut Unmarked,
    marks: &mut Vec<u32>,
) -> usize
    requires room { HasRoom marks.old bytes.now at }
    ensures scans { ScansLeft (kinds.Local ∷ []) limits.now unmarked.old unmarked.new bytes.now at
        marks.old.items marks.new.items result }
    ensures first { unmarked.new.first ≡ unmarked.old.first }
    ensures capacity { vec_capacity marks.new ≡ vec_capacity marks.old }
{
    let index = number_at(bytes, at);
    if index >= u64::from(limits.locals) {
        return NO_PLACE;
    }
    let behind = past_number(bytes, at, 5);
    if index < u64::from(unmarked.first) {
        return put_mark(marks, at, MARK_LOCAL, behind);
    }
    name_local(unmarked, index as usize);
    put_mark_if_padded(bytes, marks, at, MARK_LOCAL, behind)
}

// The index of a local: without a mark where it needs none.
#[inline]
fn scan_local(
    bytes: &[u8],
    at: usize,
    limits: &Limits,
    unmarked: &mut Unmarked,
    marks: &mut Vec<u32>,
) -> usize
    requires room { HasRoom marks.old bytes.now at }
    ensures scans { ScansLeft (kinds.Local ∷ []) limits.now unmarked.old unmarked.new bytes.now at
        marks.old.items marks.new.items result }
    ensures first { unmarked.new.first ≡ unmarked.old.first }
    ensures capacity { vec_capacity marks.new ≡ vec_capacity marks.old }
{
    match byte_from(bytes, at) {
        Some(byte) if byte < 128 => {
            let index = u32::from(byte);
            if index >= limits.locals {
                return NO_PLACE;
            }
            if index < unmarked.first {
                return put_mark(marks, at, MARK_LOCAL, at + 1);
            }
            name_local(unmarked, index as usize);
            at + 1
        }
        _ => scan_long_local(bytes, at, limits, unmarked, marks),
    }
}

// An access to memory 0, with a mark.
#[inline(never)]
fn scan_padded_access(bytes: &[u8], at: usize, limits: &Limits, marks: &mut Vec<u32>) -> usize
    requires room { HasRoom marks.old bytes.now at }
    ensures scans { Scans (kinds.Access ∷ []) limits.now bytes.now at
        marks.old.items marks.new.items result }
    ensures capacity { vec_capacity marks.new ≡ vec_capacity marks.old }
{
    let flags = number_at(bytes, at);
    if flags >= 1 << 6 || limits.memories == 0 {
        return NO_PLACE;
    }
    let offset = past_number(bytes, at, 5);
    let behind = past_u64(bytes, offset);
    put_mark(marks, at, MARK_ACCESS, behind)
}

// The place behind an access to memory 0, with flags of one byte and an offset in its one spelling.
#[inline]
fn past_short_access(bytes: &[u8], at: usize) -> usize
    ensures { IfPlace result (IsShortAccess bytes.now at result) }
{
    match byte_from(bytes, at) {
        Some(flags) if flags < 64 => {
            let behind = past_u64(bytes, at + 1);
            if behind != NO_PLACE && is_shortest(bytes, at + 1, behind) {
                return behind;
            }
            NO_PLACE
        }
        _ => NO_PLACE,
    }
}

// An access to memory 0: without a mark where it stands in its one spelling.
#[inline]
fn scan_access(
    bytes: &[u8],
    at: usize,
    limits: &Limits,
    unmarked: &mut Unmarked,
    marks: &mut Vec<u32>,
) -> usize
    requires room { HasRoom marks.old bytes.now at }
    ensures scans { ScansLeft (kinds.Access ∷ []) limits.now unmarked.old unmarked.new bytes.now at
        marks.old.items marks.new.items result }
    ensures first { unmarked.new.first ≡ unmarked.old.first }
    ensures capacity { vec_capacity marks.new ≡ vec_capacity marks.old }
{
    let behind = past_short_access(bytes, at);
    if behind == NO_PLACE || limits.memories == 0 {
        return scan_padded_access(bytes, at, limits, marks);
    }
    unmarked.accessed = true;
    behind
}

// The constant of `i32.const`.
#[inline]
fn scan_s32(bytes: &[u8], at: usize, marks: &mut Vec<u32>) -> usize
    requires room { HasRoom marks.old bytes.now at }
    ensures scans { (limits : Limited) → Scans (kinds.S32 ∷ []) limits bytes.now at
        marks.old.items marks.new.items result }
    ensures capacity { vec_capacity marks.new ≡ vec_capacity marks.old }
{
    put_mark_if_padded(bytes, marks, at, MARK_S32, past_s32(bytes, at))
}

// The constant of `i64.const`.
#[inline]
fn scan_s64(bytes: &[u8], at: usize, marks: &mut Vec<u32>) -> usize
    requires room { HasRoom marks.old bytes.now at }
    ensures scans { (limits : Limited) → Scans (kinds.S64 ∷ []) limits bytes.now at
        marks.old.items marks.new.items result }
    ensures capacity { vec_capacity marks.new ≡ vec_capacity marks.old }
{
    put_mark_if_padded(bytes, marks, at, MARK_S64, past_s64(bytes, at))
}

// The type of a block that begins with the byte `first` and is the index of a type.
#[inline(never)]
fn scan_type_block(
    first: u8,
    bytes: &[u8],
    at: usize,
    limits: &Limits,
    marks: &mut Vec<u32>,
) -> usize
    requires room { HasRoom marks.old bytes.now at }
    requires first { drop at bytes.now ≡ first ∷ drop (at + 1) bytes.now }
    requires index { (first < 64) ⊎ (128 ≤ first) }
    ensures scans { Scans (kinds.Block ∷ []) limits.now bytes.now at
        marks.old.items marks.new.items result }
    ensures capacity { vec_capacity marks.new ≡ vec_capacity marks.old }
{
    match read_index_from(first, rest_from(bytes, at + 1)) {
        Ok((index, after)) if index < limits.types => {
            put_mark(marks, at, MARK_BLOCK, bytes.len() - after.len())
        }
        _ => NO_PLACE,
    }
}

// The type of a block: none, a number or vector type, or the index of a type.
#[inline]
fn scan_block(bytes: &[u8], at: usize, limits: &Limits, marks: &mut Vec<u32>) -> usize
    requires room { HasRoom marks.old bytes.now at }
    ensures scans { Scans (kinds.Block ∷ []) limits.now bytes.now at
        marks.old.items marks.new.items result }
    ensures capacity { vec_capacity marks.new ≡ vec_capacity marks.old }
{
    let Some(first) = byte_from(bytes, at) else {
        return NO_PLACE;
    };
    match first {
        EMPTY_BLOCK => at + 1,
        V128_TYPE..=I32_TYPE => at + 1,
        0..=63 => scan_type_block(first, bytes, at, limits, marks),
        128..=255 => scan_type_block(first, bytes, at, limits, marks),
        _ => NO_PLACE,
    }
}

// The place behind so many bytes.
#[inline]
fn past_bytes(bytes: &[u8], at: usize, count: usize) -> usize
    ensures { IfPlace result ((result ≡ at + count) × (result ≤ length bytes.now)) }
{
    if at <= bytes.len() && bytes.len() - at >= count {
        return at + count;
    }
    NO_PLACE
}

// What stands behind the byte FC: a number in one byte, and the arguments of saturating truncation, `memory.copy`, `memory.fill`,
// `table.grow`, `table.size` or `table.fill`.
#[inline(never)]
fn scan_prefixed(bytes: &[u8], at: usize, limits: &Limits, marks: &mut Vec<u32>) -> usize
    requires room { HasRoom marks.old bytes.now at }
    ensures scans { ScansClass class.Prefix limits.now bytes.now at
        marks.old.items marks.new.items result }
    ensures capacity { vec_capacity marks.new ≡ vec_capacity marks.old }
{
    let Some(number) = byte_from(bytes, at) else {
        return NO_PLACE;
    };
    match number {
        0..=I64_TRUNC_SAT_F64_U => at + 1,
        MEMORY_COPY => scan_memories(bytes, at + 1, limits, marks),
        MEMORY_FILL => scan_index(bytes, at + 1, limits.memories, MARK_MEMORY, marks),
        TABLE_GROW..=TABLE_FILL => scan_index(bytes, at + 1, limits.tables, MARK_TABLE, marks),
        _ => NO_PLACE,
    }
}

// What stands behind the first byte of an operator of this class. One that opens or closes a block, names a local or accesses memory isn't scanned
// here.
#[inline]
fn scan_class(class: Class, bytes: &[u8], at: usize, limits: &Limits, marks: &mut Vec<u32>) -> usize
    requires room { HasRoom marks.old bytes.now at }
    ensures scans { ScansClass class limits.now bytes.now at marks.old.items marks.new.items result }
    ensures capacity { vec_capacity marks.new ≡ vec_capacity marks.old }
{
    match class {
        Class::Bare => at,
        Class::S32 => scan_s32(bytes, at, marks),
        Class::Label => scan_label(bytes, at, limits, marks),
        Class::Function => scan_index(bytes, at, limits.functions, MARK_FUNCTION, marks),
        Class::Global => scan_index(bytes, at, limits.globals, MARK_GLOBAL, marks),
        Class::S64 => scan_s64(bytes, at, marks),
        Class::F32 => past_bytes(bytes, at, 4),
        Class::F64 => past_bytes(bytes, at, 8),
        Class::Labels => scan_labels(bytes, at, limits, marks),
        Class::Type => scan_index(bytes, at, limits.types, MARK_TYPE, marks),
        Class::TypeTable => scan_type_table(bytes, at, limits, marks),
        Class::Table => scan_index(bytes, at, limits.tables, MARK_TABLE, marks),
        Class::Memory => scan_index(bytes, at, limits.memories, MARK_MEMORY, marks),
        Class::Prefix => scan_prefixed(bytes, at, limits, marks),
        Class::Local | Class::Access => NO_PLACE,
        Class::Block | Class::Else | Class::End | Class::Other => NO_PLACE,
    }
}

// A block opens in the innermost one.
#[inline]
fn open_block(opened: &mut Vec<bool>, is_if: bool) -> Result<(), AllocError>
    ensures opens { OnOk result (blocks_of opened.new ≡ is_if ∷ blocks_of opened.old) }
    ensures some { OnOk result (0 < vec_len opened.new) }
{
    opened.push(is_if)?;
    Ok(())
}

// The place behind an `else` that begins at `at`, where the innermost block is an `if` without one.
#[inline]
fn turn_to_else(opened: &mut Vec<bool>, at: usize) -> usize
    requires { at < 2 ^ 28 }
    ensures turns { IfPlace result
        ((result ≡ at + 1) × (behind_else (blocks_of opened.old) ≡ Some (blocks_of opened.new))) }
    ensures as_many { IfPlace result (vec_len opened.new ≡ vec_len opened.old) }
{
    match opened.pop() {
        Some(true) => {
            opened.push_reserved(false);
            at + 1
        }
        _ => NO_PLACE,
    }
}

// The place behind an `end` that begins at `at`, where the innermost block isn't the function itself.
#[inline]
fn close(opened: &mut Vec<bool>, at: usize) -> usize
    requires { at < 2 ^ 28 }
    ensures closes { IfPlace result
        ((result ≡ at + 1) × (behind_end (blocks_of opened.old) ≡ Some (blocks_of opened.new))) }
    ensures some { IfPlace result (0 < vec_len opened.new) }
{
    if opened.len() <= 1 {
        return NO_PLACE;
    }
    match opened.pop() {
        Some(_closed) => at + 1,
        None => NO_PLACE,
    }
}

// The place behind the plain operator that begins at `at`, in the blocks that are open, if it isn't the `end` of the function. Those of its marks that are
// needed are put behind the others. The limits hold how many blocks are open, then and now.
#[inline]
fn scan_operator(
    bytes: &[u8],
    at: usize,
    limits: &mut Limits,
    opened: &mut Vec<bool>,
    unmarked: &mut Unmarked,
    marks: &mut Vec<u32>,
) -> Result<usize, AllocError>
    requires there { at < length bytes.now }
    requires room { HasRoom marks.old bytes.now (at + 1) }
    requires some { 0 < vec_len opened.old }
    requires labels { limits.old.labels ≡ vec_len opened.old }
    ensures scans { IfOk result (λ behind. IfPlace behind (IsNext limits.old unmarked.old unmarked.new
        bytes.now at behind (blocks_of opened.old) (blocks_of opened.new) marks.old.items
        marks.new.items)) }
    ensures some { IfOk result (λ behind. IfPlace behind (0 < vec_len opened.new)) }
    ensures labels { IfOk result (λ behind. IfPlace behind
        (limits.new ≡ record limits.old { labels = vec_len opened.new })) }
    ensures first { unmarked.new.first ≡ unmarked.old.first }
    ensures capacity { vec_capacity marks.new ≡ vec_capacity marks.old }
{
    let Some(first) = byte_from(bytes, at) else {
        return Ok(NO_PLACE);
    };
    let class = class_of(first);
    match class {
        Class::Block => {
            let behind = scan_block(bytes, at + 1, limits, marks);
            open_block(opened, u32::from(first) == IF)?;
            limits.labels = opened.len();
            Ok(behind)
        }
        Class::Else => Ok(turn_to_else(opened, at)),
        Class::End => {
            let behind = close(opened, at);
            limits.labels = opened.len();
            Ok(behind)
        }
        Class::Local => Ok(scan_local(bytes, at + 1, limits, unmarked, marks)),
        Class::Access => Ok(scan_access(bytes, at + 1, limits, unmarked, marks)),
        _ => Ok(scan_class(class, bytes, at + 1, limits, marks)),
    }
}

// The place behind the byte at `at`, if it is an `end` and the last one.
#[inline]
fn past_last_end(bytes: &[u8], at: usize) -> usize
    ensures { IfPlace result ((drop at bytes.now ≡ END ∷ drop (at + 1) bytes.now)
        × (at + 1 ≡ length bytes.now)) }
{
    match byte_from(bytes, at) {
        Some(byte) if u32::from(byte) == END && at + 1 == bytes.len() => at + 1,
        _ => NO_PLACE,
    }
}

// How many operators the bytes are, if they are a plain body that names only what is within the limits. Then those of its marks that are needed stand
// in `marks`. The function itself is open, there are no marks yet, and nothing is flagged.
#[inline(never)]
fn scan_operators(
    bytes: &[u8],
    limits: &Limits,
    opened: &mut Vec<bool>,
    unmarked: &mut Unmarked,
    marks: &mut Vec<u32>,
) -> Result<Option<usize>, AllocError>
    requires room { HasRoom marks.old bytes.now 0 }
    requires none { marks.old.items ≡ [] }
    requires alone { opened.old.items ≡ false ∷ [] }
    requires unnamed { AreNamed unmarked.old [] }
    ensures body { IfOk result (λ found. IfSome found
        (IsBody limits.now unmarked.new bytes.now marks.new.items)) }
    ensures first { unmarked.new.first ≡ unmarked.old.first }
{
    let mut here = *limits;
    here.labels = opened.len();
    let mut count: usize = 0;
    let mut at: usize = 0;
    'operators: while at + 1 < bytes.len() {
        let behind = scan_operator(bytes, at, &mut here, opened, unmarked, marks)?;
        if behind == NO_PLACE {
            return Ok(None);
        }
        count += 1;
        at = behind;
    }
    if here.labels != 1 {
        return Ok(None);
    }
    let last = past_last_end(bytes, at);
    if last == NO_PLACE {
        return Ok(None);
    }
    Ok(Some(count + 1))
}

// No local is flagged, nor memory 0.
fn begin(unmarked: &mut Unmarked, locals: u32) -> Result<(), AllocError>
    ensures unnamed { OnOk result (AreNamed unmarked.new []) }
    ensures first { unmarked.new.first ≡ unmarked.old.first }
{
    unmarked.accessed = false;
    unmarked.named.clear();
    if unmarked.first < locals {
        unmarked.named.resize(locals as usize, false)?;
    }
    Ok(())
}

/// How many operators the bytes are, if they are a plain body (Binary Format > Instructions > Expressions) that names only what is within the
/// limits: its operators nest up to the `end` of the function, and no byte stands behind that. Then those of its marks that are needed stand in `marks`,
/// with offsets counted from the first byte, and `unmarked`, which says which aren't needed, has flags of what these name. `opened` is room for a
/// flag of each open block. All may hold anything before but for `unmarked.first`.
///
/// How many blocks the limits say are open counts for nothing, and whether the type of a block is a function type isn't looked at. None is answered
/// of 2^28 bytes and more.
///
/// # Errors
///
/// `AllocError` where no memory is left.
pub fn scan_body(
    bytes: &[u8],
    limits: &Limits,
    opened: &mut Vec<bool>,
    unmarked: &mut Unmarked,
    marks: &mut Vec<u32>,
) -> Result<Option<usize>, AllocError>
    ensures body { IfOk result (λ found. IfSome found
        (IsBody limits.now unmarked.new bytes.now marks.new.items)) }
    ensures first { unmarked.new.first ≡ unmarked.old.first }
{
    if bytes.len() >= 1 << 28 {
        return Ok(None);
    }
    marks.clear();
    marks.reserve(bytes.len() + 1)?;
    opened.clear();
    opened.push(false)?;
    begin(unmarked, limits.locals)?;
    scan_operators(bytes, limits, opened, unmarked, marks)
}
