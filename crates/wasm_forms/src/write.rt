//! Writing numbers, blocks, names and vectors, each in its shortest spelling. A writer is refused for lack of memory only where what it
//! writes doesn't fit into the room that the vector has, and it gives no room back.

ghost use Rattle.std.specs.Prelude.{◌≡◌, ◌<◌, ◌≤◌, ◌+◌, ◌%◌, ℕ, List, ◌++◌, length, if◌then◌else◌, is_ok, ◌⊎◌};
ghost use Rattle.wasm_forms.specs.Number.{AreBytes, IsUnsigned};
ghost use Rattle.wasm_forms.specs.Writing.{Adds, Keeps, NeedsRoom, TakesRoom, Wrote, FitsLength, EachFits, FitsVector};
ghost use Rattle.wasm_forms.specs.Spelling.{shown, groups, number_bytes, integer_bytes, index_bytes, f32_bytes, f64_bytes, block_bytes, name_bytes, row_bytes, vector_bytes};

use crate::error::WireError;
use std::alloc::AllocError;

/// How many bytes the shortest spelling of `value` as a u32 has, which is the one that is written: 1 to 5. Takes no memory.
pub fn leb128_len(value: u32) -> usize
    ensures written { result ≡ length (number_bytes value) }
    ensures least { (spelling : List ℕ) → AreBytes spelling → IsUnsigned spelling value
        → result ≤ length spelling }
{
    if value < 128 {
        1
    } else if value < 16384 {
        2
    } else if value < 2_097_152 {
        3
    } else if value < 268_435_456 {
        4
    } else {
        5
    }
}

/// A group that has more behind it: its seven bits, or below zero what they lack, and the mark that more follow.
#[inline]
fn more_group(below: bool, left: u64) -> u8
    ensures { result ≡ 128 + shown below (left % 128) }
{
    let bits = (left % 128) as u8;
    if below { 255 - bits } else { 128 + bits }
}

/// The last group.
#[inline]
fn last_group(below: bool, left: u64) -> u8
    requires { left < 128 }
    ensures { result ≡ shown below left }
{
    if below { 127 - left as u8 } else { left as u8 }
}

/// Writes the groups of `number`, or where `below` is set those of -`number` - 1, up to one that is below `stop`.
fn write_groups(to: &mut Vec<u8>, below: bool, stop: u64, number: u64) -> Result<(), AllocError>
    requires { (stop ≡ 64) ⊎ (stop ≡ 128) }
    ensures written { to.new.items
        ≡ (if is_ok result then to.old.items ++ groups below stop 9 number else to.old.items) }
    ensures room { NeedsRoom result to.old to.new (groups below stop 9 number) }
{
    let before = to.len();
    let mut left = number;
    'groups: while left >= stop {
        if let Err(failed) = to.push(more_group(below, left)) {
            to.truncate(before);
            return Err(AllocError::from(failed));
        }
        left /= 128;
    }
    if let Err(failed) = to.push(last_group(below, left)) {
        to.truncate(before);
        return Err(AllocError::from(failed));
    }
    Ok(())
}

/// Writes a number of two bytes in its shortest spelling. Refused for lack of memory, the bytes stay.
#[inline(never)]
fn write_two_bytes(to: &mut Vec<u8>, value: u32) -> Result<(), AllocError>
    requires more { 128 ≤ value }
    requires few { value < 16384 }
    ensures written { to.new.items
        ≡ (if is_ok result then to.old.items ++ number_bytes value else to.old.items) }
    ensures room { NeedsRoom result to.old to.new (number_bytes value) }
{
    to.extend_from_slice(&[128 + (value % 128) as u8, (value / 128) as u8])
}

/// Writes a u32 in its shortest spelling. Refused for lack of memory, the bytes stay.
#[inline]
pub fn write_u32(to: &mut Vec<u8>, value: u32) -> Result<(), AllocError>
    ensures written { to.new.items
        ≡ (if is_ok result then to.old.items ++ number_bytes value else to.old.items) }
    ensures room { NeedsRoom result to.old to.new (number_bytes value) }
{
    if value >= 128 {
        if value < 16384 {
            return write_two_bytes(to, value);
        }
        return write_groups(to, false, 128, u64::from(value));
    }
    to.push(value as u8)?;
    Ok(())
}

/// Writes an s32 in its shortest spelling. Refused for lack of memory, the bytes stay.
pub fn write_s32(to: &mut Vec<u8>, value: i32) -> Result<(), AllocError>
    ensures written { to.new.items
        ≡ (if is_ok result then to.old.items ++ integer_bytes value else to.old.items) }
    ensures room { NeedsRoom result to.old to.new (integer_bytes value) }
{
    if value < 0 {
        write_groups(to, true, 64, u64::from((-1 - value) as u32))
    } else {
        write_groups(to, false, 64, u64::from(value as u32))
    }
}

/// Writes a u64 (Binary Format > Values > Integers) in its shortest spelling. Refused for lack of memory, the bytes stay.
#[inline]
pub fn write_u64(to: &mut Vec<u8>, value: u64) -> Result<(), AllocError>
    ensures written { to.new.items
        ≡ (if is_ok result then to.old.items ++ number_bytes value else to.old.items) }
    ensures room { NeedsRoom result to.old to.new (number_bytes value) }
{
    if value >= 128 {
        return write_groups(to, false, 128, value);
    }
    to.push(value as u8)?;
    Ok(())
}

/// Writes an s64 (Binary Format > Values > Integers) in its shortest spelling. Refused for lack of memory, the bytes stay.
pub fn write_s64(to: &mut Vec<u8>, value: i64) -> Result<(), AllocError>
    ensures written { to.new.items
        ≡ (if is_ok result then to.old.items ++ integer_bytes value else to.old.items) }
    ensures room { NeedsRoom result to.old to.new (integer_bytes value) }
{
    if value < 0 {
        write_groups(to, true, 64, (-1 - value) as u64)
    } else {
        write_groups(to, false, 64, value as u64)
    }
}

/// Writes an index (Binary Format > Types > Heap Types) as the shortest s33 with its value. Refused for lack of memory, the bytes stay.
pub fn write_index(to: &mut Vec<u8>, index: u32) -> Result<(), AllocError>
    ensures written { to.new.items
        ≡ (if is_ok result then to.old.items ++ index_bytes index else to.old.items) }
    ensures room { NeedsRoom result to.old to.new (index_bytes index) }
{
    write_groups(to, false, 64, u64::from(index))
}

/// Writes the bits of an f32 (Binary Format > Values > Floating-Point), the lowest byte first. Refused for lack of memory, the bytes stay.
pub fn write_f32(to: &mut Vec<u8>, bits: u32) -> Result<(), AllocError>
    ensures written { to.new.items ≡ (if is_ok result then to.old.items ++ f32_bytes bits else to.old.items) }
    ensures room { NeedsRoom result to.old to.new (f32_bytes bits) }
{
    let four = bits.to_le_bytes();
    to.extend_from_slice(&four)
}

/// Writes the bits of an f64 (Binary Format > Values > Floating-Point), the lowest byte first. Refused for lack of memory, the bytes stay.
pub fn write_f64(to: &mut Vec<u8>, bits: u64) -> Result<(), AllocError>
    ensures written { to.new.items ≡ (if is_ok result then to.old.items ++ f64_bytes bits else to.old.items) }
    ensures room { NeedsRoom result to.old to.new (f64_bytes bits) }
{
    let eight = bits.to_le_bytes();
    to.extend_from_slice(&eight)
}

/// Writes the count of the bytes and these. Refused, the bytes written before stay.
///
/// [`WireError::TooLarge`] where there are 2^32 bytes or more.
pub fn write_block(to: &mut Vec<u8>, block: &[u8]) -> Result<(), WireError>
    ensures written { Wrote result to.old.items to.new.items (block_bytes block.now) (FitsLength block.now) }
    ensures room { TakesRoom result to.old to.new (block_bytes block.now) }
{
    let Ok(count) = u32::try_from(block.len()) else {
        return Err(WireError::TooLarge);
    };
    let length = to.len();
    write_u32(to, count)?;
    if let Err(failed) = to.extend_from_slice(block) {
        to.truncate(length);
        return Err(WireError::from(failed));
    }
    Ok(())
}

/// Writes a name: the count of its bytes and these. Refused, the bytes written before stay.
///
/// [`WireError::TooLarge`] where it has 2^32 bytes or more.
pub fn write_name(to: &mut Vec<u8>, name: &str) -> Result<(), WireError>
    ensures written { Wrote result to.old.items to.new.items (name_bytes name.now) (FitsLength name.now) }
    ensures room { TakesRoom result to.old to.new (name_bytes name.now) }
{
    write_block(to, name.as_bytes())
}

/// What a vector is written of. `spelled` is the bytes that are written for it, and `Fits` says that each length in it is below 2^32.
pub trait Written {
    ghost spelled: { Self → List ℕ };

    ghost Fits: { Self → Type 0 };

    /// Writes it behind the bytes of `to`. Refused, the bytes written before stay, and what was appended behind them means nothing.
    fn write(&self, to: &mut Vec<u8>) -> Result<(), WireError>
        ensures adds { Adds result to.old.items to.new.items (spelled self.now) (Fits self.now) }
        ensures room { TakesRoom result to.old to.new (spelled self.now) }
        ensures keeps { Keeps to.old.items to.new.items };
}

impl Written for u32 {
    ghost spelled = { number_bytes };

    ghost Fits = { λ _. Unit {0} };

    fn write(&self, to: &mut Vec<u8>) -> Result<(), WireError> {
        write_u32(to, *self)?;
        Ok(())
    }
}

/// Writes items one after another.
fn write_row<E: Written>(to: &mut Vec<u8>, items: &[E]) -> Result<(), WireError>
    ensures adds { Adds result to.old.items to.new.items (row_bytes E.spelled items.now)
        (EachFits E.Fits items.now) }
    ensures room { TakesRoom result to.old to.new (row_bytes E.spelled items.now) }
    ensures keeps { Keeps to.old.items to.new.items }
{
    'items: for item in items {
        item.write(to)?;
    }
    Ok(())
}

/// Writes the count of the items and each item. Refused, the bytes written before stay, and what was appended behind them means
/// nothing.
///
/// [`WireError::TooLarge`] where there are 2^32 items or more, or one of them is too large.
pub fn write_vector<E: Written>(to: &mut Vec<u8>, items: &[E]) -> Result<(), WireError>
    ensures adds { Adds result to.old.items to.new.items (vector_bytes E.spelled items.now)
        (FitsVector E.Fits items.now) }
    ensures room { TakesRoom result to.old to.new (vector_bytes E.spelled items.now) }
    ensures keeps { Keeps to.old.items to.new.items }
{
    let Ok(count) = u32::try_from(items.len()) else {
        return Err(WireError::TooLarge);
    };
    write_u32(to, count)?;
    write_row(to, items)
}
