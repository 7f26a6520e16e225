//! Integers (Binary Format > Values > Integers).

ghost use Rattle.std.specs.Prelude.{◌≡◌, ◌<◌, ◌≤◌, ◌^◌, suc, MatchOption, pos, ◌+ℤ◌, ◌*ℤ◌, ◌*◌, ◌⊎◌, false};
ghost use Rattle.wasm_forms.specs.Reading.{Gives};
ghost use Rattle.wasm_forms.specs.Number.{leb_at, sleb_at, last_of, Fits, fits, last_at, unsigned_end, signed_end, IsLast, Continues};
ghost use Rattle.wasm_forms.specs.Grammar.{Reads, U32, S32, U64, S64, IndexFrom, at};

use crate::error::WireError;

/// The groups in front of a number's last byte: what they add up to, what the next group counts, and the bytes from there on.
#[derive(Drop)]
struct Groups<'a> {
    value: u64,
    scale: u64,
    rest: &'a [u8],
}

/// The seven bits of a byte that says that more follow, and the bytes after it.
#[inline]
fn more_behind(bytes: &[u8]) -> Option<(u64, &[u8])>
    ensures { MatchOption result (IsLast bytes.now) (λ x. Continues bytes.now x.0 x.1.now) }
{
    match bytes {
        [first, rest @ ..] if *first >= 128 => Some((u64::from(*first) - 128, rest)),
        _ => None,
    }
}

/// The groups in front that have more behind them, at most `most` of them.
#[inline]
fn take_groups(bytes: &[u8], most: u32) -> Groups<'_>
    requires { most ≤ 9 }
    ensures unsigned { leb_at (suc most) bytes.now ≡ unsigned_end result.value result.scale result.rest.now }
    ensures signed { sleb_at (suc most) bytes.now ≡ signed_end result.value result.scale result.rest.now }
    ensures small { result.value < result.scale }
    ensures scaled { result.scale ≤ 128 ^ most }
    ensures stepped { (result.scale ≡ 128 ^ most) ⊎ (result.scale * 128 ≤ 128 ^ most) }
{
    let mut value: u64 = 0;
    let mut scale: u64 = 1;
    let mut rest = bytes;
    'groups: for _taken in 0..most {
        let Some((bits, after)) = more_behind(rest) else {
            return Groups { value, scale, rest };
        };
        value += scale * bits;
        scale *= 128;
        rest = after;
    }
    Groups { value, scale, rest }
}

/// A number's last byte, which is below 128, and the bytes after it.
#[inline]
fn take_last(bytes: &[u8]) -> Option<(u8, &[u8])>
    ensures { MatchOption result (last_at bytes.now ≡ None) (λ x. (last_at bytes.now ≡ Some (x.0, x.1.now))
        × (x.0 < 128)) }
{
    match bytes {
        [first, rest @ ..] if *first < 128 => Some((*first, rest)),
        _ => None,
    }
}

/// A u32 of any length that is allowed.
fn read_long_u32(bytes: &[u8]) -> Result<(u32, &[u8]), WireError>
    ensures { Gives (λ r. (r.0, r.1.now)) result (at U32 bytes.now) }
{
    let groups = take_groups(bytes, 4);
    let Some((last, rest)) = take_last(groups.rest) else {
        return Err(WireError::Malformed);
    };
    let value = groups.value + groups.scale * u64::from(last);
    if value >= 1 << 32 {
        return Err(WireError::Malformed);
    }
    Ok((value as u32, rest))
}

/// A u32, the one-byte ones first.
#[inline]
fn read_any_u32(bytes: &[u8]) -> Result<(u32, &[u8]), WireError>
    ensures { Gives (λ r. (r.0, r.1.now)) result (at U32 bytes.now) }
{
    match take_last(bytes) {
        Some((last, rest)) => Ok((u32::from(last), rest)),
        None => read_long_u32(bytes),
    }
}

/// Reads a u32, and gives it with the bytes after it. Every spelling of at most five bytes is read, the longer ones too.
///
/// Refused as [`WireError::Malformed`] where no such spelling of a number below 2^32 stands in front.
#[inline]
pub fn read_u32(bytes: &[u8]) -> Result<(u32, &[u8]), WireError>
    ensures gives { Gives (λ r. (r.0, r.1.now)) result (at U32 bytes.now) }
    ensures found { Reads U32 (λ r. (r.0, r.1.now)) bytes.now result }
{
    read_any_u32(bytes)
}

/// The signed number whose groups add up to `value`, with the last byte `last`, which counts `scale`.
#[inline]
fn signed_value(value: u64, scale: u64, last: u8) -> i64
    requires small { value < scale }
    requires scaled { scale ≤ 2 ^ 56 }
    requires low { last < 128 }
    ensures { result ≡ pos value +ℤ pos scale *ℤ last_of last }
{
    if last < 64 {
        (value + scale * u64::from(last)) as i64
    } else {
        value as i64 - (scale * (128 - u64::from(last))) as i64
    }
}

/// An s32 of any length that is allowed.
fn read_any_s32(bytes: &[u8]) -> Result<(i32, &[u8]), WireError>
    ensures { Gives (λ r. (r.0, r.1.now)) result (at S32 bytes.now) }
{
    let front = take_groups(bytes, 4);
    let Some((last, rest)) = take_last(front.rest) else {
        return Err(WireError::Malformed);
    };
    let value = signed_value(front.value, front.scale, last);
    match i32::try_from(value) {
        Ok(value) => Ok((value, rest)),
        Err(_) => Err(WireError::Malformed),
    }
}

/// Reads an s32, and gives it with the bytes after it. Every spelling of at most five bytes is read, the longer ones too.
///
/// Refused as [`WireError::Malformed`] where no such spelling of a number from -2^31 to 2^31 - 1 stands in front.
#[inline]
pub fn read_s32(bytes: &[u8]) -> Result<(i32, &[u8]), WireError>
    ensures gives { Gives (λ r. (r.0, r.1.now)) result (at S32 bytes.now) }
    ensures found { Reads S32 (λ r. (r.0, r.1.now)) bytes.now result }
{
    read_any_s32(bytes)
}

/// A u64 of any length that is allowed. Nine groups hold 63 bits, so a tenth byte is 0 or 1.
fn read_long_u64(bytes: &[u8]) -> Result<(u64, &[u8]), WireError>
    ensures { Gives (λ r. (r.0, r.1.now)) result (at U64 bytes.now) }
{
    let nine = take_groups(bytes, 9);
    let Some((last, rest)) = take_last(nine.rest) else {
        return Err(WireError::Malformed);
    };
    if last > 1 && nine.scale >= 1 << 63 {
        return Err(WireError::Malformed);
    }
    Ok((nine.value + nine.scale * u64::from(last), rest))
}

/// A u64, the one-byte ones first.
#[inline]
fn read_any_u64(bytes: &[u8]) -> Result<(u64, &[u8]), WireError>
    ensures { Gives (λ r. (r.0, r.1.now)) result (at U64 bytes.now) }
{
    match take_last(bytes) {
        Some((last, rest)) => Ok((u64::from(last), rest)),
        None => read_long_u64(bytes),
    }
}

/// Reads a u64 (Binary Format > Values > Integers), and gives it with the bytes after it. Every spelling of at most ten bytes is read,
/// the longer ones too.
///
/// Refused as [`WireError::Malformed`] where no such spelling of a number below 2^64 stands in front.
#[inline]
pub fn read_u64(bytes: &[u8]) -> Result<(u64, &[u8]), WireError>
    ensures gives { Gives (λ r. (r.0, r.1.now)) result (at U64 bytes.now) }
    ensures found { Reads U64 (λ r. (r.0, r.1.now)) bytes.now result }
{
    read_any_u64(bytes)
}

/// The signed number whose nine groups add up to `value`, with the tenth byte `last`, where 64 bits hold it.
#[inline]
fn tenth_value(value: u64, last: u8) -> Option<i64>
    requires small { value < 2 ^ 63 }
    requires low { last < 128 }
    ensures { MatchOption result (fits (2 ^ 63) (pos value +ℤ pos (2 ^ 63) *ℤ last_of last) ≡ false)
        (λ z. (z ≡ pos value +ℤ pos (2 ^ 63) *ℤ last_of last) × Fits (2 ^ 63) z) }
{
    if last == 0 {
        Some(value as i64)
    } else if last == 127 {
        Some(i64::MIN + value as i64)
    } else {
        None
    }
}

/// An s64 of any length that is allowed. Nine groups hold 63 bits, so a tenth byte is 0x00 or 0x7F.
fn read_long_s64(bytes: &[u8]) -> Result<(i64, &[u8]), WireError>
    ensures { Gives (λ r. (r.0, r.1.now)) result (at S64 bytes.now) }
{
    let below = take_groups(bytes, 9);
    let Some((last, rest)) = take_last(below.rest) else {
        return Err(WireError::Malformed);
    };
    if below.scale < 1 << 63 {
        return Ok((signed_value(below.value, below.scale, last), rest));
    }
    match tenth_value(below.value, last) {
        Some(value) => Ok((value, rest)),
        None => Err(WireError::Malformed),
    }
}

/// An s64, the one-byte ones first.
#[inline]
fn read_any_s64(bytes: &[u8]) -> Result<(i64, &[u8]), WireError>
    ensures { Gives (λ r. (r.0, r.1.now)) result (at S64 bytes.now) }
{
    match take_last(bytes) {
        Some((last, rest)) => Ok((signed_value(0, 1, last), rest)),
        None => read_long_s64(bytes),
    }
}

/// Reads an s64 (Binary Format > Values > Integers), and gives it with the bytes after it. Every spelling of at most ten bytes is read,
/// the longer ones too.
///
/// Refused as [`WireError::Malformed`] where no such spelling of a number from -2^63 to 2^63 - 1 stands in front.
#[inline]
pub fn read_s64(bytes: &[u8]) -> Result<(i64, &[u8]), WireError>
    ensures gives { Gives (λ r. (r.0, r.1.now)) result (at S64 bytes.now) }
    ensures found { Reads S64 (λ r. (r.0, r.1.now)) bytes.now result }
{
    read_any_s64(bytes)
}

/// What stands behind the first byte of an index, where that byte says that more follow.
fn read_long_index(first: u8, bytes: &[u8]) -> Result<(u32, &[u8]), WireError>
    requires { 128 ≤ first }
    ensures { Gives (λ r. (r.0, r.1.now)) result (at (IndexFrom first) bytes.now) }
{
    let high = take_groups(bytes, 3);
    let Some((last, rest)) = take_last(high.rest) else {
        return Err(WireError::Malformed);
    };
    if last >= 64 {
        return Err(WireError::Malformed);
    }
    let number = u64::from(first) - 128 + 128 * (high.value + high.scale * u64::from(last));
    if number >= 1 << 32 {
        return Err(WireError::Malformed);
    }
    Ok((number as u32, rest))
}

/// What stands behind the first byte of an index.
#[inline]
fn read_any_index(first: u8, bytes: &[u8]) -> Result<(u32, &[u8]), WireError>
    ensures { Gives (λ r. (r.0, r.1.now)) result (at (IndexFrom first) bytes.now) }
{
    if first < 64 {
        Ok((u32::from(first), bytes))
    } else if first < 128 {
        Err(WireError::Malformed)
    } else {
        read_long_index(first, bytes)
    }
}

/// Reads what stands behind the byte `first` of an index, an s33 that is not negative (Binary Format > Types > Heap Types), and gives
/// the index with the bytes after it. Every spelling of at most five bytes, `first` among them, is read, the longer ones too.
///
/// Refused as [`WireError::Malformed`] where `first` and the bytes in front are no such spelling of a number from 0 to 2^32 - 1.
#[inline]
pub fn read_index_from(first: u8, bytes: &[u8]) -> Result<(u32, &[u8]), WireError>
    ensures gives { Gives (λ r. (r.0, r.1.now)) result (at (IndexFrom first) bytes.now) }
    ensures found { Reads (IndexFrom first) (λ r. (r.0, r.1.now)) bytes.now result }
{
    read_any_index(first, bytes)
}
