//! Numbers by the places where they stand in bytes (Binary Format > Values > Integers): a place in, one word out.

ghost use Rattle.std.specs.Prelude.{◌≡◌, ◌∷◌, ◌+◌, ◌-◌, ◌<◌, ◌≤◌, ◌||◌, [], length, drop, nat_eq, nat_le, MatchOption};
ghost use Rattle.wasm_forms.specs.Grammar.{S32, S64, U64};
ghost use Rattle.wasm_text.specs.Places.{between, IfShortest, IsPast, IsBehind, IsNumberAt};

use wasm_forms::{read_s32, read_s64, read_u64};

/// Where nothing stands.
pub const NO_PLACE: usize = usize::MAX;

// The byte at a place.
#[inline]
pub(crate) fn byte_from(bytes: &[u8], at: usize) -> Option<u8>
    ensures { MatchOption result (length bytes.now ≤ at)
        (λ byte. (drop at bytes.now ≡ byte ∷ drop (at + 1) bytes.now) × (at < length bytes.now)
        × (byte < 256)) }
{
    bytes.get(at).copied()
}

/// The place behind the unsigned number of at most `most` bytes that begins at `at`; [`NO_PLACE`] where none does.
#[inline]
pub fn past_number(bytes: &[u8], at: usize, most: usize) -> usize
    ensures { IsPast bytes.now at most result }
{
    let mut place = at;
    'groups: for _group in 0..most {
        let Some(byte) = byte_from(bytes, place) else {
            return NO_PLACE;
        };
        place += 1;
        if byte < 128 {
            return place;
        }
    }
    NO_PLACE
}

/// The unsigned number of at most five bytes that begins at `at`; what is answered where none does isn't said.
#[inline]
pub fn number_at(bytes: &[u8], at: usize) -> u64
    ensures { IsNumberAt bytes.now at result }
{
    match byte_from(bytes, at) {
        Some(byte) if byte < 128 => u64::from(byte),
        _ => long_number_at(bytes, at),
    }
}

// The unsigned number of at most five bytes that begins at `at`, byte by byte.
#[inline(never)]
fn long_number_at(bytes: &[u8], at: usize) -> u64
    ensures { IsNumberAt bytes.now at result }
{
    let mut place = at;
    let mut value: u64 = 0;
    let mut scale: u64 = 1;
    'groups: for _group in 0..5u32 {
        let Some(byte) = byte_from(bytes, place) else {
            return u64::MAX;
        };
        if byte < 128 {
            return value + scale * u64::from(byte);
        }
        place += 1;
        value += scale * (u64::from(byte) - 128);
        scale *= 128;
    }
    u64::MAX
}

// Whether there is at most one byte from one place up to another.
#[inline]
fn is_lone(at: usize, behind: usize) -> bool
    requires { at ≤ behind }
    ensures { result ≡ nat_le (behind - at) 1 }
{
    behind - at <= 1
}

// Whether a number may do without its last byte.
#[inline]
fn may_pad(last: u8) -> bool
    ensures { result ≡ (nat_eq last 0 || nat_eq last 127) }
{
    last == 0 || last == 127
}

// Whether the number from one place up to another stands in its one spelling for certain: it is one byte, or its last byte doesn't pad.
#[inline]
pub(crate) fn is_shortest(bytes: &[u8], at: usize, behind: usize) -> bool
    requires { at ≤ behind }
    ensures { IfShortest (between at behind bytes.now) result }
{
    if is_lone(at, behind) {
        return true;
    }
    match byte_from(bytes, behind - 1) {
        Some(last) => !may_pad(last),
        None => false,
    }
}

/// What stands from a place on; nothing where the bytes end before.
#[inline]
pub fn rest_from(bytes: &[u8], at: usize) -> &[u8]
    ensures { result.now ≡ drop at bytes.now }
{
    let (_front, rest) = bytes.split_at(at.min(bytes.len()));
    rest
}

// The place behind an s32 that isn't one byte: one of at most four bytes is always small enough.
#[inline(never)]
fn past_long_s32(bytes: &[u8], at: usize) -> usize
    ensures { IsBehind S32 bytes.now at result }
{
    let behind = past_number(bytes, at, 4);
    if behind != NO_PLACE {
        return behind;
    }
    match read_s32(rest_from(bytes, at)) {
        Ok((_value, after)) => bytes.len() - after.len(),
        Err(_) => NO_PLACE,
    }
}

/// The place behind the s32 that begins at `at` (Binary Format > Values > Integers); [`NO_PLACE`] where none does.
#[inline]
pub fn past_s32(bytes: &[u8], at: usize) -> usize
    ensures { IsBehind S32 bytes.now at result }
{
    match byte_from(bytes, at) {
        Some(byte) if byte < 128 => at + 1,
        _ => past_long_s32(bytes, at),
    }
}

// The place behind an s64 that isn't one byte: one of at most nine bytes is always small enough.
#[inline(never)]
fn past_long_s64(bytes: &[u8], at: usize) -> usize
    ensures { IsBehind S64 bytes.now at result }
{
    let behind = past_number(bytes, at, 9);
    if behind != NO_PLACE {
        return behind;
    }
    match read_s64(rest_from(bytes, at)) {
        Ok((_value, after)) => bytes.len() - after.len(),
        Err(_) => NO_PLACE,
    }
}

/// The place behind the s64 that begins at `at` (Binary Format > Values > Integers); [`NO_PLACE`] where none does.
#[inline]
pub fn past_s64(bytes: &[u8], at: usize) -> usize
    ensures { IsBehind S64 bytes.now at result }
{
    match byte_from(bytes, at) {
        Some(byte) if byte < 128 => at + 1,
        _ => past_long_s64(bytes, at),
    }
}

// The place behind a u64 that isn't one byte: one of at most nine bytes is always small enough.
#[inline(never)]
fn past_long_u64(bytes: &[u8], at: usize) -> usize
    ensures { IsBehind U64 bytes.now at result }
{
    let behind = past_number(bytes, at, 9);
    if behind != NO_PLACE {
        return behind;
    }
    match read_u64(rest_from(bytes, at)) {
        Ok((_value, after)) => bytes.len() - after.len(),
        Err(_) => NO_PLACE,
    }
}

/// The place behind the u64 that begins at `at` (Binary Format > Values > Integers); [`NO_PLACE`] where none does.
#[inline]
pub fn past_u64(bytes: &[u8], at: usize) -> usize
    ensures { IsBehind U64 bytes.now at result }
{
    match byte_from(bytes, at) {
        Some(byte) if byte < 128 => at + 1,
        _ => past_long_u64(bytes, at),
    }
}
