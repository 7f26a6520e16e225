//! The bits of floats (Binary Format > Values > Floating-Point).

ghost use Rattle.wasm_forms.specs.Reading.{Gives};
ghost use Rattle.wasm_forms.specs.Grammar.{Reads, F32, F64, at};

use crate::error::WireError;

/// The bits of an f32, by the list function alone.
#[inline]
fn take_f32(bytes: &[u8]) -> Result<(u32, &[u8]), WireError>
    ensures { Gives (λ r. (r.0, r.1.now)) result (at F32 bytes.now) }
{
    match bytes {
        [a, b, c, d, rest @ ..] => Ok((u32::from_le_bytes([*a, *b, *c, *d]), rest)),
        _ => Err(WireError::Malformed),
    }
}

/// Reads an f32 (Binary Format > Values > Floating-Point), and gives its bits with the bytes after it. Each pattern of bits is read,
/// every NaN too.
///
/// Refused as [`WireError::Malformed`] where fewer than four bytes are left.
#[inline]
pub fn read_f32(bytes: &[u8]) -> Result<(u32, &[u8]), WireError>
    ensures gives { Gives (λ r. (r.0, r.1.now)) result (at F32 bytes.now) }
    ensures found { Reads F32 (λ r. (r.0, r.1.now)) bytes.now result }
{
    take_f32(bytes)
}

/// The bits of an f64, by the list function alone.
#[inline]
fn take_f64(bytes: &[u8]) -> Result<(u64, &[u8]), WireError>
    ensures { Gives (λ r. (r.0, r.1.now)) result (at F64 bytes.now) }
{
    match bytes {
        [a, b, c, d, e, f, g, h, rest @ ..] => {
            Ok((u64::from_le_bytes([*a, *b, *c, *d, *e, *f, *g, *h]), rest))
        }
        _ => Err(WireError::Malformed),
    }
}

/// Reads an f64 (Binary Format > Values > Floating-Point), and gives its bits with the bytes after it. Each pattern of bits is read,
/// every NaN too.
///
/// Refused as [`WireError::Malformed`] where fewer than eight bytes are left.
#[inline]
pub fn read_f64(bytes: &[u8]) -> Result<(u64, &[u8]), WireError>
    ensures gives { Gives (λ r. (r.0, r.1.now)) result (at F64 bytes.now) }
    ensures found { Reads F64 (λ r. (r.0, r.1.now)) bytes.now result }
{
    take_f64(bytes)
}
