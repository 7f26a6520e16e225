//! Sums of lengths.

ghost use Rattle.std.specs.Prelude.{◌+◌};
ghost use Rattle.wasm_writer.specs.Measures.{Sums};

use wasm_forms::WireError;

/// The sum of two lengths, in bytes.
///
/// # Errors
///
/// `TooLarge` exactly where the sum is 2^32 or more.
#[inline]
pub fn plus(front: u32, back: u32) -> Result<u32, WireError>
    ensures { Sums result (front + back) }
{
    match front.checked_add(back) {
        Some(sum) => Ok(sum),
        None => Err(WireError::TooLarge),
    }
}
