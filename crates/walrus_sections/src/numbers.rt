//! Numbers and texts as bytes, for callers of other languages.

ghost use Rattle.std.specs.Prelude.{◌≡◌, ◌++◌, ◌<◌, ◌^◌, ◌≤◌, IfErr, IfOk, OnOk, length};
ghost use Rattle.walrus_sections.specs.Numbers.{RefusesIf, no_name, number_bytes};

use std::alloc::AllocError;
use std::result;
use walrus_items::{Error, Result};

/// What stands for the length of a name where there is none.
pub const NO_NAME: u32 = u32::MAX;

/// Puts a number behind the bytes, in four bytes, the lowest first.
pub fn add_number(to: &mut Vec<u8>, number: u32) -> result::Result<(), AllocError>
    ensures { OnOk result (to.new.items ≡ to.old.items ++ number_bytes number) }
{
    let four = number.to_le_bytes();
    to.extend_from_slice(&four)
}

/// The number, where it has at most 32 bits.
///
/// # Errors
///
/// `TooLarge` only where it passes 32 bits.
pub fn narrow(number: usize) -> Result<u32>
    ensures value { IfOk result (λ n. n ≡ number) }
    ensures fits { OnOk result (number < 2 ^ 32) }
    ensures refused { IfErr result (RefusesIf (2 ^ 32 ≤ number)) }
{
    match u32::try_from(number) {
        Ok(narrow) => Ok(narrow),
        Err(_) => Err(Error::TooLarge),
    }
}

/// Puts the length of a name, in four bytes, and the name behind the bytes.
///
/// # Errors
///
/// `TooLarge` only where the name has 2^32 - 1 bytes or more, since [`NO_NAME`] stands for none, and `Memory`.
pub fn add_text(to: &mut Vec<u8>, text: &str) -> Result<()>
    ensures value { OnOk result (to.new.items ≡ to.old.items
        ++ (number_bytes (length text.now) ++ text.now)) }
    ensures fits { OnOk result (length text.now < no_name) }
    ensures refused { IfErr result (RefusesIf (no_name ≤ length text.now)) }
{
    let size = narrow(text.len())?;
    if size == NO_NAME {
        return Err(Error::TooLarge);
    }
    add_number(to, size)?;
    Ok(to.extend_from_slice(text.as_bytes())?)
}
