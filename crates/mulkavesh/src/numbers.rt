//! Numbers as people and programs read them.

ghost use Rattle.std.specs.Prelude.{◌≡◌, ◌++◌, OnOk, decimal};
ghost use Rattle.mulkavesh.specs.Notes.{comma_before, grouped, spaced};

use std::alloc::{AllocError, Global};

/// Puts the number behind the text, in decimal.
pub(crate) fn add_decimal(alloc: Global, to: &mut Vec<u8>, number: u64) -> Result<(), AllocError>
    ensures { OnOk result (to.new.items ≡ to.old.items ++ decimal number) }
{
    let digits = format!(in alloc; "{number}")?;
    to.extend_from_slice(digits.as_bytes())
}

// The comma behind a digit, where so many digits behind it are threes.
fn comma_before(behind: usize) -> &'static str
    ensures { result.now ≡ comma_before behind }
{
    if behind > 0 && behind % 3 == 0 {
        ","
    } else {
        ""
    }
}

// Puts the digits behind the text, with a comma between thousands.
fn add_spaced(to: &mut Vec<u8>, digits: &[u8]) -> Result<(), AllocError>
    ensures { OnOk result (to.new.items ≡ to.old.items ++ spaced digits.now) }
{
    let mut left = digits;
    'digits: while let [digit, rest @ ..] = left {
        to.push(*digit)?;
        to.extend_from_slice(comma_before(rest.len()).as_bytes())?;
        left = rest;
    }
    Ok(())
}

/// Puts the number behind the text, in decimal, with a comma between thousands.
pub(crate) fn add_grouped(alloc: Global, to: &mut Vec<u8>, number: u64) -> Result<(), AllocError>
    ensures { OnOk result (to.new.items ≡ to.old.items ++ grouped number) }
{
    let digits = format!(in alloc; "{number}")?;
    add_spaced(to, digits.as_bytes())
}
