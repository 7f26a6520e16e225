//! The lengths of blocks, names and vectors (Binary Format > Conventions > Lists, Values > Names), in bytes.

ghost use Rattle.std.specs.Prelude.{◌≡◌, ℕ, ◌+◌, List, length};
ghost use Rattle.wasm_forms.specs.Writing.{FitsLength, EachFits, FitsVector};
ghost use Rattle.wasm_forms.specs.Spelling.{number_bytes, block_bytes, name_bytes, row_bytes, vector_bytes};
ghost use Rattle.wasm_writer.specs.Measures.{Measures, Sums};

use crate::number::number_len;
use crate::sum::plus;
use wasm_forms::{WireError, Written};

/// What is measured before it is written.
pub trait Measured: Written {
    /// How many bytes are written for it. Takes no memory.
    ///
    /// # Errors
    ///
    /// `TooLarge` exactly where a length in it is 2^32 or more, or it has 2^32 bytes or more.
    fn measured(&self) -> Result<u32, WireError>
        ensures { Measures result (Self.spelled self.now) (Self.Fits self.now) };
}

impl Measured for u32 {
    fn measured(&self) -> Result<u32, WireError> {
        Ok(number_len(u64::from(*self)))
    }
}

/// How many bytes a block or a name has whose content has `len` bytes (Binary Format > Conventions > Lists, Values > Names).
///
/// # Errors
///
/// `TooLarge` exactly where all in all it has 2^32 bytes or more.
pub fn counted_len(len: usize) -> Result<u32, WireError>
    ensures summed { Sums result (length (number_bytes len) + len) }
    ensures counted { (bytes : List ℕ) → length bytes ≡ len → Measures result (block_bytes bytes)
        (FitsLength bytes) }
{
    let Ok(count) = u32::try_from(len) else {
        return Err(WireError::TooLarge);
    };
    plus(number_len(u64::from(count)), count)
}

/// How many bytes a block has: the count of its bytes, and these (Binary Format > Conventions > Lists).
///
/// # Errors
///
/// `TooLarge` exactly where all in all it has 2^32 bytes or more.
pub fn measured_block(block: &[u8]) -> Result<u32, WireError>
    ensures { Measures result (block_bytes block.now) (FitsLength block.now) }
{
    counted_len(block.len())
}

/// How many bytes a name has: the count of its bytes, and these (Binary Format > Values > Names).
///
/// # Errors
///
/// `TooLarge` exactly where all in all it has 2^32 bytes or more.
pub fn measured_name(name: &str) -> Result<u32, WireError>
    ensures { Measures result (name_bytes name.now) (FitsLength name.now) }
{
    counted_len(name.len())
}

/// How many bytes the items have, one after another.
fn measured_row<E: Measured>(items: &[E]) -> Result<u32, WireError>
    ensures { Measures result (row_bytes E.spelled items.now) (EachFits E.Fits items.now) }
{
    let mut total: u32 = 0;
    'items: for item in items {
        total = plus(total, item.measured()?)?;
    }
    Ok(total)
}

/// How many bytes a vector has: the count of its items, and each item (Binary Format > Conventions > Lists).
///
/// # Errors
///
/// `TooLarge` exactly where there are 2^32 items or more, one of them is too large, or all in all it has 2^32 bytes or more.
pub fn measured_vector<E: Measured>(items: &[E]) -> Result<u32, WireError>
    ensures { Measures result (vector_bytes E.spelled items.now) (FitsVector E.Fits items.now) }
{
    let Ok(count) = u32::try_from(items.len()) else {
        return Err(WireError::TooLarge);
    };
    plus(number_len(u64::from(count)), measured_row(items)?)
}
