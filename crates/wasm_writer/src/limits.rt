//! The lengths of limits, table types and global types (Binary Format > Types), in bytes.

ghost use Rattle.std.specs.Prelude.{◌≡◌, ◌≤◌, ◌↔◌, IsTrue, length};
ghost use Rattle.wasm_entries.specs.TypeSpelling.{number_if, limits_bytes, table_type_bytes, global_type_bytes, FitsWide, LimitsFit};
ghost use Rattle.wasm_writer.specs.Measures.{Measures};

use crate::number::number_len;
use crate::sum::plus;
use crate::type_lens::{reference_len, value_len};
use crate::vector::Measured;
use wasm_entries::{RawGlobalType, RawLimits, RawTableType};
use wasm_forms::WireError;

/// Whether the size fits the width of addresses.
fn fits_width(wide: bool, size: u64) -> bool
    ensures { IsTrue result ↔ FitsWide wide size }
{
    wide || size < 1 << 32
}

/// Whether both sizes fit the width of addresses.
fn sizes_fit(limits: &RawLimits) -> bool
    ensures { IsTrue result ↔ LimitsFit limits.now }
{
    fits_width(limits.wide, limits.minimum)
        && match limits.maximum {
            Some(maximum) => fits_width(limits.wide, maximum),
            None => true,
        }
}

/// How many bytes a maximum has, where there is one.
fn maximum_len(maximum: Option<u64>) -> u32
    ensures written { result ≡ length (number_if maximum) }
    ensures short { result ≤ 10 }
{
    match maximum {
        Some(maximum) => number_len(maximum),
        None => 0,
    }
}

/// How many bytes a page exponent has, where there is one.
fn page_len(page: Option<u32>) -> u32
    ensures written { result ≡ length (number_if page) }
    ensures short { result ≤ 10 }
{
    match page {
        Some(page) => number_len(u64::from(page)),
        None => 0,
    }
}

/// How many bytes limits have (Binary Format > Types > Limits, Memory Types).
///
/// # Errors
///
/// `TooLarge` exactly where addresses have 32 bits, and a size is 2^32 or more.
pub fn measured_limits(limits: &RawLimits) -> Result<u32, WireError>
    ensures { Measures result (limits_bytes limits.now) (LimitsFit limits.now) }
{
    if !sizes_fit(limits) {
        return Err(WireError::TooLarge);
    }
    Ok(1 + number_len(limits.minimum) + maximum_len(limits.maximum) + page_len(limits.page))
}

impl Measured for RawLimits {
    fn measured(&self) -> Result<u32, WireError> {
        measured_limits(self)
    }
}

/// How many bytes a table type has (Binary Format > Types > Table Types).
///
/// # Errors
///
/// `TooLarge` exactly where addresses have 32 bits, and a size is 2^32 or more.
pub fn measured_table_type(ty: &RawTableType) -> Result<u32, WireError>
    ensures { Measures result (table_type_bytes ty.now) (LimitsFit ty.now.limits) }
{
    plus(reference_len(&ty.element), measured_limits(&ty.limits)?)
}

/// How many bytes a global type has (Binary Format > Types > Global Types).
pub fn global_type_len(ty: &RawGlobalType) -> u32
    ensures written { result ≡ length (global_type_bytes ty.now) }
    ensures short { result ≤ 12 }
{
    value_len(&ty.value) + 1
}
