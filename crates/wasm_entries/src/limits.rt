//! Limits, and the types of memories, tables, globals and tags (Binary Format > Types), read and written.

ghost use Rattle.std.specs.Prelude.{◌≡◌, ◌↔◌, IsTrue, ℕ};
ghost use Rattle.wasm_forms.specs.Reading.{Gives};
ghost use Rattle.wasm_forms.specs.Grammar.{U32, at};
ghost use Rattle.wasm_forms.specs.Writing.{Adds, Keeps, TakesRoom};
ghost use Rattle.wasm_entries.specs.TypeForms.{has, optional, size_form, limits_of, memory_type, table_limits, table_type_from, table_type, global_type, tag_type};
ghost use Rattle.wasm_entries.specs.TypeSpelling.{limits_flags, limits_bytes, table_type_bytes, global_flags, global_type_bytes, FitsWide, LimitsFit};
ghost use Rattle.wasm_entries.specs.declared.record.RawLimits.{RawLimits};

use crate::record::{RawGlobalType, RawLimits, RawTableType};
use std::alloc::Global;
use wasm_forms::{
    Element, WireError, Written, read_byte, read_reference_from, read_u32, read_u64,
    read_value_type, write_reference_type, write_u32, write_u64,
};

/// Whether the flags have this bit.
#[inline]
fn has_bit(flags: u8, bit: u8) -> bool
    ensures { result ≡ has flags bit }
{
    flags & bit != 0
}

/// A size, which has 64 bits where addresses have.
#[tactic(auto, unfolding(crate::specs::TypeForms::size_form))]
fn read_size(wide: bool, bytes: &[u8]) -> Result<(u64, &[u8]), WireError>
    ensures { Gives (λ r. (r.0, r.1.now)) result (at (size_form wide) bytes.now) }
{
    if wide {
        return read_u64(bytes);
    }
    let (size, rest) = read_u32(bytes)?;
    Ok((u64::from(size), rest))
}

/// A size, where there is one.
#[tactic(auto, unfolding(crate::specs::TypeForms::optional))]
fn read_maximum(present: bool, wide: bool, bytes: &[u8]) -> Result<(Option<u64>, &[u8]), WireError>
    ensures { Gives (λ r. (r.0, r.1.now)) result (at (optional present (size_form wide)) bytes.now) }
{
    if !present {
        return Ok((None, bytes));
    }
    let (size, rest) = read_size(wide, bytes)?;
    Ok((Some(size), rest))
}

/// A page exponent, where there is one.
#[tactic(auto, unfolding(crate::specs::TypeForms::optional))]
fn read_page(present: bool, bytes: &[u8]) -> Result<(Option<u32>, &[u8]), WireError>
    ensures { Gives (λ r. (r.0, r.1.now)) result (at (optional present U32) bytes.now) }
{
    if !present {
        return Ok((None, bytes));
    }
    let (page, rest) = read_u32(bytes)?;
    Ok((Some(page), rest))
}

/// What stands behind the flags of limits.
#[tactic(auto, unfolding(crate::specs::TypeForms::limits_of))]
fn read_limits_of(flags: u8, bytes: &[u8]) -> Result<(RawLimits, &[u8]), WireError>
    ensures { Gives (λ r. (r.0, r.1.now)) result (at (limits_of flags) bytes.now) }
{
    let wide = has_bit(flags, 4);
    let (minimum, behind) = read_size(wide, bytes)?;
    let (maximum, after) = read_maximum(has_bit(flags, 1), wide, behind)?;
    let (page, rest) = read_page(has_bit(flags, 8), after)?;
    let limits = RawLimits {
        minimum,
        maximum,
        shared: has_bit(flags, 2),
        wide,
        page,
    };
    Ok((limits, rest))
}

/// Reads a memory type (Binary Format > Types > Memory Types), and gives it with the bytes after it.
///
/// Refused as [`WireError::Malformed`] where none stands in front.
#[tactic(auto, unfolding(crate::specs::TypeForms::memory_type))]
pub fn read_memory_type(bytes: &[u8]) -> Result<(RawLimits, &[u8]), WireError>
    ensures { Gives (λ r. (r.0, r.1.now)) result (at memory_type bytes.now) }
{
    let (flags, rest) = read_byte(bytes)?;
    if flags >= 16 {
        return Err(WireError::Malformed);
    }
    read_limits_of(flags, rest)
}

/// The limits of a table, which are neither shared nor have a page exponent.
#[tactic(auto, unfolding(crate::specs::TypeForms::table_limits))]
fn read_table_limits(bytes: &[u8]) -> Result<(RawLimits, &[u8]), WireError>
    ensures { Gives (λ r. (r.0, r.1.now)) result (at table_limits bytes.now) }
{
    let (flags, rest) = read_byte(bytes)?;
    if flags >= 8 || has_bit(flags, 2) {
        return Err(WireError::Malformed);
    }
    read_limits_of(flags, rest)
}

/// Reads what stands behind the byte `first` of a table type (Binary Format > Types > Table Types), and gives the type with the bytes after
/// it.
///
/// Refused as [`WireError::Malformed`] where `first` and the bytes in front are no table type.
#[tactic(auto, unfolding(crate::specs::TypeForms::table_type_from))]
pub fn read_table_type_from(first: u8, bytes: &[u8]) -> Result<(RawTableType, &[u8]), WireError>
    ensures { Gives (λ r. (r.0, r.1.now)) result (at (table_type_from first) bytes.now) }
{
    let (element, after) = read_reference_from(first, bytes)?;
    let (limits, rest) = read_table_limits(after)?;
    Ok((RawTableType { element, limits }, rest))
}

/// Reads a table type (Binary Format > Types > Table Types), and gives it with the bytes after it.
///
/// Refused as [`WireError::Malformed`] where none stands in front.
#[tactic(auto, unfolding(crate::specs::TypeForms::table_type))]
pub fn read_table_type(bytes: &[u8]) -> Result<(RawTableType, &[u8]), WireError>
    ensures { Gives (λ r. (r.0, r.1.now)) result (at table_type bytes.now) }
{
    let (first, rest) = read_byte(bytes)?;
    read_table_type_from(first, rest)
}

/// Reads a global type (Binary Format > Types > Global Types), and gives it with the bytes after it.
///
/// Refused as [`WireError::Malformed`] where none stands in front.
#[tactic(auto, unfolding(crate::specs::TypeForms::global_type))]
pub fn read_global_type(bytes: &[u8]) -> Result<(RawGlobalType, &[u8]), WireError>
    ensures { Gives (λ r. (r.0, r.1.now)) result (at global_type bytes.now) }
{
    let (value, after) = read_value_type(bytes)?;
    let (flags, rest) = read_byte(after)?;
    if flags >= 4 {
        return Err(WireError::Malformed);
    }
    let ty = RawGlobalType {
        value,
        mutable: has_bit(flags, 1),
        shared: has_bit(flags, 2),
    };
    Ok((ty, rest))
}

/// Reads a tag type (Binary Format > Types > Tag Types), the index of a type, and gives it with the bytes after it.
///
/// Refused as [`WireError::Malformed`] where none stands in front.
#[tactic(auto, unfolding(crate::specs::TypeForms::tag_type))]
pub fn read_tag_type(bytes: &[u8]) -> Result<(u32, &[u8]), WireError>
    ensures { Gives (λ r. (r.0, r.1.now)) result (at tag_type bytes.now) }
{
    let (attribute, rest) = read_byte(bytes)?;
    if attribute != 0 {
        return Err(WireError::Malformed);
    }
    read_u32(rest)
}

/// The flags of limits.
fn flags_of(limits: &RawLimits) -> u8
    ensures { result ≡ limits_flags limits.now }
{
    u8::from(limits.maximum.is_some())
        + if limits.shared { 2 } else { 0 }
        + if limits.wide { 4 } else { 0 }
        + if limits.page.is_some() { 8 } else { 0 }
}

/// Whether the size fits the width of addresses.
fn fits_width(wide: bool, size: u64) -> bool
    ensures { IsTrue result ↔ FitsWide wide size }
{
    wide || size < 1 << 32
}

/// Whether both sizes fit the width of addresses.
fn sizes_fit(limits: &RawLimits) -> bool
    ensures { IsTrue result ↔ LimitsFit limits.now }
{
    fits_width(limits.wide, limits.minimum)
        && match limits.maximum {
            Some(maximum) => fits_width(limits.wide, maximum),
            None => true,
        }
}

/// Writes limits (Binary Format > Types > Limits, Memory Types) behind the bytes of `to`. Refused, the bytes written before stay, and
/// what was appended behind them means nothing.
///
/// [`WireError::TooLarge`] where addresses have 32 bits, and a size is 2^32 or more.
pub fn write_limits(to: &mut Vec<u8>, limits: &RawLimits) -> Result<(), WireError>
    ensures adds { Adds result to.old.items to.new.items (limits_bytes limits.now) (LimitsFit limits.now) }
    ensures room { TakesRoom result to.old to.new (limits_bytes limits.now) }
    ensures keeps { Keeps to.old.items to.new.items }
{
    if !sizes_fit(limits) {
        return Err(WireError::TooLarge);
    }
    to.push(flags_of(limits))?;
    write_u64(to, limits.minimum)?;
    if let Some(maximum) = limits.maximum {
        write_u64(to, maximum)?;
    }
    if let Some(page) = limits.page {
        write_u32(to, page)?;
    }
    Ok(())
}

/// Writes a table type (Binary Format > Types > Table Types) behind the bytes of `to`. Refused, the bytes written before stay, and what
/// was appended behind them means nothing.
///
/// [`WireError::TooLarge`] where addresses have 32 bits, and a size is 2^32 or more.
pub fn write_table_type(to: &mut Vec<u8>, ty: &RawTableType) -> Result<(), WireError>
    ensures adds { Adds result to.old.items to.new.items (table_type_bytes ty.now) (LimitsFit ty.now.limits) }
    ensures room { TakesRoom result to.old to.new (table_type_bytes ty.now) }
    ensures keeps { Keeps to.old.items to.new.items }
{
    write_reference_type(to, &ty.element)?;
    write_limits(to, &ty.limits)
}

/// Writes a global type (Binary Format > Types > Global Types) behind the bytes of `to`. Refused, the bytes written before stay, and
/// what was appended behind them means nothing.
pub fn write_global_type(to: &mut Vec<u8>, ty: &RawGlobalType) -> Result<(), WireError>
    ensures adds { Adds result to.old.items to.new.items (global_type_bytes ty.now) (Unit {0}) }
    ensures room { TakesRoom result to.old to.new (global_type_bytes ty.now) }
    ensures keeps { Keeps to.old.items to.new.items }
{
    ty.value.write(to)?;
    to.push(u8::from(ty.mutable) + if ty.shared { 2 } else { 0 })?;
    Ok(())
}

impl<'a> Element<'a> for RawLimits {
    ghost Seen = { RawLimits };

    ghost view = { λ l. l };

    ghost form = { memory_type };

    fn read(_alloc: Global, bytes: &'a [u8]) -> Result<(RawLimits, &'a [u8]), WireError> {
        read_memory_type(bytes)
    }
}

impl Written for RawLimits {
    ghost spelled = { limits_bytes };

    ghost Fits = { LimitsFit };

    fn write(&self, to: &mut Vec<u8>) -> Result<(), WireError> {
        write_limits(to, self)
    }
}
