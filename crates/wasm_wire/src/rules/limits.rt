//! The limits of tables and memories (Validation > Types > Limits, Memory Types).

ghost use Rattle.std.specs.Prelude.{◌≡◌};
ghost use Rattle.wasm_entries.specs.declared.record.RawLimits.{RawLimits};
ghost use Rattle.wasm_entries.specs.declared.record.RawTableType.{RawTableType};
ghost use Rattle.wasm_wire.specs.Broken.{LimitsHold};
ghost use Rattle.wasm_wire.specs.Gathering.{context};
ghost use Rattle.wasm_wire.specs.Rules.{IsAtMost, MaximumIsAtMost, HasMaximum, IsExponent, MemoryHolds, TableLimitsHold, Checks, most_pages};

use super::declared::Declared;
use super::each::{Rule, check_all};
use wasm_entries::{RawLimits, RawTableType};
use wasm_forms::WireError;

/// Whether a minimum is at most its maximum, where there is one.
fn check_order_of(minimum: u64, maximum: Option<u64>) -> Result<(), WireError>
    ensures { Checks result (IsAtMost minimum maximum) }
{
    match maximum {
        Some(most) => {
            if minimum > most {
                return Err(WireError::Malformed);
            }
            Ok(())
        }
        None => Ok(()),
    }
}

/// Whether a shared memory has a maximum.
fn check_shared(shared: bool, maximum: Option<u64>) -> Result<(), WireError>
    ensures { Checks result (HasMaximum shared maximum) }
{
    if shared && maximum.is_none() {
        return Err(WireError::Malformed);
    }
    Ok(())
}

/// Whether the exponent of a page size is one of the two that are allowed.
fn check_exponent(page: Option<u32>) -> Result<(), WireError>
    ensures { Checks result (IsExponent page) }
{
    match page {
        None => Ok(()),
        Some(exponent) => {
            if exponent == 0 || exponent == 16 {
                Ok(())
            } else {
                Err(WireError::Malformed)
            }
        }
    }
}

/// The most pages of a memory, where its page size is one that is allowed.
fn most_pages(limits: &RawLimits) -> u128
    requires { IsExponent limits.now.page }
    ensures { result ≡ most_pages limits.now }
{
    match (limits.wide, limits.page) {
        (false, Some(0)) => 0x1_0000_0000,
        (false, _) => 0x1_0000,
        (true, Some(0)) => 0x1_0000_0000_0000_0000,
        (true, _) => 0x1_0000_0000_0000,
    }
}

/// Whether a maximum is at most this, where there is one.
fn check_maximum(maximum: Option<u64>, most: u128) -> Result<(), WireError>
    ensures { Checks result (MaximumIsAtMost maximum most) }
{
    match maximum {
        Some(pages) => {
            if u128::from(pages) > most {
                return Err(WireError::Malformed);
            }
            Ok(())
        }
        None => Ok(()),
    }
}

/// Whether the limits of a memory are allowed.
fn check_memory(limits: &RawLimits) -> Result<(), WireError>
    ensures { Checks result (MemoryHolds limits.now) }
{
    check_order_of(limits.minimum, limits.maximum)?;
    check_shared(limits.shared, limits.maximum)?;
    check_exponent(limits.page)?;
    let most = most_pages(limits);
    check_maximum(Some(limits.minimum), most)?;
    check_maximum(limits.maximum, most)
}

/// Limits that are allowed.
#[derive(Clone, Copy)]
struct Limits;

impl Rule<RawLimits> for Limits {
    ghost Seen = { RawLimits };

    ghost view = { λ l. l };

    ghost Holds = { λ r l. MemoryHolds l };

    fn check(&self, item: &RawLimits) -> Result<(), WireError> {
        check_memory(item)
    }
}

impl Rule<RawTableType> for Limits {
    ghost Seen = { RawTableType };

    ghost view = { λ t. t };

    ghost Holds = { λ r t. TableLimitsHold t };

    fn check(&self, item: &RawTableType) -> Result<(), WireError> {
        check_order_of(item.limits.minimum, item.limits.maximum)
    }
}

/// Whether the limits of all tables and memories are allowed.
pub fn check_limits(declared: &Declared<'_>) -> Result<(), WireError>
    ensures { Checks result (LimitsHold (context declared.now)) }
{
    check_all(&Limits, &declared.tables)?;
    check_all(&Limits, &declared.memories)
}
