//! The rules on a whole module (Validation > Modules).

ghost use Rattle.wasm_frames.specs.Record.{sections};
ghost use Rattle.wasm_wire.specs.Rules.{Rules, Checks};

use std::alloc::Global;
use wasm_forms::WireError;
use wasm_frames::Raw;

mod broken;
mod constant;
mod counts;
mod declared;
mod each;
mod exports;
mod functions;
mod indices;
mod limits;
mod locals;
mod offsets;
mod order;
mod types;

pub use broken::{BrokenRule, broken_rule, rules_are_these};
pub use counts::Counts;

/// Whether the rules on the whole hold of these records (Validation > Modules).
///
/// # Errors
///
/// `Malformed` exactly where one of the rules doesn't hold, and `Memory`. Never `TooLarge`.
pub fn check(alloc: Global, raw: &Raw<'_>) -> Result<(), WireError>
    ensures { Checks result (Rules (sections raw.now)) }
{
    match broken_rule(alloc, raw)? {
        None => Ok(()),
        Some(_) => Err(WireError::Malformed),
    }
}
