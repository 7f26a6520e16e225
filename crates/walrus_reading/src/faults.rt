//! What is wrong with bytes that are no module which keeps the rules ("Binary Format > Modules", "Validation > Modules").
ghost use Rattle.std.specs.Prelude.{IfOk};
ghost use Rattle.walrus_reading.specs.Faults.{FindsFault};

use crate::input::Input;
use crate::unread::unread_body;
use std::alloc::{AllocError, Global};
use std::result;
use walrus_bodies::Features;
use wasm_frames::{Framed, framed_until};
use wasm_wire::{BrokenRule, broken_rule};

/// What is wrong with bytes that are no module which keeps the rules.
#[derive(Clone, Copy, Debug, PartialEq, Eq)]
pub enum Fault {
    /// The magic number and the version don't stand in front.
    Header,
    /// Whole sections stand up to this place, in bytes from the start of the input; what stands there is none.
    Section(usize),
    /// The sections break this rule on the whole.
    Rule(BrokenRule),
    /// The body of the function of this index isn't read; those of all functions before it are.
    Body(usize),
}

/// What is wrong with the bytes, where bodies may use these proposals; none exactly where they are a module that keeps the rules. Of several
/// faults the first is told that reading comes upon.
pub fn first_fault(
    alloc: Global,
    bytes: &[u8],
    features: &Features,
) -> result::Result<Option<Fault>, AllocError>
    ensures { IfOk result (λ found. FindsFault features.now bytes.now found) }
{
    let mut raw = match framed_until(alloc, bytes)? {
        Framed::Whole(raw) => raw,
        Framed::NoHeader => return Ok(Some(Fault::Header)),
        Framed::Until(place) => return Ok(Some(Fault::Section(place))),
    };
    if let Some(rule) = broken_rule(alloc, &raw)? {
        return Ok(Some(Fault::Rule(rule)));
    }
    let input = Input { bytes, whole: None };
    match unread_body(alloc, input, &mut raw, features)? {
        Some(index) => Ok(Some(Fault::Body(index))),
        None => Ok(None),
    }
}
