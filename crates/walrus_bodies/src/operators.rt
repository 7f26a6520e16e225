//! The operators of a body, one by one.
#![tactic(auto, unfolding(crate::specs::PlainCode::limits_in, crate::specs::Function::name_of, crate::specs::Function::as_text, crate::specs::Function::body_of, crate::specs::Function::locations_of, crate::specs::Function::args_of, crate::specs::Function::handlers_in, crate::specs::Function::listed_in, crate::specs::Function::located_in))]

ghost use Rattle.std.specs.Prelude.{◌≡◌, ◌≢◌, ◌+◌, Some, None, IfOk, length, map, true};
ghost use Rattle.wasm_forms.specs.Grammar.{at};
ghost use Rattle.wasm_text.specs.Operators as wire;
ghost use Rattle.wasm_text.specs.Forms.{operator};
ghost use Rattle.walrus_code.specs.Code.{ops_of};
ghost use Rattle.walrus_bodies.specs.Results.{locations};
ghost use Rattle.walrus_bodies.specs.Placed.{placed_ops};
ghost use Rattle.walrus_bodies.specs.Text.{at_place, locations_in, ops_in};
ghost use Rattle.walrus_bodies.specs.Texts.{are_operators, places_at, texts_at};

use crate::place::place_operator;
use crate::text::Text;
use std::alloc::{AllocError, Global};
use walrus_code::{InstrLocId, Operator};
use wasm_operators::{RawOperator, memory_of, read_operator};

// The operator that stands in front of the bytes, and the bytes behind it.
fn read_next(alloc: Global, bytes: &[u8]) -> Result<(RawOperator, &[u8]), AllocError>
    requires { at operator bytes.now ≢ None }
    ensures { IfOk result (λ r. at operator bytes.now ≡ Some (wire.op_of r.0, r.1.now)) }
{
    match read_operator(alloc, bytes) {
        Ok(read) => Ok(read),
        Err(error) => Err(memory_of(error)),
    }
}

// So many operators, one behind another, with their locations: the first begins at `start` of the input. The locals that they name lie from a
// place on.
fn list_operators(
    alloc: Global,
    bytes: &[u8],
    count: usize,
    start: usize,
    first_local: u32,
) -> Result<Vec<Operator>, AllocError>
    requires { are_operators count bytes.now ≡ true }
    ensures body { IfOk result (λ list. ops_of list.items
        ≡ placed_ops first_local (texts_at count bytes.now)) }
    ensures locations { IfOk result (λ list. locations list.items
        ≡ map at_place (places_at (start + length bytes.now) count bytes.now)) }
{
    let mut list = Vec::with_capacity(alloc, count)?;
    let mut rest = bytes;
    'operators: for _turn in 0..count {
        let offset = bytes.len().saturating_sub(rest.len());
        let loc = InstrLocId::of_place(start.saturating_add(offset));
        let (raw, after) = read_next(alloc, rest)?;
        let operator = place_operator(alloc, &raw, loc, first_local)?;
        list.push(operator)?;
        rest = after;
    }
    Ok(list)
}

impl Text {
    /// Its operators with their locations. The last one is the `0B` that closes the function.
    ///
    /// # Errors
    ///
    /// `AllocError` where no memory is left.
    pub fn operators(&self, alloc: Global) -> Result<Vec<Operator>, AllocError>
        ensures body { IfOk result (λ list. ops_of list.items ≡ ops_in self.now) }
        ensures locations { IfOk result (λ list. locations list.items ≡ locations_in self.now) }
    {
        let entry = self.entry();
        list_operators(
            alloc,
            self.bytes(),
            entry.count as usize,
            self.start(),
            self.first_local,
        )
    }
}
