//! Scanning a whole body (Binary Format > Instructions > Expressions).
#![tactic(auto, unfolding(crate::specs::PlainCode::limits_in, crate::specs::Function::name_of, crate::specs::Function::as_text, crate::specs::Function::body_of, crate::specs::Function::locations_of, crate::specs::Function::args_of, crate::specs::Function::handlers_in, crate::specs::Function::listed_in, crate::specs::Function::located_in))]

ghost use Rattle.std.specs.Prelude.{◌≡◌, ◌≤◌, ◌<◌, ℕ, true, IfOk, IfSome, IsTrue, slice_index_or, false};
ghost use Rattle.wasm_text.specs.Bodies.{IsBody};
ghost use Rattle.walrus_bodies.specs.PlainBody.{IsScannedBody};

use crate::plain_code::NO_LOCAL;
use std::alloc::{AllocError, Global};
use wasm_text::{Limits, Unmarked};

/// Room for scanning bodies, one after another.
#[derive(Drop)]
pub struct ScanRoom {
    pub(crate) marks: Vec<u32>,
    opened: Vec<bool>,
    pub(crate) unmarked: Unmarked,
    // For how many bodies more marks of locals aren't left out, since that was in vain before.
    waits: u32,
}

// For how many bodies.
const MOST_WAITS: u32 = 16;

impl ScanRoom {
    /// Room with nothing in it.
    ///
    /// # Errors
    ///
    /// `AllocError` where no memory is left.
    pub fn new(alloc: Global) -> Result<ScanRoom, AllocError> {
        Ok(ScanRoom {
            marks: Vec::new(alloc),
            opened: Vec::new(alloc),
            unmarked: Unmarked {
                first: NO_LOCAL,
                named: Vec::new(alloc),
                accessed: false,
            },
            waits: 0,
        })
    }

    // The first local whose marks are tried to be left out, where they may be from one on.
    fn first_tried(&mut self, ranked: Option<u32>) -> u32 {
        if self.waits > 0 {
            self.waits -= 1;
            return NO_LOCAL;
        }
        ranked.unwrap_or(NO_LOCAL)
    }

    // Whether a local is flagged.
    #[inline]
    fn is_flagged(&self, index: u32) -> bool
        ensures { result ≡ slice_index_or self.now.unmarked.named.items index false }
    {
        let place = index as usize;
        place < self.unmarked.named.len() && self.unmarked.named[place]
    }

    // Whether each local of so many is named whose marks were left out.
    fn are_named(&self, locals: u32) -> bool
        ensures { IsTrue result → (n : ℕ) → self.now.unmarked.first ≤ n → n < locals
            → slice_index_or self.now.unmarked.named.items n false ≡ true }
    {
        'locals: for index in self.unmarked.first..locals {
            if !self.is_flagged(index) {
                return false;
            }
        }
        true
    }

    // The same as [`scan_body`] where marks of locals from one on are left out.
    fn scan_from(
        &mut self,
        first: u32,
        bytes: &[u8],
        limits: &Limits,
    ) -> Result<Option<usize>, AllocError>
        ensures body { IfOk result (λ found. IfSome found
            (IsBody limits.now self.new.unmarked bytes.now self.new.marks.items)) }
        ensures first { self.new.unmarked.first ≡ first }
    {
        self.unmarked.first = first;
        wasm_text::scan_body(
            bytes,
            limits,
            &mut self.opened,
            &mut self.unmarked,
            &mut self.marks,
        )
    }
}

// How many operators the bytes are, if they are a plain body that names only what is within the limits. Those of its marks stand in the room then that
// are needed: marks of locals are left out where each of these from `ranked` on is named.
pub(crate) fn scan_body(
    bytes: &[u8],
    limits: &Limits,
    ranked: Option<u32>,
    room: &mut ScanRoom,
) -> Result<Option<usize>, AllocError>
    ensures { IfOk result (λ found. IfSome found (IsScannedBody limits.now room.new bytes.now)) }
{
    let first = room.first_tried(ranked);
    let Some(count) = room.scan_from(first, bytes, limits)? else {
        return Ok(None);
    };
    if room.are_named(limits.locals) {
        return Ok(Some(count));
    }
    room.waits = MOST_WAITS;
    if limits.locals > NO_LOCAL {
        return Ok(None);
    }
    room.scan_from(NO_LOCAL, bytes, limits)
}
