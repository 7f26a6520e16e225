//! The bytes of a module that is read, as far as they are kept.

use std::alloc::{AllocError, Global};
use std::rc::Rc;
use std::result;
use wasm_frames::RawBody;

/// The bytes of a module that is read, of which plain bodies keep what they are.
#[derive(Clone, Copy)]
pub struct Input<'a> {
    /// The bytes.
    pub bytes: &'a [u8],
    /// The same bytes, where they may be shared; else what is kept is copied.
    pub whole: Option<&'a Rc<Vec<u8>>>,
}

// Where the first of these bodies begins in the input, and where the last one ends.
fn span_of(bodies: &[RawBody<'_>]) -> (usize, usize) {
    match (bodies.first(), bodies.last()) {
        (Some(first), Some(last)) => (first.start, last.start.saturating_add(last.bytes.len())),
        _ => (0, 0),
    }
}

// The bytes from one place to another, as far as they are there.
fn part(bytes: &[u8], begin: usize, end: usize) -> &[u8] {
    let (front, _behind) = bytes.split_at(end.min(bytes.len()));
    let (_before, rest) = front.split_at(begin.min(front.len()));
    rest
}

impl<'a> Input<'a> {
    /// Bytes of the input among which these bodies stand, and the place of the first of them: all bytes where these may be shared and at
    /// least half of them are bodies, else a copy from the first body to the end of the last.
    pub fn kept(
        self,
        alloc: Global,
        bodies: &[RawBody<'_>],
    ) -> result::Result<(Rc<Vec<u8>>, usize), AllocError> {
        let (begin, end) = span_of(bodies);
        if let Some(whole) = self.whole {
            if end.saturating_sub(begin) >= self.bytes.len() / 2 {
                return Ok((whole.clone()?, 0));
            }
        }
        let copy = part(self.bytes, begin, end).to_vec(alloc)?;
        match Rc::new(alloc, copy) {
            Ok(shared) => Ok((shared, begin)),
            Err(_) => Err(AllocError),
        }
    }
}
