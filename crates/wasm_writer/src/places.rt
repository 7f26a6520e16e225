//! Where a code section's parts stand among the bytes that are written (Binary Format > Modules > Code Section).

ghost use Rattle.std.specs.Prelude.{◌≡◌, ◌+◌, ◌<◌, ◌^◌, length, map, IfOk};
ghost use Rattle.wasm_forms.specs.Writing.{Adds, Keeps, TakesRoom, EachFits, FitsLength, FitsVector};
ghost use Rattle.wasm_forms.specs.Spelling.{row_bytes, vector_bytes};
ghost use Rattle.wasm_writer.specs.Measures.{Measures};
ghost use Rattle.wasm_frames.specs.Record.{body_record};
ghost use Rattle.wasm_frames.specs.Spelling.{body_bytes};
ghost use Rattle.wasm_writer.specs.Spelling.{count_place, first_body, placed_bodies, range_of};
ghost use Rattle.wasm_writer.specs.Measuring.{TellsPlaces};

use crate::number::number_len;
use crate::sum::plus;
use crate::vector::measured_block;
use std::alloc::{AllocError, Global};
use std::ops::Range;
use wasm_forms::{WireError, leb128_len, write_vector};
use wasm_frames::RawBody;

/// Where the parts of a code section stand, in bytes from the start of all that is written: the count of its bodies, and each
/// body behind its size, in their order. Of no bodies no section is written: the place is 0, and there is no range.
#[derive(Debug, PartialEq, Eq, Drop)]
pub struct CodePlaces {
    pub count: usize,
    pub bodies: Vec<Range<usize>>,
}

/// How many bytes the bodies have, one after another, each behind the count of its bytes.
fn bodies_len(bodies: &[RawBody<'_>]) -> Result<u32, WireError>
    ensures { Measures result (row_bytes (λ b. body_bytes (body_record b)) bodies.now)
        (EachFits (λ b. FitsLength b.bytes.now) bodies.now) }
{
    let mut total: u32 = 0;
    'bodies: for body in bodies {
        total = plus(total, measured_block(body.bytes)?)?;
    }
    Ok(total)
}

/// How many bytes the count of the bodies and each of them have.
fn counted_bodies_len(bodies: &[RawBody<'_>]) -> Result<u32, WireError>
    ensures { Measures result (vector_bytes (λ b. body_bytes (body_record b)) bodies.now)
        (FitsVector (λ b. FitsLength b.bytes.now) bodies.now) }
{
    let Ok(count) = u32::try_from(bodies.len()) else {
        return Err(WireError::TooLarge);
    };
    plus(number_len(u64::from(count)), bodies_len(bodies)?)
}

/// How many bytes the content of the code section of these bodies has: their count and each of them. Takes no memory.
pub(crate) fn code_len(bodies: &[RawBody<'_>]) -> Result<u32, WireError>
    ensures { Measures result (vector_bytes body_bytes (map body_record bodies.now))
        (FitsVector (λ b. FitsLength b.bytes) (map body_record bodies.now)) }
{
    counted_bodies_len(bodies)
}

/// Writes the count of the bodies and each of them. Refused, the bytes written before stay, and what was appended behind them means
/// nothing.
pub(crate) fn write_bodies(to: &mut Vec<u8>, bodies: &[RawBody<'_>]) -> Result<(), WireError>
    ensures adds { Adds result to.old.items to.new.items
        (vector_bytes body_bytes (map body_record bodies.now))
        (FitsVector (λ b. FitsLength b.bytes) (map body_record bodies.now)) }
    ensures room { TakesRoom result to.old to.new (vector_bytes body_bytes (map body_record bodies.now)) }
    ensures keeps { Keeps to.old.items to.new.items }
{
    write_vector(to, bodies)
}

/// Where each body stands behind its size, if they are written one after another from the place `first` on.
pub(crate) fn body_ranges(
    alloc: Global,
    first: usize,
    bodies: &[RawBody<'_>],
) -> Result<Vec<Range<usize>>, AllocError>
    requires short { length (row_bytes body_bytes (map body_record bodies.now)) < 2 ^ 32 }
    requires within { first + length (row_bytes body_bytes (map body_record bodies.now)) < 2 ^ 64 }
    ensures { IfOk result
        (λ ranges. ranges.items ≡ map range_of (placed_bodies first (map body_record bodies.now))) }
{
    let mut ranges = Vec::with_capacity(alloc, bodies.len())?;
    let mut place = first;
    'bodies: for body in bodies {
        let start = place + leb128_len(body.bytes.len() as u32);
        let end = start + body.bytes.len();
        ranges.push(start..end)?;
        place = end;
    }
    Ok(ranges)
}

/// Where the parts of the code section of these bodies stand, if it is written at the place `start`. `size` is the number of its
/// content's bytes.
pub(crate) fn code_places(
    alloc: Global,
    start: usize,
    size: u32,
    bodies: &[RawBody<'_>],
) -> Result<CodePlaces, AllocError>
    requires some { 0 < length bodies.now }
    requires few { length bodies.now < 2 ^ 32 }
    requires sized { size ≡ length (vector_bytes body_bytes (map body_record bodies.now)) }
    requires low { start < 2 ^ 63 }
    ensures count { IfOk result (λ places. places.count ≡ count_place start (map body_record bodies.now)) }
    ensures ranges { IfOk result (λ places. places.bodies.items
        ≡ map range_of (placed_bodies (first_body start (map body_record bodies.now))
        (map body_record bodies.now))) }
{
    let count = start + 1 + leb128_len(size);
    let first = count + leb128_len(bodies.len() as u32);
    let ranges = body_ranges(alloc, first, bodies)?;
    Ok(CodePlaces {
        count,
        bodies: ranges,
    })
}

/// Where the parts of the code section of these bodies stand, if the call of [`crate::Writer::code_section`] for them begins at the
/// place `start`: what that call answers, with no byte written (Binary Format > Modules > Code Section).
///
/// # Errors
///
/// `TooLarge` exactly where a count or a size is 2^32 or more, and else `Memory`.
pub fn places_of_code(
    alloc: Global,
    start: usize,
    bodies: &[RawBody<'_>],
) -> Result<CodePlaces, WireError>
    requires low { start < 2 ^ 63 }
    ensures { TellsPlaces result start (map body_record bodies.now) }
{
    let size = code_len(bodies)?;
    if bodies.is_empty() {
        return Ok(CodePlaces {
            count: 0,
            bodies: Vec::new(alloc),
        });
    }
    Ok(code_places(alloc, start, size, bodies)?)
}
