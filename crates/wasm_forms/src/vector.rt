//! Vectors (Binary Format > Conventions > Lists).

ghost use Rattle.std.specs.Prelude.{◌≡◌, length, map, min, ℕ};
ghost use Rattle.wasm_forms.specs.Reading.{Gives};
ghost use Rattle.wasm_forms.specs.Grammar.{Form, Reads, Row, U32, Vector, at};

use crate::error::WireError;
use crate::number::read_u32;
use std::alloc::Global;

/// What a vector is read of (Binary Format > Conventions > Lists). `form` is the form of one element's text, `Seen` the type of the
/// values that this form gives, and `view` takes an element to its value, without where it lies in memory.
pub trait Element<'a>: Sized {
    ghost Seen: { Type 0 };

    ghost view: { Self → Seen };

    ghost form: { Form Seen };

    /// Reads one, and gives it with the bytes after it.
    fn read(alloc: Global, bytes: &'a [u8]) -> Result<(Self, &'a [u8]), WireError>
        ensures { Gives (λ r. (view r.0, r.1.now)) result (at form bytes.now) };
}

impl<'a> Element<'a> for u32 {
    ghost Seen = { ℕ };

    ghost view = { λ n. n };

    ghost form = { U32 };

    fn read(_alloc: Global, bytes: &'a [u8]) -> Result<(u32, &'a [u8]), WireError> {
        read_u32(bytes)
    }
}

/// How many elements to reserve memory for where `count` are told: no more than there are bytes left, since each takes a byte at least.
pub fn room_for(count: u32, bytes: &[u8]) -> usize
    ensures { result ≡ min count (length bytes.now) }
{
    (count as usize).min(bytes.len())
}

/// So many elements, one after another.
fn take_row<'a, E: Element<'a> + Drop>(
    alloc: Global,
    count: u32,
    bytes: &'a [u8],
) -> Result<(Vec<E>, &'a [u8]), WireError>
    ensures { Gives (λ r. (map E.view r.0.items, r.1.now)) result (at (Row E.form count) bytes.now) }
{
    let mut items = Vec::with_capacity(alloc, room_for(count, bytes))?;
    let mut rest = bytes;
    'elements: for _taken in 0..count {
        let (item, after) = E::read(alloc, rest)?;
        items.push(item)?;
        rest = after;
    }
    Ok((items, rest))
}

/// A vector, by its list function alone.
fn take_vector<'a, E: Element<'a> + Drop>(
    alloc: Global,
    bytes: &'a [u8],
) -> Result<(Vec<E>, &'a [u8]), WireError>
    ensures { Gives (λ r. (map E.view r.0.items, r.1.now)) result (at (Vector E.form) bytes.now) }
{
    let (count, rest) = read_u32(bytes)?;
    take_row(alloc, count, rest)
}

/// Reads a u32 count and that many elements, and gives them with the bytes after them.
///
/// Refused as [`WireError::Malformed`] where no count stands in front, or fewer elements. Memory is taken for as many elements as are
/// told, but for no more than there are bytes left.
pub fn read_vector<'a, E: Element<'a> + Drop>(
    alloc: Global,
    bytes: &'a [u8],
) -> Result<(Vec<E>, &'a [u8]), WireError>
    ensures gives { Gives (λ r. (map E.view r.0.items, r.1.now)) result (at (Vector E.form) bytes.now) }
    ensures found { Reads (Vector E.form) (λ r. (map E.view r.0.items, r.1.now)) bytes.now result }
{
    take_vector(alloc, bytes)
}
