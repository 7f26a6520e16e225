//! Reading the tag section (Binary Format > Modules > Tag Section).

ghost use Rattle.wasm_forms.specs.Reading.{Gives};
ghost use Rattle.wasm_forms.specs.Grammar.{Row, Vector, at};
ghost use Rattle.wasm_entries.specs.TypeForms.{tag_type};

use std::alloc::Global;
use wasm_entries::read_tag_type;
use wasm_forms::{WireError, read_u32, room_for};

/// So many tags, one after another.
fn take_tags(alloc: Global, count: u32, bytes: &[u8]) -> Result<(Vec<u32>, &[u8]), WireError>
    ensures { Gives (λ r. (r.0.items, r.1.now)) result (at (Row tag_type count) bytes.now) }
{
    let mut tags = Vec::with_capacity(alloc, room_for(count, bytes))?;
    let mut rest = bytes;
    'reading: for _taken in 0..count {
        let (index, after) = read_tag_type(rest)?;
        tags.push(index)?;
        rest = after;
    }
    Ok((tags, rest))
}

/// The tags whose count stands in front, each by the index of its type, and the bytes behind them.
pub fn read_tags(alloc: Global, bytes: &[u8]) -> Result<(Vec<u32>, &[u8]), WireError>
    ensures { Gives (λ r. (r.0.items, r.1.now)) result (at (Vector tag_type) bytes.now) }
{
    let (count, rest) = read_u32(bytes)?;
    take_tags(alloc, count, rest)
}
