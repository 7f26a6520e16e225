//! Reading the code section (Binary Format > Modules > Code Section).

ghost use Rattle.std.specs.Prelude.{◌+◌, ◌<◌, ◌^◌, length, map};
ghost use Rattle.wasm_forms.specs.Reading.{Gives};
ghost use Rattle.wasm_frames.specs.Record.{body_record};
ghost use Rattle.wasm_frames.specs.Steps.{body_at, code_at, whole_code};

use crate::record::RawBody;
use std::alloc::Global;
use wasm_forms::{WireError, read_block, read_u32, room_for};

/// The body whose size stands at this place, and the bytes behind it.
#[tactic(auto, unfolding(crate::specs::Steps::body_at))]
fn read_body(place: usize, bytes: &[u8]) -> Result<(RawBody<'_>, &[u8]), WireError>
    requires { place + length bytes.now < 2 ^ 64 }
    ensures { Gives (λ x. (body_record x.0, x.1.now)) result (body_at place bytes.now) }
{
    let (content, rest) = read_block(bytes)?;
    let start = place + (bytes.len() - rest.len() - content.len());
    Ok((
        RawBody {
            start,
            bytes: content,
        },
        rest,
    ))
}

/// The bodies whose count stands at this place, and the bytes behind them.
#[tactic(auto, unfolding(crate::specs::Steps::code_at))]
fn read_bodies<'a>(
    alloc: Global,
    place: usize,
    bytes: &'a [u8],
) -> Result<(Vec<RawBody<'a>>, &'a [u8]), WireError>
    requires { place + length bytes.now < 2 ^ 64 }
    ensures { Gives (λ x. (map body_record x.0.items, x.1.now)) result (code_at place bytes.now) }
{
    let (count, mut rest) = read_u32(bytes)?;
    let mut bodies = Vec::with_capacity(alloc, room_for(count, rest))?;
    for _index in 0..count {
        let (body, behind) = read_body(place + (bytes.len() - rest.len()), rest)?;
        bodies.push(body)?;
        rest = behind;
    }
    Ok((bodies, rest))
}

/// The bodies that all of these bytes are, the count of which stands at this place.
#[tactic(auto, unfolding(crate::specs::Steps::whole_code))]
pub fn read_code<'a>(
    alloc: Global,
    place: usize,
    bytes: &'a [u8],
) -> Result<Vec<RawBody<'a>>, WireError>
    requires { place + length bytes.now < 2 ^ 64 }
    ensures { Gives (λ v. map body_record v.items) result (whole_code place bytes.now) }
{
    let (bodies, rest) = read_bodies(alloc, place, bytes)?;
    match rest {
        [] => Ok(bodies),
        _ => Err(WireError::Malformed),
    }
}
