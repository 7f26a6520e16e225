//! The declared locals of a body (Binary Format > Modules > Code Section).

ghost use Rattle.std.specs.Prelude.{ℕ, ◌<◌, ◌≡◌, ◌^◌, All};
ghost use Rattle.wasm_forms.specs.Reading.{Gives};
ghost use Rattle.wasm_forms.specs.Grammar.{at};
ghost use Rattle.wasm_frames.specs.Record.{Body, body_record, sections};
ghost use Rattle.wasm_wire.specs.Locals.{declaration, add_locals, totals_at, all_totals_at};
ghost use Rattle.wasm_wire.specs.Rules.{LocalsHold, Checks};

use super::each::{Rule, check_all};
use wasm_forms::{WireError, read_u32, read_value_type};
use wasm_frames::{Raw, RawBody};

/// How many locals a declaration declares, with the bytes after it.
#[tactic(auto, unfolding(crate::specs::Locals::declaration))]
fn read_declaration(bytes: &[u8]) -> Result<(u32, &[u8]), WireError>
    ensures { Gives (λ r. (r.0, r.1.now)) result (at declaration bytes.now) }
{
    let (count, rest) = read_u32(bytes)?;
    let (_ty, after) = read_value_type(rest)?;
    Ok((count, after))
}

/// So many locals more. What is above 50,000 stays so.
fn add_locals(total: u64, count: u32) -> u64
    requires { total < 2 ^ 33 }
    ensures sum { result ≡ add_locals total count }
    ensures bounded { result < 2 ^ 33 }
{
    if total > 50_000 {
        total
    } else {
        total + u64::from(count)
    }
}

/// How many locals so many declarations declare, where they can be read.
fn take_declarations(count: u32, bytes: &[u8]) -> Result<u64, WireError>
    ensures { Gives (λ n. n) result (totals_at count 0 bytes.now) }
{
    let mut rest = bytes;
    let mut total: u64 = 0;
    'declarations: for _taken in 0..count {
        let (more, after) = read_declaration(rest)?;
        total = add_locals(total, more);
        rest = after;
    }
    Ok(total)
}

/// How many locals a body declares, where its declarations can be read.
#[tactic(auto, unfolding(crate::specs::Locals::all_totals_at))]
fn take_locals(bytes: &[u8]) -> Result<u64, WireError>
    ensures { Gives (λ n. n) result (all_totals_at bytes.now) }
{
    let (count, rest) = read_u32(bytes)?;
    take_declarations(count, rest)
}

/// Whether a body declares at most 50,000 locals, where its declarations can be read.
fn check_locals(body: &RawBody<'_>) -> Result<(), WireError>
    ensures { Checks result (LocalsHold (body_record body.now)) }
{
    match take_locals(body.bytes) {
        Ok(declared) => {
            if declared > 50_000 {
                return Err(WireError::Malformed);
            }
            Ok(())
        }
        Err(WireError::Malformed) => Ok(()),
        Err(error) => Err(error),
    }
}

/// Bodies that declare at most 50,000 locals, where their declarations can be read.
#[derive(Clone, Copy)]
struct Locals;

impl<'a> Rule<RawBody<'a>> for Locals {
    ghost Seen = { Body };

    ghost view = { body_record };

    ghost Holds = { λ r b. LocalsHold b };

    fn check(&self, item: &RawBody<'a>) -> Result<(), WireError> {
        check_locals(item)
    }
}

/// Whether all bodies declare at most 50,000 locals, where their declarations can be read.
pub fn check_all_locals(raw: &Raw<'_>) -> Result<(), WireError>
    ensures { Checks result (All LocalsHold (sections raw.now).bodies) }
{
    check_all(&Locals, &raw.bodies)
}
