//! Numbers, blocks and names in front of bytes, where a fault is no error. The readers of `wasm_forms` may also refuse for lack of
//! memory; these can't.

ghost use Rattle.std.specs.Prelude.{◌≡◌, ◌<◌, ◌≤◌, ◌^◌, IfSome};
ghost use Rattle.wasm_forms.specs.Number.{leb_at};
ghost use Rattle.wasm_forms.specs.Grammar.{Byte, Block, U32, name, ◌then◌, at};
ghost use Rattle.wasm_payloads.specs.Steps.{Finds};

/// A number of at most `most` groups of seven bits, and the bytes after it.
#[tactic(auto, unfolding(wasm_forms::specs::Number::leb_at))]
fn front_groups(bytes: &[u8], most: u32) -> Option<(u64, &[u8])>
    requires { most ≤ 5 }
    ensures value { Finds (λ r. (r.0, r.1.now)) result (leb_at most bytes.now) }
    ensures small { IfSome result (λ r. r.0 < 128 ^ most) }
{
    if most == 0 {
        return None;
    }
    match bytes {
        [] => None,
        [last, rest @ ..] if *last < 128 => Some((u64::from(*last), rest)),
        [first, rest @ ..] => {
            let (high, after) = front_groups(rest, most - 1)?;
            Some((u64::from(*first) - 128 + 128 * high, after))
        }
    }
}

/// A u32, and the bytes after it.
#[tactic(auto, unfolding(wasm_forms::specs::Number::number_at))]
pub(crate) fn front_u32(bytes: &[u8]) -> Option<(u32, &[u8])>
    ensures { Finds (λ r. (r.0, r.1.now)) result (at U32 bytes.now) }
{
    let (number, rest) = front_groups(bytes, 5)?;
    if number >= 1 << 32 {
        return None;
    }
    Some((number as u32, rest))
}

/// A block, and the bytes after it.
#[tactic(auto, unfolding(wasm_forms::specs::Grammar::block_at))]
fn front_block(bytes: &[u8]) -> Option<(&[u8], &[u8])>
    ensures { Finds (λ r. (r.0.now, r.1.now)) result (at Block bytes.now) }
{
    let (count, rest) = front_u32(bytes)?;
    let count = count as usize;
    if rest.len() < count {
        return None;
    }
    Some(rest.split_at(count))
}

/// A name, and the bytes after it.
pub(crate) fn front_name(bytes: &[u8]) -> Option<(&str, &[u8])>
    ensures { Finds (λ r. (r.0.now, r.1.now)) result (at name bytes.now) }
{
    let (block, rest) = front_block(bytes)?;
    match str::from_utf8(block) {
        Ok(text) => Some((text, rest)),
        Err(_) => None,
    }
}

/// An index, its name, and the bytes after them.
pub(crate) fn front_entry(bytes: &[u8]) -> Option<((u32, &str), &[u8])>
    ensures { Finds (λ r. ((r.0.0, r.0.1.now), r.1.now)) result (at (U32 then name) bytes.now) }
{
    let (index, behind) = front_u32(bytes)?;
    let (text, rest) = front_name(behind)?;
    Some(((index, text), rest))
}

/// A byte, a block, and the bytes after them.
pub(crate) fn front_subsection(bytes: &[u8]) -> Option<((u8, &[u8]), &[u8])>
    ensures { Finds (λ r. ((r.0.0, r.0.1.now), r.1.now)) result (at (Byte then Block) bytes.now) }
{
    match bytes {
        [] => None,
        [id, behind @ ..] => {
            let (content, rest) = front_block(behind)?;
            Some(((*id, content), rest))
        }
    }
}
