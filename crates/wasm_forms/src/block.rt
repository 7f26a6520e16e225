//! Bytes in a given number, blocks of bytes, and names (Binary Format > Values > Bytes, Conventions > Lists, Values > Names).

ghost use Rattle.wasm_forms.specs.Reading.{Gives};
ghost use Rattle.wasm_forms.specs.Grammar.{Reads, Block, Bytes, name, at};

use crate::error::WireError;
use crate::number::read_u32;

/// So many bytes, by the list function alone.
#[inline]
#[tactic(auto, unfolding(crate::specs::Grammar::bytes_at))]
fn take_bytes(bytes: &[u8], count: usize) -> Result<(&[u8], &[u8]), WireError>
    ensures { Gives (λ r. (r.0.now, r.1.now)) result (at (Bytes count) bytes.now) }
{
    if bytes.len() < count {
        return Err(WireError::Malformed);
    }
    Ok(bytes.split_at(count))
}

/// Reads `count` bytes, and gives these with the bytes after them.
///
/// Refused as [`WireError::Malformed`] where fewer bytes are left.
#[inline]
pub fn read_bytes(bytes: &[u8], count: usize) -> Result<(&[u8], &[u8]), WireError>
    ensures gives { Gives (λ r. (r.0.now, r.1.now)) result (at (Bytes count) bytes.now) }
    ensures found { Reads (Bytes count) (λ r. (r.0.now, r.1.now)) bytes.now result }
{
    take_bytes(bytes, count)
}

/// A block, by its list function alone.
#[inline]
#[tactic(auto, unfolding(crate::specs::Grammar::block_at))]
fn take_block(bytes: &[u8]) -> Result<(&[u8], &[u8]), WireError>
    ensures { Gives (λ r. (r.0.now, r.1.now)) result (at Block bytes.now) }
{
    let (count, rest) = read_u32(bytes)?;
    let count = count as usize;
    if rest.len() < count {
        return Err(WireError::Malformed);
    }
    Ok(rest.split_at(count))
}

/// A name, by its list function alone.
fn take_name(bytes: &[u8]) -> Result<(&str, &[u8]), WireError>
    ensures { Gives (λ r. (r.0.now, r.1.now)) result (at name bytes.now) }
{
    let (block, rest) = take_block(bytes)?;
    match str::from_utf8(block) {
        Ok(text) => Ok((text, rest)),
        Err(_) => Err(WireError::Malformed),
    }
}

/// Reads a u32 count and that many bytes, and gives these with the bytes after them.
///
/// Refused as [`WireError::Malformed`] where no count stands in front, or fewer bytes are left.
pub fn read_block(bytes: &[u8]) -> Result<(&[u8], &[u8]), WireError>
    ensures gives { Gives (λ r. (r.0.now, r.1.now)) result (at Block bytes.now) }
    ensures found { Reads Block (λ r. (r.0.now, r.1.now)) bytes.now result }
{
    take_block(bytes)
}

/// Reads a name, a block of bytes that is UTF-8, and gives it with the bytes after it.
///
/// Refused as [`WireError::Malformed`] where no block stands in front, or its bytes are not UTF-8.
pub fn read_name(bytes: &[u8]) -> Result<(&str, &[u8]), WireError>
    ensures gives { Gives (λ r. (r.0.now, r.1.now)) result (at name bytes.now) }
    ensures found { Reads name (λ r. (r.0.now, r.1.now)) bytes.now result }
{
    take_name(bytes)
}
