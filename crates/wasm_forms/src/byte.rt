//! Bytes (Binary Format > Values > Bytes).

ghost use Rattle.wasm_forms.specs.Reading.{Gives};
ghost use Rattle.wasm_forms.specs.Grammar.{Reads, Byte, at};

use crate::error::WireError;

/// Reads one byte, and gives it with the bytes after it.
///
/// Refused as [`WireError::Malformed`] where no byte is left.
pub fn read_byte(bytes: &[u8]) -> Result<(u8, &[u8]), WireError>
    ensures gives { Gives (λ r. (r.0, r.1.now)) result (at Byte bytes.now) }
    ensures found { Reads Byte (λ r. (r.0, r.1.now)) bytes.now result }
{
    match bytes {
        [] => Err(WireError::Malformed),
        [first, rest @ ..] => Ok((*first, rest)),
    }
}
