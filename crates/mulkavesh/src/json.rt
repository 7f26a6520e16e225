//! Strings and lists as programs read them, in JSON.

ghost use Rattle.std.specs.Prelude.{◌≡◌, ◌++◌, OnOk};
ghost use Rattle.mulkavesh.specs.Json.{byte_json, code_of, comma_at, digit, escape, string_json};

use crate::visible::hidden_length;
use std::alloc::AllocError;

const HEXADECIMAL: &[u8; 16] = b"0123456789abcdef";

// Puts a byte of a string behind the text, behind a backslash where it has to be.
fn add_byte(to: &mut Vec<u8>, byte: u8) -> Result<(), AllocError>
    ensures { OnOk result (to.new.items ≡ to.old.items ++ byte_json byte) }
{
    if byte == b'"' || byte == b'\\' {
        to.push(b'\\')?;
    }
    Ok(to.push(byte)?)
}

// The first number whose character has the first byte E2: U+2000.
const PUNCTUATION: u32 = 8192;

// The number of a character that people don't see, of its bytes.
fn code_of(character: &[u8]) -> u32
    ensures { result ≡ code_of character.now }
{
    match character {
        [byte] | [_, byte] => *byte as u32,
        [_, middle, last] => PUNCTUATION + *middle as u32 % 64 * 64 + *last as u32 % 64,
        _ => 0,
    }
}

// The last hexadecimal digit of a number.
fn digit(number: u32) -> u8
    ensures { result ≡ digit number }
{
    HEXADECIMAL[(number % 16) as usize]
}

// Puts the escape of the character with this number behind the text.
fn add_escape(to: &mut Vec<u8>, code: u32) -> Result<(), AllocError>
    ensures { OnOk result (to.new.items ≡ to.old.items ++ escape code) }
{
    to.extend_from_slice(b"\\u")?;
    to.push(digit(code / 4096))?;
    to.push(digit(code / 256))?;
    to.push(digit(code / 16))?;
    Ok(to.push(digit(code))?)
}

/// Puts a string behind the text, whose bytes are UTF-8. A character that people don't see is escaped.
pub(crate) fn add_string(to: &mut Vec<u8>, string: &[u8]) -> Result<(), AllocError>
    ensures { OnOk result (to.new.items ≡ to.old.items ++ string_json string.now) }
{
    to.push(b'"')?;
    let mut rest = string;
    'characters: while let [first, others @ ..] = rest {
        let hidden = hidden_length(rest);
        if hidden == 0 {
            add_byte(to, *first)?;
            rest = others;
        } else {
            let (character, behind) = rest.split_at(hidden);
            add_escape(to, code_of(character))?;
            rest = behind;
        }
    }
    Ok(to.push(b'"')?)
}

/// Puts the comma behind the text that stands in front of the item at this place of a list: none in front of the first.
pub(crate) fn add_comma(to: &mut Vec<u8>, comma: &str, place: usize) -> Result<(), AllocError>
    ensures { OnOk result (to.new.items ≡ to.old.items ++ comma_at comma.now place) }
{
    if place == 0 {
        return Ok(());
    }
    to.extend_from_slice(comma.as_bytes())
}
