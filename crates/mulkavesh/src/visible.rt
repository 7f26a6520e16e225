//! A name or a path as people see it: a character that moves a terminal's cursor, or turns the order of what it shows, is a question mark.

ghost use Rattle.std.specs.Prelude.{◌≡◌, ◌<◌, ◌≤◌, ◌++◌, drop, length, take, OnOk};
ghost use Rattle.mulkavesh.specs.Visible.{hidden_length, is_control, is_late_control, is_turn, shown};

use std::alloc::AllocError;

// What people see of such a character.
const MARK: &[u8] = b"?";

// Whether the byte is a control character of ASCII: U+0000 to 001F, or U+007F.
fn is_control(byte: u8) -> bool
    ensures { result ≡ is_control byte }
{
    byte < 32 || byte == 127
}

// Whether the two bytes are one of the later control characters, U+0080 to 009F: C2, and 80 to 9F.
fn is_late_control(first: u8, second: u8) -> bool
    ensures { result ≡ is_late_control first second }
{
    first == 194 && second >= 128 && second <= 159
}

// Whether the three bytes are a character that ends a line or turns the order: U+2028 to 202E, or U+2066 to 2069.
// They are E2 80, and A8 to AE; or E2 81, and A6 to A9.
fn is_turn(first: u8, second: u8, third: u8) -> bool
    ensures { result ≡ is_turn first second third }
{
    match second {
        128 => first == 226 && third >= 168 && third <= 174,
        129 => first == 226 && third >= 166 && third <= 169,
        _ => false,
    }
}

/// How many bytes the character has that stands in front of the text, where it is none that people see; and else 0.
pub(crate) fn hidden_length(text: &[u8]) -> usize
    ensures length { result ≡ hidden_length text.now }
    ensures bound { result ≤ length text.now }
{
    match text {
        [first, ..] if is_control(*first) => 1,
        [first, second, ..] if is_late_control(*first, *second) => 2,
        [first, second, third, ..] if is_turn(*first, *second, *third) => 3,
        _ => 0,
    }
}

// How many bytes stand in front of the text that people see as they are, where the first is one.
fn plain_length(text: &[u8]) -> usize
    requires some { 0 < length text.now }
    requires plain { hidden_length text.now ≡ 0 }
    ensures some { 0 < result }
    ensures told { shown text.now ≡ take result text.now ++ shown (drop result text.now) }
    ensures bound { result ≤ length text.now }
{
    let mut at = 1;
    'bytes: while at < text.len() && hidden_length(&text[at..]) == 0 {
        at += 1;
    }
    at
}

/// A beginning of what people see of the text, and the part of the text that the rest of it comes from.
pub(crate) fn front_shown(text: &[u8]) -> (&[u8], &[u8])
    requires { 0 < length text.now }
    ensures told { shown text.now ≡ result.0.now ++ shown result.1.now }
    ensures shorter { length result.1.now < length text.now }
{
    let hidden = hidden_length(text);
    if hidden > 0 {
        return (MARK, text.split_at(hidden).1);
    }
    text.split_at(plain_length(text))
}

/// Puts a name behind the text, as people see it.
pub(crate) fn add_shown(to: &mut Vec<u8>, name: &[u8]) -> Result<(), AllocError>
    ensures { OnOk result (to.new.items ≡ to.old.items ++ shown name.now) }
{
    let mut rest = name;
    'pieces: while !rest.is_empty() {
        let (piece, behind) = front_shown(rest);
        to.extend_from_slice(piece)?;
        rest = behind;
    }
    Ok(())
}
