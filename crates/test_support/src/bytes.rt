//! Bytes as text, each in two hexadecimal digits, since arrays of numbers are dear to the prover.

use std::alloc::Global;

fn digit(byte: u8) -> Option<u8> {
    match byte {
        b'0'..=b'9' => Some(byte - b'0'),
        b'A'..=b'F' => Some(byte - b'A' + 10),
        _ => None,
    }
}

fn number(high: u8, low: u8) -> Option<u8> {
    match (digit(high), digit(low)) {
        (Some(first), Some(second)) => Some((first & 15) * 16 + (second & 15)),
        _ => None,
    }
}

fn add_byte(bytes: &mut Vec<u8>, word: &str) -> bool {
    match word.as_bytes() {
        [high, low] => match number(*high, *low) {
            Some(byte) => bytes.push(byte).is_ok(),
            None => false,
        },
        _ => false,
    }
}

/// Whether memory suffices for the bytes that the text says, each in two hexadecimal digits, with spaces between them.
pub fn add_bytes(bytes: &mut Vec<u8>, text: &str) -> bool {
    for word in text.split_whitespace() {
        if !add_byte(bytes, word) {
            return false;
        }
    }
    true
}

/// Whether these are the bytes that the text says.
pub fn are(alloc: Global, found: &[u8], text: &str) -> bool {
    let mut wanted = Vec::new(alloc);
    add_bytes(&mut wanted, text) && found == wanted.as_slice()
}
