//! How tests fail. They hand what they compare to small functions that answer a `bool`, since the prover's work grows faster
//! than a function.

use crate::bytes::add_bytes;
use std::alloc::Global;
use std::test::Fail;

/// Whether the texts are the same.
pub fn is_text(found: &str, wanted: &str) -> bool {
    found == wanted
}

/// Whether this is a name, and the wanted one.
pub fn is_name(found: &Option<String>, wanted: &str) -> bool {
    match found {
        Some(name) => name.as_str() == wanted,
        None => false,
    }
}

/// Fails a test where this doesn't hold.
pub fn demand(holds: bool, what: &str) -> Result<(), Fail> {
    if holds { Ok(()) } else { Err(Fail::new(what)) }
}

// How many bytes both begin with.
fn shared(found: &[u8], wanted: &[u8]) -> usize {
    for place in 0..found.len() {
        if found.get(place) != wanted.get(place) {
            return place;
        }
    }
    found.len()
}

// Fails where the bytes differ: with the first that does, or with both counts where one stops before.
fn demand_same(found: &[u8], wanted: &[u8], what: &str) -> Result<(), Fail> {
    if found == wanted {
        return Ok(());
    }
    let place = shared(found, wanted);
    match (found.get(place), wanted.get(place)) {
        (Some(byte), Some(other)) => Err(Fail::new(format_args!(
            "byte {place} is {byte:02X}, not {other:02X}: {what}"
        ))),
        _ => Err(Fail::new(format_args!("{} bytes, not {}: {what}", found.len(), wanted.len()))),
    }
}

/// The bytes that the text says, each in two hexadecimal digits, with spaces between them. Fails a test where memory doesn't suffice.
pub fn bytes_of(alloc: Global, text: &str) -> Result<Vec<u8>, Fail> {
    let mut bytes = Vec::new(alloc);
    demand(add_bytes(&mut bytes, text), "memory")?;
    Ok(bytes)
}

/// Fails a test where these aren't the bytes that the text says, and tells the first one that differs.
pub fn demand_bytes(alloc: Global, found: &[u8], wanted: &str, what: &str) -> Result<(), Fail> {
    let bytes = bytes_of(alloc, wanted)?;
    demand_same(found, &bytes, what)
}
