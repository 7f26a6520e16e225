//! Payloads of the producers section, and the fields that are read of them.

use std::alloc::{AllocError, Global};
use std::test::Fail;
use test_support::{bytes_of, demand, is_text};
use wasm_wire::{RawField, read_producers};

fn tell_field(text: &mut String, field: &RawField<'_>) -> Result<(), AllocError> {
    write!(text, "{}:", field.name)?;
    for (name, version) in &field.values {
        write!(text, " {name} {version},")?;
    }
    text.push_str(";")
}

fn tell_fields(text: &mut String, fields: &[RawField<'_>]) -> bool {
    for field in fields {
        if tell_field(text, field).is_err() {
            return false;
        }
    }
    true
}

// Whether these are the fields of the payload.
fn says(alloc: Global, payload: &[u8], wanted: &str) -> bool {
    let mut text = String::new(alloc);
    match read_producers(alloc, payload) {
        Ok(fields) => tell_fields(&mut text, &fields) && is_text(&text, wanted),
        Err(_) => false,
    }
}

// Each payload, and its fields.
const ROWS: [(&str, &str); 12] = [
    ("", ""),
    ("00", ""),
    // two whole fields
    (
        "02 03 73 64 6B 01 01 61 01 31 08 6C 61 6E 67 75 61 67 65 02 01 43 02 31 31 01 44 00",
        "sdk: a 1,;language: C 11, D ,;",
    ),
    // a field without values, and a byte behind the last field
    ("01 03 73 64 6B 00 FF", "sdk:;"),
    // two fields, of which the second isn't whole: in its name, its count, a value's name, a version
    ("02 03 73 64 6B 01 01 61 01 31 05", "sdk: a 1,;"),
    ("02 03 73 64 6B 01 01 61 01 31 01 62", "sdk: a 1,;"),
    ("02 03 73 64 6B 01 01 61 01 31 01 62 01 02 63", "sdk: a 1,;"),
    (
        "02 03 73 64 6B 01 01 61 01 31 01 62 02 01 63 01 32 01 64 05 33",
        "sdk: a 1,;",
    ),
    // one field, whose second value is cut off
    ("01 03 73 64 6B 02 01 61 01 31 01 62", ""),
    // a name that is no text
    ("02 03 73 64 6B 01 01 61 01 31 01 FF 00", "sdk: a 1,;"),
    // counts that lie
    ("FF FF FF FF 0F 01 61 00", "a:;"),
    ("01 01 61 FF FF FF FF 0F 01 62 01 31", ""),
];

#[test]
fn fields_are_read(rt: HostRuntime) -> Result<(), Fail> {
    for (text, wanted) in &ROWS {
        let payload = bytes_of(rt.alloc(), text)?;
        demand(says(rt.alloc(), &payload, wanted), text)?;
    }
    Ok(())
}
