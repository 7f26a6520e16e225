//! Payloads of the producers section that are written, against bytes worked out from its format.

use std::alloc::{AllocError, Global};
use std::test::Fail;
use test_support::{add_bytes, are, demand};
use wasm_payloads::{RawField, write_producers};

fn tools(alloc: Global) -> Result<RawField<'static>, AllocError> {
    let mut values = Vec::new(alloc);
    values.push(("rustc", "1.80"))?;
    values.push(("walrus", "0.28"))?;
    Ok(RawField {
        name: "processed-by",
        values,
    })
}

fn are_tools_written(alloc: Global, bytes: &mut Vec<u8>, text: &str) -> bool {
    match tools(alloc) {
        Ok(field) => write_producers(bytes, &[field]).is_ok() && are(alloc, bytes, text),
        Err(_) => false,
    }
}

#[test]
fn fields_are_written(rt: HostRuntime) -> Result<(), Fail> {
    let mut bytes = Vec::new(rt.alloc());
    let text =
        "01 0C 70 72 6F 63 65 73 73 65 64 2D 62 79 02 05 72 75 73 74 63 04 31 2E 38 30 06 77 61 6C 72 75 73 04 30 2E 32 38";
    demand(are_tools_written(rt.alloc(), &mut bytes, text), text)
}

// Of no field the count alone is written, behind what was there.
fn adds_a_count(alloc: Global, bytes: &mut Vec<u8>) -> bool {
    add_bytes(bytes, "AA") && write_producers(bytes, &[]).is_ok() && are(alloc, bytes, "AA 00")
}

#[test]
fn no_fields_are_a_count(rt: HostRuntime) -> Result<(), Fail> {
    let mut bytes = Vec::new(rt.alloc());
    demand(adds_a_count(rt.alloc(), &mut bytes), "a count of nothing")
}
