//! Sections as they stand. The bytes are put together by hand from the standard's grammar of sections.

use std::test::Fail;
use test_support::{bytes_of, demand};
use wasm_frames::{Pieced, RawPiece, pieces_until};

/// A custom section named "a", no types, and a section that the standard doesn't know.
const THREE: &str = "00 61 73 6D 01 00 00 00 00 04 01 61 AA BB 01 01 00 7F 02 FF FF";

/// The same, and a code section cut short.
const CUT: &str = "00 61 73 6D 01 00 00 00 00 04 01 61 AA BB 01 01 00 7F 02 FF FF 0A 05 00";

fn are_three(pieces: &[RawPiece<'_>]) -> bool {
    match *pieces {
        [custom, types, unknown] => {
            let named = custom.id == 0 && custom.name == Some("a") && custom.start == 8;
            let counted = types.id == 1 && types.entries == Some(0) && types.start == 14;
            let as_it_stands = unknown.id == 0x7F && unknown.name.is_none() && unknown.start == 17;
            let long = custom.bytes.len() == 6
                && types.bytes.len() == 3
                && unknown.bytes == [0x7F, 2, 0xFF, 0xFF].as_slice();
            named
                && counted
                && as_it_stands
                && long
                && custom.entries.is_none()
                && unknown.entries.is_none()
        }
        _ => false,
    }
}

#[test]
fn sections_as_they_stand(rt: HostRuntime) -> Result<(), Fail> {
    let bytes = bytes_of(rt.alloc(), THREE)?;
    match pieces_until(rt.alloc(), &bytes)? {
        Pieced::Whole(pieces) => demand(are_three(&pieces), "three sections"),
        _ => demand(false, "whole"),
    }
}

#[test]
fn sections_up_to_a_place(rt: HostRuntime) -> Result<(), Fail> {
    let bytes = bytes_of(rt.alloc(), CUT)?;
    match pieces_until(rt.alloc(), &bytes)? {
        Pieced::Until(pieces, place) => demand(are_three(&pieces) && place == 21, "up to 21"),
        _ => demand(false, "cut"),
    }
}

#[test]
fn no_sections_without_a_header(rt: HostRuntime) -> Result<(), Fail> {
    let bytes = bytes_of(rt.alloc(), "00 61 73 6D 02 00 00 00")?;
    match pieces_until(rt.alloc(), &bytes)? {
        Pieced::NoHeader => Ok(()),
        _ => demand(false, "no header"),
    }
}
