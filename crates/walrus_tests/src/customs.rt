//! Worked modules with custom sections: which stay, and where they are written.

use crate::reports::each_settles;
use std::test::Fail;
use walrus_test_support::{each_comes_out, each_comes_out_by, each_is_refused_by};

// Modules, and what they are written as without producers.
const ROWS: [(&str, &str); 4] = [
    // sections `a` and `b`, debug information, and dynamic linking between two sections
    (
        "00 61 73 6D 01 00 00 00 00 03 01 61 01 00 0D 0B 2E 64 65 62 75 67 5F 69 6E 66 6F 02 01 04 01 60 00 00 03 02 01 00 07 05 01 01 66 00 00 00 0A 08 64 79 6C 69 6E 6B 2E 30 03 0A 04 01 02 00 0B 00 03 01 62 04",
        "00 61 73 6D 01 00 00 00 00 0A 08 64 79 6C 69 6E 6B 2E 30 03 01 04 01 60 00 00 03 02 01 00 07 05 01 01 66 00 00 0A 04 01 02 00 0B 00 03 01 61 01 00 03 01 62 04",
    ),
    // a section with no name and no bytes
    (
        "00 61 73 6D 01 00 00 00 00 01 00",
        "00 61 73 6D 01 00 00 00 00 01 00",
    ),
    // two of one name in front of the types, which nothing keeps
    (
        "00 61 73 6D 01 00 00 00 00 03 01 62 02 00 03 01 62 01 01 04 01 60 00 00",
        "00 61 73 6D 01 00 00 00 00 03 01 62 02 00 03 01 62 01",
    ),
    // producers that aren't written, and a section behind them
    (
        "00 61 73 6D 01 00 00 00 00 0B 09 70 72 6F 64 75 63 65 72 73 00 00 03 01 61 01",
        "00 61 73 6D 01 00 00 00 00 03 01 61 01",
    ),
];

// Inputs that are refused as invalid.
const INVALID: [&str; 2] = [
    // a section without a name
    "00 61 73 6D 01 00 00 00 00 00",
    // a name that is no text
    "00 61 73 6D 01 00 00 00 00 02 01 FF",
];

// Modules with producers, and what they are written as with walrus 0.28.0 among them.
const PRODUCED: [(&str, &str); 2] = [
    // two fields, of which the second isn't whole
    (
        "00 61 73 6D 01 00 00 00 00 15 09 70 72 6F 64 75 63 65 72 73 02 03 73 64 6B 01 01 61 01 31 05",
        "00 61 73 6D 01 00 00 00 00 30 09 70 72 6F 64 75 63 65 72 73 02 03 73 64 6B 01 01 61 01 31 0C 70 72 6F 63 65 73 73 65 64 2D 62 79 01 06 77 61 6C 72 75 73 06 30 2E 32 38 2E 30",
    ),
    // two fields of one name
    (
        "00 61 73 6D 01 00 00 00 00 1D 09 70 72 6F 64 75 63 65 72 73 02 03 73 64 6B 01 01 61 01 31 03 73 64 6B 01 01 61 01 32",
        "00 61 73 6D 01 00 00 00 00 39 09 70 72 6F 64 75 63 65 72 73 03 03 73 64 6B 01 01 61 01 31 03 73 64 6B 01 01 61 01 32 0C 70 72 6F 63 65 73 73 65 64 2D 62 79 01 06 77 61 6C 72 75 73 06 30 2E 32 38 2E 30",
    ),
];

#[test]
fn custom_sections_come_out(rt: HostRuntime) -> Result<(), Fail> {
    each_comes_out_by(rt.alloc(), "--no-producers", &ROWS)?;
    each_settles(rt.alloc(), &ROWS)
}

#[test]
fn invalid_custom_sections_are_refused(rt: HostRuntime) -> Result<(), Fail> {
    each_is_refused_by(rt.alloc(), "--no-producers", &INVALID)
}

#[test]
fn producers_come_out(rt: HostRuntime) -> Result<(), Fail> {
    each_comes_out(rt.alloc(), &[], &PRODUCED)
}
