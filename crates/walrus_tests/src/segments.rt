//! Worked modules of segments in all their forms: which of them stay, and with which flags they are written.

use crate::reports::each_settles;
use std::test::Fail;
use walrus_test_support::{each_comes_out_by, each_is_refused_by, each_stays_by};

// Modules that are written as they are read.
const SAME: [&str; 13] = [
    // a passive segment of a function, which a body copies into a table
    "00 61 73 6D 01 00 00 00 01 04 01 60 00 00 03 03 02 00 00 04 04 01 70 00 01 07 05 01 01 66 00 00 09 05 01 01 00 01 01 0A 11 02 0C 00 41 00 41 00 41 00 FC 0C 00 00 0B 02 00 0B",
    // an active segment in the second of two tables, of which both stay
    "00 61 73 6D 01 00 00 00 01 04 01 60 00 00 03 02 01 00 04 07 02 70 00 01 70 00 02 07 09 02 01 61 01 00 01 62 01 01 09 09 01 02 01 41 00 0B 00 01 00 0A 04 01 02 00 0B",
    // a declared segment of a function
    "00 61 73 6D 01 00 00 00 01 04 01 60 00 00 03 02 01 00 09 05 01 03 00 01 00 0A 04 01 02 00 0B",
    // an active segment of an expression
    "00 61 73 6D 01 00 00 00 01 04 01 60 00 00 03 02 01 00 04 04 01 70 00 01 09 09 01 04 41 00 0B 01 D2 00 0B 0A 04 01 02 00 0B",
    // a passive segment of an expression, which a body drops
    "00 61 73 6D 01 00 00 00 01 04 01 60 00 00 03 02 01 00 07 05 01 01 66 00 00 09 07 01 05 70 01 D2 00 0B 0A 07 01 05 00 FC 0D 00 0B",
    // an active segment of outer references
    "00 61 73 6D 01 00 00 00 04 04 01 6F 00 01 09 0B 01 06 00 41 00 0B 6F 01 D0 6F 0B",
    // an active segment of references to functions that are never null
    "00 61 73 6D 01 00 00 00 01 04 01 60 00 00 03 02 01 00 04 04 01 70 00 01 09 0C 01 06 00 41 00 0B 64 70 01 D2 00 0B 0A 04 01 02 00 0B",
    // a declared segment of an expression
    "00 61 73 6D 01 00 00 00 01 04 01 60 00 00 03 02 01 00 09 07 01 07 70 01 D2 00 0B 0A 04 01 02 00 0B",
    // a passive segment of an expression that a body drops, and that declares its function
    "00 61 73 6D 01 00 00 00 01 04 01 60 00 00 03 03 02 00 00 07 05 01 01 66 00 00 09 07 01 05 70 01 D2 01 0B 0A 0D 02 08 00 FC 0D 00 D2 01 1A 0B 02 00 0B",
    // an active data segment
    "00 61 73 6D 01 00 00 00 05 03 01 00 01 0B 07 01 00 41 00 0B 01 AA",
    // an active data segment in the second of two memories, of which both stay
    "00 61 73 6D 01 00 00 00 05 05 02 00 01 00 02 07 09 02 01 61 02 00 01 62 02 01 0B 08 01 02 01 41 00 0B 01 AA",
    // a passive data segment that a body copies into a memory
    "00 61 73 6D 01 00 00 00 01 04 01 60 00 00 03 02 01 00 05 03 01 00 01 07 05 01 01 66 00 00 0C 01 01 0A 0E 01 0C 00 41 00 41 00 41 00 FC 08 00 00 0B 0B 04 01 01 01 AA",
    // an active data segment that a body drops, so that it is counted
    "00 61 73 6D 01 00 00 00 01 04 01 60 00 00 03 02 01 00 05 03 01 00 01 07 05 01 01 66 00 00 0C 01 01 0A 07 01 05 00 FC 09 00 0B 0B 07 01 00 41 00 0B 01 AA",
];

// Inputs and what they come to.
const OTHERS: [(&str, &str); 6] = [
    // an active segment that names table 0
    (
        "00 61 73 6D 01 00 00 00 01 04 01 60 00 00 03 02 01 00 04 04 01 70 00 01 09 09 01 02 00 41 00 0B 00 01 00 0A 04 01 02 00 0B",
        "00 61 73 6D 01 00 00 00 01 04 01 60 00 00 03 02 01 00 04 04 01 70 00 01 09 07 01 00 41 00 0B 01 00 0A 04 01 02 00 0B",
    ),
    // an active segment in the second of two tables, of which the first goes
    (
        "00 61 73 6D 01 00 00 00 01 04 01 60 00 00 03 02 01 00 04 07 02 70 00 01 70 00 02 09 09 01 02 01 41 00 0B 00 01 00 0A 04 01 02 00 0B",
        "00 61 73 6D 01 00 00 00 01 04 01 60 00 00 03 02 01 00 04 04 01 70 00 02 09 07 01 00 41 00 0B 01 00 0A 04 01 02 00 0B",
    ),
    // an active segment in a table with indices of 64 bits, which is named where it is written
    (
        "00 61 73 6D 01 00 00 00 01 04 01 60 00 00 03 02 01 00 04 04 01 70 04 01 09 07 01 00 42 00 0B 01 00 0A 04 01 02 00 0B",
        "00 61 73 6D 01 00 00 00 01 04 01 60 00 00 03 02 01 00 04 04 01 70 04 01 09 09 01 02 00 42 00 0B 00 01 00 0A 04 01 02 00 0B",
    ),
    // a passive segment that nothing names goes, so that another one has to declare its function
    (
        "00 61 73 6D 01 00 00 00 01 04 01 60 00 00 03 03 02 00 00 07 05 01 01 66 00 00 09 05 01 01 00 01 01 0A 0A 02 05 00 D2 01 1A 0B 02 00 0B",
        "00 61 73 6D 01 00 00 00 01 04 01 60 00 00 03 03 02 00 00 07 05 01 01 66 00 00 09 05 01 03 00 01 01 0A 0A 02 05 00 D2 01 1A 0B 02 00 0B",
    ),
    // an active data segment in the second of two memories, of which the first goes
    (
        "00 61 73 6D 01 00 00 00 05 05 02 00 01 00 02 0B 08 01 02 01 41 00 0B 01 AA",
        "00 61 73 6D 01 00 00 00 05 03 01 00 02 0B 07 01 00 41 00 0B 01 AA",
    ),
    // of two passive data segments a body drops the second
    (
        "00 61 73 6D 01 00 00 00 01 04 01 60 00 00 03 02 01 00 07 05 01 01 66 00 00 0C 01 02 0A 07 01 05 00 FC 09 01 0B 0B 07 02 01 01 AA 01 01 BB",
        "00 61 73 6D 01 00 00 00 01 04 01 60 00 00 03 02 01 00 07 05 01 01 66 00 00 0C 01 01 0A 07 01 05 00 FC 09 00 0B 0B 04 01 01 01 BB",
    ),
];

// Inputs that are refused as invalid.
const INVALID: [&str; 14] = [
    // a count of more data segments than there are
    "00 61 73 6D 01 00 00 00 0C 05 FF FF FF FF 0F",
    // a count of fewer data segments than there are
    "00 61 73 6D 01 00 00 00 0C 01 00 0B 04 01 01 01 AA",
    // a body that drops a data segment where none is counted
    "00 61 73 6D 01 00 00 00 01 04 01 60 00 00 03 02 01 00 0A 07 01 05 00 FC 09 00 0B 0B 04 01 01 01 AA",
    // a body that drops an element segment that isn't there
    "00 61 73 6D 01 00 00 00 01 04 01 60 00 00 03 02 01 00 0A 07 01 05 00 FC 0D 00 0B",
    // a segment of elements whose offset is of 64 bits, in a table with indices of 32 bits
    "00 61 73 6D 01 00 00 00 01 04 01 60 00 00 03 02 01 00 04 04 01 70 00 01 09 07 01 00 42 00 0B 01 00 0A 04 01 02 00 0B",
    // a segment of elements whose offset is of 32 bits, in a table with indices of 64 bits
    "00 61 73 6D 01 00 00 00 01 04 01 60 00 00 03 02 01 00 04 04 01 70 04 01 09 07 01 00 41 00 0B 01 00 0A 04 01 02 00 0B",
    // segments of elements with flags that there aren't, and of a kind that there isn't
    "00 61 73 6D 01 00 00 00 01 04 01 60 00 00 03 02 01 00 04 04 01 70 00 01 09 07 01 08 41 00 0B 01 00 0A 04 01 02 00 0B",
    "00 61 73 6D 01 00 00 00 01 04 01 60 00 00 03 02 01 00 09 05 01 03 01 01 00 0A 04 01 02 00 0B",
    // a data segment with flags that there aren't
    "00 61 73 6D 01 00 00 00 05 03 01 00 01 0B 08 01 03 00 41 00 0B 01 AA",
    // a segment of a function that isn't declared
    "00 61 73 6D 01 00 00 00 01 04 01 60 00 00 03 02 01 00 09 05 01 01 00 01 01 0A 04 01 02 00 0B",
    // a data segment in a memory that isn't declared
    "00 61 73 6D 01 00 00 00 05 03 01 00 01 0B 08 01 02 01 41 00 0B 01 AA",
    // a start function with a parameter, one with a result, one that isn't declared
    "00 61 73 6D 01 00 00 00 01 05 01 60 01 7F 00 03 02 01 00 08 01 00 0A 04 01 02 00 0B",
    "00 61 73 6D 01 00 00 00 01 05 01 60 00 01 7F 03 02 01 00 08 01 00 0A 06 01 04 00 41 00 0B",
    "00 61 73 6D 01 00 00 00 01 04 01 60 00 00 03 02 01 00 08 01 01 0A 04 01 02 00 0B",
];

#[test]
fn segments_stay(rt: HostRuntime) -> Result<(), Fail> {
    each_stays_by(rt.alloc(), "--no-producers", &SAME)
}

#[test]
fn segments_come_out(rt: HostRuntime) -> Result<(), Fail> {
    each_comes_out_by(rt.alloc(), "--no-producers", &OTHERS)?;
    each_settles(rt.alloc(), &OTHERS)
}

#[test]
fn invalid_segments_are_refused(rt: HostRuntime) -> Result<(), Fail> {
    each_is_refused_by(rt.alloc(), "--no-producers", &INVALID)
}
