//! Operators over indices, read and written back. They are given as text, in hexadecimal.

use std::alloc::Global;
use std::test::Fail;
use test_support::{bytes_of, demand, demand_bytes};
use wasm_operators::{RawOperator, is_operator, kinds, read_operator, write_operator};

// Fails where the operator is none that bytes spell, or isn't written so.
fn demand_written(alloc: Global, operator: &RawOperator, text: &str) -> Result<(), Fail> {
    demand(kinds(operator.op).is_some(), text)?;
    demand(is_operator(operator), text)?;
    let mut written = Vec::new(alloc);
    write_operator(&mut written, operator)?;
    demand_bytes(alloc, &written, text, text)
}

// Fails where no operator stands there, or something behind it, or it isn't written so.
fn come_back(alloc: Global, bytes: &[u8], text: &str) -> Result<(), Fail> {
    let Ok((operator, rest)) = read_operator(alloc, bytes) else {
        return demand(false, text);
    };
    demand(rest.is_empty(), text)?;
    demand_written(alloc, &operator, text)
}

// Each operator, and what is written of it.
const ROWS: [(&str, &str); 24] = [
    // nop, and block with no result, a value and the index of a type
    ("01", "01"),
    ("02 40", "02 40"),
    ("02 7F", "02 7F"),
    ("02 C0 00", "02 C0 00"),
    // try_table with a clause of each kind
    (
        "1F 40 04 00 05 01 01 06 02 02 03 03 04",
        "1F 40 04 00 05 01 01 06 02 02 03 03 04",
    ),
    // br_table, call_indirect, select with a type
    ("0E 02 00 01 02", "0E 02 00 01 02"),
    ("11 03 00", "11 03 00"),
    ("1C 01 6F", "1C 01 6F"),
    // accesses to memory 0, to memory 0 with its bit, and to memory 1
    ("28 02 08", "28 02 08"),
    ("28 42 00 08", "28 02 08"),
    ("28 42 01 80 01", "28 42 01 80 01"),
    // constants, of which one is longer than it has to be
    ("41 FF 00", "41 FF 00"),
    ("41 85 00", "41 05"),
    ("42 80 7F", "42 80 7F"),
    ("43 00 00 80 3F", "43 00 00 80 3F"),
    ("44 00 00 00 00 00 00 F0 3F", "44 00 00 00 00 00 00 F0 3F"),
    // ref.null func, br_on_cast
    ("D0 70", "D0 70"),
    ("FB 18 03 00 6E 6D", "FB 18 03 00 6E 6D"),
    // memory.init, and i64.add128
    ("FC 08 01 00", "FC 08 01 00"),
    ("FC 13", "FC 13"),
    // v128.const, v128.load8_lane, a relaxed operator
    (
        "FD 0C 00 01 02 03 04 05 06 07 08 09 0A 0B 0C 0D 0E 0F",
        "FD 0C 00 01 02 03 04 05 06 07 08 09 0A 0B 0C 0D 0E 0F",
    ),
    ("FD 54 00 00 0F", "FD 54 00 00 0F"),
    ("FD 93 02", "FD 93 02"),
    // atomic.fence
    ("FE 03 00", "FE 03 00"),
];

#[test]
fn operators_come_back(rt: HostRuntime) -> Result<(), Fail> {
    for (input, output) in &ROWS {
        let bytes = bytes_of(rt.alloc(), input)?;
        come_back(rt.alloc(), &bytes, output)?;
    }
    Ok(())
}

// No operator, a number too large, a catch clause of kind 4, a missing lane, an index below zero.
const REFUSED: [&str; 7] = [
    "27",
    "FF 00",
    "FB 80 80 04",
    "FD 94 02",
    "1F 40 01 04 00",
    "FD 54 00 00",
    "02 C0 7F",
];

#[test]
fn others_are_refused(rt: HostRuntime) -> Result<(), Fail> {
    for input in &REFUSED {
        let bytes = bytes_of(rt.alloc(), input)?;
        demand(read_operator(rt.alloc(), &bytes).is_err(), input)?;
    }
    Ok(())
}
