//! Worked modules: what goes in and what has to come out, byte for byte.

use crate::reports::{each_same_settles, each_settles};
use std::alloc::Global;
use std::test::Fail;
use test_support::{add_bytes, demand};
use walrus_test_support::{
    each_comes_out_by, each_is_refused_by, each_stays_by, is_invalid, run, words_of,
};

// A legacy try with an i32 as result, and a catch of a tag that carries an i32.
const LEGACY: &str =
    "00 61 73 6D 01 00 00 00 01 08 02 60 00 00 60 01 7F 00 03 02 01 00 0D 03 01 00 01 07 05 01 01 66 00 00 0A 0C 01 0A 00 06 7F 41 00 07 00 0B 1A 0B";

// Modules that are written as they are read.
const SAME: [&str; 15] = [
    // the header alone
    "00 61 73 6D 01 00 00 00",
    // the start function alone
    "00 61 73 6D 01 00 00 00 01 04 01 60 00 00 03 02 01 00 08 01 00 0A 04 01 02 00 0B",
    // a reference to a function that is exported
    "00 61 73 6D 01 00 00 00 01 04 01 60 00 00 03 02 01 00 07 05 01 01 66 00 00 0A 07 01 05 00 D2 00 1A 0B",
    // a function that asks for the size of the memory, and the memory with it
    "00 61 73 6D 01 00 00 00 01 05 01 60 00 01 7F 03 02 01 00 05 03 01 00 01 07 05 01 01 66 00 00 0A 06 01 04 00 3F 00 0B",
    // a supertype stays
    "00 61 73 6D 01 00 00 00 01 0C 02 50 00 60 00 00 50 01 00 60 00 00 03 02 01 01 07 05 01 01 66 00 00 0A 04 01 02 00 0B",
    // a memory of pages of one byte, and one of as many pages as 32 bits address
    "00 61 73 6D 01 00 00 00 05 04 01 08 01 00 07 05 01 01 6D 02 00",
    "00 61 73 6D 01 00 00 00 05 05 01 00 80 80 04 07 05 01 01 6D 02 00",
    // an active segment, and with it its table and its function
    "00 61 73 6D 01 00 00 00 01 04 01 60 00 00 03 02 01 00 04 04 01 70 00 01 09 07 01 00 41 00 0B 01 00 0A 04 01 02 00 0B",
    // one in a table that an import brings
    "00 61 73 6D 01 00 00 00 01 04 01 60 00 00 02 09 01 01 6D 01 74 01 70 00 01 03 02 01 00 09 07 01 00 41 00 0B 01 00 0A 04 01 02 00 0B",
    // a function that drops a segment, and the memory that stays with data
    "00 61 73 6D 01 00 00 00 01 04 01 60 00 00 03 02 01 00 05 03 01 00 01 07 05 01 01 66 00 00 0C 01 01 0A 07 01 05 00 FC 09 00 0B 0B 04 01 01 01 AA",
    // a global whose initialiser reads an earlier one
    "00 61 73 6D 01 00 00 00 06 0B 02 7F 00 41 00 0B 7F 00 23 00 0B 07 05 01 01 67 03 01",
    // a global of a reference to a structure, which stays with its group
    "00 61 73 6D 01 00 00 00 01 09 01 4E 02 5F 00 5F 01 7F 00 06 07 01 63 00 00 D0 00 0B 07 05 01 01 67 03 00",
    // a table with a maximum
    "00 61 73 6D 01 00 00 00 04 05 01 70 01 01 02 07 05 01 01 74 01 00",
    // a legacy handler whose type is there, which is found
    "00 61 73 6D 01 00 00 00 01 0D 03 60 00 00 60 01 7F 00 60 01 7F 01 7F 03 02 01 00 0D 03 01 00 01 07 05 01 01 66 00 00 0A 0C 01 0A 00 06 7F 41 00 07 00 0B 1A 0B",
    // a legacy handler that takes nothing and gives nothing needs no type
    "00 61 73 6D 01 00 00 00 01 04 01 60 00 00 03 02 01 00 0D 03 01 00 00 07 05 01 01 66 00 00 0A 09 01 07 00 06 40 07 00 0B 0B",
];

// Inputs and what they come to, in hexadecimal.
const OTHERS: [(&str, &str); 26] = [
    // two empty functions, of which the second is exported
    (
        "00 61 73 6D 01 00 00 00 01 04 01 60 00 00 03 03 02 00 00 07 05 01 01 66 00 01 0A 07 02 02 00 0B 02 00 0B",
        "00 61 73 6D 01 00 00 00 01 04 01 60 00 00 03 02 01 00 07 05 01 01 66 00 00 0A 04 01 02 00 0B",
    ),
    // the larger of two exported functions comes first
    (
        "00 61 73 6D 01 00 00 00 01 04 01 60 00 00 03 03 02 00 00 07 09 02 01 61 00 00 01 62 00 01 0A 0A 02 02 00 0B 05 00 41 00 1A 0B",
        "00 61 73 6D 01 00 00 00 01 04 01 60 00 00 03 03 02 00 00 07 09 02 01 61 00 01 01 62 00 00 0A 0A 02 05 00 41 00 1A 0B 02 00 0B",
    ),
    // a size spelled in five bytes
    (
        "00 61 73 6D 01 00 00 00 01 84 80 80 80 00 01 60 00 00 03 03 02 00 00 07 05 01 01 66 00 01 0A 07 02 02 00 0B 02 00 0B",
        "00 61 73 6D 01 00 00 00 01 04 01 60 00 00 03 02 01 00 07 05 01 01 66 00 00 0A 04 01 02 00 0B",
    ),
    // a function that calls another keeps it, and the third goes
    (
        "00 61 73 6D 01 00 00 00 01 04 01 60 00 00 03 04 03 00 00 00 07 05 01 01 66 00 00 0A 0C 03 04 00 10 02 0B 02 00 0B 02 00 0B",
        "00 61 73 6D 01 00 00 00 01 04 01 60 00 00 03 03 02 00 00 07 05 01 01 66 00 00 0A 09 02 04 00 10 01 0B 02 00 0B",
    ),
    // types that nothing names go
    (
        "00 61 73 6D 01 00 00 00 01 09 02 60 01 7F 01 7E 60 00 00 03 02 01 01 07 05 01 01 66 00 00 0A 04 01 02 00 0B",
        "00 61 73 6D 01 00 00 00 01 04 01 60 00 00 03 02 01 00 07 05 01 01 66 00 00 0A 04 01 02 00 0B",
    ),
    // of two declared locals the first isn't used, so the second becomes the one that is declared; a block
    (
        "00 61 73 6D 01 00 00 00 01 04 01 60 00 00 03 02 01 00 07 05 01 01 66 00 00 0A 0C 01 0A 01 02 7F 20 01 1A 02 40 0B 0B",
        "00 61 73 6D 01 00 00 00 01 04 01 60 00 00 03 02 01 00 07 05 01 01 66 00 00 0A 0C 01 0A 01 01 7F 20 00 1A 02 40 0B 0B",
    ),
    // of two functions the second is the start function
    (
        "00 61 73 6D 01 00 00 00 01 04 01 60 00 00 03 03 02 00 00 08 01 01 0A 0A 02 05 00 41 00 1A 0B 02 00 0B",
        "00 61 73 6D 01 00 00 00 01 04 01 60 00 00 03 02 01 00 08 01 00 0A 04 01 02 00 0B",
    ),
    // a reference to a function that nothing declares
    (
        "00 61 73 6D 01 00 00 00 01 04 01 60 00 00 03 03 02 00 00 07 05 01 01 66 00 00 0A 0A 02 05 00 D2 01 1A 0B 02 00 0B",
        "00 61 73 6D 01 00 00 00 01 04 01 60 00 00 03 03 02 00 00 07 05 01 01 66 00 00 09 05 01 03 00 01 01 0A 0A 02 05 00 D2 01 1A 0B 02 00 0B",
    ),
    // of two imported functions the second is exported
    (
        "00 61 73 6D 01 00 00 00 01 04 01 60 00 00 02 0D 02 01 6D 01 61 00 00 01 6D 01 62 00 00 07 05 01 01 66 00 01",
        "00 61 73 6D 01 00 00 00 01 04 01 60 00 00 02 07 01 01 6D 01 62 00 00 07 05 01 01 66 00 00",
    ),
    // a memory that nothing reaches
    (
        "00 61 73 6D 01 00 00 00 05 03 01 00 01",
        "00 61 73 6D 01 00 00 00",
    ),
    // of two memories the second is exported
    (
        "00 61 73 6D 01 00 00 00 05 05 02 00 01 00 02 07 05 01 01 6D 02 01",
        "00 61 73 6D 01 00 00 00 05 03 01 00 02 07 05 01 01 6D 02 00",
    ),
    // a tag that nothing reaches, and its type
    (
        "00 61 73 6D 01 00 00 00 01 04 01 60 00 00 0D 03 01 00 00",
        "00 61 73 6D 01 00 00 00",
    ),
    // of two tags a function throws the second
    (
        "00 61 73 6D 01 00 00 00 01 04 01 60 00 00 03 02 01 00 0D 05 02 00 00 00 00 07 05 01 01 66 00 00 0A 06 01 04 00 08 01 0B",
        "00 61 73 6D 01 00 00 00 01 04 01 60 00 00 03 02 01 00 0D 03 01 00 00 07 05 01 01 66 00 00 0A 06 01 04 00 08 00 0B",
    ),
    // a type alone in a group that is spelled as one
    (
        "00 61 73 6D 01 00 00 00 01 06 01 4E 01 60 00 00 03 02 01 00 07 05 01 01 66 00 00 0A 04 01 02 00 0B",
        "00 61 73 6D 01 00 00 00 01 04 01 60 00 00 03 02 01 00 07 05 01 01 66 00 00 0A 04 01 02 00 0B",
    ),
    // an empty group, which has no index
    (
        "00 61 73 6D 01 00 00 00 01 06 02 4E 00 60 00 00 03 02 01 00 07 05 01 01 66 00 00 0A 04 01 02 00 0B",
        "00 61 73 6D 01 00 00 00 01 04 01 60 00 00 03 02 01 00 07 05 01 01 66 00 00 0A 04 01 02 00 0B",
    ),
    // a final type without supertype that says so
    (
        "00 61 73 6D 01 00 00 00 01 06 01 4F 00 60 00 00 03 02 01 00 07 05 01 01 66 00 00 0A 04 01 02 00 0B",
        "00 61 73 6D 01 00 00 00 01 04 01 60 00 00 03 02 01 00 07 05 01 01 66 00 00 0A 04 01 02 00 0B",
    ),
    // a nullable reference to an abstract heap type in two bytes
    (
        "00 61 73 6D 01 00 00 00 01 06 01 60 01 63 70 00 03 02 01 00 07 05 01 01 66 00 00 0A 04 01 02 00 0B",
        "00 61 73 6D 01 00 00 00 01 05 01 60 01 70 00 03 02 01 00 07 05 01 01 66 00 00 0A 04 01 02 00 0B",
    ),
    // 50,000 declared locals, as many as there may be
    (
        "00 61 73 6D 01 00 00 00 01 04 01 60 00 00 03 02 01 00 07 05 01 01 66 00 00 0A 08 01 06 01 D0 86 03 7F 0B",
        "00 61 73 6D 01 00 00 00 01 04 01 60 00 00 03 02 01 00 07 05 01 01 66 00 00 0A 04 01 02 00 0B",
    ),
    // an active segment that names table 0, and whose functions are expressions
    (
        "00 61 73 6D 01 00 00 00 01 04 01 60 00 00 02 09 01 01 6D 01 74 01 70 00 01 03 02 01 00 09 0B 01 06 00 41 00 0B 70 01 D2 00 0B 0A 04 01 02 00 0B",
        "00 61 73 6D 01 00 00 00 01 04 01 60 00 00 02 09 01 01 6D 01 74 01 70 00 01 03 02 01 00 09 09 01 04 41 00 0B 01 D2 00 0B 0A 04 01 02 00 0B",
    ),
    // a passive segment that nothing names, and a memory that nothing reaches
    (
        "00 61 73 6D 01 00 00 00 05 03 01 00 01 0C 01 01 0B 04 01 01 01 AA",
        "00 61 73 6D 01 00 00 00",
    ),
    // an active segment that names its memory, and a data count that isn't due
    (
        "00 61 73 6D 01 00 00 00 05 03 01 00 01 0C 01 01 0B 08 01 02 00 41 00 0B 01 AA",
        "00 61 73 6D 01 00 00 00 05 03 01 00 01 0B 07 01 00 41 00 0B 01 AA",
    ),
    // a global that nothing reaches
    (
        "00 61 73 6D 01 00 00 00 06 06 01 7F 00 41 00 0B",
        "00 61 73 6D 01 00 00 00",
    ),
    // of two tables the second is exported
    (
        "00 61 73 6D 01 00 00 00 04 07 02 70 00 01 6F 00 02 07 05 01 01 74 01 01",
        "00 61 73 6D 01 00 00 00 04 04 01 6F 00 02 07 05 01 01 74 01 00",
    ),
    // a legacy handler of a type that isn't there, which is added
    (
        LEGACY,
        "00 61 73 6D 01 00 00 00 01 0D 03 60 00 00 60 01 7F 00 60 01 7F 01 7F 03 02 01 00 0D 03 01 00 01 07 05 01 01 66 00 00 0A 0C 01 0A 00 06 7F 41 00 07 00 0B 1A 0B",
    ),
    // the same where an import brings the tag
    (
        "00 61 73 6D 01 00 00 00 01 08 02 60 00 00 60 01 7F 00 02 08 01 01 6D 01 74 04 00 01 03 02 01 00 07 05 01 01 66 00 00 0A 0C 01 0A 00 06 7F 41 00 07 00 0B 1A 0B",
        "00 61 73 6D 01 00 00 00 01 0D 03 60 00 00 60 01 7F 00 60 01 7F 01 7F 02 08 01 01 6D 01 74 04 00 01 03 02 01 00 07 05 01 01 66 00 00 0A 0C 01 0A 00 06 7F 41 00 07 00 0B 1A 0B",
    ),
    // a catch_all of two results needs the type of nothing to these
    (
        "00 61 73 6D 01 00 00 00 01 0A 02 60 00 00 60 01 7F 02 7F 7F 03 02 01 00 07 05 01 01 66 00 00 0A 12 01 10 00 41 00 06 01 41 00 19 41 00 41 00 0B 1A 1A 0B",
        "00 61 73 6D 01 00 00 00 01 0F 03 60 00 00 60 01 7F 02 7F 7F 60 00 02 7F 7F 03 02 01 00 07 05 01 01 66 00 00 0A 12 01 10 00 41 00 06 01 41 00 19 41 00 41 00 0B 1A 1A 0B",
    ),
];

// Inputs that are refused as invalid.
const INVALID: [&str; 27] = [
    // the version of a component, a section of no known kind, a size past the end, one in six bytes, and a byte too many in a section
    "00 61 73 6D 0D 00 01 00",
    "00 61 73 6D 01 00 00 00 0E 00",
    "00 61 73 6D 01 00 00 00 01 05 FF FF FF FF 0F",
    "00 61 73 6D 01 00 00 00 01 85 80 80 80 80 00 00 60 00 00",
    "00 61 73 6D 01 00 00 00 01 05 01 60 00 00 00",
    // seven bytes of the header
    "00 61 73 6D 01 00 00",
    // the function section before the type section
    "00 61 73 6D 01 00 00 00 03 02 01 00 01 04 01 60 00 00 0A 04 01 02 00 0B",
    // two type sections
    "00 61 73 6D 01 00 00 00 01 04 01 60 00 00 01 04 01 60 00 00",
    // a section that ends early
    "00 61 73 6D 01 00 00 00 01 05 01 60 00 00",
    // two functions and one body
    "00 61 73 6D 01 00 00 00 01 04 01 60 00 00 03 03 02 00 00 0A 04 01 02 00 0B",
    // a size of more than 32 bits
    "00 61 73 6D 01 00 00 00 01 84 80 80 80 10 01 60 00 00 03 03 02 00 00 07 05 01 01 66 00 01 0A 07 02 02 00 0B 02 00 0B",
    // one export name twice
    "00 61 73 6D 01 00 00 00 01 04 01 60 00 00 03 02 01 00 07 09 02 01 66 00 00 01 66 00 00 0A 04 01 02 00 0B",
    // a call of a function that isn't declared
    "00 61 73 6D 01 00 00 00 01 04 01 60 00 00 03 02 01 00 0A 06 01 04 00 10 01 0B",
    // bytes behind the end of a body
    "00 61 73 6D 01 00 00 00 01 04 01 60 00 00 03 02 01 00 0A 06 01 04 00 0B 01 0B",
    // a type that is its own supertype
    "00 61 73 6D 01 00 00 00 01 0C 02 50 00 60 00 00 50 01 01 60 00 00 03 02 01 01 07 05 01 01 66 00 00 0A 04 01 02 00 0B",
    // a supertype that is no earlier type
    "00 61 73 6D 01 00 00 00 01 07 01 50 01 00 60 00 00",
    // one declared local more than there may be, and 2^33 - 2 of them
    "00 61 73 6D 01 00 00 00 01 04 01 60 00 00 03 02 01 00 07 05 01 01 66 00 00 0A 08 01 06 01 D1 86 03 7F 0B",
    "00 61 73 6D 01 00 00 00 01 04 01 60 00 00 03 02 01 00 07 05 01 01 66 00 00 0A 10 01 0E 02 FF FF FF FF 0F 7F FF FF FF FF 0F 7F 0B",
    // a memory whose minimum is above its maximum, a shared one without a maximum, a page of two bytes, 65,537 pages
    "00 61 73 6D 01 00 00 00 05 04 01 01 02 01",
    "00 61 73 6D 01 00 00 00 05 03 01 02 01",
    "00 61 73 6D 01 00 00 00 05 04 01 08 01 01",
    "00 61 73 6D 01 00 00 00 05 05 01 00 81 80 04",
    // a global whose initialiser reads a later one, one whose initialiser has no operator
    "00 61 73 6D 01 00 00 00 06 0B 02 7F 00 23 01 0B 7F 00 41 00 0B",
    // a segment of elements that is active in no table that is there
    "00 61 73 6D 01 00 00 00 01 04 01 60 00 00 03 02 01 00 09 07 01 00 41 00 0B 01 00 0A 04 01 02 00 0B",
    // a segment whose offset is of 64 bits, in a memory of 32-bit addresses
    "00 61 73 6D 01 00 00 00 05 03 01 00 01 0C 01 01 0B 08 01 02 00 42 00 0B 01 AA",
    "00 61 73 6D 01 00 00 00 06 04 01 7F 00 0B",
    // a table whose initialiser reads a global of the module
    "00 61 73 6D 01 00 00 00 04 09 01 40 00 70 00 00 23 00 0B 06 06 01 70 00 D0 70 0B",
];

#[test]
fn rows_come_out(rt: HostRuntime) -> Result<(), Fail> {
    each_stays_by(rt.alloc(), "--no-producers", &SAME)?;
    each_same_settles(rt.alloc(), &SAME)?;
    each_comes_out_by(rt.alloc(), "--no-producers", &OTHERS)?;
    each_settles(rt.alloc(), &OTHERS)
}

#[test]
fn invalid_rows_are_refused(rt: HostRuntime) -> Result<(), Fail> {
    each_is_refused_by(rt.alloc(), "--no-producers", &INVALID)
}

#[test]
fn legacy_exceptions_are_refused_where_they_are_off(rt: HostRuntime) -> Result<(), Fail> {
    each_is_refused_by(rt.alloc(), "--no-producers,--no-legacy", &[LEGACY])
}

// Modules, with a bar behind each beginning that is a module too: it ends where a section does, and no rule refuses it.
const BEGINNINGS: [&str; 4] = [
    // two empty functions, of which the second is exported
    "00 61 73 6D 01 00 00 00 | 01 04 01 60 00 00 | 03 03 02 00 00 07 05 01 01 66 00 01 0A 07 02 02 00 0B 02 00 0B",
    // a memory and a passive data segment
    "00 61 73 6D 01 00 00 00 | 05 03 01 00 01 | 0C 01 01 0B 04 01 01 01 AA",
    // a function that drops a data segment
    "00 61 73 6D 01 00 00 00 | 01 04 01 60 00 00 | 03 02 01 00 05 03 01 00 01 07 05 01 01 66 00 00 0C 01 01 0A 07 01 05 00 FC 09 00 0B 0B 04 01 01 01 AA",
    // sections `a` and `b`, debug information, and dynamic linking between two sections
    "00 61 73 6D 01 00 00 00 | 00 03 01 61 01 | 00 0D 0B 2E 64 65 62 75 67 5F 69 6E 66 6F 02 | 01 04 01 60 00 00 | 03 02 01 00 07 05 01 01 66 00 00 00 0A 08 64 79 6C 69 6E 6B 2E 30 03 0A 04 01 02 00 0B | 00 03 01 62 04",
];

fn is_beginning_answered(
    alloc: Global,
    words: &[String],
    beginning: &[u8],
    is_module: bool,
) -> bool {
    let outcome = run(alloc, words, beginning);
    if is_module {
        outcome.status == 0
    } else {
        is_invalid(&outcome)
    }
}

fn is_step_answered(
    alloc: Global,
    words: &[String],
    beginning: &mut Vec<u8>,
    byte: &str,
    is_module: bool,
) -> bool {
    is_beginning_answered(alloc, words, beginning, is_module) && add_bytes(beginning, byte)
}

// Whether each beginning that ends in this part is answered, and the one in front of it, which is a module unless it is empty.
fn is_part_answered(alloc: Global, words: &[String], beginning: &mut Vec<u8>, part: &str) -> bool {
    let mut is_module = !beginning.is_empty();
    for byte in part.split_whitespace() {
        if !is_step_answered(alloc, words, beginning, byte, is_module) {
            return false;
        }
        is_module = false;
    }
    true
}

// Whether each beginning is answered, from the empty one to that without the last byte.
fn are_beginnings_answered(alloc: Global, words: &[String], text: &str) -> bool {
    let mut beginning = Vec::new(alloc);
    for part in text.split('|') {
        if !is_part_answered(alloc, words, &mut beginning, part) {
            return false;
        }
    }
    true
}

fn each_is_cut_off(alloc: Global, words: &[String], rows: &[&str]) -> Result<(), Fail> {
    for text in rows {
        demand(are_beginnings_answered(alloc, words, text), text)?;
    }
    Ok(())
}

#[test]
fn beginnings_are_refused(rt: HostRuntime) -> Result<(), Fail> {
    let words = words_of(rt.alloc(), "--no-producers")?;
    each_is_cut_off(rt.alloc(), &words, &BEGINNINGS)
}
