//! Worked modules with names: which are read, which are written, and where.

use std::test::Fail;
use walrus_test_support::{demand_comes_out, each_comes_out_by};

// Modules, and what they are written as without producers.
const NAMED: [(&str, &str); 7] = [
    // a function, a local of it, a memory and a tag, named in a section that stands in front of the code; and a local and a type that aren't there
    (
        "00 61 73 6D 01 00 00 00 01 04 01 60 00 00 03 02 01 00 05 03 01 00 01 0D 03 01 00 00 07 0D 03 01 66 00 00 01 6D 02 00 01 74 04 00 00 25 04 6E 61 6D 65 01 07 02 00 01 46 09 01 78 02 06 01 00 01 00 01 4C 06 04 01 00 01 4D 0B 04 01 00 01 54 07 05 01 0A 09 01 07 01 01 7F 20 00 1A 0B",
        "00 61 73 6D 01 00 00 00 01 04 01 60 00 00 03 02 01 00 05 03 01 00 01 0D 03 01 00 00 07 0D 03 01 66 00 00 01 6D 02 00 01 74 04 00 0A 09 01 07 01 01 7F 20 00 1A 0B 00 1F 04 6E 61 6D 65 01 04 01 00 01 46 02 06 01 00 01 00 01 4C 06 04 01 00 01 4D 0B 04 01 00 01 54",
    ),
    // a function, named last by the second of two sections
    (
        "00 61 73 6D 01 00 00 00 01 04 01 60 00 00 03 02 01 00 07 05 01 01 66 00 00 0A 04 01 02 00 0B 00 0B 04 6E 61 6D 65 01 04 01 00 01 61 00 0B 04 6E 61 6D 65 01 04 01 00 01 62",
        "00 61 73 6D 01 00 00 00 01 04 01 60 00 00 03 02 01 00 07 05 01 01 66 00 00 0A 04 01 02 00 0B 00 0B 04 6E 61 6D 65 01 04 01 00 01 62",
    ),
    // the same by the second of two lists
    (
        "00 61 73 6D 01 00 00 00 01 04 01 60 00 00 03 02 01 00 07 05 01 01 66 00 00 0A 04 01 02 00 0B 00 11 04 6E 61 6D 65 01 04 01 00 01 61 01 04 01 00 01 62",
        "00 61 73 6D 01 00 00 00 01 04 01 60 00 00 03 02 01 00 07 05 01 01 66 00 00 0A 04 01 02 00 0B 00 0B 04 6E 61 6D 65 01 04 01 00 01 62",
    ),
    // lists in no order, the module's name last
    (
        "00 61 73 6D 01 00 00 00 01 05 01 60 01 7F 00 03 02 01 00 07 05 01 01 66 00 00 0A 07 01 05 00 20 00 1A 0B 00 17 04 6E 61 6D 65 02 06 01 00 01 00 01 78 01 04 01 00 01 61 00 02 01 6D",
        "00 61 73 6D 01 00 00 00 01 05 01 60 01 7F 00 03 02 01 00 07 05 01 01 66 00 00 0A 07 01 05 00 20 00 1A 0B 00 17 04 6E 61 6D 65 00 02 01 6D 01 04 01 00 01 61 02 06 01 00 01 00 01 78",
    ),
    // names without letters
    (
        "00 61 73 6D 01 00 00 00 01 05 01 60 01 7F 00 03 02 01 00 07 05 01 01 66 00 00 0A 07 01 05 00 20 00 1A 0B 00 11 04 6E 61 6D 65 01 03 01 00 00 02 05 01 00 01 00 00",
        "00 61 73 6D 01 00 00 00 01 05 01 60 01 7F 00 03 02 01 00 07 05 01 01 66 00 00 0A 07 01 05 00 20 00 1A 0B 00 11 04 6E 61 6D 65 01 03 01 00 00 02 05 01 00 01 00 00",
    ),
    // a parameter that the body doesn't use
    (
        "00 61 73 6D 01 00 00 00 01 05 01 60 01 7F 00 03 02 01 00 07 05 01 01 66 00 00 0A 04 01 02 00 0B 00 0D 04 6E 61 6D 65 02 06 01 00 01 00 01 78",
        "00 61 73 6D 01 00 00 00 01 05 01 60 01 7F 00 03 02 01 00 07 05 01 01 66 00 00 0A 04 01 02 00 0B",
    ),
    // a local of a function that is imported, and the module
    (
        "00 61 73 6D 01 00 00 00 01 04 01 60 00 00 02 07 01 01 6D 01 66 00 00 07 05 01 01 66 00 00 00 11 04 6E 61 6D 65 02 06 01 00 01 00 01 78 00 02 01 6D",
        "00 61 73 6D 01 00 00 00 01 04 01 60 00 00 02 07 01 01 6D 01 66 00 00 07 05 01 01 66 00 00 00 09 04 6E 61 6D 65 00 02 01 6D",
    ),
];

// The same, where not all that the sections say can be read, or names something.
const READ_IN_PART: [(&str, &str); 10] = [
    // a list that says more names than it has
    (
        "00 61 73 6D 01 00 00 00 01 04 01 60 00 00 03 02 01 00 07 05 01 01 66 00 00 0A 04 01 02 00 0B 00 0C 04 6E 61 6D 65 01 05 02 00 01 61 01",
        "00 61 73 6D 01 00 00 00 01 04 01 60 00 00 03 02 01 00 07 05 01 01 66 00 00 0A 04 01 02 00 0B 00 0B 04 6E 61 6D 65 01 04 01 00 01 61",
    ),
    // the same with as many as 32 bits count
    (
        "00 61 73 6D 01 00 00 00 01 04 01 60 00 00 03 02 01 00 07 05 01 01 66 00 00 0A 04 01 02 00 0B 00 0F 04 6E 61 6D 65 01 08 FF FF FF FF 0F 00 01 61",
        "00 61 73 6D 01 00 00 00 01 04 01 60 00 00 03 02 01 00 07 05 01 01 66 00 00 0A 04 01 02 00 0B 00 0B 04 6E 61 6D 65 01 04 01 00 01 61",
    ),
    // a name of the module that is no text
    (
        "00 61 73 6D 01 00 00 00 01 04 01 60 00 00 03 02 01 00 07 05 01 01 66 00 00 0A 04 01 02 00 0B 00 0A 04 6E 61 6D 65 00 03 01 6D FF",
        "00 61 73 6D 01 00 00 00 01 04 01 60 00 00 03 02 01 00 07 05 01 01 66 00 00 0A 04 01 02 00 0B",
    ),
    // the module's name, and a list that is longer than the section
    (
        "00 61 73 6D 01 00 00 00 01 04 01 60 00 00 03 02 01 00 07 05 01 01 66 00 00 0A 04 01 02 00 0B 00 0F 04 6E 61 6D 65 00 02 01 6D 01 05 01 00 01 61",
        "00 61 73 6D 01 00 00 00 01 04 01 60 00 00 03 02 01 00 07 05 01 01 66 00 00 0A 04 01 02 00 0B 00 09 04 6E 61 6D 65 00 02 01 6D",
    ),
    // a byte behind the last name of a list, so that the module's name behind it isn't read
    (
        "00 61 73 6D 01 00 00 00 01 04 01 60 00 00 03 02 01 00 07 05 01 01 66 00 00 0A 04 01 02 00 0B 00 10 04 6E 61 6D 65 01 05 01 00 01 61 00 00 02 01 6D",
        "00 61 73 6D 01 00 00 00 01 04 01 60 00 00 03 02 01 00 07 05 01 01 66 00 00 0A 04 01 02 00 0B 00 0B 04 6E 61 6D 65 01 04 01 00 01 61",
    ),
    // a byte behind the module's name, which gives none then, and ends the section
    (
        "00 61 73 6D 01 00 00 00 01 04 01 60 00 00 03 02 01 00 07 05 01 01 66 00 00 0A 04 01 02 00 0B 00 10 04 6E 61 6D 65 00 03 01 6D 00 01 04 01 00 01 61",
        "00 61 73 6D 01 00 00 00 01 04 01 60 00 00 03 02 01 00 07 05 01 01 66 00 00 0A 04 01 02 00 0B",
    ),
    // locals of a function that isn't there, which end the section
    (
        "00 61 73 6D 01 00 00 00 01 04 01 60 00 00 03 02 01 00 07 05 01 01 66 00 00 0A 04 01 02 00 0B 00 17 04 6E 61 6D 65 01 04 01 00 01 61 02 06 01 01 01 00 01 78 00 02 01 6D",
        "00 61 73 6D 01 00 00 00 01 04 01 60 00 00 03 02 01 00 07 05 01 01 66 00 00 0A 04 01 02 00 0B 00 0B 04 6E 61 6D 65 01 04 01 00 01 61",
    ),
    // a local that isn't there, which is passed over
    (
        "00 61 73 6D 01 00 00 00 01 05 01 60 01 7F 00 03 02 01 00 07 05 01 01 66 00 00 0A 07 01 05 00 20 00 1A 0B 00 10 04 6E 61 6D 65 02 09 01 00 02 01 01 79 00 01 78",
        "00 61 73 6D 01 00 00 00 01 05 01 60 01 7F 00 03 02 01 00 07 05 01 01 66 00 00 0A 07 01 05 00 20 00 1A 0B 00 0D 04 6E 61 6D 65 02 06 01 00 01 00 01 78",
    ),
    // a function that isn't there, which is passed over
    (
        "00 61 73 6D 01 00 00 00 01 04 01 60 00 00 03 02 01 00 07 05 01 01 66 00 00 0A 04 01 02 00 0B 00 0E 04 6E 61 6D 65 01 07 02 01 01 62 00 01 61",
        "00 61 73 6D 01 00 00 00 01 04 01 60 00 00 03 02 01 00 07 05 01 01 66 00 00 0A 04 01 02 00 0B 00 0B 04 6E 61 6D 65 01 04 01 00 01 61",
    ),
    // labels, fields and a list of a kind that nobody knows, which are passed over
    (
        "00 61 73 6D 01 00 00 00 01 04 01 60 00 00 03 02 01 00 07 05 01 01 66 00 00 0A 04 01 02 00 0B 00 1E 04 6E 61 6D 65 03 06 01 00 01 00 01 4C 0A 06 01 00 01 00 01 46 2A 01 00 01 04 01 00 01 61",
        "00 61 73 6D 01 00 00 00 01 04 01 60 00 00 03 02 01 00 07 05 01 01 66 00 00 0A 04 01 02 00 0B 00 0B 04 6E 61 6D 65 01 04 01 00 01 61",
    ),
];

#[test]
fn names_come_out(rt: HostRuntime) -> Result<(), Fail> {
    each_comes_out_by(rt.alloc(), "--no-producers", &NAMED)
}

#[test]
fn names_before_a_fault_come_out(rt: HostRuntime) -> Result<(), Fail> {
    each_comes_out_by(rt.alloc(), "--no-producers", &READ_IN_PART)
}

/// A module in which each item has a name, as wabt makes it, and a function, a type, and of each other kind the first are reached by nothing.
pub(crate) const ALL: &str =
    "00 61 73 6D 01 00 00 00 01 0D 03 60 01 7E 00 60 00 00 60 01 7F 01 7F 02 0D 02 01 65 01 78 00 01 01 65 01 69 00 01 03 04 03 01 01 02 04 07 02 70 00 01 70 00 02 05 05 02 00 01 00 02 06 0B 02 7F 00 41 01 0B 7F 00 41 02 0B 07 09 02 01 66 00 04 01 6D 02 01 09 0D 02 01 00 01 02 02 01 41 00 0B 00 01 03 0A 1C 03 02 00 0B 03 00 01 0B 13 02 01 7E 01 7F 20 00 21 02 10 01 10 03 20 02 23 01 6A 0B 0B 0B 02 01 01 78 02 01 41 00 0B 01 79 00 82 01 04 6E 61 6D 65 00 02 01 6D 01 1B 05 00 01 78 01 01 69 02 04 64 65 61 64 03 05 73 6D 61 6C 6C 04 05 6C 61 72 67 65 02 15 05 00 00 01 00 02 00 03 00 04 03 00 01 70 01 02 6E 6F 02 01 76 04 0F 03 00 04 67 6F 6E 65 01 02 74 76 02 02 74 69 05 08 02 00 02 74 30 01 01 74 06 0A 02 00 02 6D 30 01 03 6D 65 6D 07 08 02 00 02 67 30 01 01 67 08 08 02 00 02 65 30 01 01 65 09 08 02 00 02 64 30 01 01 64";

// What is reached of it, as wabt makes it of that alone, but for lists of no local.
const REACHED: &str =
    "00 61 73 6D 01 00 00 00 01 09 02 60 00 00 60 01 7F 01 7F 02 07 01 01 65 01 69 00 00 03 03 02 01 00 04 04 01 70 00 02 05 03 01 00 02 06 06 01 7F 00 41 02 0B 07 09 02 01 66 00 01 01 6D 02 00 09 07 01 00 41 00 0B 01 02 0A 17 02 11 01 01 7F 20 00 21 01 10 00 10 02 20 01 23 00 6A 0B 03 00 01 0B 0B 07 01 00 41 00 0B 01 79 00 53 04 6E 61 6D 65 00 02 01 6D 01 12 03 00 01 69 01 05 6C 61 72 67 65 02 05 73 6D 61 6C 6C 02 09 01 01 02 00 01 70 01 01 76 04 09 02 00 02 74 76 01 02 74 69 05 04 01 00 01 74 06 06 01 00 03 6D 65 6D 07 04 01 00 01 67 08 04 01 00 01 65 09 04 01 00 01 64";

#[test]
fn names_follow_their_items(rt: HostRuntime) -> Result<(), Fail> {
    each_comes_out_by(rt.alloc(), "--no-producers", &[(ALL, REACHED)])
}

// Two sections of names for one function.
const TWICE: &str =
    "00 61 73 6D 01 00 00 00 01 04 01 60 00 00 03 02 01 00 07 05 01 01 66 00 00 0A 04 01 02 00 0B 00 0B 04 6E 61 6D 65 01 04 01 00 01 61 00 0B 04 6E 61 6D 65 01 04 01 00 01 62";

// The function without a name.
const UNNAMED: &str =
    "00 61 73 6D 01 00 00 00 01 04 01 60 00 00 03 02 01 00 07 05 01 01 66 00 00 0A 04 01 02 00 0B";

#[test]
fn names_are_left_out(rt: HostRuntime) -> Result<(), Fail> {
    each_comes_out_by(rt.alloc(), "--no-names,--no-producers", &[(TWICE, UNNAMED)])
}

// A section `a`, producers with a fault, and names, all in front of the types.
const IN_FRONT: &str =
    "00 61 73 6D 01 00 00 00 00 03 01 61 01 00 15 09 70 72 6F 64 75 63 65 72 73 02 03 73 64 6B 01 01 61 01 31 05 00 0B 04 6E 61 6D 65 01 04 01 00 01 61 01 04 01 60 00 00 03 02 01 00 07 05 01 01 66 00 00 0A 04 01 02 00 0B";

// The names behind the code, the producers with walrus 0.28.0 among them, and `a`.
const BEHIND: &str =
    "00 61 73 6D 01 00 00 00 01 04 01 60 00 00 03 02 01 00 07 05 01 01 66 00 00 0A 04 01 02 00 0B 00 0B 04 6E 61 6D 65 01 04 01 00 01 61 00 30 09 70 72 6F 64 75 63 65 72 73 02 03 73 64 6B 01 01 61 01 31 0C 70 72 6F 63 65 73 73 65 64 2D 62 79 01 06 77 61 6C 72 75 73 06 30 2E 32 38 2E 30 00 03 01 61 01";

#[test]
fn names_stand_before_producers(rt: HostRuntime) -> Result<(), Fail> {
    demand_comes_out(rt.alloc(), &[], IN_FRONT, BEHIND)
}
