//! Worked modules: what becomes of the bytes that another encoder wrote.

use crate::wire::{Answer, demand_answer, each_is_answered, each_stays, is_written_as};
use std::alloc::Global;
use std::test::Fail;
use test_support::{bytes_of, demand};
use wasm_wire::{Raw, check, read_module};

// An empty function, exported as `f`, of the one type without parameters and results.
const WRITTEN: &str =
    "00 61 73 6D 01 00 00 00 01 04 01 60 00 00 03 02 01 00 07 05 01 01 66 00 00 0A 04 01 02 00 0B";

// A type that isn't final, and one whose supertype it is.
const SUPERTYPE: &str =
    "00 61 73 6D 01 00 00 00 01 0C 02 50 00 60 00 00 50 01 00 60 00 00 03 02 01 01 07 05 01 01 66 00 00 0A 04 01 02 00 0B";

// A memory of pages of one byte, and one of as many pages as 32 bits reach.
const SMALL_PAGES: &str = "00 61 73 6D 01 00 00 00 05 04 01 08 01 00 07 05 01 01 6D 02 00";

const ALL_PAGES: &str = "00 61 73 6D 01 00 00 00 05 05 01 00 80 80 04 07 05 01 01 6D 02 00";

// A custom section of the empty name.
const EMPTY_NAME: &str = "00 61 73 6D 01 00 00 00 00 01 00";

// Types in other spellings, and what is written of them.
const SPELLED: [(&str, &str); 3] = [
    // the type in a group with its count
    (
        "00 61 73 6D 01 00 00 00 01 06 01 4E 01 60 00 00 03 02 01 00 07 05 01 01 66 00 00 0A 04 01 02 00 0B",
        WRITTEN,
    ),
    // the type as a final one with no supertype
    (
        "00 61 73 6D 01 00 00 00 01 06 01 4F 00 60 00 00 03 02 01 00 07 05 01 01 66 00 00 0A 04 01 02 00 0B",
        WRITTEN,
    ),
    // a parameter that is a nullable reference to a function, in two bytes
    (
        "00 61 73 6D 01 00 00 00 01 06 01 60 01 63 70 00 03 02 01 00 07 05 01 01 66 00 00 0A 04 01 02 00 0B",
        "00 61 73 6D 01 00 00 00 01 05 01 60 01 70 00 03 02 01 00 07 05 01 01 66 00 00 0A 04 01 02 00 0B",
    ),
];

// Types that are their own supertype.
const OWN_SUPERTYPES: [&str; 2] = [
    "00 61 73 6D 01 00 00 00 01 0C 02 50 00 60 00 00 50 01 01 60 00 00 03 02 01 01 07 05 01 01 66 00 00 0A 04 01 02 00 0B",
    "00 61 73 6D 01 00 00 00 01 07 01 50 01 00 60 00 00",
];

fn each_is_written(alloc: Global, rows: &[(&str, &'static str)]) -> Result<(), Fail> {
    for (text, written) in rows {
        demand_answer(alloc, text, Answer::Written(written))?;
    }
    Ok(())
}

#[test]
fn types(rt: HostRuntime) -> Result<(), Fail> {
    each_is_written(rt.alloc(), &SPELLED)?;
    each_stays(rt.alloc(), &[SUPERTYPE])?;
    each_is_answered(rt.alloc(), &OWN_SUPERTYPES, Answer::Refused)
}

// Whether these bytes are a module whose groups of types, but for the empty first one, are written with the rest as the text says.
fn loses_its_first_group(alloc: Global, bytes: &[u8], text: &str) -> bool {
    match read_module(alloc, bytes) {
        Ok(mut raw) => check(alloc, &raw).is_ok()
            && is_written_without_empty_groups(alloc, &mut raw, text),
        Err(_) => false,
    }
}

fn is_written_without_empty_groups(alloc: Global, raw: &mut Raw<'_>, text: &str) -> bool {
    raw.types.retain(|group| !group.is_empty());
    raw.types.len() == 1 && is_written_as(alloc, raw, text)
}

// An empty group gives no type an index. The writer spells each group that it is given, so that a caller leaves this one out.
#[test]
fn an_empty_group(rt: HostRuntime) -> Result<(), Fail> {
    let text =
        "00 61 73 6D 01 00 00 00 01 06 02 4E 00 60 00 00 03 02 01 00 07 05 01 01 66 00 00 0A 04 01 02 00 0B";
    let bytes = bytes_of(rt.alloc(), text)?;
    demand(loses_its_first_group(rt.alloc(), &bytes, WRITTEN), text)
}

const BROKEN: [&str; 5] = [
    // a memory whose minimum is above its maximum
    "00 61 73 6D 01 00 00 00 05 04 01 01 02 01",
    // one that is shared and has no maximum
    "00 61 73 6D 01 00 00 00 05 03 01 02 01",
    // one of pages of two bytes
    "00 61 73 6D 01 00 00 00 05 04 01 08 01 01",
    // one of a page more than 32 bits reach
    "00 61 73 6D 01 00 00 00 05 05 01 00 81 80 04",
    // a count of more data segments than there are
    "00 61 73 6D 01 00 00 00 0C 05 FF FF FF FF 0F",
];

#[test]
fn memories_and_counts(rt: HostRuntime) -> Result<(), Fail> {
    each_is_answered(rt.alloc(), &BROKEN, Answer::Refused)?;
    each_stays(rt.alloc(), &[SMALL_PAGES, ALL_PAGES])
}

const NO_MODULES: [&str; 7] = [
    // the version of a component
    "00 61 73 6D 0D 00 01 00",
    // a section of no known kind
    "00 61 73 6D 01 00 00 00 0E 00",
    // a section whose size passes the end
    "00 61 73 6D 01 00 00 00 01 05 FF FF FF FF 0F",
    // a size of six bytes
    "00 61 73 6D 01 00 00 00 01 85 80 80 80 80 00 00 60 00 00",
    // a byte left in a section
    "00 61 73 6D 01 00 00 00 01 05 01 60 00 00 00",
    // custom sections: one without a name, one whose name is no text
    "00 61 73 6D 01 00 00 00 00 00",
    "00 61 73 6D 01 00 00 00 00 02 01 FF",
];

#[test]
fn framing(rt: HostRuntime) -> Result<(), Fail> {
    each_is_answered(rt.alloc(), &NO_MODULES, Answer::Malformed)?;
    each_stays(rt.alloc(), &[EMPTY_NAME])
}

// A memory under the names `costarring` and `liquid`, which have one number of 32 bits by FNV-1a.
const OF_ONE_NUMBER: &str =
    "00 61 73 6D 01 00 00 00 05 03 01 00 00 07 17 02 0A 63 6F 73 74 61 72 72 69 6E 67 02 00 06 6C 69 71 75 69 64 02 00";

// The same, and one of them twice.
const ONE_TWICE: [&str; 2] = [
    "00 61 73 6D 01 00 00 00 05 03 01 00 00 07 24 03 0A 63 6F 73 74 61 72 72 69 6E 67 02 00 06 6C 69 71 75 69 64 02 00 0A 63 6F 73 74 61 72 72 69 6E 67 02 00",
    "00 61 73 6D 01 00 00 00 05 03 01 00 00 07 20 03 06 6C 69 71 75 69 64 02 00 0A 63 6F 73 74 61 72 72 69 6E 67 02 00 06 6C 69 71 75 69 64 02 00",
];

#[test]
fn names_of_one_number(rt: HostRuntime) -> Result<(), Fail> {
    each_stays(rt.alloc(), &[OF_ONE_NUMBER])?;
    each_is_answered(rt.alloc(), &ONE_TWICE, Answer::Refused)
}
