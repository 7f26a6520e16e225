//! Bodies that are scanned, each behind the byte of `nop` and before that of the last `end`, from the instructions of the standard by hand.

use std::alloc::Global;
use std::test::Fail;
use test_support::{add_bytes, demand};
use wasm_text::{Limits, Unmarked, scan_body};

/// Operators, and their marks, where each local has one: sixteen times the offset, where `nop` stands at 0, and the kind.
const ROWS: [(&str, &str); 41] = [
    ("00", ""),
    ("6A", ""),
    ("04 40 05 0B", ""),
    ("04 40 0B", ""),
    ("04 40 05 02 40 0B 0B", ""),
    ("20 00", "20"),
    ("21 C8 01", "20"),
    ("10 03", "21"),
    ("10 83 80 80 80 00", "21"),
    ("24 01", "22"),
    ("14 04", "23"),
    ("25 01", "24"),
    ("11 02 00", "23 34"),
    ("11 82 80 80 80 00 80 00", "23 74"),
    ("28 02 08", ""),
    ("36 02 E5 8E 26", ""),
    ("28 82 00 08", "26"),
    ("36 02 E5 8E A6 00", "26"),
    ("3F 00", "25"),
    ("40 00", "25"),
    ("41 7F", ""),
    ("41 C0 BB 78", ""),
    ("41 C0 BB F8 7F", "28"),
    ("42 3F", ""),
    ("42 80 01", ""),
    ("42 C0 00", "29"),
    ("43 00 00 80 3F", ""),
    ("44 00 00 00 00 00 00 F0 3F", ""),
    ("02 40 0B", ""),
    ("04 7F 0B", ""),
    ("03 7B 0B", ""),
    ("03 03 0B", "2A"),
    ("02 83 00 0B", "2A"),
    ("02 40 0C 01 0B", ""),
    ("0D 80 00", "27"),
    ("02 40 0E 02 00 01 00 0B", ""),
    ("02 40 0E 81 00 00 81 00 0B", "47 77"),
    ("FC 0A 00 00", "35 45"),
    ("FC 0B 00", "35"),
    ("FC 00", ""),
    ("FC 10 01", "34"),
];

/// The same where locals from the second on have marks only where they are padded.
const FEWER: [(&str, &str); 4] = [
    ("20 00", "20"),
    ("20 01", ""),
    ("21 C8 01", ""),
    ("21 C8 81 00", "20"),
];

/// What isn't scanned: `ref.func`, segments, legacy exceptions, tags and wide arithmetic; an index past its count; a memory behind the
/// flags; too large a number; bytes that end too early, or go on behind the last `end`; an `else` without its `if`; and bytes that no operator
/// has.
const OTHERS: [&str; 22] = [
    "D2 00",
    "FC 08 00 00",
    "FC 09 00",
    "FC 0D 00",
    "06 40",
    "19",
    "08 00",
    "FC 13",
    "20 AC 02",
    "0C 01",
    "02 40 0C 02 0B",
    "0B",
    "02 40",
    "05",
    "02 40 05 0B",
    "04 40 05 05 0B",
    "28 42 00 00",
    "10 80 80 80 80 70",
    "20",
    "44 00 00 00 00 00 00 F0",
    "41 FF FF FF FF 0F",
    "FF",
];

/// How many items of each kind there are, and how many locals; how many blocks are open counts for nothing.
pub(crate) const LIMITS: Limits = Limits {
    functions: 5,
    globals: 5,
    types: 5,
    tables: 2,
    memories: 1,
    locals: 300,
    labels: 2,
};

fn are_marks(alloc: Global, marks: &[u32], wanted: &str) -> bool {
    let mut bytes = Vec::new(alloc);
    if !add_bytes(&mut bytes, wanted) || bytes.len() != marks.len() {
        return false;
    }
    for place in 0..marks.len() {
        if u32::from(bytes[place]) != marks[place] {
            return false;
        }
    }
    true
}

/// Where locals from `first` on need no marks.
pub(crate) fn unmarked_from(alloc: Global, first: u32) -> Unmarked {
    Unmarked {
        first,
        named: Vec::new(alloc),
        accessed: false,
    }
}

fn has_marks(alloc: Global, first: u32, bytes: &[u8], wanted: &str) -> bool {
    let mut opened = Vec::new(alloc);
    let mut unmarked = unmarked_from(alloc, first);
    let mut marks = Vec::new(alloc);
    match scan_body(bytes, &LIMITS, &mut opened, &mut unmarked, &mut marks) {
        Ok(Some(_count)) => are_marks(alloc, &marks, wanted),
        _ => false,
    }
}

fn is_other(alloc: Global, bytes: &[u8]) -> bool {
    let mut opened = Vec::new(alloc);
    let mut unmarked = unmarked_from(alloc, 0);
    let mut marks = Vec::new(alloc);
    match scan_body(bytes, &LIMITS, &mut opened, &mut unmarked, &mut marks) {
        Ok(found) => found.is_none(),
        Err(_) => false,
    }
}

// Whether a scan that leaves marks of locals from `first` on out flags just local 200, and memory 0 as wanted.
fn flags_one(alloc: Global, first: u32, bytes: &[u8], accesses: bool) -> bool {
    let mut opened = Vec::new(alloc);
    let mut unmarked = unmarked_from(alloc, first);
    let mut marks = Vec::new(alloc);
    match scan_body(bytes, &LIMITS, &mut opened, &mut unmarked, &mut marks) {
        Ok(Some(_count)) => is_flagged_alone(&unmarked.named, 200) && unmarked.accessed == accesses,
        _ => false,
    }
}

fn is_flagged_alone(flags: &[bool], wanted: usize) -> bool {
    for place in 0..flags.len() {
        if flags[place] != (place == wanted) {
            return false;
        }
    }
    wanted < flags.len()
}

fn add_body(bytes: &mut Vec<u8>, text: &str) -> bool {
    add_bytes(bytes, "01") && add_bytes(bytes, text) && add_bytes(bytes, "0B")
}

fn is_row(alloc: Global, first: u32, text: &str, wanted: &str) -> bool {
    let mut bytes = Vec::new(alloc);
    add_body(&mut bytes, text) && has_marks(alloc, first, &bytes, wanted)
}

fn tells(alloc: Global, first: u32, text: &str, accesses: bool) -> bool {
    let mut bytes = Vec::new(alloc);
    add_body(&mut bytes, text) && flags_one(alloc, first, &bytes, accesses)
}

fn is_refused(alloc: Global, text: &str) -> bool {
    let mut bytes = Vec::new(alloc);
    add_body(&mut bytes, text) && is_other(alloc, &bytes)
}

#[test]
fn plain_operators(rt: HostRuntime) -> Result<(), Fail> {
    for (text, marks) in &ROWS {
        demand(is_row(rt.alloc(), u32::MAX, text, marks), text)?;
    }
    for (text, marks) in &FEWER {
        demand(is_row(rt.alloc(), 1, text, marks), text)?;
    }
    Ok(())
}

#[test]
fn flags_of_what_has_no_mark(rt: HostRuntime) -> Result<(), Fail> {
    demand(
        tells(rt.alloc(), 1, "20 00 1A 20 C8 01 1A", false),
        "a local",
    )?;
    demand(
        tells(rt.alloc(), 200, "20 01 28 02 08 21 C8 01", true),
        "and memory 0",
    )
}

#[test]
fn other_operators(rt: HostRuntime) -> Result<(), Fail> {
    for text in &OTHERS {
        demand(is_refused(rt.alloc(), text), text)?;
    }
    Ok(())
}
