//! The callers that read no more than where sections stand, on small modules whose bytes were worked out by hand.

use std::alloc::Global;
use std::test::Fail;
use test_support::{bytes_of, demand, demand_bytes, is_text};
use walrus_sections::{Choice, Item, Part, part_list, section_list, section_parts, strip};
use walrus_tools::Result;

// Fails where a caller refused, or answered with other bytes than these.
fn demand_output(
    alloc: Global,
    output: Result<Vec<u8>>,
    expected: &str,
) -> std::result::Result<(), Fail> {
    demand_bytes(alloc, &output?, expected, expected)
}

fn is_refused(answer: Result<Vec<u8>>, why: &str) -> bool {
    match answer {
        Ok(_) => false,
        Err(refusal) => is_text(refusal.text(), why),
    }
}

// What goes, and what is kept.
fn goes(name: &[u8]) -> Choice<'_> {
    Choice {
        is_kept: false,
        name,
    }
}

fn kept(name: &[u8]) -> Choice<'_> {
    Choice {
        is_kept: true,
        name,
    }
}

// Custom sections `a`, `ab` and `b`, the last with its size in two bytes, a section of types in front of `b`, and behind it one whose id
// has no meaning. No module has that type.
const SECTIONS: &str =
    "00 61 73 6D 01 00 00 00 00 03 01 61 01 00 04 02 61 62 02 01 02 01 77 00 83 00 01 62 03 4D 01 FF";

// ---- strip

#[test]
fn chosen_sections_go(rt: HostRuntime) -> std::result::Result<(), Fail> {
    let alloc = rt.alloc();
    let bytes = bytes_of(alloc, SECTIONS)?;
    demand_output(
        alloc,
        strip(alloc, &bytes, &[goes(b"a*")]),
        "00 61 73 6D 01 00 00 00 01 02 01 77 00 83 00 01 62 03 4D 01 FF",
    )?;
    demand_output(
        alloc,
        strip(alloc, &bytes, &[goes(b"*"), kept(b"a")]),
        "00 61 73 6D 01 00 00 00 00 03 01 61 01 01 02 01 77 4D 01 FF",
    )?;
    demand_output(alloc, strip(alloc, &bytes, &[]), SECTIONS)
}

#[test]
fn a_name_that_fits_none_is_refused(rt: HostRuntime) -> std::result::Result<(), Fail> {
    let alloc = rt.alloc();
    let bytes = bytes_of(alloc, SECTIONS)?;
    let missing = strip(alloc, &bytes, &[goes(b"b"), goes(b"c*")]);
    demand(is_refused(missing, "not found"), "a name of no section")?;
    let spared = strip(alloc, &bytes, &[goes(b"b"), kept(b"c"), kept(b"*")]);
    demand_output(alloc, spared, SECTIONS)
}

#[test]
fn cut_bytes_are_not_stripped(rt: HostRuntime) -> std::result::Result<(), Fail> {
    let alloc = rt.alloc();
    let cut = bytes_of(alloc, "00 61 73 6D 01 00 00 00 00 03 01 61")?;
    demand(
        is_refused(strip(alloc, &cut, &[]), "The input WebAssembly is invalid"),
        "a section that is cut",
    )
}

// ---- section_list

#[test]
fn sections_are_listed(rt: HostRuntime) -> std::result::Result<(), Fail> {
    let alloc = rt.alloc();
    let bytes = bytes_of(alloc, SECTIONS)?;
    demand_output(
        alloc,
        section_list(alloc, &bytes),
        "01 20 00 00 00 00 00 08 00 00 00 05 00 00 00 00 00 00 00 01 00 00 00 61 00 00 0D 00 00 00 06 00 00 00 00 00 00 00 02 00 00 00 61 62 01 01 13 00 00 00 04 00 00 00 01 00 00 00 FF FF FF FF 00 00 17 00 00 00 06 00 00 00 00 00 00 00 01 00 00 00 62 4D 00 1D 00 00 00 03 00 00 00 00 00 00 00 FF FF FF FF",
    )
}

#[test]
fn cut_bytes_are_listed_up_to_there(rt: HostRuntime) -> std::result::Result<(), Fail> {
    let alloc = rt.alloc();
    let cut = bytes_of(alloc, "00 61 73 6D 01 00 00 00 01 01 80 00 03 01 61")?;
    demand_output(
        alloc,
        section_list(alloc, &cut),
        "00 0B 00 00 00 01 00 08 00 00 00 03 00 00 00 00 00 00 00 FF FF FF FF",
    )?;
    let empty = bytes_of(alloc, "00 61 73 6D 01 00 00 00")?;
    demand_output(alloc, section_list(alloc, &empty), "01 08 00 00 00")?;
    let other = bytes_of(alloc, "00 61 73 6D 02 00 00 00")?;
    demand(
        is_refused(
            section_list(alloc, &other),
            "The input WebAssembly is invalid",
        ),
        "another version",
    )
}

// ---- section_parts and part_list

// An imported function, two functions with bodies, a memory, an active data segment and a passive one.
const PARTS: &str =
    "00 61 73 6D 01 00 00 00 01 04 01 60 00 00 02 07 01 01 61 01 62 00 00 03 03 02 00 00 05 03 01 00 01 0A 08 02 02 00 0B 03 00 01 0B 0B 0B 02 00 41 00 0B 02 07 07 01 01 09";

// Whether this part stands at the place.
fn stands_at(parts: &[Part<'_>], place: usize, part: Part<'_>) -> bool {
    match parts.get(place) {
        Some(found) => *found == part,
        None => false,
    }
}

#[test]
fn functions_and_segments_are_parts(rt: HostRuntime) -> std::result::Result<(), Fail> {
    let alloc = rt.alloc();
    let bytes = bytes_of(alloc, PARTS)?;
    let parts = section_parts(alloc, &bytes)?;
    demand(parts.len() == 10, "six sections and four parts in them")?;
    let second = Item {
        index: 2,
        start: 40,
        size: 3,
    };
    demand(
        stands_at(&parts, 6, Part::Function(second)),
        "the second function",
    )?;
    let first = Item {
        index: 0,
        start: 46,
        size: 7,
    };
    demand(
        stands_at(&parts, 8, Part::Segment(first)),
        "the first segment",
    )
}

#[test]
fn functions_and_segments_are_listed(rt: HostRuntime) -> std::result::Result<(), Fail> {
    let alloc = rt.alloc();
    let bytes = bytes_of(alloc, PARTS)?;
    demand_output(
        alloc,
        part_list(alloc, &bytes),
        "01 38 00 00 00 01 01 08 00 00 00 06 00 00 00 01 00 00 00 FF FF FF FF 02 01 0E 00 00 00 09 00 00 00 01 00 00 00 FF FF FF FF 03 01 17 00 00 00 05 00 00 00 02 00 00 00 FF FF FF FF 05 01 1C 00 00 00 05 00 00 00 01 00 00 00 FF FF FF FF 0A 01 21 00 00 00 0A 00 00 00 02 00 00 00 FF FF FF FF 8A 01 25 00 00 00 02 00 00 00 01 00 00 00 FF FF FF FF 8A 01 28 00 00 00 03 00 00 00 02 00 00 00 FF FF FF FF 0B 01 2B 00 00 00 0D 00 00 00 02 00 00 00 FF FF FF FF 8B 01 2E 00 00 00 07 00 00 00 00 00 00 00 FF FF FF FF 8B 01 35 00 00 00 03 00 00 00 01 00 00 00 FF FF FF FF",
    )?;
    let unread = bytes_of(alloc, SECTIONS)?;
    demand(
        is_refused(
            part_list(alloc, &unread),
            "The input WebAssembly is invalid",
        ),
        "a section without a meaning",
    )
}
