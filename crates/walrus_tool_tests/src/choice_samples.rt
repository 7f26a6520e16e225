//! What no clause says: that the definitions mean what people take them for.

use std::alloc::Global;
use std::test::Fail;
use test_support::demand;
use walrus_sections::{Choice, are_choices, goes, read_choices};

// A name, a text, and whether they fit.
const FITTING: [(&[u8], &[u8], bool); 26] = [
    (b"", b"", true),
    (b"", b"a", false),
    (b"a", b"", false),
    (b"a", b"a", true),
    (b"a", b"b", false),
    (b"*", b"", true),
    (b"*", b"abc", true),
    (b"a*", b"a", true),
    (b"a*", b"abc", true),
    (b"a*", b"ba", false),
    (b"*a", b"a", true),
    (b"*a", b"aba", true),
    (b"*a", b"ab", false),
    (b"*a*b*", b"xaxbx", true),
    (b"*a*b*", b"ab", true),
    (b"*a*b*", b"ba", false),
    (b"*aab", b"aaab", true),
    (b".debug*", b".debug_info", true),
    (b".debug*", b"debug_info", false),
    (b"\\*", b"*", true),
    (b"\\*", b"a", false),
    (b"\\*", b"\\*", false),
    (b"a\\b", b"a\\b", true),
    (b"\\\\*", b"\\*", true),
    (b"**", b"", true),
    (b"**", b"ab", true),
];

// Whether the text goes where this name alone is chosen.
fn fits(name: &[u8], text: &[u8]) -> bool {
    let chosen = Choice {
        is_kept: false,
        name,
    };
    goes(&[chosen], text)
}

// The number of the first row that is wrong.
fn first_wrong() -> Option<usize> {
    FITTING
        .iter()
        .position(|(name, text, wanted)| fits(name, text) != *wanted)
}

#[test]
fn names_fit(_rt: HostRuntime) -> Result<(), Fail> {
    match first_wrong() {
        None => Ok(()),
        Some(row) => Err(Fail::new(format_args!("row {row}"))),
    }
}

// Whether the bytes are these choices.
fn is_list(alloc: Global, bytes: &[u8], wanted: &[Choice<'_>]) -> bool {
    if !are_choices(bytes) {
        return false;
    }
    match read_choices(alloc, bytes) {
        Ok(Some(choices)) => choices.as_slice() == wanted,
        _ => false,
    }
}

// Whether the bytes are no list of choices.
fn is_none(alloc: Global, bytes: &[u8]) -> bool {
    if are_choices(bytes) {
        return false;
    }
    match read_choices(alloc, bytes) {
        Ok(None) => true,
        _ => false,
    }
}

const GOES: Choice<'static> = Choice {
    is_kept: false,
    name: b"a*",
};

const KEPT: Choice<'static> = Choice {
    is_kept: true,
    name: b"",
};

#[test]
fn lists_are_read(rt: HostRuntime) -> Result<(), Fail> {
    let alloc = rt.alloc();
    demand(is_list(alloc, b"", &[]), "none")?;
    demand(
        is_list(alloc, b"\x00\x02\x00\x00\x00a*", &[GOES]),
        "one that goes",
    )?;
    demand(
        is_list(
            alloc,
            b"\x00\x02\x00\x00\x00a*\x01\x00\x00\x00\x00",
            &[GOES, KEPT],
        ),
        "two",
    )
}

#[test]
fn others_are_no_lists(rt: HostRuntime) -> Result<(), Fail> {
    let alloc = rt.alloc();
    demand(is_none(alloc, b"\x00"), "a kind alone")?;
    demand(is_none(alloc, b"\x00\x02\x00\x00"), "a length that is cut")?;
    demand(
        is_none(alloc, b"\x00\x02\x00\x00\x00a"),
        "a name that is cut",
    )?;
    demand(is_none(alloc, b"\x02\x00\x00\x00\x00"), "a kind of 2")?;
    demand(
        is_none(alloc, b"\x00\x00\x00\x00\x01a"),
        "a length whose highest byte is last",
    )?;
    demand(
        is_none(alloc, b"\x00\xFF\xFF\xFF\xFFa"),
        "the highest length",
    )?;
    demand(
        is_none(alloc, b"\x00\x02\x00\x00\x00a*\x01"),
        "a second record that is cut",
    )
}

#[test]
fn kept_texts_stay(_rt: HostRuntime) -> Result<(), Fail> {
    let all = Choice {
        is_kept: false,
        name: b"*",
    };
    let kept = Choice {
        is_kept: true,
        name: b"a*",
    };
    demand(goes(&[all], b"ab"), "a name alone")?;
    demand(goes(&[kept, all], b"b"), "one that isn't kept")?;
    demand(!goes(&[kept, all], b"ab"), "one that is kept")?;
    demand(!goes(&[all, kept], b"ab"), "in any order")?;
    demand(!goes(&[], b"ab"), "nothing chosen")
}
