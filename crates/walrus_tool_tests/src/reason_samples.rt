//! Why items of a small module stay, and what refers to them. Its bytes were worked out by hand.

use std::alloc::Global;
use std::test::Fail;
use test_support::{bytes_of, demand, demand_bytes, is_name, is_text};
use walrus_sections::Choice;
use walrus_tools::{
    Alone, Link, Reason, Root, Wanted, caller_list, callers, item_index, item_word, reason_list,
    why,
};

const PLAIN: Wanted = Wanted {
    names: true,
    producers: false,
    legacy: true,
};

// Function 0, exported as `f` and `g`, calls 1 and 2. 1, with the name `b`, and 4, exported as `h`, call 3. 5 is the start function. 6 stands in
// an active segment of elements, 7 in a declared one; nothing reaches 8. A memory is exported as `m`, and has an active segment of data.
const MODULE: &str =
    "00 61 73 6D 01 00 00 00 01 04 01 60 00 00 03 0A 09 00 00 00 00 00 00 00 00 00 04 04 01 70 00 01 05 03 01 00 01 07 11 04 01 66 00 00 01 67 00 00 01 68 00 04 01 6D 02 00 08 01 05 09 0B 02 00 41 00 0B 01 06 03 00 01 07 0A 24 09 06 00 10 01 10 02 0B 04 00 10 03 0B 02 00 0B 02 00 0B 04 00 10 03 0B 02 00 0B 02 00 0B 02 00 0B 02 00 0B 0B 07 01 00 41 00 0B 01 2A 00 0B 04 6E 61 6D 65 01 04 01 01 01 62";

// No export of this name stays.
fn without(name: &[u8]) -> Choice<'_> {
    Choice {
        is_kept: false,
        name,
    }
}

// Why what the text means stays.
fn reason(alloc: Global, choices: &[Choice<'_>], text: &str) -> std::result::Result<Reason, Fail> {
    let bytes = bytes_of(alloc, MODULE)?;
    Ok(why(alloc, &bytes, PLAIN, choices, text)?)
}

// Whether the link is of this item.
fn is_of(link: &Link, word: &str, index: usize) -> bool {
    is_text(item_word(link.item), word) && item_index(link.item) == index
}

// The link at a place of a chain.
fn link_at(reason: &Reason, at: usize) -> Option<&Link> {
    match &reason.links {
        Some(links) => links.get(at),
        None => None,
    }
}

// Whether the link at this place of a chain is of this item.
fn leads(reason: &Reason, at: usize, word: &str, index: usize) -> bool {
    match link_at(reason, at) {
        Some(link) => is_of(link, word, index),
        None => false,
    }
}

// Whether the chain has so many links.
fn has_length(reason: &Reason, length: usize) -> bool {
    match &reason.links {
        Some(links) => links.len() == length,
        None => false,
    }
}

// Whether this is so of what goes with the item.
fn goes(reason: &Reason, functions: usize, bytes: usize) -> bool {
    reason.alone == Some(Alone { functions, bytes })
}

#[test]
fn a_chain_leads_from_an_export(rt: HostRuntime) -> std::result::Result<(), Fail> {
    let told = reason(rt.alloc(), &[], "b")?;
    demand(told.root == Some(Root::Exported), "the root")?;
    demand(has_length(&told, 2), "two links")?;
    demand(leads(&told, 0, "function", 0), "a link")?;
    demand(leads(&told, 1, "function", 1), "another")?;
    demand(goes(&told, 1, 4), "what goes")
}

// Whether the link has this size and this name, and is exported under so many names.
fn is_told(link: Option<&Link>, size: usize, name: &str, exports: usize) -> bool {
    match link {
        Some(link) => {
            link.size == Some(size) && is_name(&link.name, name) && link.exports.len() == exports
        }
        None => false,
    }
}

// Whether this is the second of the names.
fn is_second(names: &[String], name: &str) -> bool {
    match names.get(1) {
        Some(second) => is_text(second.as_str(), name),
        None => false,
    }
}

#[test]
fn a_link_has_its_name_and_size(rt: HostRuntime) -> std::result::Result<(), Fail> {
    let told = reason(rt.alloc(), &[], "b")?;
    demand(is_told(link_at(&told, 1), 4, "b", 0), "the last")?;
    match link_at(&told, 0) {
        Some(link) => {
            demand(link.size == Some(6), "its size")?;
            demand(link.name.is_none(), "no name")?;
            demand(link.exports.len() == 2, "two exports")?;
            demand(is_second(&link.exports, "g"), "their order")
        }
        None => demand(false, "a link"),
    }
}

#[test]
fn what_goes_with_a_function(rt: HostRuntime) -> std::result::Result<(), Fail> {
    let alloc = rt.alloc();
    let told = reason(alloc, &[], "f")?;
    demand(leads(&told, 0, "function", 0), "by its export")?;
    demand(goes(&told, 3, 12), "itself and two that it calls")?;
    let told = reason(alloc, &[], "3")?;
    demand(goes(&told, 1, 2), "itself alone")
}

#[test]
fn roots_of_each_kind(rt: HostRuntime) -> std::result::Result<(), Fail> {
    let alloc = rt.alloc();
    let told = reason(alloc, &[], "5")?;
    demand(told.root == Some(Root::Start), "the start function")?;
    let told = reason(alloc, &[], "6")?;
    demand(told.root == Some(Root::Active), "an active segment")?;
    demand(leads(&told, 0, "element", 0), "the segment")?;
    let told = reason(alloc, &[], "7")?;
    demand(told.root == Some(Root::Declared), "a declared segment")?;
    demand(leads(&told, 0, "element", 1), "the other segment")
}

#[test]
fn items_of_other_kinds(rt: HostRuntime) -> std::result::Result<(), Fail> {
    let told = reason(rt.alloc(), &[], "m")?;
    demand(leads(&told, 0, "memory", 0), "the memory")?;
    demand(told.alone.is_none(), "nothing goes with it")
}

#[test]
fn what_is_not_reached(rt: HostRuntime) -> std::result::Result<(), Fail> {
    let alloc = rt.alloc();
    let told = reason(alloc, &[], "8")?;
    demand(told.links.is_none(), "no chain")?;
    demand(told.root.is_none(), "no root")?;
    demand(told.alone.is_none(), "nothing goes")?;
    let told = reason(alloc, &[without(b"f"), without(b"g")], "b")?;
    demand(told.links.is_none(), "of chosen exports")
}

// Fails unless the answer is that something isn't there.
fn demand_none(
    alloc: Global,
    choices: &[Choice<'_>],
    text: &str,
    what: &str,
) -> std::result::Result<(), Fail> {
    let bytes = bytes_of(alloc, MODULE)?;
    match why(alloc, &bytes, PLAIN, choices, text) {
        Ok(_) => demand(false, what),
        Err(refusal) => demand(is_text(refusal.text(), "not found"), what),
    }
}

#[test]
fn what_means_nothing(rt: HostRuntime) -> std::result::Result<(), Fail> {
    let alloc = rt.alloc();
    demand_none(alloc, &[], "9", "an index")?;
    demand_none(alloc, &[], "nosuch", "a name")?;
    demand_none(alloc, &[without(b"f")], "f", "an export that went")?;
    demand_none(alloc, &[without(b"x")], "b", "a choice that fits none")
}

// The kinds and indices of the items, root and what goes, and the two links.
const LISTED: &str =
    "01 01 00 00 00 01 01 01 00 00 00 04 00 00 00 01 00 00 00 00 06 00 00 00 FF FF FF FF 02 00 00 00 01 00 00 00 66 01 00 00 00 67 01 01 00 00 00 04 00 00 00 01 00 00 00 62 00 00 00 00";

#[test]
fn a_reason_as_bytes(rt: HostRuntime) -> std::result::Result<(), Fail> {
    let alloc = rt.alloc();
    let bytes = bytes_of(alloc, MODULE)?;
    let list = reason_list(alloc, &bytes, PLAIN, &[], "b")?;
    demand_bytes(alloc, &list, LISTED, "a reason")
}

const UNREACHED: &str = "01 08 00 00 00 00 00 00 00 00 00 00 00 00 00";

#[test]
fn no_reason_as_bytes(rt: HostRuntime) -> std::result::Result<(), Fail> {
    let alloc = rt.alloc();
    let bytes = bytes_of(alloc, MODULE)?;
    let list = reason_list(alloc, &bytes, PLAIN, &[], "8")?;
    demand_bytes(alloc, &list, UNREACHED, "not reached")
}

// ---- callers

// Whether the link at this place is of the function of this index.
fn stands(links: &[Link], at: usize, function: usize) -> bool {
    match links.get(at) {
        Some(link) => is_of(link, "function", function),
        None => false,
    }
}

#[test]
fn callers_of_a_function(rt: HostRuntime) -> std::result::Result<(), Fail> {
    let alloc = rt.alloc();
    let bytes = bytes_of(alloc, MODULE)?;
    let found = callers(alloc, &bytes, PLAIN, &[], "3")?;
    demand(found.len() == 2, "two")?;
    demand(stands(&found, 0, 1), "one")?;
    demand(stands(&found, 1, 4), "the other")?;
    let found = callers(alloc, &bytes, PLAIN, &[without(b"h")], "3")?;
    demand(found.len() == 1, "of chosen exports")
}

const CALLERS: &str =
    "01 01 00 00 00 04 00 00 00 01 00 00 00 62 00 00 00 00 01 04 00 00 00 04 00 00 00 FF FF FF FF 01 00 00 00 01 00 00 00 68";

#[test]
fn callers_as_bytes(rt: HostRuntime) -> std::result::Result<(), Fail> {
    let alloc = rt.alloc();
    let bytes = bytes_of(alloc, MODULE)?;
    let list = caller_list(alloc, &bytes, PLAIN, &[], "3")?;
    demand_bytes(alloc, &list, CALLERS, "callers")
}
