//! What is listed of a small module, whose bytes were worked out by hand: what stays, what goes, exports and imports.

use std::alloc::Global;
use std::test::Fail;
use test_support::{bytes_of, demand, demand_bytes, is_name, is_text};
use walrus_sections::Choice;
use walrus_tools::{
    Exported, Imported, Listed, Result, Wanted, dropped, dropped_list, export_list, exports,
    function_list, import_list, imports, item_index, item_word, list,
};

const PLAIN: Wanted = Wanted {
    names: true,
    producers: false,
    legacy: true,
};

// No export of this name stays.
fn without(name: &[u8]) -> Choice<'_> {
    Choice {
        is_kept: false,
        name,
    }
}

// Imported are the functions 0 `used`, 1 `late` and 2 `not` of `m`, and global 0 `g` of `n`. Function 3, with the name `a`, calls 0;
// 4, with the name `b`, and 6 are called by none; 5 calls 3; and 7 calls 1. Exported are 5 as `f`, a memory as `m`, a table as `t`, a tag as
// `e`, 7 as `h` and the global as `g`.
const MODULE: &str =
    "00 61 73 6D 01 00 00 00 01 04 01 60 00 00 02 22 04 01 6D 04 75 73 65 64 00 00 01 6D 04 6C 61 74 65 00 00 01 6D 03 6E 6F 74 00 00 01 6E 01 67 03 7F 00 03 06 05 00 00 00 00 00 04 04 01 70 00 00 05 03 01 00 00 0D 03 01 00 00 07 19 06 01 66 00 05 01 6D 02 00 01 74 01 00 01 65 04 00 01 68 00 07 01 67 03 00 0A 17 05 04 00 10 00 0B 02 00 0B 04 00 10 03 0B 03 00 01 0B 04 00 10 01 0B 00 0E 04 6E 61 6D 65 01 07 02 03 01 61 04 01 62";

// Fails where a call refused, or answered with other bytes than these.
fn demand_output(
    alloc: Global,
    output: Result<Vec<u8>>,
    expected: &str,
) -> std::result::Result<(), Fail> {
    demand_bytes(alloc, &output?, expected, expected)
}

// Whether the answer is that something isn't there.
fn is_missing(answer: Result<Vec<u8>>) -> bool {
    match answer {
        Ok(_) => false,
        Err(refusal) => is_text(refusal.text(), "not found"),
    }
}

// Whether what is listed at this place has this index, this size and this name.
fn lists(all: &[Listed], at: usize, index: usize, size: usize, name: &str) -> bool {
    match all.get(at) {
        Some(listed) => {
            listed.index == index && listed.size == size && is_name(&listed.name, name)
        }
        None => false,
    }
}

// ---- what stays

#[test]
fn what_stays_is_listed(rt: HostRuntime) -> std::result::Result<(), Fail> {
    let alloc = rt.alloc();
    let bytes = bytes_of(alloc, MODULE)?;
    let all = list(alloc, &bytes, PLAIN, &[])?;
    demand(all.len() == 3, "functions 3, 5 and 7")?;
    demand(lists(&all, 0, 3, 4, "a"), "function 3")
}

#[test]
fn what_stays_is_listed_in_bytes(rt: HostRuntime) -> std::result::Result<(), Fail> {
    let alloc = rt.alloc();
    let bytes = bytes_of(alloc, MODULE)?;
    demand_output(
        alloc,
        function_list(alloc, &bytes, PLAIN, &[without(b"h")]),
        "03 00 00 00 04 00 00 00 01 00 00 00 61 05 00 00 00 04 00 00 00 FF FF FF FF",
    )?;
    demand(
        is_missing(function_list(alloc, &bytes, PLAIN, &[without(b"x")])),
        "no export fits",
    )
}

// ---- what goes

#[test]
fn what_goes_is_listed(rt: HostRuntime) -> std::result::Result<(), Fail> {
    let alloc = rt.alloc();
    let bytes = bytes_of(alloc, MODULE)?;
    let all = dropped(alloc, &bytes, PLAIN, &[])?;
    demand(all.len() == 2, "functions 4 and 6")?;
    demand(lists(&all, 0, 4, 2, "b"), "function 4")
}

#[test]
fn what_goes_is_listed_in_bytes(rt: HostRuntime) -> std::result::Result<(), Fail> {
    let alloc = rt.alloc();
    let bytes = bytes_of(alloc, MODULE)?;
    demand_output(
        alloc,
        dropped_list(alloc, &bytes, PLAIN, &[without(b"h")]),
        "04 00 00 00 02 00 00 00 01 00 00 00 62 06 00 00 00 03 00 00 00 FF FF FF FF 07 00 00 00 04 00 00 00 FF FF FF FF",
    )?;
    demand(
        is_missing(dropped_list(alloc, &bytes, PLAIN, &[without(b"x")])),
        "no export fits",
    )
}

// ---- exports

// Whether the export is that of this item.
fn exports_so(export: Option<&Exported>, word: &str, index: usize, name: &str) -> bool {
    match export {
        Some(told) => {
            is_text(item_word(told.item), word)
                && item_index(told.item) == index
                && is_text(told.name.as_str(), name)
        }
        None => false,
    }
}

#[test]
fn exports_are_listed(rt: HostRuntime) -> std::result::Result<(), Fail> {
    let alloc = rt.alloc();
    let bytes = bytes_of(alloc, MODULE)?;
    let all = exports(alloc, &bytes, PLAIN, &[without(b"f")])?;
    demand(all.len() == 5, "all but one")?;
    demand(exports_so(all.get(0), "memory", 0, "m"), "the memory")?;
    demand(exports_so(all.get(3), "function", 7, "h"), "function 7")
}

#[test]
fn exports_are_listed_in_bytes(rt: HostRuntime) -> std::result::Result<(), Fail> {
    let alloc = rt.alloc();
    let bytes = bytes_of(alloc, MODULE)?;
    demand_output(
        alloc,
        export_list(alloc, &bytes, PLAIN, &[without(b"h")]),
        "00 05 00 00 00 01 00 00 00 66 02 00 00 00 00 01 00 00 00 6D 01 00 00 00 00 01 00 00 00 74 04 00 00 00 00 01 00 00 00 65 03 00 00 00 00 01 00 00 00 67",
    )?;
    demand(
        is_missing(export_list(alloc, &bytes, PLAIN, &[without(b"x")])),
        "no export fits",
    )
}

// ---- imports

// Whether the import is that of this item.
fn imports_so(import: Option<&Imported>, word: &str, index: usize, from: &str, name: &str) -> bool {
    match import {
        Some(told) => {
            is_text(item_word(told.item), word)
                && item_index(told.item) == index
                && is_text(told.module.as_str(), from)
                && is_text(told.name.as_str(), name)
        }
        None => false,
    }
}

#[test]
fn kept_imports_are_listed(rt: HostRuntime) -> std::result::Result<(), Fail> {
    let alloc = rt.alloc();
    let bytes = bytes_of(alloc, MODULE)?;
    let all = imports(alloc, &bytes, PLAIN, &[])?;
    demand(all.len() == 3, "all but one")?;
    demand(
        imports_so(all.get(1), "function", 1, "m", "late"),
        "function 1",
    )?;
    demand(imports_so(all.get(2), "global", 0, "n", "g"), "the global")
}

#[test]
fn kept_imports_are_listed_in_bytes(rt: HostRuntime) -> std::result::Result<(), Fail> {
    let alloc = rt.alloc();
    let bytes = bytes_of(alloc, MODULE)?;
    demand_output(
        alloc,
        import_list(alloc, &bytes, PLAIN, &[without(b"h")]),
        "00 00 00 00 00 01 00 00 00 6D 04 00 00 00 75 73 65 64 03 00 00 00 00 01 00 00 00 6E 01 00 00 00 67",
    )?;
    demand(
        is_missing(import_list(alloc, &bytes, PLAIN, &[without(b"x")])),
        "no export fits",
    )
}
