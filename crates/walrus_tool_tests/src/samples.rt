//! Each caller on a small module, whose bytes were worked out by hand.

use std::alloc::Global;
use std::test::Fail;
use test_support::{bytes_of, demand, demand_bytes, is_name, is_text};
use walrus_examples::{
    count_calls, keep_listed, moves, rename_export, shrink, snip_export, stub_module,
    why_with_sizes, with_export, with_metadata, with_places,
};
use walrus_tools::{Result, Wanted, fault, gc};

// Fails where a caller refused, or answered with other bytes than these.
fn demand_output(
    alloc: Global,
    output: Result<Vec<u8>>,
    expected: &str,
) -> std::result::Result<(), Fail> {
    demand_bytes(alloc, &output?, expected, expected)
}

fn is_refused(answer: Result<Vec<u8>>, why: &str) -> bool {
    match answer {
        Ok(_) => false,
        Err(refusal) => is_text(refusal.text(), why),
    }
}

// ---- shrink

// A function that is exported, and one that nothing reaches.
const TWO: &str =
    "00 61 73 6D 01 00 00 00 01 04 01 60 00 00 03 03 02 00 00 07 05 01 01 66 00 01 0A 08 02 03 00 01 0B 02 00 0B";

const ONE: &str =
    "00 61 73 6D 01 00 00 00 01 04 01 60 00 00 03 02 01 00 07 05 01 01 66 00 00 0A 04 01 02 00 0B 00 27 09 70 72 6F 64 75 63 65 72 73 01 0C 70 72 6F 63 65 73 73 65 64 2D 62 79 01 06 77 61 6C 72 75 73 06 30 2E 32 38 2E 30";

#[test]
fn one_of_two_functions_is_left(rt: HostRuntime) -> std::result::Result<(), Fail> {
    let bytes = bytes_of(rt.alloc(), TWO)?;
    demand_output(rt.alloc(), shrink(rt.alloc(), &bytes), ONE)
}

// ---- gc under flags

fn no_producers() -> Wanted {
    Wanted {
        names: true,
        producers: false,
        legacy: true,
    }
}

const ONE_ALONE: &str =
    "00 61 73 6D 01 00 00 00 01 04 01 60 00 00 03 02 01 00 07 05 01 01 66 00 00 0A 04 01 02 00 0B";

#[test]
fn one_is_left_and_no_producers(rt: HostRuntime) -> std::result::Result<(), Fail> {
    let bytes = bytes_of(rt.alloc(), TWO)?;
    demand_output(
        rt.alloc(),
        gc(rt.alloc(), &bytes, no_producers()),
        ONE_ALONE,
    )
}

// ---- keep_listed

// Three functions, of which nothing is exported; the section `keep` lists the first and the last.
const LISTS: &str =
    "00 61 73 6D 01 00 00 00 01 04 01 60 00 00 03 04 03 00 00 00 0A 0D 03 03 00 01 0B 02 00 0B 04 00 01 01 0B 00 0D 04 6B 65 65 70 00 00 00 00 02 00 00 00";

// Both, of which the last is larger and so stands first; and the section lists them so.
const LISTED: &str =
    "00 61 73 6D 01 00 00 00 01 04 01 60 00 00 03 03 02 00 00 0A 0A 02 04 00 01 01 0B 03 00 01 0B 00 27 09 70 72 6F 64 75 63 65 72 73 01 0C 70 72 6F 63 65 73 73 65 64 2D 62 79 01 06 77 61 6C 72 75 73 06 30 2E 32 38 2E 30 00 0D 04 6B 65 65 70 01 00 00 00 00 00 00 00";

#[test]
fn listed_functions_are_kept(rt: HostRuntime) -> std::result::Result<(), Fail> {
    let bytes = bytes_of(rt.alloc(), LISTS)?;
    demand_output(rt.alloc(), keep_listed(rt.alloc(), &bytes, "keep"), LISTED)
}

// No function, and the section as it was.
const NOT_LISTED: &str =
    "00 61 73 6D 01 00 00 00 00 27 09 70 72 6F 64 75 63 65 72 73 01 0C 70 72 6F 63 65 73 73 65 64 2D 62 79 01 06 77 61 6C 72 75 73 06 30 2E 32 38 2E 30 00 0D 04 6B 65 65 70 00 00 00 00 02 00 00 00";

#[test]
fn other_sections_list_nothing(rt: HostRuntime) -> std::result::Result<(), Fail> {
    let bytes = bytes_of(rt.alloc(), LISTS)?;
    demand_output(
        rt.alloc(),
        keep_listed(rt.alloc(), &bytes, "other"),
        NOT_LISTED,
    )
}

// One function, and a section that lists the second one; and one whose index has three bytes.
const LISTS_MORE: &str =
    "00 61 73 6D 01 00 00 00 01 04 01 60 00 00 03 02 01 00 0A 04 01 02 00 0B 00 09 04 6B 65 65 70 01 00 00 00 00 08 04 6C 65 73 73 00 00 00";

#[test]
fn other_lists_are_refused(rt: HostRuntime) -> std::result::Result<(), Fail> {
    let bytes = bytes_of(rt.alloc(), LISTS_MORE)?;
    let more = keep_listed(rt.alloc(), &bytes, "keep");
    demand(is_refused(more, "not found"), "an index of no function")?;
    let less = keep_listed(rt.alloc(), &bytes, "less");
    demand(is_refused(less, "not found"), "an index of three bytes")
}

// ---- with_metadata

// Both functions, producers, and behind them the section `meta`.
const WITH_META: &str =
    "00 61 73 6D 01 00 00 00 01 04 01 60 00 00 03 03 02 00 00 07 05 01 01 66 00 01 0A 08 02 03 00 01 0B 02 00 0B 00 27 09 70 72 6F 64 75 63 65 72 73 01 0C 70 72 6F 63 65 73 73 65 64 2D 62 79 01 06 77 61 6C 72 75 73 06 30 2E 32 38 2E 30 00 07 04 6D 65 74 61 01 02";

#[test]
fn a_section_more(rt: HostRuntime) -> std::result::Result<(), Fail> {
    let bytes = bytes_of(rt.alloc(), TWO)?;
    let payload = bytes_of(rt.alloc(), "01 02")?;
    let output = with_metadata(rt.alloc(), &bytes, "meta", &payload);
    demand_output(rt.alloc(), output, WITH_META)
}

#[test]
fn a_name_of_the_format(rt: HostRuntime) -> std::result::Result<(), Fail> {
    let bytes = bytes_of(rt.alloc(), TWO)?;
    let answer = with_metadata(rt.alloc(), &bytes, "producers", &bytes);
    demand(
        is_refused(answer, "a name of the format's own"),
        "producers",
    )
}

// ---- with_places

// Two functions, of which the smaller stands first: its operator begins at 31, those of the other, which is exported, at 34 and 35.
const SMALL_FIRST: &str =
    "00 61 73 6D 01 00 00 00 01 04 01 60 00 00 03 03 02 00 00 07 05 01 01 66 00 01 0A 08 02 02 00 0B 03 00 01 0B";

// The larger one stands first, its operators at 31 and 32, that of the other at 35; behind producers the section `map`, which says 32 and 7, 35 and 9.
const WITH_MAP: &str =
    "00 61 73 6D 01 00 00 00 01 04 01 60 00 00 03 03 02 00 00 07 05 01 01 66 00 00 0A 08 02 03 00 01 0B 02 00 0B 00 27 09 70 72 6F 64 75 63 65 72 73 01 0C 70 72 6F 63 65 73 73 65 64 2D 62 79 01 06 77 61 6C 72 75 73 06 30 2E 32 38 2E 30 00 14 03 6D 61 70 20 00 00 00 07 00 00 00 23 00 00 00 09 00 00 00";

#[test]
fn places_follow_the_code(rt: HostRuntime) -> std::result::Result<(), Fail> {
    let bytes = bytes_of(rt.alloc(), SMALL_FIRST)?;
    let pairs = vec![in rt.alloc(); (35u32, 7u32), (30, 8), (31, 9)]?;
    let output = with_places(rt.alloc(), &bytes, "map", &pairs);
    demand_output(rt.alloc(), output, WITH_MAP)
}

#[test]
fn a_name_of_dynamic_linking(rt: HostRuntime) -> std::result::Result<(), Fail> {
    let bytes = bytes_of(rt.alloc(), SMALL_FIRST)?;
    let answer = with_places(rt.alloc(), &bytes, "dylink", &[]);
    demand(
        is_refused(answer, "a name of the format's own"),
        "dynamic linking",
    )
}

// ---- rename_export

// Both functions, the first exported as `f`, the second as `g`.
const TWO_NAMES: &str =
    "00 61 73 6D 01 00 00 00 01 04 01 60 00 00 03 03 02 00 00 07 09 02 01 66 00 00 01 67 00 01 0A 08 02 03 00 01 0B 02 00 0B";

// The second one, exported as `h`.
const NEW_NAME: &str =
    "00 61 73 6D 01 00 00 00 01 04 01 60 00 00 03 02 01 00 07 05 01 01 68 00 00 0A 04 01 02 00 0B 00 27 09 70 72 6F 64 75 63 65 72 73 01 0C 70 72 6F 63 65 73 73 65 64 2D 62 79 01 06 77 61 6C 72 75 73 06 30 2E 32 38 2E 30";

#[test]
fn an_export_has_another_name(rt: HostRuntime) -> std::result::Result<(), Fail> {
    let bytes = bytes_of(rt.alloc(), TWO_NAMES)?;
    let output = rename_export(rt.alloc(), &bytes, "g", "h", "f");
    demand_output(rt.alloc(), output, NEW_NAME)
}

#[test]
fn missing_and_taken_names_are_refused(rt: HostRuntime) -> std::result::Result<(), Fail> {
    let bytes = bytes_of(rt.alloc(), TWO_NAMES)?;
    let missing = rename_export(rt.alloc(), &bytes, "g", "h", "x");
    demand(is_refused(missing, "not found"), "no export to drop")?;
    let taken = rename_export(rt.alloc(), &bytes, "g", "g", "f");
    demand(is_refused(taken, "a name that is taken"), "taken")
}

// ---- with_export

// Both functions of `TWO`; the first, which nothing reached, is exported as `g`.
const ONE_MORE: &str =
    "00 61 73 6D 01 00 00 00 01 04 01 60 00 00 03 03 02 00 00 07 09 02 01 66 00 01 01 67 00 00 0A 08 02 03 00 01 0B 02 00 0B 00 27 09 70 72 6F 64 75 63 65 72 73 01 0C 70 72 6F 63 65 73 73 65 64 2D 62 79 01 06 77 61 6C 72 75 73 06 30 2E 32 38 2E 30";

#[test]
fn a_function_is_exported_by_its_index(rt: HostRuntime) -> std::result::Result<(), Fail> {
    let bytes = bytes_of(rt.alloc(), TWO)?;
    demand_output(
        rt.alloc(),
        with_export(rt.alloc(), &bytes, 0, "g"),
        ONE_MORE,
    )
}

#[test]
fn other_indices_and_taken_names_are_refused(rt: HostRuntime) -> std::result::Result<(), Fail> {
    let bytes = bytes_of(rt.alloc(), TWO)?;
    let missing = with_export(rt.alloc(), &bytes, 2, "g");
    demand(is_refused(missing, "not found"), "an index of no function")?;
    let taken = with_export(rt.alloc(), &bytes, 0, "f");
    demand(
        is_refused(taken, "a name that is taken"),
        "the name of an export",
    )
}

// ---- stub_module

// Functions `f` and `g` from `env`, and `h` from `m`; the exported `a` calls `h` and gives what `f` makes of its argument.
const IMPORTS: &str =
    "00 61 73 6D 01 00 00 00 01 09 02 60 01 7F 01 7F 60 00 00 02 17 03 03 65 6E 76 01 66 00 00 03 65 6E 76 01 67 00 01 01 6D 01 68 00 01 03 02 01 00 07 05 01 01 61 00 03 0A 0A 01 08 00 10 02 20 00 10 00 0B";

// `f` traps, and stands behind `a`, which is larger; `g`, which nothing calls, is gone; `h` is imported as before.
const STUBBED: &str =
    "00 61 73 6D 01 00 00 00 01 09 02 60 01 7F 01 7F 60 00 00 02 07 01 01 6D 01 68 00 01 03 03 02 00 00 07 05 01 01 61 00 01 0A 0E 02 08 00 10 00 20 00 10 02 0B 03 00 00 0B 00 27 09 70 72 6F 64 75 63 65 72 73 01 0C 70 72 6F 63 65 73 73 65 64 2D 62 79 01 06 77 61 6C 72 75 73 06 30 2E 32 38 2E 30";

#[test]
fn imports_from_one_module_trap(rt: HostRuntime) -> std::result::Result<(), Fail> {
    let bytes = bytes_of(rt.alloc(), IMPORTS)?;
    demand_output(rt.alloc(), stub_module(rt.alloc(), &bytes, "env"), STUBBED)
}

// ---- snip_export

// The exported `a` calls a function that nothing else calls.
const CALLS: &str =
    "00 61 73 6D 01 00 00 00 01 04 01 60 00 00 03 03 02 00 00 07 05 01 01 61 00 00 0A 0A 02 04 00 10 01 0B 03 00 01 0B";

// Both are gone, and `a` traps.
const SNIPPED: &str =
    "00 61 73 6D 01 00 00 00 01 04 01 60 00 00 03 02 01 00 07 05 01 01 61 00 00 0A 05 01 03 00 00 0B 00 27 09 70 72 6F 64 75 63 65 72 73 01 0C 70 72 6F 63 65 73 73 65 64 2D 62 79 01 06 77 61 6C 72 75 73 06 30 2E 32 38 2E 30";

#[test]
fn an_export_traps(rt: HostRuntime) -> std::result::Result<(), Fail> {
    let bytes = bytes_of(rt.alloc(), CALLS)?;
    demand_output(rt.alloc(), snip_export(rt.alloc(), &bytes, "a"), SNIPPED)
}

// One function, exported as `a` and as `b`.
const TWICE: &str =
    "00 61 73 6D 01 00 00 00 01 04 01 60 00 00 03 02 01 00 07 09 02 01 61 00 00 01 62 00 00 0A 06 01 04 00 01 01 0B";

// It stays as `b`; `a` traps, and stands behind it, which is larger.
const STAYS: &str =
    "00 61 73 6D 01 00 00 00 01 04 01 60 00 00 03 03 02 00 00 07 09 02 01 61 00 01 01 62 00 00 0A 0A 02 04 00 01 01 0B 03 00 00 0B 00 27 09 70 72 6F 64 75 63 65 72 73 01 0C 70 72 6F 63 65 73 73 65 64 2D 62 79 01 06 77 61 6C 72 75 73 06 30 2E 32 38 2E 30";

#[test]
fn what_is_reached_otherwise_stays(rt: HostRuntime) -> std::result::Result<(), Fail> {
    let bytes = bytes_of(rt.alloc(), TWICE)?;
    demand_output(rt.alloc(), snip_export(rt.alloc(), &bytes, "a"), STAYS)
}

#[test]
fn other_names_are_refused(rt: HostRuntime) -> std::result::Result<(), Fail> {
    let bytes = bytes_of(rt.alloc(), TWICE)?;
    let later = snip_export(rt.alloc(), &bytes, "b");
    demand(is_refused(later, "cannot replace function"), "a later name")?;
    let none = snip_export(rt.alloc(), &bytes, "c");
    demand(is_refused(none, "not found"), "a name of no export")
}

// ---- moves

// A function that nothing reaches, and an exported one that calls itself, with numbers that are longer than they need to be.
const PADDED: &str =
    "00 61 73 6D 01 00 00 00 01 04 01 60 00 00 03 03 02 00 00 07 05 01 01 66 00 01 0A 0F 02 03 00 01 0B 09 00 41 80 00 1A 10 81 00 0B";

const SHORT: &str =
    "00 61 73 6D 01 00 00 00 01 04 01 60 00 00 03 02 01 00 07 05 01 01 66 00 00 0A 09 01 07 00 41 00 1A 10 00 0B 00 27 09 70 72 6F 64 75 63 65 72 73 01 0C 70 72 6F 63 65 73 73 65 64 2D 62 79 01 06 77 61 6C 72 75 73 06 30 2E 32 38 2E 30";

fn is_move(places: &[(usize, usize)], at: usize, old: usize, new: usize) -> bool {
    match places.get(at) {
        Some(place) => place.0 == old && place.1 == new,
        None => false,
    }
}

#[test]
fn operators_move(rt: HostRuntime) -> std::result::Result<(), Fail> {
    let bytes = bytes_of(rt.alloc(), PADDED)?;
    let (output, places) = moves(rt.alloc(), &bytes)?;
    demand(
        places.len() == 4
            && is_move(&places, 0, 35, 30)
            && is_move(&places, 1, 38, 32)
            && is_move(&places, 2, 39, 33)
            && is_move(&places, 3, 42, 35),
        "the places of four operators",
    )?;
    demand_output(rt.alloc(), Ok(output), SHORT)
}

// ---- count_calls

// `f` from `env` is function 0; `a` calls it, and then what it called before, and that calls it too.
const COUNTED: &str =
    "00 61 73 6D 01 00 00 00 01 04 01 60 00 00 02 09 01 03 65 6E 76 01 66 00 00 03 03 02 00 00 07 05 01 01 61 00 01 0A 0E 02 06 00 10 00 10 02 0B 05 00 10 00 01 0B 00 27 09 70 72 6F 64 75 63 65 72 73 01 0C 70 72 6F 63 65 73 73 65 64 2D 62 79 01 06 77 61 6C 72 75 73 06 30 2E 32 38 2E 30";

#[test]
fn each_function_counts(rt: HostRuntime) -> std::result::Result<(), Fail> {
    let bytes = bytes_of(rt.alloc(), CALLS)?;
    demand_output(
        rt.alloc(),
        count_calls(rt.alloc(), &bytes, "env", "f"),
        COUNTED,
    )
}

// The exported `a` gives its argument.
const GIVES: &str =
    "00 61 73 6D 01 00 00 00 01 06 01 60 01 7F 01 7F 03 02 01 00 07 05 01 01 61 00 00 0A 06 01 04 00 20 00 0B";

// The type of what is imported stands behind that of `a`.
const TYPED: &str =
    "00 61 73 6D 01 00 00 00 01 09 02 60 01 7F 01 7F 60 00 00 02 09 01 03 65 6E 76 01 66 00 01 03 02 01 00 07 05 01 01 61 00 01 0A 08 01 06 00 10 00 20 00 0B 00 27 09 70 72 6F 64 75 63 65 72 73 01 0C 70 72 6F 63 65 73 73 65 64 2D 62 79 01 06 77 61 6C 72 75 73 06 30 2E 32 38 2E 30";

#[test]
fn a_type_is_added(rt: HostRuntime) -> std::result::Result<(), Fail> {
    let bytes = bytes_of(rt.alloc(), GIVES)?;
    demand_output(
        rt.alloc(),
        count_calls(rt.alloc(), &bytes, "env", "f"),
        TYPED,
    )
}

// ---- why_with_sizes

// Fails where the answer isn't this text.
fn demand_text(answer: Result<String>, expected: &str) -> std::result::Result<(), Fail> {
    let text = answer?;
    demand(is_text(text.as_str(), expected), expected)
}

const CALLED: &str = "function 0\nfunction 1\nfunction 0: 4 bytes\nfunction 1: 3 bytes\n";

#[test]
fn a_function_stays_for_one_that_calls_it(rt: HostRuntime) -> std::result::Result<(), Fail> {
    let bytes = bytes_of(rt.alloc(), CALLS)?;
    demand_text(why_with_sizes(rt.alloc(), &bytes, 1), CALLED)
}

const ALONE: &str = "function 0 isn't reached\nfunction 1: 2 bytes\n";

#[test]
fn no_function_calls_it(rt: HostRuntime) -> std::result::Result<(), Fail> {
    let bytes = bytes_of(rt.alloc(), TWO)?;
    demand_text(why_with_sizes(rt.alloc(), &bytes, 0), ALONE)
}

// ---- diagnose

// What is asked, and the two numbers of what is wrong with it: nothing; no header, but the front of what gzip writes, the header of another
// version, or none of what is known; behind the types, at byte 14, an id that is no section's; in function 0 an operator that isn't known.
const FAULTS: [(&str, &str); 6] = [
    (TWO, "00 00 00 00 00 00 00 00"),
    ("1F 8B 08 00", "01 00 00 00 03 00 00 00"),
    ("00 61 73 6D 02 00 00 00", "01 00 00 00 0A 00 00 00"),
    ("68 65", "01 00 00 00 00 00 00 00"),
    (
        "00 61 73 6D 01 00 00 00 01 04 01 60 00 00 0E 00",
        "02 00 00 00 0E 00 00 00",
    ),
    (
        "00 61 73 6D 01 00 00 00 01 04 01 60 00 00 03 02 01 00 0A 05 01 03 00 FF 0B",
        "04 00 00 00 00 00 00 00",
    ),
];

#[test]
fn faults_are_told_in_eight_bytes(rt: HostRuntime) -> std::result::Result<(), Fail> {
    for (bytes, told) in &FAULTS {
        let input = bytes_of(rt.alloc(), bytes)?;
        demand_output(rt.alloc(), fault(rt.alloc(), &input, no_producers()), told)?;
    }
    Ok(())
}
