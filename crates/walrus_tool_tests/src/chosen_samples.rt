//! Exports chosen by NAMEs, on small modules whose bytes were worked out by hand.

use std::alloc::Global;
use std::test::Fail;
use test_support::{bytes_of, demand, demand_bytes, is_text};
use walrus_sections::Choice;
use walrus_tools::{Result, Wanted, gc_chosen, unfit};

const PLAIN: Wanted = Wanted {
    names: true,
    producers: false,
    legacy: true,
};

// What goes, and what is kept.
fn dropped(name: &[u8]) -> Choice<'_> {
    Choice {
        is_kept: false,
        name,
    }
}

fn kept(name: &[u8]) -> Choice<'_> {
    Choice {
        is_kept: true,
        name,
    }
}

// Fails where of these bytes, with these choices, something else is left.
fn demand_left(
    alloc: Global,
    text: &str,
    choices: &[Choice<'_>],
    expected: &str,
    what: &str,
) -> std::result::Result<(), Fail> {
    let bytes = bytes_of(alloc, text)?;
    let output = gc_chosen(alloc, &bytes, PLAIN, choices)?;
    demand_bytes(alloc, &output, expected, what)
}

// Whether the answer is that something isn't there.
fn is_missing(answer: Result<Vec<u8>>) -> bool {
    match answer {
        Ok(_) => false,
        Err(refusal) => is_text(refusal.text(), "not found"),
    }
}

// Two functions, the first exported as `f`, the second as `ab`.
const TWO: &str =
    "00 61 73 6D 01 00 00 00 01 04 01 60 00 00 03 03 02 00 00 07 0A 02 01 66 00 00 02 61 62 00 01 0A 08 02 03 00 01 0B 02 00 0B";

const F_ALONE: &str =
    "00 61 73 6D 01 00 00 00 01 04 01 60 00 00 03 02 01 00 07 05 01 01 66 00 00 0A 05 01 03 00 01 0B";

const AB_ALONE: &str =
    "00 61 73 6D 01 00 00 00 01 04 01 60 00 00 03 02 01 00 07 06 01 02 61 62 00 00 0A 04 01 02 00 0B";

const NONE: &str = "00 61 73 6D 01 00 00 00";

#[test]
fn kept_exports_stay(rt: HostRuntime) -> std::result::Result<(), Fail> {
    let alloc = rt.alloc();
    demand_left(alloc, TWO, &[kept(b"f")], F_ALONE, "a name")?;
    demand_left(alloc, TWO, &[kept(b"a*")], AB_ALONE, "a star")?;
    demand_left(alloc, TWO, &[kept(b"f"), kept(b"*b")], TWO, "both")?;
    demand_left(alloc, TWO, &[], TWO, "nothing chosen")
}

#[test]
fn dropped_exports_go(rt: HostRuntime) -> std::result::Result<(), Fail> {
    let alloc = rt.alloc();
    demand_left(alloc, TWO, &[dropped(b"ab")], F_ALONE, "a name")?;
    demand_left(alloc, TWO, &[dropped(b"*f*")], AB_ALONE, "a star")?;
    demand_left(alloc, TWO, &[dropped(b"*")], NONE, "all")
}

#[test]
fn what_is_dropped_is_not_kept(rt: HostRuntime) -> std::result::Result<(), Fail> {
    let alloc = rt.alloc();
    let all = kept(b"*");
    demand_left(alloc, TWO, &[all, dropped(b"f")], AB_ALONE, "of all")?;
    demand_left(alloc, TWO, &[dropped(b"f"), all], AB_ALONE, "in any order")?;
    let both = [kept(b"f"), dropped(b"f")];
    demand_left(alloc, TWO, &both, NONE, "the same name")
}

// The same, but the first is exported as `*`.
const A_STAR: &str =
    "00 61 73 6D 01 00 00 00 01 04 01 60 00 00 03 03 02 00 00 07 0A 02 01 2A 00 00 02 61 62 00 01 0A 08 02 03 00 01 0B 02 00 0B";

const STAR_ALONE: &str =
    "00 61 73 6D 01 00 00 00 01 04 01 60 00 00 03 02 01 00 07 05 01 01 2A 00 00 0A 05 01 03 00 01 0B";

#[test]
fn a_star_is_named(rt: HostRuntime) -> std::result::Result<(), Fail> {
    let alloc = rt.alloc();
    demand_left(alloc, A_STAR, &[kept(b"\\*")], STAR_ALONE, "that one alone")?;
    demand_left(alloc, A_STAR, &[kept(b"*")], A_STAR, "any")
}

// `TWO`, where the first function is the start function too.
const STARTS: &str =
    "00 61 73 6D 01 00 00 00 01 04 01 60 00 00 03 03 02 00 00 07 0A 02 01 66 00 00 02 61 62 00 01 08 01 00 0A 08 02 03 00 01 0B 02 00 0B";

const START_ALONE: &str =
    "00 61 73 6D 01 00 00 00 01 04 01 60 00 00 03 02 01 00 08 01 00 0A 05 01 03 00 01 0B";

#[test]
fn the_start_function_stays(rt: HostRuntime) -> std::result::Result<(), Fail> {
    demand_left(
        rt.alloc(),
        STARTS,
        &[dropped(b"*")],
        START_ALONE,
        "no export",
    )
}

#[test]
fn names_of_no_export_are_refused(rt: HostRuntime) -> std::result::Result<(), Fail> {
    let alloc = rt.alloc();
    let bytes = bytes_of(alloc, TWO)?;
    let more = [kept(b"f"), kept(b"a")];
    demand(is_missing(gc_chosen(alloc, &bytes, PLAIN, &more)), "kept")?;
    let gone = [dropped(b"*c")];
    demand(is_missing(gc_chosen(alloc, &bytes, PLAIN, &gone)), "goes")
}

#[test]
fn the_first_of_no_export_is_told(rt: HostRuntime) -> std::result::Result<(), Fail> {
    let alloc = rt.alloc();
    let bytes = bytes_of(alloc, TWO)?;
    let fit = [kept(b"f"), dropped(b"*b"), kept(b"*")];
    demand(unfit(alloc, &bytes, PLAIN, &fit)? == None, "each fits")?;
    demand(unfit(alloc, &bytes, PLAIN, &[])? == None, "no choices")?;
    let others = [dropped(b"ab"), kept(b"b*"), kept(b"a")];
    demand(unfit(alloc, &bytes, PLAIN, &others)? == Some(1), "a star")?;
    let plain = [kept(b"f"), kept(b"ab"), kept(b"a")];
    demand(unfit(alloc, &bytes, PLAIN, &plain)? == Some(2), "a name")
}
