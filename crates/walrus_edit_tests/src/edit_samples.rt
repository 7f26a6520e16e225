//! What edits make of a small module.

use std::alloc::Global;
use std::result;
use std::test::Fail;
use test_support::{bytes_of, demand_bytes};
use walrus_edits::{Refusal, Wanted, edit};

const PLAIN: Wanted = Wanted {
    names: true,
    producers: false,
    legacy: true,
};

// What these edits make of the bytes.
fn made(alloc: Global, bytes: &str, edits: &str, collects: bool) -> result::Result<Vec<u8>, Fail> {
    let bytes = bytes_of(alloc, bytes)?;
    let edits = bytes_of(alloc, edits)?;
    match edit(alloc, &bytes, &edits, PLAIN, collects) {
        Ok(output) => Ok(output),
        Err(Refusal::Input(_)) => Err(Fail::new("the input is refused")),
        Err(Refusal::Edit(_, _)) => Err(Fail::new("an edit is refused")),
        Err(Refusal::Whole(_)) => Err(Fail::new("the whole is refused")),
    }
}

// Fails where these edits make something else of `TWO`.
fn demand_made(alloc: Global, edits: &str, expected: &str, what: &str) -> result::Result<(), Fail> {
    let output = made(alloc, TWO, edits, false)?;
    demand_bytes(alloc, &output, expected, what)
}

// Two functions, the first exported as `f`, the second as `ab`.
const TWO: &str =
    "00 61 73 6D 01 00 00 00 01 04 01 60 00 00 03 03 02 00 00 07 0A 02 01 66 00 00 02 61 62 00 01 0A 08 02 03 00 01 0B 02 00 0B";

#[test]
fn no_edits_leave_all(rt: HostRuntime) -> result::Result<(), Fail> {
    demand_made(rt.alloc(), "", TWO, "nothing")
}

const G_FOR_F: &str =
    "00 61 73 6D 01 00 00 00 01 04 01 60 00 00 03 03 02 00 00 07 0A 02 01 67 00 00 02 61 62 00 01 0A 08 02 03 00 01 0B 02 00 0B";

const AB_EXPORTED: &str =
    "00 61 73 6D 01 00 00 00 01 04 01 60 00 00 03 03 02 00 00 07 06 01 02 61 62 00 01 0A 08 02 03 00 01 0B 02 00 0B";

const C_TOO: &str =
    "00 61 73 6D 01 00 00 00 01 04 01 60 00 00 03 03 02 00 00 07 0E 03 01 66 00 00 02 61 62 00 01 01 63 00 01 0A 08 02 03 00 01 0B 02 00 0B";

#[test]
fn exports_change(rt: HostRuntime) -> result::Result<(), Fail> {
    let alloc = rt.alloc();
    demand_made(alloc, "11 06 07 00 01 67 00 00", G_FOR_F, "renamed")?;
    demand_made(alloc, "12 02 07 00", AB_EXPORTED, "gone")?;
    demand_made(alloc, "07 05 01 01 63 00 01", C_TOO, "one more")
}

const AB_ALONE: &str =
    "00 61 73 6D 01 00 00 00 01 04 01 60 00 00 03 02 01 00 07 06 01 02 61 62 00 00 0A 04 01 02 00 0B";

#[test]
fn what_nothing_reaches_goes_where_it_is_asked(rt: HostRuntime) -> result::Result<(), Fail> {
    let alloc = rt.alloc();
    let output = made(alloc, TWO, "12 02 07 00", true)?;
    demand_bytes(alloc, &output, AB_ALONE, "gc")
}

const A_LONGER_BODY: &str =
    "00 61 73 6D 01 00 00 00 01 04 01 60 00 00 03 03 02 00 00 07 0A 02 01 66 00 00 02 61 62 00 01 0A 0A 02 05 00 01 01 01 0B 02 00 0B";

#[test]
fn bodies_are_set_and_fronted(rt: HostRuntime) -> result::Result<(), Fail> {
    let alloc = rt.alloc();
    demand_made(alloc, "11 07 0A 00 00 01 01 01 0B", A_LONGER_BODY, "set")?;
    demand_made(alloc, "17 03 00 01 01", A_LONGER_BODY, "in front")
}

// Twenty constants, each put in front of the others and dropped.
const TWENTY_FRONTS: &str =
    "17 04 00 41 01 1A 17 04 00 41 02 1A 17 04 00 41 03 1A 17 04 00 41 04 1A 17 04 00 41 05 1A 17 04 00 41 06 1A 17 04 00 41 07 1A 17 04 00 41 08 1A 17 04 00 41 09 1A 17 04 00 41 0A 1A 17 04 00 41 0B 1A 17 04 00 41 0C 1A 17 04 00 41 0D 1A 17 04 00 41 0E 1A 17 04 00 41 0F 1A 17 04 00 41 10 1A 17 04 00 41 11 1A 17 04 00 41 12 1A 17 04 00 41 13 1A 17 04 00 41 14 1A";

const TWENTY_IN_FRONT: &str =
    "00 61 73 6D 01 00 00 00 01 04 01 60 00 00 03 03 02 00 00 07 0A 02 01 66 00 00 02 61 62 00 01 0A 44 02 3F 00 41 14 1A 41 13 1A 41 12 1A 41 11 1A 41 10 1A 41 0F 1A 41 0E 1A 41 0D 1A 41 0C 1A 41 0B 1A 41 0A 1A 41 09 1A 41 08 1A 41 07 1A 41 06 1A 41 05 1A 41 04 1A 41 03 1A 41 02 1A 41 01 1A 01 0B 02 00 0B";

#[test]
fn many_fronts_stand_in_turn(rt: HostRuntime) -> result::Result<(), Fail> {
    demand_made(rt.alloc(), TWENTY_FRONTS, TWENTY_IN_FRONT, "fronts")
}

const STARTS: &str =
    "00 61 73 6D 01 00 00 00 01 04 01 60 00 00 03 03 02 00 00 07 0A 02 01 66 00 00 02 61 62 00 01 08 01 00 0A 08 02 03 00 01 0B 02 00 0B";

#[test]
fn edits_are_made_in_turn(rt: HostRuntime) -> result::Result<(), Fail> {
    let alloc = rt.alloc();
    demand_made(alloc, "08 01 00", STARTS, "the start function")?;
    demand_made(alloc, "08 01 00 12 01 08", TWO, "and none again")?;
    let there_and_back = "11 06 07 00 01 67 00 00 11 06 07 00 01 66 00 00";
    demand_made(alloc, there_and_back, TWO, "a name, and the old one")
}

const A_CUSTOM: &str =
    "00 61 73 6D 01 00 00 00 01 04 01 60 00 00 03 03 02 00 00 07 0A 02 01 66 00 00 02 61 62 00 01 0A 08 02 03 00 01 0B 02 00 0B 00 05 01 63 AA BB CC";

const ANOTHER: &str =
    "00 61 73 6D 01 00 00 00 01 04 01 60 00 00 03 03 02 00 00 07 0A 02 01 66 00 00 02 61 62 00 01 0A 08 02 03 00 01 0B 02 00 0B 00 03 01 63 DD";

#[test]
fn custom_sections_change(rt: HostRuntime) -> result::Result<(), Fail> {
    let alloc = rt.alloc();
    let add = "00 05 01 63 AA BB CC";
    demand_made(alloc, add, A_CUSTOM, "one more")?;
    demand_made(alloc, "00 05 01 63 AA BB CC 11 03 00 00 DD", ANOTHER, "set")?;
    let left = made(alloc, A_CUSTOM, "12 02 00 00", false)?;
    demand_bytes(alloc, &left, TWO, "gone")
}
