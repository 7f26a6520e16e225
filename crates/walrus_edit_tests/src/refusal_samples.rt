//! What is refused of a list of edits, and how that is told.

use std::alloc::Global;
use std::result;
use std::test::Fail;
use test_support::{bytes_of, demand, is_text};
use walrus_edits::{Refusal, Wanted, edit};

const PLAIN: Wanted = Wanted {
    names: true,
    producers: false,
    legacy: true,
};

// Two functions, the first exported as `f`, the second as `ab`.
const TWO: &str =
    "00 61 73 6D 01 00 00 00 01 04 01 60 00 00 03 03 02 00 00 07 0A 02 01 66 00 00 02 61 62 00 01 0A 08 02 03 00 01 0B 02 00 0B";

// How these edits of `TWO` are refused, if they are.
fn refusal_of(alloc: Global, edits: &str) -> result::Result<Option<Refusal>, Fail> {
    let bytes = bytes_of(alloc, TWO)?;
    let edits = bytes_of(alloc, edits)?;
    match edit(alloc, &bytes, &edits, PLAIN, false) {
        Ok(_) => Ok(None),
        Err(refusal) => Ok(Some(refusal)),
    }
}

// Whether so many edits were made, and the next one is refused for this.
fn is_edit(refusal: &Option<Refusal>, made: usize, wanted: &str) -> bool {
    match refusal {
        Some(Refusal::Edit(count, error)) => *count == made && is_text(error.text(), wanted),
        _ => false,
    }
}

// Whether the whole is refused by this number.
fn is_whole(refusal: &Option<Refusal>, number: u32) -> bool {
    match refusal {
        Some(Refusal::Whole(flaw)) => flaw.number() == number,
        _ => false,
    }
}

#[test]
fn the_edit_is_told_by_how_many_were_made(rt: HostRuntime) -> result::Result<(), Fail> {
    let alloc = rt.alloc();
    let twice = refusal_of(alloc, "12 02 07 00 12 02 07 00")?;
    demand(
        is_edit(&twice, 1, "reference to an item that is not live"),
        "deleted twice",
    )?;
    let unknown = refusal_of(alloc, "12 02 07 05")?;
    demand(
        is_edit(&unknown, 0, "reference to an item that is not live"),
        "never there",
    )?;
    let short = refusal_of(alloc, "12 02 07 00 12 01 07")?;
    demand(
        is_edit(&short, 1, "The input WebAssembly is invalid"),
        "no form",
    )
}

#[test]
fn the_whole_is_told_by_its_rule(rt: HostRuntime) -> result::Result<(), Fail> {
    let alloc = rt.alloc();
    let names = refusal_of(alloc, "07 05 01 01 66 00 00")?;
    demand(is_whole(&names, 7), "two exports of one name")
}

#[test]
fn the_input_is_told(rt: HostRuntime) -> result::Result<(), Fail> {
    let alloc = rt.alloc();
    let bytes = bytes_of(alloc, "00 61 73 6D")?;
    let answer = edit(alloc, &bytes, &[], PLAIN, false);
    let told = match answer {
        Err(Refusal::Input(_)) => true,
        _ => false,
    };
    demand(told, "no module")
}
