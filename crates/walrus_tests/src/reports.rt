//! Reports: how many items are kept and how many dropped, of worked modules, and of what a run wrote.

use std::alloc::Global;
use std::str;
use std::test::Fail;
use test_support::{bytes_of, demand};
use walrus_test_support::{Outcome, each_is_refused_by, ended, run, words_of};

// Modules, and what a report on them says.
const ROWS: [(&str, &str); 5] = [
    // the header alone
    (
        "00 61 73 6D 01 00 00 00",
        "functions kept 0 dropped 0\ntables kept 0 dropped 0\nmemories kept 0 dropped 0\ntags kept 0 dropped 0\nglobals kept 0 dropped 0\nelements kept 0 dropped 0\ndata kept 0 dropped 0\n",
    ),
    // two empty functions, of which the second is exported
    (
        "00 61 73 6D 01 00 00 00 01 04 01 60 00 00 03 03 02 00 00 07 05 01 01 66 00 01 0A 07 02 02 00 0B 02 00 0B",
        "functions kept 1 dropped 1\ntables kept 0 dropped 0\nmemories kept 0 dropped 0\ntags kept 0 dropped 0\nglobals kept 0 dropped 0\nelements kept 0 dropped 0\ndata kept 0 dropped 0\n",
    ),
    // a memory and a passive data segment, which nothing names
    (
        "00 61 73 6D 01 00 00 00 05 03 01 00 01 0C 01 01 0B 04 01 01 01 AA",
        "functions kept 0 dropped 0\ntables kept 0 dropped 0\nmemories kept 0 dropped 1\ntags kept 0 dropped 0\nglobals kept 0 dropped 0\nelements kept 0 dropped 0\ndata kept 0 dropped 1\n",
    ),
    // a function that drops a data segment, and the memory that stays with data
    (
        "00 61 73 6D 01 00 00 00 01 04 01 60 00 00 03 02 01 00 05 03 01 00 01 07 05 01 01 66 00 00 0C 01 01 0A 07 01 05 00 FC 09 00 0B 0B 04 01 01 01 AA",
        "functions kept 1 dropped 0\ntables kept 0 dropped 0\nmemories kept 1 dropped 0\ntags kept 0 dropped 0\nglobals kept 0 dropped 0\nelements kept 0 dropped 0\ndata kept 1 dropped 0\n",
    ),
    // an active segment of a function, and its table
    (
        "00 61 73 6D 01 00 00 00 01 04 01 60 00 00 03 02 01 00 04 04 01 70 00 01 09 07 01 00 41 00 0B 01 00 0A 04 01 02 00 0B",
        "functions kept 1 dropped 0\ntables kept 1 dropped 0\nmemories kept 0 dropped 0\ntags kept 0 dropped 0\nglobals kept 0 dropped 0\nelements kept 1 dropped 0\ndata kept 0 dropped 0\n",
    ),
];

// Inputs that are refused as invalid.
const INVALID: [&str; 5] = [
    "00 61 73 6D 01 00 00",
    "00 61 73 6D 01 00 00 00 03 02 01 00 01 04 01 60 00 00 0A 04 01 02 00 0B",
    "00 61 73 6D 01 00 00 00 01 04 01 60 00 00 01 04 01 60 00 00",
    "00 61 73 6D 01 00 00 00 01 05 01 60 00 00",
    "00 61 73 6D 01 00 00 00 01 04 01 60 00 00 03 03 02 00 00 0A 04 01 02 00 0B",
];

fn is_reported(outcome: &Outcome, report: &str) -> bool {
    ended(outcome, 0, "") && outcome.output.as_slice() == report.as_bytes()
}

// Fails where a report by these words, with a comma between them, says something else of an input.
fn each_is_reported(alloc: Global, text: &str, rows: &[(&str, &str)]) -> Result<(), Fail> {
    let words = words_of(alloc, text)?;
    for (input, report) in rows {
        let bytes = bytes_of(alloc, input)?;
        demand(is_reported(&run(alloc, &words, &bytes), report), input)?;
    }
    Ok(())
}

#[test]
fn reports_are_written(rt: HostRuntime) -> Result<(), Fail> {
    each_is_reported(rt.alloc(), "--no-names,--report", &ROWS)?;
    each_is_refused_by(rt.alloc(), "--report", &INVALID)
}

// What the program makes of the bytes at this word.
fn made(alloc: Global, word: &str, bytes: &[u8]) -> Result<Vec<u8>, Fail> {
    let words = words_of(alloc, word)?;
    Ok(run(alloc, &words, bytes).output)
}

// Whether these are seven lines that say that nothing is dropped.
fn drops_nothing(report: &[u8]) -> bool {
    match str::from_utf8(report) {
        Ok(text) => text.lines().take(9).count() == 7
            && text.lines().all(|line| line.ends_with(" dropped 0")),
        Err(_) => false,
    }
}

// Fails where something of what a run makes of the module is dropped, or a second run leaves other numbers.
fn settle(alloc: Global, input: &str) -> Result<(), Fail> {
    let bytes = bytes_of(alloc, input)?;
    let first = made(alloc, "--no-producers", &bytes)?;
    let second = made(alloc, "--no-producers", &first)?;
    let report = made(alloc, "--report", &first)?;
    let again = made(alloc, "--report", &second)?;
    demand(drops_nothing(&report) && again == report, input)
}

/// Fails where a second run drops something of what the first one made of one of these modules, or a report says so.
pub(crate) fn each_settles(alloc: Global, rows: &[(&str, &str)]) -> Result<(), Fail> {
    for (input, _) in rows {
        settle(alloc, input)?;
    }
    Ok(())
}

/// The same of modules that are written as they are.
pub(crate) fn each_same_settles(alloc: Global, rows: &[&str]) -> Result<(), Fail> {
    for input in rows {
        settle(alloc, input)?;
    }
    Ok(())
}
