//! The words of the program, its statuses and its messages.

use std::test::Fail;
use test_support::{bytes_of, demand};
use walrus_test_support::{demand_comes_out, each_comes_out_by, refused, run, words_of};

const EMPTY: &str = "00 61 73 6D 01 00 00 00";

// The same with this program among the producers.
const PRODUCED: &str =
    "00 61 73 6D 01 00 00 00 00 27 09 70 72 6F 64 75 63 65 72 73 01 0C 70 72 6F 63 65 73 73 65 64 2D 62 79 01 06 77 61 6C 72 75 73 06 30 2E 32 38 2E 30";

// Words, and what the empty module comes out as by them.
const KNOWN: [(&str, &str); 3] = [
    ("--no-names", PRODUCED),
    ("--no-legacy,--no-names,--no-producers", EMPTY),
    ("--no-producers,--no-producers", EMPTY),
];

#[test]
fn known_words(rt: HostRuntime) -> Result<(), Fail> {
    demand_comes_out(rt.alloc(), &[], EMPTY, PRODUCED)?;
    for (text, expected) in &KNOWN {
        each_comes_out_by(rt.alloc(), text, &[(EMPTY, expected)])?;
    }
    Ok(())
}

const UNKNOWN: [&str; 7] = [
    // one empty word
    "",
    "--no-name",
    "--No-names",
    "--no-names ",
    "--no-names=1",
    "--no-legacy,x",
    "--reports",
];

#[test]
fn unknown_words(rt: HostRuntime) -> Result<(), Fail> {
    let empty = bytes_of(rt.alloc(), EMPTY)?;
    for text in &UNKNOWN {
        let words = words_of(rt.alloc(), text)?;
        let outcome = run(rt.alloc(), &words, &empty);
        demand(refused(&outcome, 2, "walrus-gc: unknown word\n"), text)?;
    }
    Ok(())
}
