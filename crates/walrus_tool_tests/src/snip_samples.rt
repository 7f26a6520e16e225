//! Snipping by function, on small modules whose bytes were worked out by hand.

use std::alloc::Global;
use std::test::Fail;
use test_support::{bytes_of, demand, demand_bytes, is_text};
use walrus_tools::{Meant, Result, Wanted, snip_functions};

// Neither names nor producers are written.
const PLAIN: Wanted = Wanted {
    names: false,
    producers: false,
    legacy: true,
};

// The exported `b` calls a function that calls an imported one.
const CHAIN: &str =
    "00 61 73 6D 01 00 00 00 01 04 01 60 00 00 02 09 01 03 65 6E 76 01 69 00 00 03 03 02 00 00 07 05 01 01 62 00 02 0A 0B 02 04 00 10 00 0B 04 00 10 01 0B";

// The function between them traps, and what it imported is gone.
const CUT: &str =
    "00 61 73 6D 01 00 00 00 01 04 01 60 00 00 03 03 02 00 00 07 05 01 01 62 00 01 0A 0A 02 03 00 00 0B 04 00 10 00 0B";

// Functions `dbg_i`, which is imported, and `dbg_a`, one that is exported as `dbg_b`, and `main`, which calls them all.
const DEBUGGED: &str =
    "00 61 73 6D 01 00 00 00 01 04 01 60 00 00 02 09 01 03 65 6E 76 01 69 00 00 03 04 03 00 00 00 07 10 02 05 64 62 67 5F 62 00 02 04 6D 61 69 6E 00 03 0A 11 03 02 00 0B 03 00 01 0B 08 00 10 01 10 02 10 00 0B 00 16 04 6E 61 6D 65 01 0F 02 00 05 64 62 67 5F 69 01 05 64 62 67 5F 61";

// `dbg_a` and `dbg_b` trap, and stand behind `main`, which is larger; what is imported is as it was.
const QUIET: &str =
    "00 61 73 6D 01 00 00 00 01 04 01 60 00 00 02 09 01 03 65 6E 76 01 69 00 00 03 04 03 00 00 00 07 10 02 05 64 62 67 5F 62 00 03 04 6D 61 69 6E 00 01 0A 12 03 08 00 10 02 10 03 10 00 0B 03 00 00 0B 03 00 00 0B";

fn meant(name: &str) -> Meant<'_> {
    Meant { name }
}

// Fails where a caller refused, or answered with other bytes than these.
fn demand_output(
    alloc: Global,
    output: Result<Vec<u8>>,
    expected: &str,
) -> std::result::Result<(), Fail> {
    demand_bytes(alloc, &output?, expected, expected)
}

#[test]
fn a_function_traps_by_its_index(rt: HostRuntime) -> std::result::Result<(), Fail> {
    let alloc = rt.alloc();
    let bytes = bytes_of(alloc, CHAIN)?;
    let cut = snip_functions(alloc, &bytes, PLAIN, &[meant("1")]);
    demand_output(alloc, cut, CUT)
}

#[test]
fn functions_trap_by_a_star(rt: HostRuntime) -> std::result::Result<(), Fail> {
    let alloc = rt.alloc();
    let bytes = bytes_of(alloc, DEBUGGED)?;
    let quiet = snip_functions(alloc, &bytes, PLAIN, &[meant("dbg*")]);
    demand_output(alloc, quiet, QUIET)
}

#[test]
fn functions_trap_by_names(rt: HostRuntime) -> std::result::Result<(), Fail> {
    let alloc = rt.alloc();
    let bytes = bytes_of(alloc, DEBUGGED)?;
    let quiet = snip_functions(
        alloc,
        &bytes,
        PLAIN,
        &[meant("dbg_b"), meant("dbg_a"), meant("dbg_b")],
    );
    demand_output(alloc, quiet, QUIET)
}

// Whether these texts are refused, with this text.
fn refuses(alloc: Global, bytes: &[u8], functions: &[Meant<'_>], why: &str) -> bool {
    match snip_functions(alloc, bytes, PLAIN, functions) {
        Ok(_) => false,
        Err(refusal) => is_text(refusal.text(), why),
    }
}

#[test]
fn texts_that_mean_none_are_refused(rt: HostRuntime) -> std::result::Result<(), Fail> {
    let alloc = rt.alloc();
    let bytes = bytes_of(alloc, DEBUGGED)?;
    let of_index = refuses(alloc, &bytes, &[meant("4")], "not found");
    demand(of_index, "an index of no function")?;
    let of_name = refuses(alloc, &bytes, &[meant("dbg")], "not found");
    demand(of_name, "a name of no function")?;
    let of_star = refuses(alloc, &bytes, &[meant("*_i")], "not found");
    demand(of_star, "a star that an imported function alone fits")
}

#[test]
fn imported_functions_are_refused(rt: HostRuntime) -> std::result::Result<(), Fail> {
    let alloc = rt.alloc();
    let bytes = bytes_of(alloc, DEBUGGED)?;
    let why = "cannot replace function";
    let of_index = refuses(alloc, &bytes, &[meant("0")], why);
    demand(of_index, "the index of an imported function")?;
    let of_name = refuses(alloc, &bytes, &[meant("dbg_i")], why);
    demand(of_name, "the name of an imported function")?;
    let first = refuses(alloc, &bytes, &[meant("3"), meant("0"), meant("x")], why);
    demand(first, "the first text that is refused")?;
    let other = refuses(alloc, &bytes, &[meant("x"), meant("0")], "not found");
    demand(other, "the first text where it means no function")
}
