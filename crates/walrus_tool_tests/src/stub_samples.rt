//! Stubs of imports by names, on a small module whose bytes were worked out by hand.

use std::alloc::Global;
use std::test::Fail;
use test_support::{bytes_of, demand, demand_bytes, is_text};
use walrus_sections::Choice;
use walrus_tools::{Result, Wanted, stub_matching};

// Neither names nor producers are written.
const PLAIN: Wanted = Wanted {
    names: false,
    producers: false,
    legacy: true,
};

// Functions `f` and `g` from `env`, and `h` from `m`; the exported `a` calls them all.
const IMPORTS: &str =
    "00 61 73 6D 01 00 00 00 01 04 01 60 00 00 02 17 03 03 65 6E 76 01 66 00 00 03 65 6E 76 01 67 00 00 01 6D 01 68 00 00 03 02 01 00 07 05 01 01 61 00 03 0A 0A 01 08 00 10 00 10 01 10 02 0B";

// `f` alone traps, and stands behind `a`, which is larger.
const ONE: &str =
    "00 61 73 6D 01 00 00 00 01 04 01 60 00 00 02 0F 02 03 65 6E 76 01 67 00 00 01 6D 01 68 00 00 03 03 02 00 00 07 05 01 01 61 00 02 0A 0E 02 08 00 10 03 10 00 10 01 0B 03 00 00 0B";

// `f` and `g` trap.
const TWO: &str =
    "00 61 73 6D 01 00 00 00 01 04 01 60 00 00 02 07 01 01 6D 01 68 00 00 03 04 03 00 00 00 07 05 01 01 61 00 01 0A 12 03 08 00 10 02 10 03 10 00 0B 03 00 00 0B 03 00 00 0B";

fn goes(name: &[u8]) -> Choice<'_> {
    Choice {
        is_kept: false,
        name,
    }
}

fn kept(name: &[u8]) -> Choice<'_> {
    Choice {
        is_kept: true,
        name,
    }
}

// Fails where a caller refused, or answered with other bytes than these.
fn demand_output(
    alloc: Global,
    output: Result<Vec<u8>>,
    expected: &str,
) -> std::result::Result<(), Fail> {
    demand_bytes(alloc, &output?, expected, expected)
}

#[test]
fn imports_trap_by_their_names(rt: HostRuntime) -> std::result::Result<(), Fail> {
    let alloc = rt.alloc();
    let bytes = bytes_of(alloc, IMPORTS)?;
    let one = stub_matching(alloc, &bytes, PLAIN, &[goes(b"e*")], &[goes(b"f")]);
    demand_output(alloc, one, ONE)
}

#[test]
fn imports_trap_under_any_name(rt: HostRuntime) -> std::result::Result<(), Fail> {
    let alloc = rt.alloc();
    let bytes = bytes_of(alloc, IMPORTS)?;
    let of_env = stub_matching(alloc, &bytes, PLAIN, &[goes(b"env")], &[]);
    demand_output(alloc, of_env, TWO)?;
    let but_of_m = stub_matching(alloc, &bytes, PLAIN, &[goes(b"*"), kept(b"m")], &[]);
    demand_output(alloc, but_of_m, TWO)
}

// Whether it is refused where no function is imported so.
fn finds_none(alloc: Global, bytes: &[u8], from: &[u8], names: &[Choice<'_>]) -> bool {
    match stub_matching(alloc, bytes, PLAIN, &[goes(from)], names) {
        Ok(_) => false,
        Err(refusal) => is_text(refusal.text(), "not found"),
    }
}

#[test]
fn other_imports_are_refused(rt: HostRuntime) -> std::result::Result<(), Fail> {
    let alloc = rt.alloc();
    let bytes = bytes_of(alloc, IMPORTS)?;
    let of_module = finds_none(alloc, &bytes, b"x", &[]);
    demand(of_module, "a module that nothing is imported from")?;
    let of_name = finds_none(alloc, &bytes, b"env", &[goes(b"h")]);
    demand(of_name, "a name that is imported from another module")
}
