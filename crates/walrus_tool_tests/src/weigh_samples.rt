//! What is told of modules that become smaller, whose items and bytes were counted by hand.

use std::alloc::Global;
use std::test::Fail;
use test_support::{bytes_of, demand, demand_bytes, is_text};
use walrus_sections::Choice;
use walrus_tools::{
    Kinds, Meant, Smaller, Wanted, Weighed, gc_counted, report, report_lines, rest_of,
    snip_counted, stub_counted,
};

const PLAIN: Wanted = Wanted {
    names: true,
    producers: false,
    legacy: true,
};

// So many functions, and nothing else.
fn functions(count: usize) -> Kinds {
    Kinds {
        functions: count,
        tables: 0,
        memories: 0,
        tags: 0,
        globals: 0,
        elements: 0,
        data_: 0,
    }
}

// Of so many functions so many are left, and these are the bytes.
fn told(
    before: usize,
    after: usize,
    sizes: (usize, usize),
    bodies: usize,
    debug: usize,
) -> Weighed {
    Weighed {
        before: functions(before),
        after: functions(after),
        read: sizes.0,
        written: sizes.1,
        bodies,
        debug,
    }
}

fn choice(is_kept: bool, name: &[u8]) -> Choice<'_> {
    Choice { is_kept, name }
}

// Fails where the bytes are others, or something else is told.
fn demand_smaller(
    alloc: Global,
    smaller: &Smaller,
    expected: &str,
    told: Weighed,
) -> std::result::Result<(), Fail> {
    demand_bytes(alloc, &smaller.output, expected, "the output")?;
    demand(smaller.told == told, "what is told")
}

// ---- gc_counted and report

// Two functions, the first exported as `f`, the second, of a body of 2 bytes, as `ab`; 20 bytes of sections `.debug_x` and `.debug`, and 9 of `.debu`.
const TWO: &str =
    "00 61 73 6D 01 00 00 00 00 09 08 2E 64 65 62 75 67 5F 78 01 04 01 60 00 00 00 07 05 2E 64 65 62 75 CC 03 03 02 00 00 07 0A 02 01 66 00 00 02 61 62 00 01 0A 08 02 03 00 01 0B 02 00 0B 00 07 06 2E 64 65 62 75 67";

const TWO_LEFT: &str =
    "00 61 73 6D 01 00 00 00 01 04 01 60 00 00 03 03 02 00 00 07 0A 02 01 66 00 00 02 61 62 00 01 0A 08 02 03 00 01 0B 02 00 0B 00 07 05 2E 64 65 62 75 CC";

const F_LEFT: &str =
    "00 61 73 6D 01 00 00 00 01 04 01 60 00 00 03 02 01 00 07 05 01 01 66 00 00 0A 05 01 03 00 01 0B 00 07 05 2E 64 65 62 75 CC";

#[test]
fn what_is_dropped_is_weighed(rt: HostRuntime) -> std::result::Result<(), Fail> {
    let alloc = rt.alloc();
    let bytes = bytes_of(alloc, TWO)?;
    let all = gc_counted(alloc, &bytes, PLAIN, &[])?;
    demand_smaller(alloc, &all, TWO_LEFT, told(2, 2, (70, 50), 0, 20))?;
    let f = [choice(true, b"f")];
    let one = gc_counted(alloc, &bytes, PLAIN, &f)?;
    demand_smaller(alloc, &one, F_LEFT, told(2, 1, (70, 41), 2, 20))
}

#[test]
fn the_report_tells_as_much(rt: HostRuntime) -> std::result::Result<(), Fail> {
    let alloc = rt.alloc();
    let bytes = bytes_of(alloc, TWO)?;
    let f = [choice(true, b"f")];
    let found = report(alloc, &bytes, PLAIN, &f)?;
    demand(found == told(2, 1, (70, 41), 2, 20), "of `f`")?;
    demand(rest_of(found) == 48, "the rest of the input")
}

fn is_refused(answer: walrus_tools::Result<Weighed>, why: &str) -> bool {
    match answer {
        Ok(_) => false,
        Err(refusal) => is_text(refusal.text(), why),
    }
}

#[test]
fn a_name_of_no_export_has_no_report(rt: HostRuntime) -> std::result::Result<(), Fail> {
    let alloc = rt.alloc();
    let bytes = bytes_of(alloc, TWO)?;
    let none = report(alloc, &bytes, PLAIN, &[choice(false, b"g")]);
    demand(is_refused(none, "not found"), "a name of no export")
}

// ---- snip_counted

// Function 0 is imported; the exported `b`, function 2, calls function 1, of a body of 4 bytes, which calls it.
const CHAIN: &str =
    "00 61 73 6D 01 00 00 00 01 04 01 60 00 00 02 09 01 03 65 6E 76 01 69 00 00 03 03 02 00 00 07 05 01 01 62 00 02 0A 0B 02 04 00 10 00 0B 04 00 10 01 0B";

// `b` alone, which traps.
const B_TRAPS: &str =
    "00 61 73 6D 01 00 00 00 01 04 01 60 00 00 03 02 01 00 07 05 01 01 62 00 00 0A 05 01 03 00 00 0B";

#[test]
fn what_a_snipped_function_called_is_weighed(rt: HostRuntime) -> std::result::Result<(), Fail> {
    let alloc = rt.alloc();
    let bytes = bytes_of(alloc, CHAIN)?;
    let one = snip_counted(alloc, &bytes, PLAIN, &[Meant { name: "b" }])?;
    demand_smaller(alloc, &one, B_TRAPS, told(3, 1, (50, 32), 4, 0))
}

// ---- stub_counted

// Functions `f` and `g` from `env`, and `h` from `m`; the exported `a` calls them all.
const IMPORTS: &str =
    "00 61 73 6D 01 00 00 00 01 04 01 60 00 00 02 17 03 03 65 6E 76 01 66 00 00 03 65 6E 76 01 67 00 00 01 6D 01 68 00 00 03 02 01 00 07 05 01 01 61 00 03 0A 0A 01 08 00 10 00 10 01 10 02 0B";

// `f` and `g` trap.
const STUBBED: &str =
    "00 61 73 6D 01 00 00 00 01 04 01 60 00 00 02 07 01 01 6D 01 68 00 00 03 04 03 00 00 00 07 05 01 01 61 00 01 0A 12 03 08 00 10 02 10 03 10 00 0B 03 00 00 0B 03 00 00 0B";

#[test]
fn stubs_are_weighed(rt: HostRuntime) -> std::result::Result<(), Fail> {
    let alloc = rt.alloc();
    let bytes = bytes_of(alloc, IMPORTS)?;
    let env = [choice(false, b"env")];
    let of_env = stub_counted(alloc, &bytes, PLAIN, &env, &[])?;
    demand_smaller(alloc, &of_env, STUBBED, told(4, 4, (62, 56), 0, 0))
}

// ---- report_lines

const LESS: &str = "functions kept 1 dropped 1
tables kept 0 dropped 0
memories kept 0 dropped 0
tags kept 0 dropped 0
globals kept 0 dropped 0
elements kept 0 dropped 0
data kept 0 dropped 0
bytes read 70 written 41
bytes of dropped functions 2
bytes of debug information 20
bytes of the rest 7 less
";

#[test]
fn less_is_told(rt: HostRuntime) -> std::result::Result<(), Fail> {
    let text = report_lines(rt.alloc(), &told(2, 1, (70, 41), 2, 20))?;
    demand(is_text(text.as_str(), LESS), "eleven lines")
}

const MORE: &str = "functions kept 7 dropped 1
tables kept 6 dropped 2
memories kept 5 dropped 3
tags kept 4 dropped 4
globals kept 3 dropped 5
elements kept 2 dropped 6
data kept 1 dropped 7
bytes read 70 written 71
bytes of dropped functions 3
bytes of debug information 4
bytes of the rest 8 more
functions stand by falling size, so indices may take more bytes
";

// Of each kind another count.
const OF_EACH: Kinds = Kinds {
    functions: 7,
    tables: 6,
    memories: 5,
    tags: 4,
    globals: 3,
    elements: 2,
    data_: 1,
};

const EIGHT: Kinds = Kinds {
    functions: 8,
    tables: 8,
    memories: 8,
    tags: 8,
    globals: 8,
    elements: 8,
    data_: 8,
};

#[test]
fn more_is_told(rt: HostRuntime) -> std::result::Result<(), Fail> {
    let longer = Weighed {
        before: EIGHT,
        after: OF_EACH,
        read: 70,
        written: 71,
        bodies: 3,
        debug: 4,
    };
    let text = report_lines(rt.alloc(), &longer)?;
    demand(is_text(text.as_str(), MORE), "twelve lines")
}

// An input of which nothing but debug information was dropped.
#[test]
fn nothing_less_is_told(rt: HostRuntime) -> std::result::Result<(), Fail> {
    let text = report_lines(rt.alloc(), &told(0, 0, (28, 8), 0, 20))?;
    demand(
        text.as_str().ends_with("bytes of the rest 0 less\n"),
        "no line behind it",
    )
}
