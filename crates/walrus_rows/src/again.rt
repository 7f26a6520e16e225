//! The program over its own output: the same bytes come out, and the reports on both are the same and drop nothing.

use crate::page::Page;
use std::alloc::Global;
use std::str;
use walrus::tool::{FromRead, FromWrite, report, run};
use walrus::{ModuleConfig, Result};

/// Modules with what they hold.
pub const TWICE: [(&str, &str); 7] = [
    (
        "of two functions the second is exported",
        "00 61 73 6D 01 00 00 00 01 04 01 60 00 00 03 03 02 00 00 07 05 01 01 66 00 01 0A 07 02 02 00 0B 02 00 0B",
    ),
    (
        "a global names a function that nothing declares",
        "00 61 73 6D 01 00 00 00 01 04 01 60 00 00 03 02 01 00 06 06 01 70 00 D2 00 0B 07 05 01 01 67 03 00 0A 04 01 02 00 0B",
    ),
    (
        "an element segment keeps its table and a function",
        "00 61 73 6D 01 00 00 00 01 04 01 60 00 00 03 02 01 00 04 04 01 70 00 01 09 07 01 00 41 00 0B 01 00 0A 04 01 02 00 0B",
    ),
    (
        "of two functions the second is larger",
        "00 61 73 6D 01 00 00 00 01 04 01 60 00 00 03 03 02 00 00 07 09 02 01 61 00 00 01 62 00 01 0A 0A 02 02 00 0B 05 00 41 00 1A 0B",
    ),
    (
        "items of each kind have names",
        "00 61 73 6D 01 00 00 00 01 04 01 60 00 00 03 02 01 00 05 03 01 00 01 0D 03 01 00 00 07 0D 03 01 66 00 00 01 6D 02 00 01 74 04 00 00 25 04 6E 61 6D 65 01 07 02 00 01 46 09 01 78 02 06 01 00 01 00 01 4C 06 04 01 00 01 4D 0B 04 01 00 01 54 07 05 01 0A 09 01 07 01 01 7F 20 00 1A 0B",
    ),
    (
        "custom sections stand between the others",
        "00 61 73 6D 01 00 00 00 00 03 01 61 01 00 0D 0B 2E 64 65 62 75 67 5F 69 6E 66 6F 02 01 04 01 60 00 00 03 02 01 00 07 05 01 01 66 00 00 00 0A 08 64 79 6C 69 6E 6B 2E 30 03 0A 04 01 02 00 0B 00 03 01 62 04",
    ),
    (
        "a legacy handler's type is added",
        "00 61 73 6D 01 00 00 00 01 08 02 60 00 00 60 01 7F 00 03 02 01 00 0D 03 01 00 01 07 05 01 01 66 00 00 0A 0C 01 0A 00 06 7F 41 00 07 00 0B 1A 0B",
    ),
];

fn ran(alloc: Global, config: &ModuleConfig, input: &[u8]) -> Option<Vec<u8>> {
    let mut output = Vec::new(alloc);
    let mut sink = FromWrite::new(&mut output);
    match run(alloc, &mut FromRead::new(input), &mut sink, config) {
        Ok(()) => Some(output),
        Err(_) => None,
    }
}

fn reported(alloc: Global, config: &ModuleConfig, input: &[u8]) -> Option<Vec<u8>> {
    let mut text = Vec::new(alloc);
    let mut sink = FromWrite::new(&mut text);
    match report(alloc, &mut FromRead::new(input), &mut sink, config) {
        Ok(()) => Some(text),
        Err(_) => None,
    }
}

fn drops_nothing(told: &[u8]) -> bool {
    match str::from_utf8(told) {
        Ok(text) => text.lines().all(|line| line.ends_with(" dropped 0")),
        Err(_) => false,
    }
}

// What is told of an output and of what comes out of it.
fn tell_both(page: &mut Page, config: &ModuleConfig, once: &[u8], twice: &[u8]) -> Result<()> {
    page.holds("the same bytes", once == twice)?;
    match (
        reported(page.alloc(), config, once),
        reported(page.alloc(), config, twice),
    ) {
        (Some(first), Some(second)) => {
            page.holds("the same numbers", first.as_slice() == second.as_slice())?;
            page.holds(
                "nothing is dropped",
                drops_nothing(&first) && drops_nothing(&second),
            )
        }
        _ => page.line("reports", "refused"),
    }
}

/// Runs the program over these bytes and over what comes out, and compares.
pub fn run_twice(page: &mut Page, input: &[u8]) -> Result<()> {
    let alloc = page.alloc();
    let mut config = ModuleConfig::new();
    config.generate_producers_section(false);
    let Some(once) = ran(alloc, &config, input) else {
        return page.line("the first run", "refused");
    };
    match ran(alloc, &config, &once) {
        Some(twice) => tell_both(page, &config, &once, &twice),
        None => page.line("the second run", "refused"),
    }
}
