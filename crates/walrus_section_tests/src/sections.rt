//! What sections of a caller's own keep, what is written of them, and that gc and emission refuse where they do.

use crate::made::{add_noted, demand_twice, two_functions};
use crate::noted::Refuses;
use std::alloc::Global;
use std::test::Fail;
use test_support::{demand, is_text};
use walrus::passes::gc;
use walrus::{Error, Module};
use walrus_test_support::{demand_output, is_as_before, shown};

// The second function alone, and its index as the data of the section `s`.
const NOTED: &str =
    "00 61 73 6D 01 00 00 00 01 04 01 60 00 00 03 02 01 00 0A 04 01 02 00 0B 00 03 01 73 00";

// Both functions, and behind the header the section `dylink`, which is asked under no indices.
const DYLINK_FIRST: &str =
    "00 61 73 6D 01 00 00 00 00 08 06 64 79 6C 69 6E 6B FF 01 04 01 60 00 00 03 03 02 00 00 0A 07 02 02 00 0B 02 00 0B";

// The second function alone, which a section of debug information keeps that isn't written.
const DEBUG_KEPT: &str = "00 61 73 6D 01 00 00 00 01 04 01 60 00 00 03 02 01 00 0A 04 01 02 00 0B";

// What the module with such a section is written as behind gc.
fn write_with(
    alloc: Global,
    module: &mut Module,
    name: &'static str,
    refuses: Refuses,
) -> Result<Vec<u8>, Error> {
    if !add_noted(alloc, module, name, refuses) {
        return Err(Error::NotFound);
    }
    gc::run(alloc, module)?;
    module.emit_wasm(alloc)
}

// The same of a module of two functions.
fn written(alloc: Global, name: &'static str, refuses: Refuses) -> Result<Vec<u8>, Error> {
    let mut module = two_functions(alloc)?;
    write_with(alloc, &mut module, name, refuses)
}

#[test]
fn a_section_keeps_a_function_and_names_its_index(rt: HostRuntime) -> Result<(), Fail> {
    let found = written(rt.alloc(), "s", Refuses::Nothing);
    demand_output(rt.alloc(), found, NOTED)
}

#[test]
fn debug_information_keeps_and_is_not_written(rt: HostRuntime) -> Result<(), Fail> {
    let found = written(rt.alloc(), ".debug_line", Refuses::Data);
    demand_output(rt.alloc(), found, DEBUG_KEPT)
}

fn says_no(answer: Result<(), Error>) -> bool {
    match answer {
        Err(Error::Caller(text)) => is_text(&text, "no"),
        _ => false,
    }
}

fn emitted(alloc: Global, module: &mut Module) -> Result<(), Error> {
    module.emit_wasm(alloc)?;
    Ok(())
}

// Whether gc refuses since the section does so, in its words, and leaves the module as it was; and emission where gc passes.
fn refuses_so(alloc: Global, module: &mut Module, refuses: Refuses) -> bool {
    let before = shown(alloc, module);
    if refuses == Refuses::Roots {
        return says_no(gc::run(alloc, module)) && is_as_before(alloc, module, &before);
    }
    says_no(emitted(alloc, module))
        && is_as_before(alloc, module, &before)
        && gc::run(alloc, module).is_ok()
}

fn is_refused(alloc: Global, name: &'static str, refuses: Refuses) -> bool {
    match two_functions(alloc) {
        Ok(mut module) => add_noted(alloc, &mut module, name, refuses)
            && refuses_so(alloc, &mut module, refuses),
        Err(_) => false,
    }
}

#[test]
fn what_a_section_refuses_is_refused(rt: HostRuntime) -> Result<(), Fail> {
    demand(
        is_refused(rt.alloc(), "s", Refuses::Roots),
        "Caller of gc, from s",
    )?;
    demand(
        is_refused(rt.alloc(), "s", Refuses::Data),
        "Caller of emission, from s",
    )?;
    demand(
        is_refused(rt.alloc(), "dylink", Refuses::Data),
        "Caller of emission, from dylink",
    )
}

fn write_first(alloc: Global, module: &mut Module) -> Result<(), Fail> {
    let is_added = add_noted(alloc, module, "dylink", Refuses::Nothing);
    demand(is_added, "a section dylink")?;
    demand_twice(alloc, module, DYLINK_FIRST)
}

#[test]
fn dynamic_linking_stands_first(rt: HostRuntime) -> Result<(), Fail> {
    let mut module = two_functions(rt.alloc())?;
    write_first(rt.alloc(), &mut module)
}
