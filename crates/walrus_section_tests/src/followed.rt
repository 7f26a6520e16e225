//! Sections that the library has for its callers: one of places in the code, and one that lists functions.

use std::alloc::Global;
use std::test::Fail;
use test_support::{add_bytes, demand};
use walrus::passes::gc;
use walrus::{
    Error, FunctionId, ListedSection, Module, ModuleConfig, ModuleCustomSections, PlacesSection,
    SectionEntry,
};
use walrus_test_support::demand_output;

// Two functions, of which the first is exported; its one operator stands at 31, the three of the second at 34, 36 and 37.
const TWO: &str =
    "00 61 73 6D 01 00 00 00 01 04 01 60 00 00 03 03 02 00 00 07 05 01 01 61 00 00 0A 0A 02 02 00 0B 05 00 41 00 1A 0B";

// The first alone, its operator at 30, and a section of places that says 30 and 2.
const PLACED: &str =
    "00 61 73 6D 01 00 00 00 01 04 01 60 00 00 03 02 01 00 07 05 01 01 61 00 00 0A 04 01 02 00 0B 00 0A 01 73 1E 00 00 00 02 00 00 00";

// The same with a section of places that says none.
const NOT_PLACED: &str =
    "00 61 73 6D 01 00 00 00 01 04 01 60 00 00 03 02 01 00 07 05 01 01 61 00 00 0A 04 01 02 00 0B 00 02 01 73";

// Both, the larger one in front; its operators stand at 31, 33 and 34, that of the other at 37; and a section of places that says 33 and 3, 37
// and 2.
const BOTH_PLACED: &str =
    "00 61 73 6D 01 00 00 00 01 04 01 60 00 00 03 03 02 00 00 07 05 01 01 61 00 01 0A 0A 02 05 00 41 00 1A 0B 02 00 0B 00 12 01 73 21 00 00 00 03 00 00 00 25 00 00 00 02 00 00 00";

// Both, and a section that lists them by their new indices, 0 and 1.
const LISTED: &str =
    "00 61 73 6D 01 00 00 00 01 04 01 60 00 00 03 03 02 00 00 07 05 01 01 61 00 01 0A 0A 02 05 00 41 00 1A 0B 02 00 0B 00 0A 01 73 00 00 00 00 01 00 00 00";

fn read(alloc: Global, keeps: bool) -> Result<Module, Error> {
    let mut bytes = Vec::new(alloc);
    let _is_read = add_bytes(&mut bytes, TWO);
    let mut config = ModuleConfig::new();
    config
        .generate_producers_section(false)
        .preserve_code_transform(keeps);
    config.parse(alloc, &bytes)
}

// ---- places

// Adds a section of three places of the input: one of the second function, one of the first, and one at which no operator begins.
fn add_places(alloc: Global, customs: &mut ModuleCustomSections) -> Result<(), Error> {
    let mut section = PlacesSection::new(alloc, String::from_str(alloc, "s")?);
    section.add(36, 3)?;
    section.add(32, 1)?;
    section.add(31, 2)?;
    customs.add(SectionEntry::Boxed(Box::new(alloc, section)?))?;
    Ok(())
}

fn demand_placed(alloc: Global, module: &mut Module, expected: &str) -> Result<(), Fail> {
    add_places(alloc, &mut module.customs)?;
    gc::run(alloc, module)?;
    demand_output(alloc, module.emit_wasm(alloc), expected)?;
    demand_output(alloc, module.emit_wasm(alloc), expected)
}

#[test]
fn a_place_of_an_operator_that_went_is_left_out(rt: HostRuntime) -> Result<(), Fail> {
    let mut module = read(rt.alloc(), true)?;
    demand_placed(rt.alloc(), &mut module, PLACED)
}

#[test]
fn without_the_flag_no_place_is_written(rt: HostRuntime) -> Result<(), Fail> {
    let mut module = read(rt.alloc(), false)?;
    demand_placed(rt.alloc(), &mut module, NOT_PLACED)
}

fn demand_both(alloc: Global, module: &mut Module) -> Result<(), Fail> {
    add_places(alloc, &mut module.customs)?;
    demand_output(alloc, module.emit_wasm(alloc), BOTH_PLACED)
}

#[test]
fn places_are_written_in_the_order_in_which_they_came(rt: HostRuntime) -> Result<(), Fail> {
    let mut module = read(rt.alloc(), true)?;
    demand_both(rt.alloc(), &mut module)
}

// ---- lists

// Adds a section that lists the second function and then the first.
fn add_list(alloc: Global, customs: &mut ModuleCustomSections) -> Result<(), Error> {
    let mut ids = Vec::new(alloc);
    ids.push(FunctionId::at(1))?;
    ids.push(FunctionId::at(0))?;
    let section = ListedSection::new(alloc, String::from_str(alloc, "s")?, ids);
    customs.add(SectionEntry::Boxed(Box::new(alloc, section)?))?;
    Ok(())
}

fn demand_listed(alloc: Global, module: &mut Module) -> Result<(), Fail> {
    add_list(alloc, &mut module.customs)?;
    gc::run(alloc, module)?;
    demand(
        module.funcs.contains(FunctionId::at(1)),
        "what is listed stays",
    )?;
    demand_output(alloc, module.emit_wasm(alloc), LISTED)
}

#[test]
fn functions_are_listed_by_their_new_indices(rt: HostRuntime) -> Result<(), Fail> {
    let mut module = read(rt.alloc(), false)?;
    demand_listed(rt.alloc(), &mut module)
}
