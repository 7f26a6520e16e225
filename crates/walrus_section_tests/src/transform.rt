//! The code transform: what emission tells of places, and custom sections that follow it.

use crate::follower::Follower;
use std::alloc::Global;
use std::test::Fail;
use test_support::{add_bytes, demand, is_text};
use walrus::passes::gc;
use walrus::{
    CodeTransform, Error, FunctionId, InstrLocId, Module, ModuleConfig, ModuleCustomSections,
    ModuleFunctions, SectionEntry,
};
use walrus_test_support::demand_output;

const EMPTY: &str = "00 61 73 6D 01 00 00 00";

// One exported function, beside sections of dynamic linking, of debug information, and two others.
const ONE: &str =
    "00 61 73 6D 01 00 00 00 00 03 01 61 01 00 0D 0B 2E 64 65 62 75 67 5F 69 6E 66 6F 02 01 04 01 60 00 00 03 02 01 00 07 05 01 01 66 00 00 00 0A 08 64 79 6C 69 6E 6B 2E 30 03 0A 04 01 02 00 0B 00 03 01 62 04";

// What it is written as.
const ONE_OUT: &str =
    "00 61 73 6D 01 00 00 00 00 0A 08 64 79 6C 69 6E 6B 2E 30 03 01 04 01 60 00 00 03 02 01 00 07 05 01 01 66 00 00 0A 04 01 02 00 0B 00 03 01 61 01 00 03 01 62 04";

// The same with a section that says where the count of functions stands: at 39.
const ONE_FOLLOWED: &str =
    "00 61 73 6D 01 00 00 00 00 0A 08 64 79 6C 69 6E 6B 2E 30 03 01 04 01 60 00 00 03 02 01 00 07 05 01 01 66 00 00 0A 04 01 02 00 0B 00 03 01 61 01 00 03 01 62 04 00 03 01 73 27";

// The same with that section as it was before: at 9.
const ONE_UNTOLD: &str =
    "00 61 73 6D 01 00 00 00 00 0A 08 64 79 6C 69 6E 6B 2E 30 03 01 04 01 60 00 00 03 02 01 00 07 05 01 01 66 00 00 0A 04 01 02 00 0B 00 03 01 61 01 00 03 01 62 04 00 03 01 73 09";

// Two exported functions, the larger of which is written first.
const TWO: &str =
    "00 61 73 6D 01 00 00 00 01 04 01 60 00 00 03 03 02 00 00 07 09 02 01 61 00 00 01 62 00 01 0A 0A 02 02 00 0B 05 00 41 00 1A 0B";

fn bytes_of(alloc: Global, text: &str) -> Vec<u8> {
    let mut bytes = Vec::new(alloc);
    let _is_read = add_bytes(&mut bytes, text);
    bytes
}

fn read(alloc: Global, text: &str, keeps: bool) -> Result<Module, Error> {
    let mut config = ModuleConfig::new();
    config
        .generate_producers_section(false)
        .preserve_code_transform(keeps);
    config.parse(alloc, &bytes_of(alloc, text))
}

fn is_range(
    transform: &CodeTransform,
    at: usize,
    id: FunctionId,
    start: usize,
    end: usize,
) -> bool {
    match transform.function_ranges.get(at) {
        Some(range) => range.0 == id && range.1.start == start && range.1.end == end,
        None => false,
    }
}

fn first_function(functions: &ModuleFunctions) -> Result<FunctionId, Error> {
    match functions.iter().next() {
        Some(function) => Ok(function.id()),
        None => Err(Error::NotFound),
    }
}

// Whether one function's body is told at 41, and so many locations.
fn tells_one(functions: &ModuleFunctions, transform: &CodeTransform, locations: usize) -> bool {
    match first_function(functions) {
        Ok(id) => {
            transform.code_section_start == 39
                && transform.function_ranges.len() == 1
                && is_range(transform, 0, id, 41, 43)
                && transform.instruction_map.len() == locations
        }
        Err(_) => false,
    }
}

fn is_byte(bytes: &[u8], place: usize, value: u8) -> bool {
    match bytes.get(place) {
        Some(byte) => *byte == value,
        None => false,
    }
}

fn demand_one(alloc: Global, module: &mut Module, locations: usize) -> Result<(), Fail> {
    let (bytes, transform) = module.emit_wasm_with_transform(alloc)?;
    demand(
        is_byte(&bytes, 41, 0) && is_byte(&bytes, 42, 11),
        "the body at its place",
    )?;
    demand(
        tells_one(&module.funcs, &transform, locations),
        "the places of one function",
    )?;
    demand_output(alloc, Ok(bytes), ONE_OUT)
}

#[test]
fn the_places_of_one_function(rt: HostRuntime) -> Result<(), Fail> {
    let mut module = read(rt.alloc(), ONE, true)?;
    demand_one(rt.alloc(), &mut module, 1)
}

#[test]
fn without_the_flag_no_locations_are_told(rt: HostRuntime) -> Result<(), Fail> {
    let mut module = read(rt.alloc(), ONE, false)?;
    demand_one(rt.alloc(), &mut module, 0)
}

fn demand_nothing(alloc: Global, module: &mut Module) -> Result<(), Fail> {
    let (bytes, transform) = module.emit_wasm_with_transform(alloc)?;
    demand(
        transform.function_ranges.is_empty()
            && transform.code_section_start == 0
            && transform.instruction_map.is_empty(),
        "no places where there are no functions",
    )?;
    demand_output(alloc, Ok(bytes), EMPTY)
}

#[test]
fn a_module_without_functions_has_no_places(rt: HostRuntime) -> Result<(), Fail> {
    let mut module = read(rt.alloc(), EMPTY, true)?;
    demand_nothing(rt.alloc(), &mut module)
}

fn second_function(functions: &ModuleFunctions) -> Result<FunctionId, Error> {
    let mut all = functions.iter();
    let _first = all.next();
    match all.next() {
        Some(function) => Ok(function.id()),
        None => Err(Error::NotFound),
    }
}

fn demand_two(alloc: Global, module: &mut Module) -> Result<(), Fail> {
    gc::run(alloc, module)?;
    let first = first_function(&module.funcs)?;
    let second = second_function(&module.funcs)?;
    let (bytes, transform) = module.emit_wasm_with_transform(alloc)?;
    demand(
        transform.code_section_start == 32 && bytes.len() == 42,
        "where the code stands",
    )?;
    demand(
        transform.function_ranges.len() == 2
            && is_range(&transform, 0, first, 40, 42)
            && is_range(&transform, 1, second, 34, 39),
        "the ranges by rising id",
    )
}

#[test]
fn ranges_stand_by_rising_id(rt: HostRuntime) -> Result<(), Fail> {
    let mut module = read(rt.alloc(), TWO, true)?;
    demand_two(rt.alloc(), &mut module)
}

// ---- locations

fn is_at(transform: &CodeTransform, location: u32, place: usize) -> bool {
    match transform.instruction_map.first() {
        Some(pair) => {
            transform.instruction_map.len() == 1 && pair.0.value() == location && pair.1 == place
        }
        None => false,
    }
}

fn demand_location(alloc: Global, module: &mut Module) -> Result<(), Fail> {
    let (_bytes, transform) = module.emit_wasm_with_transform(alloc)?;
    demand(is_at(&transform, 7, 42), "the place of a location")
}

fn demand_no_location(alloc: Global, module: &mut Module) -> Result<(), Fail> {
    let (_bytes, transform) = module.emit_wasm_with_transform(alloc)?;
    demand(
        transform.instruction_map.is_empty(),
        "no place of the default location",
    )
}

#[test]
fn a_callers_location_is_told(rt: HostRuntime) -> Result<(), Fail> {
    let alloc = rt.alloc();
    let mut config = ModuleConfig::new();
    config
        .preserve_code_transform(true)
        .generate_producers_section(false);
    config.on_instr_loc(Box::new(alloc, |_place: &usize| -> InstrLocId { InstrLocId::new(7) })?);
    let mut module = config.parse(alloc, &bytes_of(alloc, ONE))?;
    demand_location(alloc, &mut module)
}

#[test]
fn the_default_location_is_not_told(rt: HostRuntime) -> Result<(), Fail> {
    let alloc = rt.alloc();
    let mut config = ModuleConfig::new();
    config
        .preserve_code_transform(true)
        .generate_producers_section(false);
    config.on_instr_loc(Box::new(alloc, |_place: &usize| -> InstrLocId {
        InstrLocId::DEFAULT
    })?);
    let mut module = config.parse(alloc, &bytes_of(alloc, ONE))?;
    demand_no_location(alloc, &mut module)
}

// ---- sections

// Adds a section that follows the code.
fn add_follower(
    alloc: Global,
    customs: &mut ModuleCustomSections,
    name: &'static str,
    refuses: bool,
) -> Result<(), Error> {
    let section = Follower {
        alloc,
        name,
        place: 9,
        refuses,
    };
    customs.add(SectionEntry::Boxed(Box::new(alloc, section)?))?;
    Ok(())
}

fn demand_followed(alloc: Global, module: &mut Module, expected: &str) -> Result<(), Fail> {
    add_follower(alloc, &mut module.customs, "s", false)?;
    demand_output(alloc, module.emit_wasm(alloc), expected)
}

#[test]
fn a_section_follows_the_code(rt: HostRuntime) -> Result<(), Fail> {
    let mut module = read(rt.alloc(), ONE, true)?;
    demand_followed(rt.alloc(), &mut module, ONE_FOLLOWED)
}

#[test]
fn without_the_flag_no_section_follows(rt: HostRuntime) -> Result<(), Fail> {
    let mut module = read(rt.alloc(), ONE, false)?;
    demand_followed(rt.alloc(), &mut module, ONE_UNTOLD)
}

fn says_no(answer: Result<Vec<u8>, Error>) -> bool {
    match answer {
        Err(Error::Caller(text)) => is_text(&text, "no"),
        _ => false,
    }
}

fn has_four(customs: &ModuleCustomSections) -> bool {
    let mut rest = customs.iter();
    let has = rest.next().is_some()
        && rest.next().is_some()
        && rest.next().is_some()
        && rest.next().is_some();
    has && rest.next().is_none()
}

fn demand_kept(alloc: Global, module: &mut Module) -> Result<(), Fail> {
    add_follower(alloc, &mut module.customs, "s", true)?;
    demand(says_no(module.emit_wasm(alloc)), "a section that refuses")?;
    demand(has_four(&module.customs), "every section is still there")
}

#[test]
fn a_section_that_refuses_the_transform_stays(rt: HostRuntime) -> Result<(), Fail> {
    let mut module = read(rt.alloc(), ONE, true)?;
    demand_kept(rt.alloc(), &mut module)
}

fn demand_unasked(alloc: Global, module: &mut Module) -> Result<(), Fail> {
    add_follower(alloc, &mut module.customs, ".debug_line", true)?;
    demand_output(alloc, module.emit_wasm(alloc), ONE_OUT)
}

#[test]
fn debug_information_is_handed_no_transform(rt: HostRuntime) -> Result<(), Fail> {
    let mut module = read(rt.alloc(), ONE, true)?;
    demand_unasked(rt.alloc(), &mut module)
}
