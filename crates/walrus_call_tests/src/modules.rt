//! Modules that are built, and each public call of a configuration and of custom sections.

use crate::made::bare_module;
use std::alloc::Global;
use std::test::Fail;
use test_support::{add_bytes, are, demand, is_text};
use walrus::{
    CodeTransform, Error, ExportId, FunctionBuilder, IdsToIndices, LocalFunction, Module,
    ModuleConfig, ModuleCustomSections, ModuleTypes, RawCustomSection, Roots, SectionEntry,
    UntypedCustomSectionId, ValType,
};
use walrus_test_support::demand_output;

const EMPTY: &str = "00 61 73 6D 01 00 00 00";

// A function that gives the number 5, exported as `f`, and nothing else.
const FIVE: &str =
    "00 61 73 6D 01 00 00 00 01 05 01 60 00 01 7F 03 02 01 00 07 05 01 01 66 00 00 0A 06 01 04 00 41 05 0B";

fn five(alloc: Global, types: &mut ModuleTypes) -> Result<LocalFunction, Error> {
    let mut builder = FunctionBuilder::new(alloc, types, &[], &[ValType::I32])?;
    builder.func_body().i32_const(5)?;
    Ok(builder.local_func(Vec::new(alloc))?)
}

fn add_five(alloc: Global, module: &mut Module) -> Result<ExportId, Error> {
    let function = five(alloc, &mut module.types)?;
    let id = module.funcs.add_local(function)?;
    module.exports.add("f", id.into())
}

fn build(alloc: Global, module: &mut Module) -> Result<(), Fail> {
    demand_output(alloc, module.emit_wasm(alloc), EMPTY)?;
    add_five(alloc, module)?;
    demand_output(alloc, module.emit_wasm(alloc), FIVE)
}

#[test]
fn a_module_is_built(rt: HostRuntime) -> Result<(), Fail> {
    let mut module = bare_module(rt.alloc())?;
    build(rt.alloc(), &mut module)
}

// A function whose body adds two numbers of 128 bits, an operator that isn't stable.
const WIDE: &str =
    "00 61 73 6D 01 00 00 00 01 04 01 60 00 00 03 02 01 00 0A 10 01 0E 00 42 00 42 00 42 00 42 00 FC 13 1A 1A 0B";

fn parses_wide(alloc: Global, config: &ModuleConfig) -> bool {
    let mut bytes = Vec::new(alloc);
    add_bytes(&mut bytes, WIDE) && config.parse(alloc, &bytes).is_ok()
}

fn change_all(config: &mut ModuleConfig) {
    config
        .generate_name_section(false)
        .generate_synthetic_names_for_anonymous_items(true)
        .strict_validate(false)
        .generate_producers_section(false)
        .only_stable_features(true)
        .legacy_exceptions(false)
        .preserve_code_transform(true)
        .generate_dwarf(true);
}

const DEFAULTS: &str =
    "ModuleConfig { generate_dwarf: false, generate_synthetic_names_for_anonymous_items: false, only_stable_features: false, skip_strict_validate: false, skip_producers_section: false, skip_name_section: false, skip_legacy_exceptions: false, preserve_code_transform: false, on_parse: None, on_instr_loc: None }";

const CHANGED: &str =
    "ModuleConfig { generate_dwarf: true, generate_synthetic_names_for_anonymous_items: true, only_stable_features: true, skip_strict_validate: true, skip_producers_section: true, skip_name_section: true, skip_legacy_exceptions: true, preserve_code_transform: true, on_parse: None, on_instr_loc: None }";

fn is_shown(alloc: Global, config: &ModuleConfig, text: &str) -> bool {
    match format!(in alloc; "{config:?}") {
        Ok(shown) => is_text(&shown, text),
        Err(_) => false,
    }
}

// Fails where a configuration isn't as it is by default, or not all is changed, or it reads the function whatever is stable.
fn change(alloc: Global, config: &mut ModuleConfig) -> Result<(), Fail> {
    demand(is_shown(alloc, config, DEFAULTS), DEFAULTS)?;
    demand(parses_wide(alloc, config), "wide arithmetic by default")?;
    change_all(config);
    demand(is_shown(alloc, config, CHANGED), CHANGED)?;
    demand(!parses_wide(alloc, config), "only what is stable")
}

#[test]
fn a_configuration_is_changed(rt: HostRuntime) -> Result<(), Fail> {
    let mut config = ModuleConfig::new();
    change(rt.alloc(), &mut config)
}

fn raw_section(alloc: Global, name: &str) -> Result<SectionEntry, Error> {
    let mut data = Vec::new(alloc);
    data.push(7)?;
    Ok(SectionEntry::Raw(RawCustomSection {
        name: String::from_str(alloc, name)?,
        data_: data,
    }))
}

fn add_section(
    alloc: Global,
    customs: &mut ModuleCustomSections,
    name: &str,
) -> Result<UntypedCustomSectionId, Error> {
    let section = raw_section(alloc, name)?;
    customs.add(section)
}

fn gives_its_byte(alloc: Global, section: &SectionEntry) -> bool {
    match section.data(&IdsToIndices::new(alloc)) {
        Ok(bytes) => are(alloc, &bytes, "07"),
        Err(_) => false,
    }
}

fn asks_for_nothing(alloc: Global, section: &SectionEntry) -> bool {
    let mut roots = Roots::new(alloc);
    section.add_gc_roots(&mut roots).is_ok() && roots.funcs().is_empty()
}

fn is_section(
    alloc: Global,
    customs: &ModuleCustomSections,
    id: UntypedCustomSectionId,
    name: &str,
) -> bool {
    match customs.get(id) {
        Some(section) => is_text(section.name(), name)
            && gives_its_byte(alloc, section)
            && asks_for_nothing(alloc, section),
        None => false,
    }
}

fn follows(alloc: Global, customs: &mut ModuleCustomSections, id: UntypedCustomSectionId) -> bool {
    let transform = CodeTransform {
        function_ranges: Vec::new(alloc),
        code_section_start: 0,
        instruction_map: Vec::new(alloc),
    };
    match customs.get_mut(id) {
        Some(section) => section.apply_code_transform(&transform).is_ok(),
        None => false,
    }
}

fn is_removed(customs: &mut ModuleCustomSections, name: &str) -> bool {
    match customs.remove_raw(name) {
        Some(section) => is_text(&section.name, name),
        None => false,
    }
}

fn is_deleted(customs: &mut ModuleCustomSections, id: UntypedCustomSectionId, name: &str) -> bool {
    match customs.delete(id) {
        Some(section) => is_text(section.name(), name),
        None => false,
    }
}

// Fails where a call of sections doesn't answer what was added, the first of which goes by its name and the second by its id.
fn are_sections(alloc: Global, customs: &mut ModuleCustomSections) -> Result<(), Fail> {
    let first = add_section(alloc, customs, "a")?;
    let second = add_section(alloc, customs, "b")?;
    demand(is_section(alloc, customs, first, "a"), "the first section")?;
    demand(follows(alloc, customs, second), "a transform of code")?;
    demand(is_removed(customs, "a"), "the first one, removed")?;
    demand(is_deleted(customs, second, "b"), "the second one, deleted")
}

#[test]
fn custom_sections_by_id_and_name(rt: HostRuntime) -> Result<(), Fail> {
    let mut customs = ModuleCustomSections::<SectionEntry>::new(rt.alloc());
    are_sections(rt.alloc(), &mut customs)
}
