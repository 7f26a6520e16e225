//! Functions of a caller's that are called while a module is read: what it is done with once it is read, and where its operators came from.

ghost use Rattle.std.specs.Prelude.{⊤};

use std::alloc::Global;
use std::test::Fail;
use test_support::{add_bytes, demand, is_text};
use walrus::passes::gc;
use walrus::{
    Error, ExportId, ExportItem, FunctionKind, IndicesToIds, InstrLocId, Module, ModuleConfig,
    ModuleExports, ModuleFunctions, ParseHook,
};
use walrus_test_support::demand_output;

// Two functions, the second of which is exported as `f`.
const TWO: &str =
    "00 61 73 6D 01 00 00 00 01 04 01 60 00 00 03 03 02 00 00 07 05 01 01 66 00 01 0A 07 02 02 00 0B 02 00 0B";

// The exported one alone, exported as `p` too.
const ONE_TWICE: &str =
    "00 61 73 6D 01 00 00 00 01 04 01 60 00 00 03 02 01 00 07 09 02 01 66 00 00 01 70 00 00 0A 04 01 02 00 0B";

const EMPTY: &str = "00 61 73 6D 01 00 00 00";

fn two(alloc: Global) -> Vec<u8> {
    let mut bytes = Vec::new(alloc);
    let _is_read = add_bytes(&mut bytes, TWO);
    bytes
}

// ---- behind reading

// Deletes the start function, of which there is none, and refuses.
#[derive(Drop)]
struct Refuses {
    alloc: Global,
}

impl ParseHook for Refuses {
    ghost does = { λ h sections own means ids old new answer. ⊤ };

    fn on_parse(&self, module: &mut Module, _ids: &IndicesToIds) -> Result<(), Error> {
        module.start = None;
        Err(Error::Caller(String::from_str(self.alloc, "no")?))
    }
}

fn first_export(exports: &ModuleExports) -> Option<ExportId> {
    let export = exports.iter().next()?;
    Some(export.id())
}

#[derive(Drop)]
struct DeletesTheExport {}

impl ParseHook for DeletesTheExport {
    ghost does = { λ h sections own means ids old new answer. ⊤ };

    fn on_parse(&self, module: &mut Module, _ids: &IndicesToIds) -> Result<(), Error> {
        if let Some(id) = first_export(&module.exports) {
            if module.exports.contains(id) {
                module.exports.delete(id);
            }
        }
        Ok(())
    }
}

// Exports the function of an index as `p`.
#[derive(Drop)]
struct Exports {
    index: u32,
}

impl ParseHook for Exports {
    ghost does = { λ h sections own means ids old new answer. ⊤ };

    fn on_parse(&self, module: &mut Module, ids: &IndicesToIds) -> Result<(), Error> {
        let Some(function) = ids.get_func(self.index) else {
            return Err(Error::NotFound);
        };
        module.exports.add("p", ExportItem::Function(function))?;
        Ok(())
    }
}

// Whether the two functions, two types and nothing else have indices.
#[derive(Drop)]
struct AsksForIndices {}

impl ParseHook for AsksForIndices {
    ghost does = { λ h sections own means ids old new answer. ⊤ };

    fn on_parse(&self, _module: &mut Module, ids: &IndicesToIds) -> Result<(), Error> {
        let has_all = ids.get_type(0).is_some() && ids.get_func(1).is_some();
        if has_all && ids.get_type(1).is_none() && ids.get_func(2).is_none() {
            Ok(())
        } else {
            Err(Error::NotFound)
        }
    }
}

fn answers_no(answer: Result<Module, Error>) -> bool {
    match answer {
        Err(Error::Caller(text)) => is_text(&text, "no"),
        _ => false,
    }
}

fn is_not_found(answer: Result<Module, Error>) -> bool {
    match answer {
        Err(Error::NotFound) => true,
        _ => false,
    }
}

#[test]
fn a_hook_refuses(rt: HostRuntime) -> Result<(), Fail> {
    let alloc = rt.alloc();
    let config = ModuleConfig::new();
    demand(
        answers_no(config.on_parse(Refuses { alloc }).parse(alloc, &two(alloc))),
        "the text of a hook's refusal",
    )
}

#[test]
fn bytes_that_are_none_reach_no_hook(rt: HostRuntime) -> Result<(), Fail> {
    let alloc = rt.alloc();
    let config = ModuleConfig::new();
    demand(
        !answers_no(config.on_parse(Refuses { alloc }).parse(alloc, &[1])),
        "bytes that are no module",
    )
}

fn demand_collected(alloc: Global, module: &mut Module, expected: &str) -> Result<(), Fail> {
    gc::run(alloc, module)?;
    demand_output(alloc, module.emit_wasm(alloc), expected)
}

#[test]
fn a_hook_deletes_the_export(rt: HostRuntime) -> Result<(), Fail> {
    let alloc = rt.alloc();
    let mut config = ModuleConfig::new();
    config.generate_producers_section(false);
    let mut module = config
        .on_parse(DeletesTheExport {})
        .parse(alloc, &two(alloc))?;
    demand_collected(alloc, &mut module, EMPTY)
}

#[test]
fn a_hook_adds_an_export(rt: HostRuntime) -> Result<(), Fail> {
    let alloc = rt.alloc();
    let mut config = ModuleConfig::new();
    config.generate_producers_section(false);
    let mut module = config
        .on_parse(Exports { index: 1 })
        .parse(alloc, &two(alloc))?;
    demand_collected(alloc, &mut module, ONE_TWICE)
}

#[test]
fn a_second_hook_replaces_the_first(rt: HostRuntime) -> Result<(), Fail> {
    let alloc = rt.alloc();
    let mut config = ModuleConfig::new();
    config.generate_producers_section(false);
    let mut module = config
        .on_parse(Refuses { alloc })
        .on_parse(DeletesTheExport {})
        .parse(alloc, &two(alloc))?;
    demand_collected(alloc, &mut module, EMPTY)
}

#[test]
fn a_hook_is_handed_all_indices(rt: HostRuntime) -> Result<(), Fail> {
    let alloc = rt.alloc();
    let config = ModuleConfig::new();
    let module = config
        .on_parse(AsksForIndices {})
        .parse(alloc, &two(alloc))?;
    demand(module.exports.len() == 1, "the module as it was read")
}

#[test]
fn there_is_no_third_function(rt: HostRuntime) -> Result<(), Fail> {
    let alloc = rt.alloc();
    let config = ModuleConfig::new();
    demand(
        is_not_found(
            config
                .on_parse(Exports { index: 2 })
                .parse(alloc, &two(alloc)),
        ),
        "an index that leads to no function",
    )
}

// ---- where operators came from

// The location of the only operator of each function, by rising id.
fn locations(alloc: Global, functions: &ModuleFunctions) -> Result<Vec<u32>, Error> {
    let mut all = Vec::new(alloc);
    for function in functions.iter() {
        if let FunctionKind::Local(local) = &function.kind {
            if let Some(operator) = local.operators(alloc)?.as_slice().first() {
                all.push(operator.loc.value())?;
            }
        }
    }
    Ok(all)
}

fn demand_located(
    alloc: Global,
    config: &ModuleConfig,
    first: u32,
    second: u32,
    why: &str,
) -> Result<(), Fail> {
    let module = config.parse(alloc, &two(alloc))?;
    let found = locations(alloc, &module.funcs)?;
    demand(
        found.len() == 2 && found[0] == first && found[1] == second,
        why,
    )
}

#[test]
fn operators_are_located_by_the_caller(rt: HostRuntime) -> Result<(), Fail> {
    let alloc = rt.alloc();
    let mut config = ModuleConfig::new();
    demand_located(alloc, &config, 31, 34, "places of the input")?;
    config.on_instr_loc(Box::new(alloc, |place: &usize| -> InstrLocId {
        InstrLocId::new(if *place == 31 { 7 } else { 8 })
    })?);
    demand_located(alloc, &config, 7, 8, "what the caller answers")?;
    config.on_instr_loc(Box::new(alloc, |_place: &usize| -> InstrLocId {
        InstrLocId::DEFAULT
    })?);
    demand_located(
        alloc,
        &config,
        InstrLocId::DEFAULT.value(),
        InstrLocId::DEFAULT.value(),
        "what a later one answers",
    )?;
    let other = config.clone()?;
    demand_located(alloc, &other, 31, 34, "places again, by a clone")
}

const HOOKED: &str =
    "ModuleConfig { generate_dwarf: false, generate_synthetic_names_for_anonymous_items: false, only_stable_features: false, skip_strict_validate: false, skip_producers_section: false, skip_name_section: false, skip_legacy_exceptions: false, preserve_code_transform: false, on_parse: None, on_instr_loc: Some(\"..\") }";

#[test]
fn a_configuration_shows_its_hook(rt: HostRuntime) -> Result<(), Fail> {
    let alloc = rt.alloc();
    let mut config = ModuleConfig::new();
    config.on_instr_loc(Box::new(alloc, |_place: &usize| -> InstrLocId {
        InstrLocId::DEFAULT
    })?);
    demand(
        is_text(&format!(in alloc; "{config:?}")?, HOOKED),
        "a configuration with a function",
    )
}
