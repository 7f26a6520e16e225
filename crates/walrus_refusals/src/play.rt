//! Plays a scene. What owns a module makes all calls that take a whole one.

use crate::adds::{add, first_type};
use crate::noted::{noted_last, raw_section};
use crate::replaced::{replace, replace_brought};
use crate::scenes::Scene;
use crate::seen::{Seen, is_as_seen, look_at};
use crate::steps::{End, Kind, Outcome, Step, end_of, refused, written};
use std::alloc::Global;
use walrus::passes::gc;
use walrus::{AbstractHeapType, Error, Module, ModuleConfig, SectionEntry, ValType};
use walrus_test_support::reference;

// More calls than a scene makes, with one that is made again.
const MOST_TURNS: usize = 32;

// How a scene ends where reading its bytes is refused so.
fn unread(refusal: Error) -> Outcome {
    match refused(refusal) {
        End::Lacking => Outcome::Lacks,
        _ => Outcome::Falls,
    }
}

// The steps behind the first one.
fn behind(steps: &[Step]) -> &[Step] {
    match steps {
        [_, later @ ..] => later,
        [] => steps,
    }
}

// Whether the module is as it was before a step that lacked memory, or, where that was to write it, as the scene says.
fn is_left(alloc: Global, module: &Module, before: &Seen, scene: &Scene, left: &[Step]) -> bool {
    let other = match left.first() {
        Some(Step::Emit) => scene.declared,
        _ => "",
    };
    is_as_seen(alloc, module, before, other)
}

// The steps that are left where the first of these ended so: the same again where it lacked memory and changed nothing, none where the scene falls.
fn next<'a>(
    alloc: Global,
    module: &Module,
    before: &Seen,
    scene: &Scene,
    left: &'a [Step],
    end: End,
) -> Option<&'a [Step]> {
    match end {
        End::Well => Some(behind(left)),
        End::Lacking if is_left(alloc, module, before, scene, left) => Some(left),
        _ => None,
    }
}

fn outcome_of(left: &[Step]) -> Outcome {
    if left.is_empty() {
        Outcome::Stands
    } else {
        Outcome::Falls
    }
}

/// What comes of a scene without imports, whose texts say these bytes.
pub fn played(alloc: Global, scene: &Scene, input: &[u8], output: &[u8]) -> Outcome {
    let mut config = ModuleConfig::new();
    config.generate_producers_section(scene.produces);
    let mut module = match config.parse(alloc, input) {
        Ok(module) => module,
        Err(refusal) => return unread(refusal),
    };
    let mut left = scene.steps;
    for _turn in 0..MOST_TURNS {
        let Some(step) = left.first() else {
            break;
        };
        let before = look_at(alloc, &module);
        let end = match *step {
            Step::Collect => end_of(gc::run(alloc, &mut module)),
            Step::Emit => written(module.emit_wasm(alloc), output),
            Step::Add(kind) => end_of(add(alloc, &mut module, kind)),
            Step::Replace(kind) => end_of(replace(alloc, &mut module, kind)),
            Step::ReplaceBrought => end_of(replace_brought(alloc, &mut module)),
            Step::Raw => match raw_section(alloc) {
                Ok(section) => end_of(module.customs.add(SectionEntry::Raw(section))),
                Err(refusal) => refused(refusal),
            },
            Step::Boxed => match noted_last(alloc, &module.funcs) {
                Ok(section) => end_of(module.customs.add(SectionEntry::Boxed(section))),
                Err(refusal) => refused(refusal),
            },
            Step::Import(_) => End::Otherwise,
        };
        match next(alloc, &module, &before, scene, left, end) {
            Some(later) => left = later,
            None => break,
        }
    }
    outcome_of(left)
}

/// What comes of a scene of imports.
pub fn imported(alloc: Global, scene: &Scene, input: &[u8], output: &[u8]) -> Outcome {
    let mut config = ModuleConfig::new();
    config.generate_producers_section(scene.produces);
    let mut module = match config.parse(alloc, input) {
        Ok(module) => module,
        Err(refusal) => return unread(refusal),
    };
    let Some(ty) = first_type(&module.types) else {
        return Outcome::Falls;
    };
    let functions = reference(AbstractHeapType::Func);
    let mut left = scene.steps;
    for _turn in 0..MOST_TURNS {
        let Some(step) = left.first() else {
            break;
        };
        let before = look_at(alloc, &module);
        let end = match *step {
            Step::Import(Kind::Function) => end_of(module.add_import_func("m", "f", ty)),
            Step::Import(Kind::Table) => {
                end_of(module.add_import_table("m", "t", false, 1, Some(2), functions))
            }
            Step::Import(Kind::Memory) => {
                end_of(module.add_import_memory("m", "y", true, true, 3, Some(4), None))
            }
            Step::Import(Kind::Global) => {
                end_of(module.add_import_global("m", "g", ValType::I64, true, false))
            }
            Step::Import(Kind::Tag) => end_of(module.add_import_tag("m", "e", ty)),
            Step::Emit => written(module.emit_wasm(alloc), output),
            _ => End::Otherwise,
        };
        match next(alloc, &module, &before, scene, left, end) {
            Some(later) => left = later,
            None => break,
        }
    }
    outcome_of(left)
}
