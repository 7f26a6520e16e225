//! For how many bytes memory is reserved before a module is written, so that its bytes are moved rarely. Not all of it may be used, and it may
//! not be enough: no contract says how much it is.

use walrus_contents::Parts;
use walrus_items::{ModuleData, ModuleExports, ModuleFunctions};
use walrus_plan::Plan;
use wasm_frames::RawCustom;

// For the data segments.
fn likely_data(all: &ModuleData) -> usize {
    let mut total: usize = 0;
    for segment in all.iter() {
        total = total.saturating_add(segment.value.len().saturating_add(20));
    }
    total
}

// For custom sections.
fn likely_customs(customs: &[RawCustom<'_>]) -> usize {
    let mut total: usize = 0;
    'sections: for section in customs {
        let front = section.name.len().saturating_add(11);
        total = total.saturating_add(section.bytes.len().saturating_add(front));
    }
    total
}

/// For what stands behind the code: these data segments and custom sections.
pub fn likely_behind(all: &ModuleData, customs: &[RawCustom<'_>]) -> usize {
    let listed = likely_data(all).saturating_add(likely_customs(customs));
    listed.saturating_add(40)
}

// For the names of functions.
fn likely_names(funcs: &ModuleFunctions) -> usize {
    let mut total: usize = 0;
    for function in funcs.iter() {
        if let Some(name) = &function.name {
            total = total.saturating_add(name.len().saturating_add(10));
        }
    }
    total
}

// For the entries of sections before the code, as long as they mostly are.
fn likely_entries(plan: &Plan, exports: &ModuleExports) -> usize {
    let functions = plan
        .brought_functions
        .len()
        .saturating_add(plan.own_functions.len());
    let tables = plan.tables.len().saturating_add(plan.elements.len());
    let memories = plan.memories.len().saturating_add(plan.tags.len());
    let listed = exports.len().saturating_add(plan.globals.len());
    let first = functions.saturating_add(plan.types.len());
    let others = listed.saturating_add(tables).saturating_add(memories);
    first.saturating_add(others).saturating_mul(32)
}

/// For a module of these parts, of which this is the plan: with bodies that likely have so many bytes, and custom sections of its own.
pub fn likely_whole(parts: Parts<'_>, plan: &Plan, bodies: usize, own: &[RawCustom<'_>]) -> usize {
    let before = likely_entries(plan, parts.exports).saturating_add(likely_names(parts.funcs));
    let behind = likely_behind(parts.data_, own).saturating_add(1024);
    before.saturating_add(bodies).saturating_add(behind)
}
