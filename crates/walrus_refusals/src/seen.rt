//! What is seen of a module before a call, so that it can be compared where the call lacks memory.

use std::alloc::Global;
use test_support::is_text;
use walrus::{FunctionId, Module, ModuleProducers};
use walrus_test_support::{is_as_before, shown};

/// What is seen of a module.
#[derive(Drop)]
pub struct Seen {
    text: Option<String>,
    types: usize,
    locals: usize,
    start: Option<FunctionId>,
    producers: Option<String>,
}

fn text_of(alloc: Global, producers: &ModuleProducers) -> Option<String> {
    format!(in alloc; "{producers:?}").ok()
}

fn are_as_before(alloc: Global, producers: &ModuleProducers, before: &Option<String>) -> bool {
    match (before, text_of(alloc, producers)) {
        (Some(old), Some(new)) => is_text(old, &new),
        _ => false,
    }
}

/// What is seen of the module: where memory fails, no text, which is no other module's either.
pub fn look_at(alloc: Global, module: &Module) -> Seen {
    Seen {
        text: shown(alloc, module),
        types: module.types.len(),
        locals: module.locals.len(),
        start: module.start,
        producers: text_of(alloc, &module.producers),
    }
}

/// Whether the same is seen as before, but that its items may also show this text.
pub fn is_as_seen(alloc: Global, module: &Module, before: &Seen, other: &str) -> bool {
    module.types.len() == before.types
        && module.locals.len() == before.locals
        && module.start == before.start
        && are_as_before(alloc, &module.producers, &before.producers)
        && (is_as_before(alloc, module, &before.text) || shows(alloc, module, other))
}

fn shows(alloc: Global, module: &Module, text: &str) -> bool {
    match shown(alloc, module) {
        Some(found) => is_text(&found, text),
        None => false,
    }
}
