//! A function of another module in the place of one of this module.

use crate::page::Page;
use std::mem::swap;
use walrus::{FunctionId, ModuleConfig, ModuleFunctions, Result};

fn function_at(functions: &ModuleFunctions, place: usize) -> Option<FunctionId> {
    let found = functions.iter().nth(place)?;
    Some(found.id())
}

// Whether the functions were there to be exchanged, and what is found under the first id says to be the second.
fn exchange(
    functions: &mut ModuleFunctions,
    first: FunctionId,
    others: &mut ModuleFunctions,
    second: FunctionId,
) -> bool {
    if !functions.contains(first) || !others.contains(second) {
        return false;
    }
    swap(functions.get_mut(first), others.get_mut(second));
    functions.contains(first) && functions.get(first).id() == second
}

fn tell_exchanged(
    page: &mut Page,
    functions: &mut ModuleFunctions,
    others: &mut ModuleFunctions,
) -> Result<()> {
    match (function_at(functions, 0), function_at(others, 1)) {
        (Some(first), Some(second)) => {
            page.holds("two ids", first != second)?;
            let is_second = exchange(functions, first, others, second);
            page.holds(
                "what stands under the first id says to be the second",
                is_second,
            )
        }
        _ => page.line("functions", "missing"),
    }
}

/// Exchanges the first function with the second one of another module of these bytes, and tells which it says to be.
pub fn exchange_first(
    page: &mut Page,
    functions: &mut ModuleFunctions,
    bytes: &[u8],
) -> Result<()> {
    match ModuleConfig::new().parse(page.alloc(), bytes) {
        Ok(mut other) => tell_exchanged(page, functions, &mut other.funcs),
        Err(refusal) => Err(refusal),
    }
}
