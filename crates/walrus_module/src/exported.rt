//! The names of exports and the start function ("Validation > Modules > Exports", "Start Function").
ghost use Rattle.std.specs.Prelude.{◌≡◌, IfOk, map, not, option_map};
ghost use Rattle.std.specs.Bool.{Decides};
ghost use Rattle.wasm_wire.specs.Names.{NeighboursDiffer};
ghost use Rattle.walrus_base.specs.Arena.{item_at, items};
ghost use Rattle.walrus_base.specs.Id.{place};
ghost use Rattle.walrus_items.specs.Exports.{exports};
ghost use Rattle.walrus_items.specs.Functions.{functions};
ghost use Rattle.walrus_base.specs.ModuleTypes.{type_slots};
ghost use Rattle.walrus_module.specs.Tested.{AreApart, AreNamedApart, is_empty_def, start_is_empty};

use std::alloc::{AllocError, Global};
use std::result;
use walrus_base::{ModuleTypes, TypeId};
use walrus_contents::Parts;
use walrus_items::ModuleExports;

// The names of exports, by rising id.
fn export_names(alloc: Global, all: &ModuleExports) -> result::Result<Vec<&str>, AllocError>
    ensures { IfOk result (λ names. map (λ n. n.now) names.items
        ≡ map (λ e. e.name) (items (exports all.now))) }
{
    let mut names = Vec::with_capacity(alloc, all.next_id().index())?;
    for export in all.iter() {
        names.push(export.name.as_str())?;
    }
    Ok(names)
}

// Whether a name stands next to one like it.
fn has_neighbours_alike(names: &[&str]) -> bool
    ensures { Decides (not result) (NeighboursDiffer names.now) }
{
    for index in 1..names.len() {
        if names[index - 1] == names[index] {
            return true;
        }
    }
    false
}

// Whether no two of these names are one.
fn are_apart(given: Vec<&str>) -> bool
    ensures { Decides result (AreApart given.entry.items) }
{
    let mut names = given;
    names.sort_unstable();
    !has_neighbours_alike(names.as_slice())
}

// Whether no two exports have one name.
pub(crate) fn are_exports_apart(
    alloc: Global,
    all: &ModuleExports,
) -> result::Result<bool, AllocError>
    ensures { IfOk result (λ b. Decides b (AreNamedApart (items (exports all.now)))) }
{
    let names = export_names(alloc, all)?;
    Ok(are_apart(names))
}

// Whether the type is that of a function that takes nothing and gives nothing.
fn is_type_empty(types: &ModuleTypes, id: TypeId) -> bool
    ensures { result ≡ is_empty_def (item_at (type_slots types.now) (place id)) }
{
    if !types.contains(id) {
        return false;
    }
    match types.get(id).as_function() {
        Some(function) => function.params().is_empty() && function.results().is_empty(),
        None => false,
    }
}

// Whether the start function, if there is one, takes nothing and gives nothing.
pub(crate) fn is_start_empty(parts: Parts<'_>) -> bool
    ensures { result ≡ start_is_empty parts.entry.types.now (functions parts.entry.funcs.now)
        (option_map place parts.entry.start) }
{
    match parts.start {
        Some(id) => {
            !parts.funcs.contains(id) || is_type_empty(parts.types, parts.funcs.get(id).ty())
        }
        None => true,
    }
}
