//! Globals that come, or are written anew ("Structure > Modules > Globals").

ghost use Rattle.std.specs.Prelude.{◌≡◌, MatchResult, map, option_map, slice_set};
ghost use Rattle.wasm_entries.specs.Record.{global_entry};
ghost use Rattle.walrus_base.specs.Arena.{IsLive, item_at};
ghost use Rattle.walrus_base.specs.Id.{place};
ghost use Rattle.walrus_base.specs.Value.{val_type};
ghost use Rattle.walrus_items.specs.Globals.{global_import, globals};
ghost use Rattle.walrus_items.specs.Imports.{imports};
ghost use Rattle.walrus_module.specs.View.{contents_of};
ghost use Rattle.walrus_edit_list.specs.Globals.{AddsGlobal, AddsGlobals, RefusesGlobal, RefusesGlobals, RefusesSetGlobal, SetsGlobal, defines, without};

use crate::constants::{constant, value_type};
use crate::ids::ids_of;
use std::alloc::Global;
use walrus_base::{ConstExpr, GlobalId, ValType};
use walrus_items::{Error, GlobalKind, ModuleGlobals, ModuleImports, Result};
use walrus_module::Module;
use wasm_entries::{RawGlobal, RawGlobalType};

// Adds the global of an entry.
fn add_global<S>(alloc: Global, raw: &RawGlobal, module: &mut Module<S>) -> Result<()>
    ensures { MatchResult result
        (λ _. AddsGlobal (global_entry raw.now)
        (contents_of «module».old) (contents_of «module».new))
        (RefusesGlobal (global_entry raw.now) (contents_of «module».old)) }
{
    let ids = ids_of(alloc, module)?;
    let ty = value_type(raw.ty.value, &ids)?;
    let initial = constant(alloc, &raw.initial, &ids)?;
    module
        .globals
        .add_local(ty, raw.ty.mutable, raw.ty.shared, initial)?;
    Ok(())
}

/// Adds globals of the module's own, each behind the others (Binary Format > Modules > Global Section).
///
/// # Errors
///
/// `DeadItem` only where one names what was never there, `TooLarge` only where more than 2^32 ids of a space were given, and `Memory`.
pub(crate) fn add_globals<S>(alloc: Global, raw: &[RawGlobal], module: &mut Module<S>) -> Result<()>
    ensures { MatchResult result
        (λ _. AddsGlobals (map global_entry raw.now)
        (contents_of «module».old) (contents_of «module».new))
        (RefusesGlobals (map global_entry raw.now) (contents_of «module».old)) }
{
    'globals: for entry in raw {
        add_global(alloc, entry, module)?;
    }
    Ok(())
}

// The import that brings a global of this kind goes, if one does and is there.
fn free_import(kind: &GlobalKind, all: &mut ModuleImports)
    ensures { imports all.new ≡ without (global_import kind.now) (imports all.old) }
{
    if let GlobalKind::Import(id) = kind {
        if all.contains(*id) {
            all.delete(*id);
        }
    }
}

// The global of this live id is of the module's own, with this type and initialiser.
fn define(
    id: GlobalId,
    ty: ValType,
    raw: RawGlobalType,
    initial: ConstExpr,
    all: &mut ModuleGlobals,
)
    requires { IsLive (globals all.old) (place id) }
    ensures { globals all.new ≡ slice_set (globals all.old) (place id)
        (option_map (defines (val_type ty) raw initial) (item_at (globals all.old) (place id))) }
{
    let global = all.get_mut(id);
    global.ty = ty;
    global.mutable = raw.mutable;
    global.shared = raw.shared;
    global.kind = GlobalKind::Local(initial);
}

/// Writes the global of this id anew, as one of the module's own. It has its name, and the import that brought it goes.
///
/// # Errors
///
/// `DeadItem` exactly where it isn't there, or the entry names what was never there, `TooLarge` only where more than 2^32 ids of
/// a space were given, and `Memory`.
pub(crate) fn set_global<S>(
    alloc: Global,
    number: u32,
    raw: &RawGlobal,
    module: &mut Module<S>,
) -> Result<()>
    ensures { MatchResult result
        (λ _. SetsGlobal number (global_entry raw.now)
        (contents_of «module».old) (contents_of «module».new))
        (RefusesSetGlobal number (global_entry raw.now) (contents_of «module».old)) }
{
    let id = GlobalId::at(number as usize);
    if !module.globals.contains(id) {
        return Err(Error::DeadItem);
    }
    let ids = ids_of(alloc, module)?;
    let ty = value_type(raw.ty.value, &ids)?;
    let initial = constant(alloc, &raw.initial, &ids)?;
    free_import(&module.globals.get(id).kind, &mut module.imports);
    define(id, ty, raw.ty, initial, &mut module.globals);
    Ok(())
}
