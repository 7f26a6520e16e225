//! The globals that a module defines, as records ("Binary Format > Modules > Global Section").
ghost use Rattle.std.specs.Prelude.{◌≡◌, None, Ok, Some, IsSome, IfOk, IfErr, All, map, option_map, ⊤};
ghost use Rattle.wasm_entries.specs.Record.{expression, global_entry};
ghost use Rattle.wasm_entries.specs.Spelling.{ExpressionStands, GlobalStands, global_bytes};
ghost use Rattle.walrus_base.specs.Arena.{items};
ghost use Rattle.walrus_code.specs.Indices.{index_of};
ghost use Rattle.walrus_constants.specs.Named.{named_global};
ghost use Rattle.walrus_contents.specs.View.{global_of};
ghost use Rattle.walrus_base.specs.ConstOps.{const_ops};
ghost use Rattle.walrus_items.specs.Globals.{globals, global_import, global_init, global_value};
ghost use Rattle.walrus_model.specs.Sections as said;
ghost use Rattle.walrus_plan.specs.Brought.{own_of};
ghost use Rattle.walrus_writing.specs.Appended.{AppendsEntries, AppendsEntry};
ghost use Rattle.walrus_writing.specs.BySection.{AreGlobals};
ghost use Rattle.walrus_writing.specs.Globals.{IndexesGlobal, IndexesInitialiser, IsSpelledGlobal, RefusesGlobals};

use std::alloc::Global;
use walrus_code::{IdsToIndices, IrError, index_value};
use walrus_constants::raw_const;
use walrus_items::{Error, GlobalKind, ModuleGlobals};
use walrus_plan::global_import;
use wasm_entries::{RawExpression, RawGlobal, RawGlobalType};
use wasm_forms::Written;

// The initialiser of a global that the module defines, over indices.
fn raw_initialiser(
    alloc: Global,
    kind: &GlobalKind,
    indices: &IdsToIndices,
) -> Result<RawExpression, IrError>
    requires own { global_import kind.now ≡ None }
    ensures indexed { IndexesInitialiser (index_of indices.now)
        (option_map const_ops (global_init kind.now)) result }
    ensures spelled { IfOk result (λ raw. ExpressionStands (expression raw)) }
{
    match kind {
        GlobalKind::Local(expr) => raw_const(alloc, expr, indices),
        GlobalKind::Import(_) => unreachable!(),
    }
}

/// The record of a global that the module defines, which bytes can spell.
///
/// # Errors
///
/// [`IrError::NoIndex`] where an item in its type or its initialiser has no index, [`IrError::NotWritable`] where no bytes spell its
/// type or its initialiser, and [`IrError::Memory`].
pub fn raw_global(
    alloc: Global,
    global: &walrus_items::Global,
    indices: &IdsToIndices,
) -> Result<RawGlobal, IrError>
    requires own { global_import global.now.kind ≡ None }
    ensures { IndexesGlobal (index_of indices.now) (global_of (global_value global.now)) result }
{
    let value = index_value(global.ty, indices)?;
    let initial = raw_initialiser(alloc, &global.kind, indices)?;
    Ok(RawGlobal {
        ty: RawGlobalType {
            value,
            mutable: global.mutable,
            shared: global.shared,
        },
        initial,
    })
}

/// The records of the globals that the module defines, by rising id.
///
/// # Errors
///
/// `NotWritable` where no bytes spell the type or the initialiser of one, and `Memory`.
pub fn raw_globals(
    alloc: Global,
    all: &ModuleGlobals,
    indices: &IdsToIndices,
) -> Result<Vec<RawGlobal>, Error>
    requires indexed { All (λ o. IsSome o)
        (map (λ g. named_global (index_of indices.now) (global_of g))
        (own_of (λ x. x.imported_by) (items (globals all.now)))) }
    ensures value { IfOk result (λ raw. map (λ g. Some (said.global_of (global_entry g))) raw.items
        ≡ map (λ g. named_global (index_of indices.now) (global_of g))
        (own_of (λ x. x.imported_by) (items (globals all.now)))) }
    ensures stand { IfOk result (λ raw. All (λ g. GlobalStands (global_entry g)) raw.items) }
    ensures spelled { IfOk result (λ _. All IsSpelledGlobal
        (own_of (λ x. x.imported_by) (items (globals all.now)))) }
    ensures fails { IfErr result (RefusesGlobals (items (globals all.now))) }
{
    let mut raw = Vec::with_capacity(alloc, all.next_id().index())?;
    for global in all.iter() {
        if global_import(&global.kind).is_none() {
            let one = raw_global(alloc, global, indices)?;
            raw.push(one)?;
        }
    }
    Ok(raw)
}

// Appends the entry of a global that the module defines: how many there are with it.
fn append_global(
    alloc: Global,
    global: &walrus_items::Global,
    indices: &IdsToIndices,
    count: u32,
    to: &mut Vec<u8>,
) -> Result<u32, Error>
    requires own { global_import global.now.kind ≡ None }
    ensures { IfOk result (λ more. AppendsEntry global_entry global_bytes (λ _. ⊤)
        (λ raw. IndexesGlobal (index_of indices.now) (global_of (global_value global.now)) (Ok raw))
        count more to.old.items to.new.items) }
{
    let raw = raw_global(alloc, global, indices)?;
    raw.write(to)?;
    match count.checked_add(1) {
        Some(more) => Ok(more),
        None => Err(Error::TooLarge),
    }
}

/// The same globals, appended to bytes one after another, with no record of all of them: how many they are.
///
/// # Errors
///
/// Those of [`raw_global`], and `TooLarge` where there are 2^32 or more. Refused, what was appended means nothing.
pub fn append_globals(
    alloc: Global,
    all: &ModuleGlobals,
    indices: &IdsToIndices,
    to: &mut Vec<u8>,
) -> Result<u32, Error>
    ensures { IfOk result (λ count. AppendsEntries global_entry global_bytes (λ _. ⊤)
        (AreGlobals (index_of indices.now) (items (globals all.now))) count to.old.items to.new.items) }
{
    let mut count: u32 = 0;
    for global in all.iter() {
        if global_import(&global.kind).is_none() {
            count = append_global(alloc, global, indices, count, to)?;
        }
    }
    Ok(count)
}
