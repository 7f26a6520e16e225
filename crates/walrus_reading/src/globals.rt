//! The globals of a module that is read, and constant expressions.
ghost use Rattle.std.specs.Prelude.{◌≡◌, ◌∷◌, [], map, All, IfOk, OnOk, IsOkUnless, Some, true};
ghost use Rattle.wasm_entries.specs.Record.{global_entry};
ghost use Rattle.walrus_base.specs.ConstOps.{const_ops};
ghost use Rattle.walrus_base.specs.Value.{val_type};
ghost use Rattle.walrus_code.specs.FromRaw.{val_of};
ghost use Rattle.walrus_code.specs.Indices.{ids_at};
ghost use Rattle.walrus_constants.specs.Short.{is_short};
ghost use Rattle.walrus_items.specs.Globals.{globals};
ghost use Rattle.walrus_model.specs.Constants.{consts_of};
ghost use Rattle.walrus_model.specs.Sections.{global_of};
ghost use Rattle.walrus_items.specs.Errors.{out_of_memory};
ghost use Rattle.walrus_reading.specs.Held.{HoldsGlobal};
ghost use Rattle.walrus_reading.specs.Placed.{AddsPlaced};
ghost use Rattle.walrus_reading.specs.Stays.{ConstStays, GlobalStays, ValStays};

use std::alloc::Global;
use walrus_base::{ConstExpr, ValType};
use walrus_code::{IndicesToIds, IrError, name_value};
use walrus_constants::read_const;
use walrus_items::{Error, ModuleGlobals, Result};
use wasm_entries::{RawConst, RawGlobal};
use wasm_forms::RawVal;

/// The value type of this spelling.
pub(crate) fn read_value(raw: RawVal, indices: &IndicesToIds) -> ValType
    requires stays { ValStays (ids_at indices.now) raw }
    ensures { val_type result ≡ val_of raw }
{
    let Some(ty) = name_value(raw, indices) else {
        unreachable!();
    };
    ty
}

/// The constant expression that initialises an item, or says where a segment begins.
pub(crate) fn read_initialiser(
    alloc: Global,
    raw: &[RawConst],
    indices: &IndicesToIds,
) -> Result<ConstExpr>
    requires stays { ConstStays (ids_at indices.now) raw.now }
    ensures value { IfOk result (λ expr. const_ops expr ≡ consts_of raw.now) }
    ensures short { IfOk result (λ expr. is_short expr ≡ true) }
    ensures fails { IsOkUnless result out_of_memory }
{
    match read_const(alloc, raw, indices) {
        Ok(expr) => Ok(expr),
        Err(IrError::Memory(error)) => Err(Error::Memory(error)),
        Err(_) => unreachable!(),
    }
}

// A global of this entry, with the next id.
fn add_global(
    alloc: Global,
    raw: &RawGlobal,
    indices: &IndicesToIds,
    all: &mut ModuleGlobals,
) -> Result<()>
    requires stays { GlobalStays (ids_at indices.now) (global_entry raw.now) }
    ensures added { OnOk result (AddsPlaced HoldsGlobal (global_of (global_entry raw.now) ∷ [])
        (globals all.old) (globals all.new)) }
    ensures fails { IsOkUnless result out_of_memory }
{
    let ty = read_value(raw.ty.value, indices);
    let initial = read_initialiser(alloc, raw.initial.operators(), indices)?;
    all.add_local(ty, raw.ty.mutable, raw.ty.shared, initial)?;
    Ok(())
}

/// Adds the globals of a global section, with their initialisers (Binary Format > Modules > Global Section).
pub(crate) fn add_globals(
    alloc: Global,
    raw: &[RawGlobal],
    indices: &IndicesToIds,
    all: &mut ModuleGlobals,
) -> Result<()>
    requires stay { All (GlobalStays (ids_at indices.now)) (map global_entry raw.now) }
    ensures added { OnOk result (AddsPlaced HoldsGlobal (map global_of (map global_entry raw.now))
        (globals all.old) (globals all.new)) }
    ensures fails { IsOkUnless result out_of_memory }
{
    all.reserve(raw.len())?;
    for entry in raw {
        add_global(alloc, entry, indices, all)?;
    }
    Ok(())
}
