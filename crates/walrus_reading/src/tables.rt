//! The tables of a module that is read.
ghost use Rattle.std.specs.Prelude.{◌≡◌, ◌∷◌, [], map, option_map, All, IfOk, IfSome, OnOk, IsOkUnless, Some, true};
ghost use Rattle.wasm_entries.specs.Record.{table_entry};
ghost use Rattle.walrus_base.specs.ConstOps.{const_ops};
ghost use Rattle.walrus_base.specs.Value.{ref_type};
ghost use Rattle.walrus_code.specs.Indices.{ids_at};
ghost use Rattle.walrus_constants.specs.Short.{is_short};
ghost use Rattle.walrus_items.specs.Tables.{tables};
ghost use Rattle.walrus_model.specs.Constants.{consts_of};
ghost use Rattle.walrus_model.specs.Sections.{ref_of, table_of};
ghost use Rattle.walrus_items.specs.Errors.{out_of_memory};
ghost use Rattle.walrus_reading.specs.Held.{HoldsTable, none_kept};
ghost use Rattle.walrus_reading.specs.Placed.{AddsPlaced};
ghost use Rattle.walrus_reading.specs.Stays.{RefStays, TableStays};

use crate::globals::{read_initialiser, read_value};
use std::alloc::Global;
use walrus_base::{ConstExpr, RefType, ValType};
use walrus_code::IndicesToIds;
use walrus_items::{ModuleTables, Result};
use wasm_entries::RawTable;
use wasm_forms::{RawRef, RawVal};

/// The reference type of this spelling.
pub(crate) fn read_reference(raw: RawRef, indices: &IndicesToIds) -> RefType
    requires stays { RefStays (ids_at indices.now) raw }
    ensures { ref_type result ≡ ref_of raw }
{
    let ValType::Ref(ty) = read_value(RawVal::Ref(raw), indices) else {
        unreachable!();
    };
    ty
}

// The same, if there is one.
fn read_initial(alloc: Global, raw: &RawTable, indices: &IndicesToIds) -> Result<Option<ConstExpr>>
    requires stays { TableStays (ids_at indices.now) (table_entry raw.now) }
    ensures value { IfOk result (λ found. option_map const_ops found ≡ option_map consts_of
        (table_entry raw.now).initial) }
    ensures short { IfOk result (λ found. IfSome found (λ expr. is_short expr ≡ true)) }
    ensures fails { IsOkUnless result out_of_memory }
{
    match &raw.initial {
        Some(initial) => Ok(Some(read_initialiser(alloc, initial.operators(), indices)?)),
        None => Ok(None),
    }
}

// A table of this entry, with the next id.
fn add_table(
    alloc: Global,
    raw: &RawTable,
    indices: &IndicesToIds,
    all: &mut ModuleTables,
) -> Result<()>
    requires stays { TableStays (ids_at indices.now) (table_entry raw.now) }
    ensures added { OnOk result (AddsPlaced (HoldsTable none_kept) (table_of (table_entry raw.now) ∷ [])
        (tables all.old) (tables all.new)) }
    ensures fails { IsOkUnless result out_of_memory }
{
    let limits = raw.ty.limits;
    let element = read_reference(raw.ty.element, indices);
    let initial = read_initial(alloc, raw, indices)?;
    all.add_local_with_init(
        limits.wide,
        limits.minimum,
        limits.maximum,
        element,
        initial,
    )?;
    Ok(())
}

/// Adds the tables of a table section, with their initialisers (Binary Format > Modules > Table Section).
pub(crate) fn add_tables(
    alloc: Global,
    raw: &[RawTable],
    indices: &IndicesToIds,
    all: &mut ModuleTables,
) -> Result<()>
    requires stay { All (TableStays (ids_at indices.now)) (map table_entry raw.now) }
    ensures added { OnOk result (AddsPlaced (HoldsTable none_kept) (map table_of (map table_entry raw.now))
        (tables all.old) (tables all.new)) }
    ensures fails { IsOkUnless result out_of_memory }
{
    all.reserve(raw.len())?;
    for entry in raw {
        add_table(alloc, entry, indices, all)?;
    }
    Ok(())
}
