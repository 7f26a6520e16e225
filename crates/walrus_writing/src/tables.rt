//! The tables that a module defines, as records ("Binary Format > Modules > Table Section").
ghost use Rattle.std.specs.Prelude.{◌≡◌, None, Some, IsSome, IfOk, IfErr, All, map, option_map};
ghost use Rattle.wasm_entries.specs.Record.{expression, table_entry};
ghost use Rattle.wasm_entries.specs.Spelling.{InitialStands, TableStands};
ghost use Rattle.wasm_entries.specs.TypeSpelling.{TableTypeStands};
ghost use Rattle.wasm_forms.specs.Types.{HeapStands};
ghost use Rattle.walrus_base.specs.Arena.{items};
ghost use Rattle.walrus_base.specs.ConstOps.{const_ops};
ghost use Rattle.walrus_base.specs.Value.{ref_type};
ghost use Rattle.walrus_code.specs.Indices.{index_of};
ghost use Rattle.walrus_code.specs.Results.{IndexesIn, NeedsNoMemory, heap_is_exact};
ghost use Rattle.walrus_constants.specs.Named.{named_ref, named_table};
ghost use Rattle.walrus_contents.specs.View.{table_of};
ghost use Rattle.walrus_items.specs.Tables.{tables, table_value};
ghost use Rattle.walrus_model.specs.Sections as said;
ghost use Rattle.walrus_plan.specs.Brought.{own_of};
ghost use Rattle.walrus_writing.specs.Tables.{IndexesInitial, IndexesTable, IsSpelledTable, RefusesTables};

use crate::memories::raw_limits;
use std::alloc::Global;
use walrus_base::{ConstExpr, RefType, ValType};
use walrus_code::{IdsToIndices, IrError, index_value};
use walrus_constants::raw_const;
use walrus_items::{Error, ModuleTables, Table};
use wasm_entries::{RawExpression, RawTable, RawTableType};
use wasm_forms::{RawRef, RawVal};

/// The type of the elements of a table, or of what a segment holds.
pub(crate) fn raw_reference(ty: RefType, indices: &IdsToIndices) -> Result<RawRef, IrError>
    ensures indexed { IndexesIn said.ref_of result (heap_is_exact (ref_type ty).heap)
        (named_ref (index_of indices.now) (ref_type ty)) }
    ensures spelled { IfOk result (λ raw. HeapStands raw.heap) }
    ensures memory { NeedsNoMemory result }
{
    match index_value(ValType::Ref(ty), indices)? {
        RawVal::Ref(raw) => Ok(raw),
        _ => unreachable!(),
    }
}

/// The type of a table: its limits, and the type of its elements.
///
/// # Errors
///
/// [`IrError::NoIndex`] where a type in that of its elements has no index, and [`IrError::NotWritable`] where no bytes spell it.
pub fn raw_table_type(table: &Table, indices: &IdsToIndices) -> Result<RawTableType, IrError>
    ensures limits { IfOk result (λ raw.
        said.limits_of raw.limits ≡ (table_of (table_value table.now)).ty.limits) }
    ensures indexed { IndexesIn (λ raw. said.ref_of raw.element) result
        (heap_is_exact (ref_type table.now.element_ty).heap)
        (named_ref (index_of indices.now) (ref_type table.now.element_ty)) }
    ensures spelled { IfOk result (λ raw. TableTypeStands raw) }
    ensures memory { NeedsNoMemory result }
{
    let element = raw_reference(table.element_ty, indices)?;
    let limits = raw_limits(table.initial, table.maximum, false, table.table64, None);
    Ok(RawTableType { element, limits })
}

// The initialiser of a table, if it has one.
fn raw_initial(
    alloc: Global,
    init: &Option<ConstExpr>,
    indices: &IdsToIndices,
) -> Result<Option<Box<RawExpression>>, IrError>
    ensures indexed { IndexesInitial (index_of indices.now) (option_map const_ops init.now) result }
    ensures spelled { IfOk result (λ raw.
        InitialStands (option_map (λ initial. expression initial.value) raw)) }
{
    match init {
        None => Ok(None),
        Some(expr) => {
            let initial = raw_const(alloc, expr, indices)?;
            Ok(Some(Box::new(alloc, initial)?))
        }
    }
}

/// The record of a table that the module defines, which bytes can spell.
///
/// # Errors
///
/// [`IrError::NoIndex`] where an item in the type of its elements or its initialiser has no index, [`IrError::NotWritable`] where no bytes
/// spell them, and [`IrError::Memory`].
pub fn raw_table(alloc: Global, table: &Table, indices: &IdsToIndices) -> Result<RawTable, IrError>
    requires own { (table_value table.now).imported_by ≡ None }
    ensures { IndexesTable (index_of indices.now) (table_of (table_value table.now)) result }
{
    let ty = raw_table_type(table, indices)?;
    let initial = raw_initial(alloc, &table.init, indices)?;
    Ok(RawTable { ty, initial })
}

/// The records of the tables that the module defines, by rising id.
///
/// # Errors
///
/// `NotWritable` where no bytes spell the type of the elements or the initialiser of one, and `Memory`.
pub fn raw_tables(
    alloc: Global,
    all: &ModuleTables,
    indices: &IdsToIndices,
) -> Result<Vec<RawTable>, Error>
    requires indexed { All (λ o. IsSome o)
        (map (λ t. named_table (index_of indices.now) (table_of t))
        (own_of (λ x. x.imported_by) (items (tables all.now)))) }
    ensures value { IfOk result (λ raw. map (λ t. Some (said.table_of (table_entry t))) raw.items
        ≡ map (λ t. named_table (index_of indices.now) (table_of t))
        (own_of (λ x. x.imported_by) (items (tables all.now)))) }
    ensures stand { IfOk result (λ raw. All (λ t. TableStands (table_entry t)) raw.items) }
    ensures spelled { IfOk result (λ _. All IsSpelledTable
        (own_of (λ x. x.imported_by) (items (tables all.now)))) }
    ensures fails { IfErr result (RefusesTables (items (tables all.now))) }
{
    let mut raw = Vec::with_capacity(alloc, all.len())?;
    for table in all.iter() {
        if table.import.is_none() {
            let one = raw_table(alloc, table, indices)?;
            raw.push(one)?;
        }
    }
    Ok(raw)
}
