//! The element segments of a module, as records ("Binary Format > Modules > Element Section").
ghost use Rattle.std.specs.Prelude.{◌≡◌, ◌↔◌, ◌&&◌, None, Some, IsSome, IsTrue, IfOk, IfErr, IfSome, All, if◌then◌else◌, map, nat_eq};
ghost use Rattle.wasm_entries.specs.Record.{element_entry, items_of};
ghost use Rattle.wasm_entries.specs.Spelling.{ElementStands, IsIndex};
ghost use Rattle.walrus_base.specs.Arena.{items};
ghost use Rattle.walrus_base.specs.Id.{place};
ghost use Rattle.walrus_code.specs.Indices.{index_of};
ghost use Rattle.walrus_constants.specs.Segments.{named_element};
ghost use Rattle.walrus_contents.specs.View.{element_items_of, element_kind_of, element_of, tables_of};
ghost use Rattle.walrus_items.specs.Elements.{elements, element_value};
ghost use Rattle.walrus_model.specs.Abstract.{Expressions};
ghost use Rattle.walrus_model.specs.Sections as said;
ghost use Rattle.walrus_theorem.specs.Spelling.{ArePlain, IsNarrow};
ghost use Rattle.walrus_base.specs.ConstOps.{const_ops};
ghost use Rattle.walrus_base.specs.Operators.{Functions, Tables};
ghost use Rattle.walrus_base.specs.Value.{ref_type};
ghost use Rattle.walrus_writing.specs.Elements.{ChoosesFlag, IndexesElement, IndexesFunctions, IndexesItems, IndexesMode, IsSpelledElement, RefusesElements};

use crate::tables::raw_reference;
use std::alloc::Global;
use walrus_base::{ConstExpr, FunctionId, RefType, TableId};
use walrus_code::{IdsToIndices, IrError};
use walrus_constants::{raw_const, raw_consts};
use walrus_items::{Element, ElementItems, ElementKind, Error, ModuleElements, ModuleTables};
use wasm_entries::{RawElement, RawElementMode, RawItems};
use wasm_forms::RawHeap;
use wasm_opcodes::types::HEAP_FUNC;

// The index of a table, if it has one, which is a number of 32 bits.
fn table_index(id: TableId, indices: &IdsToIndices) -> Option<u32>
    ensures same { result ≡ index_of indices.now Tables (place id) }
    ensures stands { IfSome result IsIndex }
{
    match indices.get_table_index(id) {
        Some(index) => Some(index),
        None => None,
    }
}

// The same for a function.
fn function_index(id: FunctionId, indices: &IdsToIndices) -> Option<u32>
    ensures same { result ≡ index_of indices.now Functions (place id) }
    ensures stands { IfSome result IsIndex }
{
    match indices.get_func_index(id) {
        Some(index) => Some(index),
        None => None,
    }
}

// The indices of functions, in order.
fn function_indices(
    alloc: Global,
    ids: &[FunctionId],
    indices: &IdsToIndices,
) -> Result<Vec<u32>, IrError>
    ensures { IndexesFunctions (index_of indices.now) (map place ids.now) result }
{
    let mut raw = Vec::with_capacity(alloc, ids.len())?;
    for id in ids {
        let Some(index) = function_index(*id, indices) else {
            return Err(IrError::NoIndex);
        };
        raw.push(index)?;
    }
    Ok(raw)
}

// Expressions and their type, over indices.
fn raw_expressions(
    alloc: Global,
    ty: RefType,
    all: &[ConstExpr],
    indices: &IdsToIndices,
) -> Result<RawItems, IrError>
    ensures { IndexesItems (index_of indices.now) (Expressions (ref_type ty) (map const_ops all.now)) result }
{
    let element = raw_reference(ty, indices)?;
    let raw = raw_consts(alloc, all, indices)?;
    Ok(RawItems::Expressions(element, raw))
}

// What a segment holds, over indices.
fn raw_items(
    alloc: Global,
    held: &ElementItems,
    indices: &IdsToIndices,
) -> Result<RawItems, IrError>
    ensures { IndexesItems (index_of indices.now) (element_items_of held.now) result }
{
    match held {
        ElementItems::Functions(functions) => {
            let raw = function_indices(alloc, functions.as_slice(), indices)?;
            Ok(RawItems::Functions(raw))
        }
        ElementItems::Expressions(ty, all) => raw_expressions(alloc, *ty, all.as_slice(), indices),
    }
}

// Whether the items are functions, or expressions of the type of all functions.
fn are_plain(held: &RawItems) -> bool
    ensures { IsTrue result ↔ ArePlain (items_of held.now) }
{
    match held {
        RawItems::Functions(_) => true,
        RawItems::Expressions(ty, _) => {
            ty.nullable && matches!(ty.heap, RawHeap::Abstract(HEAP_FUNC))
        }
    }
}

// Whether the table is there and is 32-bit.
fn is_narrow(all: &ModuleTables, id: TableId) -> bool
    ensures { IsTrue result ↔ IsNarrow (tables_of all.now (place id)) }
{
    all.contains(id) && !all.get(id).table64
}

// The index of a table as it is written: it is left out where it is 0, the table is 32-bit and the items are plain.
fn written_index(index: u32, narrow: bool, plain: bool) -> Option<u32>
    ensures { result ≡ (if nat_eq index 0 && narrow && plain then None else Some index) }
{
    if index == 0 && narrow && plain {
        None
    } else {
        Some(index)
    }
}

// How a segment that holds these is used, over indices. The table is left out where it has index 0 and is 32-bit, and the segment lists
// functions, or expressions of the type of all functions.
fn raw_mode(
    alloc: Global,
    kind: &ElementKind,
    held: &RawItems,
    all_tables: &ModuleTables,
    indices: &IdsToIndices,
) -> Result<RawElementMode, IrError>
    ensures { IndexesMode (index_of indices.now) (tables_of all_tables.now) (items_of held.now)
        (element_kind_of kind.now) result }
{
    match kind {
        ElementKind::Active { table, offset } => {
            let Some(index) = table_index(*table, indices) else {
                return Err(IrError::NoIndex);
            };
            let raw_offset = raw_const(alloc, offset, indices)?;
            let written = written_index(index, is_narrow(all_tables, *table), are_plain(held));
            Ok(RawElementMode::Active(written, raw_offset))
        }
        ElementKind::Passive => Ok(RawElementMode::Passive),
        ElementKind::Declared => Ok(RawElementMode::Declared),
    }
}

/// The record of an element segment, which bytes can spell.
///
/// # Errors
///
/// [`IrError::NoIndex`] where its table, or an item in its offset or in what it holds has no index, [`IrError::NotWritable`] where no
/// bytes spell its offset or what it holds, and [`IrError::Memory`].
pub fn raw_element(
    alloc: Global,
    segment: &Element,
    all_tables: &ModuleTables,
    indices: &IdsToIndices,
) -> Result<RawElement, IrError>
    ensures { IndexesElement (index_of indices.now) (tables_of all_tables.now)
        (element_of (element_value segment.now)) result }
{
    let held = raw_items(alloc, &segment.items, indices)?;
    let mode = raw_mode(alloc, &segment.kind, &held, all_tables, indices)?;
    Ok(RawElement { mode, items: held })
}

/// The records of the element segments, by rising id.
///
/// # Errors
///
/// `NotWritable` where no bytes spell the offset of one or what it holds, and `Memory`.
pub fn raw_elements(
    alloc: Global,
    all: &ModuleElements,
    all_tables: &ModuleTables,
    indices: &IdsToIndices,
) -> Result<Vec<RawElement>, Error>
    requires indexed { All (λ o. IsSome o) (map (λ e. named_element (index_of indices.now) (element_of e))
        (items (elements all.now))) }
    ensures value { IfOk result (λ raw. map (λ e. Some (said.element_of (element_entry e))) raw.items
        ≡ map (λ e. named_element (index_of indices.now) (element_of e)) (items (elements all.now))) }
    ensures stand { IfOk result (λ raw. All (λ e. ElementStands (element_entry e)) raw.items) }
    ensures chosen { IfOk result (λ raw. All (λ e. ChoosesFlag (index_of indices.now)
        (tables_of all_tables.now) (element_entry e)) raw.items) }
    ensures spelled { IfOk result (λ _. All IsSpelledElement (items (elements all.now))) }
    ensures fails { IfErr result (RefusesElements (items (elements all.now))) }
{
    let mut raw = Vec::with_capacity(alloc, all.len())?;
    for segment in all.iter() {
        let one = raw_element(alloc, segment, all_tables, indices)?;
        raw.push(one)?;
    }
    Ok(raw)
}
