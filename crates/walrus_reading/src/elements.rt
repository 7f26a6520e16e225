//! The element segments that sections define. Each gets the next id, and a table keeps those that are active in it.
ghost use Rattle.std.specs.Prelude.{◌≡◌, ◌==◌, ◌∷◌, [], length, map, true, All, IfOk, OnOk, IsOkUnless, Some};
ghost use Rattle.wasm_entries.specs.Record.{element_entry, element_mode, expression, items_of};
ghost use Rattle.walrus_base.specs.Arena.{IsLive};
ghost use Rattle.walrus_base.specs.Id.{place};
ghost use Rattle.walrus_base.specs.ConstOps.{const_ops};
ghost use Rattle.walrus_base.specs.Operators.{Tables};
ghost use Rattle.walrus_code.specs.Indices.{ids_at};
ghost use Rattle.walrus_constants.specs.Short.{is_short};
ghost use Rattle.walrus_contents.specs.View.{element_items_of, element_kind_of};
ghost use Rattle.walrus_items.specs.Elements.{elements};
ghost use Rattle.walrus_items.specs.Tables.{tables};
ghost use Rattle.walrus_model.specs.Abstract.{ActiveElements};
ghost use Rattle.walrus_model.specs.Constants.{consts_of};
ghost use Rattle.walrus_model.specs.Sections as said;
ghost use Rattle.walrus_items.specs.Errors.{out_of_memory};
ghost use Rattle.walrus_reading.specs.Held.{AreShort, HaveShortOffset, HoldsElement};
ghost use Rattle.walrus_reading.specs.Kept.{AreOnLive, element_kept, elements_kept, kept_from, table_keeping};
ghost use Rattle.walrus_reading.specs.Placed.{AddsPlaced};
ghost use Rattle.walrus_reading.specs.Stays.{ConstStays, ElementStays, FunctionStays, ItemsStay, PlaceStays};

use crate::globals::read_initialiser;
use crate::tables::read_reference;
use std::alloc::Global;
use walrus_base::{ConstExpr, ElementId, FunctionId, TableId};
use walrus_code::{IndicesToIds, IrError};
use walrus_constants::read_consts;
use walrus_items::{ElementItems, ElementKind, Error, ModuleElements, ModuleTables, Result};
use wasm_entries::{RawConst, RawElement, RawElementMode, RawExpression, RawItems};

// Elements that are active in the table of this index.
fn read_active(
    alloc: Global,
    table: u32,
    offset: &[RawConst],
    indices: &IndicesToIds,
) -> Result<ElementKind>
    requires declared { ids_at indices.now Tables table ≡ Some table }
    requires stays { ConstStays (ids_at indices.now) offset.now }
    ensures value { IfOk result (λ kind. element_kind_of kind
        ≡ ActiveElements table (consts_of offset.now)) }
    ensures short { IfOk result HaveShortOffset }
    ensures fails { IsOkUnless result out_of_memory }
{
    let Some(table) = indices.get_table(table) else {
        unreachable!();
    };
    let offset = read_initialiser(alloc, offset, indices)?;
    Ok(ElementKind::Active { table, offset })
}

// How a segment is used. An active one that names no table is active in table 0.
fn read_kind(alloc: Global, raw: &RawElementMode, indices: &IndicesToIds) -> Result<ElementKind>
    requires stays { PlaceStays (ids_at indices.now) (element_mode raw.now) }
    ensures value { IfOk result (λ kind. element_kind_of kind ≡ said.element_kind (element_mode raw.now)) }
    ensures short { IfOk result HaveShortOffset }
    ensures fails { IsOkUnless result out_of_memory }
{
    match raw {
        RawElementMode::Active(table, offset) => {
            read_active(alloc, table.unwrap_or(0), offset.operators(), indices)
        }
        RawElementMode::Passive => Ok(ElementKind::Passive),
        RawElementMode::Declared => Ok(ElementKind::Declared),
    }
}

// The functions of these indices.
fn read_functions(alloc: Global, raw: &[u32], indices: &IndicesToIds) -> Result<Vec<FunctionId>>
    requires stay { All (FunctionStays (ids_at indices.now)) raw.now }
    ensures value { IfOk result (λ ids. map place ids.items ≡ raw.now) }
    ensures fails { IsOkUnless result out_of_memory }
{
    let mut ids = Vec::with_capacity(alloc, raw.len())?;
    for index in raw {
        let Some(id) = indices.get_func(*index) else {
            unreachable!();
        };
        ids.push(id)?;
    }
    Ok(ids)
}

// The constant expressions that are the items of a segment.
fn read_expressions(
    alloc: Global,
    raw: &[RawExpression],
    indices: &IndicesToIds,
) -> Result<Vec<ConstExpr>>
    requires stay { All (ConstStays (ids_at indices.now)) (map expression raw.now) }
    ensures value { IfOk result (λ found. map const_ops found.items
        ≡ map consts_of (map expression raw.now)) }
    ensures short { IfOk result (λ found. All (λ expr. is_short expr ≡ true) found.items) }
    ensures fails { IsOkUnless result out_of_memory }
{
    match read_consts(alloc, raw, indices) {
        Ok(found) => Ok(found),
        Err(IrError::Memory(error)) => Err(Error::Memory(error)),
        Err(_) => unreachable!(),
    }
}

// What a segment lists.
fn read_items(alloc: Global, raw: &RawItems, indices: &IndicesToIds) -> Result<ElementItems>
    requires stay { ItemsStay (ids_at indices.now) (items_of raw.now) }
    ensures value { IfOk result (λ held. element_items_of held ≡ said.element_items (items_of raw.now)) }
    ensures short { IfOk result AreShort }
    ensures fails { IsOkUnless result out_of_memory }
{
    match raw {
        RawItems::Functions(functions) => {
            let found = read_functions(alloc, functions, indices)?;
            Ok(ElementItems::Functions(found))
        }
        RawItems::Expressions(ty, expressions) => {
            let element = read_reference(*ty, indices);
            let found = read_expressions(alloc, expressions, indices)?;
            Ok(ElementItems::Expressions(element, found))
        }
    }
}

// The table keeps the segment from now on.
fn keep(table: TableId, segment: ElementId, all: &mut ModuleTables) -> Result<()>
    requires there { IsLive (tables all.old) (place table) }
    ensures kept { OnOk result (tables all.new ≡ kept_from table_keeping 0 (λ t. place table == t)
        (place segment) (tables all.old)) }
    ensures fails { IsOkUnless result out_of_memory }
{
    all.get_mut(table).elem_segments.insert(segment)?;
    Ok(())
}

// The table that a segment of this kind is active in keeps it from now on.
fn keep_active(kind: &ElementKind, segment: ElementId, all: &mut ModuleTables) -> Result<()>
    requires there { AreOnLive (tables all.old) (element_kind_of kind.now) }
    ensures kept { OnOk result (tables all.new
        ≡ element_kept (element_kind_of kind.now) (place segment) (tables all.old)) }
    ensures fails { IsOkUnless result out_of_memory }
{
    match kind {
        ElementKind::Active { table, .. } => keep(*table, segment, all),
        ElementKind::Passive | ElementKind::Declared => Ok(()),
    }
}

// A segment of this entry, with the next id.
fn add_segment(
    alloc: Global,
    raw: &RawElement,
    indices: &IndicesToIds,
    within: &mut ModuleTables,
    all: &mut ModuleElements,
) -> Result<()>
    requires stays { ElementStays (ids_at indices.now) (element_entry raw.now) }
    requires there { AreOnLive (tables within.old) (said.element_kind (element_entry raw.now).mode) }
    ensures added { OnOk result (AddsPlaced HoldsElement (said.element_of (element_entry raw.now) ∷ [])
        (elements all.old) (elements all.new)) }
    ensures kept { OnOk result (tables within.new
        ≡ element_kept (said.element_kind (element_entry raw.now).mode)
        (length (elements all.old)) (tables within.old)) }
    ensures fails { IsOkUnless result out_of_memory }
{
    let kind = read_kind(alloc, &raw.mode, indices)?;
    keep_active(&kind, all.next_id(), within)?;
    let held = read_items(alloc, &raw.items, indices)?;
    all.add(kind, held)?;
    Ok(())
}

/// Adds the segments of an element section, and puts each active one into the set of its table (Binary Format > Modules > Element
/// Section).
pub(crate) fn add_elements(
    alloc: Global,
    raw: &[RawElement],
    indices: &IndicesToIds,
    within: &mut ModuleTables,
    all: &mut ModuleElements,
) -> Result<()>
    requires stay { All (ElementStays (ids_at indices.now)) (map element_entry raw.now) }
    requires there { All (λ e. AreOnLive (tables within.old) (said.element_kind e.mode))
        (map element_entry raw.now) }
    ensures added { OnOk result (AddsPlaced HoldsElement (map said.element_of (map element_entry raw.now))
        (elements all.old) (elements all.new)) }
    ensures kept { OnOk result (tables within.new ≡ elements_kept (length (elements all.old))
        (map said.element_of (map element_entry raw.now)) (tables within.old)) }
    ensures fails { IsOkUnless result out_of_memory }
{
    all.reserve(raw.len())?;
    for entry in raw {
        add_segment(alloc, entry, indices, within, all)?;
    }
    Ok(())
}
