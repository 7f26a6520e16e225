//! Element segments that come, or go ("Structure > Modules > Element Segments"). The set of a table has those that are active in it.

ghost use Rattle.std.specs.Prelude.{◌≡◌, IsOkUnless, MatchResult, OnOk, Some, false, map, true};
ghost use Rattle.wasm_entries.specs.Record.{Expressions, element_entry, element_mode, expression, items_of};
ghost use Rattle.walrus_base.specs.Id.{place};
ghost use Rattle.walrus_base.specs.Operators.{Functions, Tables};
ghost use Rattle.walrus_code.specs.Indices.{ids_at};
ghost use Rattle.walrus_constants.specs.Segments.{named_element_items};
ghost use Rattle.walrus_contents.specs.View.{element_items_of, element_kind_of};
ghost use Rattle.walrus_groups.specs.Named.{each};
ghost use Rattle.walrus_items.specs.Errors.{out_of_memory};
ghost use Rattle.walrus_items.specs.Tables.{tables};
ghost use Rattle.walrus_model.specs.Abstract.{ActiveElements};
ghost use Rattle.walrus_model.specs.Constants.{consts_of};
ghost use Rattle.walrus_model.specs.Sections as said;
ghost use Rattle.walrus_module.specs.View.{contents_of};
ghost use Rattle.walrus_edit_list.specs.Constants.{Finds};
ghost use Rattle.walrus_edit_list.specs.Elements.{AddsElement, AddsElements, DeletesElement, RefusesDeleteElement, RefusesElement, RefusesElements, element_kind_there, in_table};
ghost use Rattle.walrus_edit_list.specs.SegmentSets.{changed_at, table_with, there};

use crate::constants::{constant, constants, reference_type};
use crate::ids::ids_of;
use std::alloc::Global;
use walrus_base::{ElementId, FunctionId, TableId};
use walrus_code::IndicesToIds;
use walrus_items::{ElementItems, ElementKind, Error, ModuleTables, Result};
use walrus_module::Module;
use wasm_entries::{RawElement, RawElementMode, RawExpression, RawItems};
use wasm_forms::RawRef;

// The table of this number, which is there.
fn table_there(number: u32, ids: &IndicesToIds, all: &ModuleTables) -> Result<TableId>
    ensures { Finds place result (there (tables all.now) (ids_at ids.now Tables number)) }
{
    match ids.get_table(number) {
        Some(id) => {
            if all.contains(id) {
                Ok(id)
            } else {
                Err(Error::DeadItem)
            }
        }
        None => Err(Error::DeadItem),
    }
}

// Elements that are active in the table of this number.
fn active_elements(
    alloc: Global,
    number: u32,
    offset: &RawExpression,
    ids: &IndicesToIds,
    all: &ModuleTables,
) -> Result<ElementKind>
    ensures { Finds element_kind_of result (element_kind_there (ids_at ids.now) (tables all.now)
        (ActiveElements number (consts_of (expression offset.now)))) }
{
    let table = table_there(number, ids, all)?;
    let offset = constant(alloc, offset, ids)?;
    Ok(ElementKind::Active { table, offset })
}

// How a segment is used. An active one that names no table is active in table 0.
fn read_kind(
    alloc: Global,
    raw: &RawElementMode,
    ids: &IndicesToIds,
    all: &ModuleTables,
) -> Result<ElementKind>
    ensures { Finds element_kind_of result (element_kind_there (ids_at ids.now) (tables all.now)
        (said.element_kind (element_mode raw.now))) }
{
    match raw {
        RawElementMode::Active(number, offset) => {
            active_elements(alloc, number.unwrap_or(0), offset, ids, all)
        }
        RawElementMode::Passive => Ok(ElementKind::Passive),
        RawElementMode::Declared => Ok(ElementKind::Declared),
    }
}

// The functions of these numbers.
fn read_functions(alloc: Global, raw: &[u32], ids: &IndicesToIds) -> Result<Vec<FunctionId>>
    ensures { Finds (λ found. map place found.items) result (each (ids_at ids.now Functions) raw.now) }
{
    let mut found = Vec::with_capacity(alloc, raw.len())?;
    'functions: for number in raw {
        let Some(id) = ids.get_func(*number) else {
            return Err(Error::DeadItem);
        };
        found.push(id)?;
    }
    Ok(found)
}

// The values of these expressions, each of the type.
fn read_expressions(
    alloc: Global,
    ty: RawRef,
    raw: &[RawExpression],
    ids: &IndicesToIds,
) -> Result<ElementItems>
    ensures { Finds element_items_of result (named_element_items (ids_at ids.now)
        (said.element_items (Expressions ty (map expression raw.now)))) }
{
    let element = reference_type(ty, ids)?;
    let values = constants(alloc, raw, ids)?;
    Ok(ElementItems::Expressions(element, values))
}

// What a segment lists.
fn read_items(alloc: Global, raw: &RawItems, ids: &IndicesToIds) -> Result<ElementItems>
    ensures { Finds element_items_of result (named_element_items (ids_at ids.now)
        (said.element_items (items_of raw.now))) }
{
    match raw {
        RawItems::Functions(numbers) => {
            let functions = read_functions(alloc, numbers, ids)?;
            Ok(ElementItems::Functions(functions))
        }
        RawItems::Expressions(ty, expressions) => read_expressions(alloc, *ty, expressions, ids),
    }
}

// The set of this table has the segment, where the table is there.
fn put_in(table: TableId, segment: ElementId, all: &mut ModuleTables) -> Result<()>
    ensures kept { OnOk result (tables all.new
        ≡ changed_at (table_with true (place segment)) (Some (place table)) (tables all.old)) }
    ensures fails { IsOkUnless result out_of_memory }
{
    if !all.contains(table) {
        return Ok(());
    }
    all.get_mut(table).elem_segments.insert(segment)?;
    Ok(())
}

// The set of this table doesn't have the segment, where the table is there.
fn take_out(table: TableId, segment: ElementId, all: &mut ModuleTables)
    ensures { tables all.new
        ≡ changed_at (table_with false (place segment)) (Some (place table)) (tables all.old) }
{
    if all.contains(table) {
        let _was_in = all.get_mut(table).elem_segments.remove(segment);
    }
}

// The set of the table that a segment of this kind is active in has it.
fn keep(kind: &ElementKind, segment: ElementId, all: &mut ModuleTables) -> Result<()>
    ensures kept { OnOk result (tables all.new
        ≡ in_table true (element_kind_of kind.now) (place segment) (tables all.old)) }
    ensures fails { IsOkUnless result out_of_memory }
{
    match kind {
        ElementKind::Active { table, .. } => put_in(*table, segment, all),
        ElementKind::Passive | ElementKind::Declared => Ok(()),
    }
}

// The set of the table that a segment of this kind is active in doesn't have it.
fn free(kind: &ElementKind, segment: ElementId, all: &mut ModuleTables)
    ensures { tables all.new
        ≡ in_table false (element_kind_of kind.now) (place segment) (tables all.old) }
{
    if let ElementKind::Active { table, .. } = kind {
        take_out(*table, segment, all);
    }
}

// Adds the segment of an entry.
fn add_segment<S>(alloc: Global, raw: &RawElement, module: &mut Module<S>) -> Result<()>
    ensures { MatchResult result
        (λ _. AddsElement (element_entry raw.now)
        (contents_of «module».old) (contents_of «module».new))
        (RefusesElement (element_entry raw.now) (contents_of «module».old)) }
{
    let ids = ids_of(alloc, module)?;
    let kind = read_kind(alloc, &raw.mode, &ids, &module.tables)?;
    let held = read_items(alloc, &raw.items, &ids)?;
    keep(&kind, module.elements.next_id(), &mut module.tables)?;
    module.elements.add(kind, held)?;
    Ok(())
}

/// Adds element segments, each behind the others (Binary Format > Modules > Element Section). The set of its table has each that is active.
///
/// # Errors
///
/// `DeadItem` only where one names what isn't there, `TooLarge` only where more than 2^32 ids of a space were given, and `Memory`.
pub(crate) fn add_elements<S>(
    alloc: Global,
    raw: &[RawElement],
    module: &mut Module<S>,
) -> Result<()>
    ensures { MatchResult result
        (λ _. AddsElements (map element_entry raw.now)
        (contents_of «module».old) (contents_of «module».new))
        (RefusesElements (map element_entry raw.now) (contents_of «module».old)) }
{
    'segments: for entry in raw {
        add_segment(alloc, entry, module)?;
    }
    Ok(())
}

/// Takes the element segment of this id away, out of the set of its table too. `DeadItem` exactly where it isn't there.
pub(crate) fn delete_element<S>(number: u32, module: &mut Module<S>) -> Result<()>
    ensures { MatchResult result
        (λ _. DeletesElement number (contents_of «module».old) (contents_of «module».new))
        (RefusesDeleteElement number (contents_of «module».old)) }
{
    let id = ElementId::at(number as usize);
    if !module.elements.contains(id) {
        return Err(Error::DeadItem);
    }
    free(&module.elements.get(id).kind, id, &mut module.tables);
    module.elements.delete(id);
    Ok(())
}
