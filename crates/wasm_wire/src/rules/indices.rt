//! The entries of each section name what is declared (Validation > Modules).

ghost use Rattle.std.specs.Prelude.{◌≡◌, map};
ghost use Rattle.wasm_entries.specs.Record.{
  Import,
  Table,
  Global,
  Export,
  Element,
  Segment,
  import_entry,
  table_entry,
  global_entry,
  export_entry,
  element_entry,
  data_entry,
  element_mode,
  items_of,
};
ghost use Rattle.wasm_frames.specs.Record.{sections};
ghost use Rattle.wasm_wire.specs.Indices.{
  ImportHolds,
  DescHolds,
  TableHolds,
  GlobalHolds,
  ExportHolds,
  ElementHolds,
  ElementModeHolds,
  ItemsHold,
  SegmentHolds,
  StartExists,
  IndicesHold,
  count_of,
};
ghost use Rattle.wasm_wire.specs.Rules.{Checks};

use super::constant::{Expressions, check_expression, with_globals};
use super::counts::{Counts, check_below};
use super::each::{NumberedRule, Rule, check_all, check_from};
use super::types::{Below, check_heap, check_value};
use wasm_entries::{
    RawData, RawDataMode, RawDesc, RawElement, RawElementMode, RawExport, RawExportKind, RawGlobal,
    RawImport, RawItems, RawTable,
};
use wasm_forms::WireError;
use wasm_frames::Raw;

/// Whether what an import brings names one of so many types.
fn check_desc(types: usize, desc: RawDesc) -> Result<(), WireError>
    ensures { Checks result (DescHolds types desc) }
{
    match desc {
        RawDesc::Function(ty) | RawDesc::Tag(ty) => check_below(ty, types),
        RawDesc::Table(table) => check_heap(types, table.element.heap),
        RawDesc::Memory(_) => Ok(()),
        RawDesc::Global(global) => check_value(types, global.value),
    }
}

/// Entries that name what is declared.
#[derive(Clone, Copy)]
struct Declared {
    counts: Counts,
}

impl<'a> Rule<RawImport<'a>> for Declared {
    ghost Seen = { Import };

    ghost view = { import_entry };

    ghost Holds = { λ r i. ImportHolds r.counts.types i };

    fn check(&self, item: &RawImport<'a>) -> Result<(), WireError> {
        check_desc(self.counts.types, item.desc())
    }
}

impl Rule<RawTable> for Declared {
    ghost Seen = { Table };

    ghost view = { table_entry };

    ghost Holds = { λ r t. TableHolds r.counts t };

    fn check(&self, item: &RawTable) -> Result<(), WireError> {
        check_heap(self.counts.types, item.ty.element.heap)?;
        match &item.initial {
            None => Ok(()),
            Some(initial) => {
                let scope = with_globals(&self.counts, self.counts.imported_globals);
                check_expression(&scope, initial.operators())
            }
        }
    }
}

impl NumberedRule<RawGlobal> for Declared {
    ghost Seen = { Global };

    ghost view = { global_entry };

    ghost Holds = { λ r n g. GlobalHolds r.counts n g };

    fn check(&self, number: usize, item: &RawGlobal) -> Result<(), WireError> {
        check_value(self.counts.types, item.ty.value)?;
        check_expression(
            &with_globals(&self.counts, number),
            item.initial.operators(),
        )
    }
}

/// How many items of this kind are declared.
fn count_of(counts: &Counts, kind: RawExportKind) -> usize
    ensures { result ≡ count_of counts.now kind }
{
    match kind {
        RawExportKind::Function => counts.functions,
        RawExportKind::Table => counts.tables,
        RawExportKind::Memory => counts.memories,
        RawExportKind::Global => counts.globals,
        RawExportKind::Tag => counts.tags,
    }
}

impl<'a> Rule<RawExport<'a>> for Declared {
    ghost Seen = { Export };

    ghost view = { export_entry };

    ghost Holds = { λ r e. ExportHolds r.counts e };

    fn check(&self, item: &RawExport<'a>) -> Result<(), WireError> {
        check_below(item.index, count_of(&self.counts, item.kind))
    }
}

/// Whether an active segment's table is declared, and its offset names what is.
fn check_element_mode(counts: &Counts, mode: &RawElementMode) -> Result<(), WireError>
    ensures { Checks result (ElementModeHolds counts.now (element_mode mode.now)) }
{
    match mode {
        RawElementMode::Active(table, offset) => {
            check_below(table.unwrap_or(0), counts.tables)?;
            check_expression(counts, offset.operators())
        }
        RawElementMode::Passive | RawElementMode::Declared => Ok(()),
    }
}

/// Whether what a segment lists is declared.
fn check_items(counts: &Counts, items: &RawItems) -> Result<(), WireError>
    ensures { Checks result (ItemsHold counts.now (items_of items.now)) }
{
    match items {
        RawItems::Functions(functions) => check_all(
            &Below {
                count: counts.functions,
            },
            functions,
        ),
        RawItems::Expressions(ty, expressions) => {
            check_heap(counts.types, ty.heap)?;
            check_all(&Expressions { counts: *counts }, expressions)
        }
    }
}

impl Rule<RawElement> for Declared {
    ghost Seen = { Element };

    ghost view = { element_entry };

    ghost Holds = { λ r e. ElementHolds r.counts e };

    fn check(&self, item: &RawElement) -> Result<(), WireError> {
        check_element_mode(&self.counts, &item.mode)?;
        check_items(&self.counts, &item.items)
    }
}

impl<'a> Rule<RawData<'a>> for Declared {
    ghost Seen = { Segment };

    ghost view = { data_entry };

    ghost Holds = { λ r d. SegmentHolds r.counts d };

    fn check(&self, item: &RawData<'a>) -> Result<(), WireError> {
        match &item.mode {
            RawDataMode::Active(memory, offset) => {
                check_below(*memory, self.counts.memories)?;
                check_expression(&self.counts, offset.operators())
            }
            RawDataMode::Passive => Ok(()),
        }
    }
}

/// Whether the start function is declared.
fn check_start_exists(counts: &Counts, start: Option<u32>) -> Result<(), WireError>
    ensures { Checks result (StartExists counts.now start) }
{
    match start {
        None => Ok(()),
        Some(function) => check_below(function, counts.functions),
    }
}

/// Whether the entries of all sections name what is declared.
pub fn check_indices(counts: &Counts, raw: &Raw<'_>) -> Result<(), WireError>
    ensures { Checks result (IndicesHold counts.now (sections raw.now)) }
{
    let declared = Declared { counts: *counts };
    let types = Below {
        count: counts.types,
    };
    check_all(&declared, &raw.imports)?;
    check_all(&types, &raw.functions)?;
    check_all(&declared, &raw.tables)?;
    check_all(&types, &raw.tags)?;
    check_from(&declared, counts.imported_globals, &raw.globals)?;
    check_all(&declared, &raw.exports)?;
    check_start_exists(counts, raw.start)?;
    check_all(&declared, &raw.elements)?;
    check_all(&declared, &raw.data_)
}
