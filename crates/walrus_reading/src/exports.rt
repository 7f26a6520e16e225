//! The exports of a module that is read.
ghost use Rattle.std.specs.Prelude.{◌≡◌, ◌<◌, [], map, All, OnOk, IsOkUnless, Some, option_map};
ghost use Rattle.walrus_code.specs.Indices.{ids_at};
ghost use Rattle.walrus_items.specs.Kinds.{exported};
ghost use Rattle.walrus_items.specs.Exports.{exports};
ghost use Rattle.walrus_model.specs.Reads.{declared};
ghost use Rattle.walrus_reading.specs.Placed.{AllPlaced};
ghost use Rattle.walrus_reading.specs.Taken.{AddsExport, HoldsExport};
ghost use Rattle.walrus_model.specs.Sections.{space_of};
ghost use Rattle.walrus_items.specs.Errors.{out_of_memory};
ghost use Rattle.wasm_entries.specs.Record.{export_entry};

use std::alloc::Global;
use walrus_code::IndicesToIds;
use walrus_items::{ExportItem, ModuleExports, Result};
use wasm_entries::{RawExport, RawExportKind};

// What an index of this kind names, if it names something.
fn item_named(kind: RawExportKind, index: u32, indices: &IndicesToIds) -> Option<ExportItem>
    ensures { option_map exported result
        ≡ option_map (λ i. (space_of kind, i)) (ids_at indices.now (space_of kind) index) }
{
    match kind {
        RawExportKind::Function => Some(ExportItem::Function(indices.get_func(index)?)),
        RawExportKind::Table => Some(ExportItem::Table(indices.get_table(index)?)),
        RawExportKind::Memory => Some(ExportItem::Memory(indices.get_memory(index)?)),
        RawExportKind::Global => Some(ExportItem::Global(indices.get_global(index)?)),
        RawExportKind::Tag => Some(ExportItem::Tag(indices.get_tag(index)?)),
    }
}

// The export leads to the item of its index.
fn add_export(entry: &RawExport<'_>, indices: &IndicesToIds, all: &mut ModuleExports) -> Result<()>
    requires declared { ids_at indices.now (space_of entry.now.kind) entry.now.index
        ≡ Some entry.now.index }
    ensures added { OnOk result (AddsExport (export_entry entry.now) (exports all.old) (exports all.new)) }
    ensures fails { IsOkUnless result out_of_memory }
{
    let Some(item) = item_named(entry.kind, entry.index, indices) else {
        unreachable!();
    };
    all.add(entry.name, item)?;
    Ok(())
}

pub fn add_exports(
    raw: &[RawExport<'_>],
    indices: &IndicesToIds,
    all: &mut ModuleExports,
) -> Result<()>
    requires none { exports all.old ≡ [] }
    requires declared { All (λ e. ids_at indices.now (space_of e.kind) e.index ≡ Some e.index)
        (map export_entry raw.now) }
    ensures added { OnOk result (AllPlaced HoldsExport 0 (map export_entry raw.now) (exports all.new)) }
    ensures fails { IsOkUnless result out_of_memory }
{
    all.reserve(raw.len())?;
    for entry in raw {
        add_export(entry, indices, all)?;
    }
    Ok(())
}
