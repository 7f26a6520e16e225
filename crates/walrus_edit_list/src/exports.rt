//! Exports that come, are written anew and go.

ghost use Rattle.std.specs.Prelude.{◌≡◌, MatchOption, MatchResult, map};
ghost use Rattle.std.specs.String.{string_bytes};
ghost use Rattle.walrus_base.specs.Arena.{IsLive};
ghost use Rattle.walrus_base.specs.Id.{place};
ghost use Rattle.walrus_contents.specs.There.{IsRefusal};
ghost use Rattle.walrus_items.specs.Exports.{exports};
ghost use Rattle.walrus_items.specs.Kinds.{exported};
ghost use Rattle.walrus_module.specs.View.{contents_of};
ghost use Rattle.wasm_entries.specs.Record.{export_entry};
ghost use Rattle.walrus_edit_list.specs.Exports.{AddsExport, AddsExports, IsNamed, NamesNothing, RefusesExport, RefusesExports, RefusesSetExport, SetsExport, item_named};
ghost use Rattle.walrus_edit_list.specs.Places.{ChangesAt, DeletesAt, IsGone};

use std::alloc::Global;
use walrus_base::{ExportId, FunctionId, GlobalId, MemoryId, TableId, TagId};
use walrus_contents::is_live;
use walrus_items::{Error, ExportItem, ModuleExports, Result};
use walrus_module::Module;
use wasm_entries::{RawExport, RawExportKind};

// The item of an export: its index is its id.
fn item_of(raw: &RawExport<'_>) -> ExportItem
    ensures { exported result ≡ item_named (export_entry raw.now) }
{
    let at = raw.index as usize;
    match raw.kind {
        RawExportKind::Function => ExportItem::Function(FunctionId::at(at)),
        RawExportKind::Table => ExportItem::Table(TableId::at(at)),
        RawExportKind::Memory => ExportItem::Memory(MemoryId::at(at)),
        RawExportKind::Global => ExportItem::Global(GlobalId::at(at)),
        RawExportKind::Tag => ExportItem::Tag(TagId::at(at)),
    }
}

// The same, where it is there.
fn live_item<S>(raw: &RawExport<'_>, module: &Module<S>) -> Option<ExportItem>
    ensures { MatchOption result
        (NamesNothing (export_entry raw.now) (contents_of «module».now))
        (IsNamed (export_entry raw.now) (contents_of «module».now)) }
{
    let item = item_of(raw);
    if is_live(module.parts(), item.item_id()) {
        return Some(item);
    }
    None
}

// Adds an export behind the others.
fn add_export<S>(raw: &RawExport<'_>, module: &mut Module<S>) -> Result<()>
    ensures { MatchResult result
        (λ _. AddsExport (export_entry raw.now) (contents_of «module».old) (contents_of «module».new))
        (RefusesExport (export_entry raw.now) (contents_of «module».old)) }
{
    let Some(item) = live_item(raw, module) else {
        return Err(Error::DeadItem);
    };
    module.exports.add(raw.name, item)?;
    Ok(())
}

/// Adds these exports, each behind the others (Binary Format > Modules > Export Section).
///
/// # Errors
///
/// `DeadItem` only where one of them names what isn't there, and `Memory`.
pub(crate) fn add_exports<S>(raw: &[RawExport<'_>], module: &mut Module<S>) -> Result<()>
    ensures { MatchResult result
        (λ _. AddsExports (map export_entry raw.now) (contents_of «module».old) (contents_of «module».new))
        (RefusesExports (map export_entry raw.now) (contents_of «module».old)) }
{
    'exports: for export in raw {
        add_export(export, module)?;
    }
    Ok(())
}

// Gives the export of this live id this name and this item.
fn write_export(id: ExportId, name: String, item: ExportItem, all: &mut ModuleExports)
    requires { IsLive (exports all.old) (place id) }
    ensures { ChangesAt (place id) (λ was. record was { name = string_bytes name; item = item })
        (exports all.old) (exports all.new) }
{
    let export = all.get_mut(id);
    export.name = name;
    export.item = item;
}

/// Gives the export of this id another name and another item.
///
/// # Errors
///
/// `DeadItem` only where it isn't there, or what it is to name isn't, and `Memory`.
pub(crate) fn set_export<S>(
    alloc: Global,
    number: u32,
    raw: &RawExport<'_>,
    module: &mut Module<S>,
) -> Result<()>
    ensures { MatchResult result
        (λ _. SetsExport number (export_entry raw.now) (contents_of «module».old)
        (contents_of «module».new))
        (RefusesSetExport number (export_entry raw.now) (contents_of «module».old)) }
{
    let id = ExportId::at(number as usize);
    if !module.exports.contains(id) {
        return Err(Error::DeadItem);
    }
    let Some(item) = live_item(raw, module) else {
        return Err(Error::DeadItem);
    };
    let name = String::from_str(alloc, raw.name)?;
    write_export(id, name, item, &mut module.exports);
    Ok(())
}

/// Takes the export of this id away.
///
/// # Errors
///
/// `DeadItem` exactly where it isn't there.
pub(crate) fn delete_export(number: u32, all: &mut ModuleExports) -> Result<()>
    ensures { MatchResult result
        (λ _. DeletesAt number (exports all.old) (exports all.new))
        (IsRefusal (IsGone (exports all.old) number)) }
{
    let id = ExportId::at(number as usize);
    if !all.contains(id) {
        return Err(Error::DeadItem);
    }
    all.delete(id);
    Ok(())
}
