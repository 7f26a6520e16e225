//! The export section of a module that is written.
ghost use Rattle.std.specs.Prelude.{◌≡◌, map, All, Some, IsSome, IfOk, IfSome, IsOkUnless, option_map};
ghost use Rattle.std.specs.Str.{IsUtf8};
ghost use Rattle.walrus_base.specs.Arena.{items};
ghost use Rattle.walrus_code.specs.Indices.{index_of};
ghost use Rattle.walrus_items.specs.Kinds.{exported};
ghost use Rattle.walrus_items.specs.Exports.{exports, export_value};
ghost use Rattle.walrus_contents.specs.View.{export_of};
ghost use Rattle.walrus_items.specs.Errors.{out_of_memory};
ghost use Rattle.wasm_entries.specs.Record.{export_entry};
ghost use Rattle.wasm_entries.specs.Spelling.{ExportFits, export_bytes};
ghost use Rattle.walrus_writing.specs.Appended.{AppendsEntries, AppendsEntry};
ghost use Rattle.walrus_writing.specs.BySection.{AreExports};
ghost use Rattle.walrus_writing.specs.Parts.{kind_in, export_with_index};

use std::alloc::Global;
use walrus_code::IdsToIndices;
use walrus_items::{Error, Export, ExportItem, Memory, ModuleExports, Result, Tag};
use wasm_entries::{RawExport, RawExportKind};
use wasm_forms::Written;

fn raw_export<'a>(export: &'a Export, indices: &IdsToIndices) -> Option<RawExport<'a>>
    ensures value { option_map export_entry result ≡ export_with_index (index_of indices.now)
        (export_of (export_value export.now)) }
    ensures text { IfSome result (λ raw. IsUtf8 raw.name.now) }
{
    let index = index_of_item(export.item, indices)?;
    Some(RawExport {
        name: export.name.as_str(),
        kind: raw_kind(export.item),
        index,
    })
}

// The kind of what is exported.
fn raw_kind(item: ExportItem) -> RawExportKind
    ensures { Some result ≡ kind_in (exported item).0 }
{
    match item {
        ExportItem::Function(_) => RawExportKind::Function,
        ExportItem::Table(_) => RawExportKind::Table,
        ExportItem::Memory(_) => RawExportKind::Memory,
        ExportItem::Global(_) => RawExportKind::Global,
        ExportItem::Tag(_) => RawExportKind::Tag,
    }
}

// The index of what is exported, in its own index space.
fn index_of_item(item: ExportItem, indices: &IdsToIndices) -> Option<u32>
    ensures { result ≡ index_of indices.now (exported item).0 (exported item).1 }
{
    match item {
        ExportItem::Function(id) => indices.get_func_index(id),
        ExportItem::Table(id) => indices.get_table_index(id),
        ExportItem::Memory(id) => indices.get_memory_index(id),
        ExportItem::Global(id) => indices.get_global_index(id),
        ExportItem::Tag(id) => indices.get_tag_index(id),
    }
}

pub fn raw_exports<'a>(
    alloc: Global,
    all_exports: &'a ModuleExports,
    indices: &IdsToIndices,
) -> Result<Vec<RawExport<'a>>>
    requires indexed { All (λ e. IsSome e) (map (λ v. export_with_index (index_of indices.now) (export_of v))
        (items (exports all_exports.now))) }
    ensures value { IfOk result (λ raw. map (λ e. Some (export_entry e)) raw.items
        ≡ map (λ v. export_with_index (index_of indices.now) (export_of v))
        (items (exports all_exports.now))) }
    ensures text { IfOk result (λ raw. All (λ e. IsUtf8 e.name.now) raw.items) }
    ensures fails { IsOkUnless result out_of_memory }
{
    let mut raw = Vec::with_capacity(alloc, all_exports.next_id().index())?;
    for export in all_exports.iter() {
        let Some(one) = raw_export(export, indices) else {
            unreachable!();
        };
        raw.push(one)?;
    }
    Ok(raw)
}

// Appends the entry of an export: how many there are with it.
fn append_export(
    export: &Export,
    indices: &IdsToIndices,
    count: u32,
    to: &mut Vec<u8>,
) -> Result<u32>
    ensures { IfOk result (λ more. AppendsEntry export_entry export_bytes ExportFits
        (λ raw. (Some (export_entry raw) ≡ export_with_index (index_of indices.now)
        (export_of (export_value export.now))) × IsUtf8 raw.name.now)
        count more to.old.items to.new.items) }
{
    let Some(one) = raw_export(export, indices) else {
        return Err(Error::NoIndex);
    };
    one.write(to)?;
    match count.checked_add(1) {
        Some(more) => Ok(more),
        None => Err(Error::TooLarge),
    }
}

/// The same exports, appended to bytes one after another, with no record of all of them: how many they are.
///
/// # Errors
///
/// `NoIndex` where what is exported has no index, `TooLarge` where a name has 2^32 bytes or more or there are as many exports, and
/// `Memory`. Refused, what was appended means nothing.
pub fn append_exports(
    all_exports: &ModuleExports,
    indices: &IdsToIndices,
    to: &mut Vec<u8>,
) -> Result<u32>
    ensures { IfOk result (λ count. AppendsEntries export_entry export_bytes ExportFits
        (AreExports (index_of indices.now) (items (exports all_exports.now))) count
        to.old.items to.new.items) }
{
    let mut count: u32 = 0;
    for export in all_exports.iter() {
        count = append_export(export, indices, count, to)?;
    }
    Ok(count)
}
