//! The imports of a module, as records ("Binary Format > Modules > Import Section").
ghost use Rattle.std.specs.Prelude.{◌≡◌, ◌^◌, Ok, IfOk, IfErr, map};
ghost use Rattle.std.specs.List.{AllZip};
ghost use Rattle.wasm_entries.specs.Record.{import_entry};
ghost use Rattle.wasm_entries.specs.Spelling.{ImportFits, import_bytes};
ghost use Rattle.wasm_entries.specs.TypeSpelling.{IsBelow};
ghost use Rattle.walrus_base.specs.Arena.{entries};
ghost use Rattle.walrus_base.specs.Id.{place};
ghost use Rattle.walrus_base.specs.Operators.{Functions, Globals, Memories, Tables, Tags, Types};
ghost use Rattle.walrus_base.specs.declared.locals.ModuleLocals.{ModuleLocals};
ghost use Rattle.walrus_code.specs.Indices.{index_of};
ghost use Rattle.walrus_code.specs.Names.{Lookup};
ghost use Rattle.walrus_contents.specs.There.{ImportsAreLive};
ghost use Rattle.walrus_contents.specs.View.{global_of, import_of, memory_of, parts_view, table_of, tag_of};
ghost use Rattle.walrus_items.specs.Globals.{global_value};
ghost use Rattle.walrus_items.specs.Memories.{memory_value};
ghost use Rattle.walrus_items.specs.Tables.{table_value};
ghost use Rattle.walrus_items.specs.Tags.{tag_value};
ghost use Rattle.walrus_items.specs.Functions.{function_value};
ghost use Rattle.walrus_items.specs.Kinds.{imported};
ghost use Rattle.walrus_items.specs.Imports.{import_value, imports};
ghost use Rattle.walrus_model.specs.Live.{IsLive};
ghost use Rattle.walrus_writing.specs.Appended.{AppendsEntries, AppendsEntry};
ghost use Rattle.walrus_writing.specs.BySection.{AreImports};
ghost use Rattle.walrus_writing.specs.Imported.{Describes, ImportsIndexed, IndexesDesc, IndexesImport, IndexesItem, IsEntryAt, RefusesImports};
ghost use Rattle.walrus_contents.specs.View as seen;

use crate::memories::raw_memory;
use crate::tables::raw_table_type;
use std::alloc::Global;
use walrus_base::TypeId;
use walrus_code::{IdsToIndices, IrError, index_value};
use walrus_contents::Parts;
use walrus_items::{Error, Function, Import, ImportKind, Memory, Table, Tag};
use wasm_entries::{RawDesc, RawGlobalType, RawImport};
use wasm_forms::Written;

// The index of a type is a number of 32 bits.
fn index_of_type(id: TypeId, indices: &IdsToIndices) -> Option<u32>
    ensures same { result ≡ index_of indices.now Types (place id) }
    ensures stands { IsBelow (2 ^ 32) result }
{
    match indices.get_type_index(id) {
        Some(index) => Some(index),
        None => None,
    }
}

// A function: the index of its type.
fn function_desc(function: &Function, indices: &IdsToIndices) -> Result<RawDesc, IrError>
    ensures { (all : ModuleLocals) → IndexesDesc (index_of indices.now) Functions
        (seen.function all (function_value function.now)) result }
{
    let Some(index) = index_of_type(function.ty(), indices) else {
        return Err(IrError::NoIndex);
    };
    Ok(RawDesc::Function(index))
}

// A table: its limits, and the type of its elements.
fn table_desc(table: &Table, indices: &IdsToIndices) -> Result<RawDesc, IrError>
    ensures { IndexesDesc (index_of indices.now) Tables (table_of (table_value table.now)) result }
{
    let ty = raw_table_type(table, indices)?;
    Ok(RawDesc::Table(ty))
}

// A memory: its limits.
fn memory_desc(memory: &Memory) -> RawDesc
    ensures { (names : Lookup) → Describes names Memories (memory_of (memory_value memory.now)) result }
{
    RawDesc::Memory(raw_memory(memory))
}

// A global: its type.
fn global_desc(global: &walrus_items::Global, indices: &IdsToIndices) -> Result<RawDesc, IrError>
    ensures { IndexesDesc (index_of indices.now) Globals (global_of (global_value global.now)) result }
{
    let value = index_value(global.ty, indices)?;
    Ok(RawDesc::Global(RawGlobalType {
        value,
        mutable: global.mutable,
        shared: global.shared,
    }))
}

// A tag: the index of its type.
fn tag_desc(tag: &Tag, indices: &IdsToIndices) -> Result<RawDesc, IrError>
    ensures { IndexesDesc (index_of indices.now) Tags (tag_of (tag_value tag.now)) result }
{
    let Some(index) = index_of_type(tag.ty, indices) else {
        return Err(IrError::NoIndex);
    };
    Ok(RawDesc::Tag(index))
}

// The description of the item that an import names.
fn raw_desc(parts: Parts<'_>, kind: ImportKind, indices: &IdsToIndices) -> Result<RawDesc, IrError>
    requires live { IsLive (parts_view parts) (imported kind) }
    ensures { IndexesItem (index_of indices.now) (parts_view parts.entry) (imported kind) result }
{
    match kind {
        ImportKind::Function(id) => function_desc(parts.funcs.get(id), indices),
        ImportKind::Table(id) => table_desc(parts.tables.get(id), indices),
        ImportKind::Memory(id) => Ok(memory_desc(parts.memories.get(id))),
        ImportKind::Global(id) => global_desc(parts.globals.get(id), indices),
        ImportKind::Tag(id) => tag_desc(parts.tags.get(id), indices),
    }
}

/// The record of an import, which bytes can spell: its names, and the description of the item that it names.
///
/// # Errors
///
/// [`IrError::NoIndex`] where a type that this item names has no index, [`IrError::NotWritable`] where no bytes spell the item's type, and
/// [`IrError::Memory`].
pub fn raw_import<'a>(
    alloc: Global,
    parts: Parts<'_>,
    import: &'a Import,
    indices: &IdsToIndices,
) -> Result<RawImport<'a>, IrError>
    requires live { IsLive (parts_view parts) (imported (import_value import.now).kind) }
    ensures { IndexesImport (index_of indices.now) (parts_view parts.entry)
        (import_of (import_value import.now)) result }
{
    let desc = raw_desc(parts, import.kind, indices)?;
    let raw = RawImport::new(alloc, import.module.as_str(), import.name.as_str(), desc)?;
    Ok(raw)
}

/// The records of the imports, by rising id.
///
/// # Errors
///
/// `NotWritable` where no bytes spell the type of an imported item, and `Memory`.
pub fn raw_imports<'a>(
    alloc: Global,
    parts: Parts<'a>,
    indices: &IdsToIndices,
) -> Result<Vec<RawImport<'a>>, Error>
    requires live { ImportsAreLive (parts_view parts) }
    requires indexed { ImportsIndexed (index_of indices.now) (parts_view parts) }
    ensures value { IfOk result (λ raw.
        AllZip (IsEntryAt (index_of indices.now) (parts_view parts.entry))
        (map (λ e. e.0) (entries (imports parts.entry.imports.now)))
        (map import_entry raw.items)) }
    ensures fails { IfErr result (RefusesImports (parts_view parts.entry)) }
{
    let mut raw = Vec::with_capacity(alloc, parts.imports.next_id().index())?;
    for (_, import) in parts.imports.iter_entries() {
        let one = raw_import(alloc, parts, import, indices)?;
        raw.push(one)?;
    }
    Ok(raw)
}

// Appends the entry of an import: how many there are with it.
fn append_import(
    alloc: Global,
    parts: Parts<'_>,
    import: &Import,
    indices: &IdsToIndices,
    count: u32,
    to: &mut Vec<u8>,
) -> Result<u32, Error>
    requires live { IsLive (parts_view parts) (imported (import_value import.now).kind) }
    ensures { IfOk result (λ more. AppendsEntry import_entry import_bytes ImportFits
        (λ raw. IndexesImport (index_of indices.now) (parts_view parts.entry)
        (import_of (import_value import.now)) (Ok raw))
        count more to.old.items to.new.items) }
{
    let one = raw_import(alloc, parts, import, indices)?;
    one.write(to)?;
    match count.checked_add(1) {
        Some(more) => Ok(more),
        None => Err(Error::TooLarge),
    }
}

/// The same imports, appended to bytes one after another, with no record of all of them: how many they are.
///
/// # Errors
///
/// Those of [`raw_import`], and `TooLarge` where a name has 2^32 bytes or more, a limit that isn't wide is as large, or there are as many
/// imports. Refused, what was appended means nothing.
pub fn append_imports(
    alloc: Global,
    parts: Parts<'_>,
    indices: &IdsToIndices,
    to: &mut Vec<u8>,
) -> Result<u32, Error>
    requires live { ImportsAreLive (parts_view parts) }
    ensures { IfOk result (λ count. AppendsEntries import_entry import_bytes ImportFits
        (AreImports parts.entry (index_of indices.now)) count to.old.items to.new.items) }
{
    let mut count: u32 = 0;
    for (_, import) in parts.imports.iter_entries() {
        count = append_import(alloc, parts, import, indices, count, to)?;
    }
    Ok(count)
}
