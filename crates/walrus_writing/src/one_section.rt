//! The sections of a module, each written from records of its own, which are let go behind it. A refusal says nothing.
ghost use Rattle.std.specs.Prelude.{◌≡◌, ⊤, All, IsSome, IfSome, List, OnOk, map};
ghost use Rattle.wasm_entries.specs.Record.{data_entry, element_entry, export_entry, global_entry, import_entry, table_entry};
ghost use Rattle.wasm_frames.specs.Frames as frames;
ghost use Rattle.wasm_frames.specs.Record.{custom_record};
ghost use Rattle.wasm_wire.specs.ModuleSpelling.{if_any, if_given, group_of};
ghost use Rattle.wasm_writer.specs.Spelling.{SectionFits};
ghost use Rattle.wasm_writer.specs.Writing.{written};
ghost use Rattle.walrus_base.specs.Arena.{items};
ghost use Rattle.walrus_base.specs.ModuleTypes.{type_slots};
ghost use Rattle.walrus_code.specs.Indices.{index_of};
ghost use Rattle.walrus_constants.specs.Named.{named_global, named_table};
ghost use Rattle.walrus_constants.specs.Segments.{named_data, named_element};
ghost use Rattle.walrus_contents.specs.There.{ImportsAreLive};
ghost use Rattle.walrus_contents.specs.View.{data_of, element_of, export_of, global_of, parts_view, table_of, tables_of, tag_of};
ghost use Rattle.walrus_groups.specs.Indexed.{AreIndexed, LacksAnIndex, NumbersTypes};
ghost use Rattle.walrus_items.specs.Data.{data_segments};
ghost use Rattle.walrus_items.specs.Elements.{elements};
ghost use Rattle.walrus_items.specs.Exports.{exports};
ghost use Rattle.walrus_items.specs.Globals.{globals};
ghost use Rattle.walrus_items.specs.Memories.{memories};
ghost use Rattle.walrus_items.specs.Tables.{tables};
ghost use Rattle.walrus_items.specs.Tags.{tags};
ghost use Rattle.walrus_plan.specs.Brought.{own_of};
ghost use Rattle.walrus_writing.specs.Appended.{ListsEntries};
ghost use Rattle.walrus_writing.specs.BySection.{AreElements, AreExports, AreGlobals, AreImports, AreMemories, AreSegments, AreTables, AreTags, Stand, Writes};
ghost use Rattle.walrus_writing.specs.Imported.{ImportsIndexed};
ghost use Rattle.walrus_writing.specs.Parts.{export_with_index, tag_index, unplaced};

use crate::elements::raw_elements;
use crate::exports::append_exports;
use crate::globals::append_globals;
use crate::imports::append_imports;
use crate::memories::raw_memories;
use crate::tables::raw_tables;
use crate::tags::raw_tags;
use std::alloc::Global;
use walrus_base::ModuleTypes;
use walrus_code::IdsToIndices;
use walrus_contents::Parts;
use walrus_groups::append_types;
use walrus_items::{
    ModuleElements, ModuleExports, ModuleGlobals, ModuleMemories, ModuleTables, ModuleTags, Result,
};
use wasm_frames::RawCustom;
use wasm_wire::CustomGroup;
use wasm_writer::{Section, Writer, measure};

// The section of this id that lists so many entries, whose bytes these are, or nothing where there are none.
fn write_listed(to: &mut Writer, id: u8, count: u32, row: &[u8]) -> Result<()>
    ensures { OnOk result (ListsEntries id count row.now (written to.old) (written to.new)) }
{
    if count == 0 {
        return Ok(());
    }
    to.rows_section(id, count, row)?;
    Ok(())
}

/// The type section. Its groups are appended one by one, with no record of all of them.
pub fn write_types(
    alloc: Global,
    to: &mut Writer,
    types: &ModuleTypes,
    indices: &IdsToIndices,
) -> Result<()>
    requires numbered { NumbersTypes (index_of indices.now) (type_slots types.now) }
    requires indexed { LacksAnIndex (index_of indices.now) (items (type_slots types.now)) → ⊥ }
    ensures { OnOk result (Writes frames.Types (λ groups. groups)
        (AreIndexed (index_of indices.now) (items (type_slots types.now)))
        (written to.old) (written to.new)) }
{
    let mut row = Vec::new(alloc);
    let count = append_types(alloc, types, indices, &mut row)?;
    write_listed(to, 1, count, row.as_slice())?;
    Ok(())
}

/// The import section. Its entries are appended one by one, with no record of all of them.
pub fn write_imports(
    alloc: Global,
    to: &mut Writer,
    parts: Parts<'_>,
    indices: &IdsToIndices,
) -> Result<()>
    requires live { ImportsAreLive (parts_view parts) }
    requires indexed { ImportsIndexed (index_of indices.now) (parts_view parts) }
    ensures { OnOk result (Writes frames.Imports (map import_entry)
        (AreImports parts.entry (index_of indices.now)) (written to.old) (written to.new)) }
{
    let mut row = Vec::with_capacity(alloc, parts.imports.len().saturating_mul(16))?;
    let count = append_imports(alloc, parts, indices, &mut row)?;
    write_listed(to, 2, count, row.as_slice())?;
    Ok(())
}

/// The table section.
pub fn write_tables(
    alloc: Global,
    to: &mut Writer,
    all: &ModuleTables,
    indices: &IdsToIndices,
) -> Result<()>
    requires indexed { All (λ o. IsSome o)
        (map (λ t. named_table (index_of indices.now) (table_of t))
        (own_of (λ x. x.imported_by) (items (tables all.now)))) }
    ensures { OnOk result (Writes frames.Tables (map table_entry)
        (AreTables (index_of indices.now) (items (tables all.now))) (written to.old) (written to.new)) }
{
    let raw = raw_tables(alloc, all, indices)?;
    to.table_section(raw.as_slice())?;
    Ok(())
}

/// The memory section.
pub fn write_memories(alloc: Global, to: &mut Writer, all: &ModuleMemories) -> Result<()>
    ensures { OnOk result (Writes frames.Memories (λ limits. limits)
        (AreMemories (items (memories all.now))) (written to.old) (written to.new)) }
{
    let raw = raw_memories(alloc, all)?;
    to.memory_section(raw.as_slice())?;
    Ok(())
}

/// The tag section.
pub fn write_tags(
    alloc: Global,
    to: &mut Writer,
    all: &ModuleTags,
    indices: &IdsToIndices,
) -> Result<()>
    requires indexed { All (λ o. IsSome o) (map (λ t. tag_index (index_of indices.now) (tag_of t))
        (own_of (λ x. x.imported_by) (items (tags all.now)))) }
    ensures { OnOk result (Writes frames.Tags (λ types. types)
        (AreTags (index_of indices.now) (items (tags all.now))) (written to.old) (written to.new)) }
{
    let raw = raw_tags(alloc, all, indices)?;
    to.tag_section(raw.as_slice())?;
    Ok(())
}

/// The global section. Its entries are appended one by one, with no record of all of them.
pub fn write_globals(
    alloc: Global,
    to: &mut Writer,
    all: &ModuleGlobals,
    indices: &IdsToIndices,
) -> Result<()>
    requires indexed { All (λ o. IsSome o)
        (map (λ g. named_global (index_of indices.now) (global_of g))
        (own_of (λ x. x.imported_by) (items (globals all.now)))) }
    ensures { OnOk result (Writes frames.Globals (map global_entry)
        (AreGlobals (index_of indices.now) (items (globals all.now))) (written to.old) (written to.new)) }
{
    let mut row = Vec::with_capacity(alloc, all.len().saturating_mul(8))?;
    let count = append_globals(alloc, all, indices, &mut row)?;
    write_listed(to, 6, count, row.as_slice())?;
    Ok(())
}

/// The export section. Its entries are appended one by one, with no record of all of them.
pub fn write_exports(
    alloc: Global,
    to: &mut Writer,
    all: &ModuleExports,
    indices: &IdsToIndices,
) -> Result<()>
    requires indexed { All (λ e. IsSome e) (map (λ v. export_with_index (index_of indices.now) (export_of v))
        (items (exports all.now))) }
    ensures { OnOk result (Writes frames.Exports (map export_entry)
        (AreExports (index_of indices.now) (items (exports all.now))) (written to.old) (written to.new)) }
{
    let mut row = Vec::with_capacity(alloc, all.len().saturating_mul(16))?;
    let count = append_exports(all, indices, &mut row)?;
    write_listed(to, 7, count, row.as_slice())?;
    Ok(())
}

/// The start section, where there is one.
pub fn write_start(to: &mut Writer, start: Option<u32>) -> Result<()>
    ensures { OnOk result (Stand (written to.old) (written to.new) (if_given frames.Start start)
        × IfSome start (λ index. SectionFits (frames.Start index))) }
{
    let Some(index) = start else {
        return Ok(());
    };
    measure(&Section::Start(index))?;
    to.start_section(index)?;
    Ok(())
}

/// The element section.
pub fn write_elements(
    alloc: Global,
    to: &mut Writer,
    all: &ModuleElements,
    all_tables: &ModuleTables,
    indices: &IdsToIndices,
) -> Result<()>
    requires indexed { All (λ o. IsSome o) (map (λ e. named_element (index_of indices.now) (element_of e))
        (items (elements all.now))) }
    ensures { OnOk result (Writes frames.Elements (map element_entry)
        (AreElements (index_of indices.now) (tables_of all_tables.now) (items (elements all.now)))
        (written to.old) (written to.new)) }
{
    let raw = raw_elements(alloc, all, all_tables, indices)?;
    to.element_section(raw.as_slice())?;
    Ok(())
}

/// The data count section, where there is one.
pub fn write_count(to: &mut Writer, count: Option<u32>) -> Result<()>
    ensures { OnOk result (Stand (written to.old) (written to.new) (if_given frames.DataCount count)
        × IfSome count (λ number. SectionFits (frames.DataCount number))) }
{
    let Some(number) = count else {
        return Ok(());
    };
    measure(&Section::DataCount(number))?;
    to.data_count_section(number)?;
    Ok(())
}

// Tells that a custom section fits.
fn measure_custom(custom: &RawCustom<'_>) -> Result<()>
    ensures { OnOk result (SectionFits (frames.CustomSection (custom_record custom.now))) }
{
    measure(&Section::Custom {
        name: custom.name,
        len: custom.bytes.len(),
    })?;
    Ok(())
}

/// Tells that each custom section fits.
pub fn measure_customs(customs: &[RawCustom<'_>]) -> Result<()>
    ensures { OnOk result (All (λ section. SectionFits (frames.CustomSection section))
        (map custom_record customs.now)) }
{
    'sections: for section in customs {
        measure_custom(section)?;
    }
    Ok(())
}

/// The custom sections of a group, in the order in which they are.
pub fn write_customs(to: &mut Writer, group: CustomGroup, customs: &[RawCustom<'_>]) -> Result<()>
    ensures { OnOk result (Stand (written to.old) (written to.new)
        (map frames.CustomSection (group_of group (map custom_record customs.now)))) }
{
    'sections: for section in customs {
        if group.has(section.name) {
            to.custom(section)?;
        }
    }
    Ok(())
}
