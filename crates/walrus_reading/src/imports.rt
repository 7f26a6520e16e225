//! The imports of a module, and the items that they bring. Each import, and what it brings, gets the next id of its kind, and the two name
//! each other.
ghost use Rattle.std.specs.Prelude.{◌≡◌, [], length, map, option_to_list, All, IfOk, OnOk, IsOkUnless};
ghost use Rattle.wasm_entries.specs.Record.{import_entry};
ghost use Rattle.wasm_entries.specs.declared.record.RawDesc.TheVariants as descs;
ghost use Rattle.walrus_base.specs.Id.{place};
ghost use Rattle.walrus_code.specs.Indices.{ids_at};
ghost use Rattle.walrus_items.specs.Functions.{functions};
ghost use Rattle.walrus_items.specs.Kinds.{imported};
ghost use Rattle.walrus_items.specs.Imports.{imports};
ghost use Rattle.walrus_items.specs.Globals.{globals};
ghost use Rattle.walrus_items.specs.Memories.{memories};
ghost use Rattle.walrus_items.specs.Tables.{tables};
ghost use Rattle.walrus_items.specs.Tags.{tags};
ghost use Rattle.walrus_model.specs.Sections.{imported_function, imported_global, imported_memory, imported_table, imported_tag};
ghost use Rattle.walrus_contents.specs.View.{HoldsNoOthers};
ghost use Rattle.walrus_items.specs.Errors.{out_of_memory};
ghost use Rattle.walrus_reading.specs.Held.{HoldsGlobal, HoldsImportedFunction, HoldsMemory, HoldsTable, HoldsTag, none_kept};
ghost use Rattle.walrus_reading.specs.Imported.{AddsImport, Brings, HoldsImports, SameOthers, next_item};
ghost use Rattle.walrus_reading.specs.Placed.{AddsPlaced};
ghost use Rattle.walrus_reading.specs.Stays.{DescStays, RefStays, TypeStays, ValStays};

use crate::globals::read_value;
use crate::tables::read_reference;
use walrus_base::{FunctionId, GlobalId, ImportId, MemoryId, TableId, TagId};
use walrus_code::IndicesToIds;
use walrus_contents::Contents;
use walrus_items::{
    ImportKind, ModuleFunctions, ModuleGlobals, ModuleMemories, ModuleTables, ModuleTags, Result,
};
use wasm_entries::{RawDesc, RawGlobalType, RawImport, RawLimits, RawTableType};

// A function of the type of this index, which the import brings.
fn import_function(
    ty: u32,
    import: ImportId,
    indices: &IndicesToIds,
    all: &mut ModuleFunctions,
) -> Result<FunctionId>
    requires stays { TypeStays (ids_at indices.now) ty }
    ensures id { IfOk result (λ id. place id ≡ length (functions all.old)) }
    ensures added { OnOk result (AddsPlaced HoldsImportedFunction
        (option_to_list (imported_function (place «import») (descs.Function ty)))
        (functions all.old) (functions all.new)) }
    ensures fails { IsOkUnless result out_of_memory }
{
    let Some(id) = indices.get_type(ty) else {
        unreachable!();
    };
    all.add_import(id, import)
}

// A table of this type, which the import brings.
fn import_table(
    ty: RawTableType,
    import: ImportId,
    indices: &IndicesToIds,
    all: &mut ModuleTables,
) -> Result<TableId>
    requires stays { RefStays (ids_at indices.now) ty.element }
    ensures id { IfOk result (λ id. place id ≡ length (tables all.old)) }
    ensures added { OnOk result (AddsPlaced (HoldsTable none_kept)
        (option_to_list (imported_table (place «import») (descs.Table ty)))
        (tables all.old) (tables all.new)) }
    ensures fails { IsOkUnless result out_of_memory }
{
    let limits = ty.limits;
    let element = read_reference(ty.element, indices);
    all.add_import(limits.wide, limits.minimum, limits.maximum, element, import)
}

// A memory of this type, which the import brings.
fn import_memory(limits: RawLimits, import: ImportId, all: &mut ModuleMemories) -> Result<MemoryId>
    ensures id { IfOk result (λ id. place id ≡ length (memories all.old)) }
    ensures added { OnOk result (AddsPlaced (HoldsMemory none_kept)
        (option_to_list (imported_memory (place «import») (descs.Memory limits)))
        (memories all.old) (memories all.new)) }
    ensures fails { IsOkUnless result out_of_memory }
{
    all.add_import(
        limits.shared,
        limits.wide,
        limits.minimum,
        limits.maximum,
        limits.page,
        import,
    )
}

// A global of this type, which the import brings.
fn import_global(
    ty: RawGlobalType,
    import: ImportId,
    indices: &IndicesToIds,
    all: &mut ModuleGlobals,
) -> Result<GlobalId>
    requires stays { ValStays (ids_at indices.now) ty.value }
    ensures id { IfOk result (λ id. place id ≡ length (globals all.old)) }
    ensures added { OnOk result (AddsPlaced HoldsGlobal
        (option_to_list (imported_global (place «import») (descs.Global ty)))
        (globals all.old) (globals all.new)) }
    ensures fails { IsOkUnless result out_of_memory }
{
    let value = read_value(ty.value, indices);
    all.add_import(value, ty.mutable, ty.shared, import)
}

// A tag of the type of this index, which the import brings.
fn import_tag(
    ty: u32,
    import: ImportId,
    indices: &IndicesToIds,
    all: &mut ModuleTags,
) -> Result<TagId>
    requires stays { TypeStays (ids_at indices.now) ty }
    ensures id { IfOk result (λ id. place id ≡ length (tags all.old)) }
    ensures added { OnOk result (AddsPlaced HoldsTag
        (option_to_list (imported_tag (place «import») (descs.Tag ty)))
        (tags all.old) (tags all.new)) }
    ensures fails { IsOkUnless result out_of_memory }
{
    let Some(id) = indices.get_type(ty) else {
        unreachable!();
    };
    all.add_import(id, import)
}

// Adds what this import brings.
fn import_item(
    desc: RawDesc,
    import: ImportId,
    indices: &IndicesToIds,
    contents: &mut Contents,
) -> Result<ImportKind>
    requires stays { DescStays (ids_at indices.now) desc }
    ensures item { IfOk result (λ kind. imported kind ≡ next_item contents.old desc) }
    ensures brings { OnOk result (Brings (place «import») desc contents.old contents.new) }
    ensures imports { OnOk result (imports contents.new.imports ≡ imports contents.old.imports) }
    ensures fails { IsOkUnless result out_of_memory }
{
    match desc {
        RawDesc::Function(ty) => {
            let id = import_function(ty, import, indices, &mut contents.funcs)?;
            Ok(ImportKind::Function(id))
        }
        RawDesc::Table(ty) => {
            let id = import_table(ty, import, indices, &mut contents.tables)?;
            Ok(ImportKind::Table(id))
        }
        RawDesc::Memory(limits) => {
            let id = import_memory(limits, import, &mut contents.memories)?;
            Ok(ImportKind::Memory(id))
        }
        RawDesc::Global(ty) => {
            let id = import_global(ty, import, indices, &mut contents.globals)?;
            Ok(ImportKind::Global(id))
        }
        RawDesc::Tag(ty) => {
            let id = import_tag(ty, import, indices, &mut contents.tags)?;
            Ok(ImportKind::Tag(id))
        }
    }
}

// The import of this entry, and what it brings.
fn add_import(raw: &RawImport<'_>, indices: &IndicesToIds, contents: &mut Contents) -> Result<()>
    requires stays { DescStays (ids_at indices.now) (import_entry raw.now).desc }
    ensures added { OnOk result (AddsImport (import_entry raw.now) contents.old contents.new) }
    ensures fails { IsOkUnless result out_of_memory }
{
    let import = contents.imports.next_id();
    let kind = import_item(raw.desc(), import, indices, contents)?;
    contents.imports.add(raw.from, raw.name, kind)?;
    Ok(())
}

/// Adds the imports of an import section, and what they bring (Binary Format > Modules > Import Section). They come before all other items
/// of their index spaces.
pub(crate) fn add_imports(
    raw: &[RawImport<'_>],
    indices: &IndicesToIds,
    contents: &mut Contents,
) -> Result<()>
    requires none { HoldsNoOthers contents.old }
    requires no_functions { functions contents.old.funcs ≡ [] }
    requires stay { All (λ x. DescStays (ids_at indices.now) x.desc) (map import_entry raw.now) }
    ensures held { OnOk result (HoldsImports (map import_entry raw.now) contents.new) }
    ensures others { OnOk result (SameOthers contents.old contents.new) }
    ensures fails { IsOkUnless result out_of_memory }
{
    contents.imports.reserve(raw.len())?;
    for entry in raw {
        add_import(entry, indices, contents)?;
    }
    Ok(())
}
