//! The items of a module, as a list of records for callers of other languages.

ghost use Rattle.std.specs.Prelude.{◌≡◌, filter, flat_map, length, map, option_to_list, zip};
ghost use Rattle.wasm_entries.specs.Record.{data_entry, element_entry, export_entry, global_entry, group, import_entry, table_entry};
ghost use Rattle.walrus.specs.Frames.Record.{body_record, sections};
ghost use Rattle.walrus.specs.Contents.View.{lent};
ghost use Rattle.walrus.specs.Modules.View.{contents_of};
ghost use Rattle.walrus.specs.Wanted.{config_wanted};
ghost use Rattle.walrus_edits.specs.ItemRecords.{AGlobal, AGroup, ASegment, ATable, AnElement, AnExport, TheStart};
ghost use Rattle.walrus_edits.specs.ItemValues.{brings_function, functions_in, section_parts, told_parts, with_brought};
ghost use Rattle.walrus_edits.specs.ItemSteps.{ListsItems, PutsAll, PutsParts};
ghost use Rattle.walrus_edits.specs.LocalNames.{local_told};
ghost use Rattle.walrus_edits.specs.Items.{AnswersItems};

use crate::local_names::{Functions, NameOfLocal, local_names};
use crate::name_records::tell_names;
use crate::producer_records::{tell_customs, tell_producers};
use crate::records::{tell, tell_all, write_told};
use crate::section_records::{Start, defined_functions};
use crate::type_records::type_groups;
use std::alloc::Global;
use std::result;
use walrus::below::Parts;
use walrus::{Module, ModuleConfig, Result, Wanted};
use wasm_entries::{
    RawData, RawDesc, RawElement, RawExport, RawGlobal, RawGroup, RawImport, RawTable,
};
use wasm_forms::WireError;
use wasm_frames::{Raw, RawBody, read_module};

/// Tells an import, and what it brings behind it.
fn tell_import(
    alloc: Global,
    to: &mut Vec<u8>,
    import: &RawImport<'_>,
) -> result::Result<(), WireError>
    ensures { PutsAll result to.old.items to.new.items (with_brought (import_entry «import».now)) }
{
    write_told(alloc, to, import)?;
    write_told(alloc, to, &import.desc())
}

/// Tells imports, and what each brings behind it.
fn tell_imports(
    alloc: Global,
    to: &mut Vec<u8>,
    imports: &[RawImport<'_>],
) -> result::Result<(), WireError>
    ensures { PutsAll result to.old.items to.new.items
        (flat_map with_brought (map import_entry imports.now)) }
{
    'imports: for import in imports {
        tell_import(alloc, to, import)?;
    }
    Ok(())
}

/// Tells the functions that the module defines.
fn tell_functions(
    alloc: Global,
    to: &mut Vec<u8>,
    bodies: &[RawBody<'_>],
    types: &[u32],
) -> result::Result<(), WireError>
    ensures { PutsAll result to.old.items to.new.items
        (functions_in (zip (map body_record bodies.now) types.now)) }
{
    let all = defined_functions(alloc, bodies, types)?;
    tell_all(alloc, to, &all)
}

/// Tells the start function, if there is one.
fn tell_start(alloc: Global, to: &mut Vec<u8>, start: Option<u32>) -> result::Result<(), WireError>
    ensures { PutsAll result to.old.items to.new.items (map TheStart (option_to_list start)) }
{
    match start {
        Some(function) => tell(alloc, to, &Start(function)),
        None => Ok(()),
    }
}

/// Tells the tables that the module defines.
fn tell_tables(alloc: Global, to: &mut Vec<u8>, all: &[RawTable]) -> result::Result<(), WireError>
    ensures { PutsAll result to.old.items to.new.items (map ATable (map table_entry all.now)) }
{
    tell_all(alloc, to, all)
}

/// Tells the globals that the module defines.
fn tell_globals(alloc: Global, to: &mut Vec<u8>, all: &[RawGlobal]) -> result::Result<(), WireError>
    ensures { PutsAll result to.old.items to.new.items (map AGlobal (map global_entry all.now)) }
{
    tell_all(alloc, to, all)
}

/// Tells the exports.
fn tell_exports(
    alloc: Global,
    to: &mut Vec<u8>,
    all: &[RawExport<'_>],
) -> result::Result<(), WireError>
    ensures { PutsAll result to.old.items to.new.items (map AnExport (map export_entry all.now)) }
{
    tell_all(alloc, to, all)
}

/// Tells the segments of elements that the module defines.
fn tell_elements(
    alloc: Global,
    to: &mut Vec<u8>,
    all: &[RawElement],
) -> result::Result<(), WireError>
    ensures { PutsAll result to.old.items to.new.items (map AnElement (map element_entry all.now)) }
{
    tell_all(alloc, to, all)
}

/// Tells the segments of data that the module defines.
fn tell_data(alloc: Global, to: &mut Vec<u8>, all: &[RawData<'_>]) -> result::Result<(), WireError>
    ensures { PutsAll result to.old.items to.new.items (map ASegment (map data_entry all.now)) }
{
    tell_all(alloc, to, all)
}

/// Tells groups of types.
fn tell_groups(alloc: Global, to: &mut Vec<u8>, all: &[RawGroup]) -> result::Result<(), WireError>
    ensures { PutsAll result to.old.items to.new.items (map AGroup (map group all.now)) }
{
    tell_all(alloc, to, all)
}

/// Tells what sections hold but types and custom sections, part by part.
fn tell_parts(alloc: Global, to: &mut Vec<u8>, raw: &Raw<'_>) -> result::Result<(), WireError>
    ensures { PutsParts result to.old.items to.new.items (section_parts (sections raw.now)) }
{
    tell_imports(alloc, to, &raw.imports)?;
    tell_functions(alloc, to, &raw.bodies, &raw.functions)?;
    tell_tables(alloc, to, &raw.tables)?;
    tell_all(alloc, to, &raw.memories)?;
    tell_all(alloc, to, &raw.tags)?;
    tell_globals(alloc, to, &raw.globals)?;
    tell_exports(alloc, to, &raw.exports)?;
    tell_start(alloc, to, raw.start)?;
    tell_elements(alloc, to, &raw.elements)?;
    tell_data(alloc, to, &raw.data_)?;
    Ok(())
}

/// Whether an import brings a function.
fn brings_function(import: &RawImport<'_>) -> bool
    ensures { result ≡ brings_function (import_entry «import».now) }
{
    matches!(import.desc(), RawDesc::Function(_))
}

/// How many functions these imports bring.
fn count_imported(imports: &[RawImport<'_>]) -> usize
    ensures { result ≡ length (filter (λ i. brings_function (import_entry i)) imports.now) }
{
    imports
        .iter()
        .filter(|import| brings_function(import))
        .count()
}

/// How many functions there are.
fn functions_of(raw: &Raw<'_>) -> Functions
    ensures imported { result.imported ≡ length (filter (λ i. brings_function (import_entry i))
        raw.now.imports.items) }
    ensures defined { result.defined ≡ length (sections raw.now).functions }
{
    Functions {
        imported: count_imported(&raw.imports),
        defined: raw.functions.len(),
    }
}

/// Tells a module's types, what its sections hold, custom sections, producers, names, and these names of locals.
fn tell_module(
    alloc: Global,
    to: &mut Vec<u8>,
    groups: &[RawGroup],
    raw: &Raw<'_>,
    parts: Parts<'_>,
    locals: &[NameOfLocal],
) -> result::Result<(), WireError>
    ensures { PutsParts result to.old.items to.new.items (told_parts (sections raw.now)
        (map group groups.now) (lent parts.entry) (map local_told locals.now)) }
{
    tell_groups(alloc, to, groups)?;
    tell_parts(alloc, to, raw)?;
    tell_customs(alloc, to, &raw.customs)?;
    tell_producers(alloc, to, parts.producers.fields())?;
    tell_names(alloc, to, parts)?;
    tell_all(alloc, to, locals)?;
    Ok(())
}

/// The list of a module whose sections hold this, whose types are these groups, and which holds these parts.
fn listed(
    alloc: Global,
    raw: &Raw<'_>,
    groups: &[RawGroup],
    parts: Parts<'_>,
) -> result::Result<Vec<u8>, WireError>
    ensures { ListsItems (sections raw.now) (map group groups.now) (lent parts.entry) result }
{
    let locals = local_names(alloc, &raw.customs, functions_of(raw))?;
    let mut list = Vec::new(alloc);
    tell_module(alloc, &mut list, groups, raw, parts, &locals)?;
    Ok(list)
}

/// What a module holds but its custom sections, lent.
fn parts_of<S>(module: &Module<S>) -> Parts<'_>
    ensures { lent result ≡ contents_of «module».now }
{
    Parts {
        types: &module.types,
        locals: &module.locals,
        imports: &module.imports,
        funcs: &module.funcs,
        tables: &module.tables,
        memories: &module.memories,
        tags: &module.tags,
        globals: &module.globals,
        elements: &module.elements,
        data_: &module.data_,
        exports: &module.exports,
        start: module.start,
        producers: &module.producers,
        name: &module.name,
    }
}

/// The items of a module, as a list of records: a byte, a size and so many bytes each. docs/FORMATS.md has their forms.
///
/// # Errors
///
/// `InvalidWasm` exactly where the bytes are no module that keeps the rules, `TooLarge` only where a count, a size or a limit in a record passes
/// 32 bits, and `Memory`.
pub fn items(alloc: Global, bytes: &[u8], wanted: Wanted) -> Result<Vec<u8>>
    ensures { AnswersItems (config_wanted wanted) bytes.now result }
{
    let config = ModuleConfig::of_choices(wanted.names, wanted.producers, wanted.legacy);
    let module = config.parse(alloc, bytes)?;
    let raw = read_module(alloc, bytes)?;
    let groups = type_groups(alloc, &module.types)?;
    let list = listed(alloc, &raw, &groups, parts_of(&module))?;
    Ok(list)
}
