//! Imports that come with what they bring, and imports under other names.

ghost use Rattle.std.specs.Prelude.{◌≡◌, MatchResult, map};
ghost use Rattle.walrus_contents.specs.There.{IsRefusal};
ghost use Rattle.walrus_items.specs.Imports.{imports};
ghost use Rattle.walrus_module.specs.View.{contents_of};
ghost use Rattle.wasm_entries.specs.Record.{import_entry};
ghost use Rattle.wasm_entries.specs.declared.record.RawDesc.TheVariants as descs;
ghost use Rattle.walrus_edit_list.specs.Imports.{AddsImport, AddsImports, Brings, ImportsFunction, ImportsGlobal, RefusesDesc, RefusesImport, RefusesImports};
ghost use Rattle.walrus_edit_list.specs.Places.{ChangesAt, IsGone};

use crate::ids::ids_of;
use std::alloc::Global;
use walrus_base::ImportId;
use walrus_code::name_value;
use walrus_items::{Error, ErrorKind, ModuleImports, Result};
use walrus_module::Module;
use wasm_entries::{RawDesc, RawGlobalType, RawImport};

// Adds a function of the type of this number, and its import.
fn import_function<S>(
    alloc: Global,
    ty: u32,
    from: &str,
    name: &str,
    module: &mut Module<S>,
) -> Result<()>
    ensures { MatchResult result
        (λ _. ImportsFunction ty from.now name.now (contents_of «module».old) (contents_of «module».new))
        (RefusesDesc (descs.Function ty) (contents_of «module».old)) }
{
    let ids = ids_of(alloc, module)?;
    let Some(id) = ids.get_type(ty) else {
        return Err(Error::DeadItem);
    };
    module.add_import_func(from, name, id)?;
    Ok(())
}

// Adds a global of this type, and its import.
fn import_global<S>(
    alloc: Global,
    ty: RawGlobalType,
    from: &str,
    name: &str,
    module: &mut Module<S>,
) -> Result<()>
    ensures { MatchResult result
        (λ _. ImportsGlobal ty from.now name.now (contents_of «module».old) (contents_of «module».new))
        (RefusesDesc (descs.Global ty) (contents_of «module».old)) }
{
    let ids = ids_of(alloc, module)?;
    let Some(value) = name_value(ty.value, &ids) else {
        return Err(Error::DeadItem);
    };
    module.add_import_global(from, name, value, ty.mutable, ty.shared)?;
    Ok(())
}

// Adds an import of these names, and what it brings.
fn bring<S>(
    alloc: Global,
    desc: RawDesc,
    from: &str,
    name: &str,
    module: &mut Module<S>,
) -> Result<()>
    ensures { MatchResult result
        (λ _. Brings desc from.now name.now (contents_of «module».old) (contents_of «module».new))
        (RefusesDesc desc (contents_of «module».old)) }
{
    match desc {
        RawDesc::Function(ty) => import_function(alloc, ty, from, name, module),
        RawDesc::Global(ty) => import_global(alloc, ty, from, name, module),
        RawDesc::Table(_) | RawDesc::Memory(_) | RawDesc::Tag(_) => {
            Err(Error::InvalidWasm(ErrorKind::InvalidWasm))
        }
    }
}

// Adds an import and what it brings.
fn add_import<S>(alloc: Global, raw: &RawImport<'_>, module: &mut Module<S>) -> Result<()>
    ensures { MatchResult result
        (λ _. AddsImport (import_entry raw.now) (contents_of «module».old) (contents_of «module».new))
        (RefusesImport (import_entry raw.now) (contents_of «module».old)) }
{
    bring(alloc, raw.desc(), raw.from, raw.name, module)
}

/// Adds these imports of functions and globals, and what they bring, each behind the others (Binary Format > Modules > Import Section).
///
/// # Errors
///
/// `InvalidWasm` only where one is of a table, a memory or a tag, `DeadItem` only where the type that one names isn't there, `TooLarge`
/// only where more than 2^32 ids of a space were given, and `Memory`.
pub(crate) fn add_imports<S>(
    alloc: Global,
    raw: &[RawImport<'_>],
    module: &mut Module<S>,
) -> Result<()>
    ensures { MatchResult result
        (λ _. AddsImports (map import_entry raw.now) (contents_of «module».old) (contents_of «module».new))
        (RefusesImports (map import_entry raw.now) (contents_of «module».old)) }
{
    'imports: for import in raw {
        add_import(alloc, import, module)?;
    }
    Ok(())
}

/// Gives the import of this id other names.
///
/// # Errors
///
/// `DeadItem` exactly where it isn't there, and `Memory`.
pub(crate) fn set_import(
    alloc: Global,
    number: u32,
    from: &str,
    name: &str,
    all: &mut ModuleImports,
) -> Result<()>
    ensures { MatchResult result
        (λ _. ChangesAt number (λ was. record was { module_name = from.now; name = name.now })
        (imports all.old) (imports all.new))
        (IsRefusal (IsGone (imports all.old) number)) }
{
    let id = ImportId::at(number as usize);
    if !all.contains(id) {
        return Err(Error::DeadItem);
    }
    let from = String::from_str(alloc, from)?;
    let name = String::from_str(alloc, name)?;
    let import = all.get_mut(id);
    import.module = from;
    import.name = name;
    Ok(())
}
