//! What a module declares (Validation > Conventions > Contexts).

ghost use Rattle.std.specs.Prelude.{◌≡◌, [], ◌++◌, flat_map, map, Option};
ghost use Rattle.std.specs.List.{cons_option};
ghost use Rattle.wasm_entries.specs.declared.record.RawDesc.{RawDesc};
ghost use Rattle.wasm_entries.specs.Record.{sub, group, import_entry, table_entry, global_entry};
ghost use Rattle.wasm_frames.specs.Record.{sections};
ghost use Rattle.wasm_wire.specs.Context.{imported, desc_function, desc_table, desc_memory, desc_global, desc_tag, context_of, counts_of};
ghost use Rattle.wasm_wire.specs.Gathering.{Makes, context};

use super::counts::Counts;
use std::alloc::Global;
use wasm_entries::{
    RawDesc, RawGlobal, RawGlobalType, RawGroup, RawImport, RawLimits, RawSub, RawTable,
    RawTableType,
};
use wasm_forms::WireError;
use wasm_frames::Raw;

/// A kind of items that can be imported.
trait Kind<T> {
    ghost of: { RawDesc → Option T };

    /// What an import brings, if it is of this kind.
    fn of(&self, desc: RawDesc) -> Option<T>
        ensures { result ≡ of desc };
}

#[derive(Clone, Copy)]
struct Functions;

impl Kind<u32> for Functions {
    ghost of = { desc_function };

    fn of(&self, desc: RawDesc) -> Option<u32> {
        match desc {
            RawDesc::Function(ty) => Some(ty),
            RawDesc::Table(_) | RawDesc::Memory(_) | RawDesc::Global(_) | RawDesc::Tag(_) => None,
        }
    }
}

#[derive(Clone, Copy)]
struct Tables;

impl Kind<RawTableType> for Tables {
    ghost of = { desc_table };

    fn of(&self, desc: RawDesc) -> Option<RawTableType> {
        match desc {
            RawDesc::Table(table) => Some(table),
            RawDesc::Function(_) | RawDesc::Memory(_) | RawDesc::Global(_) | RawDesc::Tag(_) => {
                None
            }
        }
    }
}

#[derive(Clone, Copy)]
struct Memories;

impl Kind<RawLimits> for Memories {
    ghost of = { desc_memory };

    fn of(&self, desc: RawDesc) -> Option<RawLimits> {
        match desc {
            RawDesc::Memory(limits) => Some(limits),
            RawDesc::Function(_) | RawDesc::Table(_) | RawDesc::Global(_) | RawDesc::Tag(_) => None,
        }
    }
}

#[derive(Clone, Copy)]
struct Globals;

impl Kind<RawGlobalType> for Globals {
    ghost of = { desc_global };

    fn of(&self, desc: RawDesc) -> Option<RawGlobalType> {
        match desc {
            RawDesc::Global(global) => Some(global),
            RawDesc::Function(_) | RawDesc::Table(_) | RawDesc::Memory(_) | RawDesc::Tag(_) => None,
        }
    }
}

#[derive(Clone, Copy)]
struct Tags;

impl Kind<u32> for Tags {
    ghost of = { desc_tag };

    fn of(&self, desc: RawDesc) -> Option<u32> {
        match desc {
            RawDesc::Tag(ty) => Some(ty),
            RawDesc::Function(_) | RawDesc::Table(_) | RawDesc::Memory(_) | RawDesc::Global(_) =>
                None,
        }
    }
}

/// This behind those, if there is one.
fn append_if<T: Drop>(to: Vec<T>, item: Option<T>) -> Result<Vec<T>, WireError>
    ensures { Makes result (λ v. v.items ≡ to.items ++ cons_option item []) }
{
    let mut all = to;
    if let Some(one) = item {
        all.push(one)?;
    }
    Ok(all)
}

/// What is imported of one kind.
fn gather_imported<T: Drop, K: Kind<T>>(
    alloc: Global,
    kind: &K,
    imports: &[RawImport<'_>],
) -> Result<Vec<T>, WireError>
    ensures { Makes result (λ v. v.items ≡ imported K.of (map import_entry imports.now)) }
{
    let mut found = Vec::new(alloc);
    for import in imports {
        found = append_if(found, kind.of(import.desc()))?;
    }
    Ok(found)
}

/// Copies behind these.
fn append<T: Copy + Drop>(to: Vec<T>, own: &[T]) -> Result<Vec<T>, WireError>
    ensures { Makes result (λ v. v.items ≡ to.items ++ own.now) }
{
    let mut all = to;
    all.extend_from_slice(own)?;
    Ok(all)
}

/// The types of the module's tables behind those of imported ones.
fn append_tables(to: Vec<RawTableType>, own: &[RawTable]) -> Result<Vec<RawTableType>, WireError>
    ensures { Makes result (λ v. v.items ≡ to.items ++ map (λ t. t.ty) (map table_entry own.now)) }
{
    let mut all = to;
    for table in own {
        all.push(table.ty)?;
    }
    Ok(all)
}

/// The types of the module's globals behind those of imported ones.
fn append_globals(
    to: Vec<RawGlobalType>,
    own: &[RawGlobal],
) -> Result<Vec<RawGlobalType>, WireError>
    ensures { Makes result (λ v. v.items ≡ to.items ++ map (λ g. g.ty) (map global_entry own.now)) }
{
    let mut all = to;
    for global in own {
        all.push(global.ty)?;
    }
    Ok(all)
}

/// The types of a group behind others.
fn append_group<'a>(to: Vec<&'a RawSub>, own: &'a RawGroup) -> Result<Vec<&'a RawSub>, WireError>
    ensures { Makes result (λ v. map (λ s. sub s.now) v.items ≡ map (λ s. sub s.now) to.entry.items
        ++ group own.now) }
{
    let mut all = to;
    for member in own {
        all.push(member)?;
    }
    Ok(all)
}

/// The types of all groups.
fn gather_types<'a>(alloc: Global, groups: &'a [RawGroup]) -> Result<Vec<&'a RawSub>, WireError>
    ensures { Makes result (λ v. map (λ s. sub s.now) v.items ≡ flat_map (λ g. g) (map group groups.now)) }
{
    let mut found = Vec::new(alloc);
    for held in groups {
        found = append_group(found, held)?;
    }
    Ok(found)
}

/// What a module declares, imported items first: its types, and the types of its items.
#[derive(Drop)]
pub struct Declared<'a> {
    pub types: Vec<&'a RawSub>,
    pub functions: Vec<u32>,
    pub tables: Vec<RawTableType>,
    pub memories: Vec<RawLimits>,
    pub globals: Vec<RawGlobalType>,
    pub tags: Vec<u32>,
    pub imported_globals: usize,
}

/// Gathers what a module declares.
pub fn gather<'a>(alloc: Global, raw: &'a Raw<'_>) -> Result<Declared<'a>, WireError>
    ensures { Makes result (λ d. context d ≡ context_of (sections raw.now)) }
{
    let types = gather_types(alloc, &raw.types)?;
    let functions = append(
        gather_imported(alloc, &Functions, &raw.imports)?,
        &raw.functions,
    )?;
    let tables = append_tables(gather_imported(alloc, &Tables, &raw.imports)?, &raw.tables)?;
    let memories = append(
        gather_imported(alloc, &Memories, &raw.imports)?,
        &raw.memories,
    )?;
    let globals = gather_imported(alloc, &Globals, &raw.imports)?;
    let imported_globals = globals.len();
    let globals = append_globals(globals, &raw.globals)?;
    let tags = append(gather_imported(alloc, &Tags, &raw.imports)?, &raw.tags)?;
    Ok(Declared {
        types,
        functions,
        tables,
        memories,
        globals,
        tags,
        imported_globals,
    })
}

/// How many items of each kind are declared.
pub fn counts_of(declared: &Declared<'_>) -> Counts
    ensures { result ≡ counts_of (context declared.now) }
{
    Counts {
        types: declared.types.len(),
        functions: declared.functions.len(),
        tables: declared.tables.len(),
        memories: declared.memories.len(),
        globals: declared.globals.len(),
        tags: declared.tags.len(),
        imported_globals: declared.imported_globals,
    }
}
