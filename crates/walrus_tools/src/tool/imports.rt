//! What a developer asks of a module's interface: what it still needs where what nothing reaches goes.

ghost use Rattle.std.specs.Prelude.{◌≡◌, IfOk, map};
ghost use Rattle.walrus.specs.Base.Arena.{items};
ghost use Rattle.walrus.specs.Code.Code.{item_of};
ghost use Rattle.walrus.specs.Items.Imports.{import_value, imports};
ghost use Rattle.walrus.specs.Items.Kinds.{imported};
ghost use Rattle.walrus_sections.specs.Choice.{choices_seen};
ghost use Rattle.walrus_tools.specs.ImportList.{AnswersImportList, AnswersImports, ImportedItem, IsLongImport, import_told, imported_bytes, imported_seen};
ghost use Rattle.walrus.specs.Wanted.{config_wanted};

use crate::keep::keep_chosen;
use crate::spelled::{Told, add_item, spelled};
use std::alloc::{AllocError, Global};
use std::result;
use walrus::passes::gc;
use walrus::{Import, ImportKind, ItemId, ModuleConfig, ModuleImports, Result, Wanted};
use walrus_sections::{Choice, add_text};

/// An import.
#[derive(Drop)]
pub struct Imported {
    /// What is imported, by its index in the bytes that were read.
    pub item: ItemId,
    /// The name of the module that it comes from.
    pub module: String,
    /// The name that it has there.
    pub name: String,
}

// What is imported.
fn item_imported(kind: ImportKind) -> ItemId
    ensures { item_of result ≡ imported kind }
{
    match kind {
        ImportKind::Function(id) => ItemId::Function(id),
        ImportKind::Table(id) => ItemId::Table(id),
        ImportKind::Memory(id) => ItemId::Memory(id),
        ImportKind::Global(id) => ItemId::Global(id),
        ImportKind::Tag(id) => ItemId::Tag(id),
    }
}

// What is told of an import.
fn imported_of(alloc: Global, import: &Import) -> result::Result<Imported, AllocError>
    ensures { IfOk result (λ i. imported_seen i ≡ import_told (import_value «import».now)) }
{
    let module = String::from_str(alloc, import.module.as_str())?;
    let name = String::from_str(alloc, import.name.as_str())?;
    Ok(Imported {
        item: item_imported(import.kind),
        module,
        name,
    })
}

// What is told of all imports, by rising id.
fn all_imported(alloc: Global, all: &ModuleImports) -> result::Result<Vec<Imported>, AllocError>
    ensures { IfOk result (λ list. map imported_seen list.items
        ≡ map import_told (items (imports all.now))) }
{
    let mut list = Vec::new(alloc);
    'imports: for import in all.iter() {
        let told = imported_of(alloc, import)?;
        list.push(told)?;
    }
    Ok(list)
}

/// The imports of the module that stay where of the exports those are left that are chosen, and what nothing reaches goes, by rising id.
/// Exports are chosen as for [`gc_chosen`](crate::gc_chosen).
///
/// # Errors
///
/// `InvalidWasm` only where the bytes are no module that keeps the rules, `NotFound` only where a choice fits no export, and `Memory`.
pub fn imports(
    alloc: Global,
    bytes: &[u8],
    wanted: Wanted,
    choices: &[Choice<'_>],
) -> Result<Vec<Imported>>
    ensures { AnswersImports (config_wanted wanted) bytes.now (choices_seen choices.now) result }
{
    let config = ModuleConfig::of_choices(wanted.names, wanted.producers, wanted.legacy);
    let mut module = config.parse(alloc, bytes)?;
    keep_chosen(alloc, &mut module, choices)?;
    gc::run(alloc, &mut module)?;
    Ok(all_imported(alloc, &module.imports)?)
}

// ---- the list as bytes

impl Told for Imported {
    ghost Seen = { ImportedItem };

    ghost seen = { imported_seen };

    ghost spell = { imported_bytes };

    ghost IsLong = { IsLongImport };

    fn add_to(&self, to: &mut Vec<u8>) -> Result<()> {
        add_item(to, self.item)?;
        add_text(to, self.module.as_str())?;
        add_text(to, self.name.as_str())
    }
}

/// What [`imports`] tells, as bytes for callers of other languages: of each import a byte that says what it is (0 a function, 1 a table, 2 a
/// memory, 3 a global, 4 a tag) and its index, a number of 32 bits, the lowest byte first; then the name of the module and its own, each
/// behind its length, such a number.
///
/// # Errors
///
/// Those of [`imports`], and `TooLarge` where what is listed has an index or a name past 32 bits.
pub fn import_list(
    alloc: Global,
    bytes: &[u8],
    wanted: Wanted,
    choices: &[Choice<'_>],
) -> Result<Vec<u8>>
    ensures { AnswersImportList (config_wanted wanted) bytes.now (choices_seen choices.now) result }
{
    let told = imports(alloc, bytes, wanted, choices)?;
    spelled(alloc, &told)
}
