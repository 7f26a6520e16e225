//! What a developer asks of a module's interface: what it hands out, of which only what is chosen is left.

ghost use Rattle.std.specs.Prelude.{◌≡◌, IfOk, map};
ghost use Rattle.walrus.specs.Base.Arena.{items};
ghost use Rattle.walrus.specs.Items.Exports.{export_value, exports};
ghost use Rattle.walrus_sections.specs.Choice.{choices_seen};
ghost use Rattle.walrus_tools.specs.ExportList.{AnswersExportList, AnswersExports, ExportedItem, IsLongExport, export_told, exported_bytes, exported_seen};
ghost use Rattle.walrus.specs.Wanted.{config_wanted};

use crate::keep::keep_chosen;
use crate::spelled::{Told, add_item, spelled};
use std::alloc::{AllocError, Global};
use std::result;
use walrus::{Export, ItemId, ModuleConfig, ModuleExports, Result, Wanted};
use walrus_sections::{Choice, add_text};

/// An export.
#[derive(Drop)]
pub struct Exported {
    /// What is exported, by its index in the bytes that were read.
    pub item: ItemId,
    /// The name under which it is.
    pub name: String,
}

// What is told of an export.
fn exported_of(alloc: Global, export: &Export) -> result::Result<Exported, AllocError>
    ensures { IfOk result (λ e. exported_seen e ≡ export_told (export_value export.now)) }
{
    let name = String::from_str(alloc, export.name.as_str())?;
    Ok(Exported {
        item: export.item.item_id(),
        name,
    })
}

// What is told of all exports, by rising id.
fn all_exported(alloc: Global, all: &ModuleExports) -> result::Result<Vec<Exported>, AllocError>
    ensures { IfOk result (λ list. map exported_seen list.items
        ≡ map export_told (items (exports all.now))) }
{
    let mut list = Vec::new(alloc);
    'exports: for export in all.iter() {
        let told = exported_of(alloc, export)?;
        list.push(told)?;
    }
    Ok(list)
}

/// The exports of the module that are left where those stay that are chosen, by rising id. They are chosen as for
/// [`gc_chosen`](crate::gc_chosen).
///
/// # Errors
///
/// `InvalidWasm` only where the bytes are no module that keeps the rules, `NotFound` only where a choice fits no export, and `Memory`.
pub fn exports(
    alloc: Global,
    bytes: &[u8],
    wanted: Wanted,
    choices: &[Choice<'_>],
) -> Result<Vec<Exported>>
    ensures { AnswersExports (config_wanted wanted) bytes.now (choices_seen choices.now) result }
{
    let config = ModuleConfig::of_choices(wanted.names, wanted.producers, wanted.legacy);
    let mut module = config.parse(alloc, bytes)?;
    keep_chosen(alloc, &mut module, choices)?;
    Ok(all_exported(alloc, &module.exports)?)
}

// ---- the list as bytes

impl Told for Exported {
    ghost Seen = { ExportedItem };

    ghost seen = { exported_seen };

    ghost spell = { exported_bytes };

    ghost IsLong = { IsLongExport };

    fn add_to(&self, to: &mut Vec<u8>) -> Result<()> {
        add_item(to, self.item)?;
        add_text(to, self.name.as_str())
    }
}

/// What [`exports`] tells, as bytes for callers of other languages: of each export a byte that says what it is (0 a function, 1 a table, 2 a
/// memory, 3 a global, 4 a tag), its index and the length of its name as two numbers of 32 bits, the lowest byte first; and then its name.
///
/// # Errors
///
/// Those of [`exports`], and `TooLarge` where what is listed has an index or a name past 32 bits.
pub fn export_list(
    alloc: Global,
    bytes: &[u8],
    wanted: Wanted,
    choices: &[Choice<'_>],
) -> Result<Vec<u8>>
    ensures { AnswersExportList (config_wanted wanted) bytes.now (choices_seen choices.now) result }
{
    let told = exports(alloc, bytes, wanted, choices)?;
    spelled(alloc, &told)
}
