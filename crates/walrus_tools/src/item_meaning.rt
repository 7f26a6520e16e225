//! The item that a text means: by an index, by its own name, or by the name of an export.

ghost use Rattle.std.specs.Prelude.{◌≡◌, option_map};
ghost use Rattle.walrus.specs.Items.Exports.{exports};
ghost use Rattle.walrus.specs.Items.Functions.{functions};
ghost use Rattle.walrus.specs.Items.Kinds.{exported};
ghost use Rattle.walrus_tools.specs.ExportNames.{named};
ghost use Rattle.walrus_tools.specs.ItemMeaning.{FindsItem};

use crate::functions::function_at;
use walrus::{Error, ExportItem, ItemId, ModuleExports, ModuleFunctions, Result};

// What the first export of this name brings out.
fn exported_as(all: &ModuleExports, name: &str) -> Option<ExportItem>
    ensures { option_map exported result
        ≡ option_map (λ e. exported e.1.item) (named name.now (exports all.now)) }
{
    'exports: for (_, export) in all.iter_entries() {
        if export.name.as_str() == name {
            return Some(export.item);
        }
    }
    None
}

/// The item that the text means: the function of the index that it is in decimal. Or else the first function of this name, or what the first
/// export of this name brings out. `NotFound` is the only error.
pub(crate) fn item_meant(
    all: &ModuleFunctions,
    exported: &ModuleExports,
    text: &str,
) -> Result<ItemId>
    ensures { FindsItem (functions all.now) (exports exported.now) text.now result }
{
    if let Ok(index) = text.parse::<u32>() {
        return Ok(ItemId::Function(function_at(all, index)?));
    }
    if let Some(id) = all.by_name(text) {
        return Ok(ItemId::Function(id));
    }
    match exported_as(exported, text) {
        Some(item) => Ok(item.item_id()),
        None => Err(Error::NotFound),
    }
}
