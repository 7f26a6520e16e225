//! What a developer asks of an item that stays: what refers to it.

ghost use Rattle.walrus_sections.specs.Choice.{choices_seen};
ghost use Rattle.walrus_tools.specs.ReasonAnswers.{AnswersCallers};
ghost use Rattle.walrus.specs.Wanted.{config_wanted};

use crate::item_meaning::item_meant;
use crate::keep::keep_chosen;
use crate::links::{Link, links_of};
use crate::referrers::callers_of;
use std::alloc::Global;
use walrus::passes::gc;
use walrus::{ModuleConfig, Result, Wanted};
use walrus_sections::Choice;

/// The items that refer to the one that the text means, of those that are left where of the exports those are left that are chosen, and what
/// nothing reaches goes: by kind (types, functions, tables, memories, tags, globals, elements, data) and index. The text means what it means to
/// [`why`](crate::why), and exports are chosen as for [`gc_chosen`](crate::gc_chosen).
///
/// # Errors
///
/// Those of [`why`](crate::why).
pub fn callers(
    alloc: Global,
    bytes: &[u8],
    wanted: Wanted,
    choices: &[Choice<'_>],
    text: &str,
) -> Result<Vec<Link>>
    ensures { AnswersCallers (config_wanted wanted) bytes.now (choices_seen choices.now) text.now result }
{
    let config = ModuleConfig::of_choices(wanted.names, wanted.producers, wanted.legacy);
    let mut module = config.parse(alloc, bytes)?;
    keep_chosen(alloc, &mut module, choices)?;
    let item = item_meant(&module.funcs, &module.exports, text)?;
    gc::run(alloc, &mut module)?;
    let items = callers_of(alloc, &module, item)?;
    let (output, transform) = module.emit_wasm_with_transform(alloc)?;
    drop(output);
    let bodies = transform.function_ranges.as_slice();
    let left = module.parts();
    let found = items.as_slice();
    Ok(links_of(alloc, left, bodies, found)?)
}
