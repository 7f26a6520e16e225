//! What a developer asks of an item that wasn't to stay: by which references it does, and what would go with it.

ghost use Rattle.std.specs.Prelude.{◌≡◌, ◌<◌, ◌^◌, map, option_map};
ghost use Rattle.walrus.specs.Code.Code.{item_of};
ghost use Rattle.walrus.specs.Items.Transform.{range_of};
ghost use Rattle.walrus_tools.specs.Alone.{bytes_of};
ghost use Rattle.walrus_tools.specs.AloneSteps.{alone_in};
ghost use Rattle.walrus_sections.specs.Choice.{choices_seen};
ghost use Rattle.walrus_tools.specs.ReasonAnswers.{AnswersWhy};
ghost use Rattle.walrus_tools.specs.ReasonSteps.{TellsGoers};
ghost use Rattle.walrus.specs.Wanted.{config_wanted};

use crate::goers::{Alone, alone_of, goers, put_back, trap_one};
use crate::item_meaning::item_meant;
use crate::keep::keep_chosen;
use crate::links::links_of_chain;
use crate::reasons::Reason;
use crate::roots::root_of_chain;
use std::alloc::Global;
use std::ops::Range;
use walrus::passes::gc;
use walrus::passes::used::Used;
use walrus::passes::why::chain_to;
use walrus::{
    CustomSection, FunctionId, FunctionKey, ItemId, Marks, Module, ModuleConfig, Result, Wanted,
};
use walrus_sections::Choice;

// Marks of the functions that go with an item, if that is a function with a body that is there. The module is as it was, unless this is refused.
fn goers_with(
    alloc: Global,
    module: &mut Module,
    item: ItemId,
) -> Result<Option<Marks<FunctionKey>>>
    ensures { TellsGoers ⟦<dyn CustomSection as CustomSection>⟧ (item_of item)
        «module».old «module».new result }
{
    let ItemId::Function(id) = item else {
        return Ok(None);
    };
    let Some(body) = trap_one(alloc, module, id)? else {
        return Ok(None);
    };
    let used = Used::new(alloc, module)?;
    let marks = goers(alloc, &module.funcs, &used.funcs, id)?;
    put_back(module, id, body);
    Ok(Some(marks))
}

// What goes with an item, if that is told: how many functions are marked, and how many bytes those of these bodies have that are theirs.
fn alone_if(
    marks: &Option<Marks<FunctionKey>>,
    bodies: &[(FunctionId, Range<usize>)],
) -> Option<Alone>
    requires { bytes_of (map range_of bodies.now) < 2 ^ 64 }
    ensures { result ≡ option_map (λ m. alone_in m (map range_of bodies.now)) marks.now }
{
    match marks {
        Some(marks) => Some(alone_of(marks, bodies)),
        None => None,
    }
}

/// Why the item stays that the text means, where of the exports those are left that are chosen, and what nothing reaches goes. The text is the
/// index of a function in decimal, or else the name of a function, or else that of an export, of what is left then; of several the first is meant.
/// Sizes are those in the module that is left. Exports are chosen as for [`gc_chosen`](crate::gc_chosen).
///
/// # Errors
///
/// `InvalidWasm` only where the bytes are no module that keeps the rules, `NotFound` only where a choice fits no export, or else the text means
/// nothing, `TooLarge` only where what is kept has a count or a size past 32 bits, and `Memory`.
pub fn why(
    alloc: Global,
    bytes: &[u8],
    wanted: Wanted,
    choices: &[Choice<'_>],
    text: &str,
) -> Result<Reason>
    ensures { AnswersWhy (config_wanted wanted) bytes.now (choices_seen choices.now) text.now result }
{
    let config = ModuleConfig::of_choices(wanted.names, wanted.producers, wanted.legacy);
    let mut module = config.parse(alloc, bytes)?;
    keep_chosen(alloc, &mut module, choices)?;
    let item = item_meant(&module.funcs, &module.exports, text)?;
    let chain = chain_to(alloc, &module, item)?;
    let read = module.parts();
    let root = root_of_chain(read, &chain);
    gc::run(alloc, &mut module)?;
    let marks = goers_with(alloc, &mut module, item)?;
    let (output, transform) = module.emit_wasm_with_transform(alloc)?;
    drop(output);
    let bodies = transform.function_ranges.as_slice();
    let left = module.parts();
    let links = links_of_chain(alloc, left, bodies, &chain)?;
    Ok(Reason {
        item,
        links,
        root,
        alone: alone_if(&marks, bodies),
    })
}
