//! What a developer asks of a module that became smaller: which functions went, under which names, and what each had.

ghost use Rattle.std.specs.Prelude.{◌≡◌, ◌++◌, IfOk, OnOk, flat_map, map};
ghost use Rattle.walrus.specs.Base.IdSet.{has_id};
ghost use Rattle.walrus.specs.Items.Functions.{functions};
ghost use Rattle.walrus_sections.specs.Choice.{choices_seen};
ghost use Rattle.walrus_tools.specs.DroppedList.{AnswersDropped, AnswersDroppedList, dropped_of};
ghost use Rattle.walrus_tools.specs.FunctionList.{listed_seen, names_in};
ghost use Rattle.walrus_sections.specs.Parts.{part_record};
ghost use Rattle.walrus.specs.Wanted.{config_wanted};

use crate::keep::keep_chosen;
use crate::spelled::spelled;
use crate::tool::list::{Listed, name_of};
use std::alloc::{AllocError, Global};
use std::result;
use walrus::passes::used::Used;
use walrus::{FunctionId, FunctionKey, IdHashSet, ModuleConfig, ModuleFunctions, Result, Wanted};
use walrus_sections::{Choice, Part, section_parts};

// Puts the part behind the list, if it is a function that doesn't stay.
fn add_dropped(
    alloc: Global,
    to: &mut Vec<Listed>,
    all: &ModuleFunctions,
    stay: &IdHashSet<FunctionKey>,
    part: Part<'_>,
) -> result::Result<(), AllocError>
    ensures { OnOk result (map listed_seen to.new.items ≡ map listed_seen to.old.items
        ++ dropped_of (has_id stay.now) (names_in (functions all.now)) (part_record part.entry)) }
{
    let Part::Function(function) = part else {
        return Ok(());
    };
    let id = FunctionId::at(function.index);
    if stay.contains(id) {
        return Ok(());
    }
    let name = name_of(alloc, all, id)?;
    to.push(Listed {
        index: function.index,
        size: function.size,
        name,
    })?;
    Ok(())
}

// The functions among these parts that don't stay.
fn all_dropped(
    alloc: Global,
    all: &ModuleFunctions,
    stay: &IdHashSet<FunctionKey>,
    parts: &[Part<'_>],
) -> result::Result<Vec<Listed>, AllocError>
    ensures { IfOk result (λ list. map listed_seen list.items
        ≡ flat_map (dropped_of (has_id stay.now) (names_in (functions all.now)))
        (map part_record parts.now)) }
{
    let mut list = Vec::new(alloc);
    'parts: for part in parts {
        add_dropped(alloc, &mut list, all, stay, *part)?;
    }
    Ok(list)
}

/// The functions with a body that go where of the exports those are left that are chosen, and what nothing reaches goes, by rising index: of
/// each the bytes that its body has in the input, and its name. Exports are chosen as for [`gc_chosen`](crate::gc_chosen).
///
/// # Errors
///
/// `InvalidWasm` only where the bytes are no module that keeps the rules, `NotFound` only where a choice fits no export, and `Memory`.
pub fn dropped(
    alloc: Global,
    bytes: &[u8],
    wanted: Wanted,
    choices: &[Choice<'_>],
) -> Result<Vec<Listed>>
    ensures { AnswersDropped (config_wanted wanted) bytes.now (choices_seen choices.now) result }
{
    let config = ModuleConfig::of_choices(wanted.names, wanted.producers, wanted.legacy);
    let mut module = config.parse(alloc, bytes)?;
    keep_chosen(alloc, &mut module, choices)?;
    let used = Used::new(alloc, &module)?;
    let parts = section_parts(alloc, bytes)?;
    Ok(all_dropped(alloc, &module.funcs, &used.funcs, &parts)?)
}

/// What [`dropped`] tells, as bytes, spelled as [`function_list`](crate::function_list) spells functions.
///
/// # Errors
///
/// Those of [`dropped`], and `TooLarge` where what is listed has a number or a name past 32 bits.
pub fn dropped_list(
    alloc: Global,
    bytes: &[u8],
    wanted: Wanted,
    choices: &[Choice<'_>],
) -> Result<Vec<u8>>
    ensures { AnswersDroppedList (config_wanted wanted) bytes.now (choices_seen choices.now) result }
{
    let functions = dropped(alloc, bytes, wanted, choices)?;
    spelled(alloc, &functions)
}
