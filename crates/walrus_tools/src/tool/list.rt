//! What a developer asks of a module that is too large: which functions stay, under which names, and what each costs.

ghost use Rattle.std.specs.Option.{option_to_list};
ghost use Rattle.std.specs.Prelude.{◌≡◌, ◌++◌, IfErr, IfOk, OnOk, map};
ghost use Rattle.walrus.specs.Base.Id.{place};
ghost use Rattle.walrus.specs.Items.Functions.{functions};
ghost use Rattle.walrus.specs.Items.Seen.{text_of};
ghost use Rattle.walrus.specs.Items.Transform.{range_of};
ghost use Rattle.walrus_sections.specs.Choice.{choices_seen};
ghost use Rattle.walrus_tools.specs.FunctionList.{AnswersFunctions, AnswersListed, IsLong, IsLongName, ListedFunction, RefusesIf, listed_bytes, listed_of, listed_seen, name_bytes, names_in};
ghost use Rattle.walrus.specs.Wanted.{config_wanted};

use crate::keep::keep_chosen;
use crate::spelled::{Told, spelled};
use std::alloc::{AllocError, Global};
use std::ops::Range;
use std::result;
use walrus::passes::gc;
use walrus::{FunctionId, ModuleConfig, ModuleFunctions, Result, Wanted};
use walrus_sections::{Choice, NO_NAME, add_number, add_text, narrow};

/// A function with a body that stays, or that goes.
#[derive(Drop)]
pub struct Listed {
    /// Its index in the bytes that were read.
    pub index: usize,
    /// How many bytes its body has: of one that stays in the module that is left, of one that goes in the bytes that were read.
    pub size: usize,
    /// Its name, if it has one.
    pub name: Option<String>,
}

// ---- the list

/// The name of a function, if it has one.
pub(crate) fn name_of(
    alloc: Global,
    all: &ModuleFunctions,
    id: FunctionId,
) -> result::Result<Option<String>, AllocError>
    ensures { IfOk result (λ name. option_to_list (text_of name)
        ≡ names_in (functions all.now) (place id)) }
{
    if all.contains(id) {
        if let Some(name) = &all.get(id).name {
            return Ok(Some(String::from_str(alloc, name.as_str())?));
        }
    }
    Ok(None)
}

// A function with this body.
fn listed_of(
    alloc: Global,
    all: &ModuleFunctions,
    body: &(FunctionId, Range<usize>),
) -> result::Result<Listed, AllocError>
    ensures { IfOk result (λ f. listed_seen f
        ≡ listed_of (names_in (functions all.now)) (range_of body.now)) }
{
    let name = name_of(alloc, all, body.0)?;
    Ok(Listed {
        index: body.0.index(),
        size: body.1.end.saturating_sub(body.1.start),
        name,
    })
}

// The functions with these bodies.
fn all_listed(
    alloc: Global,
    all: &ModuleFunctions,
    bodies: &[(FunctionId, Range<usize>)],
) -> result::Result<Vec<Listed>, AllocError>
    ensures { IfOk result (λ list. map listed_seen list.items
        ≡ map (listed_of (names_in (functions all.now))) (map range_of bodies.now)) }
{
    let mut list = Vec::new(alloc);
    for body in bodies {
        let function = listed_of(alloc, all, body)?;
        list.push(function)?;
    }
    Ok(list)
}

/// What stays of the functions with a body where of the exports those are left that are chosen, and what nothing reaches goes, by rising
/// index. What is written of names and producers changes nothing. Exports are chosen as for [`gc_chosen`](crate::gc_chosen).
///
/// # Errors
///
/// `InvalidWasm` only where the bytes are no module that keeps the rules, `NotFound` only where a choice fits no export, `TooLarge` only
/// where what is kept has a count or a size past 32 bits, and `Memory`.
pub fn list(
    alloc: Global,
    bytes: &[u8],
    wanted: Wanted,
    choices: &[Choice<'_>],
) -> Result<Vec<Listed>>
    ensures { AnswersListed (config_wanted wanted) bytes.now (choices_seen choices.now) result }
{
    let config = ModuleConfig::of_choices(wanted.names, wanted.producers, wanted.legacy);
    let mut module = config.parse(alloc, bytes)?;
    keep_chosen(alloc, &mut module, choices)?;
    gc::run(alloc, &mut module)?;
    let (output, transform) = module.emit_wasm_with_transform(alloc)?;
    drop(output);
    Ok(all_listed(alloc, &module.funcs, &transform.function_ranges)?)
}

// ---- the list as bytes

/// Puts the length of the name and the name behind the bytes, or what says that there is none.
pub(crate) fn add_name(to: &mut Vec<u8>, name: &Option<String>) -> Result<()>
    ensures value { OnOk result (to.new.items ≡ to.old.items
        ++ name_bytes (option_to_list (text_of name.now))) }
    ensures fits { OnOk result (IsLongName (option_to_list (text_of name.now)) → ⊥) }
    ensures refused { IfErr result (RefusesIf (IsLongName (option_to_list (text_of name.now)))) }
{
    match name {
        Some(text) => add_text(to, text.as_str()),
        None => Ok(add_number(to, NO_NAME)?),
    }
}

impl Told for Listed {
    ghost Seen = { ListedFunction };

    ghost seen = { listed_seen };

    ghost spell = { listed_bytes };

    ghost IsLong = { IsLong };

    fn add_to(&self, to: &mut Vec<u8>) -> Result<()> {
        let index = narrow(self.index)?;
        let size = narrow(self.size)?;
        add_number(to, index)?;
        add_number(to, size)?;
        add_name(to, &self.name)
    }
}

/// What [`list`] tells, as bytes for callers of other languages: of each function its index, how many bytes its body has, and the length of
/// its name, [`NO_NAME`] for none, as three numbers of 32 bits, the lowest byte first; and then its name.
///
/// # Errors
///
/// Those of [`list`], and `TooLarge` also where what is listed has a number or a name past 32 bits.
pub fn function_list(
    alloc: Global,
    bytes: &[u8],
    wanted: Wanted,
    choices: &[Choice<'_>],
) -> Result<Vec<u8>>
    ensures { AnswersFunctions (config_wanted wanted) bytes.now (choices_seen choices.now) result }
{
    let functions = list(alloc, bytes, wanted, choices)?;
    spelled(alloc, &functions)
}
