//! A module of another one, by a list of edits.

ghost use Rattle.std.specs.Prelude.{◌≡◌, IfOk, IsOkUnless};
ghost use Rattle.walrus.specs.Base.Arena.{items};
ghost use Rattle.walrus.specs.Items.Errors.{out_of_memory};
ghost use Rattle.walrus.specs.Wanted.{config_wanted};
ghost use Rattle.walrus_edits.specs.Edited.{AnswersEdit};
ghost use Rattle.walrus_edits.specs.declared.refusal.Refusal.TheVariants.{Edit, Input, Whole};

use crate::ending::written;
use crate::put::put_contents;
use crate::refusal::Refusal;
use std::alloc::Global;
use std::{mem, result};
use walrus::below::Features;
use walrus::{
    Module, ModuleConfig, ModuleCustomSections, RawCustomSection, Result, SectionEntry, Wanted,
};
use walrus_edit_list::{Beside, apply_all};

// The sections that are left, in their order.
fn sections_left(alloc: Global, all: Vec<Option<RawCustomSection>>) -> Result<Vec<RawCustomSection>>
    ensures left { IfOk result (λ raws. raws.items ≡ items all.items) }
    ensures fails { IsOkUnless result out_of_memory }
{
    let mut left = Vec::with_capacity(alloc, all.len())?;
    'slots: for slot in all {
        if let Some(section) = slot {
            left.push(section)?;
        }
    }
    Ok(left)
}

/// The module that a list of edits makes of the one that the bytes are, each in its turn; then without what nothing reaches, if `collects` asks for that.
/// docs/FORMATS.md has the form of the list. Ids are the input's indices, and what is added has the next ones. Nothing is written of what is refused.
///
/// # Errors
///
/// `Input` with `InvalidWasm` only where the bytes are no module that keeps the rules. `Edit` with how many edits were applied, where the next one isn't of its
/// form (`InvalidWasm`), names what isn't there (`DeadItem`) or can't be made, or a body that it has isn't well formed. `Whole` with what is wrong with what
/// all edits left: a rule that it breaks, or `DeadItem`, `TwoIndices`, `NoIndex`, `NotWritable`; `TooLarge` only with what passes 32 bits. Each may tell
/// that `Memory` was refused.
pub fn edit(
    alloc: Global,
    bytes: &[u8],
    edits: &[u8],
    wanted: Wanted,
    collects: bool,
) -> result::Result<Vec<u8>, Refusal>
    ensures { AnswersEdit (config_wanted wanted) collects bytes.now edits.now result }
{
    let config = ModuleConfig::of_choices(wanted.names, wanted.producers, wanted.legacy);
    let features = Features {
        legacy_exceptions: wanted.legacy,
        only_stable: false,
    };
    let mut module = config.parse(alloc, bytes)?;
    let none = ModuleCustomSections::<SectionEntry>::new(alloc);
    let sections = mem::replace(&mut module.customs, none);
    let customs = sections.into_raws(alloc)?;
    let mut beside = Beside {
        customs,
        has_read: false,
    };
    apply_all(alloc, edits, &features, &mut module, &mut beside)?;
    let left = sections_left(alloc, beside.customs)?;
    let kept = ModuleCustomSections::keeping(alloc, left)?;
    let fresh = Module::with_config(alloc, config)?;
    let mut whole = put_contents(module, fresh);
    whole.customs = kept;
    let output = written(alloc, whole, collects)?;
    Ok(output)
}
