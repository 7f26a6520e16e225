//! Exports, by their names.

ghost use Rattle.std.specs.Prelude.{◌≡◌, IfOk};
ghost use Rattle.walrus.specs.Items.Exports.{exports};
ghost use Rattle.walrus_sections.specs.Choice.{choices_seen};
ghost use Rattle.walrus_sections.specs.ExportChoice.{TellsUnfit};
ghost use Rattle.walrus_tools.specs.KeptExports.{KeepsAt, KeepsNamed, export_names};
ghost use Rattle.walrus_sections.specs.NameLists.{IsInOrder, IsPicked, texts};

use std::alloc::{AllocError, Global};
use walrus::{ExportId, ModuleExports};
use walrus_sections::{Choice, Chooser, first_unfit, is_chosen};

/// So few choices are each held against all names, which takes less time than to put these in order.
const FEW: usize = 8;

// The names under which something is exported, by rising id.
fn export_names(alloc: Global, all: &ModuleExports) -> Result<Vec<&[u8]>, AllocError>
    ensures { IfOk result (λ names. texts names.items ≡ export_names (exports all.now)) }
{
    let mut names = Vec::with_capacity(alloc, all.next_id().index())?;
    'exports: for export in all.iter() {
        names.push(export.name.as_bytes())?;
    }
    Ok(names)
}

/// The number of the first choice that fits no export. Takes a walk over all exports for each choice with a star, and for each of a few; else
/// a look-up for each choice without a star.
pub(crate) fn unfit_number(
    alloc: Global,
    all: &ModuleExports,
    choices: &[Choice<'_>],
) -> Result<Option<usize>, AllocError>
    ensures { IfOk result (TellsUnfit (export_names (exports all.now)) (choices_seen choices.now)) }
{
    let mut names = export_names(alloc, all)?;
    let are_few = choices.len() <= FEW;
    if are_few {
        return Ok(first_unfit(&names, choices, false));
    }
    names.sort_unstable();
    Ok(first_unfit(&names, choices, true))
}

// The export at this place is gone, unless its name is chosen.
fn drop_at(all: &mut ModuleExports, at: usize, chooser: &Chooser<'_>)
    requires { IsInOrder chooser.now }
    ensures { KeepsAt (IsPicked chooser.now) at (exports all.old) (exports all.new) }
{
    let id = ExportId::at(at);
    if !all.contains(id) {
        return;
    }
    if is_chosen(chooser, all.get(id).name.as_bytes()) {
        return;
    }
    all.remove_root(id);
}

/// The exports whose names aren't chosen are gone. Takes a look-up or two for each export, and one test for each NAME with a star.
pub(crate) fn drop_others(all: &mut ModuleExports, chooser: &Chooser<'_>)
    requires { IsInOrder chooser.now }
    ensures { KeepsNamed (IsPicked chooser.now) (exports all.old) (exports all.new) }
{
    'places: for at in 0..all.next_id().index() {
        drop_at(all, at, chooser);
    }
}
