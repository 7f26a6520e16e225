//! Imports of functions that are chosen by the names of their modules and their own.

ghost use Rattle.std.specs.Prelude.{ℕ, ◌≡◌, ◌↔◌, true};
ghost use Rattle.walrus.specs.Base.Arena.{item_at};
ghost use Rattle.walrus.specs.Base.Id.{place};
ghost use Rattle.walrus.specs.Items.Imports.{import_value, imports};
ghost use Rattle.walrus_sections.specs.Choice.{choices_seen};
ghost use Rattle.walrus_tools.specs.MarkSteps.{HasPlaces, Meets};
ghost use Rattle.walrus_tools.specs.StubMatching.{ChosenAt, IsChosen, IsWanted, MarksChosen, NameGoes};

use crate::marks::{Marking, meet};
use std::alloc::Global;
use walrus::{Error, Import, ImportId, ImportKey, ImportKind, Marks, ModuleImports, Result};
use walrus_sections::{Choice, goes};

// Whether the choices say that the name goes, or there are none.
fn name_goes(names: &[Choice<'_>], name: &[u8]) -> bool
    ensures { (result ≡ true) ↔ NameGoes (choices_seen names.now) name.now }
{
    names.is_empty() || goes(names, name)
}

// Whether the import brings a function, and the choices say that its module and its name go.
fn is_wanted(found: &Import, modules: &[Choice<'_>], names: &[Choice<'_>]) -> bool
    ensures { (result ≡ true) ↔ IsWanted (choices_seen modules.now) (choices_seen names.now)
        (import_value found.now) }
{
    let ImportKind::Function(_) = found.kind else {
        return false;
    };
    goes(modules, found.module.as_bytes()) && name_goes(names, found.name.as_bytes())
}

// Whether the import of this id is there, and is such a one.
fn is_chosen(
    all: &ModuleImports,
    at: ImportId,
    modules: &[Choice<'_>],
    names: &[Choice<'_>],
) -> bool
    ensures { (result ≡ true) ↔ IsChosen (choices_seen modules.now) (choices_seen names.now)
        (item_at (imports all.now) (place at)) }
{
    all.contains(at) && is_wanted(all.get(at), modules, names)
}

// Marks the import of this id, if it is chosen.
fn mark_chosen(
    marking: &mut Marking<ImportKey>,
    all: &ModuleImports,
    at: ImportId,
    modules: &[Choice<'_>],
    names: &[Choice<'_>],
)
    requires { HasPlaces (imports all.now) marking.old.marks }
    ensures { Meets
        (ChosenAt (choices_seen modules.now) (choices_seen names.now) (imports all.now) (place at))
        marking.old marking.new }
{
    if is_chosen(all, at, modules, names) {
        meet(marking, at);
    }
}

// Marks the imports that are chosen.
fn mark_all_chosen(
    marking: &mut Marking<ImportKey>,
    all: &ModuleImports,
    modules: &[Choice<'_>],
    names: &[Choice<'_>],
)
    requires { HasPlaces (imports all.now) marking.old.marks }
    ensures { Meets (λ p. (i : ℕ) ×
        ChosenAt (choices_seen modules.now) (choices_seen names.now) (imports all.now) i p)
        marking.old marking.new }
{
    'places: for at in 0..all.next_id().index() {
        mark_chosen(marking, all, ImportId::at(at), modules, names);
    }
}

/// Marks of the imports of functions whose modules and names the choices say that they go; where no names are given, all names do. `NotFound`
/// where there is no such import, and `Memory`.
pub(crate) fn chosen_imports(
    alloc: Global,
    all: &ModuleImports,
    modules: &[Choice<'_>],
    names: &[Choice<'_>],
) -> Result<Marks<ImportKey>>
    ensures { MarksChosen (choices_seen modules.now) (choices_seen names.now) (imports all.now) result }
{
    let mut marking = Marking {
        marks: Marks::new(alloc, all.next_id().index())?,
        is_met: false,
    };
    mark_all_chosen(&mut marking, all, modules, names);
    if !marking.is_met {
        return Err(Error::NotFound);
    }
    Ok(marking.marks)
}
