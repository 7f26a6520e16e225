//! The functions that texts mean: by an index, by a name, or by a name with stars.

ghost use Rattle.std.specs.Prelude.{ℕ, ◌≡◌, ◌↔◌, MatchOption, MatchResult, true};
ghost use Rattle.walrus.specs.Base.Arena.{item_at};
ghost use Rattle.walrus.specs.Base.Id.{place};
ghost use Rattle.walrus.specs.Items.Exports.{exports};
ghost use Rattle.walrus.specs.Items.Functions.{functions};
ghost use Rattle.walrus.specs.Items.Seen.{text_of};
ghost use Rattle.walrus_tools.specs.MarkSteps.{AreMarks, HasPlaces, IsExported, IsFit, IsNamed, MarksFitting, MarksOne, MarksText, Meets, RefusesMarks};
ghost use Rattle.walrus_tools.specs.FunctionMeaning.{FitsExport, FitsName, has_body, has_star, is_local, texts};

use crate::functions::{function_at, function_called};
use crate::marks::{Marking, meet};
use std::alloc::Global;
use walrus::{
    Error, ExportId, ExportItem, FunctionId, FunctionKey, FunctionKind, Marks, ModuleExports,
    ModuleFunctions, Result,
};
use walrus_sections::fits;

/// A text that means functions of a module.
#[derive(Clone, Copy, Debug, PartialEq, Eq)]
pub struct Meant<'a> {
    /// The index of a function, in decimal. Or else, with a star in it, a name as in [`Choice`](crate::Choice), which means each function with a
    /// body whose name it fits, or the name of one of whose exports. Or else the name of a function, or that of the export of one.
    pub name: &'a str,
}

// Whether a star stands in the text.
fn is_pattern(text: &str) -> bool
    ensures { result ≡ has_star text.now }
{
    text.as_bytes().contains(&b'*')
}

// ---- one function

// Whether a function of this kind has a body.
fn is_own(kind: &FunctionKind) -> bool
    ensures { result ≡ is_local kind.now }
{
    match kind {
        FunctionKind::Local(_) => true,
        FunctionKind::Import(_) | FunctionKind::Uninitialized(_) => false,
    }
}

// Whether the function of this id is there and has a body.
fn with_body(all: &ModuleFunctions, id: FunctionId) -> bool
    ensures { result ≡ has_body (item_at (functions all.now) (place id)) }
{
    all.contains(id) && is_own(&all.get(id).kind)
}

// Whether there is a text, and this name fits it.
fn fits_text(name: &str, text: &Option<String>) -> bool
    ensures { (result ≡ true) ↔ FitsName name.now (text_of text.now) }
{
    match text {
        Some(text) => fits(name.as_bytes(), text.as_bytes()),
        None => false,
    }
}

// Whether the function of this id is there and has a body, and this fits its name.
fn fits_function(all: &ModuleFunctions, id: FunctionId, name: &str) -> bool
    ensures { (result ≡ true) ↔ IsFit name.now (item_at (functions all.now) (place id)) }
{
    with_body(all, id) && fits_text(name, &all.get(id).name)
}

// The function that the export of this id brings out, if it is there and this fits its name.
fn fits_export(all: &ModuleExports, at: ExportId, name: &str) -> Option<FunctionId>
    ensures { MatchOption result
        ((p : ℕ) → FitsExport name.now (item_at (exports all.now) (place at)) p → ⊥)
        (λ id. FitsExport name.now (item_at (exports all.now) (place at)) (place id)) }
{
    if !all.contains(at) {
        return None;
    }
    let export = all.get(at);
    let ExportItem::Function(id) = export.item else {
        return None;
    };
    if !fits(name.as_bytes(), export.name.as_bytes()) {
        return None;
    }
    Some(id)
}

// ---- marks

// Marks the function of this id, if it has a body and this fits its name.
fn mark_named(marking: &mut Marking<FunctionKey>, all: &ModuleFunctions, id: FunctionId, name: &str)
    requires { HasPlaces (functions all.now) marking.old.marks }
    ensures { Meets (IsNamed name.now (functions all.now) (place id)) marking.old marking.new }
{
    if fits_function(all, id, name) {
        meet(marking, id);
    }
}

// Marks the function that the export of this id brings out, if it has a body and this fits the name of the export.
fn mark_exported(
    marking: &mut Marking<FunctionKey>,
    all: &ModuleFunctions,
    exported: &ModuleExports,
    at: ExportId,
    name: &str,
)
    requires { HasPlaces (functions all.now) marking.old.marks }
    ensures { Meets (IsExported name.now (functions all.now) (exports exported.now) (place at))
        marking.old marking.new }
{
    if let Some(id) = fits_export(exported, at, name) {
        if with_body(all, id) {
            meet(marking, id);
        }
    }
}

// Marks the functions with a body whose names this fits.
fn mark_all_named(marking: &mut Marking<FunctionKey>, all: &ModuleFunctions, name: &str)
    requires { HasPlaces (functions all.now) marking.old.marks }
    ensures { Meets (λ p. (i : ℕ) × IsNamed name.now (functions all.now) i p) marking.old marking.new }
{
    'places: for at in 0..all.next_id().index() {
        mark_named(marking, all, FunctionId::at(at), name);
    }
}

// Marks the functions with a body that are exported under names that this fits.
fn mark_all_exported(
    marking: &mut Marking<FunctionKey>,
    all: &ModuleFunctions,
    exported: &ModuleExports,
    name: &str,
)
    requires { HasPlaces (functions all.now) marking.old.marks }
    ensures { Meets (λ p. (i : ℕ) × IsExported name.now (functions all.now) (exports exported.now) i p)
        marking.old marking.new }
{
    'places: for at in 0..exported.next_id().index() {
        mark_exported(marking, all, exported, ExportId::at(at), name);
    }
}

// Marks the functions that a name with a star means.
fn mark_fitting(
    marking: &mut Marking<FunctionKey>,
    all: &ModuleFunctions,
    exported: &ModuleExports,
    name: &str,
) -> Result<()>
    requires { HasPlaces (functions all.now) marking.old.marks }
    ensures { MarksFitting name.now (functions all.now) (exports exported.now)
        marking.old.marks marking.new.marks result }
{
    marking.is_met = false;
    mark_all_named(marking, all, name);
    mark_all_exported(marking, all, exported, name);
    if !marking.is_met {
        return Err(Error::NotFound);
    }
    Ok(())
}

// Marks a function, if it has a body.
fn mark_one(marking: &mut Marking<FunctionKey>, all: &ModuleFunctions, id: FunctionId) -> Result<()>
    requires { HasPlaces (functions all.now) marking.old.marks }
    ensures { MarksOne (functions all.now) (place id) marking.old.marks marking.new.marks result }
{
    if !with_body(all, id) {
        return Err(Error::NotReplaceable);
    }
    meet(marking, id);
    Ok(())
}

// Marks the functions that a text means.
fn mark_text(
    marking: &mut Marking<FunctionKey>,
    all: &ModuleFunctions,
    exported: &ModuleExports,
    text: &str,
) -> Result<()>
    requires { HasPlaces (functions all.now) marking.old.marks }
    ensures { MarksText (functions all.now) (exports exported.now) text.now
        marking.old.marks marking.new.marks result }
{
    if let Ok(index) = text.parse::<u32>() {
        let id = function_at(all, index)?;
        return mark_one(marking, all, id);
    }
    if is_pattern(text) {
        return mark_fitting(marking, all, exported, text);
    }
    let id = function_called(all, exported, text)?;
    mark_one(marking, all, id)
}

/// Marks of the functions that the texts mean, each of which has a body.
///
/// # Errors
///
/// By the first text that is refused: `NotFound` where it means no function, `NotReplaceable` where it means one without a body. And `Memory`.
pub(crate) fn marks_of(
    alloc: Global,
    all: &ModuleFunctions,
    exported: &ModuleExports,
    meant: &[Meant<'_>],
) -> Result<Marks<FunctionKey>>
    ensures { MatchResult result (AreMarks (functions all.now) (exports exported.now) (texts meant.now))
        (RefusesMarks (functions all.now) (exports exported.now) (texts meant.now)) }
{
    let mut marking = Marking {
        marks: Marks::new(alloc, all.next_id().index())?,
        is_met: false,
    };
    'texts: for text in meant {
        mark_text(&mut marking, all, exported, text.name)?;
    }
    Ok(marking.marks)
}
