//! The NAMEs of choices, in lists by which a text is looked up.

ghost use Rattle.std.specs.Prelude.{◌≡◌, ◌↔◌, ◌⊎◌, ℕ, IfOk, List, OnOk, true};
ghost use Rattle.walrus_sections.specs.Choice.{Suits, choice_seen, choices_seen};
ghost use Rattle.walrus_sections.specs.ExportChoice.{NoneKept};
ghost use Rattle.walrus_sections.specs.NameLists.{AreInOrder, AreNames, FitsIn, FitsNames, FitsSome, IsChooser, IsInOrder, IsPicked, texts};

use crate::choice::Choice;
use crate::name_lists::{has_star, is_among};
use crate::tool::fits::fits;
use std::alloc::{AllocError, Global};

/// NAMEs of one kind.
#[derive(Drop)]
struct Names<'a> {
    /// Those without a star, in order.
    plain: Vec<&'a [u8]>,
    /// Those with a star.
    starred: Vec<&'a [u8]>,
}

/// The NAMEs of choices, by which a text is looked up.
#[derive(Drop)]
pub struct Chooser<'a> {
    /// Whether there is no choice of what is kept.
    keeps_all: bool,
    kept: Names<'a>,
    dropped: Names<'a>,
}

// Puts the NAME of the choice behind one of these lists, if the choice is of this kind.
fn add<'a>(
    plain: &mut Vec<&'a [u8]>,
    starred: &mut Vec<&'a [u8]>,
    choice: &Choice<'a>,
    is_kept: bool,
) -> Result<(), AllocError>
    ensures { OnOk result ((text : List ℕ) → FitsIn plain.new.items starred.new.items text
        ↔ (FitsIn plain.old.items starred.old.items text ⊎ Suits is_kept text (choice_seen choice.now))) }
{
    if choice.is_kept != is_kept {
        return Ok(());
    }
    if has_star(choice.name) {
        starred.push(choice.name)?;
    } else {
        plain.push(choice.name)?;
    }
    Ok(())
}

// The NAMEs of this kind.
fn names_of<'a>(
    alloc: Global,
    choices: &[Choice<'a>],
    is_kept: bool,
) -> Result<Names<'a>, AllocError>
    ensures { IfOk result (AreNames (choices_seen choices.now) is_kept) }
{
    let mut plain = Vec::new(alloc);
    let mut starred = Vec::new(alloc);
    'choices: for choice in choices {
        add(&mut plain, &mut starred, choice, is_kept)?;
    }
    plain.sort_unstable();
    Ok(Names { plain, starred })
}

// Whether no choice is of what is kept.
fn has_none_kept(choices: &[Choice<'_>]) -> bool
    ensures { (result ≡ true) ↔ NoneKept (choices_seen choices.now) }
{
    'choices: for choice in choices {
        if choice.is_kept {
            return false;
        }
    }
    true
}

/// What is looked up of these choices: a text is then looked up in time by the logarithm of the count of names without a star, and by the
/// count of names with one.
pub fn chooser_of<'a>(alloc: Global, choices: &[Choice<'a>]) -> Result<Chooser<'a>, AllocError>
    ensures { IfOk result (IsChooser (choices_seen choices.now)) }
{
    Ok(Chooser {
        keeps_all: has_none_kept(choices),
        kept: names_of(alloc, choices, true)?,
        dropped: names_of(alloc, choices, false)?,
    })
}

// Whether one of these NAMEs fits the text.
fn fits_some(names: &[&[u8]], text: &[u8]) -> bool
    ensures { (result ≡ true) ↔ FitsSome (texts names.now) text.now }
{
    'names: for name in names {
        if fits(name, text) {
            return true;
        }
    }
    false
}

// Whether one of these NAMEs fits the text.
fn fits_names(names: &Names<'_>, text: &[u8]) -> bool
    requires { AreInOrder names.now }
    ensures { (result ≡ true) ↔ FitsNames names.now text.now }
{
    is_among(&names.plain, text) || fits_some(&names.starred, text)
}

/// Whether the text is chosen: there is no choice of what is kept or one fits the text, and no choice of what goes does. Takes no memory.
pub fn is_chosen(chooser: &Chooser<'_>, text: &[u8]) -> bool
    requires { IsInOrder chooser.now }
    ensures { (result ≡ true) ↔ IsPicked chooser.now text.now }
{
    (chooser.keeps_all || fits_names(&chooser.kept, text)) && !fits_names(&chooser.dropped, text)
}
