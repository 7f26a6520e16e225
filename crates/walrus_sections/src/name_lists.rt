//! Texts, among which a NAME finds one that it fits.

ghost use Rattle.std.specs.Prelude.{◌≡◌, ◌↔◌, Contains, IsSorted, true};
ghost use Rattle.wasm_wire.specs.Names.{by_bytes};
ghost use Rattle.walrus_sections.specs.Choice.{choices_seen};
ghost use Rattle.walrus_sections.specs.ExportChoice.{FitsText, TellsUnfit};
ghost use Rattle.walrus_sections.specs.NameLists.{has_star, texts};

use crate::choice::Choice;
use crate::tool::fits::fits;

// Whether a star stands in the NAME. One without stands for itself.
pub(crate) fn has_star(name: &[u8]) -> bool
    ensures { result ≡ has_star name.now }
{
    name.contains(&b'*')
}

// Whether the text is one of these, which stand in order.
pub(crate) fn is_among(all: &[&[u8]], text: &[u8]) -> bool
    requires { IsSorted by_bytes all.now }
    ensures { (result ≡ true) ↔ Contains (texts all.now) text.now }
{
    all.binary_search(&text).is_ok()
}

// Whether the NAME fits one of these texts, by a walk over all.
fn fits_any(all: &[&[u8]], name: &[u8]) -> bool
    ensures { (result ≡ true) ↔ FitsText (texts all.now) name.now }
{
    'texts: for text in all {
        if fits(name, text) {
            return true;
        }
    }
    false
}

// Whether the NAME fits one of these texts. Where they stand in order, one without a star is looked up.
fn fits_text(all: &[&[u8]], name: &[u8], in_order: bool) -> bool
    requires { in_order ≡ true → IsSorted by_bytes all.now }
    ensures { (result ≡ true) ↔ FitsText (texts all.now) name.now }
{
    if in_order && !has_star(name) {
        return is_among(all, name);
    }
    fits_any(all, name)
}

/// The number of the first choice, from 0, that fits none of these texts; or none where each fits one. A choice without a star is looked up where
/// the texts stand in the order of their bytes, as is said by `in_order`; each other one takes a walk over the texts. Takes no memory.
pub fn first_unfit(all: &[&[u8]], choices: &[Choice<'_>], in_order: bool) -> Option<usize>
    requires { in_order ≡ true → IsSorted by_bytes all.now }
    ensures { TellsUnfit (texts all.now) (choices_seen choices.now) result }
{
    'choices: for number in 0..choices.len() {
        if !fits_text(all, choices[number].name, in_order) {
            return Some(number);
        }
    }
    None
}
