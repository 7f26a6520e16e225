//! Why a list of edits makes nothing of a module.

ghost use Rattle.std.specs.Prelude.{◌≡◌};
ghost use Rattle.walrus_edits.specs.declared.refusal.Refusal.TheVariants.{Edit, Input, Whole};

use walrus::{Error, Flaw};
use walrus_edit_list as list;

/// Why a list of edits makes nothing of a module.
#[derive(Debug, Drop)]
pub enum Refusal {
    /// The input is refused, or memory.
    Input(Error),
    /// So many edits were applied, and the next one is refused.
    Edit(usize, Error),
    /// What all edits left isn't written: [`Flaw::number`] tells why, and it is an error.
    Whole(Flaw),
}

impl From<Error> for Refusal {
    ghost from_gives = { λ e r. r ≡ Input e };

    fn from(e: Error) -> Refusal {
        Refusal::Input(e)
    }
}

impl From<list::Refusal> for Refusal {
    ghost from_gives = { λ e r. r ≡ Edit e.applied e.error };

    fn from(e: list::Refusal) -> Refusal {
        Refusal::Edit(e.applied, e.error)
    }
}

impl From<Flaw> for Refusal {
    ghost from_gives = { λ e r. r ≡ Whole e };

    fn from(e: Flaw) -> Refusal {
        Refusal::Whole(e)
    }
}
