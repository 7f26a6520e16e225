//! A list of edits is applied, one after another.

ghost use Rattle.std.specs.Prelude.{◌≡◌};
ghost use Rattle.walrus_edit_list.specs.Applies.{AppliesAll};
ghost use Rattle.walrus_edit_list.specs.Held.{held};

use crate::apply::apply_first;
use crate::beside::Beside;
use crate::ids::{places_of_items, types_of_tags};
use std::alloc::Global;
use std::result;
use walrus_bodies::Features;
use walrus_items::Error;
use walrus_module::Module;

/// Why a list of edits isn't applied.
#[derive(Debug, Drop)]
pub struct Refusal {
    /// So many edits were applied; the next one is refused.
    pub applied: usize,
    /// Why.
    pub error: Error,
}

/// Applies all edits of a list, each to what the one before left, and gives how many they are. Bodies that come may use these proposals.
///
/// # Errors
///
/// So many edits were applied, and the next one is refused: `InvalidWasm` where no edit stands there, or as the function of its kind; `DeadItem` where it
/// names what isn't there; `Memory`. What was applied stays in the module.
pub fn apply_all<S>(
    alloc: Global,
    edits: &[u8],
    features: &Features,
    module: &mut Module<S>,
    beside: &mut Beside,
) -> result::Result<usize, Refusal>
    ensures { AppliesAll features.now edits.now (held «module».old beside.old)
        (held «module».new beside.new) result }
{
    let tag_types = match types_of_tags(alloc, &module.tags) {
        Ok(types) => types,
        Err(error) => return Err(Refusal { applied: 0, error }),
    };
    let places = match places_of_items(alloc, module) {
        Ok(places) => places,
        Err(error) => return Err(Refusal { applied: 0, error }),
    };
    let mut rest = edits;
    'edits: for applied in 0..edits.len() {
        if rest.is_empty() {
            return Ok(applied);
        }
        match apply_first(alloc, rest, features, &tag_types, &places, module, beside) {
            Ok(behind) => rest = behind,
            Err(error) => return Err(Refusal { applied, error }),
        }
    }
    Ok(edits.len())
}
