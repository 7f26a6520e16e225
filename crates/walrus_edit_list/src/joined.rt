//! Operators in front of a body that stands as in the input, and goes on to stand so.

ghost use Rattle.std.specs.Prelude.{◌≡◌, ℕ, List, IfOk, IfSome, IsTrue};
ghost use Rattle.walrus_bodies.specs.Emitting.{OperatorsWritten};
ghost use Rattle.walrus_bodies.specs.Text.{first_local_of, ops_in};
ghost use Rattle.walrus_bodies.specs.declared.features.Features.{Features};
ghost use Rattle.walrus_code.specs.Indices.{index_of};
ghost use Rattle.walrus_edit_list.specs.Joined.{AreInFront, Fronts, IsTextOf, LeadsToItself, index_from};

use std::alloc::{AllocError, Global};
use std::rc::Rc;
use walrus_bodies::{LocalFunction, PlainCode, ScanRoom, Text, limits_of};
use walrus_code::{IdsToIndices, IndicesToIds, IrError};

/// So often operators are put in front of a body that goes on to stand as in the input: each time all its bytes are read again. Then it is a
/// list, which takes those in front alone.
const MOST_FRONTS: u32 = 16;

// Puts the operators of a text behind the bytes, with the place of each item as its index, and tells whether all of these are known.
fn append_placed(text: &Text, places: &IdsToIndices, to: &mut Vec<u8>) -> Result<bool, AllocError>
    ensures { IfOk result (λ done. IsTrue done → (f : Features) → (starts : List ℕ)
        × OperatorsWritten (index_of places.now) (index_from (first_local_of text.now)) f (ops_in text.now)
        to.old.items to.new.items starts) }
{
    match text.append_kept(to, places) {
        Ok(()) => Ok(true),
        Err(IrError::Memory(error)) => Err(error),
        Err(_) => Ok(false),
    }
}

// The text of these bytes alone, over as many locals as another one; none where they aren't plain.
fn text_of(
    alloc: Global,
    bytes: &[u8],
    text: &Text,
    ids: &IndicesToIds,
) -> Result<Option<Text>, AllocError>
    ensures { IfOk result (λ found. IfSome found (IsTextOf bytes.now (first_local_of text.now))) }
{
    let mut room = ScanRoom::new(alloc)?;
    let Ok(kept) = Rc::new(alloc, bytes.to_vec(alloc)?) else {
        return Err(AllocError);
    };
    let mut code = PlainCode::new(alloc, limits_of(ids), 1, kept, 0)?;
    code.scan(bytes, 0, text.local_count(), None, &mut room)?;
    let fronts = text.front_count().saturating_add(1);
    let shared = code.with_fronts(fronts).share(alloc)?;
    Text::find(&shared, 0, bytes, 0, text.first_local(), text.local_count())
}

// The operators that these bytes are and those of a text behind them, as a text; none where they aren't plain.
fn joined_text(
    alloc: Global,
    bytes: &[u8],
    text: &Text,
    ids: &IndicesToIds,
    places: &IdsToIndices,
) -> Result<Option<Text>, AllocError>
    requires { LeadsToItself (index_of places.now) }
    ensures { IfOk result (λ found. IfSome found (λ made. (first_local_of made ≡ first_local_of text.now)
        × AreInFront bytes.now (first_local_of text.now) (ops_in text.now) (ops_in made))) }
{
    let mut joined = Vec::with_capacity(alloc, bytes.len().saturating_add(text.byte_count()))?;
    joined.extend_from_slice(bytes)?;
    if !append_placed(text, places, &mut joined)? {
        return Ok(None);
    }
    text_of(alloc, joined.as_slice(), text, ids)
}

// The function with the operators that these bytes are in front of its body, which stays as it stands in the input; none where it isn't so, or
// they aren't plain.
pub(crate) fn front_text(
    alloc: Global,
    bytes: &[u8],
    own: &LocalFunction,
    ids: &IndicesToIds,
    places: &IdsToIndices,
) -> Result<Option<LocalFunction>, AllocError>
    requires { LeadsToItself (index_of places.now) }
    ensures { IfOk result (λ found. IfSome found (Fronts bytes.now own.now)) }
{
    let Some(text) = own.text() else {
        return Ok(None);
    };
    if text.front_count() >= MOST_FRONTS {
        return Ok(None);
    }
    let Ok(params) = u32::try_from(own.arg_count()) else {
        return Ok(None);
    };
    own.args_are_first();
    match joined_text(alloc, bytes, text, ids, places)? {
        Some(made) => Ok(Some(LocalFunction::of_text(own.ty(), params, made))),
        None => Ok(None),
    }
}
