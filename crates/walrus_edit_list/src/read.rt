//! An edit as its bytes say it: a byte, a size and so many bytes, read whole before anything is changed.

ghost use Rattle.std.specs.Prelude.{◌≡◌};
ghost use Rattle.wasm_forms.specs.Grammar.{at};
ghost use Rattle.wasm_forms.specs.Reading.{Gives};
ghost use Rattle.wasm_frames.specs.Steps.{content_at, section_record};
ghost use Rattle.walrus_edit_list.specs.Edits.{ClearsProducers, bringing_at, by_nothing, edit_at, edit_seen, is_added, other_said, producer_at, record_form, said};

use crate::edit::Edit;
use crate::numbers::{
    BRING, DELETE, FRONT, FUNCTION, NAME, NO_PRODUCERS, OF_CUSTOM, OF_DATA, OF_ELEMENT, OF_EXPORT,
    OF_GLOBAL, OF_IMPORT, OF_START, OF_TYPE, PRODUCER, SET,
};
use crate::read_names::{read_naming, read_two_names};
use crate::read_settings::{read_deletion, read_setting};
use std::alloc::Global;
use std::result;
use wasm_forms::{WireError, read_block, read_byte, read_name, read_u32};
use wasm_frames::{RawSection, read_content};

/// The byte and the payload of the record in front, and the bytes behind it.
#[tactic(auto, unfolding(crate::specs::Edits::record_form))]
fn read_record(bytes: &[u8]) -> result::Result<(u8, &[u8], &[u8]), WireError>
    ensures { Gives (λ r. ((r.0, r.1.now), r.2.now)) result (at record_form bytes.now) }
{
    let (number, behind) = read_byte(bytes)?;
    let (payload, rest) = read_block(behind)?;
    Ok((number, payload, rest))
}

/// Whether sections with this id are edits.
fn adds(number: u8) -> bool
    ensures { result ≡ is_added number }
{
    matches!(
        number,
        OF_CUSTOM | OF_TYPE | OF_IMPORT | OF_GLOBAL | OF_EXPORT | OF_START | OF_ELEMENT | OF_DATA
    )
}

/// What comes to be imported: 0, the function's id, and two names.
#[tactic(auto, unfolding(crate::specs::Edits::bringing_at))]
fn read_bringing(bytes: &[u8]) -> result::Result<Edit<'_>, WireError>
    ensures { Gives edit_seen result (bringing_at bytes.now) }
{
    let (kind, behind) = read_byte(bytes)?;
    let (id, names) = read_u32(behind)?;
    let (from, name) = read_two_names(names)?;
    if kind != 0 {
        return Err(WireError::Malformed);
    }
    Ok(Edit::BringFunction(id, from, name))
}

/// A producer: its field, its name and its version.
#[tactic(auto, unfolding(crate::specs::Edits::producer_at))]
fn read_producer(bytes: &[u8]) -> result::Result<Edit<'_>, WireError>
    ensures { Gives edit_seen result (producer_at bytes.now) }
{
    let (field, behind) = read_name(bytes)?;
    let (name, version) = read_two_names(behind)?;
    Ok(Edit::AddProducer(field, name, version))
}

/// All producers go: there are no bytes.
fn read_clearing(bytes: &[u8]) -> result::Result<Edit<'_>, WireError>
    ensures { Gives edit_seen result (by_nothing ClearsProducers bytes.now) }
{
    match bytes {
        [] => Ok(Edit::ClearProducers),
        _ => Err(WireError::Malformed),
    }
}

/// What a section lists. No place is told of it, since no bodies stand in it.
fn read_addition<'a>(
    alloc: Global,
    number: u8,
    payload: &'a [u8],
) -> result::Result<RawSection<'a>, WireError>
    ensures { Gives section_record result (content_at number 0 payload.now) }
{
    read_content(alloc, number, 0, payload)
}

/// What an edit that is no section says, by its byte and its payload.
#[tactic(auto, unfolding(crate::specs::Edits::other_said))]
fn read_other<'a>(
    alloc: Global,
    number: u8,
    payload: &'a [u8],
) -> result::Result<Edit<'a>, WireError>
    ensures { Gives edit_seen result (other_said number payload.now) }
{
    match number {
        FUNCTION => {
            let (ty, code) = read_u32(payload)?;
            Ok(Edit::AddFunction(ty, code))
        }
        SET => Ok(Edit::Set(read_setting(alloc, payload)?)),
        DELETE => Ok(Edit::Delete(read_deletion(payload)?)),
        BRING => read_bringing(payload),
        NAME => Ok(Edit::Name(read_naming(payload)?)),
        PRODUCER => read_producer(payload),
        NO_PRODUCERS => read_clearing(payload),
        FRONT => {
            let (function, operators) = read_u32(payload)?;
            Ok(Edit::Front(function, operators))
        }
        _ => Err(WireError::Malformed),
    }
}

/// What a record says, by its byte and its payload.
#[tactic(auto, unfolding(crate::specs::Edits::said))]
fn read_payload<'a>(
    alloc: Global,
    number: u8,
    payload: &'a [u8],
) -> result::Result<Edit<'a>, WireError>
    ensures { Gives edit_seen result (said (number, payload.now)) }
{
    if adds(number) {
        return Ok(Edit::Add(read_addition(alloc, number, payload)?));
    }
    read_other(alloc, number, payload)
}

/// The edit in front, and the bytes behind it.
///
/// # Errors
///
/// `Malformed` exactly where no record stands in front, or it doesn't say an edit; and `Memory`.
#[tactic(auto, unfolding(crate::specs::Edits::edit_at))]
pub fn read_edit<'a>(
    alloc: Global,
    bytes: &'a [u8],
) -> result::Result<(Edit<'a>, &'a [u8]), WireError>
    ensures { Gives (λ r. (edit_seen r.0, r.1.now)) result (edit_at bytes.now) }
{
    let (number, payload, rest) = read_record(bytes)?;
    let edit = read_payload(alloc, number, payload)?;
    Ok((edit, rest))
}
