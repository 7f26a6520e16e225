//! What edits write anew, and what they delete.

ghost use Rattle.wasm_forms.specs.Grammar.{U32};
ghost use Rattle.wasm_forms.specs.Reading.{Gives};
ghost use Rattle.wasm_frames.specs.Steps.{whole};
ghost use Rattle.walrus_edit_list.specs.Edits.{DeletesStart, by_nothing, deletion_at, deletion_of, deletion_seen, setting_at, setting_of, setting_seen};

use crate::edit::{Deletion, Replacement};
use crate::numbers::{
    OF_CUSTOM, OF_DATA, OF_ELEMENT, OF_EXPORT, OF_FUNCTION, OF_GLOBAL, OF_IMPORT, OF_MEMORY,
    OF_START,
};
use crate::read_names::read_two_names;
use std::alloc::Global;
use std::result;
use wasm_forms::{Element, WireError, read_byte, read_u32};

/// The one entry that all of these bytes are.
#[tactic(auto, unfolding(wasm_frames::specs::Steps::whole))]
fn read_only<'a, E: Element<'a> + Drop>(
    alloc: Global,
    bytes: &'a [u8],
) -> result::Result<E, WireError>
    ensures { Gives E.view result (whole E.form bytes.now) }
{
    let (entry, rest) = E::read(alloc, bytes)?;
    match rest {
        [] => Ok(entry),
        _ => Err(WireError::Malformed),
    }
}

/// What that with this id is to be, all of these bytes.
#[tactic(auto, unfolding(crate::specs::Edits::setting_of))]
fn read_entry<'a>(
    alloc: Global,
    what: u8,
    id: u32,
    bytes: &'a [u8],
) -> result::Result<Replacement<'a>, WireError>
    ensures { Gives setting_seen result (setting_of what id bytes.now) }
{
    match what {
        OF_CUSTOM => Ok(Replacement::Custom(id, bytes)),
        OF_IMPORT => {
            let (from, name) = read_two_names(bytes)?;
            Ok(Replacement::Import(id, from, name))
        }
        OF_MEMORY => Ok(Replacement::Memory(id, read_only(alloc, bytes)?)),
        OF_GLOBAL => Ok(Replacement::Global(id, read_only(alloc, bytes)?)),
        OF_EXPORT => Ok(Replacement::Export(id, read_only(alloc, bytes)?)),
        OF_FUNCTION => Ok(Replacement::Function(id, bytes)),
        OF_DATA => Ok(Replacement::Data(id, read_only(alloc, bytes)?)),
        _ => Err(WireError::Malformed),
    }
}

/// What is written anew: what it is, its id, and what it is to be.
#[tactic(auto, unfolding(crate::specs::Edits::setting_at))]
pub(crate) fn read_setting<'a>(
    alloc: Global,
    bytes: &'a [u8],
) -> result::Result<Replacement<'a>, WireError>
    ensures { Gives setting_seen result (setting_at bytes.now) }
{
    let (what, behind) = read_byte(bytes)?;
    let (id, entry) = read_u32(behind)?;
    read_entry(alloc, what, id, entry)
}

/// The id that all of these bytes are.
#[tactic(auto, unfolding(wasm_frames::specs::Steps::whole))]
fn read_id(bytes: &[u8]) -> result::Result<u32, WireError>
    ensures { Gives (λ n. n) result (whole U32 bytes.now) }
{
    let (id, rest) = read_u32(bytes)?;
    match rest {
        [] => Ok(id),
        _ => Err(WireError::Malformed),
    }
}

/// The start goes: there are no bytes.
fn read_start(bytes: &[u8]) -> result::Result<Deletion, WireError>
    ensures { Gives deletion_seen result (by_nothing DeletesStart bytes.now) }
{
    match bytes {
        [] => Ok(Deletion::Start),
        _ => Err(WireError::Malformed),
    }
}

/// What goes: its id, but the start has none.
#[tactic(auto, unfolding(crate::specs::Edits::deletion_of))]
fn read_gone(what: u8, bytes: &[u8]) -> result::Result<Deletion, WireError>
    ensures { Gives deletion_seen result (deletion_of what bytes.now) }
{
    match what {
        OF_START => read_start(bytes),
        OF_CUSTOM => Ok(Deletion::Custom(read_id(bytes)?)),
        OF_EXPORT => Ok(Deletion::Export(read_id(bytes)?)),
        OF_ELEMENT => Ok(Deletion::Element(read_id(bytes)?)),
        OF_DATA => Ok(Deletion::Data(read_id(bytes)?)),
        _ => Err(WireError::Malformed),
    }
}

/// What goes: what it is, and its id.
#[tactic(auto, unfolding(crate::specs::Edits::deletion_at))]
pub(crate) fn read_deletion(bytes: &[u8]) -> result::Result<Deletion, WireError>
    ensures { Gives deletion_seen result (deletion_at bytes.now) }
{
    let (what, behind) = read_byte(bytes)?;
    read_gone(what, behind)
}
