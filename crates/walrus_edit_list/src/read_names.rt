//! Names in the payloads of edits.

ghost use Rattle.std.specs.Prelude.{option_map};
ghost use Rattle.wasm_forms.specs.Grammar.{name, ◌then◌};
ghost use Rattle.wasm_forms.specs.Reading.{Gives};
ghost use Rattle.wasm_frames.specs.Steps.{whole};
ghost use Rattle.walrus_edit_list.specs.Edits.{given_at, naming_at, naming_seen};

use crate::edit::Naming;
use crate::numbers::{
    OF_DATA, OF_ELEMENT, OF_FUNCTION, OF_GLOBAL, OF_MEMORY, OF_MODULE, OF_TABLE, OF_TAG, OF_TYPE,
};
use std::result;
use wasm_forms::{WireError, read_byte, read_name, read_u32};

/// The name that all of these bytes are.
#[tactic(auto, unfolding(wasm_frames::specs::Steps::whole))]
fn read_only_name(bytes: &[u8]) -> result::Result<&str, WireError>
    ensures { Gives (λ n. n.now) result (whole name bytes.now) }
{
    let (text, rest) = read_name(bytes)?;
    match rest {
        [] => Ok(text),
        _ => Err(WireError::Malformed),
    }
}

/// The two names that all of these bytes are.
#[tactic(auto, unfolding(wasm_frames::specs::Steps::whole))]
pub(crate) fn read_two_names(bytes: &[u8]) -> result::Result<(&str, &str), WireError>
    ensures { Gives (λ n. (n.0.now, n.1.now)) result (whole (name then name) bytes.now) }
{
    let (first, behind) = read_name(bytes)?;
    let (second, rest) = read_name(behind)?;
    match rest {
        [] => Ok((first, second)),
        _ => Err(WireError::Malformed),
    }
}

/// The name that all of these bytes are, or none where there are no bytes.
#[tactic(auto, unfolding(crate::specs::Edits::given_at))]
fn read_given(bytes: &[u8]) -> result::Result<Option<&str>, WireError>
    ensures { Gives (λ o. option_map (λ n. n.now) o) result (given_at bytes.now) }
{
    match bytes {
        [] => Ok(None),
        _ => Ok(Some(read_only_name(bytes)?)),
    }
}

/// What gets a name: what it is, its id, and the name, or nothing where it loses it.
#[tactic(auto, unfolding(crate::specs::Edits::naming_at, crate::specs::Edits::named))]
pub(crate) fn read_naming(bytes: &[u8]) -> result::Result<Naming<'_>, WireError>
    ensures { Gives naming_seen result (naming_at bytes.now) }
{
    let (what, behind) = read_byte(bytes)?;
    let (id, rest) = read_u32(behind)?;
    let given = read_given(rest)?;
    match what {
        OF_TYPE => Ok(Naming::Type(id, given)),
        OF_TABLE => Ok(Naming::Table(id, given)),
        OF_MEMORY => Ok(Naming::Memory(id, given)),
        OF_GLOBAL => Ok(Naming::Global(id, given)),
        OF_ELEMENT => Ok(Naming::Element(id, given)),
        OF_FUNCTION => Ok(Naming::Function(id, given)),
        OF_DATA => Ok(Naming::Data(id, given)),
        OF_TAG => Ok(Naming::Tag(id, given)),
        OF_MODULE if id == 0 => Ok(Naming::Module(given)),
        _ => Err(WireError::Malformed),
    }
}
