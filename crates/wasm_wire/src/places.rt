//! Where the parts of the code section stand in a module, told before one of its bytes is written.

ghost use Rattle.std.specs.Prelude.{[], ◌∷◌, All, length, map};
ghost use Rattle.wasm_frames.specs.Record.{sections, custom_record};
ghost use Rattle.wasm_frames.specs.Frames.{CustomSection};
ghost use Rattle.wasm_writer.specs.Spelling.{SectionFits};
ghost use Rattle.wasm_wire.specs.declared.written.CustomGroup.TheVariants.{Dylink};
ghost use Rattle.wasm_wire.specs.ModuleSpelling.{TellsPlaces};
ghost use Rattle.wasm_wire.specs.ModuleWriting.{group_spelled, TellsLen};

use crate::written::{CustomGroup, before_code_len, custom_len, sections_len, total_len};
use std::alloc::{AllocError, Global};
use wasm_forms::WireError;
use wasm_frames::{Raw, RawCustom};
use wasm_writer::{CodePlaces, places_of_code};

/// How many bytes of a custom section stand in front of what isn't custom: all or none.
fn dylink_len(custom: &RawCustom<'_>) -> Result<usize, WireError>
    ensures { TellsLen result (length (group_spelled Dylink (custom_record custom.now ∷ [])))
        (SectionFits (CustomSection (custom_record custom.now))) }
{
    let len = custom_len(custom)?;
    if CustomGroup::Dylink.has(custom.name) {
        Ok(len)
    } else {
        Ok(0)
    }
}

/// How many bytes the custom sections of dynamic linking have, as far as a `usize` can tell it.
fn dylinks_len(customs: &[RawCustom<'_>]) -> Result<usize, WireError>
    ensures { TellsLen result (length (group_spelled Dylink (map custom_record customs.now)))
        (All (λ c. SectionFits (CustomSection c)) (map custom_record customs.now)) }
{
    let mut total: usize = 0;
    'customs: for custom in customs {
        let len = dylink_len(custom)?;
        total = total.saturating_add(len);
    }
    Ok(total)
}

/// Where the parts of the code section stand in the bytes that [`crate::written_module`] gives for these records, in bytes from the start
/// of the module. The sections are measured alone: none of these bytes is written (Binary Format > Modules > Code Section).
///
/// # Errors
///
/// `TooLarge` exactly where [`crate::written_module`] answers it: where a count, a size or a limit of 32 bits in some section is 2^32 or
/// more. Else `Memory`, also where 2^63 bytes or more stand in front of the code section, since no memory holds these.
pub fn code_places(alloc: Global, raw: &Raw<'_>) -> Result<CodePlaces, WireError>
    ensures { TellsPlaces result (sections raw.now) }
{
    sections_len(raw)?;
    let dylinks = dylinks_len(&raw.customs)?;
    let before = before_code_len(raw)?;
    let start = total_len(&[8, dylinks, before]);
    if start >= 1 << 63 {
        return Err(WireError::Memory(AllocError));
    }
    places_of_code(alloc, start, &raw.bodies)
}
