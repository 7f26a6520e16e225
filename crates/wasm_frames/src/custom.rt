//! Reading custom sections (Binary Format > Modules > Custom Section).

ghost use Rattle.wasm_forms.specs.Reading.{Gives};
ghost use Rattle.wasm_frames.specs.Record.{custom_record};
ghost use Rattle.wasm_frames.specs.Steps.{custom_at};

use crate::record::RawCustom;
use wasm_forms::{WireError, read_name};

/// The custom section whose content these bytes are.
#[tactic(auto, unfolding(crate::specs::Steps::custom_at))]
pub fn read_custom(bytes: &[u8]) -> Result<RawCustom<'_>, WireError>
    ensures { Gives custom_record result (custom_at bytes.now) }
{
    let (name, rest) = read_name(bytes)?;
    Ok(RawCustom { name, bytes: rest })
}
