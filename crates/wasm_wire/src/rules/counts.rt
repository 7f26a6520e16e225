//! How many items a module declares.

ghost use Rattle.std.specs.Prelude.{◌≡◌, ◌<◌};
ghost use Rattle.wasm_frames.specs.Record.{sections};
ghost use Rattle.wasm_wire.specs.Broken.{CountsHold};
ghost use Rattle.wasm_wire.specs.Rules.{CountHolds, Checks};

use wasm_forms::WireError;
use wasm_frames::Raw;

/// How many items of each kind a module declares, imported ones among them, and how many imported globals.
#[derive(Clone, Copy, Debug)]
pub struct Counts {
    pub types: usize,
    pub functions: usize,
    pub tables: usize,
    pub memories: usize,
    pub globals: usize,
    pub tags: usize,
    pub imported_globals: usize,
}

/// Whether this index names one of so many items.
pub fn check_below(index: u32, count: usize) -> Result<(), WireError>
    ensures { Checks result (index < count) }
{
    if index as usize >= count {
        return Err(WireError::Malformed);
    }
    Ok(())
}

/// Whether two numbers are one.
fn check_same(a: usize, b: usize) -> Result<(), WireError>
    ensures { Checks result (a ≡ b) }
{
    if a == b {
        Ok(())
    } else {
        Err(WireError::Malformed)
    }
}

/// Whether a data count is that of the data segments (Validation > Modules, data count section).
fn check_count(segments: usize, count: Option<u32>) -> Result<(), WireError>
    ensures { Checks result (CountHolds segments count) }
{
    match count {
        None => Ok(()),
        Some(wanted) => check_same(wanted as usize, segments),
    }
}

/// Whether there are as many bodies as functions, and as many data segments as a data count says.
pub fn check_counts(raw: &Raw<'_>) -> Result<(), WireError>
    ensures { Checks result (CountsHold (sections raw.now)) }
{
    check_same(raw.bodies.len(), raw.functions.len())?;
    check_count(raw.data_.len(), raw.data_count)
}
