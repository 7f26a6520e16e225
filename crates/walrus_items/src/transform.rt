//! What emission tells of the places in the bytes that it wrote.

use std::ops::Range;
use walrus_base::FunctionId;
use walrus_code::InstrLocId;

/// What emission tells of the places in the bytes that it wrote; places count from the front of those bytes.
#[derive(Drop)]
pub struct CodeTransform {
    /// The place of each local function's body, behind its size, by rising id ("Binary Format > Code Section").
    pub function_ranges: Vec<(FunctionId, Range<usize>)>,
    /// The place of the code section's count of functions, or 0 where there is none.
    pub code_section_start: usize,
    /// The last place of each location, by rising location.
    pub instruction_map: Vec<(InstrLocId, usize)>,
}
