//! Operators as they stand in bytes (Binary Format > Instructions).
//! Marks show where an argument names something or isn't in its one shortest spelling.
//! A scan leaves out those of locals and of accesses to memory 0 that are copied as they stand, and flags what these name (`specs/Unmarked.antt`).
//!
//! Read first: `specs/Marks.antt` (marks, and bytes with other arguments in their place) and `src/append.rt` (appending bytes with new numbers).
//! Main clause: `append_filled` of `src/append.rt` promises `Fills`: true says that each argument at a mark has a new number.
//! The bytes with these then stand behind what was there. False says that an argument has none.
#![tactic(auto)]

mod append;
mod class;
mod law;
mod limits;
mod mark;
mod places;
mod renumbering;
mod scan;
mod unmarked;

pub use append::{append_filled, read_at_mark};
pub use law::{
    filled_behind_filled, filled_operators_are_renamed, held_behind_held,
    lacking_marks_are_of_operators, nothing_is_held, operator_behind_held, runs_are_copied,
    scanned_behind_held, small_numbers_stand, standing_indices_are_read, standing_numbers_are_read,
};
pub use limits::Limits;
pub use mark::{
    MARK_ACCESS, MARK_BLOCK, MARK_FUNCTION, MARK_GLOBAL, MARK_LOCAL, MARK_MEMORY, MARK_NUMBER,
    MARK_S32, MARK_S64, MARK_TABLE, MARK_TYPE,
};
pub use places::{NO_PLACE, number_at, past_number, past_s32, past_s64, past_u64, rest_from};
pub use renumbering::{NO_NUMBER, Numbers};
pub use scan::scan_body;
pub use unmarked::Unmarked;
