//! Constant expressions, there and back: over indices, as the entries of sections hold them, and over ids
//! ("Binary Format > Instructions > Expressions", "Structure > Modules > Indices").
//!
//! Read first: `src/read.rt` (from indices to ids) and `specs/Named.antt` (an expression that is put through a look-up).
//! Main clause: `read_const` of `src/read.rt` promises `named_const`: each index is replaced by the place of its id.
//! `Malformed` comes exactly where an index isn't declared.
#![tactic(auto)]

mod heap;
mod law;
mod read;
mod write;

pub use law::{
    constants_are_renamed, constants_lack, constants_lead_back, constants_stay_in_place,
    data_meet_their_records, elements_meet_their_records, globals_meet_their_records,
    look_ups_rename, operators_have_one_record, segments_are_found, tables_meet_their_records,
};
pub use read::{read_const, read_consts, read_op};
pub use write::{raw_const, raw_consts, raw_op};
