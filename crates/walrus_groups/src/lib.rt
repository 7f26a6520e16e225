//! The types of a module, there and back (Binary Format > Modules > Type Section).
//! On one side are groups over indices, as type sections list them, and on the other types by their ids.
//!
//! Read first: `src/read.rt` (from groups to types) and `specs/Groups.antt` (the types that groups are).
//! Main clause: `read_types` of `src/read.rt` promises `ReadsTypes`: just the types of these groups are added behind those that were there.
//! It answers `Malformed` only where a type names one behind its group, or has more than one supertype.
#![tactic(auto)]

mod order;
mod read;
mod write;

pub use order::are_in_order;
pub use read::read_types;
pub use write::{append_types, index_types};
