//! The plan by which a module is written ("Structure > Modules > Indices").
//! It is the order of its items in each index space and their indices, or why there is none.
//!
//! Read first: `src/prepared.rt` (making the plan) and `specs/Prepared.antt` (what holds of the plan and the indices).
//! Main clause: `prepare` of `src/prepared.rt` promises `IsPrepared`: it is a plan of the parts, and each item's index is its place there.
#![tactic(auto)]

mod by_import;
mod count;
mod matched;
mod origins;
mod plan;
mod prepared;
mod reads;

pub use origins::{global_import, tag_import};
pub use plan::Plan;
pub use prepared::{Prepared, prepare};
