//! What tests are written with that run the program, or that edit modules.
//! There are rows of what goes in and comes out, functions and references to add, and what a module shows.
//!
//! Read first: `src/rows.rt` (tables of inputs and outputs) and `src/listing.rt` (what a module shows, as text).
//! It has no clause of its own: its functions compare bytes, and a module with what it showed before.
#![tactic(auto)]

mod listing;
mod modules;
mod program;
mod rows;

pub use listing::{is_as_before, shown};
pub use modules::{add_function, demand_output, listed, reference};
pub use program::{Outcome, ended, is_invalid, refused, run, words_of};
pub use rows::{
    demand_comes_out, each_comes_out, each_comes_out_by, each_is_refused_by, each_stays_by,
};
