//! What the verified WebAssembly module layer promises, in definitions, and the laws of these definitions, as functions with empty bodies.
//! The definitions stand in `specs/`: the abstract module, what refers to what, what gc keeps, renaming, and what comes out.
//! `docs/DEFINITIONS.md` of the repository leads through them.
//!
//! Read first: `specs/Abstract.antt` (what a module is) and `specs/Out.antt` (what comes out for a module).
//! Main clause: `reached_is_least` of `src/laws.rt` promises `IsLeast`: what is reached holds the roots and is closed under references.
//! It lies within every set that does both.
#![tactic(auto)]

mod family;
mod laws;
mod pipeline;

pub use family::{
    imports_bring, orders_are_made, orders_hold, plans_carry, plans_number, records_stand,
    rules_are_kept, spaces_agree,
};
pub use laws::{
    names_follow, reached_follows, reached_is_least, renamings_compose, shapes_are_kept,
    worked_examples,
};
pub use pipeline::collected_once;
