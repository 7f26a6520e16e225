//! What a module contains: its parts, what its items name, and whether all that is named is there ("Structure > Modules").
//!
//! Read first: `src/parts.rt` (the parts of a module) and `specs/View.antt` (these parts as an abstract module).
//! Main clause: `check_live` of `src/live.rt` promises `HasDead`, a word of `../walrus_model/specs/Dead.antt`.
//! On Ok nothing that is named is missing. `DeadItem` comes only where something is missing, or a function is uninitialised.
#![tactic(auto)]

mod initialisers;
mod live;
mod names;
mod parts;
mod references;

pub use live::check_live;
pub use names::{push_item_names, push_other_roots, push_root_names, push_written_names};
pub use parts::{Contents, Parts, is_live};
pub use references::undeclared_functions;
