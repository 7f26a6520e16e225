//! The contents of a module that bytes are ("Binary Format > Modules"): from bytes to records, and from records to items, which get their names.
//!
//! Read first: `src/module.rt` (reading all of it) and `specs/Parsed.antt` (what parsing gives, and when it refuses).
//! Main clause: `read` of `src/module.rt` promises `IsParsed`: the bytes read as a module that keeps the rules.
//! What is answered is that module in memory.
#![tactic(auto)]

mod bodies;
mod contents;
mod customs;
mod data;
mod elements;
mod exports;
mod faults;
mod functions;
mod globals;
mod imports;
mod input;
pub mod law;
mod memories;
mod module;
mod names;
pub mod names_law;
mod numbers;
mod producers;
mod renaming;
mod sink;
mod start;
mod synthetic;
mod tables;
mod tags;
mod types;
mod unread;

pub use faults::{Fault, first_fault};
pub use module::{ReadModule, read};
pub use names::add_names;
pub use sink::NameBounds;
pub use unread::unread_body;
