//! What a module's parts are written as ("Binary Format > Modules").
//! That is the records of their sections under a plan of them, their names, and the bytes of these.
//!
//! Read first: `src/write.rt` (writing all of it) and `specs/Emitted.antt` (what is written, and when it is refused).
//! Main clause: `write_prepared` of `src/write.rt` promises `EmitsParts`: the bytes are the one spelling of the module that the parts are written as.
//! Where it is well made and nothing is undeclared, they read as it. The code transform, where it is asked for, is that of these bytes.
#![tactic(auto)]

mod behind;
mod bodies;
mod by_section;
mod code;
mod customs;
mod data;
mod elements;
mod exports;
mod functions;
mod globals;
mod imports;
mod joined;
mod law;
mod locals;
mod located;
mod memories;
mod names;
mod offsets;
mod one_section;
mod producers;
mod room;
mod start;
mod tables;
mod tags;
mod transform;
mod types;
mod write;

pub use law::one_transform;
pub use locals::push_local_names;
pub use names::{first_index, names_payload};
pub use transform::code_transform;
pub use write::{Choices, write_prepared};
