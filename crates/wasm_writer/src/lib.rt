//! Measuring and writing the bytes of a WebAssembly module, over all sections (Binary Format > Modules).
//!
//! Read first: `src/writer.rt` (a call for each section) and `specs/Spelling.antt` (the one spelling of each section).
//! Main clause: `written_frames` of `src/writer.rt`, a law, promises `WrittenFrames`: what is spelled reads back.
//! The header, and behind it sections that can be written, are framed as the module that holds them.
#![tactic(auto)]

mod composite;
mod constant;
mod entry;
mod limits;
mod measuring;
mod number;
mod places;
mod segment;
mod sum;
mod tag;
mod type_lens;
mod vector;
mod writer;

pub use composite::{measured_composite, measured_group, measured_groups, measured_signature};
pub use constant::{const_len, measured_expression, measured_expressions};
pub use entry::measured_desc;
pub use limits::{global_type_len, measured_limits, measured_table_type};
pub use measuring::{Section, measure, measure_code};
pub use number::{index_len, integer_len, number_len};
pub use places::{CodePlaces, places_of_code};
pub use sum::plus;
pub use type_lens::{field_len, heap_len, reference_len, storage_len, value_len};
pub use vector::{Measured, counted_len, measured_block, measured_name, measured_vector};
pub use writer::{Writer, written_frames};
