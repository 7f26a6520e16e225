//! What made a module: the producers section in memory (tool-conventions, "Producers Section").
//!
//! Read first: `src/producers.rt` (the fields, and the calls that add values; `src/fields.rt` and `src/values.rt` find one by its name) and
//! `specs/Producers.antt` (what adding a value makes of them).
//! Main clause: `add_processed_by` of `src/producers.rt` promises `Adds`: the value stands in the first field of that name.
//! It replaces the first value of its own name there, or goes last. Where memory runs out, nothing changes.
#![tactic(auto)]

mod fields;
mod producers;
mod values;

pub use producers::{ModuleProducers, ProducerField, ProducerValue};
