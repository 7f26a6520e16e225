//! The payloads of the custom sections `name` (Appendix > Custom Sections > Name Section) and `producers` (tool-conventions).
//! They are read up to the first fault, which refuses nothing, and written.
//!
//! Read first: `specs/Names.antt` (what a name section says) and `src/names.rt` (reading one).
//! Main clause: `read_names` of `src/names.rt` promises `Names`: the sink is handed just the namings that stand whole before the first fault.
//! Only the sink can refuse; it was handed a front of them then.
#![tactic(auto, using(wasm_forms::proofs::Keeping::keeps_on))]

mod front;
mod names;
mod naming;
mod producers;
mod sink;
mod spell_names;
mod spell_producers;

pub use names::{names_once, read_names};
pub use naming::{NameSpace, Naming};
pub use producers::{RawField, fields_once, read_producers};
pub use sink::NameSink;
pub use spell_names::{RawLocals, RawName, RawNames, write_names};
pub use spell_producers::write_producers;
