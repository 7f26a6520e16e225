//! The records of a WebAssembly module, over all sections, and reading them (Binary Format > Modules).
//!
//! Read first: `src/read.rt` (reading a module) and `specs/Frames.antt` (which bytes are a module that holds these records).
//! Main clause: `read_module` of `src/read.rt` promises `Frames`: the bytes are the header, and behind it sections that hold just these records.
//! If bytes frame a record, the answer is that one, unless memory runs out.
#![tactic(auto)]

mod code;
mod custom;
mod pieces;
mod read;
mod record;
mod section;
mod spell;
mod tag;

pub use pieces::{Pieced, RawPiece, one_row, pieces_until};
pub use read::{Framed, framed_until, one_place, one_record, read_module};
pub use record::{Raw, RawBody, RawCustom};
pub use section::{RawSection, read_content};
