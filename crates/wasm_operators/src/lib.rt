//! Operators as bytes spell them (Binary Format > Instructions): their table, read and written one by one.
//!
//! Read first: `specs/Table.antt` (all operators and the kinds of their arguments) and `specs/Forms.antt` (what they look like in bytes).
//! Main clause: `read_operator` of `src/read.rt` promises `operator`: a text of this form stands in front, with this operator and this rest.
//! It answers `Malformed` only where none stands there.
#![tactic(auto)]

mod argument;
mod held;
mod kind;
mod law;
mod list;
mod operator;
mod read;
mod shape;
mod standing;
mod table;
mod write;

pub use held::operator_is_held;
pub use kind::Kind;
pub use law::{one_operator, operator_spelling_stands, read_operators_stand};
pub use operator::{RawArg, RawArgs, RawBlock, RawOperator};
pub use read::read_operator;
pub use standing::is_operator;
pub use table::kinds;
pub use write::{memory_of, write_operator};
