//! Whole functions, read from and written to the binary format (Binary Format > Modules > Code Section).
//! These are parameters, declared locals, operators, and the types of legacy exception handlers.
//!
//! Read first: `src/read.rt` (reading a function) and `specs/ReadFunction.antt` (what is answered then).
//! Main clause: `read_body` of `src/read.rt` promises `ReadsFunction`: the bytes are a body of the function's operators.
//! Its parameters and declared locals are added to the module's. It answers `Malformed` only where the bytes are no body.
#![tactic(auto)]

mod alike;
mod append;
mod blocks;
mod code;
mod declared;
mod emit;
mod groups;
mod handlers;
mod kept;
mod law;
mod lowest;
mod marks;
mod plain;
mod ranked;
mod read;
mod signatures;
mod tag_and_try;
mod taken;

pub use append::{AppendedBody, append_body};
pub use code::likely_length;
pub use emit::{EmittedBody, emit_body, emit_body_with};
pub use handlers::HandlerTypes;
pub use law::{bodies_read_once, declared_in_one_order, locals_move, unwritable_is_ill_formed};
pub use plain::scan_body;
pub use read::{add_locals, read_body, read_body_with};
