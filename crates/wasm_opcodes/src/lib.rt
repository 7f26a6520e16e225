//! The opcodes of instructions by name, and the bytes that types begin with (Binary Format > Instructions, Types).
//! It stands on no other crate.
//!
//! Read first: `src/opcodes.rt` (all operators by their names) and `specs/Prefixed.antt` (the number of an operator that has a prefix byte).
//! Main clause: `behind` of `src/opcode.rt` promises `opcode_behind`: the prefix byte times 65,536, and the number behind it.
#![tactic(auto)]

mod aggregates;
mod atomics;
pub mod behind_fb;
pub mod behind_fc;
pub mod behind_fd;
mod bulk;
pub mod one_byte;
mod opcode;
pub mod opcodes;
pub mod types;
mod vectors;

pub use opcode::behind;
