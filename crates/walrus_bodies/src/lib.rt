//! Function bodies (Binary Format > Modules > Code Section, Binary Format > Instructions), read and written as lists of operators.
//! A plain body is kept as its bytes in the input with marks, and read, walked and written without a list.
//! No crate above looks inside a function.
//!
//! Read first: `src/body.rt` (reading a body) and `specs/Body.antt` (which bytes are a body of these operators).
//! Main clause: `read_body_over` of `src/body.rt` promises `ReadsBody`: the bytes are a body of these operators.
//! Its declared locals are added to the module's. It answers `Malformed` only where the bytes are no body.
#![tactic(auto)]

mod added;
mod block_types;
mod blocks;
mod body;
mod calls;
mod declarations;
mod emit;
mod features;
mod function;
mod lent;
mod limits;
mod listed;
mod locals;
mod names;
mod operators;
mod pieces;
mod place;
mod plain_code;
mod range;
mod read;
mod scan;
mod text;
mod types;
mod write;

pub use added::{add_declared, add_types};
pub use blocks::{OpenBlocks, Opened};
pub use body::{ReadBody, read_body_over};
pub use declarations::{Declaration, first_ranked, read_declarations};
pub use emit::{append_operators, emit_operators};
pub use features::Features;
pub use function::LocalFunction;
pub use lent::Operators;
pub use limits::limits_of;
pub use plain_code::PlainCode;
pub use read::read_operators;
pub use scan::ScanRoom;
pub use text::Text;
pub use types::{FunctionTypes, blocks_hold};
