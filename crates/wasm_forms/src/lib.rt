//! The values of WebAssembly's binary format (Binary Format > Conventions, Values): numbers, blocks, names and vectors, read and written.
//! And the language of forms, in which the contracts of the crates above state the rest of the grammar.
//!
//! Read first: `specs/Grammar.antt` (forms, and which bytes are a text of one) and `src/vector.rt` (a reader that is held to a form).
//! Main clause: `read_vector` of `src/vector.rt` promises `Reads`: a text of the form stands in front, with this value and this rest.
//! It answers `Malformed` only where none stands there.
#![tactic(auto)]

mod block;
mod byte;
mod error;
mod float;
mod law;
mod number;
mod types;
mod vector;
mod write;

pub use block::{read_block, read_bytes, read_name};
pub use byte::read_byte;
pub use error::WireError;
pub use float::{read_f32, read_f64};
pub use law::{
    Formed, block_spelling_stands, f32_spelling_stands, f64_spelling_stands, form_has_one_reading,
    form_is_exact, heap_spelling_stands, index_spelling_stands, name_spelling_stands,
    reference_spelling_stands, s32_spelling_stands, s64_spelling_stands, u32_spelling_stands,
    u64_spelling_stands, value_spelling_stands,
};
pub use number::{read_index_from, read_s32, read_s64, read_u32, read_u64};
pub use types::{
    RawHeap, RawRef, RawVal, read_heap_type, read_reference_from, read_reference_type,
    read_value_from, read_value_type, write_heap_type, write_reference_type,
};
pub use vector::{Element, read_vector, room_for};
pub use write::{
    Written, leb128_len, write_block, write_f32, write_f64, write_index, write_name, write_s32,
    write_s64, write_u32, write_u64, write_vector,
};
