//! What the tests of this repository are written with: bytes as text, and ids of no module.
//! And how a test fails where something doesn't hold, or where bytes differ from the wanted ones.
//!
//! Read first: `src/demands.rt` (how tests fail) and `src/bytes.rt` (bytes as text).
//! It has no clause of its own: its functions compare what is found, as bytes or texts, with what is wanted.
#![tactic(auto)]

mod bytes;
mod demands;
mod ids;

pub use bytes::{add_bytes, are};
pub use demands::{bytes_of, demand, demand_bytes, is_name, is_text};
pub use ids::{first_id, second_id};
