//! What works on whole modules.

mod asked;
pub mod gc;
mod marks;
pub mod used;
pub mod why;
mod worklist;

pub use used::Used;
pub use walrus_module::Roots;
