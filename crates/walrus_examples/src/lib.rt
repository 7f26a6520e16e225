//! Callers of the library that no program calls: each shows one thing that linkers, binding generators, instrumenters and bundlers do with it,
//! with its proof. docs/CALLING.md leads to them. Each goes from bytes to bytes or to values, and has a file of its name.
//!
//! Read first: `src/examples/shrink.rt` (a linker's last step) and `src/examples/count_calls.rt` (an instrumenter's).
//! Main clause: `shrink`, with `RunsOn` (walrus): what a run makes of known bytes, or why it refuses them.
#![tactic(auto)]

mod calls;
mod examples;
mod law;

pub use examples::count_calls::count_calls;
pub use examples::keep_listed::keep_listed;
pub use examples::moves::moves;
pub use examples::rename_export::rename_export;
pub use examples::shrink::shrink;
pub use examples::snip_export::snip_export;
pub use examples::stub_module::stub_module;
pub use examples::why_with_sizes::why_with_sizes;
pub use examples::with_export::with_export;
pub use examples::with_metadata::with_metadata;
pub use examples::with_places::with_places;
pub use law::moves_once;
