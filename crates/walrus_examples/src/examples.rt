//! Callers that no program calls, each an example with its proof: docs/CALLING.md leads to them. A file has the name of its call.

pub mod count_calls;
pub mod keep_listed;
pub mod moves;
pub mod rename_export;
pub mod shrink;
pub mod snip_export;
pub mod stub_module;
pub mod why_with_sizes;
pub mod with_export;
pub mod with_metadata;
pub mod with_places;
