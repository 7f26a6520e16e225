//! Calls that a file each is named for.

pub mod fits;
pub mod section_parts;
pub mod sections;
pub mod strip;
