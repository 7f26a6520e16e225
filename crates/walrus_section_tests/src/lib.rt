//! Tests of custom sections of a caller's own, and of names.
//! Names are read with a module, given by a program, or made of indices.
//! And of element segments that a program adds, also in the sets of their tables.
//!
//! Read first: `src/noted.rt` (a section of a caller's own) and `src/sections.rt` (what such sections keep, and what is written).
//! It has no clause of its own: its tests compare the bytes that are written, the names, and the refusals with wanted ones.
#![tactic(auto)]

#[cfg(test)]
mod elements;
#[cfg(test)]
mod followed;
pub mod follower;
#[cfg(test)]
mod found_names;
#[cfg(test)]
mod given_names;
#[cfg(test)]
mod made;
#[cfg(test)]
mod made_names;
#[cfg(test)]
mod made_segments;
#[cfg(test)]
mod names;
pub mod noted;
#[cfg(test)]
mod raw;
#[cfg(test)]
mod sections;
#[cfg(test)]
mod sets;
#[cfg(test)]
mod transform;
