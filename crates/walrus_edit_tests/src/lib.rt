//! Tests of `walrus_edits`: lists of edits of each kind on small modules whose bytes were worked out by hand, what is refused of them, and the items
//! that are told of a module.
//!
//! Read first: `src/edit_samples.rt` (edits, and what they make).
//! It has no clause of its own: its tests compare what the calls answer with wanted bytes.
#![tactic(auto)]

#[cfg(test)]
mod edit_samples;
#[cfg(test)]
mod item_samples;
#[cfg(test)]
mod refusal_samples;
