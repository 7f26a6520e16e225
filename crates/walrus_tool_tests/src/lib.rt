//! Tests of `walrus_tools` and `walrus_examples`: each call on a small module whose bytes were worked out by hand, and on bytes that it refuses.
//! And what no clause says: that its definitions mean what people take them for.
//!
//! Read first: `src/samples.rt` (the callers) and `src/choice_samples.rt` (names with stars).
//! It has no clause of its own: its tests compare what the calls answer with wanted bytes and texts.
#![tactic(auto)]

#[cfg(test)]
mod beginnings;
#[cfg(test)]
mod choice_samples;
#[cfg(test)]
mod chosen_samples;
#[cfg(test)]
mod list_samples;
#[cfg(test)]
mod reason_samples;
#[cfg(test)]
mod samples;
#[cfg(test)]
mod section_samples;
#[cfg(test)]
mod snip_samples;
#[cfg(test)]
mod stub_samples;
#[cfg(test)]
mod weigh_samples;
