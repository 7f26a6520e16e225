//! Tests of the crates that read and write bytes, up to `wasm_wire`: each call that takes memory, once, where it succeeds.
//! And of `wasm_text`: each public function where it succeeds, and operators that aren't scanned.
//!
//! Read first: `src/wire_rows.rt` (worked modules in bytes) and `src/wire.rt` (modules of many sections, read, checked and written back).
//! It has no clause of its own: its tests compare what is read or written with bytes known beforehand.
#![tactic(auto)]

#[cfg(test)]
mod appended;
#[cfg(test)]
mod entries;
#[cfg(test)]
mod forms;
#[cfg(test)]
mod measures;
#[cfg(test)]
mod names;
#[cfg(test)]
mod names_written;
#[cfg(test)]
mod pieces;
#[cfg(test)]
mod places;
#[cfg(test)]
mod producers;
#[cfg(test)]
mod producers_written;
#[cfg(test)]
mod scans;
#[cfg(test)]
mod told;
#[cfg(test)]
mod wire;
#[cfg(test)]
mod wire_calls;
#[cfg(test)]
mod wire_rows;
