//! Tests of the crates that modules are built from, above bytes, and of the collections.
//! Each call that takes memory is made once, where it succeeds. Functions that bodies name and nothing declares are found.
//!
//! Read first: `src/held.rt` (what all collections do alike) and `src/ir.rt` (bodies).
//! Main clause: `scanned` in `src/ir.rt`, with `AreInPlace` (walrus_bodies): each index below its count is the place of its item.
//! Nothing else has a clause: the tests compare what calls answer with what was worked out by hand.
#![tactic(auto)]

#[cfg(test)]
mod added;
#[cfg(test)]
mod base;
#[cfg(test)]
mod bodies;
#[cfg(test)]
mod exports;
#[cfg(test)]
mod functions;
#[cfg(test)]
mod held;
#[cfg(test)]
mod imports;
#[cfg(test)]
mod ir;
#[cfg(test)]
mod parts;
#[cfg(test)]
mod producers_held;
#[cfg(test)]
mod references;
#[cfg(test)]
mod segments;
