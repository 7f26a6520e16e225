//! Tests of `walrus_base`, `walrus_code`, `walrus_constants` and `walrus_ir`: each call that takes memory, once, where it succeeds.
//! And of `wasm_operators`: operators of each kind of argument, known from the standard and from other encoders.
//!
//! Read first: `src/operators.rt` (operators over ids and over indices) and `src/raw_operators.rt` (operators read and written back).
//! It has no clause of its own: its tests compare operators, types and constants with what was given, and with known bytes.
#![tactic(auto)]

#[cfg(test)]
mod builders;
#[cfg(test)]
mod constants;
#[cfg(test)]
mod indices;
#[cfg(test)]
mod operators;
#[cfg(test)]
mod raw_operators;
#[cfg(test)]
mod types;
