//! Tests of the program: worked modules byte for byte, reports, its words, and devices that fail.
//! And of modules that a program edits: added items with their imports, data segments, the start function.
//! Where a module can't be written, they test what gc and emission answer.
//!
//! Read first: `src/rows.rt` (worked modules in and out) and `src/edited.rt` (modules that emission refuses).
//! It has no clause of its own: its tests compare the bytes, reports, statuses and refusals with wanted ones.
#![tactic(auto)]

#[cfg(test)]
mod command;
#[cfg(test)]
mod customs;
#[cfg(test)]
mod data;
#[cfg(test)]
mod dead;
#[cfg(test)]
mod devices;
#[cfg(test)]
mod edited;
#[cfg(test)]
mod failing;
#[cfg(test)]
mod imported;
#[cfg(test)]
mod interrupted;
#[cfg(test)]
mod made;
#[cfg(test)]
mod reports;
#[cfg(test)]
mod rows;
#[cfg(test)]
mod segments;
#[cfg(test)]
mod start;
