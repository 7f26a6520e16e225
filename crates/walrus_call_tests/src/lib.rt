//! Tests of the library as its users call it: modules that are read and built, items of each space, and what is used.
//! And of locals that aren't there, and of a function of another module.
//!
//! Read first: `src/library.rt` (reading, dropping and writing) and `src/modules.rt` (modules that are built).
//! It has no clause of its own: its tests compare the answers of calls, and the bytes that are written, with wanted ones.
#![tactic(auto)]

#[cfg(test)]
mod chains;
#[cfg(test)]
mod checked;
#[cfg(test)]
mod counted;
#[cfg(test)]
mod crossed;
#[cfg(test)]
mod exchanged;
#[cfg(test)]
mod hooks;
#[cfg(test)]
mod library;
#[cfg(test)]
mod locals;
#[cfg(test)]
mod made;
#[cfg(test)]
mod modules;
#[cfg(test)]
mod producers;
#[cfg(test)]
mod replaced;
#[cfg(test)]
mod spaces;
