//! Why the program fails.

ghost use Rattle.std.specs.Prelude.{◌≡◌};
ghost use Rattle.wasm_copy.specs.Status.{status_of};

use std::alloc::AllocError;
use std::io;
use thiserror::Error;
use wasm_forms::WireError;

/// Why the program fails, as it says on standard error.
#[derive(Debug, Drop, Error)]
pub enum Failure {
    /// The program doesn't know the words.
    #[error("unknown word")]
    UnknownWord,
    /// The words find no memory.
    #[error("out of memory")]
    Memory(AllocError),
    /// Standard input isn't read.
    #[error("reading the input: {0}")]
    Input(io::Error),
    /// The input is no module, or memory ran out.
    #[error("reading the module: {0}")]
    Reading(WireError),
    /// The module breaks a rule, or memory ran out.
    #[error("checking the module: {0}")]
    Checking(WireError),
    /// Memory ran out.
    #[error("listing the names: {0}")]
    Listing(WireError),
    /// A size passes 32 bits, or memory ran out.
    #[error("writing the module: {0}")]
    Writing(WireError),
    /// The copy isn't read.
    #[error("reading the copy: {0}")]
    ReadingCopy(WireError),
    /// The copy reads as other records.
    #[error("the copy reads as other records")]
    Differs,
    /// Standard output isn't written.
    #[error("writing the output: {0}")]
    Output(io::Error),
}

impl Failure {
    /// The status that the program ends with.
    pub fn status(&self) -> u8
        ensures { result ≡ status_of self.now }
    {
        match self {
            Failure::UnknownWord => 2,
            Failure::ReadingCopy(WireError::Malformed) | Failure::Differs => 3,
            _ => 1,
        }
    }
}
