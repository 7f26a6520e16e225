//! Running the program, and looking at what it answered and wrote.

use std::alloc::{AllocError, Global};
use walrus::tool::{FromRead, FromWrite, command};

/// What a run of the program answered and wrote.
#[derive(Drop)]
pub struct Outcome {
    pub status: u8,
    pub output: Vec<u8>,
    pub errors: Vec<u8>,
}

/// Runs the program on these words and these bytes.
pub fn run(alloc: Global, words: &[String], input: &[u8]) -> Outcome {
    let mut output = Vec::new(alloc);
    let mut errors = Vec::new(alloc);
    let status = command(
        alloc,
        words,
        &mut FromRead::new(input),
        &mut FromWrite::new(&mut output),
        &mut FromWrite::new(&mut errors),
    );
    Outcome {
        status,
        output,
        errors,
    }
}

/// Whether a run ended with this status and told this.
pub fn ended(outcome: &Outcome, status: u8, told: &str) -> bool {
    outcome.status == status && outcome.errors.as_slice() == told.as_bytes()
}

/// Whether a run ended with this status, told this and wrote nothing.
pub fn refused(outcome: &Outcome, status: u8, told: &str) -> bool {
    ended(outcome, status, told) && outcome.output.is_empty()
}

/// Whether a run refused its input as invalid.
pub fn is_invalid(outcome: &Outcome) -> bool {
    refused(outcome, 1, "walrus-gc: The input WebAssembly is invalid\n")
}

/// The words of the text, with a comma between them.
pub fn words_of(alloc: Global, text: &str) -> Result<Vec<String>, AllocError> {
    let mut words = Vec::new(alloc);
    for word in text.split(',') {
        words.push(String::from_str(alloc, word)?)?;
    }
    Ok(words)
}
