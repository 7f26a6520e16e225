//! The program `walrus-gc`: a WebAssembly module on standard input, and on standard output the same module without what nothing reaches.
//!
//! Read first: `src/main.rt` (words and streams) and `../walrus/src/command.rt` (what the program does with them).
//! Main clause: `main` has no contract. It calls `command` of `../walrus/src/command.rt`, which promises `RunsProgram`.
//! This says, where all words are known, that the run or the report was done, and that its answer was told.
#![tactic(auto)]

use std::alloc::AllocError;
use std::env;
use std::io::ErrorKind;
use std::process::ExitCode;
use std::rt::Env;
use walrus::tool;
use walrus::tool::{FromRead, FromWrite};

// The words behind the program's name. Where one isn't UTF-8, an empty text stands for them all, which is no word that
// the program knows.
fn words<R: Env + AllocGlobal>(rt: &R) -> Result<Vec<String>, AllocError> {
    let mut words = Vec::new(rt.alloc());
    match env::args(rt) {
        Ok(all) => {
            for word in all.skip(1) {
                words.push(word)?;
            }
        }
        Err(error) if error.kind() == ErrorKind::OutOfMemory => return Err(AllocError),
        Err(_) => words.push(String::new(rt.alloc()))?,
    }
    Ok(words)
}

fn main(rt: HostRuntime) -> ExitCode {
    let mut errors = FromWrite::new(rt.stderr());
    let status = match words(&rt) {
        Ok(words) => {
            let mut input = FromRead::new(rt.stdin());
            let mut output = FromWrite::new(rt.stdout());
            tool::command(rt.alloc(), &words, &mut input, &mut output, &mut errors)
        }
        Err(_) => tool::refuse(&mut errors, "out of memory"),
    };
    ExitCode::from(status)
}
