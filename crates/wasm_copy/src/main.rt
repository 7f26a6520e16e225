//! The program `wasm_copy`: a WebAssembly module from standard input to standard output, record by record.
//! It tests and measures the layer that reads and writes modules, and stands on that layer alone.
//! `--again` also compares the copy's records, `--read` writes nothing, and `--names` lists names and producers (see `src/listing.rt`).
//!
//! Read first: `src/program.rt` (what the program does) and `specs/Copy.antt` (what a module is copied as).
//! Main clause: `run` of `src/program.rt` promises `Does`: where it succeeds, all of the input was read, and what the task asks for was written.
#![tactic(auto)]

mod comparing;
mod failure;
mod listing;
mod program;
mod task;

use failure::Failure;
use program::run;
use std::alloc::AllocError;
use std::env;
use std::io::ErrorKind;
use std::process::ExitCode;
use std::rt::Env;
use task::{Task, task_for};

// The words behind the program's name, none where one isn't UTF-8.
fn words<R: Env + AllocGlobal>(rt: &R) -> Result<Option<Vec<String>>, AllocError> {
    let mut words = Vec::new(rt.alloc());
    match env::args(rt) {
        Ok(all) => {
            for word in all.skip(1) {
                words.push(word)?;
            }
            Ok(Some(words))
        }
        Err(error) if error.kind() == ErrorKind::OutOfMemory => Err(AllocError),
        Err(_) => Ok(None),
    }
}

// What the words ask for.
fn asked<R: Env + AllocGlobal>(rt: &R) -> Result<Task, Failure> {
    let task = match words(rt).map_err(Failure::Memory)? {
        Some(words) => task_for(&words),
        None => None,
    };
    task.ok_or(Failure::UnknownWord)
}

fn main(rt: HostRuntime) -> ExitCode {
    let outcome = match asked(&rt) {
        Ok(task) => run(rt.alloc(), task, &mut rt.stdin(), &mut rt.stdout()),
        Err(failure) => Err(failure),
    };
    match outcome {
        Ok(()) => ExitCode::SUCCESS,
        Err(failure) => {
            let _told = eprintln!(rt; "wasm_copy: {failure}");
            ExitCode::from(failure.status())
        }
    }
}
