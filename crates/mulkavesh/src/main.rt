//! The program `mulkavesh`: subcommands over the module in a file or on standard input.
//! The answer goes to a file or to standard output.
//!
//! Read first: `src/command.rt` (one order from its source to its sink) and `src/subcommands.rt` (what each subcommand makes of bytes).
//! Main clause: `command` in `src/command.rt`, with `RunsAndTells` of `specs/Command.antt`.
//! It says: the order was carried out or refused, the devices counted that failure and no other, and the answer was told.
#![tactic(auto)]

mod beside;
mod calls;
mod cause;
mod choices;
mod command;
mod entries;
mod explains;
mod input;
mod interface;
mod json;
mod kinds;
mod links;
mod message;
mod mistake_lines;
mod mistakes;
mod nearest;
mod notes;
mod numbers;
mod order;
mod output;
mod parts;
mod reasons;
mod reports;
mod rows;
mod sections;
mod shares;
mod subcommands;
mod usage;
mod verdicts;
mod visible;
mod words;

use crate::command::{command, say};
use crate::input::Input;
use crate::mistake_lines::{NO_INPUT, TO_TERMINAL, tell_end, tell_mistake};
use crate::order::{Asked, Order, Value, writes_module};
use crate::output::Output;
use crate::usage::{OUT_OF_MEMORY, UNREADABLE, USAGE, VERSION, help_of};
use crate::words::asked_by;
use std::alloc::AllocError;
use std::env;
use std::io::{ErrorKind, IsTerminal};
use std::process::ExitCode;
use std::rt::Env;
use walrus_tools::{FromWrite, write_all};

// The arguments behind the program's name; none where one isn't UTF-8.
fn given<R: Env + AllocGlobal>(rt: &R) -> Result<Option<Vec<String>>, AllocError> {
    let mut words = Vec::new(rt.alloc());
    match env::args(rt) {
        Ok(all) => {
            for word in all.skip(1) {
                words.push(word)?;
            }
        }
        Err(error) if error.kind() == ErrorKind::OutOfMemory => return Err(AllocError),
        Err(_) => return Ok(None),
    }
    Ok(Some(words))
}

// The path of a file, where the argument names one.
fn path_of(name: &str) -> Option<&str> {
    if name == "-" { None } else { Some(name) }
}

// The path of the file that is read, if one is named.
fn input_path(name: &Option<String>) -> Option<&str> {
    match name {
        Some(name) => path_of(name.as_str()),
        None => None,
    }
}

// The path of the file that is written, if one is named.
fn output_path(name: &Option<Value>) -> Option<&str> {
    match name {
        Some(name) => path_of(name.text()),
        None => None,
    }
}

// What is wrong where nothing is said of an end at which a terminal stands.
fn at_terminal(rt: &HostRuntime, order: &Order) -> Option<&'static str> {
    if order.input.is_none() && rt.stdin().is_terminal() {
        return Some(NO_INPUT);
    }
    if order.output.is_none() && writes_module(order.work) && rt.stdout().is_terminal() {
        return Some(TO_TERMINAL);
    }
    None
}

// Runs the order between its streams.
fn run(rt: &HostRuntime, order: &Order) -> u8 {
    let mut errors = FromWrite::new(rt.stderr());
    if let Some(wrong) = at_terminal(rt, order) {
        return tell_end(&mut errors, order.work, wrong);
    }
    let mut input = Input::new(rt, input_path(&order.input));
    let mut output = Output::new(rt, output_path(&order.output));
    command(rt.alloc(), order, &mut input, &mut output, &mut errors)
}

// Writes a text on standard output.
fn tell(rt: &HostRuntime, text: &str) -> u8 {
    let mut errors = FromWrite::new(rt.stderr());
    let mut output = Output::new(rt, None);
    say(&mut output, &mut errors, text)
}

// Writes a line on standard error, and answers this status.
fn warn(rt: &HostRuntime, line: &str, status: u8) -> ExitCode {
    let mut errors = FromWrite::new(rt.stderr());
    let _told = write_all(&mut errors, line.as_bytes());
    ExitCode::from(status)
}

fn main(rt: HostRuntime) -> ExitCode {
    let words = match given(&rt) {
        Ok(Some(words)) => words,
        Ok(None) => return warn(&rt, UNREADABLE, 2),
        Err(_) => return warn(&rt, OUT_OF_MEMORY, 1),
    };
    ExitCode::from(match asked_by(rt.alloc(), words) {
        Ok(Asked::Help) => tell(&rt, USAGE),
        Ok(Asked::HelpOf(work)) => tell(&rt, help_of(work)),
        Ok(Asked::Version) => tell(&rt, VERSION),
        Ok(Asked::Run(order)) => run(&rt, &order),
        Err(mistake) => {
            let mut errors = FromWrite::new(rt.stderr());
            tell_mistake(&mut errors, &mistake)
        }
    })
}
