//! The program as a function of its words and its three streams.

ghost use Rattle.std.specs.Prelude.{◌≡◌, OnOk, true};
ghost use Rattle.walrus.specs.Command.{RunsProgram, are_known, asks_for_report, is_known, flags_for, stands_in};
ghost use Rattle.walrus.specs.Message.{stream_of};
ghost use Rattle.walrus.specs.Reported.{ReportsOrRuns};
ghost use Rattle.walrus.specs.Tool.{CountsReads, CountsWrites};
ghost use Rattle.walrus_module.specs.Flags.{config_of};

use crate::device::{Sink, Source};
use crate::message::{refuse, text_of, write_line};
use crate::tool::{ToolError, report, run_last};
use std::alloc::Global;
use walrus_module::ModuleConfig;

// Whether the program knows the word.
fn knows(word: &str) -> bool
    ensures { result ≡ is_known word.now }
{
    word == "--no-names" || word == "--no-producers" || word == "--no-legacy" || word == "--report"
}

// Whether the word stands among these.
fn has(words: &[String], word: &str) -> bool
    ensures { result ≡ stands_in words.now word.now }
{
    words.iter().any(|w| w.as_str() == word)
}

// Whether the program knows each of these words.
fn all_known(words: &[String]) -> bool
    ensures { result ≡ are_known words.now }
{
    words.iter().all(|w| knows(w.as_str()))
}

// The run that the words ask for, or the report. The configuration is made here, since the gate takes no function of this crate that answers one:
// it can hold a box.
fn run_or_report<R: Source, W: Sink>(
    alloc: Global,
    words: &[String],
    input: &mut R,
    output: &mut W,
) -> Result<(), ToolError>
    ensures headline { ReportsOrRuns (asks_for_report words.now) (config_of (flags_for words.now))
        (R.left input.old) (R.left input.new) (W.held output.old) (W.held output.new) result }
    ensures flushed { OnOk result (W.is_flushed output.new ≡ true) }
    ensures reads { CountsReads (R.read_failures input.old) (R.read_failures input.new) result }
    ensures writes { CountsWrites (W.write_failures output.old) (W.write_failures output.new) result }
{
    let mut made = ModuleConfig::new();
    let config = made
        .generate_name_section(!has(words, "--no-names"))
        .generate_producers_section(!has(words, "--no-producers"))
        .legacy_exceptions(!has(words, "--no-legacy"));
    if has(words, "--report") {
        report(alloc, input, output, config)
    } else {
        run_last(alloc, input, output, config)
    }
}

/// Runs the program on its words, its standard input, output and error, and answers its status: 0 where the smaller
/// module, or the report in its place, was written, 1 where that was refused, 2 where a word isn't known, and then
/// nothing is read or written. A refusal is told in one line on the last stream; where that can't be written, the
/// status is the same. It is the last thing that a process does: the memory of the smaller module isn't given back.
pub fn command<R: Source, W: Sink, E: Sink>(
    alloc: Global,
    words: &[String],
    input: &mut R,
    output: &mut W,
    errors: &mut E,
) -> u8
    ensures { RunsProgram words.now (stream_of R.left R.read_failures input.old input.new)
        (stream_of W.held W.write_failures output.old output.new)
        (stream_of E.held E.write_failures errors.old errors.new) result (W.is_flushed output.new) }
{
    if !all_known(words) {
        let _told = write_line(errors, "unknown word");
        return 2;
    }
    match run_or_report(alloc, words, input, output) {
        Ok(()) => 0,
        Err(error) => refuse(errors, text_of(&error)),
    }
}
