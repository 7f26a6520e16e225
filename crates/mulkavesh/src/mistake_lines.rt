//! What a mistake on the command line is told as: a line that names the argument, and what helps.

ghost use Rattle.std.specs.Prelude.{◌≡◌};
ghost use Rattle.mulkavesh.specs.Mistakes.{mistake_status};

use crate::message::write_shown;
use crate::mistakes::{Mistake, Wrong};
use crate::nearest::nearest;
use crate::order::{Flag, Naming, Work, takes, takes_value};
use crate::usage::{OUT_OF_MEMORY, USAGE, name_of};
use walrus_tools::{DeviceFailed, Sink, write_all};

// What can stand first.
const FIRST: &[&str] = &[
    "gc",
    "report",
    "list",
    "check",
    "sections",
    "strip",
    "snip",
    "stub",
    "why",
    "help",
    "--help",
    "--version",
];

// The option without a value, where the subcommand has it; and else one that each has.
fn option_of(work: Work, flag: Flag) -> &'static str {
    if !takes(work, flag) {
        return "--help";
    }
    match flag {
        Flag::NoNames => "--no-names",
        Flag::NoProducers => "--no-producers",
        Flag::NoLegacy => "--no-legacy",
        Flag::Quiet => "--quiet",
        Flag::Json => "--json",
        Flag::Names => "--names",
        Flag::Producers => "--producers",
        Flag::Debug => "--debug",
        Flag::All => "--all",
        Flag::Exports => "--exports",
        Flag::Imports => "--imports",
        Flag::Dropped => "--dropped",
        Flag::Callers => "--callers",
    }
}

// An option with a value.
fn spelled(naming: Naming) -> &'static str {
    match naming {
        Naming::Short => "-o",
        Naming::Long => "--output",
        Naming::Section => "--section",
        Naming::Keep => "--keep",
        Naming::Drop => "--drop",
        Naming::Function => "--function",
        Naming::Module => "--module",
        Naming::Import => "--import",
        Naming::By => "--by",
        Naming::Count => "-n",
    }
}

// The option with a value, where the subcommand has it; and else one that each has.
fn valued_option_of(work: Work, naming: Naming) -> &'static str {
    if takes_value(work, naming) {
        spelled(naming)
    } else {
        "--help"
    }
}

// The option of the subcommand that was meant, if it is near.
fn meant(work: Work, word: &str) -> Option<&'static str> {
    let options = [
        option_of(work, Flag::NoNames),
        option_of(work, Flag::NoProducers),
        option_of(work, Flag::NoLegacy),
        option_of(work, Flag::Quiet),
        option_of(work, Flag::Json),
        option_of(work, Flag::Names),
        option_of(work, Flag::Producers),
        option_of(work, Flag::Debug),
        option_of(work, Flag::All),
        option_of(work, Flag::Exports),
        option_of(work, Flag::Imports),
        option_of(work, Flag::Dropped),
        option_of(work, Flag::Callers),
        valued_option_of(work, Naming::Section),
        valued_option_of(work, Naming::Keep),
        valued_option_of(work, Naming::Drop),
        valued_option_of(work, Naming::Function),
        valued_option_of(work, Naming::Module),
        valued_option_of(work, Naming::Import),
        valued_option_of(work, Naming::By),
        "--output",
        "--help",
    ];
    nearest(word, &options)
}

// Writes the beginning of a line that is about a subcommand.
fn begin<E: Sink>(errors: &mut E, work: Work) -> Result<(), DeviceFailed> {
    write_all(errors, b"mulkavesh: ")?;
    write_all(errors, name_of(work).as_bytes())?;
    write_all(errors, b": ")
}

// Ends a line with what was meant.
fn end_with_meant<E: Sink>(errors: &mut E, meant: &str) -> Result<(), DeviceFailed> {
    write_all(errors, b"; did you mean ")?;
    write_all(errors, meant.as_bytes())?;
    write_all(errors, b"?\n")
}

// Ends a line with the help of the subcommand.
fn end_with_help<E: Sink>(errors: &mut E, work: Work) -> Result<(), DeviceFailed> {
    write_all(errors, b"; mulkavesh ")?;
    write_all(errors, name_of(work).as_bytes())?;
    write_all(errors, b" --help tells more\n")
}

// Tells of a first argument that is no subcommand.
fn tell_first<E: Sink>(errors: &mut E, word: &str) -> Result<(), DeviceFailed> {
    if word.starts_with("-") {
        write_all(errors, b"mulkavesh: no subcommand stands in front of '")?;
    } else {
        write_all(errors, b"mulkavesh: unknown subcommand '")?;
    }
    write_shown(errors, word.as_bytes())?;
    write_all(errors, b"'")?;
    match nearest(word, FIRST) {
        Some(first) => end_with_meant(errors, first),
        None => write_all(errors, b"; mulkavesh --help tells more\n"),
    }
}

// Tells of an argument behind which, or in front of which, nothing can stand.
fn tell_extra<E: Sink>(errors: &mut E, word: &str) -> Result<(), DeviceFailed> {
    write_all(errors, b"mulkavesh: '")?;
    write_shown(errors, word.as_bytes())?;
    write_all(
        errors,
        b"' is one argument too many; mulkavesh --help tells more\n",
    )
}

// Tells of an option that there isn't.
fn tell_option<E: Sink>(errors: &mut E, work: Work, word: &str) -> Result<(), DeviceFailed> {
    begin(errors, work)?;
    write_all(errors, b"unknown option ")?;
    write_shown(errors, word.as_bytes())?;
    match meant(work, word) {
        Some(option) => end_with_meant(errors, option),
        None => end_with_help(errors, work),
    }
}

// Tells what is wrong with an option.
fn tell_about<E: Sink>(
    errors: &mut E,
    work: Work,
    word: &str,
    wrong: &str,
) -> Result<(), DeviceFailed> {
    begin(errors, work)?;
    write_shown(errors, word.as_bytes())?;
    write_all(errors, wrong.as_bytes())?;
    end_with_help(errors, work)
}

// Tells of a second file, and what helps.
fn tell_second<E: Sink>(
    errors: &mut E,
    work: Work,
    file: &str,
    wrong: &str,
) -> Result<(), DeviceFailed> {
    begin(errors, work)?;
    write_all(errors, b"'")?;
    write_shown(errors, file.as_bytes())?;
    write_all(errors, wrong.as_bytes())
}

// What is said behind an argument.
const NOT_TAKEN: &str = " is no option of this subcommand";

const VALUED: &str = " has a value, but this option takes none";

const SECOND_OUTPUT: &str = "' is a second output; there can be one -o\n";

const NO_SECTION: &[u8] =
    b"nothing to strip: --section NAME, --names, --producers, --debug or --all\n";

const APART: &str =
    "--dropped, --exports and --imports don't go together, nor does --by size with the last two";

const MISSING: &str = " is missing";

const SECOND_INPUT: &str = "' is a second input; the output goes behind -o\n";

// Tells what is wrong behind a subcommand.
fn tell_wrong<E: Sink>(errors: &mut E, work: Work, wrong: &Wrong) -> Result<(), DeviceFailed> {
    match wrong {
        Wrong::UnknownOption(word) => tell_option(errors, work, word.as_str()),
        Wrong::NotTaken(word) => tell_about(errors, work, word.as_str(), NOT_TAKEN),
        Wrong::TakesNoValue(word) => tell_about(errors, work, word.as_str(), VALUED),
        Wrong::NoValue(naming) => tell_missing(errors, work, *naming),
        Wrong::BadValue(naming, value) => tell_bad(errors, work, *naming, value.text()),
        Wrong::SecondOutput(value) => tell_second(errors, work, value.text(), SECOND_OUTPUT),
        Wrong::SecondInput(word) => tell_second(errors, work, word.as_str(), SECOND_INPUT),
        Wrong::OperandMissing => tell_about(errors, work, "FUNCTION", MISSING),
        Wrong::NoSection => tell_nothing(errors, work),
        Wrong::NothingMeant => tell_about(errors, work, needed_by(work), MISSING),
        Wrong::Apart => tell_about(errors, work, APART, ""),
        Wrong::OutOfMemory => write_all(errors, OUT_OF_MEMORY.as_bytes()),
    }
}

// Tells that nothing says which sections go.
fn tell_nothing<E: Sink>(errors: &mut E, work: Work) -> Result<(), DeviceFailed> {
    begin(errors, work)?;
    write_all(errors, NO_SECTION)
}

// Which of the options that name what it works on has to stand there.
fn needed_by(work: Work) -> &'static str {
    if work == Work::Snip {
        "--function F"
    } else {
        "--module M"
    }
}

// What the value of the option is called.
fn value_of(naming: Naming) -> &'static str {
    match naming {
        Naming::Short | Naming::Long => "FILE",
        Naming::Function => "F",
        Naming::Module => "M",
        Naming::By => "size or index",
        Naming::Count => "N",
        _ => "NAME",
    }
}

// Tells of an option that has no value behind it.
fn tell_missing<E: Sink>(errors: &mut E, work: Work, naming: Naming) -> Result<(), DeviceFailed> {
    begin(errors, work)?;
    write_all(errors, value_of(naming).as_bytes())?;
    write_all(errors, b" is missing behind ")?;
    write_all(errors, spelled(naming).as_bytes())?;
    end_with_help(errors, work)
}

// Tells of a value that the option can't have.
fn tell_bad<E: Sink>(
    errors: &mut E,
    work: Work,
    naming: Naming,
    value: &str,
) -> Result<(), DeviceFailed> {
    begin(errors, work)?;
    write_all(errors, b"'")?;
    write_shown(errors, value.as_bytes())?;
    write_all(errors, b"' is no value of ")?;
    write_all(errors, spelled(naming).as_bytes())?;
    end_with_help(errors, work)
}

/// What is told where standard input is a terminal, and nothing says that it is read.
pub(crate) const NO_INPUT: &str = "no input: name a file, or - for standard input";

/// What is told where standard output is a terminal, and nothing says that a module goes there.
pub(crate) const TO_TERMINAL: &str =
    "standard output is a terminal; write -o FILE, or -o - to send the bytes there all the same";

// Tells what is wrong with an end of a run.
fn tell_of_end<E: Sink>(errors: &mut E, work: Work, wrong: &str) -> Result<(), DeviceFailed> {
    begin(errors, work)?;
    write_all(errors, wrong.as_bytes())?;
    write_all(errors, b"\n")
}

/// The same, with the status of a run of which nothing was read.
pub(crate) fn tell_end<E: Sink>(errors: &mut E, work: Work, wrong: &str) -> u8
    ensures { result ≡ 2 }
{
    let _told = tell_of_end(errors, work, wrong);
    2
}

// The status of a run of which nothing was read.
fn status_of(mistake: &Mistake) -> u8
    ensures { result ≡ mistake_status mistake.now }
{
    match mistake {
        Mistake::Behind(_, Wrong::OutOfMemory) => 1,
        _ => 2,
    }
}

/// Tells of a mistake in one line, of no arguments by the usage, and answers the status: 1 where memory ran out, and else 2.
pub(crate) fn tell_mistake<E: Sink>(errors: &mut E, mistake: &Mistake) -> u8
    ensures { result ≡ mistake_status mistake.now }
{
    let _told = match mistake {
        Mistake::NoArguments => write_all(errors, USAGE.as_bytes()),
        Mistake::UnknownSubcommand(word) => tell_first(errors, word.as_str()),
        Mistake::Extra(word) => tell_extra(errors, word.as_str()),
        Mistake::Behind(work, wrong) => tell_wrong(errors, *work, wrong),
    };
    status_of(mistake)
}
