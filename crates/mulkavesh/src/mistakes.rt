//! What can be wrong with a command line.

use crate::order::{Naming, Value, Work};

/// What is wrong behind a subcommand.
#[derive(Drop)]
pub(crate) enum Wrong {
    /// This argument begins with a dash, and no option is spelled so.
    UnknownOption(String),
    /// The subcommand doesn't have this option.
    NotTaken(String),
    /// In this argument an option has a value that takes none, as in `--quiet=1`.
    TakesNoValue(String),
    /// Nothing stands behind this option, which has a value.
    NoValue(Naming),
    /// This option has no such value.
    BadValue(Naming, Value),
    /// This is a second file to be written.
    SecondOutput(Value),
    /// This is a second file to be read.
    SecondInput(String),
    /// What the subcommand is about is missing.
    OperandMissing,
    /// Nothing says which sections go.
    NoSection,
    /// Nothing says which functions, or functions of which modules, are to trap.
    NothingMeant,
    /// It is told to list things that don't go together.
    Apart,
    /// Memory ran out before all arguments were told apart.
    OutOfMemory,
}

/// What is wrong with the arguments of the command line.
#[derive(Drop)]
pub(crate) enum Mistake {
    /// There are none.
    NoArguments,
    /// This stands where a subcommand has to, and is none.
    UnknownSubcommand(String),
    /// Nothing can stand behind what is in front of this argument.
    Extra(String),
    /// Something is wrong behind this subcommand.
    Behind(Work, Wrong),
}
