//! What is wrong with a module in memory, told before bytes go out.

ghost use Rattle.std.specs.Prelude.{◌≡◌};
ghost use Rattle.walrus_items.specs.declared.error.Error.TheVariants.{Memory};
ghost use Rattle.walrus_module.specs.Flaws.{error_of_flaw, flaw_number, form_number, rule_number};
ghost use Rattle.walrus_module.specs.declared.flaw.Flaw.TheVariants.{Form};

use std::alloc::AllocError;
use walrus_items::{Error, ErrorKind};
use wasm_wire::BrokenRule;

/// What is wrong with a module in memory, so that it can't be written ("Validation > Modules").
#[derive(Debug, Drop)]
pub enum Flaw {
    /// It breaks this rule.
    Rule(BrokenRule),
    /// Something else is asked of it: `DeadItem` where what is named is gone, `TwoIndices`, `NoIndex`, `NotWritable` where bytes spell a form not, and
    /// `TooLarge`. Or `Memory` was refused.
    Form(Error),
}

impl Flaw {
    /// Its number: that of a rule, or 11 where what is named is gone, 12 where an item has two indices, 13 where it has none, 14 where a form has no
    /// spelling; of another one 0.
    pub fn number(&self) -> u32
        ensures { result ≡ flaw_number self.now }
    {
        match self {
            Flaw::Rule(rule) => rule_number(*rule),
            Flaw::Form(error) => form_number(error),
        }
    }
}

impl From<Error> for Flaw {
    ghost from_gives = { λ e r. r ≡ Form e };

    fn from(e: Error) -> Flaw {
        Flaw::Form(e)
    }
}

impl From<AllocError> for Flaw {
    ghost from_gives = { λ e r. r ≡ Form (Memory e) };

    fn from(e: AllocError) -> Flaw {
        Flaw::Form(Error::Memory(e))
    }
}

impl From<Flaw> for Error {
    ghost from_gives = { λ e r. r ≡ error_of_flaw e };

    fn from(e: Flaw) -> Error {
        match e {
            Flaw::Rule(_) => Error::InvalidWasm(ErrorKind::InvalidWasm),
            Flaw::Form(error) => error,
        }
    }
}

/// The number of a rule: its place among the rules of [`BrokenRule`], counted from 1.
pub fn rule_number(rule: BrokenRule) -> u32
    ensures { result ≡ rule_number rule }
{
    match rule {
        BrokenRule::Order => 1,
        BrokenRule::Types => 2,
        BrokenRule::Indices => 3,
        BrokenRule::FunctionTypes => 4,
        BrokenRule::Limits => 5,
        BrokenRule::Counts => 6,
        BrokenRule::ExportNames => 7,
        BrokenRule::Start => 8,
        BrokenRule::Offsets => 9,
        BrokenRule::Locals => 10,
    }
}

// The number of a cause beside the rules.
fn form_number(error: &Error) -> u32
    ensures { result ≡ form_number error.now }
{
    match error {
        Error::DeadItem => 11,
        Error::TwoIndices => 12,
        Error::NoIndex => 13,
        Error::NotWritable => 14,
        _ => 0,
    }
}
