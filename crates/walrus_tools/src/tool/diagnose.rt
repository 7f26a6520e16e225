//! What a developer asks of bytes that are refused: what is wrong with them.

ghost use Rattle.std.specs.Prelude.{◌≡◌, IfOk, string_bytes};
ghost use Rattle.walrus_tools.specs.Faults.{
  AnswersFault,
  Diagnoses,
  WordsFault,
  fault_text,
  numbers_of,
  rule_number,
  rule_text,
};
ghost use Rattle.walrus.specs.Wanted.{config_wanted};

use std::alloc::{AllocError, Global};
use std::result;
use walrus::below::{Fault, Features, first_fault};
use walrus::{Result, Wanted};
use walrus_sections::{
    Beginning, add_number, beginning_number, beginning_words, begins_as, narrow,
};
use wasm_wire::BrokenRule;

/// What is wrong with the bytes, or none exactly where they are accepted. Which of several faults is told isn't promised. What is written of
/// names and producers changes nothing.
///
/// # Errors
///
/// `Memory` alone.
pub fn diagnose(alloc: Global, bytes: &[u8], wanted: Wanted) -> Result<Option<Fault>>
    ensures { Diagnoses (config_wanted wanted) bytes.now result }
{
    let features = Features {
        legacy_exceptions: wanted.legacy,
        only_stable: false,
    };
    Ok(first_fault(alloc, bytes, &features)?)
}

// The number of a rule, as docs/FORMATS.md lists them.
fn rule_number(rule: BrokenRule) -> u32
    ensures { result ≡ rule_number rule }
{
    match rule {
        BrokenRule::Order => 1,
        BrokenRule::Types => 2,
        BrokenRule::Indices => 3,
        BrokenRule::FunctionTypes => 4,
        BrokenRule::Limits => 5,
        BrokenRule::Counts => 6,
        BrokenRule::ExportNames => 7,
        BrokenRule::Start => 8,
        BrokenRule::Offsets => 9,
        BrokenRule::Locals => 10,
    }
}

// The kind of what was found in bytes that begin so, and its number.
fn numbers_of(begins: Beginning, found: Option<Fault>) -> (u32, usize)
    ensures { result ≡ numbers_of begins found }
{
    match found {
        None => (0, 0),
        Some(Fault::Header) => (1, beginning_number(begins) as usize),
        Some(Fault::Section(place)) => (2, place),
        Some(Fault::Rule(rule)) => (3, rule_number(rule) as usize),
        Some(Fault::Body(index)) => (4, index),
    }
}

/// What is wrong with the bytes, as two numbers of 32 bits, the lowest byte first: 0 and 0 exactly where they are accepted; 1 for the header,
/// and the number of what they begin as (`beginning_number`); 2 and the place behind the last whole section; 3 and the number of a rule; 4 and the
/// index of a function whose body isn't read.
///
/// # Errors
///
/// `TooLarge` only where the second number passes 32 bits, and `Memory`.
pub fn fault(alloc: Global, bytes: &[u8], wanted: Wanted) -> Result<Vec<u8>>
    ensures { AnswersFault (config_wanted wanted) bytes.now result }
{
    let found = diagnose(alloc, bytes, wanted)?;
    let (kind, number) = numbers_of(begins_as(bytes), found);
    let narrowed = narrow(number)?;
    let mut told = Vec::new(alloc);
    add_number(&mut told, kind)?;
    add_number(&mut told, narrowed)?;
    Ok(told)
}

// A rule that is broken, in words.
fn rule_words(rule: BrokenRule) -> &'static str
    ensures { result.now ≡ rule_text rule }
{
    match rule {
        BrokenRule::Order => "the sections stand out of order, or one stands twice",
        BrokenRule::Types => TYPES_WORDS,
        BrokenRule::Indices => "an index names something that isn't declared, or isn't yet",
        BrokenRule::FunctionTypes => "a function or a tag has a type that is no function type",
        BrokenRule::Limits => "the limits of a table or a memory aren't allowed",
        BrokenRule::Counts => COUNTS_WORDS,
        BrokenRule::ExportNames => "two exports have the same name",
        BrokenRule::Start => "the start function has parameters or results",
        BrokenRule::Offsets => "the offset of a segment isn't of the type of addresses",
        BrokenRule::Locals => "a body declares more than 50,000 locals",
    }
}

const TYPES_WORDS: &str =
    "a type names one that isn't declared by the end of its group, or has a supertype that isn't before it, or more than one";

const COUNTS_WORDS: &str =
    "the number of bodies or of data segments isn't the one that is declared";

// What is wrong with bytes that begin so, in words.
fn words_of(alloc: Global, begins: Beginning, fault: Fault) -> result::Result<String, AllocError>
    ensures { IfOk result (λ text. string_bytes text ≡ fault_text begins fault) }
{
    match fault {
        Fault::Header => String::from_str(alloc, beginning_words(begins)),
        Fault::Section(place) => {
            format!(in alloc; "no well-formed section stands at byte {place}")
        }
        Fault::Rule(rule) => String::from_str(alloc, rule_words(rule)),
        Fault::Body(index) => {
            format!(in alloc;
                "the body of function {index} isn't made of allowed instructions, well nested, with declared indices"
            )
        }
    }
}

/// What is wrong with the bytes, in words, as docs/FORMATS.md has them: of those that don't begin as a module also what they begin as.
///
/// # Errors
///
/// Where memory runs out, and never else.
pub fn fault_words(alloc: Global, fault: Fault, bytes: &[u8]) -> result::Result<String, AllocError>
    ensures { IfOk result (λ text. WordsFault bytes.now fault (string_bytes text)) }
{
    words_of(alloc, begins_as(bytes), fault)
}
