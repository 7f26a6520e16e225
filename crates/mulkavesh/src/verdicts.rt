//! Whether a module is accepted, and what is wrong with one that isn't.

ghost use Rattle.std.specs.Prelude.{IfOk};
ghost use Rattle.mulkavesh.specs.Subcommands.{Checks, NotesFault, TellsVerdict};
ghost use Rattle.walrus_tools.specs.Wanted.{config_wanted};

use crate::cause::worded;
use crate::json::add_string;
use crate::order::Order;
use crate::subcommands::Made;
use std::alloc::{AllocError, Global};
use walrus_sections::{Beginning, beginning_of};
use walrus_tools::{BrokenRule, Error, Fault, diagnose, fault_words};

/// What is said of bytes that aren't accepted.
pub(crate) const REFUSED: &str = "the input WebAssembly is invalid";

/// Whether the module is accepted, and else what is wrong with it, as a text.
pub(crate) fn checked(alloc: Global, order: &Order, bytes: &[u8]) -> Result<Made, Error>
    ensures { Checks (config_wanted order.now.wanted) bytes.now order.now.is_json result }
{
    let found = diagnose(alloc, bytes, order.wanted)?;
    let output = if order.is_json {
        json(alloc, found, bytes)?
    } else {
        text(alloc, found, bytes)?
    };
    let note = noted(alloc, order.is_json, found, bytes)?;
    Ok(Made {
        output,
        note,
        is_refused: found.is_some(),
    })
}

// What is noted of a fault: that the bytes are invalid; for programs also what is wrong with them.
fn noted(
    alloc: Global,
    is_json: bool,
    found: Option<Fault>,
    bytes: &[u8],
) -> Result<Vec<u8>, AllocError>
    ensures { IfOk result (λ note. NotesFault is_json bytes.now found note.items) }
{
    match found {
        None => Ok(Vec::new(alloc)),
        Some(fault) if is_json => worded(alloc, fault, bytes),
        Some(_) => Vec::from_slice(alloc, REFUSED.as_bytes()),
    }
}

// A line for people.
fn text(alloc: Global, found: Option<Fault>, bytes: &[u8]) -> Result<Vec<u8>, AllocError>
    ensures { IfOk result (λ text. TellsVerdict bytes.now found text.items) }
{
    let mut text = match found {
        None => String::from_str(alloc, "accepted")?,
        Some(fault) => fault_words(alloc, fault, bytes)?,
    };
    text.push_str("\n")?;
    Ok(text.into_bytes())
}

// An object for programs.
fn json(alloc: Global, found: Option<Fault>, bytes: &[u8]) -> Result<Vec<u8>, AllocError> {
    let mut text = Vec::new(alloc);
    let Some(fault) = found else {
        text.extend_from_slice(b"{\"accepted\":true}\n")?;
        return Ok(text);
    };
    text.extend_from_slice(b"{\"accepted\":false,\"reason\":")?;
    let words = fault_words(alloc, fault, bytes)?;
    add_string(&mut text, words.as_bytes())?;
    let place = place_of(alloc, fault, bytes)?;
    text.extend_from_slice(place.as_bytes())?;
    text.extend_from_slice(b"}\n")?;
    Ok(text)
}

// The members that say where it is, or what the bytes begin as.
fn place_of(alloc: Global, fault: Fault, bytes: &[u8]) -> Result<String, AllocError> {
    match fault {
        Fault::Header => header(alloc, bytes),
        Fault::Section(place) => format!(in alloc; ",\"kind\":\"section\",\"place\":{place}"),
        Fault::Rule(rule) => {
            let name = rule_name(rule);
            format!(in alloc; ",\"kind\":\"rule\",\"rule\":\"{name}\"")
        }
        Fault::Body(index) => format!(in alloc; ",\"kind\":\"body\",\"index\":{index}"),
    }
}

// The members of bytes that don't begin as a module.
fn header(alloc: Global, bytes: &[u8]) -> Result<String, AllocError> {
    match beginning_of(bytes).and_then(beginning_name) {
        Some(name) => format!(in alloc; ",\"kind\":\"header\",\"begins\":\"{name}\""),
        None => String::from_str(alloc, ",\"kind\":\"header\""),
    }
}

// The name of what bytes begin as, as docs/FORMATS.md lists them.
fn beginning_name(beginning: Beginning) -> Option<&'static str> {
    match beginning {
        Beginning::Empty => Some("empty"),
        Beginning::Cut => Some("cut"),
        Beginning::Gzip => Some("gzip"),
        Beginning::Zip => Some("zip"),
        Beginning::Zstd => Some("zstd"),
        Beginning::Elf => Some("elf"),
        Beginning::Bitcode => Some("bitcode"),
        Beginning::Text => Some("text"),
        Beginning::Component => Some("component"),
        Beginning::OtherVersion => Some("other version"),
        Beginning::Other => None,
    }
}

// The name of a rule, as docs/FORMATS.md lists them.
fn rule_name(rule: BrokenRule) -> &'static str {
    match rule {
        BrokenRule::Order => "Order",
        BrokenRule::Types => "Types",
        BrokenRule::Indices => "Indices",
        BrokenRule::FunctionTypes => "FunctionTypes",
        BrokenRule::Limits => "Limits",
        BrokenRule::Counts => "Counts",
        BrokenRule::ExportNames => "ExportNames",
        BrokenRule::Start => "Start",
        BrokenRule::Offsets => "Offsets",
        BrokenRule::Locals => "Locals",
    }
}
