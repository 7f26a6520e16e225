//! Which rule on the whole a module breaks (Validation > Modules).

ghost use Rattle.std.specs.Bool.{Decides};
ghost use Rattle.std.specs.Prelude.{IfOk, not};
ghost use Rattle.wasm_frames.specs.Record.{sections};
ghost use Rattle.wasm_wire.specs.Broken.{RuleHolds, JudgesBy, Judges, RulesAre};
ghost use Rattle.wasm_wire.specs.Gathering.{context};
ghost use Rattle.wasm_wire.specs.Rules.{Checks};

use super::counts::check_counts;
use super::declared::{Declared, counts_of, gather};
use super::exports::check_names;
use super::functions::{check_function_types, check_start};
use super::indices::check_indices;
use super::limits::check_limits;
use super::locals::check_all_locals;
use super::offsets::check_offsets;
use super::order::check_order;
use super::types::check_types;
use std::alloc::{AllocError, Global};
use wasm_forms::WireError;
use wasm_frames::Raw;

/// A rule on a whole module (Validation > Modules).
#[derive(Clone, Copy, Debug, PartialEq, Eq)]
pub enum BrokenRule {
    /// Sections stand in the standard's order, each at most once.
    Order,
    /// A type has at most one supertype, of a smaller index, and names types of earlier groups or of its own.
    Types,
    /// Every index names what is declared.
    Indices,
    /// Functions and tags have function types.
    FunctionTypes,
    /// The limits of tables and memories are allowed.
    Limits,
    /// There are as many bodies as functions, and as many data segments as a data count says.
    Counts,
    /// No two exports have one name.
    ExportNames,
    /// The start function takes and gives nothing.
    Start,
    /// The offset of an active segment, where it is a single plain instruction, is an address.
    Offsets,
    /// A body declares at most 50,000 locals.
    Locals,
}

/// All of them, in the order in which they are looked at.
const RULES: [BrokenRule; 10] = [
    BrokenRule::Order,
    BrokenRule::Types,
    BrokenRule::Indices,
    BrokenRule::FunctionTypes,
    BrokenRule::Limits,
    BrokenRule::Counts,
    BrokenRule::ExportNames,
    BrokenRule::Start,
    BrokenRule::Offsets,
    BrokenRule::Locals,
];

/// Whether this rule holds where this is declared.
fn check_rule(
    alloc: Global,
    rule: BrokenRule,
    declared: &Declared<'_>,
    raw: &Raw<'_>,
) -> Result<(), WireError>
    ensures { Checks result (RuleHolds rule (context declared.now) (sections raw.now)) }
{
    match rule {
        BrokenRule::Order => check_order(&raw.order),
        BrokenRule::Types => check_types(raw),
        BrokenRule::Indices => check_indices(&counts_of(declared), raw),
        BrokenRule::FunctionTypes => check_function_types(declared),
        BrokenRule::Limits => check_limits(declared),
        BrokenRule::Counts => check_counts(raw),
        BrokenRule::ExportNames => check_names(alloc, &raw.exports),
        BrokenRule::Start => check_start(declared, raw.start),
        BrokenRule::Offsets => check_offsets(declared, raw),
        BrokenRule::Locals => check_all_locals(raw),
    }
}

/// Whether this rule is broken where this is declared.
fn is_broken(
    alloc: Global,
    rule: BrokenRule,
    declared: &Declared<'_>,
    raw: &Raw<'_>,
) -> Result<bool, AllocError>
    ensures { IfOk result (λ broken. Decides (not broken) (RuleHolds rule (context declared.now)
        (sections raw.now))) }
{
    match check_rule(alloc, rule, declared, raw) {
        Ok(()) => Ok(false),
        Err(WireError::Malformed) => Ok(true),
        Err(WireError::Memory(error)) => Err(error),
        Err(WireError::TooLarge) => unreachable!(),
    }
}

/// The first rule that is broken where this is declared.
fn first_broken(
    alloc: Global,
    declared: &Declared<'_>,
    raw: &Raw<'_>,
) -> Result<Option<BrokenRule>, AllocError>
    ensures { IfOk result (λ broken. JudgesBy broken (context declared.now) (sections raw.now)) }
{
    for rule in RULES {
        if is_broken(alloc, rule, declared, raw)? {
            return Ok(Some(rule));
        }
    }
    Ok(None)
}

/// Which rule on the whole these records break: `None` exactly where all of them hold (Validation > Modules).
///
/// # Errors
///
/// Only memory is refused.
pub fn broken_rule(alloc: Global, raw: &Raw<'_>) -> Result<Option<BrokenRule>, AllocError>
    ensures { IfOk result (λ broken. Judges broken (sections raw.now)) }
{
    match gather(alloc, raw) {
        Ok(declared) => first_broken(alloc, &declared, raw),
        Err(WireError::Memory(failed)) => Err(failed),
        Err(WireError::Malformed) => unreachable!(),
        Err(WireError::TooLarge) => unreachable!(),
    }
}

/// A module keeps the rules exactly where each of them, by its name, holds.
pub fn rules_are_these()
    ensures { RulesAre }
{}
