//! The types of functions and tags, and of the start function (Validation > Modules > Functions, Tags, Start Function).

ghost use Rattle.std.specs.Prelude.{ℕ, map, slice_get};
ghost use Rattle.wasm_entries.specs.Record.{comp, sub};
ghost use Rattle.wasm_wire.specs.Broken.{FunctionTypesHold};
ghost use Rattle.wasm_wire.specs.Gathering.{context};
ghost use Rattle.wasm_wire.specs.Rules.{IsFunctionComp, IsFunction, AreFunctionTypes, IsEmptyComp, IsEmpty, IsEmptyType, StartHolds, Checks};

use super::declared::Declared;
use super::each::{Rule, check_all};
use wasm_entries::{RawComp, RawSub};
use wasm_forms::WireError;

/// Whether a composite type is that of a function.
fn check_function_comp(held: &RawComp) -> Result<(), WireError>
    ensures { Checks result (IsFunctionComp (comp held.now)) }
{
    match held {
        RawComp::Func(_) => Ok(()),
        RawComp::Struct(_) | RawComp::Array(_) => Err(WireError::Malformed),
    }
}

/// The function types among these.
#[derive(Clone, Copy)]
struct FunctionTypes<'t, 'a> {
    types: &'t [&'a RawSub],
}

impl<'t, 'a> Rule<u32> for FunctionTypes<'t, 'a> {
    ghost Seen = { ℕ };

    ghost view = { λ n. n };

    ghost Holds = { λ r n. IsFunction (slice_get (map (λ s. sub s.now) r.types.now) n) };

    fn check(&self, item: &u32) -> Result<(), WireError> {
        match self.types.get(*item as usize) {
            Some(ty) => check_function_comp(&ty.comp),
            None => Err(WireError::Malformed),
        }
    }
}

/// Whether these are indices of function types.
fn check_kinds(types: &[&RawSub], indices: &[u32]) -> Result<(), WireError>
    ensures { Checks result (AreFunctionTypes (map (λ s. sub s.now) types.now) indices.now) }
{
    check_all(&FunctionTypes { types }, indices)
}

/// Whether a composite type is that of a function that takes nothing and gives nothing.
fn check_empty_comp(held: &RawComp) -> Result<(), WireError>
    ensures { Checks result (IsEmptyComp (comp held.now)) }
{
    match held {
        RawComp::Func(ty) => {
            if ty.params.is_empty() && ty.results.is_empty() {
                Ok(())
            } else {
                Err(WireError::Malformed)
            }
        }
        RawComp::Struct(_) | RawComp::Array(_) => Err(WireError::Malformed),
    }
}

/// Whether the type of this index is that of a function that takes nothing and gives nothing.
fn check_empty(types: &[&RawSub], index: u32) -> Result<(), WireError>
    ensures { Checks result (IsEmpty (slice_get (map (λ s. sub s.now) types.now) index)) }
{
    match types.get(index as usize) {
        Some(ty) => check_empty_comp(&ty.comp),
        None => Err(WireError::Malformed),
    }
}

/// Whether the types of the functions are function types.
fn check_functions(declared: &Declared<'_>) -> Result<(), WireError>
    ensures { Checks result (AreFunctionTypes (context declared.now).types (context declared.now).functions) }
{
    check_kinds(&declared.types, &declared.functions)
}

/// Whether the types of the tags are function types.
fn check_tags(declared: &Declared<'_>) -> Result<(), WireError>
    ensures { Checks result (AreFunctionTypes (context declared.now).types (context declared.now).tags) }
{
    check_kinds(&declared.types, &declared.tags)
}

/// Whether functions and tags have function types.
pub fn check_function_types(declared: &Declared<'_>) -> Result<(), WireError>
    ensures { Checks result (FunctionTypesHold (context declared.now)) }
{
    check_functions(declared)?;
    check_tags(declared)
}

/// Whether the start function, one of these, has neither parameters nor results.
fn check_start_of(types: &[&RawSub], functions: &[u32], start: Option<u32>) -> Result<(), WireError>
    ensures { Checks result (StartHolds (map (λ s. sub s.now) types.now) functions.now start) }
{
    match start {
        None => Ok(()),
        Some(function) => match functions.get(function as usize) {
            Some(ty) => check_empty(types, *ty),
            None => Err(WireError::Malformed),
        },
    }
}

/// Whether the start function has neither parameters nor results.
pub fn check_start(declared: &Declared<'_>, start: Option<u32>) -> Result<(), WireError>
    ensures { Checks result (StartHolds (context declared.now).types (context declared.now).functions start) }
{
    check_start_of(&declared.types, &declared.functions, start)
}
