//! The operators of a body that is written, as they are held (Binary Format > Instructions).
ghost use Rattle.std.specs.Prelude.{◌≡◌, ◌++◌, ℕ, List, true, map, nat_eq, IfOk};
ghost use Rattle.std.specs.List.{list_any};
ghost use Rattle.walrus_base.specs.Id.{place};
ghost use Rattle.walrus_base.specs.Operators.{locals_of};
ghost use Rattle.walrus_bodies.specs.Function.{body_of, listed_in, locations_of};
ghost use Rattle.walrus_code.specs.Indices.{index_of, local_index};
ghost use Rattle.walrus_bodies.specs.Blocks.{blocks_hold};
ghost use Rattle.walrus_bodies.specs.Emitting.{EmitsOperators};
ghost use Rattle.walrus_bodies.specs.FunctionTypes.{is_function_at};
ghost use Rattle.walrus_bodies.specs.Results.{kept_if};
ghost use Rattle.walrus_bodies.specs.Text.{ops_in};
ghost use Rattle.walrus_functions.specs.Code.{AreFlags, IsFlagged, is_listed, locations_of_code, ops_of_code};
ghost use Rattle.walrus_functions.specs.Declaring.{AreOnce};

use crate::declared::{named_once, which_named};
use crate::marks::{mark_ids, marked_locals, no_marks, which_marked, window_of};
use std::alloc::{AllocError, Global};
use walrus_base::{LocalId, ModuleTypes};
use walrus_bodies::{Features, LocalFunction, Operators, Text, append_operators, blocks_hold};
use walrus_code::{IdsToIndices, InstrLocId, IrError, LocalNumbers};

// The operators of a body.
#[derive(Drop)]
pub(crate) enum Code<'a> {
    // As they stand in the input, with a flag for each local of the function: whether they name it.
    Text { text: &'a Text, used: Vec<bool> },
    // A list.
    List(Operators<'a>),
}

// The operators of a function: a list where places are asked for.
pub(crate) fn code_of(
    alloc: Global,
    function: &LocalFunction,
    asks_places: bool,
) -> Result<Code<'_>, AllocError>
    ensures body { IfOk result (λ code. ops_of_code code ≡ body_of function.now) }
    ensures locations { IfOk result (λ code. locations_of_code code ≡ locations_of function.now) }
    ensures listed { asks_places ≡ true → IfOk result (λ code. is_listed code ≡ true) }
    ensures flagged { IfOk result (λ code. IsFlagged code) }
{
    match function.text() {
        Some(text) if !asks_places => {
            let used = text.used_locals(alloc)?;
            Ok(Code::Text { text, used })
        }
        _ => Ok(Code::List(function.operators(alloc)?)),
    }
}

// Whether each type of a block in the operators is a function type.
pub(crate) fn code_holds(types: &ModuleTypes, code: &Code) -> Result<bool, AllocError>
    ensures { IfOk result (λ hold. hold ≡ blocks_hold (is_function_at types.now) (ops_of_code code.now)) }
{
    match code {
        Code::Text { text, .. } => text.blocks_hold(types),
        Code::List(operators) => Ok(blocks_hold(types, operators.as_slice())),
    }
}

// The locals that the operators of a body name, each once, by rising place.
fn text_locals(alloc: Global, text: &Text, used: &[bool]) -> Result<Vec<LocalId>, AllocError>
    requires { AreFlags text.now used.now }
    ensures { IfOk result (λ named. AreOnce (locals_of (ops_in text.now)) (map place named.items)) }
{
    let _count = text.local_count();
    marked_locals(alloc, text.first_local() as usize, used)
}

// The same of any body.
pub(crate) fn code_locals(alloc: Global, code: &Code) -> Result<Vec<LocalId>, AllocError>
    requires { IsFlagged code.now }
    ensures { IfOk result (λ named. AreOnce (locals_of (ops_of_code code.now)) (map place named.items)) }
{
    match code {
        Code::Text { text, used } => text_locals(alloc, text, used.as_slice()),
        Code::List(operators) => named_once(alloc, operators.as_slice()),
    }
}

// Whether the operators of a body name each of these locals.
fn text_uses(
    alloc: Global,
    text: &Text,
    used: &[bool],
    ids: &[LocalId],
) -> Result<Vec<bool>, AllocError>
    requires { AreFlags text.now used.now }
    ensures { IfOk result (λ uses. uses.items
        ≡ map (λ id. list_any (nat_eq (place id)) (locals_of (ops_in text.now))) ids.now) }
{
    which_marked(alloc, text.first_local() as usize, used, ids)
}

// The same where these are the locals that they name, each once.
fn list_uses(
    alloc: Global,
    operators: &Operators,
    ids: &[LocalId],
    named: &[LocalId],
) -> Result<Vec<bool>, AllocError>
    requires { AreOnce (locals_of (listed_in operators.now)) (map place named.now) }
    ensures { IfOk result (λ uses. uses.items
        ≡ map (λ id. list_any (nat_eq (place id)) (locals_of (listed_in operators.now))) ids.now) }
{
    let (first, span) = window_of(named);
    let mut marks = no_marks(alloc, span)?;
    if mark_ids(&mut marks, first, named) {
        return which_marked(alloc, first, marks.as_slice(), ids);
    }
    which_named(alloc, ids, named)
}

// The same of any body.
pub(crate) fn code_uses(
    alloc: Global,
    code: &Code,
    ids: &[LocalId],
    named: &[LocalId],
) -> Result<Vec<bool>, AllocError>
    requires flagged { IsFlagged code.now }
    requires named { AreOnce (locals_of (ops_of_code code.now)) (map place named.now) }
    ensures { IfOk result (λ uses. uses.items
        ≡ map (λ id. list_any (nat_eq (place id)) (locals_of (ops_of_code code.now))) ids.now) }
{
    match code {
        Code::Text { text, used } => text_uses(alloc, text, used.as_slice(), ids),
        Code::List(operators) => list_uses(alloc, operators, ids, named),
    }
}

/// For how many bytes to reserve memory where a function's body is written: as many as stand in the input, or two for each operator, and a few for
/// declarations. A body may take more.
pub fn likely_length(function: &LocalFunction) -> usize {
    match function.text() {
        Some(text) => text.byte_count().saturating_add(4),
        None => function.size().saturating_mul(2).saturating_add(4),
    }
}

// Appends the operators, and answers the location of each with its place, if that is asked for.
pub(crate) fn append_code(
    alloc: Global,
    to: &mut Vec<u8>,
    code: &Code,
    indices: &IdsToIndices,
    locals: &LocalNumbers,
    features: &Features,
    asks_places: bool,
) -> Result<Vec<(InstrLocId, usize)>, IrError>
    requires { asks_places ≡ true → is_listed code.now ≡ true }
    ensures written { (places : List ℕ) × (EmitsOperators (index_of indices.now) (local_index locals.now)
        features.now (ops_of_code code.now) to.old.items to.new.items (λ _. places) result
        × IfOk result (λ placed. map (λ p. p.1) placed.items ≡ kept_if asks_places places)) }
    ensures located { IfOk result (λ placed. map (λ p. p.0) placed.items
        ≡ kept_if asks_places (locations_of_code code.now)) }
{
    match code {
        Code::Text { text, .. } => {
            text.append(to, indices, locals)?;
            Ok(Vec::new(alloc))
        }
        Code::List(operators) => append_operators(
            alloc,
            to,
            operators.as_slice(),
            indices,
            locals,
            features,
            asks_places,
        ),
    }
}
