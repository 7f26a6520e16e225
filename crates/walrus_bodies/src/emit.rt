//! Writing the operators of a body (Binary Format > Instructions).
ghost use Rattle.std.specs.Prelude.{◌≡◌, ◌∷◌, ◌++◌, [], ℕ, List, map, IfOk};
ghost use Rattle.std.specs.List.{list_all};
ghost use Rattle.wasm_operators.specs.Operators as wire;
ghost use Rattle.walrus_code.specs.Code.{op_of, ops_of};
ghost use Rattle.walrus_code.specs.Indices.{index_of, local_index};
ghost use Rattle.walrus_bodies.specs.Blocks.{are_nested};
ghost use Rattle.walrus_bodies.specs.Features.{are_allowed};
ghost use Rattle.walrus_bodies.specs.Emitting.{EmitsOperators};
ghost use Rattle.walrus_bodies.specs.Results.{kept_if, locations};
ghost use Rattle.walrus_bodies.specs.Writer.{WritesText, Writes, WritesAll};

use crate::blocks::OpenBlocks;
use crate::features::Features;
use std::alloc::{AllocError, Global};
use walrus_code::{IdsToIndices, InstrLocId, IrError, LocalNumbers, Operator, index_operator};
use wasm_operators::{
    RawOperator, is_operator, operator_is_held, operator_spelling_stands, write_operator,
};

/// Appends the operators of a body, with numbers in their shortest spelling, and answers each operator's location with the place of
/// its first byte, counted from the front of `to`. `locals` are the indices of the function's parameters and locals.
///
/// Refused as [`IrError::NoIndex`] where an item or a local that they name has no index, as [`IrError::NotWritable`] where they don't
/// close each block and at last the function, use a proposal that `features` doesn't allow, or one of them is spelled by no bytes:
/// an exact heap type stands in it, or it has other arguments than it takes. Refused, what was appended means nothing: write into a
/// vector that is dropped then.
pub fn emit_operators(
    alloc: Global,
    to: &mut Vec<u8>,
    operators: &[Operator],
    indices: &IdsToIndices,
    locals: &LocalNumbers,
    features: &Features,
) -> Result<Vec<(InstrLocId, usize)>, IrError>
    ensures written { EmitsOperators (index_of indices.now) (local_index locals.now) features.now
        (ops_of operators.now) to.old.items to.new.items (λ placed. map (λ p. p.1) placed.items) result }
    ensures located { IfOk result (λ placed. map (λ p. p.0) placed.items ≡ locations operators.now) }
{
    append_operators(alloc, to, operators, indices, locals, features, true)
}

/// The same, but for what is answered: the locations with their places only if `asks_places` is true, and else nothing.
///
/// # Errors
///
/// As [`emit_operators`].
pub fn append_operators(
    alloc: Global,
    to: &mut Vec<u8>,
    operators: &[Operator],
    indices: &IdsToIndices,
    locals: &LocalNumbers,
    features: &Features,
    asks_places: bool,
) -> Result<Vec<(InstrLocId, usize)>, IrError>
    ensures written { (places : List ℕ) × (EmitsOperators (index_of indices.now) (local_index locals.now)
        features.now (ops_of operators.now) to.old.items to.new.items (λ _. places) result
        × IfOk result (λ placed. map (λ p. p.1) placed.items ≡ kept_if asks_places places)) }
    ensures located { IfOk result (λ placed. map (λ p. p.0) placed.items
        ≡ kept_if asks_places (locations operators.now)) }
{
    let nested = are_nested(alloc, operators)?;
    if !nested {
        return Err(IrError::NotWritable);
    }
    let allowed = are_allowed(operators, features);
    if !allowed {
        return Err(IrError::NotWritable);
    }
    write_all(alloc, to, operators, indices, locals, asks_places)
}

// Whether the operators close each block and at last the function, each where it may stand.
fn are_nested(alloc: Global, operators: &[Operator]) -> Result<bool, AllocError>
    ensures { IfOk result (λ nested. nested ≡ are_nested (ops_of operators.now)) }
{
    let mut blocks = OpenBlocks::new(alloc)?;
    for operator in operators {
        if !blocks.step(operator.op, operator.args.as_slice())? {
            return Ok(false);
        }
    }
    Ok(blocks.is_closed())
}

// Whether each operator may be used.
fn are_allowed(operators: &[Operator], features: &Features) -> bool
    ensures { result ≡ are_allowed features.now (ops_of operators.now) }
{
    for operator in operators {
        if !features.is_allowed(operator.op) {
            return false;
        }
    }
    true
}

// Notes an operator's location with its place, if places are asked for.
fn note_place(
    placed: &mut Vec<(InstrLocId, usize)>,
    asks_places: bool,
    location: InstrLocId,
    place: usize,
) -> Result<(), AllocError>
    ensures { IfOk result (λ _. placed.new.items
        ≡ placed.old.items ++ kept_if asks_places ((location, place) ∷ [])) }
{
    if asks_places {
        placed.push((location, place))?;
    }
    Ok(())
}

// How many places are told of so many operators.
fn told_count(asks_places: bool, count: usize) -> usize {
    if asks_places { count } else { 0 }
}

// Appends operators, and answers each one's location with its place, if that is asked for.
fn write_all(
    alloc: Global,
    to: &mut Vec<u8>,
    operators: &[Operator],
    indices: &IdsToIndices,
    locals: &LocalNumbers,
    asks_places: bool,
) -> Result<Vec<(InstrLocId, usize)>, IrError>
    ensures written { (places : List ℕ) × (WritesAll (index_of indices.now) (local_index locals.now)
        (ops_of operators.now) to.old.items to.new.items (λ _. places) result
        × IfOk result (λ placed. map (λ p. p.1) placed.items ≡ kept_if asks_places places)) }
    ensures located { IfOk result (λ placed. map (λ p. p.0) placed.items
        ≡ kept_if asks_places (locations operators.now)) }
{
    let mut placed = Vec::with_capacity(alloc, told_count(asks_places, operators.len()))?;
    for operator in operators {
        note_place(&mut placed, asks_places, operator.loc, to.len())?;
        write_one(alloc, to, operator, indices, locals)?;
    }
    Ok(placed)
}

// Appends one operator.
fn write_one(
    alloc: Global,
    to: &mut Vec<u8>,
    operator: &Operator,
    indices: &IdsToIndices,
    locals: &LocalNumbers,
) -> Result<(), IrError>
    ensures { Writes (index_of indices.now) (local_index locals.now)
        (op_of operator.now) to.old.items to.new.items result }
{
    let raw = index_operator(alloc, operator, indices, locals)?;
    write_text(to, &raw)
}

// Appends one operator over indices.
fn write_text(to: &mut Vec<u8>, raw: &RawOperator) -> Result<(), IrError>
    ensures { WritesText (wire.op_of raw.now) to.old.items to.new.items result }
{
    if !is_operator(raw) {
        return Err(IrError::NotWritable);
    }
    operator_is_held(raw);
    operator_spelling_stands();
    write_operator(to, raw)?;
    Ok(())
}
