//! Reading the operators of a body (Binary Format > Instructions).
ghost use Rattle.std.specs.Prelude.{◌≡◌, ◌≤◌, ◌∷◌, [], length, map, IfOk};
ghost use Rattle.std.specs.Fn.{FnReturnsAt};
ghost use Rattle.walrus_code.specs.Code.{arg_of, op_of, ops_of};
ghost use Rattle.walrus_code.specs.Indices.{ids_at};
ghost use Rattle.walrus_code.specs.Results.{locals_at};
ghost use Rattle.walrus_bodies.specs.Blocks.{args_hold, block_holds, blocks_after};
ghost use Rattle.walrus_bodies.specs.Body.{context, Located};
ghost use Rattle.walrus_bodies.specs.OpenBlocks.{opened};
ghost use Rattle.walrus_bodies.specs.Reader.{Gives, op_at, next_at, ops_at, ended};
ghost use Rattle.walrus_bodies.specs.Results.{ReadsOperators, locations};

use crate::blocks::{OpenBlocks, Opened};
use crate::features::Features;
use crate::types::FunctionTypes;
use std::alloc::Global;
use walrus_base::LocalId;
use walrus_code::{Arg, BlockType, IndicesToIds, InstrLocId, IrError, Operator, name_operator};
use wasm_operators::read_operator;

// What operators are read under: the proposals that they may use, and what their indices mean.
#[derive(Drop)]
struct Scope<'a, T> {
    features: &'a Features,
    indices: &'a IndicesToIds,
    types: &'a T,
    locals: &'a [LocalId],
}

/// Reads the operators of a body, whose bytes begin at `place` of the input. `locals` are the function's parameters and then its
/// declared locals. `locate` gives each operator its location by the place of its first byte.
///
/// Refused as [`IrError::Malformed`] where the bytes are no operators, one behind another and no byte left, which name only what
/// `indices` and `locals` have, close each block and at last the function, use only the proposals that `features` allows, and have
/// only function types as the types of their blocks.
pub fn read_operators<T: FunctionTypes, L: Fn(&usize) -> InstrLocId>(
    alloc: Global,
    bytes: &[u8],
    place: usize,
    features: &Features,
    indices: &IndicesToIds,
    types: &T,
    locals: &[LocalId],
    locate: &L,
) -> Result<Vec<Operator>, IrError>
    requires { L.IsAlwaysCallable locate.now }
    ensures read { ReadsOperators (context (ids_at indices.now) (T.function_types types.now) features.now)
        (locals_at locals.now) (λ operators. ops_of operators.items) bytes.now result }
    ensures located { IfOk result (λ operators. Located (FnReturnsAt L.Fn locate.now) place bytes.now
        (locations operators.items)) }
{
    let scope = Scope {
        features,
        indices,
        types,
        locals,
    };
    let mut operators = read_all(alloc, bytes, place, locate, &scope)?;
    operators.shrink_to_fit();
    Ok(operators)
}

// For how many operators to reserve memory: half as many as there are bytes, or as many where these are few.
fn room_for_operators(bytes: &[u8]) -> usize
    ensures { result ≤ length bytes.now }
{
    if bytes.len() <= 16 {
        bytes.len()
    } else {
        bytes.len() / 2
    }
}

// The same, against the function on lists that does it.
fn read_all<T: FunctionTypes, L: Fn(&usize) -> InstrLocId>(
    alloc: Global,
    bytes: &[u8],
    place: usize,
    locate: &L,
    scope: &Scope<T>,
) -> Result<Vec<Operator>, IrError>
    requires { L.IsAlwaysCallable locate.now }
    ensures read { Gives (λ operators. ops_of operators.items) result
        (ops_at (context (ids_at scope.now.indices.now) (T.function_types scope.now.types.now)
        scope.now.features.now) (locals_at scope.now.locals.now) (length bytes.now)
        (Opened.Plain ∷ []) bytes.now) }
    ensures located { IfOk result (λ operators. Located (FnReturnsAt L.Fn locate.now) place bytes.now
        (locations operators.items)) }
{
    let mut blocks = OpenBlocks::new(alloc)?;
    let mut operators = Vec::with_capacity(alloc, room_for_operators(bytes))?;
    let mut rest = bytes;
    for _turn in 0..bytes.len() {
        let offset = bytes.len().saturating_sub(rest.len());
        let loc = locate(&place.saturating_add(offset));
        let (operator, after) = read_next(alloc, rest, loc, &mut blocks, scope)?;
        operators.push(operator)?;
        rest = after;
        if blocks.is_closed() {
            return with_no_rest(operators, rest);
        }
    }
    Err(IrError::Malformed)
}

// The operators, behind which no byte may stand.
fn with_no_rest(operators: Vec<Operator>, rest: &[u8]) -> Result<Vec<Operator>, IrError>
    ensures read { Gives (λ operators. ops_of operators.items) result
        (ended (ops_of operators.items) rest.now) }
    ensures same { IfOk result (λ given. (given ≡ operators) × (rest.now ≡ [])) }
{
    match rest {
        [] => Ok(operators),
        [_, ..] => Err(IrError::Malformed),
    }
}

// Reads one operator that may stand in these open blocks, and gives it with the bytes after it.
fn read_next<'a, T: FunctionTypes>(
    alloc: Global,
    bytes: &'a [u8],
    loc: InstrLocId,
    blocks: &mut OpenBlocks,
    scope: &Scope<T>,
) -> Result<(Operator, &'a [u8]), IrError>
    ensures read { Gives (λ r. (op_of r.0, opened blocks.new, r.1.now)) result
        (next_at (context (ids_at scope.now.indices.now) (T.function_types scope.now.types.now)
        scope.now.features.now) (locals_at scope.now.locals.now) (opened blocks.old) bytes.now) }
    ensures located { IfOk result (λ r. r.0.loc ≡ loc) }
{
    let (operator, rest) = read_one(alloc, bytes, loc, scope)?;
    step_over(blocks, &operator)?;
    Ok((operator, rest))
}

// Reads one operator, and gives it with the bytes after it.
fn read_one<'a, T: FunctionTypes>(
    alloc: Global,
    bytes: &'a [u8],
    loc: InstrLocId,
    scope: &Scope<T>,
) -> Result<(Operator, &'a [u8]), IrError>
    ensures read { Gives (λ r. (op_of r.0, r.1.now)) result
        (op_at (context (ids_at scope.now.indices.now) (T.function_types scope.now.types.now)
        scope.now.features.now) (locals_at scope.now.locals.now) bytes.now) }
    ensures located { IfOk result (λ r. r.0.loc ≡ loc) }
{
    let (raw, rest) = read_operator(alloc, bytes)?;
    let operator = name_operator(alloc, &raw, loc, scope.indices, scope.locals)?;
    if scope.features.is_allowed(operator.op) && args_hold(scope.types, operator.args.as_slice()) {
        Ok((operator, rest))
    } else {
        Err(IrError::Malformed)
    }
}

// Steps over an operator that may stand in these open blocks.
fn step_over(blocks: &mut OpenBlocks, operator: &Operator) -> Result<(), IrError>
    ensures { Gives (λ _. opened blocks.new) result
        (blocks_after (op_of operator.now).op (op_of operator.now).args (opened blocks.old)) }
{
    if blocks.step(operator.op, operator.args.as_slice())? {
        Ok(())
    } else {
        Err(IrError::Malformed)
    }
}

// Whether each type of a block among the arguments is a function type.
pub(crate) fn args_hold<T: FunctionTypes>(types: &T, args: &[Arg]) -> bool
    ensures { result ≡ args_hold (T.function_types types.now) (map arg_of args.now) }
{
    for arg in args {
        if !block_holds(types, arg) {
            return false;
        }
    }
    true
}

// Whether the argument is no type of a block, or one that is a function type or none of the module's.
fn block_holds<T: FunctionTypes>(types: &T, arg: &Arg) -> bool
    ensures { result ≡ block_holds (T.function_types types.now) (arg_of arg.now) }
{
    match arg {
        Arg::Block(BlockType::OfType(id)) => types.is_function_type(*id),
        _ => true,
    }
}
