//! Reading the body of a function (Binary Format > Modules > Code Section).
ghost use Rattle.std.specs.Prelude.{◌≡◌, ◌++◌, map, IfOk};
ghost use Rattle.std.specs.Fn.{FnReturnsAt};
ghost use Rattle.walrus_base.specs.Id.{place};
ghost use Rattle.walrus_base.specs.Locals.{locals};
ghost use Rattle.walrus_code.specs.Indices.{ids_at};
ghost use Rattle.walrus_bodies.specs.Body.{context};
ghost use Rattle.walrus_bodies.specs.BodyRead.{ReadsBody, Declares, BodyLocated, AddsLocals, Grows};
ghost use Rattle.walrus_bodies.specs.Declarations.{declarations_of};
ghost use Rattle.walrus_bodies.specs.Results.{locations};

use crate::declarations::{Declaration, name_types, read_declarations};
use crate::features::Features;
use crate::read::read_operators;
use crate::types::FunctionTypes;
use std::alloc::{AllocError, Global};
use walrus_base::{LocalId, ModuleLocals, ValType};
use walrus_code::{IndicesToIds, InstrLocId, IrError, Operator};

/// The body of a function.
#[derive(Drop)]
pub struct ReadBody {
    /// The declared locals, in order.
    pub declared: Vec<LocalId>,
    /// Its operators. The last one is the `0B` that closes the function.
    pub operators: Vec<Operator>,
}

/// Reads the bytes of a body over the function's parameters, which are `args`; the bytes begin at `start` of the input. The declared locals
/// are added to `module_locals` in order, and `locate` gives each operator its location by the place of its first byte.
///
/// There is no limit on declared locals here, and memory is taken for each: six bytes can declare 2^32 - 1 of them. Who reads bytes that weren't
/// checked first, as `check` of `wasm_wire` does for a whole module, gets what they declare.
///
/// Refused as [`IrError::Malformed`] where the bytes are no body, as `read_operators` says of operators. Declared locals may be added
/// then; what was there stays.
pub fn read_body_over<T: FunctionTypes, L: Fn(&usize) -> InstrLocId>(
    alloc: Global,
    bytes: &[u8],
    start: usize,
    features: &Features,
    indices: &IndicesToIds,
    types: &T,
    args: &[LocalId],
    module_locals: &mut ModuleLocals,
    locate: &L,
) -> Result<ReadBody, IrError>
    requires { L.IsAlwaysCallable locate.now }
    ensures read { ReadsBody (context (ids_at indices.now) (T.function_types types.now) features.now)
        (map place args.now) (locals module_locals.old) (locals module_locals.new) bytes.now result }
    ensures located { IfOk result (λ body. BodyLocated (FnReturnsAt L.Fn locate.now) start bytes.now
        (locations body.operators.items)) }
    ensures stays { Grows (locals module_locals.old) (locals module_locals.new) }
{
    let (declarations, rest) = read_declarations(alloc, bytes)?;
    let declared = declare(alloc, declarations.as_slice(), indices, module_locals)?;
    let all = joined(alloc, args, declared.as_slice())?;
    let offset = bytes.len().saturating_sub(rest.len());
    let begin = start.saturating_add(offset);
    let operators = read_operators(
        alloc,
        rest,
        begin,
        features,
        indices,
        types,
        all.as_slice(),
        locate,
    )?;
    Ok(ReadBody {
        declared,
        operators,
    })
}

// The parameters and then the declared locals.
fn joined(alloc: Global, args: &[LocalId], declared: &[LocalId]) -> Result<Vec<LocalId>, AllocError>
    ensures { IfOk result (λ all. all.items ≡ args.now ++ declared.now) }
{
    let mut all = Vec::new(alloc);
    all.extend_from_slice(args)?;
    all.extend_from_slice(declared)?;
    Ok(all)
}

// Adds the locals that a body declares to those of the module, in order, and answers them.
//
// Refused as `IrError::Malformed` where a type isn't declared, also one of which there are no locals. Locals may be added then; what was
// there stays.
fn declare(
    alloc: Global,
    declarations: &[Declaration],
    indices: &IndicesToIds,
    module_locals: &mut ModuleLocals,
) -> Result<Vec<LocalId>, IrError>
    ensures declared { Declares (ids_at indices.now) (declarations_of declarations.now)
        (locals module_locals.old) (locals module_locals.new) (λ ids. ids.items) result }
    ensures stays { Grows (locals module_locals.old) (locals module_locals.new) }
{
    let types = name_types(alloc, declarations, indices)?;
    let declared = add_locals(alloc, module_locals, types.as_slice())?;
    Ok(declared)
}

// Adds a local of each type, in order.
fn add_locals(
    alloc: Global,
    module_locals: &mut ModuleLocals,
    types: &[ValType],
) -> Result<Vec<LocalId>, AllocError>
    ensures added { IfOk result (λ ids. AddsLocals (locals module_locals.old)
        (locals module_locals.new) ids.items types.now) }
    ensures stays { Grows (locals module_locals.old) (locals module_locals.new) }
{
    let mut ids = Vec::new(alloc);
    for ty in types {
        let id = module_locals.add(*ty)?;
        ids.push(id)?;
    }
    Ok(ids)
}
