//! Operators that come to stand in front of a body (Binary Format > Instructions > Expressions).

ghost use Rattle.std.specs.Prelude.{◌≡◌, ◌++◌, MatchResult, map};
ghost use Rattle.walrus_base.specs.Id.{place};
ghost use Rattle.walrus_code.specs.Code.{ops_of};
ghost use Rattle.walrus_code.specs.Indices.{ids_at, index_of};
ghost use Rattle.walrus_items.specs.Errors.{out_of_memory};
ghost use Rattle.walrus_items.specs.Function.{KeepsOthers, body_of};
ghost use Rattle.walrus_module.specs.View.{contents_of};
ghost use Rattle.walrus_edit_list.specs.Fronts.{FrontsFunction, FrontsKind, IsFront, IsNoFront, RefusesFront, RefusesKind, but_last};
ghost use Rattle.walrus_edit_list.specs.Functions.{RefusesForm};
ghost use Rattle.walrus_edit_list.specs.Joined.{LeadsToItself};

use crate::ids::ids_of;
use crate::joined::front_text;
use std::alloc::Global;
use walrus_base::{FunctionId, LocalId, ModuleTypes};
use walrus_bodies::{Features, LocalFunction, read_operators};
use walrus_code::{IdsToIndices, IndicesToIds, InstrLocId, Operator};
use walrus_items::{Error, FunctionKind, Result};
use walrus_module::Module;

/// The byte of `end`, which closes a body.
const END: u8 = 11;

// Reads these bytes, with an `end` behind them, as operators over these parameters, none of them of legacy exceptions.
fn read_front(
    alloc: Global,
    bytes: &[u8],
    features: &Features,
    ids: &IndicesToIds,
    types: &ModuleTypes,
    parameters: &[LocalId],
) -> Result<Vec<Operator>>
    ensures { MatchResult result
        (λ operators. IsFront (ids_at ids.now) types.now features.now bytes.now
        (map place parameters.now) (ops_of operators.items))
        (RefusesForm (IsNoFront (ids_at ids.now) types.now features.now bytes.now
        (map place parameters.now))) }
{
    let mut closed = Vec::new(alloc);
    closed.extend_from_slice(bytes)?;
    closed.push(END)?;
    let allowed = Features {
        legacy_exceptions: false,
        only_stable: features.only_stable,
    };
    let nowhere = |_place: &usize| -> InstrLocId { InstrLocId::DEFAULT };
    Ok(read_operators(
        alloc,
        closed.as_slice(),
        0,
        &allowed,
        ids,
        types,
        parameters,
        &nowhere,
    )?)
}

// Puts operators, but for the last one, in front of those of a function. `Memory` is the only error.
fn put_front(alloc: Global, mut front: Vec<Operator>, own: &mut LocalFunction) -> Result<()>
    ensures { MatchResult result
        (λ _. (body_of own.new ≡ but_last (ops_of front.items) ++ body_of own.old)
        × KeepsOthers own.old own.new)
        (λ e. e ≡ out_of_memory) }
{
    let _end = front.pop();
    own.put_front(alloc, front)?;
    Ok(())
}

// The same of what these bytes are, closed by an `end`, of a function that has a body.
fn front_kind(
    alloc: Global,
    bytes: &[u8],
    features: &Features,
    ids: &IndicesToIds,
    places: &IdsToIndices,
    types: &ModuleTypes,
    kind: &mut FunctionKind,
) -> Result<()>
    requires ids { LeadsToItself (ids_at ids.now) }
    requires places { LeadsToItself (index_of places.now) }
    ensures { MatchResult result
        (λ _. FrontsKind (ids_at ids.now) types.now features.now bytes.now kind.old kind.new)
        (RefusesKind (ids_at ids.now) types.now features.now bytes.now kind.old) }
{
    let FunctionKind::Local(own) = kind else {
        return Err(Error::NotReplaceable);
    };
    let parameters = own.args(alloc)?;
    let front = read_front(alloc, bytes, features, ids, types, parameters.as_slice())?;
    if let Some(made) = front_text(alloc, bytes, own, ids, places)? {
        *own = made;
        return Ok(());
    }
    put_front(alloc, front, own)?;
    Ok(())
}

/// Puts the operators that these bytes are in front of the body of the function of this number. They name ids as indices, and of locals the
/// function's parameters. No `end` stands behind them, and none of them is of legacy exceptions. All else of the function stays.
///
/// # Errors
///
/// `DeadItem` exactly where it isn't there, `NotReplaceable` exactly where it has no body, `InvalidWasm` only where the bytes are no such operators,
/// `TooLarge` only where more than 2^32 ids of a space were given, and `Memory`.
pub(crate) fn front_function<S>(
    alloc: Global,
    number: u32,
    bytes: &[u8],
    features: &Features,
    places: &IdsToIndices,
    module: &mut Module<S>,
) -> Result<()>
    requires places { LeadsToItself (index_of places.now) }
    ensures { MatchResult result
        (λ _. FrontsFunction features.now number bytes.now (contents_of «module».old)
        (contents_of «module».new))
        (RefusesFront features.now number bytes.now (contents_of «module».old)) }
{
    let id = FunctionId::at(number as usize);
    if !module.funcs.contains(id) {
        return Err(Error::DeadItem);
    }
    let ids = ids_of(alloc, module)?;
    let kind = &mut module.funcs.get_mut(id).kind;
    front_kind(alloc, bytes, features, &ids, places, &module.types, kind)?;
    Ok(())
}
