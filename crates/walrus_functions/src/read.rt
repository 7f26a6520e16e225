//! Reading a whole function (Binary Format > Modules > Code Section).
ghost use Rattle.std.specs.Prelude.{◌≡◌, true, IfOk, IfSome, OnOk};
ghost use Rattle.std.specs.Fn.{FnReturnsAt};
ghost use Rattle.walrus_base.specs.Id.{place};
ghost use Rattle.walrus_base.specs.Locals.{locals};
ghost use Rattle.walrus_base.specs.ModuleTypes.{type_slots};
ghost use Rattle.walrus_code.specs.Indices.{ids_at};
ghost use Rattle.walrus_bodies.specs.Function.{locations_of};
ghost use Rattle.walrus_bodies.specs.Body.{context};
ghost use Rattle.walrus_bodies.specs.BodyRead.{AddsLocals, BodyLocated};
ghost use Rattle.walrus_bodies.specs.FunctionTypes.{is_function_at};
ghost use Rattle.walrus_bodies.specs.PlainCode.{limits_in};
ghost use Rattle.walrus_bodies.specs.Scanned.{AreInPlace};
ghost use Rattle.walrus_functions.specs.Known.{IsOfTypes};
ghost use Rattle.walrus_functions.specs.ReadFunction.{Given, ReadsFunction, StaysInFront};
ghost use Rattle.walrus_functions.specs.Signatures.{slots_of, tag_places};

use crate::handlers::{HandlerTypes, add_handler_types};
use crate::plain::{find_plain, take_plain};
use std::alloc::{AllocError, Global};
use std::rc::Rc;
use walrus_base::{LocalId, ModuleLocals, ModuleTypes, TypeId, ValType};
use walrus_bodies::{Features, LocalFunction, PlainCode, read_body_over};
use walrus_code::{IndicesToIds, InstrLocId, IrError};

/// Reads the body of a function of a type from its bytes, which begin at `start` of the input. Its parameters and then its declared locals
/// are added to `module_locals`. The types of its legacy exception handlers are found among the types, or added to them: for a `catch` of a tag
/// with parameters p in a `try` with results r the type p to r, unless p is empty and r has at most one; for a `catch_all` the type of nothing
/// to r, where r has more than one. `tag_types` are the types of the tags, by their places.
///
/// Where `texts` is a code in which this body stands under its `number`, and within the limits of which each index is the place of its item, a
/// plain body is kept as it stands in the input; each operator's location is its place then. Those of another body are given by `locate`, by
/// the place of an operator's first byte.
///
/// There is no limit on declared locals here, and memory is taken for each: six bytes can declare 2^32 - 1 of them. Who reads bytes that weren't
/// checked first, as `check` of `wasm_wire` does for a whole module, gets what they declare.
///
/// Refused as [`IrError::Malformed`] where the bytes are no body. Locals may be added then; what was there stays.
pub fn read_body<L: Fn(&usize) -> InstrLocId>(
    alloc: Global,
    bytes: &[u8],
    start: usize,
    features: &Features,
    ty: TypeId,
    tag_types: &[TypeId],
    indices: &IndicesToIds,
    types: &mut ModuleTypes,
    module_locals: &mut ModuleLocals,
    locate: &L,
    texts: &Option<Rc<PlainCode>>,
    number: u32,
) -> Result<LocalFunction, IrError>
    requires typed { is_function_at types.old (place ty) ≡ true }
    requires callable { L.IsAlwaysCallable locate.now }
    requires in_place { IfSome texts.now (λ code. AreInPlace (limits_in code.value) (ids_at indices.now)) }
    ensures read { ReadsFunction (context (ids_at indices.now) (is_function_at types.old) features.now)
        (tag_places tag_types.now) (place ty) (slots_of types.old) (slots_of types.new)
        (locals module_locals.old) (locals module_locals.new) bytes.now result }
    ensures located { IfOk result (λ f. BodyLocated (Given texts.now (FnReturnsAt L.Fn locate.now)) start
        bytes.now (locations_of f)) }
    ensures types_stay { StaysInFront (type_slots types.old) (type_slots types.new) }
    ensures locals_stay { StaysInFront (locals module_locals.old) (locals module_locals.new) }
{
    let mut handlers = HandlerTypes::new(alloc);
    read_body_with(
        alloc,
        bytes,
        start,
        features,
        ty,
        tag_types,
        indices,
        types,
        module_locals,
        locate,
        texts,
        number,
        &mut handlers,
    )
}

/// The same, with what is known of the types of handlers from the bodies that were read before, and what is known behind it. Where many bodies have
/// handlers of the same tags and tries, each type is looked up once or twice, and not once a body. Refused, nothing is told of what is known.
pub fn read_body_with<L: Fn(&usize) -> InstrLocId>(
    alloc: Global,
    bytes: &[u8],
    start: usize,
    features: &Features,
    ty: TypeId,
    tag_types: &[TypeId],
    indices: &IndicesToIds,
    types: &mut ModuleTypes,
    module_locals: &mut ModuleLocals,
    locate: &L,
    texts: &Option<Rc<PlainCode>>,
    number: u32,
    handlers: &mut HandlerTypes,
) -> Result<LocalFunction, IrError>
    requires typed { is_function_at types.old (place ty) ≡ true }
    requires callable { L.IsAlwaysCallable locate.now }
    requires in_place { IfSome texts.now (λ code. AreInPlace (limits_in code.value) (ids_at indices.now)) }
    requires known { IsOfTypes (type_slots types.old) handlers.old }
    ensures read { ReadsFunction (context (ids_at indices.now) (is_function_at types.old) features.now)
        (tag_places tag_types.now) (place ty) (slots_of types.old) (slots_of types.new)
        (locals module_locals.old) (locals module_locals.new) bytes.now result }
    ensures located { IfOk result (λ f. BodyLocated (Given texts.now (FnReturnsAt L.Fn locate.now)) start
        bytes.now (locations_of f)) }
    ensures known { OnOk result (IsOfTypes (type_slots types.new) handlers.new) }
    ensures types_stay { StaysInFront (type_slots types.old) (type_slots types.new) }
    ensures locals_stay { StaysInFront (locals module_locals.old) (locals module_locals.new) }
{
    let params = types.get(ty).params().len();
    let first = module_locals.next_id().index();
    let found = find_plain(alloc, bytes, start, texts, number, params, first, types)?;
    if let Some(plain) = found {
        return take_plain(plain, ty, indices, types, module_locals);
    }
    read_list(
        alloc,
        bytes,
        start,
        features,
        ty,
        tag_types,
        indices,
        types,
        module_locals,
        locate,
        handlers,
    )
}

// The same of a body that becomes a list.
fn read_list<L: Fn(&usize) -> InstrLocId>(
    alloc: Global,
    bytes: &[u8],
    start: usize,
    features: &Features,
    ty: TypeId,
    tag_types: &[TypeId],
    indices: &IndicesToIds,
    types: &mut ModuleTypes,
    module_locals: &mut ModuleLocals,
    locate: &L,
    handlers: &mut HandlerTypes,
) -> Result<LocalFunction, IrError>
    requires typed { is_function_at types.old (place ty) ≡ true }
    requires callable { L.IsAlwaysCallable locate.now }
    requires known { IsOfTypes (type_slots types.old) handlers.old }
    ensures read { ReadsFunction (context (ids_at indices.now) (is_function_at types.old) features.now)
        (tag_places tag_types.now) (place ty) (slots_of types.old) (slots_of types.new)
        (locals module_locals.old) (locals module_locals.new) bytes.now result }
    ensures located { IfOk result (λ f. BodyLocated (FnReturnsAt L.Fn locate.now) start bytes.now
        (locations_of f)) }
    ensures known { OnOk result (IsOfTypes (type_slots types.new) handlers.new) }
    ensures types_stay { StaysInFront (type_slots types.old) (type_slots types.new) }
    ensures locals_stay { StaysInFront (locals module_locals.old) (locals module_locals.new) }
{
    let args = add_locals(alloc, types.get(ty).params(), module_locals)?;
    let body = read_body_over(
        alloc,
        bytes,
        start,
        features,
        indices,
        types,
        args.as_slice(),
        module_locals,
        locate,
    )?;
    let handler_types = add_handler_types(
        alloc,
        types,
        tag_types,
        body.operators.as_slice(),
        handlers,
    )?;
    let mut function = LocalFunction::new(alloc, ty, args, body.operators, None)?;
    function.set_handler_types(alloc, handler_types)?;
    Ok(function)
}

/// Adds a local of each type, in order. Where memory runs out, those that were added stay.
pub fn add_locals(
    alloc: Global,
    types: &[ValType],
    module_locals: &mut ModuleLocals,
) -> Result<Vec<LocalId>, AllocError>
    ensures added { IfOk result (λ ids. AddsLocals (locals module_locals.old)
        (locals module_locals.new) ids.items types.now) }
    ensures stays { StaysInFront (locals module_locals.old) (locals module_locals.new) }
{
    let mut ids = Vec::with_capacity(alloc, types.len())?;
    for ty in types {
        let id = module_locals.add(*ty)?;
        ids.push(id)?;
    }
    Ok(ids)
}
