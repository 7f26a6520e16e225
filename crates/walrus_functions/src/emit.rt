//! Writing the body of a function (Binary Format > Modules > Code Section).
ghost use Rattle.std.specs.Prelude.{◌≡◌, ◌<◌, ◌+◌, ◌++◌, ◌↔◌, ◌^◌, [], ℕ, List, Option, Some, true, length, map, All, IfOk, IsSome, IsTrue};
ghost use Rattle.std.specs.List.{range_with_len};
ghost use Rattle.walrus_base.specs.Arena.{item_at};
ghost use Rattle.walrus_base.specs.Id.{place};
ghost use Rattle.walrus_base.specs.Operators.{locals_of};
ghost use Rattle.walrus_base.specs.Locals.{locals};
ghost use Rattle.walrus_base.specs.ModuleTypes.{type_slots};
ghost use Rattle.walrus_base.specs.Value.{val_type};
ghost use Rattle.walrus_bodies.specs.Function.{function_type, body_of, locations_of, args_of};
ghost use Rattle.walrus_code.specs.Indices.{index_of, local_index};
ghost use Rattle.walrus_bodies.specs.Declarations.{declarations_of};
ghost use Rattle.walrus_bodies.specs.Results.{kept_if};
ghost use Rattle.walrus_functions.specs.Code.{IsFlagged, is_listed, locations_of_code, ops_of_code};
ghost use Rattle.walrus_functions.specs.Declaring.{AreOnce};
ghost use Rattle.walrus_functions.specs.EmittedBody.{EmitsBody, source_of, types_of};
ghost use Rattle.walrus_functions.specs.Writing.{HasSignature, FindsDeclared, DeclaresLocals, WritesBehind};

use crate::code::{Code, append_code, code_holds, code_locals, code_of, code_uses, likely_length};
use crate::declared::{distinct_places, order_declared, type_at};
use crate::groups::{declarations, number_locals, runs};
use std::alloc::{AllocError, Global};
use walrus_base::{LocalId, ModuleLocals, ModuleTypes, ValType};
use walrus_bodies::{Declaration, Features, LocalFunction};
use walrus_code::{IdsToIndices, InstrLocId, IrError, LocalNumbers};
use wasm_forms::write_vector;

/// The body of a function as it is written.
#[derive(Drop)]
pub struct EmittedBody {
    /// Its bytes: the declarations of locals and the operators, without the size that stands before them in the code section.
    pub bytes: Vec<u8>,
    /// The location of each operator, with the place of its first byte, counted from the front of `bytes`.
    pub places: Vec<(InstrLocId, usize)>,
    /// The index of each parameter and of each local that the body uses.
    pub locals: LocalNumbers,
    /// The body's locals by their indices: its parameters, and then those that it declares.
    pub order: Vec<LocalId>,
    /// Whether its operators name each of these.
    pub used: Vec<bool>,
}

/// The bytes of a function's body, with numbers in their shortest spelling. It declares the locals that it uses beside its parameters, one
/// declaration a type: i32, i64, f32, f64, v128, then references by their lowest local; locals of one type by their ids.
///
/// # Errors
///
/// [`IrError::NoIndex`] where an item or a local that its operators name, or an item in the type of a declared local, has no index.
/// [`IrError::NotWritable`] where the body isn't well formed: its operators don't close each block and at last the function, use a proposal
/// that `features` doesn't allow, or one of them is spelled by no bytes; the type of a block is no function type; the parameters aren't distinct locals,
/// one for each parameter of the function's type and of its value type; it uses a local of an exact type beside them.
/// [`IrError::TooLarge`] where it has more than 2^32 locals, or 2^32 beside its parameters, and [`IrError::Memory`].
pub fn emit_body(
    alloc: Global,
    function: &LocalFunction,
    types: &ModuleTypes,
    module_locals: &ModuleLocals,
    indices: &IdsToIndices,
    features: &Features,
) -> Result<EmittedBody, IrError>
    ensures written { EmitsBody
        (source_of indices.now module_locals.now types.now function.now features.now)
        (λ body. body.bytes.items) (λ body. map (λ p. p.1) body.places.items)
        (λ body. local_index body.locals) (λ body. map place body.order.items)
        (λ body. body.used.items) result }
    ensures located { IfOk result (λ body. map (λ p. p.0) body.places.items
        ≡ locations_of function.now) }
{
    emit_body_with(
        alloc,
        function,
        types,
        module_locals,
        indices,
        features,
        true,
    )
}

/// The same, but for `places`: they are told only if `asks_places` is true, and else empty.
///
/// # Errors
///
/// As [`emit_body`].
pub fn emit_body_with(
    alloc: Global,
    function: &LocalFunction,
    types: &ModuleTypes,
    module_locals: &ModuleLocals,
    indices: &IdsToIndices,
    features: &Features,
    asks_places: bool,
) -> Result<EmittedBody, IrError>
    ensures written { (places : List ℕ) × (EmitsBody
        (source_of indices.now module_locals.now types.now function.now features.now)
        (λ body. body.bytes.items) (λ _. places) (λ body. local_index body.locals)
        (λ body. map place body.order.items) (λ body. body.used.items) result
        × IfOk result (λ body. map (λ p. p.1) body.places.items ≡ kept_if asks_places places)) }
    ensures located { IfOk result (λ body. map (λ p. p.0) body.places.items
        ≡ kept_if asks_places (locations_of function.now)) }
{
    let code = code_of(alloc, function, asks_places)?;
    let mut bytes = Vec::with_capacity(alloc, likely_length(function))?;
    let known = append_all(
        alloc,
        function,
        &code,
        types,
        module_locals,
        indices,
        features,
        asks_places,
        &mut bytes,
    )?;
    bytes.shrink_to_fit();
    Ok(EmittedBody {
        bytes,
        places: known.places,
        locals: known.locals,
        order: known.order,
        used: known.used,
    })
}

// All that is known of a body that was appended.
#[derive(Drop)]
pub(crate) struct KnownBody {
    // As far as asked for: the location of each operator, with the place of its first byte, counted from the front of the body.
    pub(crate) places: Vec<(InstrLocId, usize)>,
    // The index of each parameter and of each local that the body uses.
    pub(crate) locals: LocalNumbers,
    // The body's locals by their indices.
    pub(crate) order: Vec<LocalId>,
    // Whether its operators name each of these.
    pub(crate) used: Vec<bool>,
}

// Appends the bytes of a function's body, whose operators these are; where places are asked for, as the first ones.
pub(crate) fn append_all(
    alloc: Global,
    function: &LocalFunction,
    code: &Code,
    types: &ModuleTypes,
    module_locals: &ModuleLocals,
    indices: &IdsToIndices,
    features: &Features,
    asks_places: bool,
    to: &mut Vec<u8>,
) -> Result<KnownBody, IrError>
    requires body { ops_of_code code.now ≡ body_of function.now }
    requires locations { locations_of_code code.now ≡ locations_of function.now }
    requires flagged { IsFlagged code.now }
    requires listed { asks_places ≡ true → is_listed code.now ≡ true }
    requires alone { asks_places ≡ true → to.old.items ≡ [] }
    ensures written { (bytes places : List ℕ) × (EmitsBody
        (source_of indices.now module_locals.now types.now function.now features.now)
        (λ _. bytes) (λ _. places) (λ body. local_index body.locals)
        (λ body. map place body.order.items) (λ body. body.used.items) result
        × IfOk result (λ body. (to.new.items ≡ to.old.items ++ bytes)
        × (map (λ p. p.1) body.places.items ≡ kept_if asks_places places))) }
    ensures located { IfOk result (λ body. map (λ p. p.0) body.places.items
        ≡ kept_if asks_places (locations_of function.now)) }
{
    let parameters = function.args(alloc)?;
    let args = parameters.as_slice();
    let fits = parameters_fit(function, args, types, module_locals);
    if !fits {
        return Err(IrError::NotWritable);
    }
    let hold = code_holds(types, code)?;
    if !hold {
        return Err(IrError::NotWritable);
    }
    let named = code_locals(alloc, code)?;
    let declared = find_declared(alloc, function, args, named.as_slice(), module_locals)?;
    if declared.len() >= 1 << 32 {
        return Err(IrError::TooLarge);
    }
    let all = joined(alloc, args, declared.as_slice())?;
    if all.len() > 1 << 32 {
        return Err(IrError::TooLarge);
    }
    let declarations = declare(alloc, declared.as_slice(), module_locals, indices)?;
    let locals = number_locals(alloc, all.as_slice())?;
    let used = code_uses(alloc, code, all.as_slice(), named.as_slice())?;
    let scope = Scope {
        indices,
        features,
        asks_places,
    };
    write_body(
        alloc,
        code,
        declarations.as_slice(),
        locals,
        all,
        used,
        &scope,
        to,
    )
}

// Whether a local is there and holds this type.
fn is_of_type(module_locals: &ModuleLocals, id: LocalId, ty: ValType) -> bool
    ensures { IsTrue result
        ↔ (item_at (types_of (locals module_locals.now)) (place id) ≡ Some (val_type ty)) }
{
    let Some(held) = type_at(module_locals, id) else {
        return false;
    };
    held == ty
}

// Whether locals are there and hold these types, one each.
fn are_of_types(module_locals: &ModuleLocals, ids: &[LocalId], wanted: &[ValType]) -> bool
    ensures { IsTrue result
        ↔ (map (item_at (types_of (locals module_locals.now))) (map place ids.now)
        ≡ map Some (map val_type wanted.now)) }
{
    let count = ids.len();
    if wanted.len() != count {
        return false;
    }
    'ids: for index in 0..count {
        if !is_of_type(module_locals, ids[index], wanted[index]) {
            return false;
        }
    }
    true
}

// Whether the function's type takes what its parameters hold.
pub(crate) fn parameters_fit(
    function: &LocalFunction,
    args: &[LocalId],
    types: &ModuleTypes,
    module_locals: &ModuleLocals,
) -> bool
    requires { map place args.now ≡ args_of function.now }
    ensures { IsTrue result
        ↔ HasSignature (item_at (type_slots types.now) (place (function_type function.now)))
        (types_of (locals module_locals.now)) (args_of function.now) }
{
    if !types.contains(function.ty()) {
        return false;
    }
    let Some(signature) = types.get(function.ty()).as_function() else {
        return false;
    };
    are_of_types(module_locals, args, signature.params())
}

// Whether the locals from a place on are there and hold these types, one each.
fn are_of_types_from(module_locals: &ModuleLocals, first: usize, wanted: &[ValType]) -> bool
    requires { first + length wanted.now < 2 ^ 64 }
    ensures { IsTrue result ↔ (map (item_at (types_of (locals module_locals.now)))
        (range_with_len first (length wanted.now)) ≡ map Some (map val_type wanted.now)) }
{
    'wanted: for index in 0..wanted.len() {
        if !is_of_type(module_locals, LocalId::at(first + index), wanted[index]) {
            return false;
        }
    }
    true
}

// The same as `parameters_fit` where so many locals from a place on are the parameters.
pub(crate) fn parameters_fit_from(
    function: &LocalFunction,
    first: usize,
    params: usize,
    types: &ModuleTypes,
    module_locals: &ModuleLocals,
) -> bool
    requires parameters { args_of function.now ≡ range_with_len first params }
    requires room { first + params < 2 ^ 64 }
    ensures { IsTrue result
        ↔ HasSignature (item_at (type_slots types.now) (place (function_type function.now)))
        (types_of (locals module_locals.now)) (args_of function.now) }
{
    if !types.contains(function.ty()) {
        return false;
    }
    let Some(signature) = types.get(function.ty()).as_function() else {
        return false;
    };
    let wanted = signature.params();
    let many = wanted.len();
    if many != params {
        return false;
    }
    are_of_types_from(module_locals, first, wanted)
}

// The locals that the function declares, in their order, where its parameters differ. These are named by its operators, each once.
fn find_declared(
    alloc: Global,
    function: &LocalFunction,
    args: &[LocalId],
    named: &[LocalId],
    module_locals: &ModuleLocals,
) -> Result<Vec<LocalId>, IrError>
    requires parameters { map place args.now ≡ args_of function.now }
    requires named { AreOnce (locals_of (body_of function.now)) (map place named.now) }
    ensures { FindsDeclared (types_of (locals module_locals.now)) (locals_of (body_of function.now))
        (args_of function.now) (λ ids. map place ids.items) result }
{
    let Some(parameters) = distinct_places(alloc, args)? else {
        return Err(IrError::NotWritable);
    };
    Ok(order_declared(alloc, named, &parameters, module_locals)?)
}

// The parameters and then the declared locals.
fn joined(alloc: Global, args: &[LocalId], declared: &[LocalId]) -> Result<Vec<LocalId>, AllocError>
    ensures { IfOk result (λ all. all.items ≡ args.now ++ declared.now) }
{
    let mut all = Vec::with_capacity(alloc, args.len().saturating_add(declared.len()))?;
    all.extend_from_slice(args)?;
    all.extend_from_slice(declared)?;
    Ok(all)
}

// The declarations of locals in this order.
pub(crate) fn declare(
    alloc: Global,
    declared: &[LocalId],
    module_locals: &ModuleLocals,
    indices: &IdsToIndices,
) -> Result<Vec<Declaration>, IrError>
    requires there { All (λ id. IsSome (item_at (types_of (locals module_locals.now)) (place id)))
        declared.now }
    requires few { length declared.now < 2 ^ 32 }
    ensures { DeclaresLocals (index_of indices.now) (types_of (locals module_locals.now))
        (map place declared.now) (λ ds. declarations_of ds.items) result }
{
    let groups = runs(alloc, module_locals, declared)?;
    declarations(alloc, groups.as_slice(), indices)
}

// What a body is written under: the numbers of items, the proposals that it may use, and whether the places of its operators are
// asked for.
#[derive(Clone, Copy)]
struct Scope<'a> {
    indices: &'a IdsToIndices,
    features: &'a Features,
    asks_places: bool,
}

// Appends declarations, and the operators behind them. What is known of the locals is handed on.
fn write_body(
    alloc: Global,
    code: &Code,
    declarations: &[Declaration],
    locals: LocalNumbers,
    order: Vec<LocalId>,
    used: Vec<bool>,
    scope: &Scope,
    to: &mut Vec<u8>,
) -> Result<KnownBody, IrError>
    requires few { length declarations.now < 2 ^ 32 }
    requires listed { scope.now.asks_places ≡ true → is_listed code.now ≡ true }
    requires alone { scope.now.asks_places ≡ true → to.old.items ≡ [] }
    ensures written { (bytes places : List ℕ) × (WritesBehind (index_of scope.now.indices.now)
        (local_index locals) scope.now.features.now (ops_of_code code.now) (declarations_of declarations.now)
        (λ _. bytes) (λ _. places) result
        × IfOk result (λ body. (to.new.items ≡ to.old.items ++ bytes)
        × (map (λ p. p.1) body.places.items ≡ kept_if scope.now.asks_places places))) }
    ensures located { IfOk result (λ body. map (λ p. p.0) body.places.items
        ≡ kept_if scope.now.asks_places (locations_of_code code.now)) }
    ensures numbered { IfOk result (λ body. body.locals ≡ locals) }
    ensures ordered { IfOk result (λ body. body.order ≡ order) }
    ensures marked { IfOk result (λ body. body.used ≡ used) }
{
    write_vector(to, declarations)?;
    let (indices, features) = (scope.indices, scope.features);
    let asks_places = scope.asks_places;
    let places = append_code(alloc, to, code, indices, &locals, features, asks_places)?;
    Ok(KnownBody {
        places,
        locals,
        order,
        used,
    })
}
