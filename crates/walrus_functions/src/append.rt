//! Appending the body of a function (Binary Format > Modules > Code Section).
ghost use Rattle.std.specs.Prelude.{◌≡◌, ◌<◌, ◌≤◌, ◌+◌, ◌++◌, ◌^◌, ◌↔◌, [], ℕ, List, Option, Some, false, length, map, IfOk, IsTrue};
ghost use Rattle.walrus_base.specs.Arena.{item_at};
ghost use Rattle.walrus_base.specs.Id.{place};
ghost use Rattle.walrus_base.specs.Operators.{locals_of};
ghost use Rattle.walrus_base.specs.Locals.{locals};
ghost use Rattle.walrus_base.specs.ModuleTypes.{type_slots};
ghost use Rattle.walrus_bodies.specs.Function.{as_text, arg_count_of, body_of, locations_of};
ghost use Rattle.walrus_bodies.specs.Locals.{AreMarked};
ghost use Rattle.walrus_bodies.specs.Text.{first_local_of, local_count_of, locations_in, ops_in};
ghost use Rattle.walrus_code.specs.Indices.{index_of};
ghost use Rattle.walrus_bodies.specs.Declarations.{declarations_of};
ghost use Rattle.walrus_bodies.specs.declared.features.Features.{Features as Proposals};
ghost use Rattle.walrus_functions.specs.Appending.{AppendsBody};
ghost use Rattle.walrus_functions.specs.Code.{IsFlagged, locations_of_code, ops_of_code};
ghost use Rattle.walrus_functions.specs.EmittedBody.{EmitsBody, source_of, takes, types_of};
ghost use Rattle.walrus_functions.specs.Kept.{KeepsIndices, StayInPlace};
ghost use Rattle.walrus_functions.specs.Writing.{WritesBehind};

use crate::code::{Code, code_of};
use crate::emit::{append_all, declare, parameters_fit, parameters_fit_from};
use crate::groups::declare_from;
use crate::kept::{are_ranked, keeps_indices};
use std::alloc::Global;
use walrus_base::{LocalId, ModuleLocals, ModuleTypes, TypeId};
use walrus_bodies::{Declaration, Features, LocalFunction, Text};
use walrus_code::{IdsToIndices, IrError};
use wasm_forms::write_vector;

/// What is told of a body that was appended.
#[derive(Drop)]
pub struct AppendedBody {
    /// The body's locals by their indices: its parameters, and then those that it declares.
    pub order: Vec<LocalId>,
    /// Whether its operators name each of these.
    pub used: Vec<bool>,
}

/// Appends the bytes of a function's body, as [`emit_body`] makes them; and tells of its locals, where `tells` is true. Else what is told of them
/// means nothing, and may be empty. Refused, what was appended means nothing.
///
/// # Errors
///
/// As [`emit_body`].
pub fn append_body(
    alloc: Global,
    function: &LocalFunction,
    types: &ModuleTypes,
    module_locals: &ModuleLocals,
    indices: &IdsToIndices,
    features: &Features,
    tells: bool,
    to: &mut Vec<u8>,
) -> Result<AppendedBody, IrError>
    ensures written { AppendsBody
        (source_of indices.now module_locals.now types.now function.now features.now) tells
        (λ body. map place body.order.items) (λ body. body.used.items) to.old.items to.new.items result }
{
    match function.text() {
        Some(text) => append_text(
            alloc,
            function,
            text,
            types,
            module_locals,
            indices,
            features,
            tells,
            to,
        ),
        None => {
            let code = code_of(alloc, function, false)?;
            append_any(
                alloc,
                function,
                &code,
                types,
                module_locals,
                indices,
                features,
                to,
            )
        }
    }
}

// The same, without a look at how the body is kept: its operators are these.
fn append_any(
    alloc: Global,
    function: &LocalFunction,
    code: &Code,
    types: &ModuleTypes,
    module_locals: &ModuleLocals,
    indices: &IdsToIndices,
    features: &Features,
    to: &mut Vec<u8>,
) -> Result<AppendedBody, IrError>
    requires body { ops_of_code code.now ≡ body_of function.now }
    requires locations { locations_of_code code.now ≡ locations_of function.now }
    requires flagged { IsFlagged code.now }
    ensures { (bytes places : List ℕ) × (numbers : ℕ → Option ℕ) × (EmitsBody
        (source_of indices.now module_locals.now types.now function.now features.now)
        (λ _. bytes) (λ _. places) (λ _. numbers) (λ body. map place body.order.items)
        (λ body. body.used.items) result
        × IfOk result (λ _. to.new.items ≡ to.old.items ++ bytes)) }
{
    let known = append_all(
        alloc,
        function,
        code,
        types,
        module_locals,
        indices,
        features,
        false,
        to,
    )?;
    Ok(AppendedBody {
        order: known.order,
        used: known.used,
    })
}

// The same of a body that stands as in the input: its locals may keep their indices.
fn append_text(
    alloc: Global,
    function: &LocalFunction,
    text: &Text,
    types: &ModuleTypes,
    module_locals: &ModuleLocals,
    indices: &IdsToIndices,
    features: &Features,
    tells: bool,
    to: &mut Vec<u8>,
) -> Result<AppendedBody, IrError>
    requires text { as_text function.now ≡ Some text.now }
    requires body { body_of function.now ≡ ops_in text.now }
    requires locations { locations_of function.now ≡ locations_in text.now }
    ensures { AppendsBody
        (source_of indices.now module_locals.now types.now function.now features.now) tells
        (λ body. map place body.order.items) (λ body. body.used.items) to.old.items to.new.items result }
{
    if text.local_count() == 0 && function.arg_count() == 0 {
        return append_bare(
            alloc,
            function,
            text,
            types,
            module_locals,
            indices,
            features,
            to,
        );
    }
    if stays_in_place(function, text, module_locals, tells) {
        return append_in_place(
            alloc,
            function,
            text,
            types,
            module_locals,
            indices,
            features,
            to,
        );
    }
    append_used(
        alloc,
        function,
        text,
        types,
        module_locals,
        indices,
        features,
        to,
    )
}

// The same by a look at which locals are used.
fn append_used(
    alloc: Global,
    function: &LocalFunction,
    text: &Text,
    types: &ModuleTypes,
    module_locals: &ModuleLocals,
    indices: &IdsToIndices,
    features: &Features,
    to: &mut Vec<u8>,
) -> Result<AppendedBody, IrError>
    requires text { as_text function.now ≡ Some text.now }
    requires body { body_of function.now ≡ ops_in text.now }
    requires locations { locations_of function.now ≡ locations_in text.now }
    ensures { (bytes places : List ℕ) × (numbers : ℕ → Option ℕ) × (EmitsBody
        (source_of indices.now module_locals.now types.now function.now features.now)
        (λ _. bytes) (λ _. places) (λ _. numbers) (λ body. map place body.order.items)
        (λ body. body.used.items) result
        × IfOk result (λ _. to.new.items ≡ to.old.items ++ bytes)) }
{
    let used = text.used_locals(alloc)?;
    let first = text.first_local() as usize;
    let count = text.local_count() as usize;
    let params = function.arg_count();
    if keeps_indices(module_locals, used.as_slice(), first, params, count) {
        return append_kept(
            alloc,
            function,
            text,
            used,
            types,
            module_locals,
            indices,
            features,
            to,
        );
    }
    append_any(
        alloc,
        function,
        &Code::Text { text, used },
        types,
        module_locals,
        indices,
        features,
        to,
    )
}

// The same where there are none.
fn append_bare(
    alloc: Global,
    function: &LocalFunction,
    text: &Text,
    types: &ModuleTypes,
    module_locals: &ModuleLocals,
    indices: &IdsToIndices,
    features: &Features,
    to: &mut Vec<u8>,
) -> Result<AppendedBody, IrError>
    requires text { as_text function.now ≡ Some text.now }
    requires body { body_of function.now ≡ ops_in text.now }
    requires bare { local_count_of text.now ≡ 0 }
    requires no_parameters { arg_count_of function.now ≡ 0 }
    ensures { (bytes places : List ℕ) × (numbers : ℕ → Option ℕ) × (EmitsBody
        (source_of indices.now module_locals.now types.now function.now features.now)
        (λ _. bytes) (λ _. places) (λ _. numbers) (λ body. map place body.order.items)
        (λ body. body.used.items) result
        × IfOk result (λ _. to.new.items ≡ to.old.items ++ bytes)) }
{
    text.is_plain();
    function.args_are_first();
    let fits = takes_nothing(types, function.ty());
    if !fits {
        return Err(IrError::NotWritable);
    }
    let hold = text.blocks_hold(types)?;
    if !hold {
        return Err(IrError::NotWritable);
    }
    write_kept(to, &[], text, indices)?;
    Ok(AppendedBody {
        order: Vec::new(alloc),
        used: Vec::new(alloc),
    })
}

// Whether this is the type of a function without parameters.
fn takes_nothing(types: &ModuleTypes, ty: TypeId) -> bool
    ensures { IsTrue result ↔ (takes (item_at (type_slots types.now) (place ty)) ≡ Some []) }
{
    if !types.contains(ty) {
        return false;
    }
    match types.get(ty).as_function() {
        Some(signature) => signature.params().is_empty(),
        None => false,
    }
}

// The same where they keep them.
fn append_kept(
    alloc: Global,
    function: &LocalFunction,
    text: &Text,
    used: Vec<bool>,
    types: &ModuleTypes,
    module_locals: &ModuleLocals,
    indices: &IdsToIndices,
    features: &Features,
    to: &mut Vec<u8>,
) -> Result<AppendedBody, IrError>
    requires text { as_text function.now ≡ Some text.now }
    requires body { body_of function.now ≡ ops_in text.now }
    requires used { AreMarked (first_local_of text.now) used.items (locals_of (ops_in text.now)) }
    requires many { length used.items ≡ local_count_of text.now }
    requires few { local_count_of text.now < 2 ^ 32 }
    requires kept { KeepsIndices (types_of (locals module_locals.now)) used.items (first_local_of text.now)
        (arg_count_of function.now) (local_count_of text.now) }
    ensures { (bytes places : List ℕ) × (numbers : ℕ → Option ℕ) × (EmitsBody
        (source_of indices.now module_locals.now types.now function.now features.now)
        (λ _. bytes) (λ _. places) (λ _. numbers) (λ body. map place body.order.items)
        (λ body. body.used.items) result
        × IfOk result (λ _. to.new.items ≡ to.old.items ++ bytes)) }
{
    function.args_are_first();
    let order = text.locals(alloc)?;
    let (parameters, declared) = order.as_slice().split_at(function.arg_count());
    let fits = parameters_fit(function, parameters, types, module_locals);
    if !fits {
        return Err(IrError::NotWritable);
    }
    let hold = text.blocks_hold(types)?;
    if !hold {
        return Err(IrError::NotWritable);
    }
    let declarations = declare(alloc, declared, module_locals, indices)?;
    write_kept(to, declarations.as_slice(), text, indices)?;
    Ok(AppendedBody { order, used })
}

// Appends declarations, and the operators behind them, where the locals keep their indices.
fn write_kept(
    to: &mut Vec<u8>,
    declarations: &[Declaration],
    text: &Text,
    indices: &IdsToIndices,
) -> Result<(), IrError>
    requires { length declarations.now < 2 ^ 32 }
    ensures { (numbers : ℕ → Option ℕ) (features : Proposals)
        → ((i : ℕ) → i < local_count_of text.now → numbers (first_local_of text.now + i) ≡ Some i)
        → (bytes places : List ℕ) × (WritesBehind (index_of indices.now) numbers features
        (ops_in text.now) (declarations_of declarations.now) (λ _. bytes) (λ _. places) result
        × IfOk result (λ _. to.new.items ≡ to.old.items ++ bytes)) }
{
    write_vector(to, declarations)?;
    text.append_kept(to, indices)
}

// Whether nothing is told of the locals, and they keep their indices, as far as that is known without a look at the operators.
fn stays_in_place(
    function: &LocalFunction,
    text: &Text,
    module_locals: &ModuleLocals,
    tells: bool,
) -> bool
    ensures silent { IsTrue result → tells ≡ false }
    ensures within { IsTrue result → arg_count_of function.now ≤ local_count_of text.now }
    ensures kept { IsTrue result → StayInPlace (types_of (locals module_locals.now))
        (locals_of (ops_in text.now)) (first_local_of text.now)
        (arg_count_of function.now) (local_count_of text.now) }
{
    if tells {
        return false;
    }
    let params = function.arg_count();
    if !text.names_from(params) {
        return false;
    }
    let first = text.first_local() as usize;
    are_ranked(module_locals, first, params, text.local_count() as usize)
}

// The same where they keep them, and nothing is told of them.
fn append_in_place(
    alloc: Global,
    function: &LocalFunction,
    text: &Text,
    types: &ModuleTypes,
    module_locals: &ModuleLocals,
    indices: &IdsToIndices,
    features: &Features,
    to: &mut Vec<u8>,
) -> Result<AppendedBody, IrError>
    requires text { as_text function.now ≡ Some text.now }
    requires body { body_of function.now ≡ ops_in text.now }
    requires within { arg_count_of function.now ≤ local_count_of text.now }
    requires kept { StayInPlace (types_of (locals module_locals.now)) (locals_of (ops_in text.now))
        (first_local_of text.now) (arg_count_of function.now) (local_count_of text.now) }
    ensures { AppendsBody
        (source_of indices.now module_locals.now types.now function.now features.now) false
        (λ body. map place body.order.items) (λ body. body.used.items) to.old.items to.new.items result }
{
    text.is_plain();
    function.args_are_first();
    let first = text.first_local() as usize;
    let count = text.local_count() as usize;
    let params = function.arg_count();
    let fits = parameters_fit_from(function, first, params, types, module_locals);
    if !fits {
        return Err(IrError::NotWritable);
    }
    let hold = text.blocks_hold(types)?;
    if !hold {
        return Err(IrError::NotWritable);
    }
    let end = first + count;
    let declarations = declare_from(alloc, module_locals, first + params, end, indices)?;
    write_kept(to, declarations.as_slice(), text, indices)?;
    Ok(AppendedBody {
        order: Vec::new(alloc),
        used: Vec::new(alloc),
    })
}
