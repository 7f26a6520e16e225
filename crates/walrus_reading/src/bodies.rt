//! The bodies of a module that is read: the code that they share, where their locals begin, and where their operators stood.
ghost use Rattle.std.specs.Prelude.{true, ◌≡◌, [], length, IfOk, IfSome, OnOk, IsOkUnless, is_some, ◌++◌, ◌∷◌, replicate};
ghost use Rattle.std.specs.Fn.{FnReturnsAt};
ghost use Rattle.walrus_base.specs.Id.{place};
ghost use Rattle.walrus_base.specs.Locals.{locals};
ghost use Rattle.walrus_base.specs.ModuleTypes.{type_slots};
ghost use Rattle.walrus_code.specs.Indices.{ids_at};
ghost use Rattle.walrus_bodies.specs.BodyRead.{BodyLocated};
ghost use Rattle.walrus_bodies.specs.FunctionTypes.{is_function_at};
ghost use Rattle.walrus_functions.specs.PlainCode.{limits_in};
ghost use Rattle.walrus_model.specs.Scanned.{AreInPlace};
ghost use Rattle.walrus_functions.specs.Known.{IsOfTypes};
ghost use Rattle.walrus_functions.specs.ReadFunction.{Given, ReadsFunction};
ghost use Rattle.walrus_functions.specs.Signatures.{slots_of};
ghost use Rattle.walrus_items.specs.Functions.{functions};
ghost use Rattle.walrus_reading.specs.Taken.{context_under, tags_under};
ghost use Rattle.walrus_items.specs.Errors.{out_of_memory};
ghost use Rattle.wasm_frames.specs.Record.{sections};
ghost use Rattle.walrus_items.specs.Function.{locations_of};

use crate::functions::Under;
use crate::input::Input;
use std::alloc::{AllocError, Global};
use std::rc::Rc;
use std::result;
use walrus_base::{ModuleLocals, ModuleTypes, TypeId};
use walrus_bodies::{LocalFunction, PlainCode, ScanRoom, limits_of};
use walrus_code::{IndicesToIds, InstrLocId, IrError};
use walrus_functions::{HandlerTypes, read_body_with, scan_body};
use walrus_items::{ModuleFunctions, Result};
use wasm_frames::{Raw, RawBody};

// Reads the body of a function of this type.
pub fn read_located<L: Fn(&usize) -> InstrLocId>(
    under: &Under<'_, L>,
    ty: TypeId,
    body: &RawBody<'_>,
    types: &mut ModuleTypes,
    all: &mut ModuleLocals,
    number: u32,
    handlers: &mut HandlerTypes,
) -> result::Result<LocalFunction, IrError>
    requires typed { is_function_at types.old (place ty) ≡ true }
    requires callable { L.IsAlwaysCallable under.now.locate.now }
    requires in_place { IfSome under.now.texts (λ code.
        AreInPlace (limits_in code.value) (ids_at under.now.indices.now)) }
    requires known { IsOfTypes (type_slots types.old) handlers.old }
    ensures read { ReadsFunction (context_under under.now types.old) (tags_under under.now) (place ty)
        (slots_of types.old) (slots_of types.new) (locals all.old) (locals all.new)
        body.now.bytes.now result }
    ensures located { IfOk result (λ f. BodyLocated
        (Given under.now.texts (FnReturnsAt L.Fn under.now.locate.now))
        body.now.start body.now.bytes.now (locations_of f)) }
    ensures known { OnOk result (IsOfTypes (type_slots types.new) handlers.new) }
{
    read_body_with(
        under.alloc,
        body.bytes,
        body.start,
        under.features,
        ty,
        under.tag_types,
        under.indices,
        types,
        all,
        under.locate,
        &under.texts,
        number,
        handlers,
    )
}

// How many parameters a function has whose type has this index; 0 where that is no function type.
fn param_count(index: u32, indices: &IndicesToIds, types: &ModuleTypes) -> usize {
    let Some(ty) = indices.get_type(index) else {
        return 0;
    };
    if !types.contains(ty) {
        return 0;
    }
    match types.get(ty).as_function() {
        Some(function) => function.params().len(),
        None => 0,
    }
}

// The code of the bodies of these sections, which are those of the input.
fn scan_bodies(
    alloc: Global,
    input: Input<'_>,
    raw: &Raw<'_>,
    indices: &IndicesToIds,
    types: &ModuleTypes,
) -> result::Result<PlainCode, AllocError>
    ensures { IfOk result (λ code. AreInPlace (limits_in code) (ids_at indices.now)) }
{
    let limits = limits_of(indices);
    let (bytes, origin) = input.kept(alloc, raw.bodies.as_slice())?;
    let mut code = PlainCode::new(alloc, limits, raw.bodies.len(), bytes, origin)?;
    let mut room = ScanRoom::new(alloc)?;
    'bodies: for (body, index) in raw.bodies.iter().zip(raw.functions.iter()) {
        let params = param_count(*index, indices, types);
        scan_body(alloc, &mut code, body.bytes, body.start, params, &mut room)?;
    }
    Ok(code)
}

/// The code of the bodies of these sections, which are those of the input, if plain bodies are to be kept as they stand there. `Memory` is the only
/// error.
pub(crate) fn texts_of(
    alloc: Global,
    input: Input<'_>,
    as_texts: bool,
    raw: &Raw<'_>,
    indices: &IndicesToIds,
    types: &ModuleTypes,
) -> Result<Option<Rc<PlainCode>>>
    ensures asked { IfOk result (λ texts. is_some texts ≡ as_texts) }
    ensures in_place { IfOk result (λ texts. IfSome texts (λ code.
        AreInPlace (limits_in code.value) (ids_at indices.now))) }
    ensures fails { IsOkUnless result out_of_memory }
{
    if !as_texts {
        return Ok(None);
    }
    let code = scan_bodies(alloc, input, raw, indices, types)?;
    Ok(Some(code.share(alloc)?))
}

/// Where the locals of these functions begin, none of which has locals, and behind them the end.
pub(crate) fn first_starts(alloc: Global, funcs: &ModuleFunctions) -> Result<Vec<usize>>
    ensures begun { IfOk result (λ starts. starts.items
        ≡ replicate (length (functions funcs.now)) 0 ++ 0 ∷ []) }
    ensures fails { IsOkUnless result out_of_memory }
{
    let mut starts = vec![in alloc; 0usize; funcs.next_id().index()]?;
    starts.push(0)?;
    Ok(starts)
}
