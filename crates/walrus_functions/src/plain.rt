//! Reading a function whose body is kept as it stands in the input (Binary Format > Modules > Code Section).
ghost use Rattle.std.specs.Prelude.{◌≡◌, ◌+◌, ℕ, List, Option, true, IfOk, IfSome, length};
ghost use Rattle.walrus_base.specs.Arena.{item_at};
ghost use Rattle.walrus_base.specs.Id.{place};
ghost use Rattle.walrus_base.specs.Locals.{locals};
ghost use Rattle.walrus_base.specs.ModuleTypes.{type_slots};
ghost use Rattle.walrus_code.specs.Indices.{ids_at};
ghost use Rattle.walrus_bodies.specs.Function.{locations_of};
ghost use Rattle.walrus_bodies.specs.Body.{context};
ghost use Rattle.walrus_bodies.specs.BodyRead.{BodyLocated};
ghost use Rattle.walrus_bodies.specs.Declarations.{declarations_of};
ghost use Rattle.walrus_bodies.specs.FunctionTypes.{is_function_at};
ghost use Rattle.walrus_bodies.specs.declared.features.Features.{Features as Proposals};
ghost use Rattle.walrus_bodies.specs.Limits.{Limits as Limited};
ghost use Rattle.walrus_bodies.specs.PlainCode.{limits_in};
ghost use Rattle.walrus_bodies.specs.Scanned.{AreInPlace, IsPlace};
ghost use Rattle.walrus_functions.specs.Handlers.{params_of};
ghost use Rattle.walrus_functions.specs.Plain.{IfPlain, IsPlainRead, total};
ghost use Rattle.walrus_functions.specs.ReadFunction.{ReadsFunction, StaysInFront};
ghost use Rattle.walrus_functions.specs.Signatures.{slots_of};

use std::alloc::{AllocError, Global};
use std::rc::Rc;
use walrus_base::{ModuleLocals, ModuleTypes, TypeId};
use walrus_bodies::{
    Declaration, LocalFunction, PlainCode, ScanRoom, Text, add_declared, add_types, first_ranked,
    read_declarations,
};
use walrus_code::{IndicesToIds, IrError};

// A body that is kept as it stands: how many parameters its function has, the locals that it declares, and its operators.
#[derive(Drop)]
pub(crate) struct PlainBody {
    params: u32,
    declarations: Vec<Declaration>,
    text: Text,
}

// How many locals a function has, with so many parameters and these declarations; none where that passes 32 bits.
fn count_locals(params: u32, declarations: &[Declaration]) -> Option<u32>
    ensures { IfSome result (λ count. count ≡ params + total (declarations_of declarations.now)) }
{
    let mut count = params;
    'declarations: for declaration in declarations {
        count = count.checked_add(declaration.count)?;
    }
    Some(count)
}

/// Adds, behind the bodies of a code, one more, from its bytes, which begin at `start` of the input; its function has so many parameters.
///
/// # Errors
///
/// `AllocError` where no memory is left. Then no body is added.
pub fn scan_body(
    alloc: Global,
    code: &mut PlainCode,
    bytes: &[u8],
    start: usize,
    params: usize,
    room: &mut ScanRoom,
) -> Result<(), AllocError>
    ensures { limits_in code.new ≡ limits_in code.old }
{
    let Ok(params) = u32::try_from(params) else {
        return code.skip();
    };
    let Ok((declarations, rest)) = read_declarations(alloc, bytes) else {
        return code.skip();
    };
    let Some(locals) = count_locals(params, declarations.as_slice()) else {
        return code.skip();
    };
    let begin = start.saturating_add(bytes.len().saturating_sub(rest.len()));
    let ranked = first_ranked(params, declarations.as_slice());
    code.scan(rest, begin, locals, ranked, room)
}

// The body of this number in the code, if it is that of these bytes, which begin at `start` of the input, where its function has so many
// parameters and the locals that it declares, which lie from the place `first` on; none where there is no code.
pub(crate) fn find_plain(
    alloc: Global,
    bytes: &[u8],
    start: usize,
    texts: &Option<Rc<PlainCode>>,
    number: u32,
    params: usize,
    first: usize,
    types: &ModuleTypes,
) -> Result<Option<PlainBody>, AllocError>
    ensures { IfOk result (λ found. IfSome found (IfPlain texts.now (λ code plain.
        IsPlainRead (limits_in code.value) (is_function_at types.now) first params start bytes.now plain))) }
{
    let Some(code) = texts else {
        return Ok(None);
    };
    let Ok(params) = u32::try_from(params) else {
        return Ok(None);
    };
    let Ok((declarations, rest)) = read_declarations(alloc, bytes) else {
        return Ok(None);
    };
    let Some(locals) = count_locals(params, declarations.as_slice()) else {
        return Ok(None);
    };
    let Ok(first_local) = u32::try_from(first) else {
        return Ok(None);
    };
    let begin = start.saturating_add(bytes.len().saturating_sub(rest.len()));
    let Some(text) = Text::find(code, number, rest, begin, first_local, locals)? else {
        return Ok(None);
    };
    if !text.blocks_hold(types)? {
        return Ok(None);
    }
    Ok(Some(PlainBody {
        params,
        declarations,
        text,
    }))
}

// The function of this type with a body that was found plain; its parameters and then the locals that it declares are added to the module's.
pub(crate) fn take_plain(
    plain: PlainBody,
    ty: TypeId,
    indices: &IndicesToIds,
    types: &ModuleTypes,
    module_locals: &mut ModuleLocals,
) -> Result<LocalFunction, IrError>
    requires typed { is_function_at types.now (place ty) ≡ true }
    ensures taken { (limits : Limited) (start : ℕ) (bytes : List ℕ) (features : Proposals)
        (tags : ℕ → Option ℕ) → AreInPlace limits (ids_at indices.now)
        → IsPlainRead limits (is_function_at types.now) (length (locals module_locals.old))
        (length (params_of (item_at (type_slots types.now) (place ty)))) start bytes plain
        → ReadsFunction (context (ids_at indices.now) (is_function_at types.now) features) tags (place ty)
        (slots_of types.now) (slots_of types.now) (locals module_locals.old) (locals module_locals.new)
        bytes result × IfOk result (λ f. BodyLocated IsPlace start bytes (locations_of f)) }
    ensures locals_stay { StaysInFront (locals module_locals.old) (locals module_locals.new) }
{
    add_types(types.get(ty).params(), module_locals)?;
    add_declared(plain.declarations.as_slice(), indices, module_locals)?;
    plain.text.is_plain();
    Ok(LocalFunction::of_text(ty, plain.params, plain.text))
}
