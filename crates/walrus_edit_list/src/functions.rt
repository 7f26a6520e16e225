//! Functions whose bodies are given in the binary format, with ids as indices (Binary Format > Modules > Code Section).

ghost use Rattle.std.specs.Prelude.{◌≡◌, ◌≤◌, MatchResult, nat_le, option_map, slice_set};
ghost use Rattle.walrus_base.specs.Arena.{IsLive, item_at};
ghost use Rattle.walrus_base.specs.Id.{place};
ghost use Rattle.walrus_bodies.specs.Declarations.{declarations_of};
ghost use Rattle.walrus_bodies.specs.FunctionTypes.{is_function_at};
ghost use Rattle.walrus_code.specs.Indices.{ids_at};
ghost use Rattle.walrus_functions.specs.Plain.{total};
ghost use Rattle.walrus_functions.specs.Signatures.{tag_places};
ghost use Rattle.walrus_items.specs.Functions.{functions};
ghost use Rattle.walrus_items.specs.Imports.{imports};
ghost use Rattle.walrus_module.specs.Replaced.{with_body};
ghost use Rattle.walrus_edit_list.specs.Functions.{AddsFunction, DeclaresNone, IsBodyOf, RefusesBody, RefusesForm, RefusesFunction, RefusesSetFunction, SetsFunction, brought_by, declared_count, without};
ghost use Rattle.walrus_edit_list.specs.Held.{held};
ghost use Rattle.walrus_edit_list.specs.Ids.{tag_types};

use crate::beside::Beside;
use crate::ids::ids_of;
use std::alloc::Global;
use walrus_base::{FunctionId, ImportId, ModuleLocals, ModuleTypes, TypeId};
use walrus_bodies::{Declaration, Features, LocalFunction, read_declarations};
use walrus_code::{IndicesToIds, InstrLocId};
use walrus_functions::read_body;
use walrus_items::{Error, ErrorKind, FunctionKind, ModuleFunctions, ModuleImports, Result};
use walrus_module::Module;

/// The most locals that a body may declare ("Appendix > Implementation Limitations"). `read_body` takes memory for each, and six bytes can declare
/// 2^32 - 1 of them.
const MOST_LOCALS: u32 = 50_000;

// Whether these declare no more locals than that.
fn are_few(declarations: &[Declaration]) -> bool
    ensures { result ≡ nat_le (total (declarations_of declarations.now)) 50_000 }
{
    let mut left = MOST_LOCALS;
    'declarations: for declaration in declarations {
        if declaration.count > left {
            return false;
        }
        left -= declaration.count;
    }
    true
}

// Refuses a body that declares more locals than that, before memory is taken for them.
fn count_locals(alloc: Global, body: &[u8]) -> Result<()>
    ensures { MatchResult result (λ _. declared_count body.now ≤ 50_000)
        (RefusesForm (DeclaresNone body.now)) }
{
    let (declared, _rest) = read_declarations(alloc, body)?;
    if !are_few(declared.as_slice()) {
        return Err(Error::InvalidWasm(ErrorKind::InvalidWasm));
    }
    Ok(())
}

// Whether a function type has this id.
fn is_typed(types: &ModuleTypes, ty: TypeId) -> bool
    ensures { result ≡ is_function_at types.now (place ty) }
{
    types.contains(ty) && types.get(ty).is_function()
}

// Reads a function of this type with this body. `tags` are the types of the tags, by their places. Refused, locals and types may have come.
fn read_function(
    alloc: Global,
    ty: TypeId,
    body: &[u8],
    features: &Features,
    ids: &IndicesToIds,
    tags: &[TypeId],
    types: &mut ModuleTypes,
    module_locals: &mut ModuleLocals,
) -> Result<LocalFunction>
    ensures { MatchResult result
        (IsBodyOf (ids_at ids.now) (tag_places tags.now) features.now (place ty) body.now types.old
        types.new module_locals.old module_locals.new)
        (RefusesBody (ids_at ids.now) (tag_places tags.now) features.now (place ty) body.now types.old
        module_locals.old) }
{
    if !is_typed(types, ty) {
        return Err(Error::DeadItem);
    }
    count_locals(alloc, body)?;
    let nowhere = |_place: &usize| -> InstrLocId { InstrLocId::DEFAULT };
    Ok(read_body(
        alloc,
        body,
        0,
        features,
        ty,
        tags,
        ids,
        types,
        module_locals,
        &nowhere,
        &None,
        0,
    )?)
}

/// Adds a function of the type of this number with this body, without a name, behind the others. `tags` are the types of the tags, by their
/// places.
///
/// # Errors
///
/// `DeadItem` exactly where no function type has the number, `InvalidWasm` only where the bytes declare more than 50,000 locals or are no body,
/// `TooLarge` only where more than 2^32 ids of a space were given, and `Memory`.
pub(crate) fn add_function<S>(
    alloc: Global,
    number: u32,
    body: &[u8],
    features: &Features,
    tags: &[TypeId],
    module: &mut Module<S>,
    beside: &mut Beside,
) -> Result<()>
    requires typed { tag_places tags.now ≡ tag_types «module».old.tags }
    ensures { MatchResult result
        (λ _. AddsFunction features.now number body.now (held «module».old beside.old)
        (held «module».new beside.new))
        (RefusesFunction features.now number body.now (held «module».old beside.old)) }
{
    let ty = TypeId::at(number as usize);
    let ids = ids_of(alloc, module)?;
    let made = read_function(
        alloc,
        ty,
        body,
        features,
        &ids,
        tags,
        &mut module.types,
        &mut module.locals,
    )?;
    module.funcs.add_local(made)?;
    beside.has_read = true;
    Ok(())
}

// The import that brings a function of this kind, if one does.
fn import_of(kind: &FunctionKind) -> Option<ImportId>
    ensures { option_map place result ≡ brought_by kind.now }
{
    match kind {
        FunctionKind::Import(imported) => Some(imported.import),
        FunctionKind::Local(_) | FunctionKind::Uninitialized(_) => None,
    }
}

// This import, if it is told and there, is gone.
fn drop_import(all: &mut ModuleImports, import: Option<ImportId>)
    ensures { imports all.new ≡ without (option_map place «import») (imports all.old) }
{
    let Some(id) = import else {
        return;
    };
    if all.contains(id) {
        all.delete(id);
    }
}

// The function of this live id has this body.
fn give_body(all: &mut ModuleFunctions, id: FunctionId, made: LocalFunction)
    requires { IsLive (functions all.old) (place id) }
    ensures { functions all.new ≡ slice_set (functions all.old) (place id)
        (option_map (with_body made) (item_at (functions all.old) (place id))) }
{
    all.get_mut(id).kind = FunctionKind::Local(made);
}

/// Gives the function of this number this body. Its type, its name and its id stay. One that was imported is the module's own then, and its import
/// goes. `tags` are the types of the tags, by their places.
///
/// # Errors
///
/// `DeadItem` exactly where it isn't there or its type is no function type, `InvalidWasm` only where the bytes declare more than 50,000 locals or are
/// no body, `TooLarge` only where more than 2^32 ids of a space were given, and `Memory`.
pub(crate) fn set_function<S>(
    alloc: Global,
    number: u32,
    body: &[u8],
    features: &Features,
    tags: &[TypeId],
    module: &mut Module<S>,
    beside: &mut Beside,
) -> Result<()>
    requires typed { tag_places tags.now ≡ tag_types «module».old.tags }
    ensures { MatchResult result
        (λ _. SetsFunction features.now number body.now (held «module».old beside.old)
        (held «module».new beside.new))
        (RefusesSetFunction features.now number body.now (held «module».old beside.old)) }
{
    let id = FunctionId::at(number as usize);
    if !module.funcs.contains(id) {
        return Err(Error::DeadItem);
    }
    let function = module.funcs.get(id);
    let (ty, import) = (function.ty(), import_of(&function.kind));
    let ids = ids_of(alloc, module)?;
    let made = read_function(
        alloc,
        ty,
        body,
        features,
        &ids,
        tags,
        &mut module.types,
        &mut module.locals,
    )?;
    drop_import(&mut module.imports, import);
    give_body(&mut module.funcs, id, made);
    beside.has_read = true;
    Ok(())
}
