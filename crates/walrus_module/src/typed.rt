//! The types of functions, tags and blocks ("Validation > Modules > Functions", "Tags", "Validation > Types > Block Types").
ghost use Rattle.std.specs.Prelude.{◌≡◌, IfOk};
ghost use Rattle.std.specs.List.{list_all};
ghost use Rattle.walrus_base.specs.Arena.{items};
ghost use Rattle.walrus_bodies.specs.Blocks.{blocks_hold};
ghost use Rattle.walrus_bodies.specs.FunctionTypes.{is_function_at};
ghost use Rattle.walrus_items.specs.Function.{body_of};
ghost use Rattle.walrus_items.specs.Functions.{functions};
ghost use Rattle.walrus_items.specs.Tags.{tags};
ghost use Rattle.walrus_module.specs.Tested.{function_blocks_hold, function_is_typed, kind_blocks_hold, tag_is_typed};

use std::alloc::AllocError;
use std::result;
use walrus_base::ModuleTypes;
use walrus_bodies::{FunctionTypes, LocalFunction, blocks_hold};
use walrus_items::{FunctionKind, ModuleFunctions, ModuleTags};

// Whether each function has a function type.
pub(crate) fn are_functions_typed(funcs: &ModuleFunctions, types: &ModuleTypes) -> bool
    ensures { result ≡ list_all (function_is_typed types.now) (items (functions funcs.now)) }
{
    for function in funcs.iter() {
        if !types.is_function_type(function.ty()) {
            return false;
        }
    }
    true
}

// Whether each tag has a function type.
pub(crate) fn are_tags_typed(all: &ModuleTags, types: &ModuleTypes) -> bool
    ensures { result ≡ list_all (tag_is_typed types.now) (items (tags all.now)) }
{
    for tag in all.iter() {
        if !types.is_function_type(tag.ty()) {
            return false;
        }
    }
    true
}

// Whether each type of a block in a body is a function type.
fn do_blocks_hold(function: &LocalFunction, types: &ModuleTypes) -> result::Result<bool, AllocError>
    ensures { IfOk result (λ hold. hold ≡ blocks_hold (is_function_at types.now) (body_of function.now)) }
{
    match function.text() {
        Some(text) => text.blocks_hold(types),
        None => Ok(blocks_hold(types, function.listed())),
    }
}

// The same of a function of this kind.
fn do_kind_blocks_hold(kind: &FunctionKind, types: &ModuleTypes) -> result::Result<bool, AllocError>
    ensures { IfOk result (λ hold. hold ≡ kind_blocks_hold types.now kind.now) }
{
    match kind {
        FunctionKind::Local(function) => do_blocks_hold(function, types),
        FunctionKind::Import(_) | FunctionKind::Uninitialized(_) => Ok(true),
    }
}

// The same of all functions.
pub(crate) fn do_all_blocks_hold(
    funcs: &ModuleFunctions,
    types: &ModuleTypes,
) -> result::Result<bool, AllocError>
    ensures { IfOk result (λ hold. hold
        ≡ list_all (function_blocks_hold types.now) (items (functions funcs.now))) }
{
    for function in funcs.iter() {
        if !do_kind_blocks_hold(&function.kind, types)? {
            return Ok(false);
        }
    }
    Ok(true)
}
