//! Names for functions and locals that have none.
ghost use Rattle.std.specs.Prelude.{◌≡◌, ◌==◌, ◌<◌, ◌+◌, ◌-◌, ◌^◌, OnOk, IfOk, IsOkUnless, length, string_bytes};
ghost use Rattle.std.specs.List.{range_with_len};
ghost use Rattle.walrus_base.specs.Arena.{item_at};
ghost use Rattle.walrus_items.specs.Functions.{functions};
ghost use Rattle.walrus_items.specs.Errors.{out_of_memory};
ghost use Rattle.walrus_reading.specs.Renamed.{renamed_from};
ghost use Rattle.walrus_reading.specs.Shown.{local_values, mend_function, mend_local, shown};
ghost use Rattle.walrus_reading.specs.Synthetic.{all_filled, filled_if, filled_in, filled_row, lacks_name, once_filled, parameters_at, span, text_of_function, text_of_local};

use std::alloc::{AllocError, Global};
use std::result;
use walrus_base::{Id, ModuleLocals};
use walrus_contents::Contents;
use walrus_items::{FunctionKind, ModuleFunctions, Result};

// How many parameters the local function of a place has, if there is one.
fn parameters_of(all: &ModuleFunctions, place: usize) -> Option<usize>
    ensures { result ≡ parameters_at (item_at (functions all.now) place) }
{
    let id = Id::at(place);
    if !all.contains(id) {
        return None;
    }
    match &all.get(id).kind {
        FunctionKind::Local(function) => Some(function.arg_count()),
        FunctionKind::Import(_) | FunctionKind::Uninitialized(_) => None,
    }
}

// Whether the function of a place is there and has no name.
fn function_lacks_name(all: &ModuleFunctions, place: usize) -> bool
    ensures { result ≡ lacks_name (λ f. f.name) (item_at (functions all.now) place) }
{
    let id = Id::at(place);
    if !all.contains(id) {
        return false;
    }
    all.get(id).name.is_none()
}

// Gives the function of a place a name, if it has none: function 7 is `f7`.
fn fill_function(alloc: Global, place: usize, all: &mut ModuleFunctions) -> Result<()>
    ensures filled { OnOk result (functions all.new ≡ renamed_from mend_function
        (λ i. filled_if (place == i) (text_of_function place)) 0 (functions all.old)) }
    ensures fails { IsOkUnless result out_of_memory }
{
    if !function_lacks_name(all, place) {
        return Ok(());
    }
    let text = format!(in alloc; "f{place}")?;
    all.get_mut(Id::at(place)).name = Some(text);
    Ok(())
}

// Whether the local of a place is there and has no name.
fn local_lacks_name(all: &ModuleLocals, place: usize) -> bool
    ensures { result ≡ lacks_name (λ l. l.name) (item_at (local_values all.now) place) }
{
    let id = Id::at(place);
    if !all.contains(id) {
        return false;
    }
    all.get(id).name.is_none()
}

// The name of a local that has none: a parameter is `arg0`, another local `l0`.
fn local_text(alloc: Global, parameters: usize, local: usize) -> result::Result<String, AllocError>
    ensures { IfOk result (λ text. string_bytes text ≡ text_of_local parameters local) }
{
    if local < parameters {
        format!(in alloc; "arg{local}")
    } else {
        format!(in alloc; "l{local}")
    }
}

// Gives the local of a place a name by its index, if it has none.
fn fill_local(
    alloc: Global,
    parameters: usize,
    local: usize,
    place: usize,
    all: &mut ModuleLocals,
) -> Result<()>
    ensures filled { OnOk result (local_values all.new ≡ renamed_from mend_local
        (λ n. filled_if (place == n) (text_of_local parameters local)) 0 (local_values all.old)) }
    ensures fails { IsOkUnless result out_of_memory }
{
    if !local_lacks_name(all, place) {
        return Ok(());
    }
    let text = local_text(alloc, parameters, local)?;
    all.get_mut(Id::at(place)).name = Some(text);
    Ok(())
}

// Gives each local from the first place up to the end a name, if it has none.
fn fill_row(
    alloc: Global,
    parameters: usize,
    first: usize,
    end: usize,
    all: &mut ModuleLocals,
) -> Result<()>
    ensures filled { OnOk result (local_values all.new ≡ renamed_from mend_local
        (filled_row first (end - first) parameters) 0 (local_values all.old)) }
    ensures fails { IsOkUnless result out_of_memory }
{
    let count = end.saturating_sub(first);
    'row: for local in 0..count {
        fill_local(alloc, parameters, local, first + local, all)?;
    }
    Ok(())
}

// The first place of the locals of a function, and the one behind the last.
fn span_of(starts: &[usize], function: usize) -> Option<(usize, usize)>
    requires small { function + 1 < 2 ^ 64 }
    ensures { result ≡ span starts.now function }
{
    let first = *starts.get(function)?;
    let end = *starts.get(function + 1)?;
    Some((first, end))
}

// Gives each local of a function a name, if it has none.
fn fill_locals(
    alloc: Global,
    parameters: usize,
    function: usize,
    starts: &[usize],
    all: &mut ModuleLocals,
) -> Result<()>
    requires small { function + 1 < 2 ^ 64 }
    ensures filled { OnOk result (local_values all.new ≡ renamed_from mend_local
        (filled_in parameters (span starts.now function)) 0 (local_values all.old)) }
    ensures fails { IsOkUnless result out_of_memory }
{
    let Some((first, end)) = span_of(starts, function) else {
        return Ok(());
    };
    fill_row(alloc, parameters, first, end, all)
}

// Gives a local function, and each of its locals, a name, if it has none.
fn fill_one(alloc: Global, function: usize, starts: &[usize], contents: &mut Contents) -> Result<()>
    requires small { function + 1 < 2 ^ 64 }
    ensures filled { OnOk result (shown contents.new
        ≡ once_filled starts.now (shown contents.old) function) }
    ensures fails { IsOkUnless result out_of_memory }
{
    let Some(parameters) = parameters_of(&contents.funcs, function) else {
        return Ok(());
    };
    fill_function(alloc, function, &mut contents.funcs)?;
    fill_locals(alloc, parameters, function, starts, &mut contents.locals)
}

/// Gives each local function, and each of its locals, a name made of its index, if it has none.
pub(crate) fn fill_names(alloc: Global, starts: &[usize], contents: &mut Contents) -> Result<()>
    ensures filled { OnOk result (shown contents.new ≡ all_filled starts.now (shown contents.old)
        (range_with_len 0 (length (functions contents.old.funcs)))) }
    ensures fails { IsOkUnless result out_of_memory }
{
    let count = contents.funcs.next_id().index();
    'functions: for function in 0..count {
        fill_one(alloc, function, starts, contents)?;
    }
    Ok(())
}
