//! How many data segments a module has, where that is said ahead of the bodies ("Binary Format > Modules > Data Count Section").
ghost use Rattle.std.specs.Prelude.{◌≡◌, ◌↔◌, ◌<◌, ◌^◌, [], IsFalse, IsTrue};
ghost use Rattle.std.specs.List.{list_any};
ghost use Rattle.walrus_base.specs.Arena.{items};
ghost use Rattle.walrus_code.specs.Code.{arg_of, op_of, ops_of};
ghost use Rattle.walrus_items.specs.Function.{body_of};
ghost use Rattle.walrus_items.specs.Data.{data_segments};
ghost use Rattle.walrus_items.specs.Functions.{functions};
ghost use Rattle.walrus_contents.specs.View.{parts_view};
ghost use Rattle.walrus_model.specs.Dead.{HasDead};
ghost use Rattle.walrus_theorem.specs.Spelling.{IsCount, NeedsCount};
ghost use Rattle.walrus_plan.specs.Count.{arg_is_data, kind_names_data, one_names_data, op_names_data, is_passive_value};

use walrus_bodies::LocalFunction;
use walrus_code::{Arg, Operator};
use walrus_contents::Parts;
use walrus_items::{FunctionKind, ModuleData, ModuleFunctions};

// Whether there is a segment.
fn has_segments(segments: &ModuleData) -> bool
    ensures { IsFalse result → items (data_segments segments.now) ≡ [] }
{
    segments.iter().next().is_some()
}

// Whether a segment is passive.
fn has_passive(segments: &ModuleData) -> bool
    ensures { result ≡ list_any is_passive_value (items (data_segments segments.now)) }
{
    for segment in segments.iter() {
        if segment.is_passive() {
            return true;
        }
    }
    false
}

// Whether the argument is a data segment.
fn is_data(arg: &Arg) -> bool
    ensures { result ≡ arg_is_data (arg_of arg.now) }
{
    matches!(*arg, Arg::Data(_))
}

// Whether one of the operator's arguments is.
fn names_data(operator: &Operator) -> bool
    ensures { result ≡ op_names_data (op_of operator.now) }
{
    for arg in operator.args.as_slice() {
        if is_data(arg) {
            return true;
        }
    }
    false
}

// Whether the body names a data segment.
fn body_names_data(function: &LocalFunction) -> bool
    ensures { result ≡ list_any op_names_data (body_of function.now) }
{
    if let Some(text) = function.text() {
        text.is_plain();
        return false;
    }
    do_operators_name_data(function.listed())
}

// Whether one of the operators does.
fn do_operators_name_data(operators: &[Operator]) -> bool
    ensures { result ≡ list_any op_names_data (ops_of operators.now) }
{
    for operator in operators {
        if names_data(operator) {
            return true;
        }
    }
    false
}

// Whether a function of this kind has a body that does.
fn does_kind_name_data(kind: &FunctionKind) -> bool
    ensures { result ≡ kind_names_data kind.now }
{
    match kind {
        FunctionKind::Local(local) => body_names_data(local),
        FunctionKind::Import(_) | FunctionKind::Uninitialized(_) => false,
    }
}

// Whether one of the functions has.
fn has_data_names(funcs: &ModuleFunctions) -> bool
    ensures { result ≡ list_any one_names_data (items (functions funcs.now)) }
{
    for function in funcs.iter() {
        if does_kind_name_data(&function.kind) {
            return true;
        }
    }
    false
}

// Whether the segments have to be counted ahead of the bodies: a segment is passive, or a body names one. Where there is none, no body does.
fn needs_count(parts: Parts<'_>) -> bool
    requires there { HasDead (parts_view parts) → ⊥ }
    ensures { IsTrue result ↔ NeedsCount (parts_view parts.entry) }
{
    if !has_segments(parts.data_) {
        return false;
    }
    has_passive(parts.data_) || has_data_names(parts.funcs)
}

/// How many data segments there are, where that has to be said ahead of the bodies.
pub fn count_of(parts: Parts<'_>, segments: usize) -> Option<u32>
    requires there { HasDead (parts_view parts) → ⊥ }
    requires few { segments < 2 ^ 32 }
    ensures { IsCount (parts_view parts.entry) segments result }
{
    if needs_count(parts) {
        Some(segments as u32)
    } else {
        None
    }
}
