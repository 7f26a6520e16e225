//! What the items of a module name.

ghost use Rattle.std.specs.Prelude.{◌≡◌, ◌≤◌, ◌<◌, ◌+◌, [], ℕ, map, Contains, IsSome, IsTrue, None, OnOk, MatchResult};
ghost use Rattle.walrus_base.specs.Arena.{IsLive as IsLiveAt};
ghost use Rattle.walrus_base.specs.Id.{place};
ghost use Rattle.walrus_base.specs.IdSet.{ids_in};
ghost use Rattle.walrus_base.specs.Types.{heap_names, val_names};
ghost use Rattle.walrus_code.specs.Code.{arg_of, item_of, op_of, ops_of};
ghost use Rattle.walrus_items.specs.Function.{body_of};
ghost use Rattle.walrus_items.specs.Functions.{function_value};
ghost use Rattle.walrus_model.specs.Live.{IsLive};
ghost use Rattle.walrus_model.specs.Refers.{KeepsToo, body_names, function_names, kind_names, named_by};
ghost use Rattle.walrus_contents.specs.View.{body, function as function_of, kind_handlers, kind_of, lent, parts_view, types_of};
ghost use Rattle.walrus_base.specs.ModuleTypes.{type_slots};
ghost use Rattle.walrus_base.specs.Operators.{DataSegments, Elements, arg_locals, locals_of, names_of, op_locals, type_item};
ghost use Rattle.walrus_base.specs.Value.{heap_type, val_type};
ghost use Rattle.walrus_contents.specs.There.{IsRefusal, IsSound, IsUnsound};
ghost use Rattle.walrus_contents.specs.Named.{AreThere, IsReady, IsUnready, NamesItself, NamesNoTypes, OneIsMissing, Puts, PutsAll, PutsTypes, active_names, are_passive, export_names, local_type_names, own_type_names, own_written, root_elements, other_roots, root_names, start_names, type_at};

use crate::initialisers::{
    push_data_names, push_element_names, push_global_names, push_table_names, push_tag_names,
};
use crate::parts::Parts;
use std::alloc::{AllocError, Global};
use std::result;
use walrus_base::{
    DataKey, ElementKey, FunctionId, HeapType, IdHashSet, LocalId, ModuleLocals, ModuleTypes,
    TypeId, ValType,
};
use walrus_bodies::LocalFunction;
use walrus_code::{Arg, ItemId, Operator};
use walrus_items::{
    ElementKind, Error, Function, FunctionKind, ModuleData, ModuleElements, ModuleExports,
    ModuleFunctions, Result,
};

/// Puts the roots behind `to`: what the exports name, in order, then the start function, the active data segments by rising id, and
/// then the active and the declared element segments by rising id.
pub fn push_root_names(parts: Parts<'_>, to: &mut Vec<ItemId>) -> result::Result<(), AllocError>
    ensures { OnOk result (Puts to.old to.new (root_names (lent parts.entry))) }
{
    push_export_names(parts.exports, to)?;
    push_other_roots(parts, to)
}

/// Puts the roots that no export names behind `to`: the start function, the active data segments by rising id, and then the active and
/// the declared element segments by rising id.
pub fn push_other_roots(parts: Parts<'_>, to: &mut Vec<ItemId>) -> result::Result<(), AllocError>
    ensures { OnOk result (Puts to.old to.new (other_roots (lent parts.entry))) }
{
    push_start_name(parts.start, to)?;
    push_active_data(parts.data_, to)?;
    push_root_elements(parts.elements, to)
}

// The same for the active data segments.
fn push_active_data(segments: &ModuleData, to: &mut Vec<ItemId>) -> result::Result<(), AllocError>
    ensures { OnOk result (Puts to.old to.new (active_names segments.now)) }
{
    for (id, segment) in segments.iter_entries() {
        if !segment.is_passive() {
            to.push(ItemId::Data(id))?;
        }
    }
    Ok(())
}

// The same for the active and the declared element segments.
fn push_root_elements(
    segments: &ModuleElements,
    to: &mut Vec<ItemId>,
) -> result::Result<(), AllocError>
    ensures { OnOk result (Puts to.old to.new (root_elements segments.now)) }
{
    for (id, segment) in segments.iter_entries() {
        if !is_passive(&segment.kind) {
            to.push(ItemId::Element(id))?;
        }
    }
    Ok(())
}

// Whether elements of this kind are copied by operators alone.
fn is_passive(kind: &ElementKind) -> bool
    ensures { result ≡ are_passive kind.now }
{
    match kind {
        ElementKind::Passive => true,
        ElementKind::Declared | ElementKind::Active { .. } => false,
    }
}

// The same for the start function, if there is one.
fn push_start_name(
    start: Option<FunctionId>,
    to: &mut Vec<ItemId>,
) -> result::Result<(), AllocError>
    ensures { OnOk result (Puts to.old to.new (start_names start)) }
{
    match start {
        Some(id) => Ok(to.push(ItemId::Function(id))?),
        None => Ok(()),
    }
}

// The same for what the exports name.
fn push_export_names(
    exports: &ModuleExports,
    to: &mut Vec<ItemId>,
) -> result::Result<(), AllocError>
    ensures { OnOk result (Puts to.old to.new (export_names exports.now)) }
{
    for export in exports.iter() {
        to.push(export.item.item_id())?;
    }
    Ok(())
}

/// Puts just the items that a live item refers to, but the members of a type's group, behind `to`, in any order, each once or more
/// often: those that are written in it, and those that it keeps beside that, a function the types of its legacy handlers, a table or a
/// memory the segments in its set. Refused as [`push_written_names`] is.
pub fn push_item_names(
    alloc: Global,
    parts: Parts<'_>,
    item: ItemId,
    to: &mut Vec<ItemId>,
) -> Result<()>
    requires { IsLive (parts_view parts) (item_of item) }
    ensures { MatchResult result
        (λ _. IsSound (parts_view parts.entry) (item_of item) × PutsAll to.old to.new
        (NamesItself (parts_view parts.entry) (item_of item)))
        (IsRefusal (IsSound (parts_view parts.entry) (item_of item) → ⊥)) }
{
    push_written_names(alloc, parts, item, to)?;
    push_kept_names(parts, item, to)?;
    Ok(())
}

/// Puts just the items that are written in a live item itself behind `to`, in any order, each once or more often: of a type all but
/// the members of its group. Refused with `DeadItem` where it is an uninitialised function, or one that uses a local that isn't there,
/// and with `Memory`.
pub fn push_written_names(
    alloc: Global,
    parts: Parts<'_>,
    item: ItemId,
    to: &mut Vec<ItemId>,
) -> Result<()>
    requires { IsLive (parts_view parts) (item_of item) }
    ensures { MatchResult result
        (λ _. IsSound (parts_view parts.entry) (item_of item) × PutsAll to.old to.new
        (Contains (own_written (parts_view parts.entry) (item_of item))))
        (IsRefusal (IsUnsound (parts_view parts.entry) (item_of item))) }
{
    match item {
        ItemId::Type(id) => Ok(push_type_names(alloc, parts.types, id, to)?),
        ItemId::Function(id) => {
            push_function_names(alloc, parts.locals, parts.funcs.get(id), to)
        }
        ItemId::Table(id) => Ok(push_table_names(parts.tables.get(id), to)?),
        ItemId::Tag(id) => Ok(push_tag_names(parts.tags.get(id), to)?),
        ItemId::Global(id) => Ok(push_global_names(parts.globals.get(id), to)?),
        ItemId::Data(id) => Ok(push_data_names(parts.data_.get(id), to)?),
        ItemId::Element(id) => Ok(push_element_names(parts.elements.get(id), to)?),
        ItemId::Memory(_) => Ok(()),
    }
}

// Puts what a live item keeps beside that behind `to`: a function the types of its legacy handlers, a table or a memory the
// segments in its set.
fn push_kept_names(
    parts: Parts<'_>,
    item: ItemId,
    to: &mut Vec<ItemId>,
) -> result::Result<(), AllocError>
    requires { IsLive (parts_view parts) (item_of item) }
    ensures { OnOk result (PutsAll to.old to.new (KeepsToo (parts_view parts.entry) (item_of item))) }
{
    match item {
        ItemId::Function(id) => push_handler_types(&parts.funcs.get(id).kind, to),
        ItemId::Table(id) => push_element_ids(&parts.tables.get(id).elem_segments, to),
        ItemId::Memory(id) => push_data_ids(&parts.memories.get(id).data_segments, to),
        ItemId::Type(_)
        | ItemId::Tag(_)
        | ItemId::Global(_)
        | ItemId::Element(_)
        | ItemId::Data(_) => Ok(()),
    }
}

// The element segments of a set, by rising id.
fn push_element_ids(
    kept: &IdHashSet<ElementKey>,
    to: &mut Vec<ItemId>,
) -> result::Result<(), AllocError>
    ensures { OnOk result (Puts to.old to.new (map (λ e. (Elements, e)) (ids_in kept.now))) }
{
    'ids: for id in kept.iter() {
        to.push(ItemId::Element(id))?;
    }
    Ok(())
}

// The data segments of a set, by rising id.
fn push_data_ids(
    segments: &IdHashSet<DataKey>,
    to: &mut Vec<ItemId>,
) -> result::Result<(), AllocError>
    ensures { OnOk result (Puts to.old to.new (map (λ d. (DataSegments, d)) (ids_in segments.now))) }
{
    'ids: for id in segments.iter() {
        to.push(ItemId::Data(id))?;
    }
    Ok(())
}

// The types of the legacy handlers of a function of this kind.
fn push_handler_types(kind: &FunctionKind, to: &mut Vec<ItemId>) -> result::Result<(), AllocError>
    ensures { OnOk result (Puts to.old to.new (map type_item (kind_handlers kind.now))) }
{
    match kind {
        FunctionKind::Local(function) => push_type_ids(function.handler_types(), to),
        FunctionKind::Import(_) | FunctionKind::Uninitialized(_) => Ok(()),
    }
}

// Puts the types that a live type names behind `to`, beside the members of its group.
fn push_type_names(
    alloc: Global,
    types: &ModuleTypes,
    id: TypeId,
    to: &mut Vec<ItemId>,
) -> result::Result<(), AllocError>
    requires { IsLiveAt (type_slots types.now) (place id) }
    ensures { OnOk result (Puts to.old to.new (named_by own_type_names (types_of types.now (place id)))) }
{
    let mut named = Vec::new(alloc);
    walrus_base::push_names(&mut named, types.get(id))?;
    push_type_ids(named.as_slice(), to)
}

// The same for types.
fn push_type_ids(ids: &[TypeId], to: &mut Vec<ItemId>) -> result::Result<(), AllocError>
    ensures { OnOk result (Puts to.old to.new (map type_item (map place ids.now))) }
{
    for id in ids {
        to.push(ItemId::Type(*id))?;
    }
    Ok(())
}

// Puts just the type of a function and the items that its body names behind `to`, in any order, each once or more often. Refused as
// [`push_written_names`] is.
fn push_function_names(
    alloc: Global,
    locals: &ModuleLocals,
    function: &Function,
    to: &mut Vec<ItemId>,
) -> Result<()>
    ensures { MatchResult result
        (λ _. IsReady locals.now function.now.kind × PutsAll to.old to.new
        (Contains (function_names (function_of locals.now (function_value function.now)))))
        (IsRefusal (IsUnready locals.now function.now.kind)) }
{
    to.push(ItemId::Type(function.ty()))?;
    push_kind_names(alloc, locals, &function.kind, to)
}

// The same for what a function of this kind has beside its type.
fn push_kind_names(
    alloc: Global,
    locals: &ModuleLocals,
    kind: &FunctionKind,
    to: &mut Vec<ItemId>,
) -> Result<()>
    ensures { MatchResult result
        (λ _. IsReady locals.now kind.now × PutsAll to.old to.new
        (Contains (kind_names (kind_of locals.now kind.now))))
        (IsRefusal (IsUnready locals.now kind.now)) }
{
    match kind {
        FunctionKind::Import(_) => Ok(()),
        FunctionKind::Local(function) => push_body_names(alloc, locals, function, to),
        FunctionKind::Uninitialized(_) => Err(Error::DeadItem),
    }
}

// The same for a body, which names the types of the locals that it uses too.
fn push_body_names(
    alloc: Global,
    locals: &ModuleLocals,
    function: &LocalFunction,
    to: &mut Vec<ItemId>,
) -> Result<()>
    ensures { MatchResult result
        (λ _. AreThere locals.now (locals_of (body_of function.now)) × PutsAll to.old to.new
        (Contains (body_names (body locals.now function.now))))
        (IsRefusal (OneIsMissing locals.now (locals_of (body_of function.now)))) }
{
    push_operator_names(function, to)?;
    push_used_types(alloc, locals, function, to)
}

// The same for the operators of a body.
fn push_operator_names(
    function: &LocalFunction,
    to: &mut Vec<ItemId>,
) -> result::Result<(), AllocError>
    ensures { OnOk result (PutsAll to.old to.new (Contains (names_of (body_of function.now)))) }
{
    match function.text() {
        Some(text) => text.push_names(to),
        None => push_listed_names(function.listed(), to),
    }
}

// Puts what the operators of a list name behind `to`, in order.
fn push_listed_names(operators: &[Operator], to: &mut Vec<ItemId>) -> result::Result<(), AllocError>
    ensures { OnOk result (Puts to.old to.new (names_of (ops_of operators.now))) }
{
    for operator in operators {
        walrus_code::push_names(to, operator)?;
    }
    Ok(())
}

// Whether each of so many locals is there from a place on, and names no type.
fn locals_name_nothing(locals: &ModuleLocals, first: u32, count: u32) -> bool
    ensures { IsTrue result → (x : ℕ) → first ≤ x → x < first + count
        → IsSome (type_at locals.now x) × (local_type_names locals.now x ≡ []) }
{
    'locals: for offset in 0..count {
        if !local_names_nothing(locals, LocalId::at(first as usize + offset as usize)) {
            return false;
        }
    }
    true
}

// Whether a local is there, and names no type.
fn local_names_nothing(locals: &ModuleLocals, id: LocalId) -> bool
    ensures { IsTrue result → IsSome (type_at locals.now (place id))
        × (local_type_names locals.now (place id) ≡ []) }
{
    if !locals.contains(id) {
        return false;
    }
    match locals.get(id).ty() {
        ValType::I32 | ValType::I64 | ValType::F32 | ValType::F64 | ValType::V128 => true,
        ValType::Ref(_) => false,
    }
}

// Whether the locals of a body that is kept as it stands in the input are there, and name no types.
fn text_names_no_types(locals: &ModuleLocals, function: &LocalFunction) -> bool
    ensures { IsTrue result → NamesNoTypes locals.now (locals_of (body_of function.now)) }
{
    let Some(text) = function.text() else {
        return false;
    };
    text.is_plain();
    locals_name_nothing(locals, text.first_local(), text.local_count())
}

// Puts the concrete types of the locals that a body uses behind `to`, in order, each as often as it is used. Refused with
// `DeadItem` where one isn't there, and with `Memory`.
fn push_used_types(
    alloc: Global,
    locals: &ModuleLocals,
    function: &LocalFunction,
    to: &mut Vec<ItemId>,
) -> Result<()>
    ensures { MatchResult result
        (λ _. PutsTypes locals.now (locals_of (body_of function.now)) to.old to.new)
        (IsRefusal (OneIsMissing locals.now (locals_of (body_of function.now)))) }
{
    if text_names_no_types(locals, function) {
        return Ok(());
    }
    let operators = function.operators(alloc)?;
    push_listed_types(locals, operators.as_slice(), to)
}

// The same for the operators of a list.
fn push_listed_types(
    locals: &ModuleLocals,
    operators: &[Operator],
    to: &mut Vec<ItemId>,
) -> Result<()>
    ensures { MatchResult result
        (λ _. PutsTypes locals.now (locals_of (ops_of operators.now)) to.old to.new)
        (IsRefusal (OneIsMissing locals.now (locals_of (ops_of operators.now)))) }
{
    for operator in operators {
        push_operator_types(locals, operator, to)?;
    }
    Ok(())
}

// The same for the locals that an operator names.
fn push_operator_types(
    locals: &ModuleLocals,
    operator: &Operator,
    to: &mut Vec<ItemId>,
) -> Result<()>
    ensures { MatchResult result
        (λ _. PutsTypes locals.now (op_locals (op_of operator.now)) to.old to.new)
        (IsRefusal (OneIsMissing locals.now (op_locals (op_of operator.now)))) }
{
    let args = operator.args.as_slice();
    for arg in args {
        push_arg_types(locals, *arg, to)?;
    }
    Ok(())
}

// The same for an argument.
fn push_arg_types(locals: &ModuleLocals, arg: Arg, to: &mut Vec<ItemId>) -> Result<()>
    ensures { MatchResult result
        (λ _. PutsTypes locals.now (arg_locals (arg_of arg)) to.old to.new)
        (IsRefusal (OneIsMissing locals.now (arg_locals (arg_of arg)))) }
{
    match arg {
        Arg::Local(id) => push_local_type(locals, id, to),
        _ => Ok(()),
    }
}

// The same for one local.
fn push_local_type(locals: &ModuleLocals, id: LocalId, to: &mut Vec<ItemId>) -> Result<()>
    ensures { MatchResult result
        (λ _. IsSome (type_at locals.now (place id)) × Puts to.old to.new
        (local_type_names locals.now (place id)))
        (IsRefusal (type_at locals.now (place id) ≡ None)) }
{
    if !locals.contains(id) {
        return Err(Error::DeadItem);
    }
    push_value_type(locals.get(id).ty(), to)?;
    Ok(())
}

// The same for a value type.
pub(crate) fn push_value_type(ty: ValType, to: &mut Vec<ItemId>) -> result::Result<(), AllocError>
    ensures { OnOk result (Puts to.old to.new (map type_item (val_names (val_type ty)))) }
{
    match ty {
        ValType::I32 | ValType::I64 | ValType::F32 | ValType::F64 | ValType::V128 => Ok(()),
        ValType::Ref(reference) => push_heap_type(reference.heap_type, to),
    }
}

// The same for a heap type.
pub(crate) fn push_heap_type(heap: HeapType, to: &mut Vec<ItemId>) -> result::Result<(), AllocError>
    ensures { OnOk result (Puts to.old to.new (map type_item (heap_names (heap_type heap)))) }
{
    match heap {
        HeapType::Abstract(_) => Ok(()),
        HeapType::Concrete(id) | HeapType::Exact(id) => Ok(to.push(ItemId::Type(id))?),
    }
}
