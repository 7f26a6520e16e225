//! The types that a type names.
ghost use Rattle.std.specs.Prelude.{◌≡◌, OnOk, map, flat_map};
ghost use Rattle.walrus_base.specs.Id.{place};
ghost use Rattle.walrus_base.specs.Types.{heap_names, val_heaps, storage_heaps, field_heaps, comp_names, sub_names, val_names};
ghost use Rattle.walrus_base.specs.Composite.{storage_type, field_type, comp_type, function_type, function_comp};
ghost use Rattle.walrus_base.specs.Names.{Puts};
ghost use Rattle.walrus_base.specs.PlaceList.{has};
ghost use Rattle.walrus_base.specs.TypeDef.{type_def};
ghost use Rattle.walrus_base.specs.Value.{heap_type, val_type};

use crate::composite::{CompositeType, FieldType, FunctionType, StorageType};
use crate::keys::TypeId;
use crate::types::Type;
use crate::value::{HeapType, ValType};
use std::alloc::AllocError;

/// Puts the ids of the types that a type names behind `to`, in order, its supertype first.
pub fn push_names(to: &mut Vec<TypeId>, ty: &Type) -> Result<(), AllocError>
    ensures { OnOk result (Puts to.old to.new (sub_names (type_def ty.now).sub)) }
{
    if let Some(id) = ty.supertype() {
        to.push(id)?;
    }
    push_comp_names(to, ty.comp())
}

// The same for a composite type.
fn push_comp_names(to: &mut Vec<TypeId>, comp: &CompositeType) -> Result<(), AllocError>
    ensures { OnOk result (Puts to.old to.new (comp_names (comp_type comp.now))) }
{
    match comp {
        CompositeType::Function(function) => {
            push_all_val_names(to, function.params())?;
            push_all_val_names(to, function.results())
        }
        CompositeType::Struct(fields) => push_all_field_names(to, fields.fields.as_slice()),
        CompositeType::Array(array) => push_field_names(to, array.field),
    }
}

// The same for value types.
fn push_all_val_names(to: &mut Vec<TypeId>, vals: &[ValType]) -> Result<(), AllocError>
    ensures { OnOk result
        (Puts to.old to.new (flat_map heap_names (flat_map val_heaps (map val_type vals.now)))) }
{
    for val in vals {
        push_val_names(to, *val)?;
    }
    Ok(())
}

// The same for fields.
fn push_all_field_names(to: &mut Vec<TypeId>, fields: &[FieldType]) -> Result<(), AllocError>
    ensures { OnOk result
        (Puts to.old to.new (flat_map heap_names (flat_map field_heaps (map field_type fields.now)))) }
{
    for field in fields {
        push_field_names(to, *field)?;
    }
    Ok(())
}

// The same for a field.
fn push_field_names(to: &mut Vec<TypeId>, field: FieldType) -> Result<(), AllocError>
    ensures { OnOk result (Puts to.old to.new (flat_map heap_names (field_heaps (field_type field)))) }
{
    match field.element_type {
        StorageType::Val(val) => push_val_names(to, val),
        StorageType::I8 => Ok(()),
        StorageType::I16 => Ok(()),
    }
}

// The same for a value type.
fn push_val_names(to: &mut Vec<TypeId>, val: ValType) -> Result<(), AllocError>
    ensures { OnOk result (Puts to.old to.new (flat_map heap_names (val_heaps (val_type val)))) }
{
    match val {
        ValType::Ref(ty) => push_heap_names(to, ty.heap_type),
        ValType::I32 => Ok(()),
        ValType::I64 => Ok(()),
        ValType::F32 => Ok(()),
        ValType::F64 => Ok(()),
        ValType::V128 => Ok(()),
    }
}

// The same for a heap type.
fn push_heap_names(to: &mut Vec<TypeId>, heap: HeapType) -> Result<(), AllocError>
    ensures { OnOk result (Puts to.old to.new (heap_names (heap_type heap))) }
{
    match heap {
        HeapType::Abstract(_) => Ok(()),
        HeapType::Concrete(id) => Ok(to.push(id)?),
        HeapType::Exact(id) => Ok(to.push(id)?),
    }
}

// Whether a type of functions names this type.
pub(crate) fn names_type(function: &FunctionType, id: TypeId) -> bool
    ensures { result ≡ has (comp_names (function_comp (function_type function.now))) (place id) }
{
    any_names(function.params(), id) || any_names(function.results(), id)
}

// The same for value types.
fn any_names(vals: &[ValType], id: TypeId) -> bool
    ensures { result ≡ has (flat_map heap_names (flat_map val_heaps (map val_type vals.now))) (place id) }
{
    for val in vals {
        if val_names(*val, id) {
            return true;
        }
    }
    false
}

// The same for a value type.
fn val_names(val: ValType, id: TypeId) -> bool
    ensures { result ≡ has (flat_map heap_names (val_heaps (val_type val))) (place id) }
{
    match val {
        ValType::Ref(ty) => match ty.heap_type {
            HeapType::Concrete(named) => named == id,
            HeapType::Exact(named) => named == id,
            HeapType::Abstract(_) => false,
        },
        ValType::I32 => false,
        ValType::I64 => false,
        ValType::F32 => false,
        ValType::F64 => false,
        ValType::V128 => false,
    }
}
