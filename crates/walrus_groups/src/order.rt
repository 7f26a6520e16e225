//! The order in which types may be written (Validation > Types > Recursive Types).

ghost use Rattle.std.specs.Prelude.{◌≡◌, ◌↔◌, IsTrue, Some, map};
ghost use Rattle.std.specs.Bool.{OnFalse};
ghost use Rattle.walrus_base.specs.Arena.{item_at, IsLive};
ghost use Rattle.walrus_base.specs.Id.{place};
ghost use Rattle.walrus_base.specs.Composite.{storage_type, field_type, comp_type, supertypes};
ghost use Rattle.walrus_base.specs.ModuleTypes.{type_slots};
ghost use Rattle.walrus_base.specs.TypeDef.{type_def, type_place};
ghost use Rattle.walrus_base.specs.TypeSlots.{group_at, last_of};
ghost use Rattle.walrus_base.specs.TypesLeft.{place_and_def};
ghost use Rattle.walrus_base.specs.Value.{heap_type, val_type};
ghost use Rattle.walrus_groups.specs.Indexed.{AreInOrder, IsOutOfOrder};
ghost use Rattle.walrus_groups.specs.Ordered.{heap_within, val_within, vals_within, storage_within, field_within, fields_within, comp_within, all_below, is_ordered};

use walrus_base::{
    CompositeType, FieldType, HeapType, ModuleTypes, StorageType, Type, TypeId, ValType,
};

/// Whether the types, written in the order of their ids, name only such as they may: a supertype comes before its subtype, and
/// every other type that is named is of an earlier group or of the own one (Validation > Types > Recursive Types). Where it
/// answers no, a type names one that it may not. Takes no memory.
pub fn are_in_order(types: &ModuleTypes) -> bool
    ensures in_order { IsTrue result ↔ AreInOrder (type_slots types.now) }
    ensures cause { OnFalse result (IsOutOfOrder (type_slots types.now)) }
{
    types.groups_are_whole();
    for ty in types.iter() {
        if !is_in_order(types, ty) {
            return false;
        }
    }
    true
}

// The same for a type of these.
fn is_in_order(types: &ModuleTypes, ty: &Type) -> bool
    requires there { item_at (type_slots types.now) (type_place ty.now) ≡ Some (type_def ty.now) }
    ensures { result ≡ is_ordered (place_and_def ty.now) }
{
    is_below(ty.supertype(), ty.id().index())
        && comp_is_within(ty.comp(), last_place(types, ty.id()))
}

// The place of the last member of a type's group.
fn last_place(types: &ModuleTypes, id: TypeId) -> usize
    requires there { IsLive (type_slots types.now) (place id) }
    ensures { result ≡ last_of (group_at (type_slots types.now) (place id)) (place id) }
{
    types.last_in_group(id).index()
}

// Whether the supertype, if there is one, is below this place.
fn is_below(supertype: Option<TypeId>, place: usize) -> bool
    ensures { result ≡ all_below place (supertypes supertype) }
{
    match supertype {
        Some(id) => id.index() < place,
        None => true,
    }
}

// Whether a composite type names only types up to the last place.
fn comp_is_within(comp: &CompositeType, last: usize) -> bool
    ensures { result ≡ comp_within last (comp_type comp.now) }
{
    match comp {
        CompositeType::Function(function) => {
            values_are_within(function.params(), last)
                && values_are_within(function.results(), last)
        }
        CompositeType::Struct(fields) => fields_are_within(fields.fields.as_slice(), last),
        CompositeType::Array(array) => field_is_within(array.field, last),
    }
}

// The same for value types.
fn values_are_within(values: &[ValType], last: usize) -> bool
    ensures { result ≡ vals_within last (map val_type values.now) }
{
    for value in values {
        if !value_is_within(*value, last) {
            return false;
        }
    }
    true
}

// The same for fields.
fn fields_are_within(fields: &[FieldType], last: usize) -> bool
    ensures { result ≡ fields_within last (map field_type fields.now) }
{
    for field in fields {
        if !field_is_within(*field, last) {
            return false;
        }
    }
    true
}

// The same for a field.
fn field_is_within(field: FieldType, last: usize) -> bool
    ensures { result ≡ field_within last (field_type field) }
{
    match field.element_type {
        StorageType::Val(value) => value_is_within(value, last),
        StorageType::I8 => true,
        StorageType::I16 => true,
    }
}

// The same for a value type.
fn value_is_within(value: ValType, last: usize) -> bool
    ensures { result ≡ val_within last (val_type value) }
{
    match value {
        ValType::Ref(reference) => heap_is_within(reference.heap_type, last),
        ValType::I32 => true,
        ValType::I64 => true,
        ValType::F32 => true,
        ValType::F64 => true,
        ValType::V128 => true,
    }
}

// The same for a heap type.
fn heap_is_within(heap: HeapType, last: usize) -> bool
    ensures { result ≡ heap_within last (heap_type heap) }
{
    match heap {
        HeapType::Abstract(_) => true,
        HeapType::Concrete(id) => id.index() <= last,
        HeapType::Exact(id) => id.index() <= last,
    }
}
