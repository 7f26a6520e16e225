//! The groups of a type section, from the types of a module (Binary Format > Modules > Type Section).

ghost use Rattle.std.specs.Prelude.{◌≡◌, ◌<◌, ◌^◌, false, Some, map, All, IfOk};
ghost use Rattle.wasm_forms.specs.Types.{ValueStands};
ghost use Rattle.wasm_entries.specs.Record.{group, sub, comp, func_type, Function};
ghost use Rattle.wasm_entries.specs.TypeSpelling.{StorageStands, FieldStands, CompStands, SubStands};
ghost use Rattle.walrus_base.specs.Arena.{item_at, IsLive, items};
ghost use Rattle.walrus_base.specs.Id.{place};
ghost use Rattle.walrus_base.specs.Composite.{storage_type, field_type, comp_type, function_comp, function_type, supertypes};
ghost use Rattle.walrus_base.specs.ModuleTypes.{type_slots};
ghost use Rattle.walrus_base.specs.TypeDef.{type_def, type_place};
ghost use Rattle.walrus_base.specs.TypeSlots.{group_at};
ghost use Rattle.walrus_base.specs.Value.{val_type};
ghost use Rattle.std.specs.List.{AllZip};
ghost use Rattle.walrus_code.specs.FromRaw.{val_of};
ghost use Rattle.walrus_code.specs.Indices.{index_of};
ghost use Rattle.walrus_code.specs.Results.{IndexesIn};
ghost use Rattle.walrus_groups.specs.Groups.{storage_of, field_of, comp_of, sub_of};
ghost use Rattle.walrus_groups.specs.Appended.{AppendsGroup, AppendsGroups};
ghost use Rattle.walrus_groups.specs.Indexed.{NumbersTypes, AreIndexed, IndexesTypes};
ghost use Rattle.walrus_groups.specs.Named.{named_vals, named_storage, named_field, named_fields, named_comp, named_types, named_sub};
ghost use Rattle.walrus_groups.specs.Written.{vals_are_exact, storage_is_exact, field_is_exact, fields_are_exact, comp_is_exact, sub_is_exact, StandsFor, UnlessRefused, starts_at};

use std::alloc::Global;
use walrus_base::{
    CompositeType, FieldType, FunctionType, ModuleTypes, StorageType, Type, TypeId, ValType,
};
use walrus_code::{IdsToIndices, IrError, index_value};
use wasm_entries::{RawComp, RawFieldType, RawFuncType, RawGroup, RawStorage, RawSub, write_group};
use wasm_forms::RawVal;

/// The groups of a type section: the types in the order of their ids, each as the member of its group that it is, with the index
/// for each type that it names (Binary Format > Modules > Type Section, Structure > Types > Recursive Types). Each type has the
/// number of types in front of it as its index.
///
/// # Errors
///
/// [`IrError::NoIndex`] where a type names one that isn't there, [`IrError::NotWritable`] where an exact heap type stands in a
/// type, which no bytes spell (Binary Format > Types > Heap Types), and [`IrError::Memory`].
pub fn index_types(
    alloc: Global,
    types: &ModuleTypes,
    indices: &IdsToIndices,
) -> Result<Vec<RawGroup>, IrError>
    requires numbered { NumbersTypes (index_of indices.now) (type_slots types.now) }
    ensures indexed { IndexesTypes (λ raw. map group raw.items) (index_of indices.now)
        (items (type_slots types.now)) result }
{
    types.groups_are_whole();
    let mut groups = Vec::new(alloc);
    for ty in types.iter() {
        if is_first(types, ty) {
            groups.push(index_group(alloc, types, ty.id(), indices)?)?;
        }
    }
    Ok(groups)
}

/// The same groups, appended to bytes one after another, with no record of all of them: how many they are.
///
/// # Errors
///
/// Those of [`index_types`], and [`IrError::TooLarge`] where a count is 2^32 or more. Refused, what was appended means nothing.
pub fn append_types(
    alloc: Global,
    types: &ModuleTypes,
    indices: &IdsToIndices,
    to: &mut Vec<u8>,
) -> Result<u32, IrError>
    requires numbered { NumbersTypes (index_of indices.now) (type_slots types.now) }
    ensures { IfOk result (λ count.
        AppendsGroups (AreIndexed (index_of indices.now) (items (type_slots types.now))) count
        to.old.items to.new.items) }
{
    types.groups_are_whole();
    let mut count: u32 = 0;
    for ty in types.iter() {
        if is_first(types, ty) {
            count = append_group(alloc, types, ty.id(), indices, count, to)?;
        }
    }
    Ok(count)
}

// Whether a type of these is the first of its group.
fn is_first(types: &ModuleTypes, ty: &Type) -> bool
    requires there { item_at (type_slots types.now) (type_place ty.now) ≡ Some (type_def ty.now) }
    ensures { result ≡ starts_at (type_def ty.now).group (type_place ty.now) }
{
    match types.group(ty.id()).next() {
        Some(first) => first == ty.id(),
        None => false,
    }
}

// The group of a type.
fn index_group(
    alloc: Global,
    types: &ModuleTypes,
    id: TypeId,
    indices: &IdsToIndices,
) -> Result<RawGroup, IrError>
    requires there { IsLive (type_slots types.now) (place id) }
    ensures indexed { UnlessRefused (λ raw. AllZip (StandsFor (index_of indices.now) (type_slots types.now))
        (group_at (type_slots types.now) (place id)) (group raw)) (index_of indices.now)
        (items (type_slots types.now)) result }
{
    types.groups_are_whole();
    // Most groups have one member.
    let mut members = Vec::with_capacity(alloc, 1)?;
    for member in types.group(id) {
        members.push(index_member(alloc, types, member, indices)?)?;
    }
    Ok(members)
}

// Appends the group of a type behind so many others: how many they are then.
fn append_group(
    alloc: Global,
    types: &ModuleTypes,
    id: TypeId,
    indices: &IdsToIndices,
    count: u32,
    to: &mut Vec<u8>,
) -> Result<u32, IrError>
    requires there { IsLive (type_slots types.now) (place id) }
    ensures { IfOk result (λ more. AppendsGroup
        (AllZip (StandsFor (index_of indices.now) (type_slots types.now))
        (group_at (type_slots types.now) (place id)))
        count more to.old.items to.new.items) }
{
    let members = index_group(alloc, types, id, indices)?;
    write_group(to, &members)?;
    match count.checked_add(1) {
        Some(more) => Ok(more),
        None => Err(IrError::TooLarge),
    }
}

// The type of a live id.
fn index_member(
    alloc: Global,
    types: &ModuleTypes,
    id: TypeId,
    indices: &IdsToIndices,
) -> Result<RawSub, IrError>
    requires there { IsLive (type_slots types.now) (place id) }
    ensures indexed { UnlessRefused (λ raw. StandsFor (index_of indices.now) (type_slots types.now) (place id)
        (sub raw)) (index_of indices.now) (items (type_slots types.now)) result }
{
    index_sub(alloc, types.get(id), indices)
}

// A type.
fn index_sub(alloc: Global, ty: &Type, indices: &IdsToIndices) -> Result<RawSub, IrError>
    ensures indexed { IndexesIn (λ raw. sub_of (sub raw)) result (sub_is_exact (type_def ty.now).sub)
        (named_sub (index_of indices.now) (type_def ty.now).sub) }
    ensures spelled { IfOk result (λ raw. SubStands (sub raw)) }
{
    let supers = index_supertype(alloc, ty.supertype(), indices)?;
    let comp = index_comp(alloc, ty.comp(), indices)?;
    Ok(RawSub {
        is_final: ty.is_final(),
        supers,
        comp,
    })
}

// The index of a supertype, where there is one.
fn index_supertype(
    alloc: Global,
    supertype: Option<TypeId>,
    indices: &IdsToIndices,
) -> Result<Vec<u32>, IrError>
    ensures indexed { IndexesIn (λ raw. raw.items) result false
        (named_types (index_of indices.now) (supertypes supertype)) }
    ensures spelled { IfOk result (λ raw. All (λ n. n < 2 ^ 32) raw.items) }
{
    let mut supers = Vec::new(alloc);
    if let Some(id) = supertype {
        let Some(index) = indices.get_type_index(id) else {
            return Err(IrError::NoIndex);
        };
        supers.push(index)?;
    }
    Ok(supers)
}

// A composite type.
fn index_comp(alloc: Global, ty: &CompositeType, indices: &IdsToIndices) -> Result<RawComp, IrError>
    ensures indexed { IndexesIn (λ raw. comp_of (comp raw)) result (comp_is_exact (comp_type ty.now))
        (named_comp (index_of indices.now) (comp_type ty.now)) }
    ensures spelled { IfOk result (λ raw. CompStands (comp raw)) }
{
    match ty {
        CompositeType::Function(function) => {
            let indexed = index_function(alloc, function, indices)?;
            Ok(RawComp::Func(indexed))
        }
        CompositeType::Struct(fields) => {
            let indexed = index_fields(alloc, fields.fields.as_slice(), indices)?;
            Ok(RawComp::Struct(indexed))
        }
        CompositeType::Array(array) => Ok(RawComp::Array(index_field(array.field, indices)?)),
    }
}

// A function type.
fn index_function(
    alloc: Global,
    function: &FunctionType,
    indices: &IdsToIndices,
) -> Result<RawFuncType, IrError>
    ensures indexed { IndexesIn (λ raw. comp_of (Function (func_type raw))) result
        (comp_is_exact (function_comp (function_type function.now)))
        (named_comp (index_of indices.now) (function_comp (function_type function.now))) }
    ensures spelled { IfOk result (λ raw. CompStands (Function (func_type raw))) }
{
    let params = index_values(alloc, function.params(), indices)?;
    let results = index_values(alloc, function.results(), indices)?;
    Ok(RawFuncType { params, results })
}

// Value types.
fn index_values(
    alloc: Global,
    values: &[ValType],
    indices: &IdsToIndices,
) -> Result<Vec<RawVal>, IrError>
    ensures indexed { IndexesIn (λ raw. map val_of raw.items) result
        (vals_are_exact (map val_type values.now))
        (named_vals (index_of indices.now) (map val_type values.now)) }
    ensures spelled { IfOk result (λ raw. All ValueStands raw.items) }
{
    let mut raw = Vec::with_capacity(alloc, values.len())?;
    for value in values {
        raw.push(index_value(*value, indices)?)?;
    }
    Ok(raw)
}

// The fields of a struct.
fn index_fields(
    alloc: Global,
    fields: &[FieldType],
    indices: &IdsToIndices,
) -> Result<Vec<RawFieldType>, IrError>
    ensures indexed { IndexesIn (λ raw. map field_of raw.items) result
        (fields_are_exact (map field_type fields.now))
        (named_fields (index_of indices.now) (map field_type fields.now)) }
    ensures spelled { IfOk result (λ raw. All FieldStands raw.items) }
{
    let mut raw = Vec::with_capacity(alloc, fields.len())?;
    for field in fields {
        raw.push(index_field(*field, indices)?)?;
    }
    Ok(raw)
}

// A field.
fn index_field(field: FieldType, indices: &IdsToIndices) -> Result<RawFieldType, IrError>
    ensures indexed { IndexesIn field_of result (field_is_exact (field_type field))
        (named_field (index_of indices.now) (field_type field)) }
    ensures spelled { IfOk result FieldStands }
{
    let storage = index_storage(field.element_type, indices)?;
    Ok(RawFieldType {
        storage,
        mutable: field.mutable,
    })
}

// What a field holds.
fn index_storage(storage: StorageType, indices: &IdsToIndices) -> Result<RawStorage, IrError>
    ensures indexed { IndexesIn storage_of result (storage_is_exact (storage_type storage))
        (named_storage (index_of indices.now) (storage_type storage)) }
    ensures spelled { IfOk result StorageStands }
{
    match storage {
        StorageType::Val(value) => Ok(RawStorage::Val(index_value(value, indices)?)),
        StorageType::I8 => Ok(RawStorage::I8),
        StorageType::I16 => Ok(RawStorage::I16),
    }
}
