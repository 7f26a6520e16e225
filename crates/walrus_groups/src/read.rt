//! Types as type sections list them, read as types by their ids.

ghost use Rattle.std.specs.Prelude.{◌≡◌, ◌+◌, ◌++◌, ◌<◌, ◌^◌, ◌∷◌, [], map, length, option_map, OnOk};
ghost use Rattle.std.specs.List.{range_with_len};
ghost use Rattle.wasm_entries.specs.Record.{comp, sub, group};
ghost use Rattle.walrus_base.specs.Id.{place};
ghost use Rattle.walrus_base.specs.Operators.{Types};
ghost use Rattle.walrus_base.specs.Value.{val_type};
ghost use Rattle.walrus_base.specs.Composite.{storage_type, field_type, comp_type, function_comp, function_type, supertypes, new_sub};
ghost use Rattle.walrus_base.specs.ModuleTypes.{type_names, type_slots};
ghost use Rattle.walrus_code.specs.FromRaw.{val_of};
ghost use Rattle.walrus_code.specs.Indices.{places_in, ids_at};
ghost use Rattle.walrus_code.specs.Results.{Finds};
ghost use Rattle.walrus_groups.specs.Groups.{storage_of, field_of, comp_of, sub_of, ReadsTypes};
ghost use Rattle.walrus_groups.specs.Named.{each, named_vals, named_storage, named_field, named_fields, named_function, named_comp};
ghost use Rattle.walrus_groups.specs.Reading.{AddsUnnamed, one_supertype, read_sub, TypesInPlace, OnlyTypesChange, RefusedAsTooMany};

use std::alloc::Global;
use walrus_base::{
    ArrayType, CompositeType, FieldType, FunctionType, ModuleTypes, NewType, StorageType,
    StructType, TypeId, ValType,
};
use walrus_code::{IndicesToIds, IrError, name_value};
use wasm_entries::{RawComp, RawFieldType, RawFuncType, RawGroup, RawStorage, RawSub};
use wasm_forms::RawVal;

/// Reads the types of a type section (Binary Format > Modules > Type Section): adds them behind those that are there, a group at a
/// time (Structure > Types > Recursive Types), and gives each the next index. None has a name.
///
/// # Errors
///
/// [`IrError::Malformed`] where a type names one that isn't declared before the end of its group, or has two supertypes,
/// [`IrError::TooLarge`] where there are more than 2^32 types, and [`IrError::Memory`]. Some of the types may be there then.
pub fn read_types(
    alloc: Global,
    groups: &[RawGroup],
    indices: &mut IndicesToIds,
    types: &mut ModuleTypes,
) -> Result<(), IrError>
    requires in_place { TypesInPlace indices.old (type_slots types.old) }
    ensures read { ReadsTypes (map group groups.now) (type_slots types.old) (type_slots types.new) result }
    ensures in_place { OnOk result (TypesInPlace indices.new (type_slots types.new)) }
    ensures only_types { OnOk result (OnlyTypesChange indices.old indices.new) }
    ensures unnamed { OnOk result (AddsUnnamed (type_names types.old) (type_names types.new)) }
{
    for members in groups {
        read_members(alloc, members, indices, types)?;
    }
    Ok(())
}

// The same for one group.
fn read_members(
    alloc: Global,
    raw: &[RawSub],
    indices: &mut IndicesToIds,
    types: &mut ModuleTypes,
) -> Result<(), IrError>
    requires in_place { TypesInPlace indices.old (type_slots types.old) }
    ensures read { ReadsTypes (map sub raw.now ∷ []) (type_slots types.old) (type_slots types.new) result }
    ensures in_place { OnOk result (TypesInPlace indices.new (type_slots types.new)) }
    ensures only_types { OnOk result (OnlyTypesChange indices.old indices.new) }
    ensures unnamed { OnOk result (AddsUnnamed (type_names types.old) (type_names types.new)) }
{
    match raw {
        [only] => read_alone(alloc, only, indices, types),
        _ => read_group(alloc, raw, indices, types),
    }
}

// The same for a type that is alone in its group.
fn read_alone(
    alloc: Global,
    raw: &RawSub,
    indices: &mut IndicesToIds,
    types: &mut ModuleTypes,
) -> Result<(), IrError>
    requires in_place { TypesInPlace indices.old (type_slots types.old) }
    ensures read { ReadsTypes ((sub raw.now ∷ []) ∷ []) (type_slots types.old) (type_slots types.new) result }
    ensures in_place { OnOk result (TypesInPlace indices.new (type_slots types.new)) }
    ensures only_types { OnOk result (OnlyTypesChange indices.old indices.new) }
    ensures unnamed { OnOk result (AddsUnnamed (type_names types.old) (type_names types.new)) }
{
    give_index(indices, types.next_id())?;
    let member = name_sub(alloc, raw, indices)?;
    types.add_alone(member)?;
    Ok(())
}

// The same for a group of any length.
fn read_group(
    alloc: Global,
    raw: &[RawSub],
    indices: &mut IndicesToIds,
    types: &mut ModuleTypes,
) -> Result<(), IrError>
    requires in_place { TypesInPlace indices.old (type_slots types.old) }
    ensures read { ReadsTypes (map sub raw.now ∷ []) (type_slots types.old) (type_slots types.new) result }
    ensures in_place { OnOk result (TypesInPlace indices.new (type_slots types.new)) }
    ensures only_types { OnOk result (OnlyTypesChange indices.old indices.new) }
    ensures unnamed { OnOk result (AddsUnnamed (type_names types.old) (type_names types.new)) }
{
    let ids = types.next_ids(alloc, raw.len())?;
    give_indices(indices, ids.as_slice())?;
    let members = name_subs(alloc, raw, indices)?;
    types.add_group(members)?;
    Ok(())
}

// Gives each of these types the next index.
fn give_indices(indices: &mut IndicesToIds, ids: &[TypeId]) -> Result<(), IrError>
    requires in_place { places_in indices.old Types ≡ range_with_len 0
        (length (places_in indices.old Types)) }
    requires behind { map (λ id. place id) ids.now ≡ range_with_len (length (places_in indices.old Types))
        (length ids.now) }
    ensures in_place { OnOk result (places_in indices.new Types ≡ range_with_len 0
        (length (places_in indices.old Types) + length ids.now)) }
    ensures refused { RefusedAsTooMany result
        (2 ^ 32 < length (places_in indices.old Types) + length ids.now) }
    ensures only_types { OnOk result (OnlyTypesChange indices.old indices.new) }
{
    for id in ids {
        give_index(indices, *id)?;
    }
    Ok(())
}

// Gives a type the next index.
fn give_index(indices: &mut IndicesToIds, id: TypeId) -> Result<(), IrError>
    requires in_place { places_in indices.old Types ≡ range_with_len 0
        (length (places_in indices.old Types)) }
    requires behind { place id ≡ length (places_in indices.old Types) }
    ensures in_place { OnOk result (places_in indices.new Types ≡ range_with_len 0
        (length (places_in indices.old Types) + 1)) }
    ensures refused { RefusedAsTooMany result (2 ^ 32 < length (places_in indices.old Types) + 1) }
    ensures only_types { OnOk result (OnlyTypesChange indices.old indices.new) }
{
    if id.index() >= 1 << 32 {
        return Err(IrError::TooLarge);
    }
    indices.push_type(id)?;
    Ok(())
}

// The members of a group.
fn name_subs(alloc: Global, raw: &[RawSub], indices: &IndicesToIds) -> Result<Vec<NewType>, IrError>
    ensures { Finds (λ members. map new_sub members.items) result
        (each (read_sub (ids_at indices.now)) (map sub_of (map sub raw.now))) }
{
    let mut members = Vec::with_capacity(alloc, raw.len())?;
    for member in raw {
        members.push(name_sub(alloc, member, indices)?)?;
    }
    Ok(members)
}

// A member of a group (Structure > Types > Recursive Types).
fn name_sub(alloc: Global, raw: &RawSub, indices: &IndicesToIds) -> Result<NewType, IrError>
    ensures { Finds new_sub result (read_sub (ids_at indices.now) (sub_of (sub raw.now))) }
{
    let supertype = name_supertype(raw.supers.as_slice(), indices)?;
    let comp = name_comp(alloc, &raw.comp, indices)?;
    Ok(NewType {
        is_final: raw.is_final,
        supertype,
        comp,
    })
}

// The supertype, of which there is one at most.
fn name_supertype(raw: &[u32], indices: &IndicesToIds) -> Result<Option<TypeId>, IrError>
    ensures { Finds supertypes result (one_supertype (ids_at indices.now) raw.now) }
{
    match raw {
        [] => Ok(None),
        [index] => match indices.get_type(*index) {
            Some(id) => Ok(Some(id)),
            None => Err(IrError::Malformed),
        },
        _ => Err(IrError::Malformed),
    }
}

// A composite type.
fn name_comp(alloc: Global, raw: &RawComp, indices: &IndicesToIds) -> Result<CompositeType, IrError>
    ensures { Finds comp_type result (named_comp (ids_at indices.now) (comp_of (comp raw.now))) }
{
    match raw {
        RawComp::Func(function) => {
            let named = name_function(alloc, function, indices)?;
            Ok(CompositeType::Function(named))
        }
        RawComp::Struct(fields) => {
            let fields = name_fields(alloc, fields.as_slice(), indices)?;
            Ok(CompositeType::Struct(StructType { fields }))
        }
        RawComp::Array(field) => match name_field(*field, indices) {
            Some(field) => Ok(CompositeType::Array(ArrayType { field })),
            None => Err(IrError::Malformed),
        },
    }
}

// A function type.
fn name_function(
    alloc: Global,
    raw: &RawFuncType,
    indices: &IndicesToIds,
) -> Result<FunctionType, IrError>
    ensures { Finds (λ f. function_comp (function_type f)) result
        (named_function (ids_at indices.now) (map val_of raw.now.params.items)
        (map val_of raw.now.results.items)) }
{
    let param_count = raw.params.len();
    let mut values = Vec::with_capacity(alloc, param_count.saturating_add(raw.results.len()))?;
    push_values(&mut values, raw.params.as_slice(), indices)?;
    push_values(&mut values, raw.results.as_slice(), indices)?;
    Ok(FunctionType::of(values, param_count))
}

// Puts value types behind others.
fn push_values(
    values: &mut Vec<ValType>,
    raw: &[RawVal],
    indices: &IndicesToIds,
) -> Result<(), IrError>
    ensures { Finds (λ _. map val_type values.new.items) result
        (option_map (λ more. map val_type values.old.items ++ more)
        (named_vals (ids_at indices.now) (map val_of raw.now))) }
{
    for value in raw {
        let Some(named) = name_value(*value, indices) else {
            return Err(IrError::Malformed);
        };
        values.push(named)?;
    }
    Ok(())
}

// The fields of a struct.
fn name_fields(
    alloc: Global,
    raw: &[RawFieldType],
    indices: &IndicesToIds,
) -> Result<Vec<FieldType>, IrError>
    ensures { Finds (λ fields. map field_type fields.items) result
        (named_fields (ids_at indices.now) (map field_of raw.now)) }
{
    let mut fields = Vec::with_capacity(alloc, raw.len())?;
    for field in raw {
        let Some(named) = name_field(*field, indices) else {
            return Err(IrError::Malformed);
        };
        fields.push(named)?;
    }
    Ok(fields)
}

// A field; none where a type in it isn't declared.
fn name_field(raw: RawFieldType, indices: &IndicesToIds) -> Option<FieldType>
    ensures { option_map field_type result ≡ named_field (ids_at indices.now) (field_of raw) }
{
    let element_type = name_storage(raw.storage, indices)?;
    Some(FieldType {
        element_type,
        mutable: raw.mutable,
    })
}

// What a field holds; none where a type in it isn't declared.
fn name_storage(raw: RawStorage, indices: &IndicesToIds) -> Option<StorageType>
    ensures { option_map storage_type result ≡ named_storage (ids_at indices.now) (storage_of raw) }
{
    match raw {
        RawStorage::Val(value) => Some(StorageType::Val(name_value(value, indices)?)),
        RawStorage::I8 => Some(StorageType::I8),
        RawStorage::I16 => Some(StorageType::I16),
    }
}
