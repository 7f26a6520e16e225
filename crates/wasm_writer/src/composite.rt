//! The lengths of function, composite and recursive types (Binary Format > Types), in bytes.

ghost use Rattle.std.specs.Prelude.{map, ◌∷◌};
ghost use Rattle.wasm_forms.specs.Spelling.{number_bytes, row_bytes, vector_bytes};
ghost use Rattle.wasm_forms.specs.Types.{value_bytes};
ghost use Rattle.wasm_forms.specs.Writing.{FitsLength, EachFits, FitsVector};
ghost use Rattle.wasm_entries.specs.Record.{func_type, comp, sub, group};
ghost use Rattle.wasm_entries.specs.TypeSpelling.{field_bytes, func_type_bytes, comp_bytes, sub_bytes, group_bytes, FuncTypeFits, CompFits, SubFits, GroupFits};
ghost use Rattle.wasm_writer.specs.Measures.{Measures};

use crate::number::number_len;
use crate::sum::plus;
use crate::type_lens::field_len;
use crate::vector::{Measured, measured_vector};
use wasm_entries::{RawComp, RawFieldType, RawFuncType, RawGroup, RawSub};
use wasm_forms::{RawVal, WireError};
use wasm_opcodes::types::REC_TYPE;

/// How many bytes the count of the value types and each of them have.
fn measured_values(values: &[RawVal]) -> Result<u32, WireError>
    ensures { Measures result (vector_bytes value_bytes values.now) (FitsLength values.now) }
{
    measured_vector(values)
}

/// How many bytes the count of the fields and each of them have.
fn measured_fields(fields: &[RawFieldType]) -> Result<u32, WireError>
    ensures { Measures result (vector_bytes field_bytes fields.now) (FitsLength fields.now) }
{
    measured_vector(fields)
}

/// How many bytes the count of the indices and each of them have.
pub(crate) fn measured_indices(indices: &[u32]) -> Result<u32, WireError>
    ensures { Measures result (vector_bytes number_bytes indices.now) (FitsLength indices.now) }
{
    measured_vector(indices)
}

/// How many bytes a function type has (Binary Format > Types > Function Types).
///
/// # Errors
///
/// `TooLarge` exactly where a count is 2^32 or more, or it has 2^32 bytes or more.
pub fn measured_signature(func: &RawFuncType) -> Result<u32, WireError>
    ensures { Measures result (func_type_bytes (func_type func.now)) (FuncTypeFits (func_type func.now)) }
{
    plus(
        measured_values(&func.params)?,
        measured_values(&func.results)?,
    )
}

/// How many bytes a composite type has (Binary Format > Types > Composite Types).
///
/// # Errors
///
/// `TooLarge` exactly where a count is 2^32 or more, or it has 2^32 bytes or more.
pub fn measured_composite(composite: &RawComp) -> Result<u32, WireError>
    ensures { Measures result (comp_bytes (comp composite.now)) (CompFits (comp composite.now)) }
{
    match composite {
        RawComp::Func(func) => plus(1, measured_signature(func)?),
        RawComp::Struct(fields) => plus(1, measured_fields(fields)?),
        RawComp::Array(field) => Ok(1 + field_len(field)),
    }
}

impl Measured for RawSub {
    fn measured(&self) -> Result<u32, WireError> {
        let composite = measured_composite(&self.comp)?;
        if self.is_final && self.supers.is_empty() {
            return Ok(composite);
        }
        plus(plus(1, measured_indices(&self.supers)?)?, composite)
    }
}

/// How many bytes a group has that is not one type alone: 4E, the count of the types and each of them.
fn measured_many(types: &[RawSub]) -> Result<u32, WireError>
    ensures { Measures result (REC_TYPE ∷ vector_bytes (λ s. sub_bytes (sub s)) types.now)
        (FitsVector (λ s. SubFits (sub s)) types.now) }
{
    plus(1, measured_vector(types)?)
}

/// How many bytes a group of types has, one alone without a count (Binary Format > Types > Recursive Types).
///
/// # Errors
///
/// `TooLarge` exactly where a count is 2^32 or more, or it has 2^32 bytes or more.
pub fn measured_group(types: &RawGroup) -> Result<u32, WireError>
    ensures { Measures result (group_bytes (group types.now)) (GroupFits (group types.now)) }
{
    if types.len() == 1 {
        return types[0].measured();
    }
    measured_many(types)
}

/// How many bytes the groups have, one after another.
fn measured_each(groups: &[RawGroup]) -> Result<u32, WireError>
    ensures { Measures result (row_bytes (λ g. group_bytes (group g)) groups.now)
        (EachFits (λ g. GroupFits (group g)) groups.now) }
{
    let mut total: u32 = 0;
    'groups: for types in groups {
        total = plus(total, measured_group(types)?)?;
    }
    Ok(total)
}

/// How many bytes the count of the groups and each of them have.
fn measured_counted(groups: &[RawGroup]) -> Result<u32, WireError>
    ensures { Measures result (vector_bytes (λ g. group_bytes (group g)) groups.now)
        (FitsVector (λ g. GroupFits (group g)) groups.now) }
{
    let Ok(count) = u32::try_from(groups.len()) else {
        return Err(WireError::TooLarge);
    };
    plus(number_len(u64::from(count)), measured_each(groups)?)
}

/// How many bytes the count of the groups and each of them have (Binary Format > Modules > Type Section).
///
/// # Errors
///
/// `TooLarge` exactly where a count is 2^32 or more, or all in all they have 2^32 bytes or more.
pub fn measured_groups(groups: &[RawGroup]) -> Result<u32, WireError>
    ensures { Measures result (vector_bytes group_bytes (map group groups.now))
        (FitsVector GroupFits (map group groups.now)) }
{
    measured_counted(groups)
}
