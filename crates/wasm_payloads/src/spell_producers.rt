//! Writing the payload of the producers section (tool-conventions, ProducersSection), names lent.

ghost use Rattle.std.specs.Prelude.{◌≡◌, map};
ghost use Rattle.wasm_forms.specs.Writing.{Adds, Keeps, TakesRoom, Wrote, EachFits, FitsVector};
ghost use Rattle.wasm_forms.specs.Spelling.{row_bytes, vector_bytes};
ghost use Rattle.wasm_payloads.specs.Producers.{value_record, field_record};
ghost use Rattle.wasm_payloads.specs.Spelling.{value_bytes, field_bytes, producers_bytes, ValueFits, FieldFits, ProducersFit};

use crate::producers::RawField;
use wasm_forms::{WireError, Written, write_name, write_u32, write_vector};

/// Writes a value: a name and a version.
fn write_value(to: &mut Vec<u8>, name: &str, version: &str) -> Result<(), WireError>
    ensures adds { Adds result to.old.items to.new.items (value_bytes (name.now, version.now))
        (ValueFits (name.now, version.now)) }
    ensures room { TakesRoom result to.old to.new (value_bytes (name.now, version.now)) }
    ensures keeps { Keeps to.old.items to.new.items }
{
    write_name(to, name)?;
    write_name(to, version)
}

/// Writes values one after another.
fn write_each(to: &mut Vec<u8>, values: &[(&str, &str)]) -> Result<(), WireError>
    ensures adds { Adds result to.old.items to.new.items
        (row_bytes (λ v. value_bytes (value_record v)) values.now)
        (EachFits (λ v. ValueFits (value_record v)) values.now) }
    ensures room { TakesRoom result to.old to.new (row_bytes (λ v. value_bytes (value_record v)) values.now) }
    ensures keeps { Keeps to.old.items to.new.items }
{
    'values: for value in values {
        let (name, version) = *value;
        write_value(to, name, version)?;
    }
    Ok(())
}

/// Writes the count of the values and each value.
fn write_values(to: &mut Vec<u8>, values: &[(&str, &str)]) -> Result<(), WireError>
    ensures adds { Adds result to.old.items to.new.items
        (vector_bytes (λ v. value_bytes (value_record v)) values.now)
        (FitsVector (λ v. ValueFits (value_record v)) values.now) }
    ensures room { TakesRoom result to.old to.new
        (vector_bytes (λ v. value_bytes (value_record v)) values.now) }
    ensures keeps { Keeps to.old.items to.new.items }
{
    let Ok(count) = u32::try_from(values.len()) else {
        return Err(WireError::TooLarge);
    };
    write_u32(to, count)?;
    write_each(to, values)
}

impl Written for RawField<'_> {
    ghost spelled = { λ f. field_bytes (field_record f) };

    ghost Fits = { λ f. FieldFits (field_record f) };

    fn write(&self, to: &mut Vec<u8>) -> Result<(), WireError> {
        write_name(to, self.name)?;
        write_values(to, &self.values)
    }
}

/// Writes the count of the fields and each field.
fn write_fields(to: &mut Vec<u8>, fields: &[RawField<'_>]) -> Result<(), WireError>
    ensures adds { Adds result to.old.items to.new.items (producers_bytes (map field_record fields.now))
        (ProducersFit (map field_record fields.now)) }
    ensures keeps { Keeps to.old.items to.new.items }
{
    write_vector(to, fields)
}

/// Appends the payload of a producers section: the count of the fields, and each field, as [`crate::read_producers`] reads it.
///
/// # Errors
///
/// `TooLarge` exactly where there are 2^32 fields or more, a field has 2^32 values or more, or a text has 2^32 bytes or more; and
/// `Memory`. Refused, the bytes stay.
pub fn write_producers(to: &mut Vec<u8>, fields: &[RawField<'_>]) -> Result<(), WireError>
    ensures { Wrote result to.old.items to.new.items (producers_bytes (map field_record fields.now))
        (ProducersFit (map field_record fields.now)) }
{
    let before = to.len();
    if let Err(error) = write_fields(to, fields) {
        to.truncate(before);
        return Err(error);
    }
    Ok(())
}
