//! The payload of the producers section (tool-conventions, ProducersSection).

ghost use Rattle.std.specs.Prelude.{◌≡◌, map};
ghost use Rattle.wasm_forms.specs.Reading.{Gives};
ghost use Rattle.wasm_forms.specs.Grammar.{Row, Vector, at};
ghost use Rattle.wasm_payloads.specs.Producers.{value, value_record, field, field_record, FieldsOnce, GivesFields};
ghost use Rattle.wasm_payloads.specs.Steps.{unless_malformed};

use std::alloc::Global;
use wasm_forms::{WireError, read_name, read_u32};

/// A field: its name, and its values, each a name and a version.
#[derive(Debug, Drop)]
pub struct RawField<'a> {
    pub name: &'a str,
    pub values: Vec<(&'a str, &'a str)>,
}

/// A value: a name and a version.
fn read_value(bytes: &[u8]) -> Result<((&str, &str), &[u8]), WireError>
    ensures { Gives (λ r. (value_record r.0, r.1.now)) result (at value bytes.now) }
{
    let (text, behind) = read_name(bytes)?;
    let (version, rest) = read_name(behind)?;
    Ok(((text, version), rest))
}

/// So many values, one after another.
fn read_values(
    alloc: Global,
    count: u32,
    bytes: &[u8],
) -> Result<(Vec<(&str, &str)>, &[u8]), WireError>
    ensures { Gives (λ r. (map value_record r.0.items, r.1.now)) result (at (Row value count) bytes.now) }
{
    let mut values = Vec::new(alloc);
    let mut rest = bytes;
    'values: for _taken in 0..count {
        let (pair, after) = read_value(rest)?;
        values.push(pair)?;
        rest = after;
    }
    Ok((values, rest))
}

/// A field, the whole of it.
fn read_field(alloc: Global, bytes: &[u8]) -> Result<(RawField<'_>, &[u8]), WireError>
    ensures { Gives (λ r. (field_record r.0, r.1.now)) result (at field bytes.now) }
{
    let (name, counted) = read_name(bytes)?;
    let (count, behind) = read_u32(counted)?;
    let (values, rest) = read_values(alloc, count, behind)?;
    Ok((RawField { name, values }, rest))
}

/// What was read, or `None` where the bytes are malformed.
fn unless_faulty<T>(read: Result<T, WireError>) -> Result<Option<T>, WireError>
    ensures { result ≡ unless_malformed read }
{
    match read {
        Ok(value) => Ok(Some(value)),
        Err(WireError::Malformed) => Ok(None),
        Err(failed) => Err(failed),
    }
}

/// The fields of a payload that stand whole before its first fault, names borrowed from it. Bytes behind the last field are passed
/// over. Memory is taken as fields are read, and none for a count alone.
///
/// # Errors
///
/// `Memory` alone: no fault refuses.
pub fn read_producers(alloc: Global, bytes: &[u8]) -> Result<Vec<RawField<'_>>, WireError>
    ensures { GivesFields (λ v. map field_record v.items) result bytes.now }
{
    let mut fields = Vec::new(alloc);
    let Some((count, behind)) = unless_faulty(read_u32(bytes))? else {
        return Ok(fields);
    };
    let mut rest = behind;
    'fields: for _taken in 0..count {
        let Some((found, after)) = unless_faulty(read_field(alloc, rest))? else {
            return Ok(fields);
        };
        fields.push(found)?;
        rest = after;
    }
    Ok(fields)
}

/// No payload has two lists of fields.
pub fn fields_once()
    ensures { FieldsOnce }
{}
