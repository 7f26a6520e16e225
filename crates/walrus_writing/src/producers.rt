//! The producers section of a module that is written: its payload.
ghost use Rattle.std.specs.Prelude.{◌≡◌, IfOk, IsOkUnless, Ok, map};
ghost use Rattle.wasm_forms.specs.Spelling.{vector_bytes};
ghost use Rattle.wasm_payloads.specs.Producers.{field_record, value_record};
ghost use Rattle.walrus_model.specs.Producers.{if_written};
ghost use Rattle.walrus_items.specs.Errors.{out_of_memory};
ghost use Rattle.walrus_producers.specs.Seen.{field_seen, fields_seen, producers, values_seen};
ghost use Rattle.walrus_theorem.specs.Text.{field_bytes, raw_field, raw_value};
ghost use Rattle.walrus_writing.specs.Customs.{SpellsFields, payload_of};

use std::alloc::Global;
use walrus_items::{Error, Result};
use walrus_producers::{ModuleProducers, ProducerField, ProducerValue};
use wasm_forms::WireError;
use wasm_payloads::{RawField, write_producers};

// The values of a field, lent.
fn lent_values<'a>(alloc: Global, values: &'a [ProducerValue]) -> Result<Vec<(&'a str, &'a str)>>
    ensures value { IfOk result (λ raw. map value_record raw.items ≡ map raw_value (values_seen values.now)) }
    ensures fails { IsOkUnless result out_of_memory }
{
    let mut raw = Vec::with_capacity(alloc, values.len())?;
    'values: for value in values {
        raw.push((value.name(), value.version()))?;
    }
    Ok(raw)
}

// A field, lent.
fn lent_field<'a>(alloc: Global, field: &'a ProducerField) -> Result<RawField<'a>>
    ensures value { IfOk result (λ raw. field_record raw ≡ raw_field (field_seen field.now)) }
    ensures fails { IsOkUnless result out_of_memory }
{
    let values = lent_values(alloc, field.values())?;
    Ok(RawField {
        name: field.name(),
        values,
    })
}

// The fields, lent.
fn lent_fields<'a>(alloc: Global, fields: &'a [ProducerField]) -> Result<Vec<RawField<'a>>>
    ensures value { IfOk result (λ raw. map field_record raw.items ≡ map raw_field (fields_seen fields.now)) }
    ensures fails { IsOkUnless result out_of_memory }
{
    let mut raw = Vec::with_capacity(alloc, fields.len())?;
    'fields: for field in fields {
        let one = lent_field(alloc, field)?;
        raw.push(one)?;
    }
    Ok(raw)
}

// The payload of a section of these fields; none where a count or a size in it passes 32 bits.
fn spelled_fields(alloc: Global, fields: &[ProducerField]) -> Result<Option<Vec<u8>>>
    ensures { SpellsFields (vector_bytes field_bytes) (fields_seen fields.now) result }
{
    let raw = lent_fields(alloc, fields)?;
    let mut bytes = Vec::new(alloc);
    match write_producers(&mut bytes, raw.as_slice()) {
        Ok(()) => Ok(Some(bytes)),
        Err(WireError::Memory(refused)) => Err(Error::Memory(refused)),
        Err(WireError::Malformed | WireError::TooLarge) => Ok(None),
    }
}

/// The payload of the producers section where it is chosen, which is empty where no section is written; none where a count or a size in it
/// passes 32 bits.
///
/// # Errors
///
/// `Memory`.
pub fn producers_payload(
    alloc: Global,
    all: &ModuleProducers,
    chosen: bool,
) -> Result<Option<Vec<u8>>>
    ensures { SpellsFields payload_of (if_written chosen (producers all.now)) result }
{
    let fields = all.fields();
    if !chosen || fields.is_empty() {
        return Ok(Some(Vec::new(alloc)));
    }
    spelled_fields(alloc, fields)
}
