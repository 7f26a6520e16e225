//! What is told of producers and of custom sections.

ghost use Rattle.std.specs.Prelude.{◌≡◌, ◌++◌, IfOk, OnOk, map, not};
ghost use Rattle.walrus.specs.Frames.Record.{custom_record};
ghost use Rattle.walrus.specs.Model.Sections.{is_apart};
ghost use Rattle.walrus_producers.specs.Seen.{fields_seen, values_seen};
ghost use Rattle.walrus_edits.specs.ItemSteps.{PutsAll, custom_told, producer_told};
ghost use Rattle.walrus_edits.specs.ItemValues.{customs_from, producers_in, producers_of, with_ids};

use crate::records::{Tells, put_number, tell_all};
use std::alloc::{AllocError, Global};
use std::result;
use walrus_edit_list::numbers::{OF_CUSTOM, PRODUCER};
use walrus_producers::{ProducerField, ProducerValue};
use wasm_forms::{WireError, write_name};
use wasm_frames::RawCustom;
use wasm_wire::{CustomGroup, is_debug};

/// A producer: its field, its name, and its version.
#[derive(Clone, Copy)]
struct Producer<'a> {
    field: &'a str,
    name: &'a str,
    version: &'a str,
}

impl<'a> Tells for Producer<'a> {
    ghost told = { producer_told };

    fn number(&self) -> u8 {
        PRODUCER
    }

    fn write_payload(&self, _alloc: Global, to: &mut Vec<u8>) -> result::Result<(), WireError> {
        write_name(to, self.field)?;
        write_name(to, self.name)?;
        write_name(to, self.version)
    }
}

/// Puts the producers of a field behind the others.
fn push_values<'a>(
    to: &mut Vec<Producer<'a>>,
    field: &'a str,
    values: &'a [ProducerValue],
) -> result::Result<(), AllocError>
    ensures { OnOk result (map producer_told to.new.items ≡ map producer_told to.old.items
        ++ producers_of field.now (values_seen values.now)) }
{
    'values: for value in values {
        to.push(Producer {
            field,
            name: value.name(),
            version: value.version(),
        })?;
    }
    Ok(())
}

/// The producers of all fields.
fn producers_of_fields<'a>(
    alloc: Global,
    fields: &'a [ProducerField],
) -> result::Result<Vec<Producer<'a>>, AllocError>
    ensures { IfOk result (λ all. map producer_told all.items ≡ producers_in (fields_seen fields.now)) }
{
    let mut all = Vec::new(alloc);
    'fields: for field in fields {
        push_values(&mut all, field.name(), field.values())?;
    }
    Ok(all)
}

/// Tells the producers of all fields.
pub(crate) fn tell_producers(
    alloc: Global,
    to: &mut Vec<u8>,
    fields: &[ProducerField],
) -> result::Result<(), WireError>
    ensures { PutsAll result to.old.items to.new.items (producers_in (fields_seen fields.now)) }
{
    let all = producers_of_fields(alloc, fields)?;
    tell_all(alloc, to, &all)
}

/// A custom section and its id.
#[derive(Clone, Copy)]
struct CustomWithId<'a> {
    id: usize,
    custom: RawCustom<'a>,
}

impl<'a> Tells for CustomWithId<'a> {
    ghost told = { custom_told };

    fn number(&self) -> u8 {
        OF_CUSTOM
    }

    fn write_payload(&self, _alloc: Global, to: &mut Vec<u8>) -> result::Result<(), WireError> {
        put_number(to, self.id as u64)?;
        write_name(to, self.custom.name)?;
        to.extend_from_slice(self.custom.bytes)?;
        Ok(())
    }
}

/// Whether a custom section of this name has an id: one of names, producers or debug information has none.
fn has_id(name: &str) -> bool
    ensures { result ≡ not (is_apart name.now) }
{
    !(CustomGroup::Names.has(name) || (CustomGroup::Producers.has(name) || is_debug(name)))
}

/// Those of these sections that have an id, in their order, each with it.
fn numbered<'a>(
    alloc: Global,
    customs: &[RawCustom<'a>],
) -> result::Result<Vec<CustomWithId<'a>>, AllocError>
    ensures { IfOk result (λ kept. map custom_told kept.items
        ≡ customs_from 0 (with_ids (map custom_record customs.now))) }
{
    let mut kept = Vec::new(alloc);
    'sections: for custom in customs {
        if has_id(custom.name) {
            let id = kept.len();
            kept.push(CustomWithId {
                id,
                custom: *custom,
            })?;
        }
    }
    Ok(kept)
}

/// Tells the custom sections that have an id.
pub(crate) fn tell_customs(
    alloc: Global,
    to: &mut Vec<u8>,
    customs: &[RawCustom<'_>],
) -> result::Result<(), WireError>
    ensures { PutsAll result to.old.items to.new.items
        (customs_from 0 (with_ids (map custom_record customs.now))) }
{
    let kept = numbered(alloc, customs)?;
    tell_all(alloc, to, &kept)
}
