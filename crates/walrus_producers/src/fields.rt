//! The fields of a section, and where the first one of each name stands.
ghost use Rattle.std.specs.Prelude.{◌≡◌, [], ◌++◌, ◌∷◌, MatchResult};
ghost use Rattle.walrus_producers.specs.Fields.{field_name, fields_seen};
ghost use Rattle.walrus_producers.specs.Producers.{with_field};
ghost use Rattle.walrus_producers.specs.Values.{first_of, value_seen};

use crate::producers::{ProducerField, ProducerValue};
use std::alloc::{AllocError, Global};
use std::collections::BTreeMap;
use std::fmt;
use std::marker::Model;

/// Fields in order. The first one of a name is found in the logarithm of their number.
#[derive(Drop)]
pub(crate) struct NamedFields {
    fields: Vec<ProducerField>,
    // By its name, the place of the first field that has it.
    places: BTreeMap<String, usize>,
}

impl Model for NamedFields {
    ghost use Rattle.std.specs.Prelude.{List};
    ghost use Rattle.walrus_producers.specs.Fields.{field_name, fields_seen};
    ghost use Rattle.walrus_producers.specs.Values.{IsIndex};
    ghost use Rattle.walrus_producers.specs.declared.producers.ProducerField.{ProducerField};

    ghost Value = { List ProducerField };

    ghost view = { λ f. f.fields.items };

    ghost invariant = { λ f. IsIndex field_name f.places (fields_seen f.fields.items) };
}

impl fmt::Debug for NamedFields {
    fn fmt<W: fmt::Write>(&self, f: &mut fmt::Formatter<W>) -> fmt::Result {
        self.fields.fmt(f)
    }
}

impl NamedFields {
    /// No fields. Takes no memory.
    pub(crate) fn new(alloc: Global) -> NamedFields
        ensures { result ≡ [] }
    {
        NamedFields {
            fields: Vec::new(alloc),
            places: BTreeMap::new(alloc),
        }
    }

    /// In order.
    pub(crate) fn as_slice(&self) -> &[ProducerField]
        ensures { result.now ≡ self.now }
    {
        self.fields.as_slice()
    }

    // The place of the first field of this name.
    fn place_of(&self, name: &str) -> Option<usize>
        ensures { result ≡ first_of field_name name.now (fields_seen self.now) }
    {
        self.places.get(name).copied()
    }

    /// Puts a field behind all. Refused, nothing changes.
    pub(crate) fn push(&mut self, alloc: Global, field: ProducerField) -> Result<(), AllocError>
        ensures { MatchResult result
            (λ _. self.new ≡ self.old ++ field ∷ [])
            (λ _. self.new ≡ self.old) }
    {
        self.fields.reserve(1)?;
        if self.place_of(field.name()).is_none() {
            let name = String::from_str(alloc, field.name())?;
            self.places.insert(name, self.fields.as_slice().len())?;
        }
        self.fields.push_reserved(field);
        Ok(())
    }

    /// Puts a value into the first field of this name, made at the end if there is none. Refused, nothing changes.
    pub(crate) fn put(
        &mut self,
        alloc: Global,
        name: &str,
        value: ProducerValue,
    ) -> Result<(), AllocError>
        ensures { MatchResult result
            (λ _. fields_seen self.new ≡ with_field name.now (value_seen value) (fields_seen self.old))
            (λ _. fields_seen self.new ≡ fields_seen self.old) }
    {
        match self.place_of(name) {
            Some(place) => self.fields[place].put(alloc, value),
            None => self.push(alloc, ProducerField::new(alloc, name, value)?),
        }
    }
}
