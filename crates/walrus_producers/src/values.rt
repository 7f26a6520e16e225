//! The values of a field, and where the first one of each name stands.
ghost use Rattle.std.specs.Prelude.{◌≡◌, [], ◌++◌, ◌∷◌, IfOk, MatchResult, map};
ghost use Rattle.walrus_producers.specs.Producers.{with_value};
ghost use Rattle.walrus_producers.specs.Values.{first_of, pair_value, value_name, value_seen, values_seen};

use crate::producers::ProducerValue;
use std::alloc::{AllocError, Global};
use std::collections::BTreeMap;
use std::fmt;
use std::marker::Model;

/// Values in order. The first one of a name is found in the logarithm of their number.
#[derive(Drop)]
pub(crate) struct NamedValues {
    values: Vec<ProducerValue>,
    // By its name, the place of the first value that has it.
    places: BTreeMap<String, usize>,
}

impl Model for NamedValues {
    ghost use Rattle.std.specs.Prelude.{List};
    ghost use Rattle.walrus_producers.specs.Values.{IsIndex, value_name, values_seen};
    ghost use Rattle.walrus_producers.specs.declared.producers.ProducerValue.{ProducerValue};

    ghost Value = { List ProducerValue };

    ghost view = { λ v. v.values.items };

    ghost invariant = { λ v. IsIndex value_name v.places (values_seen v.values.items) };
}

impl fmt::Debug for NamedValues {
    fn fmt<W: fmt::Write>(&self, f: &mut fmt::Formatter<W>) -> fmt::Result {
        self.values.fmt(f)
    }
}

impl NamedValues {
    /// No values. Takes no memory.
    pub(crate) fn new(alloc: Global) -> NamedValues
        ensures { result ≡ [] }
    {
        NamedValues {
            values: Vec::new(alloc),
            places: BTreeMap::new(alloc),
        }
    }

    /// These, each a name and a version.
    pub(crate) fn of(alloc: Global, values: &[(&str, &str)]) -> Result<NamedValues, AllocError>
        ensures { IfOk result (λ held. values_seen held ≡ map pair_value values.now) }
    {
        let mut held = NamedValues::new(alloc);
        'values: for (name, version) in values {
            held.push(alloc, ProducerValue::new(alloc, name, version)?)?;
        }
        Ok(held)
    }

    /// In order.
    pub(crate) fn as_slice(&self) -> &[ProducerValue]
        ensures { result.now ≡ self.now }
    {
        self.values.as_slice()
    }

    // The place of the first value of this name.
    fn place_of(&self, name: &str) -> Option<usize>
        ensures { result ≡ first_of value_name name.now (values_seen self.now) }
    {
        self.places.get(name).copied()
    }

    /// Puts a value behind all. Refused, nothing changes.
    pub(crate) fn push(&mut self, alloc: Global, value: ProducerValue) -> Result<(), AllocError>
        ensures { MatchResult result
            (λ _. self.new ≡ self.old ++ value ∷ [])
            (λ _. self.new ≡ self.old) }
    {
        self.values.reserve(1)?;
        if self.place_of(value.name()).is_none() {
            let name = String::from_str(alloc, value.name())?;
            self.places.insert(name, self.values.as_slice().len())?;
        }
        self.values.push_reserved(value);
        Ok(())
    }

    /// Puts a value in the place of the first one of its name, or behind all where there is none. Refused, nothing changes.
    pub(crate) fn put(&mut self, alloc: Global, value: ProducerValue) -> Result<(), AllocError>
        ensures { MatchResult result
            (λ _. values_seen self.new ≡ with_value (value_seen value) (values_seen self.old))
            (λ _. self.new ≡ self.old) }
    {
        match self.place_of(value.name()) {
            Some(place) => {
                self.values[place] = value;
                Ok(())
            }
            None => self.push(alloc, value),
        }
    }
}
