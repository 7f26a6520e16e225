//! The fields of the producers section, and the values in them.
ghost use Rattle.std.specs.Prelude.{◌≡◌, [], ◌++◌, ◌∷◌, codes, IfOk, MatchResult, map};
ghost use Rattle.walrus_producers.specs.Producers.{with_value};
ghost use Rattle.walrus_producers.specs.Seen.{pair_value, values_seen};

use crate::fields::NamedFields;
use crate::values::NamedValues;
use std::alloc::{AllocError, Global};

/// A value of a field: the name and the version of what had a part in making the module.
#[derive(Debug, Drop)]
pub struct ProducerValue {
    name: String,
    version: String,
}

impl ProducerValue {
    ghost use Rattle.walrus_producers.specs.Seen.{value_seen};

    /// A value of these texts.
    pub(crate) fn new(alloc: Global, name: &str, version: &str) -> Result<ProducerValue, AllocError>
        ensures { IfOk result (λ v. value_seen v ≡ record { name = name.now; version = version.now }) }
    {
        let name = String::from_str(alloc, name)?;
        let version = String::from_str(alloc, version)?;
        Ok(ProducerValue { name, version })
    }

    /// Its name.
    pub fn name(&self) -> &str
        ensures { result.now ≡ (value_seen self.now).name }
    {
        self.name.as_str()
    }

    /// Its version.
    pub fn version(&self) -> &str
        ensures { result.now ≡ (value_seen self.now).version }
    {
        self.version.as_str()
    }
}

/// A field: its name, and its values in order.
#[derive(Debug, Drop)]
pub struct ProducerField {
    name: String,
    values: NamedValues,
}

impl ProducerField {
    ghost use Rattle.walrus_producers.specs.Seen.{field_seen, value_seen};

    /// A field of this one value.
    pub(crate) fn new(
        alloc: Global,
        name: &str,
        value: ProducerValue,
    ) -> Result<ProducerField, AllocError>
        ensures { IfOk result
            (λ f. field_seen f ≡ record { name = name.now; values = value_seen value ∷ [] }) }
    {
        let name = String::from_str(alloc, name)?;
        let mut values = NamedValues::new(alloc);
        values.push(alloc, value)?;
        Ok(ProducerField { name, values })
    }

    /// Its name.
    pub fn name(&self) -> &str
        ensures { result.now ≡ (field_seen self.now).name }
    {
        self.name.as_str()
    }

    /// Its values, in order.
    pub fn values(&self) -> &[ProducerValue]
        ensures { values_seen result.now ≡ (field_seen self.now).values }
    {
        self.values.as_slice()
    }

    /// Puts a value in the place of the first one of its name, or behind all where there is none. Refused, nothing changes.
    pub(crate) fn put(&mut self, alloc: Global, value: ProducerValue) -> Result<(), AllocError>
        ensures { MatchResult result
            (λ _. field_seen self.new ≡ record {
              name = (field_seen self.old).name;
              values = with_value
                  (value_seen value) (field_seen self.old).values;
            })
            (λ _. field_seen self.new ≡ field_seen self.old) }
    {
        self.values.put(alloc, value)
    }
}

/// The producers section of a module: fields in order, each a name with its values.
#[derive(Debug, Drop)]
pub struct ModuleProducers {
    fields: NamedFields,
    alloc: Global,
}

impl ModuleProducers {
    ghost use Rattle.walrus_producers.specs.Seen.{Adds, fields_seen, producers};

    /// No fields. Takes no memory until the first one comes.
    pub fn new(alloc: Global) -> ModuleProducers
        ensures { producers result ≡ [] }
    {
        ModuleProducers {
            fields: NamedFields::new(alloc),
            alloc,
        }
    }

    /// Adds a language in which the module was written, in the field `language`: the first value of this name is replaced, else it
    /// goes last. Refused, nothing changes.
    pub fn add_language(&mut self, language: &str, version: &str) -> Result<(), AllocError>
        ensures { Adds (codes "language") language.now version.now result self.old self.new }
    {
        self.add("language", language, version)
    }

    /// The same for a tool that worked on the module, in the field `processed-by`.
    pub fn add_processed_by(&mut self, tool: &str, version: &str) -> Result<(), AllocError>
        ensures { Adds (codes "processed-by") tool.now version.now result self.old self.new }
    {
        self.add("processed-by", tool, version)
    }

    /// The same for an SDK with which it was made, in the field `sdk`.
    pub fn add_sdk(&mut self, sdk: &str, version: &str) -> Result<(), AllocError>
        ensures { Adds (codes "sdk") sdk.now version.now result self.old self.new }
    {
        self.add("sdk", sdk, version)
    }

    /// The fields, in order.
    pub fn fields(&self) -> &[ProducerField]
        ensures { fields_seen result.now ≡ producers self.now }
    {
        self.fields.as_slice()
    }

    /// Puts a field with these values, each a name and a version, behind the others, as reading a module does. Refused, nothing
    /// changes.
    pub fn push_field(&mut self, name: &str, values: &[(&str, &str)]) -> Result<(), AllocError>
        ensures { MatchResult result
            (λ _. producers self.new ≡ producers self.old
            ++ record { name = name.now; values = map pair_value values.now } ∷ [])
            (λ _. producers self.new ≡ producers self.old) }
    {
        let field = ProducerField {
            name: String::from_str(self.alloc, name)?,
            values: NamedValues::of(self.alloc, values)?,
        };
        self.fields.push(self.alloc, field)
    }

    /// Takes all fields away.
    pub fn clear(&mut self)
        ensures { producers self.new ≡ [] }
    {
        self.fields = NamedFields::new(self.alloc);
    }

    // Puts a value into the first field of this name, made at the end if there is none.
    fn add(&mut self, field: &str, name: &str, version: &str) -> Result<(), AllocError>
        ensures { Adds field.now name.now version.now result self.old self.new }
    {
        let value = ProducerValue::new(self.alloc, name, version)?;
        self.fields.put(self.alloc, field, value)
    }
}
