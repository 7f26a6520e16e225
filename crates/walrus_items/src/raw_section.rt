//! A custom section that is kept as it was read.

ghost use Rattle.std.specs.Prelude.{◌≡◌, ℕ, Bool, false, List, [], IfOk, OnOk, OnErr, IsOkUnless};
ghost use Rattle.std.specs.String.{string_bytes};
ghost use Rattle.walrus_items.specs.Errors.{out_of_memory};

use crate::custom::CustomSection;
use crate::error::Result;
use crate::roots::Roots;
use crate::transform::CodeTransform;
use walrus_code::IdsToIndices;

/// A custom section that is kept as it was read: its name and its bytes.
#[derive(Debug, Drop, PartialEq, Eq)]
pub struct RawCustomSection {
    /// The name.
    pub name: String,
    /// The bytes behind the name.
    pub data_: Vec<u8>,
}

impl RawCustomSection {
    /// A section of the same name and bytes. `Memory` is the only error.
    pub fn try_clone(&self) -> Result<RawCustomSection>
        ensures name { IfOk result (λ r. string_bytes r.name ≡ string_bytes self.now.name) }
        ensures bytes { IfOk result (λ r. r.data_.items ≡ self.now.data_.items) }
        ensures fails { IsOkUnless result out_of_memory }
    {
        Ok(RawCustomSection {
            name: self.name.clone()?,
            data_: self.data_.clone()?,
        })
    }
}

impl CustomSection for RawCustomSection {
    ghost section_name = { λ s. string_bytes s.name };

    ghost state = { λ s. s.data_.items };

    ghost own_roots = { λ _. [] };

    ghost may_refuse = { λ _. false };

    ghost contents = { λ s _. s.data_.items };

    ghost state_after = { λ s _. s.data_.items };

    fn name(&self) -> &str {
        self.name.as_str()
    }

    fn data(&self, _indices: &IdsToIndices) -> Result<Vec<u8>> {
        Ok(self.data_.clone()?)
    }

    fn add_gc_roots(&self, _roots: &mut Roots) -> Result<()> {
        Ok(())
    }

    fn apply_code_transform(&mut self, _transform: &CodeTransform) -> Result<()> {
        Ok(())
    }
}
