//! A custom section of a caller's own that follows the code.
ghost use Rattle.std.specs.Prelude.{true, [], ◌∷◌};

use std::alloc::Global;
use walrus::{CodeTransform, CustomSection, Error, IdsToIndices, Result, Roots};

/// Keeps where the code section's count of functions stood last, and writes that in one byte.
#[derive(Drop)]
pub struct Follower {
    pub alloc: Global,
    pub name: &'static str,
    pub place: usize,
    pub refuses: bool,
}

impl CustomSection for Follower {
    ghost section_name = { λ s. s.name.now };

    ghost state = { λ s. s.place ∷ [] };

    ghost own_roots = { λ _. [] };

    ghost may_refuse = { λ _. true };

    ghost contents = { λ s _. s.place ∷ [] };

    ghost state_after = { λ _ x. x.code_section_start ∷ [] };

    fn name(&self) -> &str {
        self.name
    }

    fn data(&self, _indices: &IdsToIndices) -> Result<Vec<u8>> {
        let Ok(byte) = u8::try_from(self.place) else {
            return Err(Error::Caller(String::from_str(self.alloc, "no byte")?));
        };
        let mut bytes = Vec::new(self.alloc);
        bytes.push(byte)?;
        Ok(bytes)
    }

    fn add_gc_roots(&self, _roots: &mut Roots) -> Result<()> {
        Ok(())
    }

    fn apply_code_transform(&mut self, transform: &CodeTransform) -> Result<()> {
        if self.refuses {
            return Err(Error::Caller(String::from_str(self.alloc, "no")?));
        }
        self.place = transform.code_section_start;
        Ok(())
    }
}
