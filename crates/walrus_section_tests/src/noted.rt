//! A custom section of a caller's own.
ghost use Rattle.std.specs.Prelude.{true, [], ◌∷◌};
ghost use Rattle.walrus.specs.Handed.{Functions, place};
ghost use Rattle.walrus_section_tests.specs.Noted.{index_byte};

use std::alloc::Global;
use walrus::{CodeTransform, CustomSection, Error, FunctionId, IdsToIndices, Result, Roots};

/// What a section refuses.
#[derive(Clone, Copy, Debug, Eq, PartialEq)]
pub enum Refuses {
    /// Nothing.
    Nothing,
    /// To say what it keeps.
    Roots,
    /// To give its data.
    Data,
}

/// Keeps a function, and writes its index in one byte, or FF where it has none.
#[derive(Drop)]
pub struct Noted {
    pub alloc: Global,
    pub name: &'static str,
    pub function: FunctionId,
    pub refuses: Refuses,
}

impl CustomSection for Noted {
    ghost section_name = { λ s. s.name.now };

    ghost state = { λ _. [] };

    ghost own_roots = { λ s. (Functions, place s.function) ∷ [] };

    ghost may_refuse = { λ _. true };

    ghost contents = { λ s indices. index_byte (indices Functions (place s.function)) };

    ghost state_after = { λ _ _. [] };

    fn name(&self) -> &str {
        self.name
    }

    fn data(&self, indices: &IdsToIndices) -> Result<Vec<u8>> {
        if self.refuses == Refuses::Data {
            return Err(Error::Caller(String::from_str(self.alloc, "no")?));
        }
        let mut bytes = Vec::new(self.alloc);
        match indices.get_func_index(self.function) {
            None => bytes.push(255)?,
            Some(index) => match u8::try_from(index) {
                Ok(byte) => bytes.push(byte)?,
                Err(_) => return Err(Error::Caller(String::from_str(self.alloc, "no byte")?)),
            },
        }
        Ok(bytes)
    }

    fn add_gc_roots(&self, roots: &mut Roots) -> Result<()> {
        if self.refuses == Refuses::Roots {
            return Err(Error::Caller(String::from_str(self.alloc, "no")?));
        }
        roots.push_func(self.function)?;
        Ok(())
    }

    fn apply_code_transform(&mut self, _transform: &CodeTransform) -> Result<()> {
        Ok(())
    }
}
