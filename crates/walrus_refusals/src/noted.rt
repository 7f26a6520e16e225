//! Custom sections that scenes add: a raw one, and one of a caller's own.
ghost use Rattle.std.specs.Prelude.{true, [], ◌∷◌, codes};
ghost use Rattle.walrus.specs.Handed.{Functions, place};

use std::alloc::Global;
use walrus::{
    CodeTransform, CustomSection, Error, FunctionId, IdsToIndices, ModuleFunctions,
    RawCustomSection, Result, Roots,
};

/// A raw section `r` of the byte 7.
pub fn raw_section(alloc: Global) -> Result<RawCustomSection> {
    let mut data = Vec::new(alloc);
    data.push(7)?;
    Ok(RawCustomSection {
        name: String::from_str(alloc, "r")?,
        data_: data,
    })
}

/// A section `s` of the byte 8, which keeps a function.
#[derive(Drop)]
pub struct Noted {
    alloc: Global,
    function: FunctionId,
}

/// Such a section, which keeps the last function.
pub fn noted_last(alloc: Global, functions: &ModuleFunctions) -> Result<Box<Noted>> {
    match functions.iter().last() {
        Some(last) => Ok(Box::new(
            alloc,
            Noted {
                alloc,
                function: last.id(),
            },
        )?),
        None => Err(Error::NotFound),
    }
}

impl CustomSection for Noted {
    ghost section_name = { λ _. codes "s" };

    ghost state = { λ _. [] };

    ghost own_roots = { λ s. (Functions, place s.function) ∷ [] };

    ghost may_refuse = { λ _. true };

    ghost contents = { λ _ _. 8 ∷ [] };

    ghost state_after = { λ _ _. [] };

    fn name(&self) -> &str {
        "s"
    }

    fn data(&self, _indices: &IdsToIndices) -> Result<Vec<u8>> {
        let mut bytes = Vec::new(self.alloc);
        bytes.push(8)?;
        Ok(bytes)
    }

    fn add_gc_roots(&self, roots: &mut Roots) -> Result<()> {
        roots.push_func(self.function)?;
        Ok(())
    }

    fn apply_code_transform(&mut self, _transform: &CodeTransform) -> Result<()> {
        Ok(())
    }
}
