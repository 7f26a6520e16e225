//! The lowest local of each type.
ghost use Rattle.std.specs.Prelude.{◌≡◌, IfOk, None, Some, if◌then◌else◌};
ghost use Rattle.walrus_base.specs.contracts.value.ValTypePartialEq.TheImpl as equality;
ghost use Rattle.walrus_functions.specs.Declaring.{lower, lowest_of, number_at};

use std::alloc::{AllocError, Global};
use std::collections::HashMap;
use walrus_base::ValType;

// The lowest local of each type. The number types and the vector type are found without a hash.
#[derive(Drop)]
pub(crate) struct Lowest {
    // The lowest local of integers of 32 bits, if there is one.
    integer_32: Option<usize>,
    // Of integers of 64 bits.
    integer_64: Option<usize>,
    // Of floating-point numbers of 32 bits.
    float_32: Option<usize>,
    // Of floating-point numbers of 64 bits.
    float_64: Option<usize>,
    // Of vectors.
    vector: Option<usize>,
    // Of each reference type.
    references: HashMap<ValType, usize>,
}

// The lower one of a local and the lowest so far.
fn lower(local: usize, lowest: Option<usize>) -> usize
    ensures { result ≡ lower local lowest }
{
    match lowest {
        Some(other) => local.min(other),
        None => local,
    }
}

// Takes a local as the lowest one of its type, unless a lower one is there.
fn note_lower(
    lowest: &mut HashMap<ValType, usize>,
    local: usize,
    ty: ValType,
) -> Result<(), AllocError>
    ensures { IfOk result (λ _. (v : _) → number_at lowest.new v
        ≡ (if (equality.ghosts).eq ty v then Some (lower local (number_at lowest.old ty)) else number_at
        lowest.old v)) }
{
    let low = lower(local, lowest.get(&ty).copied());
    lowest.insert(ty, low)?;
    Ok(())
}

impl Lowest {
    // No local yet. Takes no memory until the first one of a reference type.
    pub(crate) fn new(alloc: Global) -> Lowest
        ensures { (v : _) → lowest_of result v ≡ None }
    {
        Lowest {
            integer_32: None,
            integer_64: None,
            float_32: None,
            float_64: None,
            vector: None,
            references: HashMap::new(alloc),
        }
    }

    // Takes a local as the lowest one of its type, unless a lower one is there.
    pub(crate) fn note(&mut self, local: usize, ty: ValType) -> Result<(), AllocError>
        ensures { IfOk result (λ _. (v : _) → lowest_of self.new v
            ≡ (if (equality.ghosts).eq ty v then Some (lower local (lowest_of self.old ty)) else lowest_of
            self.old v)) }
    {
        match ty {
            ValType::I32 => self.integer_32 = Some(lower(local, self.integer_32)),
            ValType::I64 => self.integer_64 = Some(lower(local, self.integer_64)),
            ValType::F32 => self.float_32 = Some(lower(local, self.float_32)),
            ValType::F64 => self.float_64 = Some(lower(local, self.float_64)),
            ValType::V128 => self.vector = Some(lower(local, self.vector)),
            ValType::Ref(_) => note_lower(&mut self.references, local, ty)?,
        }
        Ok(())
    }

    // The lowest local of a type.
    pub(crate) fn lowest(&self, ty: ValType) -> Option<usize>
        ensures { result ≡ lowest_of self.now ty }
    {
        match ty {
            ValType::I32 => self.integer_32,
            ValType::I64 => self.integer_64,
            ValType::F32 => self.float_32,
            ValType::F64 => self.float_64,
            ValType::V128 => self.vector,
            ValType::Ref(_) => self.references.get(&ty).copied(),
        }
    }
}
