//! Function types that take the same, or that give back the same.
ghost use Rattle.std.specs.BTreeMap.{IsEmpty};
ghost use Rattle.std.specs.Prelude.{◌≡◌, ◌<◌, IfOk};
ghost use Rattle.walrus_base.specs.Id.{place};
ghost use Rattle.walrus_functions.specs.Alike.{AreAlike, AreLike, values_in};
ghost use Rattle.walrus_functions.specs.Signatures.{types_in};

use crate::signatures::{Side, Signatures};
use std::alloc::{AllocError, Global};
use std::collections::BTreeMap;
use walrus_base::{TypeId, ValType};

/// For each type that was met, the first one that is like it on one side: that takes, or gives back, the same.
///
/// The values of a type are walked over when it's met first, and not again.
#[derive(Drop)]
pub(crate) struct Alike {
    first: BTreeMap<TypeId, TypeId>,
    // A type that was met with these values. It's compared before it's believed.
    by_values: BTreeMap<Vec<ValType>, TypeId>,
}

impl Alike {
    // No type was met yet.
    pub(crate) fn new(alloc: Global) -> Alike
        ensures { IsEmpty result.first }
    {
        Alike {
            first: BTreeMap::new(alloc),
            by_values: BTreeMap::new(alloc),
        }
    }

    // The first type met that is like this one on a side, or this one. One that doesn't stand below the bound isn't noted: it may come yet, and be
    // like another.
    pub(crate) fn first_like(
        &mut self,
        alloc: Global,
        signatures: &Signatures,
        side: Side,
        id: TypeId,
    ) -> Result<TypeId, AllocError>
        requires { AreAlike side signatures.now.bound (types_in signatures.now) self.old }
        ensures alike { IfOk result (λ first. values_in side (types_in signatures.now) (place first)
            ≡ values_in side (types_in signatures.now) (place id)) }
        ensures kept { IfOk result (λ _. AreAlike side signatures.now.bound (types_in signatures.now)
            self.new) }
    {
        if let Some(first) = self.first.get(&id) {
            return Ok(*first);
        }
        if !signatures.is_below(id) {
            return Ok(id);
        }
        let first = met(alloc, &mut self.by_values, signatures, side, id)?;
        self.first.insert(id, first)?;
        Ok(first)
    }
}

// The first type met with the values of this one, or this one, which is noted then.
fn met(
    alloc: Global,
    by_values: &mut BTreeMap<Vec<ValType>, TypeId>,
    signatures: &Signatures,
    side: Side,
    id: TypeId,
) -> Result<TypeId, AllocError>
    requires { place id < signatures.now.bound }
    ensures { IfOk result (λ met. AreLike side signatures.now.bound (types_in signatures.now)
        (place id) (place met)) }
{
    let values = signatures.values(side, id);
    if let Some(met) = by_values.get(values) {
        if signatures.are_alike(side, id, *met) {
            return Ok(*met);
        }
    }
    by_values.insert(values.to_vec(alloc)?, id)?;
    Ok(id)
}
