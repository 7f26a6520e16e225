//! Where the types of functions stand, by what they are.
ghost use Rattle.std.specs.Prelude.{◌≡◌, IsTrue, OnOk, map, []};
ghost use Rattle.walrus_base.specs.Id.{place};
ghost use Rattle.walrus_base.specs.PlaceList.{has, MayEndIn};

use crate::composite::FunctionType;
use crate::keys::TypeId;
use std::alloc::{AllocError, Global};
use std::collections::BTreeMap;

/// For each type of functions the ids of types that once were this type, in the order in which they came. Each that was noted
/// and is there is among them, but for those that name themselves.
#[derive(Drop)]
pub(crate) struct FunctionIndex {
    ids: BTreeMap<FunctionType, Vec<TypeId>>,
    alloc: Global,
}

impl FunctionIndex {
    ghost use Rattle.walrus_base.specs.Index.{places_at};
    ghost use Rattle.walrus_base.specs.Composite.{function_type};

    /// No ids. Takes no memory until the first one comes.
    pub(crate) fn new(alloc: Global) -> FunctionIndex
        ensures { (q : _) → places_at result q ≡ [] }
    {
        FunctionIndex {
            ids: BTreeMap::new(alloc),
            alloc,
        }
    }

    /// The ids under this type of functions.
    pub(crate) fn at(&self, function: &FunctionType) -> &[TypeId]
        ensures { map (λ id. place id) result.now ≡ places_at self.now function.now }
    {
        match self.ids.get(function) {
            Some(ids) => ids.as_slice(),
            None => &[],
        }
    }

    /// Puts an id behind those under this type of functions. Where memory runs out, what was there stays.
    pub(crate) fn note(&mut self, function: &FunctionType, id: TypeId) -> Result<(), AllocError>
        ensures stays { (q : _) → MayEndIn (function_type q ≡ function_type function.now)
            (places_at self.old q) (place id) (places_at self.new q) }
        ensures noted { OnOk result ((q : _) → function_type q ≡ function_type function.now
            → IsTrue (has (places_at self.new q) (place id))) }
    {
        match self.ids.get_mut(function) {
            Some(ids) => {
                ids.push(id)?;
            }
            None => {
                let mut ids = Vec::new(self.alloc);
                ids.push(id)?;
                let key = function.try_clone(self.alloc)?;
                self.ids.insert(key, ids)?;
            }
        }
        Ok(())
    }
}
