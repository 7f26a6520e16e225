//! The function types that indices name, as far as handlers ask for them.
ghost use Rattle.std.specs.Prelude.{◌≡◌, ◌<◌, ◌↔◌, IfOk, IsTrue, map, option_map, option_to_list};
ghost use Rattle.walrus_base.specs.Id.{place};
ghost use Rattle.walrus_base.specs.Composite.{function_type};
ghost use Rattle.walrus_base.specs.Value.{val_type};
ghost use Rattle.walrus_functions.specs.Alike.{AreLike, values_in};
ghost use Rattle.walrus_functions.specs.Handlers.{catch_type, params_of, results_of};
ghost use Rattle.walrus_functions.specs.Signatures.{IsFunctionOf, given_by, pair_of, pair_type, taken_by, try_block, types_in};

use crate::tag_and_try::{TagAndTry, TryType};
use std::alloc::{AllocError, Global};
use std::slice;
use walrus_base::{FunctionType, ModuleTypes, TypeId, ValType};

/// One side of a function type.
#[derive(Clone, Copy)]
pub(crate) enum Side {
    /// What a function takes.
    Params,
    /// What a function gives back.
    Results,
}

/// The types of functions at the places below a bound.
#[derive(Clone, Copy)]
pub(crate) struct Signatures<'a> {
    pub(crate) types: &'a ModuleTypes,
    pub(crate) bound: usize,
}

impl<'a> Signatures<'a> {
    // The function type of the id, if it is one.
    fn function(&self, id: TypeId) -> Option<&FunctionType>
        ensures { IsFunctionOf (types_in self.now (place id)) result }
    {
        if id.index() < self.bound && self.types.contains(id) {
            self.types.get(id).as_function()
        } else {
            None
        }
    }

    // What a function of the type takes.
    fn params(&self, id: TypeId) -> &[ValType]
        ensures { map val_type result.now ≡ params_of (types_in self.now (place id)) }
    {
        match self.function(id) {
            Some(function) => function.params(),
            None => &[],
        }
    }

    // What a function of the type gives back.
    fn results(&self, id: TypeId) -> &[ValType]
        ensures { map val_type result.now ≡ results_of (types_in self.now (place id)) }
    {
        match self.function(id) {
            Some(function) => function.results(),
            None => &[],
        }
    }

    // What a function of the type takes, or gives back.
    pub(crate) fn values(&self, side: Side, id: TypeId) -> &[ValType]
        ensures { map val_type result.now ≡ values_in side (types_in self.now) (place id) }
    {
        match side {
            Side::Params => self.params(id),
            Side::Results => self.results(id),
        }
    }

    // Whether the type stands below the bound.
    pub(crate) fn is_below(&self, id: TypeId) -> bool
        ensures { IsTrue result ↔ (place id < self.now.bound) }
    {
        id.index() < self.bound
    }

    // Whether another type stands below the bound too, and functions of both take, or give back, the same.
    pub(crate) fn are_alike(&self, side: Side, id: TypeId, other: TypeId) -> bool
        requires { place id < self.now.bound }
        ensures { IsTrue result → AreLike side self.now.bound (types_in self.now) (place id) (place other) }
    {
        self.is_below(other) && self.values(side, id) == self.values(side, other)
    }

    // What a handler takes whose tag has the type, if it has one.
    fn taken_by(&self, tag_type: Option<TypeId>) -> &[ValType]
        ensures { map val_type result.now ≡ taken_by (types_in self.now) (option_map place tag_type) }
    {
        match tag_type {
            Some(id) => self.params(id),
            None => &[],
        }
    }

    // What a try of the type gives back.
    fn given_by<'b>(&'b self, try_type: &'b TryType) -> &'b [ValType]
        ensures { map val_type result.now ≡ given_by (types_in self.now) (try_block try_type.now) }
    {
        match try_type {
            TryType::NoResult => &[],
            TryType::OneResult(value) => slice::from_ref(value),
            TryType::OfType(id) => self.results(*id),
        }
    }

    // The type that a handler needs, if it needs one.
    pub(crate) fn needed(
        &self,
        alloc: Global,
        handler: &TagAndTry,
    ) -> Result<Option<FunctionType>, AllocError>
        ensures { IfOk result (λ needed. map function_type (option_to_list needed)
            ≡ pair_type (types_in self.now) (pair_of handler.now)) }
    {
        let params = self.taken_by(handler.tag_type);
        let results = self.given_by(&handler.try_type);
        handler_type(alloc, params, results)
    }
}

// The type of a handler that takes these parameters in a try with these results, unless it takes nothing and the try has at most one.
fn handler_type(
    alloc: Global,
    params: &[ValType],
    results: &[ValType],
) -> Result<Option<FunctionType>, AllocError>
    ensures { IfOk result (λ needed. map function_type (option_to_list needed)
        ≡ catch_type (map val_type params.now) (map val_type results.now)) }
{
    if params.is_empty() && results.len() <= 1 {
        return Ok(None);
    }
    let needed = FunctionType::new(alloc, params, results)?;
    Ok(Some(needed))
}
