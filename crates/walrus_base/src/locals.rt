//! The locals of a module's functions.
ghost use Rattle.std.specs.Prelude.{◌≡◌, ◌++◌, ◌∷◌, [], length, map, All, Some, None, IsTrue, ◌↔◌, IfOk, MatchResult, count_by, is_some};
ghost use Rattle.std.specs.Borrow.{sem};
ghost use Rattle.std.specs.Iterator.{YieldsFirstRef, item_count};
ghost use Rattle.walrus_base.specs.Arena.{item_at, IsLive, items, live_places};
ghost use Rattle.walrus_base.specs.Id.{place};
ghost use Rattle.walrus_base.specs.Unnamed.{AreUnnamed};
ghost use Rattle.std.proofs.Props.{props};

use crate::held_type::HeldType;
use crate::keys::LocalId;
use crate::value::ValType;
use std::alloc::{AllocError, Global};

/// A parameter or local variable of a function (Structure > Modules > Functions).
#[derive(Drop)]
pub struct Local {
    // The place of its id.
    place: u32,
    ty: HeldType,
    /// The name that the name section gives it.
    pub name: Option<String>,
}

impl Local {
    ghost use Rattle.walrus_base.specs.Locals.{local_place, local_type};

    /// The id under which the local was added.
    pub fn id(&self) -> LocalId
        ensures { place result ≡ local_place self.now }
    {
        LocalId::at(self.place as usize)
    }

    /// The type of its values.
    pub fn ty(&self) -> ValType
        ensures { result ≡ local_type self.now }
    {
        self.ty.ty()
    }
}

/// The locals of all functions of a module, by their ids.
///
/// None is ever taken away, so there is one at each place up to the last.
#[derive(Drop)]
pub struct ModuleLocals {
    places: Vec<Local>,
    // Whether none has got a name: one that was lent for writing counts as named.
    unnamed: bool,
    ghost none_named: { IsTrue unnamed → AreUnnamed (map Some places.items) } by { Prim.hlevel props },
}

impl ModuleLocals {
    ghost use Rattle.walrus_base.specs.Locals.{locals, new_local, locals_left};
    ghost use Rattle.walrus_base.specs.LendsLocal.{LendsLocal};

    /// No locals. Takes no memory until the first one comes.
    pub fn new(alloc: Global) -> ModuleLocals
        ensures { locals result ≡ [] }
    {
        ModuleLocals {
            places: Vec::new(alloc),
            unnamed: true,
        }
    }

    /// Makes room for `additional` more locals.
    pub fn reserve(&mut self, additional: usize) -> Result<(), AllocError>
        ensures { locals self.new ≡ locals self.old }
    {
        self.places.reserve(additional)
    }

    /// The id that the next local gets.
    pub fn next_id(&self) -> LocalId
        ensures { place result ≡ length (locals self.now) }
    {
        LocalId::at(self.places.len())
    }

    /// Adds a local of this type, without a name. Where memory runs out, or 2^32 locals are there, nothing changes.
    pub fn add(&mut self, ty: ValType) -> Result<LocalId, AllocError>
        ensures { MatchResult result
            (λ id. (place id ≡ length (locals self.old))
            × (locals self.new ≡ locals self.old ++ Some (new_local id ty) ∷ []))
            (λ _. locals self.new ≡ locals self.old) }
    {
        let Ok(place) = u32::try_from(self.places.len()) else {
            return Err(AllocError);
        };
        self.places.push(Local {
            place,
            ty: HeldType::of(ty),
            name: None,
        })?;
        Ok(LocalId::at(place as usize))
    }

    /// The local of a live id.
    pub fn get(&self, id: LocalId) -> &Local
        requires { IsLive (locals self.now) (place id) }
        ensures { item_at (locals self.now) (place id) ≡ Some result.now }
    {
        &self.places[id.index()]
    }

    /// The local of a live id, for writing.
    pub fn get_mut(&mut self, id: LocalId) -> &mut Local
        requires { IsLive (locals self.old) (place id) }
        ensures* writes_back { sem 𝓛 (LendsLocal self.entry (place id) result) }
        ensures value { item_at (locals self.old) (place id) ≡ Some result.now }
    {
        self.unnamed = false;
        &mut self.places[id.index()]
    }

    /// Whether the local of the id is there.
    pub fn contains(&self, id: LocalId) -> bool
        ensures { IsTrue result ↔ IsLive (locals self.now) (place id) }
    {
        id.index() < self.places.len()
    }

    /// How many locals there are.
    pub fn len(&self) -> usize
        ensures { result ≡ count_by is_some (locals self.now) }
    {
        self.places.len()
    }

    /// Whether there is no local.
    pub fn is_empty(&self) -> bool
        ensures { IsTrue result ↔ (count_by is_some (locals self.now) ≡ 0) }
    {
        self.places.is_empty()
    }

    /// The locals, by rising id.
    pub fn iter(&self) -> LocalIter<'_>
        ensures { locals_left result ≡ items (locals self.now) }
    {
        LocalIter {
            rest: self.places.as_slice(),
        }
    }

    /// The ids of the locals, by rising place. Takes memory once.
    pub fn ids(&self, alloc: Global) -> Result<Vec<LocalId>, AllocError>
        ensures value { IfOk result (λ ids. map place ids.items ≡ live_places (locals self.now)) }
        ensures live { IfOk result (λ ids. All (λ id. IsLive (locals self.now) (place id)) ids.items) }
    {
        let mut ids = Vec::with_capacity(alloc, self.places.len())?;
        for place in 0..self.places.len() {
            ids.push(LocalId::at(place))?;
        }
        Ok(ids)
    }

    /// Whether no local has a name, as far as this is known without a look at each: not once one was lent for writing.
    pub fn are_unnamed(&self) -> bool
        ensures { IsTrue result → AreUnnamed (locals self.now) }
    {
        self.unnamed
    }
}

/// The locals of a module, by rising id.
#[derive(Drop)]
pub struct LocalIter<'a> {
    rest: &'a [Local],
}

impl<'a> Iterator for LocalIter<'a> {
    type Item = &'a Local;

    ghost use Rattle.walrus_base.specs.Locals.{locals_left};

    ghost next_gives = { YieldsFirstRef locals_left };

    ghost remaining = { item_count locals_left };

    fn next(&mut self) -> Option<&'a Local> {
        match self.rest {
            [first, rest @ ..] => {
                self.rest = rest;
                Some(first)
            }
            [] => None,
        }
    }
}
