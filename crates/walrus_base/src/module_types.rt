//! The types of a module, by their ids.
ghost use Rattle.std.specs.Prelude.{◌≡◌, ◌<◌, ◌≤◌, ◌++◌, ◌∷◌, [], ℕ, length, Some, IsTrue, ◌↔◌, MatchResult, MatchOption, IfOk, All, count_by, is_some, slice_set, map};
ghost use Rattle.std.specs.List.{range_with_len};
ghost use Rattle.walrus_base.specs.Arena.{item_at, IsLive, entries, kept_by, live_places};
ghost use Rattle.walrus_base.specs.Id.{place};
ghost use Rattle.walrus_base.specs.Marks.{is_marked};
ghost use Rattle.walrus_base.specs.Alone.{alone, IsIndexed, AreInOrder, AreNotNamed, StandsAt, StandsFirst, StandsNowhere, FoundOrAdded};
ghost use Rattle.walrus_base.specs.Composite.{function_type, function_of};
ghost use Rattle.walrus_base.specs.OwnIds.{under_own_ids};
ghost use Rattle.walrus_base.specs.TypeDef.{type_def, type_place, type_name, name_bytes};
ghost use Rattle.walrus_base.specs.TypeSlots.{defs, group_at, last_of, new_group, no_names, cleared};
ghost use Rattle.walrus_base.specs.Whole.{AreWhole, KeepsGroups};
ghost use Rattle.std.proofs.Props.{props};
ghost use Rattle.walrus_base.specs.TypesLeft.{types_left, ids_left};

use crate::arena::{keep_marked, live_ids};
use crate::composite::{CompositeType, FunctionType, NewType};
use crate::group::GroupIds;
use crate::id::Id;
use crate::index::FunctionIndex;
use crate::keys::{TypeId, TypeKey};
use crate::marks::Marks;
use crate::names::names_type;
use crate::slots::{clear, count_items, note_alone, placed, rename};
use crate::type_iter::TypeIter;
use crate::types::Type;
use crate::value::ValType;
use std::alloc::{AllocError, Global};

/// The types of a module, by their ids, in groups (Structure > Types > Recursive Types).
///
/// A place is never used again. Groups are added and deleted whole.
#[derive(Drop)]
pub struct ModuleTypes {
    places: Vec<Option<Type>>,
    index: FunctionIndex,
    // So many places are noted in the index, the first ones. The others come into it when a type is asked for that may be
    // added.
    noted: usize,
    alloc: Global,
    ghost under_own_ids: { IsTrue (under_own_ids 0 places.items) },
    ghost indexed: { IsIndexed index noted places.items },
    ghost within: { noted ≤ length places.items },
    ghost in_order: { AreInOrder index noted },
    ghost not_named: { AreNotNamed index },
    ghost whole: { AreWhole (defs places.items) } by { Prim.hlevel props },
}

impl ModuleTypes {
    ghost use Rattle.walrus_base.specs.ModuleTypes.{type_slots, type_names};

    /// No types. Takes no memory until the first one comes.
    pub fn new(alloc: Global) -> ModuleTypes
        ensures slots { type_slots result ≡ [] }
        ensures names { type_names result ≡ [] }
    {
        ModuleTypes {
            places: Vec::new(alloc),
            index: FunctionIndex::new(alloc),
            noted: 0,
            alloc,
        }
    }

    /// The id that the next type gets.
    pub fn next_id(&self) -> TypeId
        ensures { place result ≡ length (type_slots self.now) }
    {
        Id::at(self.places.len())
    }

    /// The ids that the members of the next group get, if it has this many.
    pub fn next_ids(&self, alloc: Global, count: usize) -> Result<Vec<TypeId>, AllocError>
        ensures { IfOk result (λ ids. map (λ id. place id) ids.items
            ≡ range_with_len (length (type_slots self.now)) count) }
    {
        let first = self.places.len();
        let Some(end) = first.checked_add(count) else {
            return Err(AllocError);
        };
        let mut ids = Vec::with_capacity(alloc, count)?;
        for place in first..end {
            ids.push(Id::at(place))?;
        }
        Ok(ids)
    }

    /// Adds a group of these members, and answers their ids: the next ones, in order. None has a name. An empty list adds
    /// nothing. Where memory runs out, the members are dropped and nothing changes.
    pub fn add_group(&mut self, members: Vec<NewType>) -> Result<GroupIds, AllocError>
        ensures ids { IfOk result (λ ids. ids_left ids
            ≡ range_with_len (length (type_slots self.old)) (length members.items)) }
        ensures slots { MatchResult result
            (λ _. type_slots self.new ≡ type_slots self.old
            ++ new_group (length (type_slots self.old)) members.items)
            (λ _. type_slots self.new ≡ type_slots self.old) }
        ensures names { MatchResult result
            (λ _. type_names self.new ≡ type_names self.old ++ no_names members.items)
            (λ _. type_names self.new ≡ type_names self.old) }
    {
        let first = self.places.len();
        let mut added = placed(self.alloc, first, members)?;
        self.places.append(&mut added)?;
        Ok(GroupIds::between(first, self.places.len()))
    }

    /// Adds a group of this member alone, and answers its id: the next one. It has no name. Where memory runs out, the member is
    /// dropped and nothing changes.
    pub fn add_alone(&mut self, member: NewType) -> Result<TypeId, AllocError>
        ensures id { IfOk result (λ id. place id ≡ length (type_slots self.old)) }
        ensures slots { MatchResult result
            (λ _. type_slots self.new ≡ type_slots self.old
            ++ new_group (length (type_slots self.old)) (member ∷ []))
            (λ _. type_slots self.new ≡ type_slots self.old) }
        ensures names { MatchResult result
            (λ _. type_names self.new ≡ type_names self.old ++ no_names (member ∷ []))
            (λ _. type_names self.new ≡ type_names self.old) }
    {
        let first = self.places.len();
        let Some(end) = first.checked_add(1) else {
            return Err(AllocError);
        };
        let id = Id::at(first);
        self.places.push(Some(Type::new(id, first, end, member)))?;
        Ok(id)
    }

    /// The id of a final type of functions with these parameters and results that is alone in its group, has no supertype
    /// and doesn't name itself. The first that is there already is answered; else it is added. Where memory runs out, nothing
    /// changes.
    pub fn add(&mut self, params: &[ValType], results: &[ValType]) -> Result<TypeId, AllocError>
        ensures { MatchResult result
            (λ id. FoundOrAdded (function_of params.now results.now) (type_slots self.old)
            (type_slots self.new) (type_names self.old) (type_names self.new) (place id))
            (λ _. (type_slots self.new ≡ type_slots self.old) × (type_names self.new ≡ type_names self.old)) }
    {
        let function = FunctionType::new(self.alloc, params, results)?;
        self.note_all()?;
        match self.find(&function) {
            Some(id) => Ok(id),
            None => self.add_function(function),
        }
    }

    // The same where none is there.
    fn add_function(&mut self, function: FunctionType) -> Result<TypeId, AllocError>
        requires { (p : ℕ) → StandsAt (function_type function) (type_slots self.old) p → ⊥ }
        ensures { MatchResult result
            (λ id. FoundOrAdded (function_type function) (type_slots self.old) (type_slots self.new)
            (type_names self.old) (type_names self.new) (place id))
            (λ _. (type_slots self.new ≡ type_slots self.old) × (type_names self.new ≡ type_names self.old)) }
    {
        self.add_alone(NewType {
            is_final: true,
            supertype: None,
            comp: CompositeType::Function(function),
        })
    }

    // Notes all places that aren't noted yet.
    fn note_all(&mut self) -> Result<(), AllocError>
        ensures slots { type_slots self.new ≡ type_slots self.old }
        ensures names { type_names self.new ≡ type_names self.old }
    {
        let first = self.noted;
        let end = self.places.len();
        for _place in first..end {
            self.note_next()?;
        }
        Ok(())
    }

    // Notes the next place, if there is one.
    fn note_next(&mut self) -> Result<(), AllocError>
        ensures slots { type_slots self.new ≡ type_slots self.old }
        ensures names { type_names self.new ≡ type_names self.old }
    {
        if self.noted < self.places.len() {
            note_alone(&mut self.index, &self.places[self.noted])?;
            self.noted += 1;
        }
        Ok(())
    }

    /// The id of the first such type, if one is there.
    pub fn find(&self, function: &FunctionType) -> Option<TypeId>
        ensures { MatchOption result
            ((p : ℕ) → StandsAt (function_type function.now) (type_slots self.now) p → ⊥)
            (λ id. StandsFirst (function_type function.now) (type_slots self.now) (place id)) }
    {
        match self.find_noted(function) {
            Some(id) => Some(id),
            None => self.find_later(function),
        }
    }

    // The same among the places that are noted.
    fn find_noted(&self, function: &FunctionType) -> Option<TypeId>
        ensures { MatchOption result
            (StandsNowhere (function_type function.now) (type_slots self.now) 0 self.now.noted)
            (λ id. StandsFirst (function_type function.now) (type_slots self.now) (place id)) }
    {
        for id in self.index.at(function) {
            if self.is_alone_as(*id, function) {
                return Some(*id);
            }
        }
        None
    }

    // The first of those behind the places that are noted.
    fn find_later(&self, function: &FunctionType) -> Option<TypeId>
        ensures { MatchOption result
            (StandsNowhere (function_type function.now) (type_slots self.now) self.now.noted
            (length (type_slots self.now)))
            (λ id. StandsAt (function_type function.now) (type_slots self.now) (place id)
            × StandsNowhere (function_type function.now) (type_slots self.now) self.now.noted (place id)) }
    {
        let first = self.noted;
        let end = self.places.len();
        for place in first..end {
            if self.stands_under(Id::at(place), function) {
                return Some(Id::at(place));
            }
        }
        None
    }

    // Whether such a type, which doesn't name itself, is under this id.
    fn stands_under(&self, id: TypeId, function: &FunctionType) -> bool
        ensures { IsTrue result ↔ StandsAt (function_type function.now) (type_slots self.now) (place id) }
    {
        self.is_alone_as(id, function) && !names_type(function, id)
    }

    // Whether such a type is under this id.
    fn is_alone_as(&self, id: TypeId, function: &FunctionType) -> bool
        ensures { IsTrue result ↔ (item_at (type_slots self.now) (place id)
            ≡ Some (alone (place id) (function_type function.now))) }
    {
        if !self.contains(id) {
            return false;
        }
        match self.get(id).alone_function() {
            Some(found) => found == function,
            None => false,
        }
    }

    /// Takes the whole group of a live type out. Takes no memory.
    pub fn delete(&mut self, id: TypeId)
        requires { IsLive (type_slots self.old) (place id) }
        ensures slots { type_slots self.new ≡ cleared (group_at (type_slots self.old) (place id))
            (type_slots self.old) }
        ensures names { type_names self.new ≡ cleared (group_at (type_slots self.old) (place id))
            (type_names self.old) }
    {
        let ty = self.get(id);
        let (first, end) = (ty.first, ty.end);
        clear(&mut self.places, first, end);
    }

    /// Deletes every type that isn't marked, where groups are marked whole. The others stay, and so do all places.
    /// Takes no memory.
    pub fn keep_only(&mut self, marks: &Marks<TypeKey>)
        requires { KeepsGroups (is_marked marks.now) (type_slots self.old) }
        ensures slots { type_slots self.new ≡ kept_by (is_marked marks.now) (type_slots self.old) }
        ensures names { type_names self.new ≡ kept_by (is_marked marks.now) (type_names self.old) }
    {
        keep_marked(&mut self.places, marks);
    }

    /// Gives a live type this name, or takes its name away.
    pub fn set_name(&mut self, id: TypeId, name: Option<String>)
        requires { IsLive (type_slots self.old) (place id) }
        ensures slots { type_slots self.new ≡ type_slots self.old }
        ensures names { type_names self.new ≡ slice_set (type_names self.old) (place id)
            (Some (name_bytes name)) }
    {
        rename(&mut self.places, id.index(), name);
    }

    /// The type of a live id.
    pub fn get(&self, id: TypeId) -> &Type
        requires { IsLive (type_slots self.now) (place id) }
        ensures value { item_at (type_slots self.now) (place id) ≡ Some (type_def result.now) }
        ensures own { type_place result.now ≡ place id }
        ensures named { item_at (type_names self.now) (place id) ≡ Some (type_name result.now) }
    {
        match &self.places[id.index()] {
            Some(ty) => ty,
            None => unreachable!(),
        }
    }

    /// The ids of the members of a live type's group, in order.
    pub fn group(&self, id: TypeId) -> GroupIds
        requires { IsLive (type_slots self.now) (place id) }
        ensures { ids_left result ≡ group_at (type_slots self.now) (place id) }
    {
        let ty = self.get(id);
        GroupIds::between(ty.first, ty.end)
    }

    /// The id of the last member of a live type's group, which is found at once, however many members there are.
    pub fn last_in_group(&self, id: TypeId) -> TypeId
        requires { IsLive (type_slots self.now) (place id) }
        ensures { place result ≡ last_of (group_at (type_slots self.now) (place id)) (place id) }
    {
        Id::at(self.get(id).end - 1)
    }

    /// Each type is a member of its group, and all members of its group are there.
    pub fn groups_are_whole(&self)
        ensures { AreWhole (type_slots self.now) }
    {}

    /// Whether the type of the id is there.
    pub fn contains(&self, id: TypeId) -> bool
        ensures { IsTrue result ↔ IsLive (type_slots self.now) (place id) }
    {
        match self.places.get(id.index()) {
            Some(slot) => slot.is_some(),
            None => false,
        }
    }

    /// How many types there are. Deleted ones aren't counted.
    pub fn len(&self) -> usize
        ensures { result ≡ count_by is_some (type_slots self.now) }
    {
        count_items(self.places.as_slice())
    }

    /// Whether there is no type.
    pub fn is_empty(&self) -> bool
        ensures { IsTrue result ↔ (count_by is_some (type_slots self.now) ≡ 0) }
    {
        self.len() == 0
    }

    /// The types, by rising id.
    pub fn iter(&self) -> TypeIter<'_>
        ensures { types_left result ≡ entries (type_slots self.now) }
    {
        TypeIter::over(self.places.as_slice())
    }

    /// The ids of the types, by rising place. Takes memory once.
    pub fn ids(&self, alloc: Global) -> Result<Vec<TypeId>, AllocError>
        ensures value { IfOk result (λ ids. map place ids.items ≡ live_places (type_slots self.now)) }
        ensures live { IfOk result (λ ids. All (λ id. IsLive (type_slots self.now) (place id)) ids.items) }
    {
        live_ids(alloc, self.places.as_slice())
    }
}
