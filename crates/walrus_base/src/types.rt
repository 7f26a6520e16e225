//! The types of a module.
ghost use Rattle.std.specs.Prelude.{◌≡◌, ◌∷◌, [], IsTrue, ◌↔◌, map, None};
ghost use Rattle.walrus_base.specs.Id.{place};

use crate::composite::{CompositeType, FunctionType, NewType};
use crate::keys::TypeId;
use crate::value::ValType;

/// A type of a module, as a member of its group (Structure > Types > Recursive Types).
#[derive(Drop)]
pub struct Type {
    id: TypeId,
    // The places of its group: from `first` up to `end`.
    pub(crate) first: usize,
    pub(crate) end: usize,
    is_final: bool,
    supertype: Option<TypeId>,
    comp: CompositeType,
    /// The name that the name section gives it.
    pub name: Option<String>,
}

impl Type {
    ghost use Rattle.walrus_base.specs.TypeDef.{type_place, type_def, type_name, places_between, IsFunction, type_params, type_results};
    ghost use Rattle.walrus_base.specs.Composite.{comp_type, supertypes, new_sub};
    ghost use Rattle.walrus_base.specs.Value.{val_type};
    ghost use Rattle.walrus_base.specs.Function.{AsFunction, AsAlone};

    // The type under an id with these parts, whose group has the places from the first on, up to the end.
    pub(crate) fn new(id: TypeId, first: usize, end: usize, member: NewType) -> Type
        ensures def { type_def result ≡ record { group = places_between first end; sub = new_sub member } }
        ensures own { type_place result ≡ place id }
        ensures unnamed { type_name result ≡ None }
    {
        Type {
            id,
            first,
            end,
            is_final: member.is_final,
            supertype: member.supertype,
            comp: member.comp,
            name: None,
        }
    }

    // Whether the type is the only one of its group.
    fn is_alone(&self) -> bool
        ensures { IsTrue result ↔ ((type_def self.now).group ≡ type_place self.now ∷ []) }
    {
        if self.first != self.id.index() {
            return false;
        }
        if self.first >= self.end {
            return false;
        }
        self.end - self.first == 1
    }

    // The function type of a final type without supertype that is alone in its group.
    pub(crate) fn alone_function(&self) -> Option<&FunctionType>
        ensures { AsAlone result (type_def self.now) (type_place self.now) }
    {
        if self.is_alone() && self.is_final && self.supertype.is_none() {
            self.as_function()
        } else {
            None
        }
    }

    /// The id of the type.
    pub fn id(&self) -> TypeId
        ensures { place result ≡ type_place self.now }
    {
        self.id
    }

    /// Whether no other type may be a subtype of it.
    pub fn is_final(&self) -> bool
        ensures { result ≡ (type_def self.now).sub.is_final }
    {
        self.is_final
    }

    /// The type that it is a subtype of.
    pub fn supertype(&self) -> Option<TypeId>
        ensures { supertypes result ≡ (type_def self.now).sub.supertypes }
    {
        self.supertype
    }

    /// What it is a type of.
    pub fn comp(&self) -> &CompositeType
        ensures { comp_type result.now ≡ (type_def self.now).sub.comp }
    {
        &self.comp
    }

    /// The function type that it is, if it is one.
    pub fn as_function(&self) -> Option<&FunctionType>
        ensures { AsFunction result (type_def self.now).sub.comp }
    {
        match &self.comp {
            CompositeType::Function(function) => Some(function),
            CompositeType::Struct(_) => None,
            CompositeType::Array(_) => None,
        }
    }

    /// Whether it is the type of a function.
    pub fn is_function(&self) -> bool
        ensures { IsTrue result ↔ IsFunction (type_def self.now).sub.comp }
    {
        matches!(&self.comp, CompositeType::Function(_))
    }

    /// What a function of this type takes.
    pub fn params(&self) -> &[ValType]
        requires { IsFunction (type_def self.now).sub.comp }
        ensures { map val_type result.now ≡ type_params (type_def self.now).sub.comp }
    {
        match &self.comp {
            CompositeType::Function(function) => function.params(),
            CompositeType::Struct(_) => unreachable!(),
            CompositeType::Array(_) => unreachable!(),
        }
    }

    /// What a function of this type gives back.
    pub fn results(&self) -> &[ValType]
        requires { IsFunction (type_def self.now).sub.comp }
        ensures { map val_type result.now ≡ type_results (type_def self.now).sub.comp }
    {
        match &self.comp {
            CompositeType::Function(function) => function.results(),
            CompositeType::Struct(_) => unreachable!(),
            CompositeType::Array(_) => unreachable!(),
        }
    }
}
