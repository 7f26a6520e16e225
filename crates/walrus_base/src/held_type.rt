//! The type of a local, as it is held.
ghost use Rattle.std.specs.Prelude.{◌≡◌};
ghost use Rattle.walrus_base.specs.HeldCase.{held_value};
ghost use Rattle.walrus_base.specs.declared.value.ValType.TheVariants.{Ref};

use crate::keys::TypeId;
use crate::value::{AbstractHeapType, HeapType, RefType, ValType};
use std::marker::Model;

// The cases of a value type, those of references among them, so that one tag tells them apart.
#[derive(Clone, Copy)]
enum HeldCase {
    I32,
    I64,
    F32,
    F64,
    V128,
    // References, each with whether null is among them.
    Abstract(bool, AbstractHeapType),
    Concrete(bool, TypeId),
    Exact(bool, TypeId),
}

/// A value type in twelve bytes, where `ValType` takes twenty.
#[derive(Drop)]
pub(crate) struct HeldType {
    case: HeldCase,
}

impl Model for HeldType {
    ghost use Rattle.walrus_base.specs.declared.value.ValType.{ValType};

    ghost Value = { ValType };

    ghost use Rattle.walrus_base.specs.HeldCase.{held_value};

    ghost view = { λ held. held_value held.case };
}

// The case of a reference type.
fn reference_case(reference: RefType) -> HeldCase
    ensures { held_value result ≡ Ref reference }
{
    match reference.heap_type {
        HeapType::Abstract(heap) => HeldCase::Abstract(reference.nullable, heap),
        HeapType::Concrete(id) => HeldCase::Concrete(reference.nullable, id),
        HeapType::Exact(id) => HeldCase::Exact(reference.nullable, id),
    }
}

// The type of the references to a heap type.
fn reference(nullable: bool, heap_type: HeapType) -> ValType
    ensures { result ≡ Ref (record { nullable = nullable; heap_type = heap_type }) }
{
    ValType::Ref(RefType {
        nullable,
        heap_type,
    })
}

impl HeldType {
    /// This value type, as it is held.
    pub(crate) fn of(ty: ValType) -> HeldType
        ensures { result ≡ ty }
    {
        let case = match ty {
            ValType::I32 => HeldCase::I32,
            ValType::I64 => HeldCase::I64,
            ValType::F32 => HeldCase::F32,
            ValType::F64 => HeldCase::F64,
            ValType::V128 => HeldCase::V128,
            ValType::Ref(reference) => reference_case(reference),
        };
        HeldType { case }
    }

    /// The value type that is held.
    pub(crate) fn ty(&self) -> ValType
        ensures { result ≡ self.now }
    {
        match self.case {
            HeldCase::I32 => ValType::I32,
            HeldCase::I64 => ValType::I64,
            HeldCase::F32 => ValType::F32,
            HeldCase::F64 => ValType::F64,
            HeldCase::V128 => ValType::V128,
            HeldCase::Abstract(nullable, heap) => reference(nullable, HeapType::Abstract(heap)),
            HeldCase::Concrete(nullable, id) => reference(nullable, HeapType::Concrete(id)),
            HeldCase::Exact(nullable, id) => reference(nullable, HeapType::Exact(id)),
        }
    }
}
