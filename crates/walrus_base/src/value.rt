//! Value, reference and heap types (Structure > Types).

use crate::keys::TypeId;

/// A heap type that names no other type (Structure > Types > Heap Types).
#[derive(Clone, Copy, Debug, PartialEq, Eq, PartialOrd, Ord, Hash)]
pub enum AbstractHeapType {
    /// Functions.
    Func,
    /// References of the host.
    Extern,
    /// All values of aggregate types and small integers.
    Any,
    /// Values that can be compared.
    Eq,
    /// Small integers.
    I31,
    /// Structs.
    Struct,
    /// Arrays.
    Array,
    /// Exceptions.
    Exn,
    /// No aggregate value.
    None,
    /// No reference of the host.
    NoExtern,
    /// No function.
    NoFunc,
    /// No exception.
    NoExn,
}

/// A heap type (Structure > Types > Heap Types).
#[derive(Clone, Copy, Debug, PartialEq, Eq, PartialOrd, Ord, Hash)]
pub enum HeapType {
    /// One that names no other type.
    Abstract(AbstractHeapType),
    /// Values of a type of the module, or of a subtype of it.
    Concrete(TypeId),
    /// Values of exactly this type. It can stand in a module in memory; no bytes spell it.
    Exact(TypeId),
}

/// A reference type (Structure > Types > Reference Types).
#[derive(Clone, Copy, Debug, PartialEq, Eq, PartialOrd, Ord, Hash)]
pub struct RefType {
    /// Whether null is among its values.
    pub nullable: bool,
    /// What it refers to.
    pub heap_type: HeapType,
}

/// The type of a value (Structure > Types > Value Types).
#[derive(Clone, Copy, Debug, PartialEq, Eq, PartialOrd, Ord, Hash)]
pub enum ValType {
    /// Integers of 32 bits.
    I32,
    /// Integers of 64 bits.
    I64,
    /// Floating-point numbers of 32 bits.
    F32,
    /// Floating-point numbers of 64 bits.
    F64,
    /// Vectors of 128 bits.
    V128,
    /// References.
    Ref(RefType),
}
