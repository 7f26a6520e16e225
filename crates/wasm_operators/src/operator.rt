//! Operators with their arguments over indices.
ghost use Rattle.std.specs.Prelude.{◌≡◌};

use std::slice;
use wasm_forms::{RawHeap, RawVal};

/// The type of a block (Binary Format > Instructions > Control Instructions).
#[derive(Clone, Copy, Debug, PartialEq, Eq)]
pub enum RawBlock {
    /// It takes and gives nothing.
    NoResult,
    /// It takes nothing, and gives one value.
    OneResult(RawVal),
    /// The index of a function type.
    OfType(u32),
}

/// An argument of an operator (Binary Format > Instructions). A list is its count and then its entries.
#[derive(Clone, Copy, Debug, PartialEq, Eq)]
pub enum RawArg {
    /// The index of a function.
    Function(u32),
    /// The index of a type.
    Type(u32),
    /// The index of a table.
    Table(u32),
    /// The index of a memory.
    Memory(u32),
    /// The index of a global.
    Global(u32),
    /// The index of a tag.
    Tag(u32),
    /// The index of an element segment.
    Element(u32),
    /// The index of a data segment.
    Data(u32),
    /// The index of a local.
    Local(u32),
    /// How many open blocks stand between.
    Label(u32),
    /// How many entries follow.
    Count(u32),
    /// A number of 32 bits.
    Number(u32),
    /// A byte: a lane, a byte of a vector, the kind of a catch clause.
    Byte(u8),
    /// The constant of `i32.const`.
    S32(i32),
    /// The constant of `i64.const`.
    S64(i64),
    /// The bits of the constant of `f32.const`.
    F32(u32),
    /// The bits of the constant of `f64.const`.
    F64(u64),
    /// A value type.
    Value(RawVal),
    /// A heap type.
    Heap(RawHeap),
    /// The type of a block.
    Block(RawBlock),
    /// An access to memory.
    Access {
        /// The alignment and other flags, without bit 40.
        flags: u32,
        /// The index of the memory.
        memory: u32,
        /// The offset in bytes.
        offset: u64,
    },
}

/// The arguments of an operator, in their order. Contracts see the list.
#[derive(Drop)]
pub enum RawArgs {
    /// No argument.
    None,
    /// One argument.
    One(RawArg),
    /// Any number of arguments.
    Several(Vec<RawArg>),
}

impl RawArgs {
    ghost use Rattle.wasm_operators.specs.Operators.{args_of};

    /// The arguments, one after another.
    pub fn as_slice(&self) -> &[RawArg]
        ensures { result.now ≡ args_of self.now }
    {
        match self {
            RawArgs::None => &[],
            RawArgs::One(arg) => slice::from_ref(arg),
            RawArgs::Several(args) => args.as_slice(),
        }
    }
}

/// An operator with its arguments.
#[derive(Drop)]
pub struct RawOperator {
    /// The byte of the operator, or its prefix byte times 65,536 and its number.
    pub op: u32,
    /// Its arguments.
    pub args: RawArgs,
}
