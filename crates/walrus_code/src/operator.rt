//! Operators and their arguments (Structure > Instructions).
ghost use Rattle.std.specs.Prelude.{◌≡◌, ◌-◌, ◌^◌, map, IfErr, IfOk};

use crate::location::InstrLocId;
use std::alloc::{AllocError, Global};
use std::slice;
use walrus_base::{
    DataId, ElementId, FunctionId, GlobalId, HeapType, LocalId, MemoryId, TableId, TagId, TypeId,
    ValType,
};
use wasm_opcodes::one_byte;

/// The type of a block (Structure > Instructions > Control Instructions).
#[derive(Clone, Copy, Debug, PartialEq, Eq)]
pub enum BlockType {
    /// It takes and gives nothing.
    NoResult,
    /// It takes nothing, and gives one value.
    OneResult(ValType),
    /// A function type.
    OfType(TypeId),
}

/// An argument of an operator, by how the binary format spells it. A list is its count and then its entries.
#[derive(Clone, Copy, Debug, PartialEq, Eq)]
pub enum Arg {
    /// A function.
    Function(FunctionId),
    /// A type.
    Type(TypeId),
    /// A table.
    Table(TableId),
    /// A memory.
    Memory(MemoryId),
    /// A global.
    Global(GlobalId),
    /// A tag.
    Tag(TagId),
    /// An element segment.
    Element(ElementId),
    /// A data segment.
    Data(DataId),
    /// A local of the function.
    Local(LocalId),
    /// How many open blocks stand between.
    Label(u32),
    /// How many entries follow.
    Count(u32),
    /// A number of 32 bits.
    Number(u32),
    /// A byte: a lane, a byte of a vector, the kind of a catch clause.
    Byte(u8),
    /// The constant of `i32.const`.
    S32(i32),
    /// The constant of `i64.const`.
    S64(i64),
    /// The bits of the constant of `f32.const`.
    F32(u32),
    /// The bits of the constant of `f64.const`.
    F64(u64),
    /// A value type.
    Value(ValType),
    /// A heap type.
    Heap(HeapType),
    /// The type of a block.
    Block(BlockType),
    /// An access to memory.
    Access {
        /// The alignment and other flags, without the bit that says that a memory is named.
        flags: u32,
        /// The memory.
        memory: MemoryId,
        /// The offset in bytes.
        offset: u64,
    },
}

/// The arguments of an operator, in their order. Contracts see the list.
#[derive(Drop)]
pub enum Args {
    /// No argument.
    None,
    /// One argument.
    One(Arg),
    /// Any number of arguments.
    Several(Vec<Arg>),
}

impl Args {
    ghost use Rattle.walrus_code.specs.Code.{arg_of, args_of, IsOne};

    /// The arguments that stand in a vector. Takes no memory.
    pub fn from_vec(items: Vec<Arg>) -> Args
        ensures { args_of result ≡ map arg_of items.items }
    {
        Args::Several(items)
    }

    /// The arguments as a vector. Takes memory only for one that stands alone, and is refused only there.
    pub fn into_vec(self, alloc: Global) -> Result<Vec<Arg>, AllocError>
        ensures items { IfOk result (λ items. map arg_of items.items ≡ args_of self) }
        ensures refused { IfErr result (λ _. IsOne self) }
    {
        match self {
            Args::None => Ok(Vec::new(alloc)),
            Args::One(arg) => {
                let mut items = Vec::new(alloc);
                items.push(arg)?;
                Ok(items)
            }
            Args::Several(args) => Ok(args),
        }
    }

    /// The arguments, one after another.
    pub fn as_slice(&self) -> &[Arg]
        ensures { map arg_of result.now ≡ args_of self.now }
    {
        match self {
            Args::None => &[],
            Args::One(arg) => slice::from_ref(arg),
            Args::Several(args) => args.as_slice(),
        }
    }
}

/// An operator with its arguments.
#[derive(Drop)]
pub struct Operator {
    /// The byte of the operator, or its prefix byte times 65,536 and its number.
    pub op: u32,
    /// Where it stood in the input.
    pub loc: InstrLocId,
    /// Its arguments.
    pub args: Args,
}

impl Operator {
    ghost use Rattle.walrus_code.specs.Location.{location};

    /// The operator `end`, which closes a block or a function.
    pub const END: u32 = one_byte::END;

    /// An operator that came from nowhere: its location is the default.
    pub fn new(op: u32, args: Args) -> Operator
        ensures op { result.op ≡ op }
        ensures args { result.args ≡ args }
        ensures from_nowhere { location result.loc ≡ 2 ^ 32 - 1 }
    {
        Operator {
            op,
            loc: InstrLocId::DEFAULT,
            args,
        }
    }
}
