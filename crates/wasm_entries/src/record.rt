//! The entries of a module's sections, as they are read and written. Names and bytes are borrowed from the input.

ghost use Rattle.std.specs.Prelude.{◌≡◌, IfOk};
ghost use Rattle.wasm_entries.specs.Record.{expression};

use std::alloc::{AllocError, Global};
use std::slice;
use wasm_forms::{RawHeap, RawRef, RawVal};

/// What a field of a struct or an array holds (Binary Format > Types > Composite Types, storage types).
#[derive(Clone, Copy, Debug, PartialEq, Eq)]
pub enum RawStorage {
    Val(RawVal),
    I8,
    I16,
}

/// A field of a struct, or the element of an array (Binary Format > Types > Composite Types, field types).
#[derive(Clone, Copy, Debug, PartialEq, Eq)]
pub struct RawFieldType {
    pub storage: RawStorage,
    pub mutable: bool,
}

/// A function type: what a function takes and what it gives (Binary Format > Types > Function Types).
#[derive(Debug, PartialEq, Eq, Drop)]
pub struct RawFuncType {
    pub params: Vec<RawVal>,
    pub results: Vec<RawVal>,
}

/// A composite type (Binary Format > Types > Composite Types).
#[derive(Debug, PartialEq, Eq, Drop)]
pub enum RawComp {
    Func(RawFuncType),
    Struct(Vec<RawFieldType>),
    Array(RawFieldType),
}

/// A subtype with its supertypes, of which the standard allows one (Binary Format > Types > Recursive Types).
#[derive(Debug, PartialEq, Eq, Drop)]
pub struct RawSub {
    pub is_final: bool,
    pub supers: Vec<u32>,
    pub comp: RawComp,
}

/// Types that may name one another (Binary Format > Types > Recursive Types).
pub type RawGroup = Vec<RawSub>;

/// The size of a table or of a memory, in elements or pages (Binary Format > Types > Limits). `wide` says that addresses have
/// 64 bits, `page` is the exponent of a custom page size.
#[derive(Clone, Copy, Debug, PartialEq, Eq)]
pub struct RawLimits {
    pub minimum: u64,
    pub maximum: Option<u64>,
    pub shared: bool,
    pub wide: bool,
    pub page: Option<u32>,
}

/// A table type (Binary Format > Types > Table Types).
#[derive(Clone, Copy, Debug, PartialEq, Eq)]
pub struct RawTableType {
    pub element: RawRef,
    pub limits: RawLimits,
}

/// A global type (Binary Format > Types > Global Types).
#[derive(Clone, Copy, Debug, PartialEq, Eq)]
pub struct RawGlobalType {
    pub value: RawVal,
    pub mutable: bool,
    pub shared: bool,
}

/// What an import brings (Binary Format > Modules > Import Section); functions and tags by the index of their type.
#[derive(Clone, Copy, Debug, PartialEq, Eq)]
pub enum RawDesc {
    Function(u32),
    Table(RawTableType),
    Memory(RawLimits),
    Global(RawGlobalType),
    Tag(u32),
}

// The same in 16 bytes: what has more stands in a block of its own.
#[derive(Debug, PartialEq, Eq, Drop)]
enum HeldDesc {
    Function(u32),
    Table(Box<RawTableType>),
    Memory(Box<RawLimits>),
    Global(Box<RawGlobalType>),
    Tag(u32),
}

impl HeldDesc {
    ghost use Rattle.wasm_entries.specs.Record.{held_desc};

    fn of(alloc: Global, desc: RawDesc) -> Result<HeldDesc, AllocError>
        ensures { IfOk result (λ held. held_desc held ≡ desc) }
    {
        match desc {
            RawDesc::Function(ty) => Ok(HeldDesc::Function(ty)),
            RawDesc::Table(ty) => Ok(HeldDesc::Table(Box::new(alloc, ty)?)),
            RawDesc::Memory(limits) => Ok(HeldDesc::Memory(Box::new(alloc, limits)?)),
            RawDesc::Global(ty) => Ok(HeldDesc::Global(Box::new(alloc, ty)?)),
            RawDesc::Tag(ty) => Ok(HeldDesc::Tag(ty)),
        }
    }

    fn desc(&self) -> RawDesc
        ensures { result ≡ held_desc self.now }
    {
        match self {
            HeldDesc::Function(ty) => RawDesc::Function(*ty),
            HeldDesc::Table(ty) => RawDesc::Table(**ty),
            HeldDesc::Memory(limits) => RawDesc::Memory(**limits),
            HeldDesc::Global(ty) => RawDesc::Global(**ty),
            HeldDesc::Tag(ty) => RawDesc::Tag(*ty),
        }
    }
}

/// An import: its two names, and what it brings (Binary Format > Modules > Import Section).
#[derive(Debug, PartialEq, Eq, Drop)]
pub struct RawImport<'a> {
    pub from: &'a str,
    pub name: &'a str,
    held: HeldDesc,
}

impl<'a> RawImport<'a> {
    ghost use Rattle.wasm_entries.specs.Record.{import_entry};

    /// The import of these names that brings this. It takes memory for all but a function and a tag.
    pub fn new(
        alloc: Global,
        from: &'a str,
        name: &'a str,
        desc: RawDesc,
    ) -> Result<RawImport<'a>, AllocError>
        ensures { IfOk result (λ import. import_entry import
            ≡ record { from = from.now; name = name.now; desc = desc }) }
    {
        let held = HeldDesc::of(alloc, desc)?;
        Ok(RawImport { from, name, held })
    }

    /// What it brings.
    pub fn desc(&self) -> RawDesc
        ensures { result ≡ (import_entry self.now).desc }
    {
        self.held.desc()
    }
}

/// An instruction of a constant expression (Binary Format > Instructions > Expressions). Floats are given by their bits.
#[derive(Clone, Copy, Debug, PartialEq, Eq)]
pub enum RawConst {
    GlobalGet(u32),
    I32Const(i32),
    I64Const(i64),
    F32Const(u32),
    F64Const(u64),
    V128Const([u8; 16]),
    I32Add,
    I32Sub,
    I32Mul,
    I64Add,
    I64Sub,
    I64Mul,
    RefNull(RawHeap),
    RefFunc(u32),
    StructNew(u32),
    StructNewDefault(u32),
    ArrayNew(u32),
    ArrayNewDefault(u32),
    ArrayNewFixed(u32, u32),
    AnyConvertExtern,
    ExternConvertAny,
    RefI31,
}

/// A constant expression (Binary Format > Instructions > Expressions). `Single` takes no memory; a list of one operator means the same.
#[derive(Debug, PartialEq, Eq, Drop)]
pub enum RawExpression {
    Single(RawConst),
    Listed(Vec<RawConst>),
}

impl RawExpression {
    /// Its operators, in order.
    pub fn operators(&self) -> &[RawConst]
        ensures { result.now ≡ expression self.now }
    {
        match self {
            RawExpression::Single(operator) => slice::from_ref(operator),
            RawExpression::Listed(operators) => operators.as_slice(),
        }
    }
}

/// A table of the module, with its initialiser where it has one (Binary Format > Modules > Table Section).
#[derive(Debug, PartialEq, Eq, Drop)]
pub struct RawTable {
    pub ty: RawTableType,
    pub initial: Option<Box<RawExpression>>,
}

/// A global of the module (Binary Format > Modules > Global Section).
#[derive(Debug, PartialEq, Eq, Drop)]
pub struct RawGlobal {
    pub ty: RawGlobalType,
    pub initial: RawExpression,
}

/// What kind of item an export names (Binary Format > Modules > Export Section).
#[derive(Clone, Copy, Debug, PartialEq, Eq)]
pub enum RawExportKind {
    Function,
    Table,
    Memory,
    Global,
    Tag,
}

/// An export: its name, and the kind and the index of what it names (Binary Format > Modules > Export Section).
#[derive(Clone, Copy, Debug, PartialEq, Eq)]
pub struct RawExport<'a> {
    pub name: &'a str,
    pub kind: RawExportKind,
    pub index: u32,
}

/// When a segment of elements is used. An active one holds its table, none standing for table 0 where the spelling names none
/// (Binary Format > Modules > Element Section, flags 0 and 4).
#[derive(Debug, PartialEq, Eq, Drop)]
pub enum RawElementMode {
    Active(Option<u32>, RawExpression),
    Passive,
    Declared,
}

/// What a segment of elements lists.
#[derive(Debug, PartialEq, Eq, Drop)]
pub enum RawItems {
    Functions(Vec<u32>),
    Expressions(RawRef, Vec<RawExpression>),
}

/// A segment of elements (Binary Format > Modules > Element Section).
#[derive(Debug, PartialEq, Eq, Drop)]
pub struct RawElement {
    pub mode: RawElementMode,
    pub items: RawItems,
}

/// When a segment of data is used.
#[derive(Debug, PartialEq, Eq, Drop)]
pub enum RawDataMode {
    Active(u32, Box<RawExpression>),
    Passive,
}

/// A segment of data (Binary Format > Modules > Data Section).
#[derive(Debug, PartialEq, Eq, Drop)]
pub struct RawData<'a> {
    pub mode: RawDataMode,
    pub bytes: &'a [u8],
}
