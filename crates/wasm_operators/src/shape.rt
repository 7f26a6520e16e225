//! What stands behind operators as a whole (Binary Format > Instructions).

ghost use Rattle.std.specs.Prelude.{◌≡◌, ◌∷◌, [], option_map};
ghost use Rattle.wasm_operators.specs.Table.{listed};
ghost use Rattle.wasm_operators.specs.declared.kind.Kind.TheVariants.{Nothing};
ghost use Rattle.wasm_operators.specs.Shape.{kinds_of_shape};

use crate::kind::Kind;

/// The arguments that an operator has.
#[derive(Clone, Copy)]
pub(crate) enum Shape {
    /// There is no such operator.
    Free,
    /// No argument.
    Bare,
    /// The type of a block.
    Block,
    /// The type of a block, and catch clauses.
    Try,
    /// A tag.
    Tag,
    /// A label.
    Label,
    /// Labels, and a label.
    Labels,
    /// A function.
    Function,
    /// A type.
    Type,
    /// A type and a table.
    TypeTable,
    /// Value types.
    Values,
    /// A local.
    Local,
    /// A global.
    Global,
    /// A table.
    Table,
    /// Two tables.
    Tables,
    /// An element segment.
    Element,
    /// An element segment and a table.
    ElemTable,
    /// An access to memory.
    Access,
    /// An access to memory, and a lane.
    Lane,
    /// A memory.
    Memory,
    /// Two memories.
    Memories,
    /// A data segment.
    Data,
    /// A data segment and a memory.
    DataMemory,
    /// A signed number of 32 bits.
    S32,
    /// A signed number of 64 bits.
    S64,
    /// An f32.
    F32,
    /// An f64.
    F64,
    /// A heap type.
    Heap,
    /// Two types.
    Types,
    /// A type and a number.
    TypeNumber,
    /// A type and a data segment.
    TypeData,
    /// A type and an element segment.
    TypeElem,
    /// Flags, a label, and two heap types.
    Cast,
    /// A byte.
    Byte,
    /// Sixteen bytes.
    Sixteen,
}

impl Shape {
    /// The kinds of the arguments, in their order, and then `Nothing`; none where there is no operator.
    pub(crate) fn kinds(self) -> Option<[Kind; 4]>
        ensures { option_map listed result ≡ kinds_of_shape self }
    {
        let kinds = match self {
            Shape::Free => return None,
            Shape::Bare => one(Kind::Nothing),
            Shape::Block => one(Kind::Block),
            Shape::Try => two(Kind::Block, Kind::Catches),
            Shape::Tag => one(Kind::Tag),
            Shape::Label => one(Kind::Label),
            Shape::Labels => two(Kind::Labels, Kind::Label),
            Shape::Function => one(Kind::Function),
            Shape::Type => one(Kind::Type),
            Shape::TypeTable => two(Kind::Type, Kind::Table),
            Shape::Values => one(Kind::Values),
            Shape::Local => one(Kind::Local),
            Shape::Global => one(Kind::Global),
            Shape::Table => one(Kind::Table),
            Shape::Tables => two(Kind::Table, Kind::Table),
            Shape::Element => one(Kind::Element),
            Shape::ElemTable => two(Kind::Element, Kind::Table),
            Shape::Access => one(Kind::Access),
            Shape::Lane => two(Kind::Access, Kind::Byte),
            Shape::Memory => one(Kind::Memory),
            Shape::Memories => two(Kind::Memory, Kind::Memory),
            Shape::Data => one(Kind::Data),
            Shape::DataMemory => two(Kind::Data, Kind::Memory),
            Shape::S32 => one(Kind::S32),
            Shape::S64 => one(Kind::S64),
            Shape::F32 => one(Kind::F32),
            Shape::F64 => one(Kind::F64),
            Shape::Heap => one(Kind::Heap),
            Shape::Types => two(Kind::Type, Kind::Type),
            Shape::TypeNumber => two(Kind::Type, Kind::Number),
            Shape::TypeData => two(Kind::Type, Kind::Data),
            Shape::TypeElem => two(Kind::Type, Kind::Element),
            Shape::Cast => [Kind::Byte, Kind::Label, Kind::Heap, Kind::Heap],
            Shape::Byte => one(Kind::Byte),
            Shape::Sixteen => one(Kind::SixteenBytes),
        };
        Some(kinds)
    }
}

/// One kind.
#[inline]
fn one(kind: Kind) -> [Kind; 4]
    ensures { result ≡ kind ∷ Nothing ∷ Nothing ∷ Nothing ∷ [] }
{
    [kind, Kind::Nothing, Kind::Nothing, Kind::Nothing]
}

/// Two kinds.
#[inline]
fn two(first: Kind, second: Kind) -> [Kind; 4]
    ensures { result ≡ first ∷ second ∷ Nothing ∷ Nothing ∷ [] }
{
    [first, second, Kind::Nothing, Kind::Nothing]
}
