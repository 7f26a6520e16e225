//! The kinds of arguments that stand behind an operator (Binary Format > Instructions).

ghost use Rattle.std.specs.Prelude.{◌≡◌};
ghost use Rattle.wasm_operators.specs.Pushing as pushing;
ghost use Rattle.wasm_operators.specs.Table as table;

/// What stands behind the number of an operator.
#[derive(Clone, Copy, Debug, PartialEq, Eq)]
pub enum Kind {
    /// Nothing: where an operator has fewer arguments than a row of the table holds.
    Nothing,
    /// The type of a block: 40, a value type, or the index of a type.
    Block,
    /// A count, and that many clauses of a `try_table`.
    Catches,
    /// A count, and that many labels.
    Labels,
    /// A label: how many open blocks stand between.
    Label,
    /// A count, and that many value types.
    Values,
    /// The index of a function.
    Function,
    /// The index of a type.
    Type,
    /// The index of a table.
    Table,
    /// The index of a memory.
    Memory,
    /// The index of a global.
    Global,
    /// The index of a tag.
    Tag,
    /// The index of an element segment.
    Element,
    /// The index of a data segment.
    Data,
    /// The index of a local.
    Local,
    /// An access to memory: flags, a memory where bit 40 of the flags is set, and an offset.
    Access,
    /// A heap type.
    Heap,
    /// A number of 32 bits.
    Number,
    /// A byte.
    Byte,
    /// Sixteen bytes.
    SixteenBytes,
    /// A signed number of 32 bits.
    S32,
    /// A signed number of 64 bits.
    S64,
    /// The four bytes of an f32.
    F32,
    /// The eight bytes of an f64.
    F64,
}

impl Kind {
    /// Whether it is one argument and never a list.
    #[inline]
    pub(crate) fn is_one(self) -> bool
        ensures { result ≡ pushing.is_one self }
    {
        !matches!(
            self,
            Kind::Nothing | Kind::Catches | Kind::Labels | Kind::Values | Kind::SixteenBytes
        )
    }

    /// Whether it is a number of 32 bits.
    #[inline]
    pub(crate) fn is_number(self) -> bool
        ensures { result ≡ pushing.is_number self }
    {
        matches!(
            self,
            Kind::Function
                | Kind::Type
                | Kind::Table
                | Kind::Memory
                | Kind::Global
                | Kind::Tag
                | Kind::Element
                | Kind::Data
                | Kind::Local
                | Kind::Label
                | Kind::Number
        )
    }

    /// Whether it is an argument.
    #[inline]
    pub(crate) fn is_argument(self) -> bool
        ensures { result ≡ table.is_argument self }
    {
        !matches!(self, Kind::Nothing)
    }
}
