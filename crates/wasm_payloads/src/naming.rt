//! What the name section says (Appendix > Custom Sections > Name Section).

/// What an index counts.
#[derive(Clone, Copy, Debug, PartialEq, Eq)]
pub enum NameSpace {
    Functions,
    Types,
    Tables,
    Memories,
    Globals,
    Elements,
    DataSegments,
    Tags,
}

/// A name, and what it names.
#[derive(Clone, Copy, Debug)]
pub enum Naming<'a> {
    /// The module's name.
    Module(&'a str),
    /// An index, and the name of its item.
    Item(NameSpace, u32, &'a str),
    /// A function's index, a local's index, and the name of this local.
    Local(u32, u32, &'a str),
}

/// What a subsection names.
#[derive(Clone, Copy)]
pub(crate) enum Part {
    Module,
    Locals,
    Items(NameSpace),
    Other,
}

/// Whose names a name map has: items, or the locals of a function.
#[derive(Clone, Copy)]
pub(crate) enum Owner {
    Items(NameSpace),
    Function(u32),
}
