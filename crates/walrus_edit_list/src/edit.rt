//! What an edit is.

use wasm_entries::{RawData, RawExport, RawGlobal, RawLimits};
use wasm_frames::RawSection;

/// An edit of a module. Where wasm has an index, an edit has an id: that of an item of the input is its index there, and what is added has the next ones.
#[derive(Drop)]
pub enum Edit<'a> {
    /// What a section lists comes, each behind what is there (Binary Format > Modules > Sections).
    Add(RawSection<'a>),
    /// A function of this type with this body comes, behind the others. The body has no size in front (Binary Format > Modules > Code Section).
    AddFunction(u32, &'a [u8]),
    /// Something is written anew.
    Set(Replacement<'a>),
    /// Something goes.
    Delete(Deletion),
    /// The function of this id, one of the module's own, comes to be imported under a module's and its own name.
    BringFunction(u32, &'a str, &'a str),
    /// Something gets a name, or loses it.
    Name(Naming<'a>),
    /// A producer comes: its field, its name and its version (tool-conventions, "Producers Section").
    AddProducer(&'a str, &'a str, &'a str),
    /// All producers go.
    ClearProducers,
    /// These operators come to stand in front of the body of the function of this id.
    Front(u32, &'a [u8]),
}

/// What is written anew: the id of what stands there, and what it is to be.
#[derive(Drop)]
pub enum Replacement<'a> {
    /// The bytes of a custom section.
    Custom(u32, &'a [u8]),
    /// The two names of an import; it brings what it brought.
    Import(u32, &'a str, &'a str),
    /// The name and the item of an export.
    Export(u32, RawExport<'a>),
    /// The body of a function, without its size. One that was imported is the module's own then.
    Function(u32, &'a [u8]),
    /// The type and the initialiser of a global. One that was imported is the module's own then.
    Global(u32, RawGlobal),
    /// The type of a memory.
    Memory(u32, RawLimits),
    /// A segment of data.
    Data(u32, RawData<'a>),
}

/// What goes, by its id.
#[derive(Clone, Copy, Debug, PartialEq, Eq)]
pub enum Deletion {
    /// A custom section.
    Custom(u32),
    /// An export.
    Export(u32),
    /// The start function is none any more.
    Start,
    /// A segment of elements.
    Element(u32),
    /// A segment of data.
    Data(u32),
}

/// What gets a name or loses it, by its id, and the name.
#[derive(Clone, Copy, Debug, PartialEq, Eq)]
pub enum Naming<'a> {
    /// A type.
    Type(u32, Option<&'a str>),
    /// A table.
    Table(u32, Option<&'a str>),
    /// A memory.
    Memory(u32, Option<&'a str>),
    /// A global.
    Global(u32, Option<&'a str>),
    /// A segment of elements.
    Element(u32, Option<&'a str>),
    /// A function.
    Function(u32, Option<&'a str>),
    /// A segment of data.
    Data(u32, Option<&'a str>),
    /// A tag.
    Tag(u32, Option<&'a str>),
    /// The module.
    Module(Option<&'a str>),
}
