//! The items of a module, and the collections that hold them by their ids ("Structure > Modules").
//! And what every part of a module is built with: errors, roots, the places of written code, and custom sections.
//!
//! Read first: `src/items.rt` (the calls that all collections have) and `specs/Held.antt` (what a collection holds, as plain values).
//! Main clause: `get` of `src/items.rt` promises `held`: a live id gives the item that the collection holds at the place of that id.
#![tactic(auto)]

mod custom;
mod data;
mod elements;
pub mod equal_imports;
mod equality;
mod error;
mod exports;
mod function_kind;
mod functions;
mod globals;
mod imports;
mod items;
mod kinds;
mod marks;
mod memories;
mod raw_section;
mod roots;
mod segments;
mod sets;
mod tables;
mod tags;
mod transform;

pub use custom::CustomSection;
pub use data::{Data, DataEntries, DataIter, ModuleData};
pub use elements::{Element, ElementEntries, ElementIter, ModuleElements};
pub use equality::{
    items_are_told_apart, kinds_are_equal_as_items, raw_sections_are_equal_by_parts,
    section_ids_are_equal_by_place,
};
pub use error::{Error, ErrorKind, Result};
pub use exports::{Export, ExportEntries, ExportIter, ModuleExports};
pub use function_kind::{FunctionKind, ImportedFunction};
pub use functions::{
    FuncParams, FuncResults, Function, FunctionEntries, FunctionIter, LocalFunctionIter,
    ModuleFunctions,
};
pub use globals::{Global, GlobalEntries, GlobalIter, ModuleGlobals};
pub use imports::{Import, ImportEntries, ImportIter, ModuleImports};
pub use items::{Fresh, Item, ItemEntries, ItemIter, Items, Marked};
pub use kinds::{ExportItem, GlobalKind, ImportKind, TagKind};
pub use marks::ItemMarks;
pub use memories::{Memory, MemoryEntries, MemoryIter, ModuleMemories};
pub use raw_section::RawCustomSection;
pub use roots::Roots;
pub use segments::{DataKind, ElementItems, ElementKind};
pub use tables::{ModuleTables, Table, TableEntries, TableIter};
pub use tags::{ModuleTags, Tag, TagEntries, TagIter};
pub use transform::CodeTransform;
