//! The parts of a module.
ghost use Rattle.std.specs.Prelude.{◌↔◌, ◌≡◌, IfOk, IsOkUnless, IsTrue};
ghost use Rattle.walrus_items.specs.Errors.{out_of_memory};
ghost use Rattle.walrus_code.specs.Code.{item_of};
ghost use Rattle.walrus_model.specs.Live.{IsLive};
ghost use Rattle.walrus_contents.specs.View.{HoldsNothing, contents_view, parts_view};

use std::alloc::Global;
use walrus_base::{FunctionId, ModuleLocals, ModuleTypes};
use walrus_code::ItemId;
use walrus_items::{
    ModuleData, ModuleElements, ModuleExports, ModuleFunctions, ModuleGlobals, ModuleImports,
    ModuleMemories, ModuleTables, ModuleTags, Result,
};
use walrus_producers::ModuleProducers;

/// The collections in which a module keeps its items, and what these are made of.
#[derive(Clone, Copy)]
pub struct Parts<'a> {
    /// The types.
    pub types: &'a ModuleTypes,
    /// The locals of all local functions.
    pub locals: &'a ModuleLocals,
    /// The imports.
    pub imports: &'a ModuleImports,
    /// The functions.
    pub funcs: &'a ModuleFunctions,
    /// The tables.
    pub tables: &'a ModuleTables,
    /// The memories.
    pub memories: &'a ModuleMemories,
    /// The tags.
    pub tags: &'a ModuleTags,
    /// The globals.
    pub globals: &'a ModuleGlobals,
    /// The element segments.
    pub elements: &'a ModuleElements,
    /// The data segments.
    pub data_: &'a ModuleData,
    /// The exports.
    pub exports: &'a ModuleExports,
    /// The start function, if there is one.
    pub start: Option<FunctionId>,
    /// The producers.
    pub producers: &'a ModuleProducers,
    /// The module's name, if it has one (Appendix > Custom Sections > Name Section).
    pub name: &'a Option<String>,
}

/// The same, owned: what a module that was read holds.
#[derive(Drop)]
pub struct Contents {
    /// The types.
    pub types: ModuleTypes,
    /// The locals of all local functions.
    pub locals: ModuleLocals,
    /// The imports.
    pub imports: ModuleImports,
    /// The functions.
    pub funcs: ModuleFunctions,
    /// The tables.
    pub tables: ModuleTables,
    /// The memories.
    pub memories: ModuleMemories,
    /// The tags.
    pub tags: ModuleTags,
    /// The globals.
    pub globals: ModuleGlobals,
    /// The element segments.
    pub elements: ModuleElements,
    /// The data segments.
    pub data_: ModuleData,
    /// The exports.
    pub exports: ModuleExports,
    /// The start function, if there is one.
    pub start: Option<FunctionId>,
    /// The producers.
    pub producers: ModuleProducers,
    /// The module's name, if it has one (Appendix > Custom Sections > Name Section).
    pub name: Option<String>,
}

impl Contents {
    /// Nothing yet. Want of memory is the only refusal.
    pub fn new(alloc: Global) -> Result<Contents>
        ensures empty { IfOk result HoldsNothing }
        ensures fails { IsOkUnless result out_of_memory }
    {
        Ok(Contents {
            types: ModuleTypes::new(alloc),
            locals: ModuleLocals::new(alloc),
            imports: ModuleImports::new(alloc),
            funcs: ModuleFunctions::new(alloc)?,
            tables: ModuleTables::new(alloc),
            memories: ModuleMemories::new(alloc),
            tags: ModuleTags::new(alloc)?,
            globals: ModuleGlobals::new(alloc),
            elements: ModuleElements::new(alloc),
            data_: ModuleData::new(alloc),
            exports: ModuleExports::new(alloc),
            start: None,
            producers: ModuleProducers::new(alloc),
            name: None,
        })
    }

    /// All of it, lent.
    pub fn parts(&self) -> Parts<'_>
        ensures { parts_view result ≡ contents_view self.now }
    {
        Parts {
            types: &self.types,
            locals: &self.locals,
            imports: &self.imports,
            funcs: &self.funcs,
            tables: &self.tables,
            memories: &self.memories,
            tags: &self.tags,
            globals: &self.globals,
            elements: &self.elements,
            data_: &self.data_,
            exports: &self.exports,
            start: self.start,
            producers: &self.producers,
            name: &self.name,
        }
    }
}

/// Whether the item is there.
pub fn is_live(parts: Parts<'_>, item: ItemId) -> bool
    ensures { IsTrue result ↔ IsLive (parts_view parts.entry) (item_of item) }
{
    match item {
        ItemId::Type(id) => parts.types.contains(id),
        ItemId::Function(id) => parts.funcs.contains(id),
        ItemId::Table(id) => parts.tables.contains(id),
        ItemId::Memory(id) => parts.memories.contains(id),
        ItemId::Tag(id) => parts.tags.contains(id),
        ItemId::Global(id) => parts.globals.contains(id),
        ItemId::Data(id) => parts.data_.contains(id),
        ItemId::Element(id) => parts.elements.contains(id),
    }
}
