//! Marks of the items of a module, by kind.

ghost use Rattle.std.specs.Prelude.{◌≡◌, IfOk, not};
ghost use Rattle.walrus_code.specs.Code.{item_of};
ghost use Rattle.walrus_contents.specs.View.{parts_view};
ghost use Rattle.walrus.specs.MarkedItems.{AddsMark, AreUnmarked, HasPlace, HavePlaces, has_mark};

use std::alloc::{AllocError, Global};
use walrus_base::Marks;
use walrus_contents::Parts;
use walrus_module::{
    DataKey, ElementKey, FunctionKey, GlobalKey, ItemId, MemoryKey, TableKey, TagKey, TypeKey,
};

/// Marks of the items of a module, by kind, made at once for all of them.
#[derive(Drop)]
pub struct MarkedItems {
    pub(crate) types: Marks<TypeKey>,
    pub(crate) funcs: Marks<FunctionKey>,
    pub(crate) tables: Marks<TableKey>,
    pub(crate) memories: Marks<MemoryKey>,
    pub(crate) tags: Marks<TagKey>,
    pub(crate) globals: Marks<GlobalKey>,
    pub(crate) elements: Marks<ElementKey>,
    pub(crate) data_: Marks<DataKey>,
}

impl MarkedItems {
    /// No marks, with a place for each live item.
    pub(crate) fn none(alloc: Global, parts: Parts<'_>) -> Result<MarkedItems, AllocError>
        ensures unmarked { IfOk result AreUnmarked }
        ensures places { IfOk result (HavePlaces (parts_view parts.entry)) }
    {
        Ok(MarkedItems {
            types: Marks::new(alloc, parts.types.next_id().index())?,
            funcs: Marks::new(alloc, parts.funcs.next_id().index())?,
            tables: Marks::new(alloc, parts.tables.next_id().index())?,
            memories: Marks::new(alloc, parts.memories.next_id().index())?,
            tags: Marks::new(alloc, parts.tags.next_id().index())?,
            globals: Marks::new(alloc, parts.globals.next_id().index())?,
            elements: Marks::new(alloc, parts.elements.next_id().index())?,
            data_: Marks::new(alloc, parts.data_.next_id().index())?,
        })
    }

    /// Marks an item, and answers whether it wasn't marked.
    pub(crate) fn mark(&mut self, item: ItemId) -> bool
        requires { HasPlace self.old (item_of item) }
        ensures is_new { result ≡ not (has_mark self.old (item_of item)) }
        ensures marks { AddsMark self.old self.new (item_of item) }
    {
        match item {
            ItemId::Type(id) => self.types.mark(id),
            ItemId::Function(id) => self.funcs.mark(id),
            ItemId::Table(id) => self.tables.mark(id),
            ItemId::Memory(id) => self.memories.mark(id),
            ItemId::Tag(id) => self.tags.mark(id),
            ItemId::Global(id) => self.globals.mark(id),
            ItemId::Element(id) => self.elements.mark(id),
            ItemId::Data(id) => self.data_.mark(id),
        }
    }

    /// Whether an item is marked.
    pub(crate) fn is_marked(&self, item: ItemId) -> bool
        ensures { result ≡ has_mark self.now (item_of item) }
    {
        match item {
            ItemId::Type(id) => self.types.is_marked(id),
            ItemId::Function(id) => self.funcs.is_marked(id),
            ItemId::Table(id) => self.tables.is_marked(id),
            ItemId::Memory(id) => self.memories.is_marked(id),
            ItemId::Tag(id) => self.tags.is_marked(id),
            ItemId::Global(id) => self.globals.is_marked(id),
            ItemId::Element(id) => self.elements.is_marked(id),
            ItemId::Data(id) => self.data_.is_marked(id),
        }
    }
}
