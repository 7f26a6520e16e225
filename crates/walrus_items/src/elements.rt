//! The element segments of a module ("Structure > Modules > Element Segments").
ghost use Rattle.std.specs.Prelude.{◌≡◌, [], Some, None, IsTrue, ◌↔◌, IsOkUnless, count_by, is_some, slice_set, OnOk, length};
ghost use Rattle.std.specs.Borrow.{sem};
ghost use Rattle.std.specs.Iterator.{YieldsFirstBy, item_count};
ghost use Rattle.walrus_base.specs.Id.{place};
ghost use Rattle.walrus_base.specs.Arena.{HasRoom, item_at, IsLive, items, entries, kept_by};
ghost use Rattle.walrus_items.specs.Errors.{out_of_memory};
ghost use Rattle.walrus_items.specs.Added.{IsAdded};

use crate::error::Result;
use crate::items::{Fresh, Item, ItemEntries, ItemIter, Items, Marked};
use crate::segments::{ElementItems, ElementKind};
use walrus_base::{ElementId, ElementKey};

/// An element segment of a module.
#[derive(Drop)]
pub struct Element {
    id: ElementId,
    /// How the segment is used.
    pub kind: ElementKind,
    /// What it holds.
    pub items: ElementItems,
    /// The name that the name section gives it.
    pub name: Option<String>,
}

impl Element {
    ghost use Rattle.walrus_items.specs.Elements.{element_value};

    /// The id under which the segment was added.
    pub fn id(&self) -> ElementId
        ensures { place result ≡ (element_value self.now).id }
    {
        self.id
    }
}

impl Item for Element {
    ghost use Rattle.walrus_items.specs.Elements.{ElementValue, element_value};

    ghost Seen = { ElementValue };

    ghost value = { element_value };
}

impl Marked for Element {}

impl Fresh for Element {}

/// The element segments of a module, by their ids. Deleted ids are never used again.
pub type ModuleElements = Items<ElementKey, Element>;

impl Items<ElementKey, Element> {
    ghost use Rattle.walrus_items.specs.Elements.{ElementValue, element_value, elements};

    /// Adds a segment of this kind with these items, without a name. No table's set changes. `Memory` is the only error; then
    /// nothing changes.
    pub fn add(&mut self, kind: ElementKind, items: ElementItems) -> Result<ElementId>
        ensures { IsAdded result (elements self.old) (elements self.new) (λ own. record {
          id = own;
          kind = kind;
          items = items;
          name = None;
        }) }
    {
        let id = self.arena.next_id();
        Ok(
            self.arena.alloc(Element {
                id,
                kind,
                items,
                name: None,
            })?,
        )
    }
}

/// The element segments of a module, by rising id.
pub type ElementIter<'a> = ItemIter<'a, ElementKey, Element>;

/// The element segments of a module with their ids, by rising id.
pub type ElementEntries<'a> = ItemEntries<'a, ElementKey, Element>;
