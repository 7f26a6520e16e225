//! Marks of the items that stay, by kind.
ghost use Rattle.std.specs.Prelude.{◌≡◌};
ghost use Rattle.walrus_items.specs.Kinds.{imported};
ghost use Rattle.walrus_items.specs.Marks.{has_item};

use crate::kinds::ImportKind;
use walrus_base::{FunctionKey, GlobalKey, Marks, MemoryKey, TableKey, TagKey};

/// The items that stay of those that an import can bring, by kind.
#[derive(Clone, Copy)]
pub struct ItemMarks<'a> {
    /// The functions.
    pub funcs: &'a Marks<FunctionKey>,
    /// The tables.
    pub tables: &'a Marks<TableKey>,
    /// The memories.
    pub memories: &'a Marks<MemoryKey>,
    /// The globals.
    pub globals: &'a Marks<GlobalKey>,
    /// The tags.
    pub tags: &'a Marks<TagKey>,
}

impl<'a> ItemMarks<'a> {
    /// Whether what is imported stays.
    pub fn has_import(self, kind: ImportKind) -> bool
        ensures { result ≡ has_item self.entry (imported kind) }
    {
        match kind {
            ImportKind::Function(id) => self.funcs.is_marked(id),
            ImportKind::Table(id) => self.tables.is_marked(id),
            ImportKind::Memory(id) => self.memories.is_marked(id),
            ImportKind::Global(id) => self.globals.is_marked(id),
            ImportKind::Tag(id) => self.tags.is_marked(id),
        }
    }
}
