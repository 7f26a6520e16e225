//! What an import brings and what an export exports, and where globals and tags come from ("Structure > Modules").
ghost use Rattle.std.specs.Prelude.{◌≡◌};
ghost use Rattle.walrus_code.specs.Code.{item_of};
ghost use Rattle.walrus_items.specs.Items.{is_item};
ghost use Rattle.walrus_items.specs.Kinds.{exported, imported};
ghost use Rattle.walrus_items.specs.declared.kinds.ExportItem.TheVariants as exports;
ghost use Rattle.walrus_items.specs.declared.kinds.ImportKind.TheVariants as imports;

use walrus_base::{ConstExpr, FunctionId, GlobalId, ImportId, MemoryId, TableId, TagId};
use walrus_code::ItemId;

/// What an import imports.
#[derive(Clone, Copy, Debug, PartialEq, Eq, Hash)]
pub enum ImportKind {
    /// A function.
    Function(FunctionId),
    /// A table.
    Table(TableId),
    /// A memory.
    Memory(MemoryId),
    /// A global.
    Global(GlobalId),
    /// A tag.
    Tag(TagId),
}

impl ImportKind {
    /// Whether it is the same item.
    pub fn is_same(self, other: ImportKind) -> bool
        ensures { result ≡ is_item (imported self) (imported other) }
    {
        match (self, other) {
            (ImportKind::Function(one), ImportKind::Function(id)) => one == id,
            (ImportKind::Table(one), ImportKind::Table(id)) => one == id,
            (ImportKind::Memory(one), ImportKind::Memory(id)) => one == id,
            (ImportKind::Global(one), ImportKind::Global(id)) => one == id,
            (ImportKind::Tag(one), ImportKind::Tag(id)) => one == id,
            _ => false,
        }
    }
}

impl From<FunctionId> for ImportKind {
    ghost from_gives = { λ id kind. kind ≡ imports.Function id };

    fn from(id: FunctionId) -> ImportKind {
        ImportKind::Function(id)
    }
}

impl From<TableId> for ImportKind {
    ghost from_gives = { λ id kind. kind ≡ imports.Table id };

    fn from(id: TableId) -> ImportKind {
        ImportKind::Table(id)
    }
}

impl From<MemoryId> for ImportKind {
    ghost from_gives = { λ id kind. kind ≡ imports.Memory id };

    fn from(id: MemoryId) -> ImportKind {
        ImportKind::Memory(id)
    }
}

impl From<GlobalId> for ImportKind {
    ghost from_gives = { λ id kind. kind ≡ imports.Global id };

    fn from(id: GlobalId) -> ImportKind {
        ImportKind::Global(id)
    }
}

impl From<TagId> for ImportKind {
    ghost from_gives = { λ id kind. kind ≡ imports.Tag id };

    fn from(id: TagId) -> ImportKind {
        ImportKind::Tag(id)
    }
}

/// What an export exports.
#[derive(Clone, Copy, Debug)]
pub enum ExportItem {
    /// A function.
    Function(FunctionId),
    /// A table.
    Table(TableId),
    /// A memory.
    Memory(MemoryId),
    /// A global.
    Global(GlobalId),
    /// A tag.
    Tag(TagId),
}

impl ExportItem {
    /// The item, as an operator would name it.
    pub fn item_id(self) -> ItemId
        ensures { item_of result ≡ exported self }
    {
        match self {
            ExportItem::Function(id) => ItemId::Function(id),
            ExportItem::Table(id) => ItemId::Table(id),
            ExportItem::Memory(id) => ItemId::Memory(id),
            ExportItem::Global(id) => ItemId::Global(id),
            ExportItem::Tag(id) => ItemId::Tag(id),
        }
    }

    /// Whether it is the same item.
    pub fn is_same(self, other: ExportItem) -> bool
        ensures { result ≡ is_item (exported self) (exported other) }
    {
        match (self, other) {
            (ExportItem::Function(one), ExportItem::Function(id)) => one == id,
            (ExportItem::Table(one), ExportItem::Table(id)) => one == id,
            (ExportItem::Memory(one), ExportItem::Memory(id)) => one == id,
            (ExportItem::Global(one), ExportItem::Global(id)) => one == id,
            (ExportItem::Tag(one), ExportItem::Tag(id)) => one == id,
            _ => false,
        }
    }
}

impl From<FunctionId> for ExportItem {
    ghost from_gives = { λ id item. item ≡ exports.Function id };

    fn from(id: FunctionId) -> ExportItem {
        ExportItem::Function(id)
    }
}

impl From<TableId> for ExportItem {
    ghost from_gives = { λ id item. item ≡ exports.Table id };

    fn from(id: TableId) -> ExportItem {
        ExportItem::Table(id)
    }
}

impl From<MemoryId> for ExportItem {
    ghost from_gives = { λ id item. item ≡ exports.Memory id };

    fn from(id: MemoryId) -> ExportItem {
        ExportItem::Memory(id)
    }
}

impl From<GlobalId> for ExportItem {
    ghost from_gives = { λ id item. item ≡ exports.Global id };

    fn from(id: GlobalId) -> ExportItem {
        ExportItem::Global(id)
    }
}

impl From<TagId> for ExportItem {
    ghost from_gives = { λ id item. item ≡ exports.Tag id };

    fn from(id: TagId) -> ExportItem {
        ExportItem::Tag(id)
    }
}

/// Where a global comes from.
#[derive(Drop)]
pub enum GlobalKind {
    /// From an import.
    Import(ImportId),
    /// From the module, with this initialiser.
    Local(ConstExpr),
}

/// Where a tag comes from.
#[derive(Drop)]
pub enum TagKind {
    /// From an import.
    Import(ImportId),
    /// From the module.
    Local,
}
