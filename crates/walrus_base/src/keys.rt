//! The kinds of items, as markers of their ids.

use crate::id::Id;

/// The kind of types.
pub enum TypeKey {}

/// The kind of locals.
pub enum LocalKey {}

/// The kind of functions.
pub enum FunctionKey {}

/// The kind of tables.
pub enum TableKey {}

/// The kind of memories.
pub enum MemoryKey {}

/// The kind of globals.
pub enum GlobalKey {}

/// The kind of tags.
pub enum TagKey {}

/// The kind of data segments.
pub enum DataKey {}

/// The kind of element segments.
pub enum ElementKey {}

/// The kind of imports.
pub enum ImportKey {}

/// The kind of exports.
pub enum ExportKey {}

/// The kind of custom sections.
pub enum CustomSectionKey {}

/// The id of a type.
pub type TypeId = Id<TypeKey>;

/// The id of a local.
pub type LocalId = Id<LocalKey>;

/// The id of a function.
pub type FunctionId = Id<FunctionKey>;

/// The id of a table.
pub type TableId = Id<TableKey>;

/// The id of a memory.
pub type MemoryId = Id<MemoryKey>;

/// The id of a global.
pub type GlobalId = Id<GlobalKey>;

/// The id of a tag.
pub type TagId = Id<TagKey>;

/// The id of a data segment.
pub type DataId = Id<DataKey>;

/// The id of an element segment.
pub type ElementId = Id<ElementKey>;

/// The id of an import.
pub type ImportId = Id<ImportKey>;

/// The id of an export.
pub type ExportId = Id<ExportKey>;

/// The id of a custom section.
pub type UntypedCustomSectionId = Id<CustomSectionKey>;
