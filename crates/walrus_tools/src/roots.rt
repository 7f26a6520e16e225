//! What makes an item a root of a module.

ghost use Rattle.std.specs.Prelude.{◌≡◌, is_some, option_map};
ghost use Rattle.walrus.specs.Base.Arena.{item_at};
ghost use Rattle.walrus.specs.Base.Id.{place};
ghost use Rattle.walrus.specs.Code.Code.{item_of};
ghost use Rattle.walrus.specs.Contents.Named.{items_in};
ghost use Rattle.walrus.specs.Contents.View.{parts_view};
ghost use Rattle.walrus.specs.Items.Data.{data_segments};
ghost use Rattle.walrus.specs.Items.Elements.{elements};
ghost use Rattle.walrus.specs.Items.Exports.{exports, exports_item};
ghost use Rattle.walrus.specs.Items.Searches.{first};
ghost use Rattle.walrus_tools.specs.RootSteps.{FindsChainRoot, FindsRoot, NamesExport, by_data, by_element, by_start};

use walrus::below::Parts;
use walrus::{
    DataId, DataKind, ElementId, ElementKind, ExportItem, FunctionId, ItemId, ModuleData,
    ModuleElements, ModuleExports,
};

/// What makes an item a root: the first of these that is so.
#[derive(Clone, Copy, Debug, PartialEq, Eq)]
pub enum Root {
    /// It is exported.
    Exported,
    /// It is the start function.
    Start,
    /// It is an active segment.
    Active,
    /// It is a declared segment of elements.
    Declared,
}

// The item as exports name it, if it is of a kind that can be exported.
fn export_item(item: ItemId) -> Option<ExportItem>
    ensures { NamesExport (item_of item) result }
{
    match item {
        ItemId::Function(id) => Some(ExportItem::Function(id)),
        ItemId::Table(id) => Some(ExportItem::Table(id)),
        ItemId::Memory(id) => Some(ExportItem::Memory(id)),
        ItemId::Global(id) => Some(ExportItem::Global(id)),
        ItemId::Tag(id) => Some(ExportItem::Tag(id)),
        ItemId::Type(_) | ItemId::Element(_) | ItemId::Data(_) => None,
    }
}

// Whether the item is exported.
fn is_exported(all: &ModuleExports, item: ItemId) -> bool
    ensures { result ≡ is_some (first (exports_item (item_of item)) (exports all.now)) }
{
    match export_item(item) {
        Some(export) => all.first_id_of(export).is_some(),
        None => false,
    }
}

// What makes a function that isn't exported a root.
fn start_root(start: Option<FunctionId>, id: FunctionId) -> Option<Root>
    ensures { result ≡ by_start start (place id) }
{
    match start {
        Some(started) if started == id => Some(Root::Start),
        _ => None,
    }
}

// What makes a segment of elements a root.
fn element_root(all: &ModuleElements, id: ElementId) -> Option<Root>
    ensures { result ≡ by_element (item_at (elements all.now) (place id)) }
{
    if !all.contains(id) {
        return None;
    }
    match all.get(id).kind {
        ElementKind::Active { .. } => Some(Root::Active),
        ElementKind::Declared => Some(Root::Declared),
        ElementKind::Passive => None,
    }
}

// What makes a segment of data a root.
fn data_root(all: &ModuleData, id: DataId) -> Option<Root>
    ensures { result ≡ by_data (item_at (data_segments all.now) (place id)) }
{
    if !all.contains(id) {
        return None;
    }
    match all.get(id).kind {
        DataKind::Active { .. } => Some(Root::Active),
        DataKind::Passive => None,
    }
}

/// What makes the item a root, if it is one. Takes a walk over the exports.
pub(crate) fn root_of(parts: Parts<'_>, item: ItemId) -> Option<Root>
    ensures { FindsRoot (parts_view parts.entry) (item_of item) result }
{
    if is_exported(parts.exports, item) {
        return Some(Root::Exported);
    }
    match item {
        ItemId::Function(id) => start_root(parts.start, id),
        ItemId::Element(id) => element_root(parts.elements, id),
        ItemId::Data(id) => data_root(parts.data_, id),
        _ => None,
    }
}

/// What makes the first item of a chain a root. None where there is no chain.
pub(crate) fn root_of_chain(parts: Parts<'_>, chain: &Option<Vec<ItemId>>) -> Option<Root>
    ensures { FindsChainRoot (parts_view parts.entry) (option_map items_in chain.now) result }
{
    let Some(items) = chain else {
        return None;
    };
    root_of(parts, *items.first()?)
}
