//! The names of items, of whatever kind.

ghost use Rattle.std.specs.Option.{option_to_list};
ghost use Rattle.std.specs.Prelude.{◌≡◌};
ghost use Rattle.walrus.specs.Base.Arena.{item_at};
ghost use Rattle.walrus.specs.Base.Id.{place};
ghost use Rattle.walrus.specs.Base.ModuleTypes.{type_names};
ghost use Rattle.walrus.specs.Code.Code.{item_of};
ghost use Rattle.walrus.specs.Contents.View.{name_at, parts_view};
ghost use Rattle.walrus.specs.Items.Data.{data_segments};
ghost use Rattle.walrus.specs.Items.Elements.{elements};
ghost use Rattle.walrus.specs.Items.Functions.{functions};
ghost use Rattle.walrus.specs.Items.Globals.{globals};
ghost use Rattle.walrus.specs.Items.Memories.{memories};
ghost use Rattle.walrus.specs.Items.Seen.{text_of};
ghost use Rattle.walrus.specs.Items.Tables.{tables};
ghost use Rattle.walrus.specs.Items.Tags.{tags};
ghost use Rattle.walrus.specs.Model.Abstract.{AnItem};
ghost use Rattle.walrus_tools.specs.LinkSteps.{lent_name};

use walrus::below::Parts;
use walrus::{
    DataId, ElementId, FunctionId, GlobalId, ItemId, MemoryId, ModuleData, ModuleElements,
    ModuleFunctions, ModuleGlobals, ModuleMemories, ModuleTables, ModuleTags, ModuleTypes, TableId,
    TagId, TypeId,
};

// A text, lent.
fn lent(text: &Option<String>) -> Option<&str>
    ensures { lent_name result ≡ option_to_list (text_of text.now) }
{
    match text {
        Some(name) => Some(name.as_str()),
        None => None,
    }
}

fn type_name(all: &ModuleTypes, id: TypeId) -> Option<&str>
    ensures { lent_name result ≡ name_at (λ n. n) (item_at (type_names all.now) (place id)) }
{
    if !all.contains(id) {
        return None;
    }
    lent(&all.get(id).name)
}

fn function_name(all: &ModuleFunctions, id: FunctionId) -> Option<&str>
    ensures { lent_name result ≡ name_at (λ f. f.name) (item_at (functions all.now) (place id)) }
{
    if !all.contains(id) {
        return None;
    }
    lent(&all.get(id).name)
}

fn table_name(all: &ModuleTables, id: TableId) -> Option<&str>
    ensures { lent_name result ≡ name_at (λ t. t.name) (item_at (tables all.now) (place id)) }
{
    if !all.contains(id) {
        return None;
    }
    lent(&all.get(id).name)
}

fn memory_name(all: &ModuleMemories, id: MemoryId) -> Option<&str>
    ensures { lent_name result ≡ name_at (λ m. m.name) (item_at (memories all.now) (place id)) }
{
    if !all.contains(id) {
        return None;
    }
    lent(&all.get(id).name)
}

fn tag_name(all: &ModuleTags, id: TagId) -> Option<&str>
    ensures { lent_name result ≡ name_at (λ t. t.name) (item_at (tags all.now) (place id)) }
{
    if !all.contains(id) {
        return None;
    }
    lent(&all.get(id).name)
}

fn global_name(all: &ModuleGlobals, id: GlobalId) -> Option<&str>
    ensures { lent_name result ≡ name_at (λ g. g.name) (item_at (globals all.now) (place id)) }
{
    if !all.contains(id) {
        return None;
    }
    lent(&all.get(id).name)
}

fn element_name(all: &ModuleElements, id: ElementId) -> Option<&str>
    ensures { lent_name result ≡ name_at (λ e. e.name) (item_at (elements all.now) (place id)) }
{
    if !all.contains(id) {
        return None;
    }
    lent(&all.get(id).name)
}

fn data_name(all: &ModuleData, id: DataId) -> Option<&str>
    ensures { lent_name result ≡ name_at (λ d. d.name) (item_at (data_segments all.now) (place id)) }
{
    if !all.contains(id) {
        return None;
    }
    lent(&all.get(id).name)
}

/// The name of the item, if it is there and has one.
pub(crate) fn name_in<'a>(parts: Parts<'a>, item: ItemId) -> Option<&'a str>
    ensures { lent_name result ≡ (parts_view parts.entry).named (AnItem (item_of item)) }
{
    match item {
        ItemId::Type(id) => type_name(parts.types, id),
        ItemId::Function(id) => function_name(parts.funcs, id),
        ItemId::Table(id) => table_name(parts.tables, id),
        ItemId::Memory(id) => memory_name(parts.memories, id),
        ItemId::Tag(id) => tag_name(parts.tags, id),
        ItemId::Global(id) => global_name(parts.globals, id),
        ItemId::Element(id) => element_name(parts.elements, id),
        ItemId::Data(id) => data_name(parts.data_, id),
    }
}
