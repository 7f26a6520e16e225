//! Who refers to an item.

ghost use Rattle.std.specs.Prelude.{◌≡◌, ◌↔◌, Contains, IsTrue, MatchResult};
ghost use Rattle.std.specs.List.{list_any};
ghost use Rattle.walrus.specs.Base.Id.{place};
ghost use Rattle.walrus.specs.Base.Operators.{Types};
ghost use Rattle.walrus.specs.Code.Code.{item_of};
ghost use Rattle.walrus.specs.Contents.Named.{group_names, items_in};
ghost use Rattle.walrus.specs.Contents.There.{IsRefusal};
ghost use Rattle.walrus.specs.Contents.View.{parts_view};
ghost use Rattle.walrus.specs.Items.Items.{is_item};
ghost use Rattle.walrus.specs.Model.Live.{IsLive};
ghost use Rattle.walrus.specs.Model.Refers.{Refers};
ghost use Rattle.walrus.specs.Modules.View.{held_view};
ghost use Rattle.walrus_tools.specs.Callers.{AddsIfCaller, AreCallers, CallersBefore, CallersThrough, HasUnsound, IsPastSpace, space_of};

use std::alloc::Global;
use walrus::below::{Parts, is_live, push_item_names};
use walrus::{
    DataId, ElementId, FunctionId, GlobalId, ItemId, MemoryId, Module, Result, TableId, TagId,
    TypeId,
};

// A kind of items.
#[derive(Clone, Copy)]
enum Kind {
    Types,
    Functions,
    Tables,
    Memories,
    Tags,
    Globals,
    Elements,
    Data,
}

// The item of this kind and index.
fn item_at(kind: Kind, index: usize) -> ItemId
    ensures { item_of result ≡ (space_of kind, index) }
{
    match kind {
        Kind::Types => ItemId::Type(TypeId::at(index)),
        Kind::Functions => ItemId::Function(FunctionId::at(index)),
        Kind::Tables => ItemId::Table(TableId::at(index)),
        Kind::Memories => ItemId::Memory(MemoryId::at(index)),
        Kind::Tags => ItemId::Tag(TagId::at(index)),
        Kind::Globals => ItemId::Global(GlobalId::at(index)),
        Kind::Elements => ItemId::Element(ElementId::at(index)),
        Kind::Data => ItemId::Data(DataId::at(index)),
    }
}

// How many indices of this kind there are, those of deleted items among them.
fn end_of(parts: Parts<'_>, kind: Kind) -> usize
    ensures { IsPastSpace (parts_view parts.entry) (space_of kind) result }
{
    match kind {
        Kind::Types => parts.types.next_id().index(),
        Kind::Functions => parts.funcs.next_id().index(),
        Kind::Tables => parts.tables.next_id().index(),
        Kind::Memories => parts.memories.next_id().index(),
        Kind::Tags => parts.tags.next_id().index(),
        Kind::Globals => parts.globals.next_id().index(),
        Kind::Elements => parts.elements.next_id().index(),
        Kind::Data => parts.data_.next_id().index(),
    }
}

// Whether both are the same item.
fn is_same(one: ItemId, other: ItemId) -> bool
    ensures { result ≡ is_item (item_of one) (item_of other) }
{
    match (one, other) {
        (ItemId::Type(a), ItemId::Type(b)) => a == b,
        (ItemId::Function(a), ItemId::Function(b)) => a == b,
        (ItemId::Table(a), ItemId::Table(b)) => a == b,
        (ItemId::Memory(a), ItemId::Memory(b)) => a == b,
        (ItemId::Tag(a), ItemId::Tag(b)) => a == b,
        (ItemId::Global(a), ItemId::Global(b)) => a == b,
        (ItemId::Element(a), ItemId::Element(b)) => a == b,
        (ItemId::Data(a), ItemId::Data(b)) => a == b,
        _ => false,
    }
}

// Whether the item is one of these.
fn is_among(items: &[ItemId], item: ItemId) -> bool
    ensures { result ≡ list_any (λ other. is_item (item_of other) (item_of item)) items.now }
{
    items.iter().any(|other| is_same(*other, item))
}

// Whether a type is a member of the group of a live one.
fn is_in_group(parts: Parts<'_>, ty: TypeId, other: TypeId) -> bool
    requires { IsLive (parts_view parts) (Types, place ty) }
    ensures { IsTrue result
        ↔ Contains (group_names (parts_view parts.entry) (Types, place ty)) (Types, place other) }
{
    parts.types.groups_are_whole();
    if !parts.types.contains(other) {
        return false;
    }
    parts.types.last_in_group(ty) == parts.types.last_in_group(other)
}

// Whether an item is a member of the group of a live one. Only types have groups.
fn groups_with(parts: Parts<'_>, item: ItemId, other: ItemId) -> bool
    requires { IsLive (parts_view parts) (item_of item) }
    ensures { IsTrue result ↔ Contains (group_names (parts_view parts.entry) (item_of item)) (item_of other) }
{
    match (item, other) {
        (ItemId::Type(a), ItemId::Type(b)) => is_in_group(parts, a, b),
        _ => false,
    }
}

// Whether a live item refers to the other. What was in `named` is let go.
fn refers(
    alloc: Global,
    parts: Parts<'_>,
    item: ItemId,
    other: ItemId,
    named: &mut Vec<ItemId>,
) -> Result<bool>
    requires { IsLive (parts_view parts) (item_of item) }
    ensures { MatchResult result
        (λ b. IsTrue b ↔ Refers (parts_view parts.entry) (item_of item) (item_of other))
        (IsRefusal (HasUnsound (parts_view parts.entry))) }
{
    if groups_with(parts, item, other) {
        return Ok(true);
    }
    named.clear();
    push_item_names(alloc, parts, item, named)?;
    Ok(is_among(named, other))
}

// Puts an item behind the callers of the other if it is there and refers to that. What was in `named` is let go.
fn add_if_caller(
    alloc: Global,
    parts: Parts<'_>,
    item: ItemId,
    other: ItemId,
    named: &mut Vec<ItemId>,
    callers: &mut Vec<ItemId>,
) -> Result<()>
    ensures { MatchResult result
        (λ _. AddsIfCaller (parts_view parts.entry) (item_of item) (item_of other)
        (items_in callers.old) (items_in callers.new))
        (IsRefusal (HasUnsound (parts_view parts.entry))) }
{
    if !is_live(parts, item) {
        return Ok(());
    }
    if refers(alloc, parts, item, other, named)? {
        callers.push(item)?;
    }
    Ok(())
}

// Puts the items of a kind behind those that come before them.
fn add_kind(
    alloc: Global,
    parts: Parts<'_>,
    kind: Kind,
    other: ItemId,
    callers: &mut Vec<ItemId>,
) -> Result<()>
    requires { CallersBefore (parts_view parts) (item_of other) (space_of kind, 0) (items_in callers.old) }
    ensures { MatchResult result
        (λ _. CallersThrough (parts_view parts.entry) (item_of other) (space_of kind) (items_in callers.new))
        (IsRefusal (HasUnsound (parts_view parts.entry))) }
{
    let mut named = Vec::new(alloc);
    'items: for index in 0..end_of(parts, kind) {
        add_if_caller(
            alloc,
            parts,
            item_at(kind, index),
            other,
            &mut named,
            callers,
        )?;
    }
    Ok(())
}

// What `callers_of` answers, over the parts of a module.
fn callers_in(alloc: Global, parts: Parts<'_>, item: ItemId) -> Result<Vec<ItemId>>
    ensures { MatchResult result
        (λ callers. AreCallers (parts_view parts.entry) (item_of item) (items_in callers))
        (IsRefusal (HasUnsound (parts_view parts.entry))) }
{
    let mut callers = Vec::new(alloc);
    add_kind(alloc, parts, Kind::Types, item, &mut callers)?;
    add_kind(alloc, parts, Kind::Functions, item, &mut callers)?;
    add_kind(alloc, parts, Kind::Tables, item, &mut callers)?;
    add_kind(alloc, parts, Kind::Memories, item, &mut callers)?;
    add_kind(alloc, parts, Kind::Tags, item, &mut callers)?;
    add_kind(alloc, parts, Kind::Globals, item, &mut callers)?;
    add_kind(alloc, parts, Kind::Elements, item, &mut callers)?;
    add_kind(alloc, parts, Kind::Data, item, &mut callers)?;
    Ok(callers)
}

/// The items that refer to this one, by kind (types, functions, tables, memories, tags, globals, elements, data) and index. What each item
/// refers to is looked through once.
///
/// # Errors
///
/// `DeadItem` only where an item of the module isn't sound: a function with neither an import nor a body, or one that uses a local that isn't
/// there. And `Memory`.
pub(crate) fn callers_of(alloc: Global, module: &Module, item: ItemId) -> Result<Vec<ItemId>>
    ensures { MatchResult result
        (λ callers. AreCallers (held_view «module».now) (item_of item) (items_in callers))
        (IsRefusal (HasUnsound (held_view «module».now))) }
{
    callers_in(alloc, module.parts(), item)
}
