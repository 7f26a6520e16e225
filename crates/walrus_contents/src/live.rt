//! Whether all that a module names is there.
ghost use Rattle.std.specs.Prelude.{◌≡◌, MatchResult, map};
ghost use Rattle.walrus_code.specs.Code.{item_of};
ghost use Rattle.walrus_model.specs.Dead.{HasDead};
ghost use Rattle.walrus_model.specs.Live.{IsLive};
ghost use Rattle.walrus_items.specs.Kinds.{imported};
ghost use Rattle.walrus_base.specs.Operators.{DataSegments, Elements, Functions, Globals, Tables, Tags, Types};
ghost use Rattle.walrus_contents.specs.Named.{export_names};
ghost use Rattle.walrus_contents.specs.There.{AreLive, AreWhole, ImportsAreLive, IsRefusal, IsWhole, OneIsDead};
ghost use Rattle.walrus_contents.specs.View.{parts_view};

use crate::names::{push_other_roots, push_written_names};
use crate::parts::{Parts, is_live};
use std::alloc::Global;
use walrus_code::ItemId;
use walrus_items::{Error, ImportKind, Result};

/// Checks that each function has an import or a body, and that all that items, imports and exports name is there, the locals of
/// bodies and the start function among it. Refused with `DeadItem` exactly where one of these isn't so, and with `Memory`.
pub fn check_live(alloc: Global, parts: Parts<'_>) -> Result<()>
    ensures { MatchResult result (λ _. HasDead (parts_view parts.entry) → ⊥)
        (IsRefusal (HasDead (parts_view parts.entry))) }
{
    let mut named = Vec::new(alloc);
    check_exports(parts)?;
    push_other_roots(parts, &mut named)?;
    check_all(parts, named.as_slice())?;
    check_imports(parts)?;
    check_types(alloc, parts, &mut named)?;
    check_tables(alloc, parts, &mut named)?;
    check_tags(alloc, parts, &mut named)?;
    check_globals(alloc, parts, &mut named)?;
    check_elements(alloc, parts, &mut named)?;
    check_data(alloc, parts, &mut named)?;
    check_functions(alloc, parts, &mut named)
}

// The same for what exports name.
fn check_exports(parts: Parts<'_>) -> Result<()>
    ensures { MatchResult result (λ _. AreLive (parts_view parts.entry)
        (export_names parts.entry.exports.now)) (IsRefusal (HasDead (parts_view parts.entry))) }
{
    for export in parts.exports.iter() {
        check_one(parts, export.item.item_id())?;
    }
    Ok(())
}

// The same for what imports bring.
fn check_imports(parts: Parts<'_>) -> Result<()>
    ensures { MatchResult result (λ _. ImportsAreLive (parts_view parts.entry))
        (IsRefusal (HasDead (parts_view parts.entry))) }
{
    for (_, import) in parts.imports.iter_entries() {
        check_one(parts, item_of_import(import.kind))?;
    }
    Ok(())
}

// What is imported, as an operator would name it.
fn item_of_import(kind: ImportKind) -> ItemId
    ensures { item_of result ≡ imported kind }
{
    match kind {
        ImportKind::Function(id) => ItemId::Function(id),
        ImportKind::Table(id) => ItemId::Table(id),
        ImportKind::Memory(id) => ItemId::Memory(id),
        ImportKind::Global(id) => ItemId::Global(id),
        ImportKind::Tag(id) => ItemId::Tag(id),
    }
}

// The same for what types name. What was in `named` is let go.
fn check_types(alloc: Global, parts: Parts<'_>, named: &mut Vec<ItemId>) -> Result<()>
    ensures { MatchResult result (λ _. AreWhole (parts_view parts.entry) Types)
        (IsRefusal (HasDead (parts_view parts.entry))) }
{
    for ty in parts.types.iter() {
        check_item(alloc, parts, ItemId::Type(ty.id()), named)?;
    }
    Ok(())
}

// The same for what tables name.
fn check_tables(alloc: Global, parts: Parts<'_>, named: &mut Vec<ItemId>) -> Result<()>
    ensures { MatchResult result (λ _. AreWhole (parts_view parts.entry) Tables)
        (IsRefusal (HasDead (parts_view parts.entry))) }
{
    for (id, _table) in parts.tables.iter_entries() {
        check_item(alloc, parts, ItemId::Table(id), named)?;
    }
    Ok(())
}

// The same for what tags name.
fn check_tags(alloc: Global, parts: Parts<'_>, named: &mut Vec<ItemId>) -> Result<()>
    ensures { MatchResult result (λ _. AreWhole (parts_view parts.entry) Tags)
        (IsRefusal (HasDead (parts_view parts.entry))) }
{
    for (id, _tag) in parts.tags.iter_entries() {
        check_item(alloc, parts, ItemId::Tag(id), named)?;
    }
    Ok(())
}

// The same for what globals name.
fn check_globals(alloc: Global, parts: Parts<'_>, named: &mut Vec<ItemId>) -> Result<()>
    ensures { MatchResult result (λ _. AreWhole (parts_view parts.entry) Globals)
        (IsRefusal (HasDead (parts_view parts.entry))) }
{
    for (id, _global) in parts.globals.iter_entries() {
        check_item(alloc, parts, ItemId::Global(id), named)?;
    }
    Ok(())
}

// The same for what element segments name.
fn check_elements(alloc: Global, parts: Parts<'_>, named: &mut Vec<ItemId>) -> Result<()>
    ensures { MatchResult result (λ _. AreWhole (parts_view parts.entry) Elements)
        (IsRefusal (HasDead (parts_view parts.entry))) }
{
    for (id, _segment) in parts.elements.iter_entries() {
        check_item(alloc, parts, ItemId::Element(id), named)?;
    }
    Ok(())
}

// The same for what data segments name.
fn check_data(alloc: Global, parts: Parts<'_>, named: &mut Vec<ItemId>) -> Result<()>
    ensures { MatchResult result (λ _. AreWhole (parts_view parts.entry) DataSegments)
        (IsRefusal (HasDead (parts_view parts.entry))) }
{
    for (id, _segment) in parts.data_.iter_entries() {
        check_item(alloc, parts, ItemId::Data(id), named)?;
    }
    Ok(())
}

// The same for what functions name.
fn check_functions(alloc: Global, parts: Parts<'_>, named: &mut Vec<ItemId>) -> Result<()>
    ensures { MatchResult result (λ _. AreWhole (parts_view parts.entry) Functions)
        (IsRefusal (HasDead (parts_view parts.entry))) }
{
    for (id, _function) in parts.funcs.iter_entries() {
        check_item(alloc, parts, ItemId::Function(id), named)?;
    }
    Ok(())
}

// The same for what is written in one item. The members of a type's group are there.
fn check_item(alloc: Global, parts: Parts<'_>, item: ItemId, named: &mut Vec<ItemId>) -> Result<()>
    requires { IsLive (parts_view parts) (item_of item) }
    ensures { MatchResult result (λ _. IsWhole (parts_view parts.entry) (item_of item))
        (IsRefusal (HasDead (parts_view parts.entry))) }
{
    parts.types.groups_are_whole();
    named.clear();
    push_written_names(alloc, parts, item, named)?;
    check_all(parts, named.as_slice())
}

// Whether items are there: refused with `DeadItem` where one isn't.
fn check_all(parts: Parts<'_>, named: &[ItemId]) -> Result<()>
    ensures { MatchResult result
        (λ _. AreLive (parts_view parts.entry) (map item_of named.now))
        (IsRefusal (OneIsDead (parts_view parts.entry) (map item_of named.now))) }
{
    for item in named {
        check_one(parts, *item)?;
    }
    Ok(())
}

// The same for one item.
fn check_one(parts: Parts<'_>, item: ItemId) -> Result<()>
    ensures { MatchResult result (λ _. IsLive (parts_view parts.entry) (item_of item))
        (IsRefusal (IsLive (parts_view parts.entry) (item_of item) → ⊥)) }
{
    if is_live(parts, item) {
        Ok(())
    } else {
        Err(Error::DeadItem)
    }
}
