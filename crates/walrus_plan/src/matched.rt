//! Whether imports and the items that they bring name each other ("Structure > Modules > Imports").
ghost use Rattle.std.specs.Prelude.{◌≡◌, MatchResult, Some, true, false, option_map};
ghost use Rattle.walrus_base.specs.Id.{place};
ghost use Rattle.walrus_base.specs.Operators.{Functions, Globals, Memories, Tables, Tags};
ghost use Rattle.walrus_contents.specs.View.{parts_view};
ghost use Rattle.walrus_items.specs.Kinds.{imported};
ghost use Rattle.walrus_model.specs.Dead.{HasDead};
ghost use Rattle.walrus_model.specs.Live.{IsLive};
ghost use Rattle.walrus_model.specs.WellMade.{ImportsMatch, import_of};
ghost use Rattle.walrus_theorem.specs.Refused.{LacksIndex};
ghost use Rattle.walrus_plan.specs.Matched.{AreAnswered, AreImportsAnswered, AreItemsAnswered, IsAnswered, IsNamedBy, IsUnanswered, RefusesUnmatched};

use crate::origins::{function_import, global_import, import_of, tag_import};
use walrus_base::ImportId;
use walrus_contents::Parts;
use walrus_items::{Error, ImportKind, Result};

// Whether these import the same.
fn is_same(kind: ImportKind, other: ImportKind) -> bool
    ensures same { result ≡ true → imported kind ≡ imported other }
    ensures not { result ≡ false → imported kind ≡ imported other → ⊥ }
{
    kind == other
}

// Whether this import is there and names the item.
fn is_named_by(parts: Parts<'_>, import: ImportId, kind: ImportKind) -> bool
    ensures named { result ≡ true → IsNamedBy (parts_view parts.entry) (imported kind) (place «import») }
    ensures not { result ≡ false
        → IsNamedBy (parts_view parts.entry) (imported kind) (place «import») → ⊥ }
{
    parts.imports.contains(import) && is_same(parts.imports.get(import).kind, kind)
}

// Whether the import that is said to bring the item is there and names it, if one is.
fn is_answered(parts: Parts<'_>, brought_by: Option<ImportId>, kind: ImportKind) -> bool
    ensures answered { result ≡ true
        → IsAnswered (parts_view parts.entry) (option_map place brought_by) (imported kind) }
    ensures not { result ≡ false
        → IsUnanswered (parts_view parts.entry) (option_map place brought_by) (imported kind) }
{
    match brought_by {
        None => true,
        Some(import) => is_named_by(parts, import, kind),
    }
}

// Whether each function that says to be brought by an import is named by it.
fn are_functions_answered(parts: Parts<'_>) -> bool
    ensures answered { result ≡ true → AreAnswered (parts_view parts.entry) Functions }
    ensures lacks { result ≡ false → LacksIndex (parts_view parts.entry) }
{
    for (id, function) in parts.funcs.iter_entries() {
        if !is_answered(
            parts,
            function_import(&function.kind),
            ImportKind::Function(id),
        ) {
            return false;
        }
    }
    true
}

// The same of tables.
fn are_tables_answered(parts: Parts<'_>) -> bool
    ensures answered { result ≡ true → AreAnswered (parts_view parts.entry) Tables }
    ensures lacks { result ≡ false → LacksIndex (parts_view parts.entry) }
{
    for (id, table) in parts.tables.iter_entries() {
        if !is_answered(parts, table.import, ImportKind::Table(id)) {
            return false;
        }
    }
    true
}

// The same of memories.
fn are_memories_answered(parts: Parts<'_>) -> bool
    ensures answered { result ≡ true → AreAnswered (parts_view parts.entry) Memories }
    ensures lacks { result ≡ false → LacksIndex (parts_view parts.entry) }
{
    for (id, memory) in parts.memories.iter_entries() {
        if !is_answered(parts, memory.import, ImportKind::Memory(id)) {
            return false;
        }
    }
    true
}

// The same of tags.
fn are_tags_answered(parts: Parts<'_>) -> bool
    ensures answered { result ≡ true → AreAnswered (parts_view parts.entry) Tags }
    ensures lacks { result ≡ false → LacksIndex (parts_view parts.entry) }
{
    for (id, tag) in parts.tags.iter_entries() {
        if !is_answered(parts, tag_import(&tag.kind), ImportKind::Tag(id)) {
            return false;
        }
    }
    true
}

// The same of globals.
fn are_globals_answered(parts: Parts<'_>) -> bool
    ensures answered { result ≡ true → AreAnswered (parts_view parts.entry) Globals }
    ensures lacks { result ≡ false → LacksIndex (parts_view parts.entry) }
{
    for (id, global) in parts.globals.iter_entries() {
        if !is_answered(parts, global_import(&global.kind), ImportKind::Global(id)) {
            return false;
        }
    }
    true
}

// Whether each item that says to be brought by an import is named by it.
fn are_items_answered(parts: Parts<'_>) -> bool
    ensures answered { result ≡ true → AreItemsAnswered (parts_view parts.entry) }
    ensures lacks { result ≡ false → LacksIndex (parts_view parts.entry) }
{
    if !are_functions_answered(parts) {
        return false;
    }
    if !are_tables_answered(parts) {
        return false;
    }
    if !are_memories_answered(parts) {
        return false;
    }
    if !are_tags_answered(parts) {
        return false;
    }
    are_globals_answered(parts)
}

// That the item which an import names says to be brought by this one. Refused with `TwoIndices` where no import is said to bring it, or
// another one is and names it too; with `NoIndex` where the one that is said to bring it isn't there or names another item.
fn check_import(parts: Parts<'_>, id: ImportId, kind: ImportKind) -> Result<()>
    requires there { HasDead (parts_view parts) → ⊥ }
    requires live { IsLive (parts_view parts) (imported kind) }
    requires named { IsNamedBy (parts_view parts) (imported kind) (place id) }
    ensures { MatchResult result
        (λ _. import_of (parts_view parts.entry) (imported kind) ≡ Some (place id))
        (RefusesUnmatched (parts_view parts.entry)) }
{
    let Some(own) = import_of(parts, kind) else {
        return Err(Error::TwoIndices);
    };
    if own == id {
        return Ok(());
    }
    if is_named_by(parts, own, kind) {
        return Err(Error::TwoIndices);
    }
    Err(Error::NoIndex)
}

// The same of all imports.
fn check_imports(parts: Parts<'_>) -> Result<()>
    requires there { HasDead (parts_view parts) → ⊥ }
    ensures { MatchResult result (λ _. AreImportsAnswered (parts_view parts.entry))
        (RefusesUnmatched (parts_view parts.entry)) }
{
    for (id, import) in parts.imports.iter_entries() {
        check_import(parts, id, import.kind)?;
    }
    Ok(())
}

/// That imports and items name each other: each import an item that says to be brought by it, and each item that says to be brought by an
/// import one that is there and names it.
///
/// # Errors
///
/// `TwoIndices` where an import names an item that the module defines, or two imports name one; `NoIndex` where an item says to be brought by
/// an import that isn't there or names another item.
pub fn check_matched(parts: Parts<'_>) -> Result<()>
    requires there { HasDead (parts_view parts) → ⊥ }
    ensures { MatchResult result (λ _. ImportsMatch (parts_view parts.entry))
        (RefusesUnmatched (parts_view parts.entry)) }
{
    check_imports(parts)?;
    if !are_items_answered(parts) {
        return Err(Error::NoIndex);
    }
    Ok(())
}
