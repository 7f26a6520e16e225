//! Which globals initialisers read ("Validation > Modules > Globals", "Tables").
ghost use Rattle.std.specs.Prelude.{◌≡◌, true, false, [], map, option_map, IfOk, IsOkUnless};
ghost use Rattle.walrus_base.specs.Id.{place};
ghost use Rattle.walrus_base.specs.ConstOps.{const_ops};
ghost use Rattle.walrus_base.specs.Operators.{Globals, names_of};
ghost use Rattle.walrus_code.specs.Code.{item_of};
ghost use Rattle.walrus_items.specs.Globals.{global_init, globals};
ghost use Rattle.walrus_model.specs.Live.{IsLive};
ghost use Rattle.walrus_model.specs.Refers.{named_by};
ghost use Rattle.walrus_items.specs.Errors.{out_of_memory};
ghost use Rattle.walrus_theorem.specs.Refused.{LacksIndex};
ghost use Rattle.walrus_contents.specs.Named.{own_written};
ghost use Rattle.walrus_contents.specs.View.{parts_view};
ghost use Rattle.walrus_plan.specs.Reads.{AreReadEarlier, AreReadImported, HasInitialiser, IsOfKind, ReadsInOrder, may_name, may_name_all};

use crate::plan::is_global_own;
use std::alloc::Global;
use walrus_base::{ConstExpr, GlobalId};
use walrus_code::ItemId;
use walrus_contents::{Parts, push_written_names};
use walrus_items::{Error, GlobalKind, Result};

/// Whether each table's initialiser reads imported globals alone, and each global's imported ones and those that are written before it.
pub fn are_reads_in_order(alloc: Global, parts: Parts<'_>) -> Result<bool>
    ensures in_order { IfOk result (λ b. b ≡ true → ReadsInOrder (parts_view parts.entry)) }
    ensures lacks { IfOk result (λ b. b ≡ false → LacksIndex (parts_view parts.entry)) }
    ensures fails { IsOkUnless result out_of_memory }
{
    let mut named = Vec::new(alloc);
    if !do_tables_read_imported(alloc, parts, &mut named)? {
        return Ok(false);
    }
    do_globals_read_earlier(alloc, parts, &mut named)
}

// Whether each table's initialiser reads imported globals alone. What was in `named` is let go.
fn do_tables_read_imported(alloc: Global, parts: Parts<'_>, named: &mut Vec<ItemId>) -> Result<bool>
    ensures in_order { IfOk result (λ b. b ≡ true → AreReadImported (parts_view parts.entry)) }
    ensures lacks { IfOk result (λ b. b ≡ false → LacksIndex (parts_view parts.entry)) }
    ensures fails { IsOkUnless result out_of_memory }
{
    for (id, _table) in parts.tables.iter_entries() {
        if !does_read_before(alloc, parts, ItemId::Table(id), 0, named)? {
            return Ok(false);
        }
    }
    Ok(true)
}

// Whether each global's initialiser reads imported globals and those of smaller ids alone. What was in `named` is let go.
fn do_globals_read_earlier(alloc: Global, parts: Parts<'_>, named: &mut Vec<ItemId>) -> Result<bool>
    ensures in_order { IfOk result (λ b. b ≡ true → AreReadEarlier (parts_view parts.entry)) }
    ensures lacks { IfOk result (λ b. b ≡ false → LacksIndex (parts_view parts.entry)) }
    ensures fails { IsOkUnless result out_of_memory }
{
    for (id, global) in parts.globals.iter_entries() {
        if !does_global_read_earlier(alloc, parts, id, &global.kind, named)? {
            return Ok(false);
        }
    }
    Ok(true)
}

// The same of one global, of this kind.
fn does_global_read_earlier(
    alloc: Global,
    parts: Parts<'_>,
    id: GlobalId,
    kind: &GlobalKind,
    named: &mut Vec<ItemId>,
) -> Result<bool>
    requires there { IsOfKind (globals parts.globals.now) (place id) kind.now }
    ensures value { IfOk result (λ b. b ≡ may_name_all (globals parts.entry.globals.now) (place id)
        (own_written (parts_view parts.entry) (Globals, place id))) }
    ensures fails { IsOkUnless result out_of_memory }
{
    if reads_nothing(kind) {
        return Ok(true);
    }
    does_read_before(alloc, parts, ItemId::Global(id), id.index(), named)
}

// Whether a global of this kind has no initialiser that names anything: an imported one, and one that is a plain value.
fn reads_nothing(kind: &GlobalKind) -> bool
    ensures { result ≡ true
        → named_by names_of (option_map const_ops (global_init kind.now)) ≡ [] }
{
    match kind {
        GlobalKind::Import(_) => true,
        GlobalKind::Local(initialiser) => is_plain(initialiser),
    }
}

// Whether an initialiser is a plain value, in which nothing is named.
fn is_plain(initialiser: &ConstExpr) -> bool
    ensures { result ≡ true → names_of (const_ops initialiser.now) ≡ [] }
{
    matches!(initialiser, ConstExpr::Value(_))
}

// Whether all globals that are written in an item are imported or come before this place. What was in `named` is let go.
fn does_read_before(
    alloc: Global,
    parts: Parts<'_>,
    item: ItemId,
    from: usize,
    named: &mut Vec<ItemId>,
) -> Result<bool>
    requires live { IsLive (parts_view parts) (item_of item) }
    requires initialised { HasInitialiser (item_of item) }
    ensures value { IfOk result (λ b. b ≡ may_name_all (globals parts.entry.globals.now) from
        (own_written (parts_view parts.entry) (item_of item))) }
    ensures fails { IsOkUnless result out_of_memory }
{
    named.clear();
    match push_written_names(alloc, parts, item, named) {
        Ok(()) => Ok(may_be_named(parts, named.as_slice(), from)),
        Err(Error::Memory(error)) => Err(Error::Memory(error)),
        Err(_) => unreachable!(),
    }
}

// Whether each global among these items is imported or comes before this place.
fn may_be_named(parts: Parts<'_>, named: &[ItemId], from: usize) -> bool
    ensures { result ≡ may_name_all (globals parts.entry.globals.now) from (map item_of named.now) }
{
    for item in named {
        if !may_one_be_named(parts, *item, from) {
            return false;
        }
    }
    true
}

// The same of one item.
fn may_one_be_named(parts: Parts<'_>, item: ItemId, from: usize) -> bool
    ensures { result ≡ may_name (globals parts.entry.globals.now) from (item_of item) }
{
    let ItemId::Global(id) = item else {
        return true;
    };
    if !parts.globals.contains(id) {
        return true;
    }
    !is_global_own(&parts.globals.get(id).kind) || id.index() < from
}
