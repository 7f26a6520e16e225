//! The report on a module: how many items of each index space gc keeps, and how many it drops.

ghost use Rattle.std.specs.Prelude.{◌≡◌, ◌++◌, IfOk, OnOk, false, string_bytes, true};
ghost use Rattle.walrus_base.specs.Id.{place};
ghost use Rattle.walrus_base.specs.IdSet.{has_id};
ghost use Rattle.walrus_items.specs.Held.{held};
ghost use Rattle.walrus_module.specs.View.{view};
ghost use Rattle.walrus_theorem.specs.Report.{IsReport, line};
ghost use Rattle.walrus.specs.Reported.{count_where, is_counted};
ghost use Rattle.walrus.specs.Used.{Searches};

use crate::passes::used::Used;
use std::alloc::{AllocError, Global};
use std::result;
use walrus_base::Id;
use walrus_items::{Item, Items};
use walrus_module::{CustomSection, IdHashSet, Module, Result};

// Whether an item stands at the place, and is in the set, or isn't, as asked.
fn counts<K, T: Item>(all: &Items<K, T>, kept: &IdHashSet<K>, asked: bool, place: usize) -> bool
    ensures { result ≡ is_counted (has_id kept.now) asked (held T.value all.now) place }
{
    let id = Id::at(place);
    all.contains(id) && kept.contains(id) == asked
}

// How many items are in the set, or aren't, as asked.
fn count<K, T: Item>(all: &Items<K, T>, kept: &IdHashSet<K>, asked: bool) -> usize
    ensures { result ≡ count_where (has_id kept.now) asked (held T.value all.now) }
{
    (0..all.next_id().index())
        .filter(|place| counts(all, kept, asked, *place))
        .count()
}

// The line of an index space.
#[tactic(auto, using(crate::proofs::ReportLemmas::nested))]
fn line_of(
    alloc: Global,
    word: &str,
    kept: usize,
    dropped: usize,
) -> result::Result<String, AllocError>
    ensures { IfOk result (λ text. string_bytes text ≡ line word.now kept dropped) }
{
    format!(in alloc; "{word} kept {kept} dropped {dropped}\n")
}

// Puts the line of an index space behind the text: how many of these items are in the set, and how many aren't.
fn add_line<K, T: Item>(
    alloc: Global,
    text: &mut Vec<u8>,
    word: &str,
    all: &Items<K, T>,
    kept: &IdHashSet<K>,
) -> result::Result<(), AllocError>
    ensures { OnOk result (text.new.items ≡ text.old.items ++ line word.now
        (count_where (has_id kept.now) true (held T.value all.now))
        (count_where (has_id kept.now) false (held T.value all.now))) }
{
    let line = line_of(alloc, word, count(all, kept, true), count(all, kept, false))?;
    text.extend_from_slice(line.as_bytes())
}

/// The report on the module, in seven lines: functions, tables, memories, tags, globals, element segments and data segments, each with how
/// many items gc would keep and how many it would drop, imported ones among them. Nothing is dropped.
///
/// # Errors
///
/// Those of [`Used::new`].
pub(crate) fn report_on(alloc: Global, module: &Module) -> Result<Vec<u8>>
    ensures { Searches ⟦<dyn CustomSection as CustomSection>⟧ «module».now
        (λ text. IsReport (view ⟦<dyn CustomSection as CustomSection>⟧ «module».now) text.items) result }
{
    let used = Used::new(alloc, module)?;
    let mut text = Vec::new(alloc);
    add_line(alloc, &mut text, "functions", &module.funcs, &used.funcs)?;
    add_line(alloc, &mut text, "tables", &module.tables, &used.tables)?;
    add_line(
        alloc,
        &mut text,
        "memories",
        &module.memories,
        &used.memories,
    )?;
    add_line(alloc, &mut text, "tags", &module.tags, &used.tags)?;
    add_line(alloc, &mut text, "globals", &module.globals, &used.globals)?;
    add_line(
        alloc,
        &mut text,
        "elements",
        &module.elements,
        &used.elements,
    )?;
    add_line(alloc, &mut text, "data", &module.data_, &used.data_)?;
    Ok(text)
}
