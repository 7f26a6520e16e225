//! The items that a search enters, each once, and takes in the order of their entry.

ghost use Rattle.std.specs.Prelude.{◌≡◌, ◌≤◌, ◌≢◌, ◌^◌, AllPairs, MatchOption, vec_len};
ghost use Rattle.walrus_contents.specs.Named.{items_in};
ghost use Rattle.walrus_contents.specs.View.{lent};
ghost use Rattle.walrus.specs.LiveCount.{place_count};

use crate::passes::marks::MarkedItems;
use std::alloc::{AllocError, Global};
use walrus_contents::Parts;
use walrus_module::ItemId;

/// The items that a search entered, in the order of their entry, none of them twice, and the marks of these. As many of them as are
/// counted are taken; the others wait behind them.
#[derive(Drop)]
pub struct Worklist {
    pub(crate) marks: MarkedItems,
    pub(crate) entered: Vec<ItemId>,
    pub(crate) taken: usize,
    ghost once: { AllPairs (λ x y. x ≢ y) (items_in entered) },
    ghost counted: { taken ≤ vec_len entered },
}

impl Worklist {
    ghost use Rattle.std.specs.Prelude.{ℕ, ◌<◌, false, [], IfOk, not, vec_capacity};
    ghost use Rattle.walrus_code.specs.Code.{item_of};
    ghost use Rattle.walrus_contents.specs.View.{parts_view};
    ghost use Rattle.walrus.specs.MarkedItems.{HasPlace, has_mark};
    ghost use Rattle.walrus.specs.Worklist.{Agrees, Keeps, Notes, Takes, entered_items};

    /// No items, with a mark and room for one at each place. No later entry takes memory.
    pub(crate) fn none(alloc: Global, parts: Parts<'_>) -> Result<Worklist, AllocError>
        ensures kept { IfOk result (Keeps (parts_view parts.entry)) }
        ensures nothing { IfOk result (λ list. entered_items list ≡ []) }
        ensures room { IfOk result (λ list. vec_capacity list.entered ≡ place_count (lent parts.entry)) }
    {
        let Some(room) = places(parts) else {
            return Err(AllocError);
        };
        Ok(Worklist {
            marks: MarkedItems::none(alloc, parts)?,
            entered: Vec::with_capacity(alloc, room)?,
            taken: 0,
        })
    }

    /// Marks an item, enters it where it wasn't marked, and answers whether that is so.
    pub(crate) fn note(&mut self, item: ItemId) -> bool
        requires agrees { Agrees self.old }
        requires place { HasPlace self.old.marks (item_of item) }
        requires room { has_mark self.old.marks (item_of item) ≡ false
            → vec_len self.old.entered < vec_capacity self.old.entered }
        ensures is_new { result ≡ not (has_mark self.old.marks (item_of item)) }
        ensures noted { Notes (item_of item) self.old self.new }
    {
        let is_new = self.marks.mark(item);
        if is_new {
            self.entered.push_reserved(item);
        }
        is_new
    }

    /// Takes the first item that waits, if one does.
    pub(crate) fn take(&mut self) -> Option<ItemId>
        ensures { MatchOption result
            ((self.old.taken ≡ vec_len self.old.entered) × (self.new ≡ self.old))
            (λ item. Takes (item_of item) self.old self.new) }
    {
        if self.taken >= self.entered.len() {
            return None;
        }
        let item = self.entered[self.taken];
        self.taken += 1;
        Some(item)
    }

    /// The marks, and how many items were taken.
    pub(crate) fn marks_and_count(self) -> (MarkedItems, usize)
        ensures marks { result.0 ≡ self.marks }
        ensures count { result.1 ≡ self.taken }
    {
        let Worklist {
            marks,
            entered: _,
            taken,
        } = self;
        (marks, taken)
    }
}

// How many places the items have, those of deleted ones among them, where that fits.
fn places(parts: Parts<'_>) -> Option<usize>
    ensures { MatchOption result (2 ^ 64 ≤ place_count (lent parts.entry))
        (λ count. count ≡ place_count (lent parts.entry)) }
{
    parts
        .types
        .next_id()
        .index()
        .checked_add(parts.funcs.next_id().index())?
        .checked_add(parts.tables.next_id().index())?
        .checked_add(parts.memories.next_id().index())?
        .checked_add(parts.tags.next_id().index())?
        .checked_add(parts.globals.next_id().index())?
        .checked_add(parts.elements.next_id().index())?
        .checked_add(parts.data_.next_id().index())
}
