//! Why an item stays: a chain of references that leads to it from a root.

ghost use Rattle.std.specs.Prelude.{◌≡◌, ◌<◌, ◌++◌, [], ◌∷◌, ◌-◌, ◌+◌, IfOk, MatchResult, OnOk, map, option_map, position, replicate, vec_len};
ghost use Rattle.walrus_code.specs.Code.{item_of};
ghost use Rattle.walrus_contents.specs.Named.{items_in};
ghost use Rattle.walrus_contents.specs.There.{IsRefusal};
ghost use Rattle.walrus_contents.specs.View.{parts_view};
ghost use Rattle.walrus_model.specs.Live.{IsLive};
ghost use Rattle.walrus_model.specs.Roots.{IsRoot};
ghost use Rattle.walrus_module.specs.View.{view};
ghost use Rattle.walrus_items.specs.Items.{is_item};
ghost use Rattle.walrus.specs.Asked.{searched_view};
ghost use Rattle.walrus.specs.Marked.{ReachesUnsound};
ghost use Rattle.walrus.specs.Traced.{IsTraced, LeadsBack, Names, PointsBack, Traces};
ghost use Rattle.walrus.specs.Used.{Follows, NamesDead, Searches};
ghost use Rattle.walrus.specs.Why.{Explains};
ghost use Rattle.walrus.specs.Worklist.{Keeps, entered_items};

use crate::passes::asked::push_asked;
use crate::passes::used::{Searched, note_group};
use crate::passes::worklist::Worklist;
use std::alloc::{AllocError, Global};
use std::result;
use walrus_contents::{Parts, is_live, push_item_names, push_root_names};
use walrus_module::{CustomSection, Error, ItemId, Module, Result};

/// A chain of references that leads to the item: a root of the module first, each item refers to the next, and the item is the last.
/// `None` where no root reaches the item; so also for the memory that stays with data though nothing reaches it.
///
/// # Errors
///
/// Those of [`Used::new`](crate::passes::used::Used::new).
pub fn chain_to(alloc: Global, module: &Module, item: ItemId) -> Result<Option<Vec<ItemId>>>
    ensures { Searches ⟦<dyn CustomSection as CustomSection>⟧ «module».now (λ chain.
        Explains (view ⟦<dyn CustomSection as CustomSection>⟧ «module».now)
        (item_of item) (option_map items_in chain)) result }
{
    let asked = module.section_roots(alloc)?;
    chain_in(
        alloc,
        Searched {
            parts: module.parts(),
            asked: &asked,
        },
        item,
    )
}

// The items that a search entered, and for each of them, in the same order, the place of the one that named it; a root has its own.
#[derive(Drop)]
struct Traced {
    list: Worklist,
    namers: Vec<usize>,
}

// What `chain_to` answers, over the parts of a module and what is asked to be kept.
fn chain_in(alloc: Global, searched: Searched<'_>, item: ItemId) -> Result<Option<Vec<ItemId>>>
    ensures { MatchResult result
        (λ chain. Explains (searched_view searched.entry) (item_of item) (option_map items_in chain))
        (IsRefusal (ReachesUnsound (searched_view searched.entry))) }
{
    let traced = trace(alloc, searched)?;
    match place_of(traced.list.entered.as_slice(), item) {
        Some(place) => Ok(Some(chain_back(alloc, &traced, place)?)),
        None => Ok(None),
    }
}

// All that the roots reach, and who named it.
fn trace(alloc: Global, searched: Searched<'_>) -> Result<Traced>
    ensures { MatchResult result (IsTraced (searched_view searched.entry))
        (IsRefusal (ReachesUnsound (searched_view searched.entry))) }
{
    let mut roots = Vec::new(alloc);
    push_root_names(searched.parts, &mut roots)?;
    push_asked(searched.asked, &mut roots)?;
    let mut traced = Traced {
        list: Worklist::none(alloc, searched.parts)?,
        namers: Vec::new(alloc),
    };
    enter_all(searched.parts, roots.as_slice(), None, &mut traced)?;
    follow(alloc, searched, &mut traced)?;
    Ok(traced)
}

// Takes each item entered, and enters what it names, as named by it.
fn follow(alloc: Global, searched: Searched<'_>, traced: &mut Traced) -> Result<()>
    requires start { traced.old.list.taken ≡ 0 }
    requires follows { Follows (searched_view searched) traced.old.list }
    requires traces { Traces (IsRoot (searched_view searched)) (searched_view searched)
        (entered_items traced.old.list) traced.old.namers.items }
    ensures { MatchResult result (λ _. IsTraced (searched_view searched.entry) traced.new)
        (IsRefusal (ReachesUnsound (searched_view searched.entry))) }
{
    let mut named = Vec::new(alloc);
    for turn in 0..usize::MAX {
        let Some(item) = traced.list.take() else {
            break;
        };
        named.clear();
        push_item_names(alloc, searched.parts, item, &mut named)?;
        enter_all(searched.parts, named.as_slice(), Some(turn), traced)?;
    }
    Ok(())
}

// Enters live items, a type with its whole group, but for those that were entered: as named by the item at this place, or as roots.
fn enter_all(
    parts: Parts<'_>,
    items: &[ItemId],
    by: Option<usize>,
    traced: &mut Traced,
) -> Result<()>
    requires { Keeps (parts_view parts) traced.old.list }
    ensures { MatchResult result
        (λ _. Names (parts_view parts.entry) by (map item_of items.now) traced.old traced.new)
        (IsRefusal (NamesDead (parts_view parts.entry) (map item_of items.now))) }
{
    for item in items {
        enter(parts, *item, by, traced)?;
    }
    Ok(())
}

// The same for one item. The members of its group are named by it.
fn enter(parts: Parts<'_>, item: ItemId, by: Option<usize>, traced: &mut Traced) -> Result<()>
    requires { Keeps (parts_view parts) traced.old.list }
    ensures { MatchResult result
        (λ _. Names (parts_view parts.entry) by (item_of item ∷ []) traced.old traced.new)
        (IsRefusal (IsLive (parts_view parts.entry) (item_of item) → ⊥)) }
{
    parts.types.groups_are_whole();
    if !is_live(parts, item) {
        return Err(Error::DeadItem);
    }
    let place = traced.list.entered.len();
    if traced.list.note(item) {
        note_group(parts, item, &mut traced.list);
        let entered = traced.list.entered.len();
        push_places(&mut traced.namers, by.unwrap_or(place), place, entered)?;
    }
    Ok(())
}

// Puts the place of who named an item behind the others, and then the item's own place for each member of its group, so that there are so
// many.
fn push_places(
    places: &mut Vec<usize>,
    namer: usize,
    own: usize,
    many: usize,
) -> result::Result<(), AllocError>
    requires { own < many }
    ensures { OnOk result (places.new.items ≡ places.old.items
        ++ namer ∷ replicate (many - (own + 1)) own) }
{
    places.push(namer)?;
    for _member in own + 1..many {
        places.push(own)?;
    }
    Ok(())
}

// The first place at which the item stands.
fn place_of(items: &[ItemId], item: ItemId) -> Option<usize>
    ensures { result ≡ position (λ id. is_item (item_of id) (item_of item)) items.now }
{
    items.iter().position(|entered| is_same(*entered, item))
}

// Whether both are the same item.
fn is_same(one: ItemId, other: ItemId) -> bool
    ensures { result ≡ is_item (item_of one) (item_of other) }
{
    match (one, other) {
        (ItemId::Type(a), ItemId::Type(b)) => a == b,
        (ItemId::Function(a), ItemId::Function(b)) => a == b,
        (ItemId::Table(a), ItemId::Table(b)) => a == b,
        (ItemId::Memory(a), ItemId::Memory(b)) => a == b,
        (ItemId::Tag(a), ItemId::Tag(b)) => a == b,
        (ItemId::Global(a), ItemId::Global(b)) => a == b,
        (ItemId::Element(a), ItemId::Element(b)) => a == b,
        (ItemId::Data(a), ItemId::Data(b)) => a == b,
        _ => false,
    }
}

// The items from a root to the one at this place, each named by the one before it.
fn chain_back(
    alloc: Global,
    traced: &Traced,
    place: usize,
) -> result::Result<Vec<ItemId>, AllocError>
    requires points { PointsBack traced.now.namers.items }
    requires counted { vec_len traced.now.namers ≡ vec_len traced.now.list.entered }
    requires there { place < vec_len traced.now.list.entered }
    ensures { IfOk result (LeadsBack traced.now place) }
{
    let mut chain = Vec::new(alloc);
    let mut at = place;
    chain.push(traced.list.entered[at])?;
    'back: while traced.namers[at] != at {
        at = traced.namers[at];
        chain.push(traced.list.entered[at])?;
    }
    chain.reverse();
    Ok(chain)
}
