//! What a module uses: all that its roots reach.

ghost use Rattle.std.specs.Prelude.{ℕ, ◌≡◌, ◌↔◌, ◌⊎◌, [], ◌∷◌, true, IfOk, IsTrue, MatchResult, map};
ghost use Rattle.walrus_base.specs.Id.{place};
ghost use Rattle.walrus_base.specs.IdSet.{has_id};
ghost use Rattle.walrus_base.specs.Marks.{is_marked};
ghost use Rattle.walrus_code.specs.Code.{item_of};
ghost use Rattle.walrus_model.specs.Live.{IsLive};
ghost use Rattle.walrus_module.specs.View.{view};
ghost use Rattle.walrus_base.specs.Operators.{Types};
ghost use Rattle.walrus_contents.specs.Named.{NamesItself, export_names, group_names};
ghost use Rattle.walrus_contents.specs.There.{IsRefusal, IsSound};
ghost use Rattle.walrus_contents.specs.View.{parts_view};
ghost use Rattle.walrus.specs.Asked.{searched_view};
ghost use Rattle.walrus.specs.Marked.{Finds, HoldsMarked, MarksFirst, MarksSpare, ReachesUnsound};
ghost use Rattle.walrus.specs.MarkedItems.{HavePlaces};
ghost use Rattle.walrus.specs.Used.{Enters, FindsCounted, FindsMarks, FindsUsed, Searches, EntersAll, Found, Follows, IsDead, NamesDead, NotesAll, OneDead};
ghost use Rattle.walrus.specs.Worklist.{Keeps};

use crate::passes::asked::push_asked;
use crate::passes::marks::MarkedItems;
use crate::passes::worklist::Worklist;
use std::alloc::{AllocError, Global};
use std::result;
use walrus_base::Marks;
use walrus_contents::{Parts, is_live, push_item_names, push_other_roots};
use walrus_module::{
    CustomSection, DataKey, ElementKey, Error, FunctionKey, GlobalKey, IdHashSet, ItemId,
    MemoryKey, Module, Result, Roots, TableKey, TagKey, TypeId, TypeKey,
};

/// The items that the roots of a module reach, by kind. Its roots are its exports, its start function, its active segments of data and of
/// elements, its declared ones, and what its custom sections ask to keep.
#[derive(Drop)]
pub struct Used {
    /// The tables.
    pub tables: IdHashSet<TableKey>,
    /// The types.
    pub types: IdHashSet<TypeKey>,
    /// The functions.
    pub funcs: IdHashSet<FunctionKey>,
    /// The globals.
    pub globals: IdHashSet<GlobalKey>,
    /// The memories.
    pub memories: IdHashSet<MemoryKey>,
    /// The tags.
    pub tags: IdHashSet<TagKey>,
    /// The element segments.
    pub elements: IdHashSet<ElementKey>,
    /// The data segments.
    pub data_: IdHashSet<DataKey>,
}

impl Used {
    /// What the module's roots reach, and the memory that stays with data.
    ///
    /// # Errors
    ///
    /// `DeadItem` where an item reached isn't live, where a function reached is uninitialised or uses a local that isn't there. What a custom
    /// section of a caller's own refuses with: `Caller`, where one may refuse. And `Memory`.
    pub fn new(alloc: Global, module: &Module) -> Result<Used>
        ensures { Searches ⟦<dyn CustomSection as CustomSection>⟧ «module».now
            (FindsUsed ⟦<dyn CustomSection as CustomSection>⟧ «module».now) result }
    {
        let marks = marked(alloc, module)?;
        Ok(Used::of(alloc, &marks)?)
    }

    /// The same as [`Used::new`], with the number of items that the roots reach. The memory that stays with data, and that they
    /// don't reach, is in the set of its kind and isn't counted.
    ///
    /// # Errors
    ///
    /// Those of [`Used::new`].
    pub fn counted(alloc: Global, module: &Module) -> Result<(Used, usize)>
        ensures { Searches ⟦<dyn CustomSection as CustomSection>⟧ «module».now
            (FindsCounted ⟦<dyn CustomSection as CustomSection>⟧ «module».now) result }
    {
        let (marks, count) = marked_and_counted(alloc, module)?;
        Ok((Used::of(alloc, &marks)?, count))
    }

    // The sets of what is marked.
    fn of(alloc: Global, marks: &MarkedItems) -> result::Result<Used, AllocError>
        ensures { IfOk result (HoldsMarked marks.now) }
    {
        Ok(Used {
            tables: ids_of(alloc, &marks.tables)?,
            types: ids_of(alloc, &marks.types)?,
            funcs: ids_of(alloc, &marks.funcs)?,
            globals: ids_of(alloc, &marks.globals)?,
            memories: ids_of(alloc, &marks.memories)?,
            tags: ids_of(alloc, &marks.tags)?,
            elements: ids_of(alloc, &marks.elements)?,
            data_: ids_of(alloc, &marks.data_)?,
        })
    }
}

// The ids of what is marked, put in by rising place.
fn ids_of<K>(alloc: Global, marks: &Marks<K>) -> result::Result<IdHashSet<K>, AllocError>
    ensures { IfOk result (λ ids. (p : ℕ) → has_id ids p ≡ is_marked marks.now p) }
{
    let mut ids = IdHashSet::new(alloc);
    'ids: for id in marks.iter() {
        ids.insert(id)?;
    }
    Ok(ids)
}

// The items that a module's roots reach, and the memory that stays with data, marked. Refused as [`Used::new`] is.
pub(crate) fn marked(alloc: Global, module: &Module) -> Result<MarkedItems>
    ensures { Searches ⟦<dyn CustomSection as CustomSection>⟧ «module».now
        (FindsMarks ⟦<dyn CustomSection as CustomSection>⟧ «module».now) result }
{
    let (marks, _count) = marked_and_counted(alloc, module)?;
    Ok(marks)
}

// The same, with the number of items that the roots reach.
fn marked_and_counted(alloc: Global, module: &Module) -> Result<(MarkedItems, usize)>
    ensures { Searches ⟦<dyn CustomSection as CustomSection>⟧ «module».now
        (λ found. Finds (view ⟦<dyn CustomSection as CustomSection>⟧ «module».now) found.0 found.1) result }
{
    let asked = module.section_roots(alloc)?;
    search(
        alloc,
        Searched {
            parts: module.parts(),
            asked: &asked,
        },
    )
}

// What is searched: the parts of a module, and what its custom sections ask to keep.
#[derive(Clone, Copy)]
pub(crate) struct Searched<'a> {
    pub(crate) parts: Parts<'a>,
    pub(crate) asked: &'a Roots,
}

// The same over the parts of a module and what is asked to be kept. Refused with `DeadItem` as [`Used::new`] is, and with `Memory`.
fn search(alloc: Global, searched: Searched<'_>) -> Result<(MarkedItems, usize)>
    ensures { MatchResult result (λ found. Finds (searched_view searched.entry) found.0 found.1)
        (IsRefusal (ReachesUnsound (searched_view searched.entry))) }
{
    let (mut marks, count) = reached(alloc, searched)?.marks_and_count();
    mark_spare_memory(searched.parts, &mut marks);
    Ok((marks, count))
}

// Marks the first memory where a data segment is marked and no memory is. What that memory keeps isn't followed.
fn mark_spare_memory(parts: Parts<'_>, marks: &mut MarkedItems)
    requires { HavePlaces (parts_view parts) marks.old }
    ensures { MarksSpare (parts_view parts.entry) marks.old marks.new }
{
    if has_marks(&marks.data_) && !has_marks(&marks.memories) {
        mark_first_memory(parts, marks);
    }
}

// Whether any item is marked.
fn has_marks<K>(marks: &Marks<K>) -> bool
    ensures { IsTrue result ↔ ((p : ℕ) × (is_marked marks.now p ≡ true)) }
{
    marks.iter().next().is_some()
}

// Marks the first memory, if there is one.
fn mark_first_memory(parts: Parts<'_>, marks: &mut MarkedItems)
    requires { HavePlaces (parts_view parts) marks.old }
    ensures { MarksFirst (parts_view parts.entry) marks.old marks.new }
{
    if let Some((id, _memory)) = parts.memories.iter_entries().next() {
        marks.mark(ItemId::Memory(id));
    }
}

// The items that the roots reach, all of them taken. Refused as [`search`] is.
fn reached(alloc: Global, searched: Searched<'_>) -> Result<Worklist>
    ensures { MatchResult result (λ list. Found (searched_view searched.entry) list.marks list.taken)
        (IsRefusal (ReachesUnsound (searched_view searched.entry))) }
{
    let mut list = Worklist::none(alloc, searched.parts)?;
    enter_exports(searched.parts, &mut list)?;
    let mut roots = Vec::new(alloc);
    push_other_roots(searched.parts, &mut roots)?;
    push_asked(searched.asked, &mut roots)?;
    enter_all(searched.parts, roots.as_slice(), &mut list)?;
    follow(alloc, searched, &mut list)?;
    Ok(list)
}

// Enters what exports name, but for what was entered. Takes no memory.
fn enter_exports(parts: Parts<'_>, list: &mut Worklist) -> Result<()>
    requires { Keeps (parts_view parts) list.old }
    ensures { MatchResult result
        (λ _. Enters (parts_view parts.entry) (export_names parts.entry.exports.now) list.old list.new)
        (IsDead (NamesDead (parts_view parts.entry) (export_names parts.entry.exports.now))) }
{
    for export in parts.exports.iter() {
        enter(parts, export.item.item_id(), list)?;
    }
    Ok(())
}

// Takes each item entered, and enters what it names.
fn follow(alloc: Global, searched: Searched<'_>, list: &mut Worklist) -> Result<()>
    requires start { list.old.taken ≡ 0 }
    requires follows { Follows (searched_view searched) list.old }
    ensures { MatchResult result (λ _. Found (searched_view searched.entry) list.new.marks list.new.taken)
        (IsRefusal (ReachesUnsound (searched_view searched.entry))) }
{
    let mut named = Vec::new(alloc);
    for _turn in 0..usize::MAX {
        let Some(item) = list.take() else {
            break;
        };
        follow_item(alloc, searched.parts, item, &mut named, list)?;
    }
    Ok(())
}

// Enters all that a live item names itself. What was in `named` is let go.
fn follow_item(
    alloc: Global,
    parts: Parts<'_>,
    item: ItemId,
    named: &mut Vec<ItemId>,
    list: &mut Worklist,
) -> Result<()>
    requires live { IsLive (parts_view parts) (item_of item) }
    requires kept { Keeps (parts_view parts) list.old }
    ensures { MatchResult result
        (λ _. IsSound (parts_view parts.entry) (item_of item) × EntersAll (parts_view parts.entry)
        (NamesItself (parts_view parts.entry) (item_of item)) list.old list.new)
        (IsRefusal ((IsSound (parts_view parts.entry) (item_of item) → ⊥)
        ⊎ OneDead (parts_view parts.entry) (NamesItself (parts_view parts.entry) (item_of item)))) }
{
    named.clear();
    push_item_names(alloc, parts, item, named)?;
    enter_all(parts, named.as_slice(), list)
}

// Enters live items, a type with its whole group, but for those that were entered. Takes no memory.
fn enter_all(parts: Parts<'_>, items: &[ItemId], list: &mut Worklist) -> Result<()>
    requires { Keeps (parts_view parts) list.old }
    ensures { MatchResult result
        (λ _. Enters (parts_view parts.entry) (map item_of items.now) list.old list.new)
        (IsDead (NamesDead (parts_view parts.entry) (map item_of items.now))) }
{
    for item in items {
        enter(parts, *item, list)?;
    }
    Ok(())
}

// The same for one item.
fn enter(parts: Parts<'_>, item: ItemId, list: &mut Worklist) -> Result<()>
    requires { Keeps (parts_view parts) list.old }
    ensures { MatchResult result
        (λ _. Enters (parts_view parts.entry) (item_of item ∷ []) list.old list.new)
        (IsDead (IsLive (parts_view parts.entry) (item_of item) → ⊥)) }
{
    parts.types.groups_are_whole();
    if list.marks.is_marked(item) {
        return Ok(());
    }
    if !is_live(parts, item) {
        return Err(Error::DeadItem);
    }
    if list.note(item) {
        note_group(parts, item, list);
    }
    Ok(())
}

// Enters the members of a live type's group, but for those that were entered. No other item has a group.
pub(crate) fn note_group(parts: Parts<'_>, item: ItemId, list: &mut Worklist)
    requires live { IsLive (parts_view parts) (item_of item) }
    requires kept { Keeps (parts_view parts) list.old }
    ensures { NotesAll (parts_view parts.entry) (group_names (parts_view parts.entry) (item_of item))
        list.old list.new }
{
    match item {
        ItemId::Type(id) => note_members(parts, id, list),
        ItemId::Function(_)
        | ItemId::Table(_)
        | ItemId::Memory(_)
        | ItemId::Tag(_)
        | ItemId::Global(_)
        | ItemId::Element(_)
        | ItemId::Data(_) => {}
    }
}

// The same for a live type.
fn note_members(parts: Parts<'_>, id: TypeId, list: &mut Worklist)
    requires live { IsLive (parts_view parts) (Types, place id) }
    requires kept { Keeps (parts_view parts) list.old }
    ensures { NotesAll (parts_view parts.entry) (group_names (parts_view parts.entry) (Types, place id))
        list.old list.new }
{
    parts.types.groups_are_whole();
    'members: for member in parts.types.group(id) {
        list.note(ItemId::Type(member));
    }
}
