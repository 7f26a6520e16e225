//! The custom sections of a module, each by its id.

ghost use Rattle.std.specs.Prelude.{◌≡◌, ◌++◌, ◌∷◌, [], length, map, All, Some, None, IfOk, IsOkUnless, MatchResult, option_map, slice_set, option_and_then};
ghost use Rattle.std.specs.Option.{option_copied, option_copied_mut};
ghost use Rattle.std.specs.Borrow.{sem};
ghost use Rattle.std.specs.Iterator.{YieldsFirstBy, item_count};
ghost use Rattle.walrus_base.specs.Arena.{IsLive, item_at, entries, live_places};
ghost use Rattle.walrus_base.specs.Id.{place};
ghost use Rattle.walrus_module.specs.Entry.{names_raw, raw_in, raw_of};
ghost use Rattle.walrus_items.specs.Errors.{out_of_memory};

use crate::entry::SectionEntry;
use std::alloc::Global;
use walrus_base::{ArenaIter, CustomSectionKey, Id, TombstoneArena, UntypedCustomSectionId};
use walrus_items::{RawCustomSection, Result};

// Whether the section is a raw one of this name.
fn is_raw_named(entry: &SectionEntry, name: &str) -> bool
    ensures { result ≡ names_raw name.now entry.now }
{
    match entry {
        SectionEntry::Raw(section) => section.name.as_str() == name,
        SectionEntry::Boxed(_) => false,
    }
}

// The raw section, if one is there.
fn raw_in(entry: Option<SectionEntry>) -> Option<RawCustomSection>
    ensures { result ≡ raw_in entry }
{
    match entry? {
        SectionEntry::Raw(section) => Some(section),
        SectionEntry::Boxed(_) => None,
    }
}

/// The custom sections of a module.
#[derive(Drop)]
pub struct ModuleCustomSections<S = SectionEntry> {
    pub(crate) arena: TombstoneArena<CustomSectionKey, S>,
}

impl<S> ModuleCustomSections<S> {
    ghost use Rattle.walrus_module.specs.Customs.{sections, sections_left};
    ghost use Rattle.walrus_module.specs.LendsSection.{LendsSection};

    /// None yet.
    pub fn new(alloc: Global) -> ModuleCustomSections
        ensures { sections result ≡ [] }
    {
        ModuleCustomSections {
            arena: TombstoneArena::new(alloc),
        }
    }

    /// Adds a section behind the others. `Memory` is the only error; then nothing changes.
    pub fn add(&mut self, entry: S) -> Result<UntypedCustomSectionId>
    where
        S: Drop,
        ensures { MatchResult result
            (λ id. (place id ≡ length (sections self.old))
            × (sections self.new ≡ sections self.old ++ Some entry ∷ []))
            (λ e. (e ≡ out_of_memory) × (sections self.new ≡ sections self.old)) }
    {
        Ok(self.arena.alloc(entry)?)
    }

    /// The section of this id, if it is there.
    pub fn get(&self, id: UntypedCustomSectionId) -> Option<&S>
        ensures { option_copied result ≡ item_at (sections self.now) (place id) }
    {
        if self.arena.contains(id) {
            Some(self.arena.get(id))
        } else {
            None
        }
    }

    /// The section of this id, if it is there, for writing.
    pub fn get_mut(&mut self, id: UntypedCustomSectionId) -> Option<&mut S>
        ensures* writes_back { sem 𝓛 (LendsSection S.row self.entry (place id) result) }
        ensures value { option_copied_mut result ≡ item_at (sections self.old) (place id) }
    {
        if self.arena.contains(id) {
            Some(self.arena.get_mut(id))
        } else {
            None
        }
    }

    /// Takes the section of this id out, if it is there.
    pub fn delete(&mut self, id: UntypedCustomSectionId) -> Option<S>
        ensures value { result ≡ item_at (sections self.old) (place id) }
        ensures left { sections self.new ≡ slice_set (sections self.old) (place id) None }
    {
        if self.arena.contains(id) {
            Some(self.arena.delete(id))
        } else {
            None
        }
    }

    /// The sections with their ids, by rising id.
    pub fn iter(&self) -> SectionIter<'_, S>
        ensures { sections_left result ≡ entries (sections self.now) }
    {
        SectionIter {
            rest: self.arena.iter(),
        }
    }

    /// The ids of the sections, by rising place. Takes memory once; `Memory` is the only error.
    pub fn ids(&self, alloc: Global) -> Result<Vec<UntypedCustomSectionId>>
        ensures value { IfOk result (λ ids. map place ids.items ≡ live_places (sections self.now)) }
        ensures live { IfOk result (λ ids. All (λ id. IsLive (sections self.now) (place id)) ids.items) }
        ensures fails { IsOkUnless result out_of_memory }
    {
        Ok(self.arena.ids(alloc)?)
    }
}

impl ModuleCustomSections {
    ghost use Rattle.walrus_module.specs.Customs.{sections};
    ghost use Rattle.walrus_module.specs.Raws.{first_raw, raw_sections, without_first};

    /// These sections, kept as they were read, in their order: each gets the id of its place. `Memory` is the only error.
    pub fn keeping(alloc: Global, raws: Vec<RawCustomSection>) -> Result<ModuleCustomSections>
        ensures kept { IfOk result (λ all. sections all ≡ raw_sections raws.items) }
        ensures fails { IsOkUnless result out_of_memory }
    {
        let mut all = ModuleCustomSections::<SectionEntry>::new(alloc);
        'raws: for raw in raws {
            all.add(SectionEntry::Raw(raw))?;
        }
        Ok(all)
    }

    /// The sections that were kept as they were read, each at the place of its id. None stands where one is of a caller's own, or where none is there.
    /// Takes memory once; `Memory` is the only error.
    pub fn into_raws(self, alloc: Global) -> Result<Vec<Option<RawCustomSection>>>
        ensures taken { IfOk result (λ raws. raws.items ≡ map raw_in (sections self)) }
        ensures fails { IsOkUnless result out_of_memory }
    {
        let mut all = self;
        let places = all.arena.next_id().index();
        let mut raws = Vec::with_capacity(alloc, places)?;
        'places: for place in 0..places {
            raws.push(raw_in(all.delete(Id::at(place))))?;
        }
        Ok(raws)
    }

    /// Takes the first raw section of this name out, if there is one.
    pub fn remove_raw(&mut self, name: &str) -> Option<RawCustomSection>
        ensures value { result ≡ option_and_then (λ e. raw_of e.1) (first_raw name.now (sections self.old)) }
        ensures left { sections self.new ≡ without_first (first_raw name.now (sections self.old))
            (sections self.old) }
    {
        let id = self.first_raw_id(name)?;
        match self.arena.delete(id) {
            SectionEntry::Raw(section) => Some(section),
            SectionEntry::Boxed(_) => unreachable!(),
        }
    }

    // The id of the first raw section of this name.
    fn first_raw_id(&self, name: &str) -> Option<UntypedCustomSectionId>
        ensures { option_map (λ id. place id) result ≡ option_map (λ e. e.0)
            (first_raw name.now (sections self.now)) }
    {
        let mut rest = self.iter();
        while let Some((id, entry)) = rest.next() {
            if is_raw_named(entry, name) {
                return Some(id);
            }
        }
        None
    }
}

/// The custom sections of a module with their ids, by rising id.
#[derive(Drop)]
pub struct SectionIter<'a, S = SectionEntry> {
    rest: ArenaIter<'a, CustomSectionKey, S>,
}

impl<'a, S> Iterator for SectionIter<'a, S> {
    type Item = (UntypedCustomSectionId, &'a S);

    ghost use Rattle.walrus_module.specs.Customs.{sections_left};

    ghost next_gives = { YieldsFirstBy (λ item. (place item.0, item.1.now)) sections_left };

    ghost remaining = { item_count sections_left };

    fn next(&mut self) -> Option<(UntypedCustomSectionId, &'a S)> {
        self.rest.next()
    }
}
