//! What the custom sections of a module are asked: for what they keep, and for their data when the module is written
//! ("Binary Format > Custom Section").

ghost use Rattle.std.specs.Prelude.{◌≡◌, ◌++◌, All, IfErr, IfOk, IsOkUnless, OnOk, map};
ghost use Rattle.wasm_frames.specs.Record.{custom_record};
ghost use Rattle.walrus_base.specs.Arena.{items};
ghost use Rattle.walrus_code.specs.Indices.{index_of};
ghost use Rattle.walrus_items.specs.Errors.{out_of_memory};
ghost use Rattle.walrus_module.specs.Asked.{is_in_turn, section_seen};

use crate::customs::ModuleCustomSections;
use crate::entry::SectionEntry;
use crate::module::Module;
use std::alloc::Global;
use walrus_code::IdsToIndices;
use walrus_items::{CustomSection, Result, Roots};
use wasm_frames::RawCustom;
use wasm_wire::{CustomGroup, is_debug};

// The data of a section: that of a raw one lent, that of a caller's own made.
#[derive(Drop)]
enum SectionData<'a> {
    Lent(&'a [u8]),
    Made(Vec<u8>),
}

// A custom section as it is written: its name, and its data.
#[derive(Drop)]
pub(crate) struct AskedSection<'a> {
    name: &'a str,
    data: SectionData<'a>,
}

impl AskedSection<'_> {
    // Its record.
    fn raw(&self) -> RawCustom<'_>
        ensures { custom_record result ≡ section_seen self.now }
    {
        let bytes = match &self.data {
            SectionData::Lent(bytes) => bytes,
            SectionData::Made(bytes) => bytes.as_slice(),
        };
        RawCustom {
            name: self.name,
            bytes,
        }
    }
}

// The records of sections.
pub(crate) fn raw_customs<'a>(
    alloc: Global,
    asked: &'a [AskedSection<'_>],
) -> Result<Vec<RawCustom<'a>>>
    ensures value { IfOk result (λ raws. map custom_record raws.items ≡ map section_seen asked.now) }
    ensures fails { IsOkUnless result out_of_memory }
{
    let mut raws = Vec::with_capacity(alloc, asked.len())?;
    for section in asked {
        raws.push(section.raw())?;
    }
    Ok(raws)
}

// Whether a section of this name is asked in this turn: those of dynamic linking in the first, all others but debug information in the
// second.
pub(crate) fn is_in_turn(name: &str, first: bool) -> bool
    ensures { result ≡ is_in_turn first name.now }
{
    if first {
        CustomGroup::Dylink.has(name)
    } else {
        !(CustomGroup::Dylink.has(name) || is_debug(name))
    }
}

impl SectionEntry {
    ghost use Rattle.walrus_module.specs.Asked.{IsText, section_under};
    ghost use Rattle.walrus_module.specs.Meaning.{meaning};
    ghost use Rattle.walrus_items.specs.Section.{FailsAsSection};

    // The section where items have these indices, its data lent where it is kept as it was read.
    fn asked(&self, indices: &IdsToIndices) -> Result<AskedSection<'_>>
        ensures text { IfOk result IsText }
        ensures value { IfOk result (λ section. section_seen section ≡ section_under (index_of indices.now)
            (meaning ⟦<dyn CustomSection as CustomSection>⟧ self.now)) }
        ensures fails { FailsAsSection (meaning ⟦<dyn CustomSection as CustomSection>⟧ self.now).may_refuse
            result }
    {
        let data = match self {
            SectionEntry::Raw(section) => SectionData::Lent(section.data_.as_slice()),
            SectionEntry::Boxed(_) => SectionData::Made(self.data(indices)?),
        };
        Ok(AskedSection {
            name: self.name(),
            data,
        })
    }
}

impl ModuleCustomSections {
    ghost use Rattle.std.specs.Str.{IsUtf8};
    ghost use Rattle.walrus_module.specs.Asked.{IsRefusedBy, IsText, OneAskedMayRefuse, OneMayRefuse, all_asked, asked_first, in_turn, section_under};
    ghost use Rattle.walrus_module.specs.Customs.{sections};
    ghost use Rattle.walrus_module.specs.View.{meant};
    ghost use Rattle.walrus_module.specs.Meaning.{Meaning, meaning};
    ghost use Rattle.walrus_items.specs.Roots.{with_roots};
    ghost use Rattle.std.specs.Prelude.{flat_map};

    // Asks the sections of this turn, by their ids, for their data where items have these indices.
    fn ask_in_turn<'a>(
        &'a self,
        first: bool,
        indices: &IdsToIndices,
        asked: &mut Vec<AskedSection<'a>>,
    ) -> Result<()>
        ensures asked { OnOk result (map section_seen asked.new.items ≡ map section_seen asked.old.items
            ++ map (section_under (index_of indices.now)) (in_turn first
            (map (meaning ⟦<dyn CustomSection as CustomSection>⟧) (items (sections self.now))))) }
        ensures texts { OnOk result (All IsText asked.old.items → All IsText asked.new.items) }
        ensures fails { IfErr result (IsRefusedBy (OneAskedMayRefuse
            (map (meaning ⟦<dyn CustomSection as CustomSection>⟧) (items (sections self.now))))) }
    {
        let mut rest = self.iter();
        while let Some((_, entry)) = rest.next() {
            if is_in_turn(entry.name(), first) {
                asked.push(entry.asked(indices)?)?;
            }
        }
        Ok(())
    }

    // The custom sections as they are written where items have these indices: those of dynamic linking, under no indices, then all others
    // but debug information. Refused for want of memory, or where one that is asked may refuse.
    pub(crate) fn asked(
        &self,
        alloc: Global,
        indices: &IdsToIndices,
    ) -> Result<Vec<AskedSection<'_>>>
        ensures value { IfOk result (λ all. map section_seen all.items
            ≡ all_asked (index_of indices.now) (meant ⟦<dyn CustomSection as CustomSection>⟧ self.now)) }
        ensures texts { IfOk result (λ all. All IsText all.items) }
        ensures fails { IfErr result (IsRefusedBy (OneAskedMayRefuse
            (meant ⟦<dyn CustomSection as CustomSection>⟧ self.now))) }
    {
        let none = IdsToIndices::new(alloc);
        let mut asked = Vec::new(alloc);
        self.ask_in_turn(true, &none, &mut asked)?;
        self.ask_in_turn(false, indices, &mut asked)?;
        Ok(asked)
    }

    // Those of dynamic linking alone.
    pub(crate) fn asked_first(&self, alloc: Global) -> Result<Vec<AskedSection<'_>>>
        ensures value { IfOk result (λ all. map section_seen all.items
            ≡ asked_first (meant ⟦<dyn CustomSection as CustomSection>⟧ self.now)) }
        ensures fails { IfErr result (IsRefusedBy (OneAskedMayRefuse
            (meant ⟦<dyn CustomSection as CustomSection>⟧ self.now))) }
    {
        let none = IdsToIndices::new(alloc);
        let mut dylinks = Vec::new(alloc);
        self.ask_in_turn(true, &none, &mut dylinks)?;
        Ok(dylinks)
    }

    // All names are texts.
    pub(crate) fn names_are_texts(&self)
        ensures { All (λ (s : Meaning). IsUtf8 s.name)
            (meant ⟦<dyn CustomSection as CustomSection>⟧ self.now) }
    {
        let mut rest = self.iter();
        while let Some((_, entry)) = rest.next() {
            let _name = entry.name();
        }
    }

    // Asks all sections, by their ids, for what they keep.
    fn push_roots(&self, roots: &mut Roots) -> Result<()>
        ensures kept { OnOk result (roots.new ≡ with_roots roots.old
            (flat_map (λ (s : Meaning). s.roots)
            (map (meaning ⟦<dyn CustomSection as CustomSection>⟧) (items (sections self.now))))) }
        ensures fails { IfErr result (IsRefusedBy (OneMayRefuse
            (map (meaning ⟦<dyn CustomSection as CustomSection>⟧) (items (sections self.now))))) }
    {
        let mut rest = self.iter();
        while let Some((_, entry)) = rest.next() {
            entry.add_gc_roots(roots)?;
        }
        Ok(())
    }
}

impl Module {
    ghost use Rattle.std.specs.Prelude.{flat_map};
    ghost use Rattle.walrus_module.specs.Asked.{IsRefusedBy, OneMayRefuse};
    ghost use Rattle.walrus_module.specs.Meaning.{Meaning};
    ghost use Rattle.walrus_module.specs.View.{meanings};
    ghost use Rattle.walrus_items.specs.Roots.{no_roots, with_roots};

    /// The items that the module's custom sections ask to keep, section by section in the order of their ids.
    ///
    /// # Errors
    ///
    /// `Memory`, and what a section of a caller's own answers: `Caller`, where one may refuse.
    pub fn section_roots(&self, alloc: Global) -> Result<Roots>
        ensures value { IfOk result (λ roots. roots ≡ with_roots no_roots (flat_map (λ (s : Meaning). s.roots)
            (meanings ⟦<dyn CustomSection as CustomSection>⟧ self.now))) }
        ensures fails { IfErr result (IsRefusedBy (OneMayRefuse
            (meanings ⟦<dyn CustomSection as CustomSection>⟧ self.now))) }
    {
        let mut roots = Roots::new(alloc);
        self.customs.push_roots(&mut roots)?;
        Ok(roots)
    }
}
