//! Custom sections: a raw one, one of a caller's own, and what taking them out gives.
ghost use Rattle.std.specs.Prelude.{[], codes, false};

use crate::page::Page;
use std::alloc::Global;
use walrus::{
    CodeTransform, CustomSection, IdsToIndices, ModuleCustomSections, RawCustomSection, Result,
    Roots, SectionEntry,
};

// A section `s` without bytes, which keeps nothing.
#[derive(Drop)]
struct Empty {
    alloc: Global,
}

impl CustomSection for Empty {
    ghost section_name = { λ _. codes "s" };

    ghost state = { λ _. [] };

    ghost own_roots = { λ _. [] };

    ghost may_refuse = { λ _. false };

    ghost contents = { λ _ _. [] };

    ghost state_after = { λ _ _. [] };

    fn name(&self) -> &str {
        "s"
    }

    fn data(&self, _indices: &IdsToIndices) -> Result<Vec<u8>> {
        Ok(Vec::new(self.alloc))
    }

    fn add_gc_roots(&self, _roots: &mut Roots) -> Result<()> {
        Ok(())
    }

    fn apply_code_transform(&mut self, _transform: &CodeTransform) -> Result<()> {
        Ok(())
    }
}

// A raw section `s` of the byte 7.
fn raw_section(alloc: Global) -> Result<RawCustomSection> {
    let mut data = Vec::new(alloc);
    data.push(7)?;
    Ok(RawCustomSection {
        name: String::from_str(alloc, "s")?,
        data_: data,
    })
}

// Tells how many bytes the raw section has that was taken out.
fn tell_removed(page: &mut Page, removed: Option<RawCustomSection>) -> Result<()> {
    match removed {
        Some(section) => page.number(
            "bytes of the raw section taken out by name",
            section.data_.len(),
        ),
        None => page.line("a raw section taken out by name", "none"),
    }
}

// Tells what the section is that was taken out.
fn tell_deleted(page: &mut Page, deleted: Option<SectionEntry>) -> Result<()> {
    match deleted {
        Some(SectionEntry::Boxed(section)) => page.line("a box taken out by id", section.name()),
        Some(SectionEntry::Raw(section)) => page.line(
            "a raw section taken out by id",
            &section.name,
        ),
        None => page.line("a section taken out by id", "none"),
    }
}

/// Adds a box and raw bytes under one name, takes raw ones out twice by that name, and the box twice by its id.
pub fn take_sections_out(page: &mut Page) -> Result<()> {
    let alloc = page.alloc();
    let mut customs = ModuleCustomSections::<SectionEntry>::new(alloc);
    let boxed = Box::new(alloc, Empty { alloc })?;
    let id = customs.add(SectionEntry::Boxed(boxed))?;
    customs.add(SectionEntry::Raw(raw_section(alloc)?))?;
    tell_removed(page, customs.remove_raw("s"))?;
    tell_removed(page, customs.remove_raw("s"))?;
    tell_deleted(page, customs.delete(id))?;
    tell_deleted(page, customs.delete(id))
}
