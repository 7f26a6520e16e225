//! A custom section of a module as it is kept: read and unchanged, or of a caller's own type.

ghost use Rattle.std.specs.Prelude.{◌≡◌, IfOk, OnOk, OnErr};
ghost use Rattle.walrus_items.specs.Section.{FailsAsSection};
ghost use Rattle.walrus_code.specs.Indices.{index_of};
ghost use Rattle.walrus_items.specs.Transform.{transform_of};
ghost use Rattle.walrus_items.specs.Roots.{with_roots};

use walrus_code::IdsToIndices;
use walrus_items::{CodeTransform, CustomSection, RawCustomSection, Result, Roots};

/// A custom section of a module ("Binary Format > Custom Section").
#[derive(Drop)]
pub enum SectionEntry {
    /// Kept as it was read.
    Raw(RawCustomSection),
    /// A caller's own.
    Boxed(Box<dyn CustomSection>),
}

impl SectionEntry {
    ghost use Rattle.walrus_module.specs.Following.{SameKind};
    ghost use Rattle.walrus_module.specs.Meaning.{meaning};

    /// The section's name.
    pub fn name(&self) -> &str
        ensures { result.now ≡ (meaning ⟦<dyn CustomSection as CustomSection>⟧ self.now).name }
    {
        match self {
            SectionEntry::Raw(section) => section.name.as_str(),
            SectionEntry::Boxed(section) => section.name(),
        }
    }

    /// The section's data under these indices.
    pub fn data(&self, indices: &IdsToIndices) -> Result<Vec<u8>>
        ensures value { IfOk result
            (λ bytes. bytes.items ≡ (meaning ⟦<dyn CustomSection as CustomSection>⟧ self.now).contents
            (index_of indices.now)) }
        ensures fails { FailsAsSection (meaning ⟦<dyn CustomSection as CustomSection>⟧ self.now).may_refuse
            result }
    {
        match self {
            SectionEntry::Raw(section) => section.data(indices),
            SectionEntry::Boxed(section) => section.data(indices),
        }
    }

    /// Asks to keep what the section refers to.
    pub fn add_gc_roots(&self, roots: &mut Roots) -> Result<()>
        ensures value { OnOk result
            (roots.new ≡ with_roots roots.old
            (meaning ⟦<dyn CustomSection as CustomSection>⟧ self.now).roots) }
        ensures fails { FailsAsSection (meaning ⟦<dyn CustomSection as CustomSection>⟧ self.now).may_refuse
            result }
    {
        match self {
            SectionEntry::Raw(section) => section.add_gc_roots(roots),
            SectionEntry::Boxed(section) => section.add_gc_roots(roots),
        }
    }

    /// Follows the code to its new places. What was read stays, and a caller's own stays of its type, whatever it answers.
    pub fn apply_code_transform(&mut self, transform: &CodeTransform) -> Result<()>
        ensures value { OnOk result ((meaning ⟦<dyn CustomSection as CustomSection>⟧ self.new).state
            ≡ (meaning ⟦<dyn CustomSection as CustomSection>⟧ self.old).state_after
            (transform_of transform.now)) }
        ensures same_kind { SameKind self.old self.new }
        ensures same_name { (meaning ⟦<dyn CustomSection as CustomSection>⟧ self.new).name
            ≡ (meaning ⟦<dyn CustomSection as CustomSection>⟧ self.old).name }
        ensures refused { OnErr result (meaning ⟦<dyn CustomSection as CustomSection>⟧ self.new
            ≡ meaning ⟦<dyn CustomSection as CustomSection>⟧ self.old) }
        ensures fails { FailsAsSection (meaning ⟦<dyn CustomSection as CustomSection>⟧ self.old).may_refuse
            result }
    {
        match self {
            SectionEntry::Raw(_) => Ok(()),
            SectionEntry::Boxed(section) => section.apply_code_transform(transform),
        }
    }
}
