//! Handing the code transform to custom sections ("Binary Format > Custom Section").
ghost use Rattle.std.specs.Prelude.{◌≡◌, OnOk, OnErr, IfErr, false, map, Some, true};
ghost use Rattle.walrus_base.specs.Arena.{item_at, items};
ghost use Rattle.walrus_base.specs.Id.{place};
ghost use Rattle.walrus_items.specs.Section.{FailsAsSection};
ghost use Rattle.walrus_items.specs.Transform.{transform_of};
ghost use Rattle.walrus_module.specs.Following.{AreRaw, EachComes, Follows, IsRaw, MayFollow, MayRefuseAt, OneComes, SameKind, Stays};
ghost use Rattle.walrus_module.specs.Meaning.{meaning};
ghost use Rattle.walrus_module.specs.Asked.{IsRefusedBy, OneAskedMayRefuse, is_in_turn};

use crate::asked::is_in_turn;
use crate::customs::ModuleCustomSections;
use crate::entry::SectionEntry;
use walrus_base::{Id, UntypedCustomSectionId};
use walrus_items::{CodeTransform, CustomSection, Result};

impl SectionEntry {
    // Follows the code to its new places, where it is handed the transform. What is kept as it was read stays.
    fn follow(&mut self, transform: &CodeTransform) -> Result<()>
        ensures followed { OnOk result (Follows (transform_of transform.now)
            (meaning ⟦<dyn CustomSection as CustomSection>⟧ self.old)
            (meaning ⟦<dyn CustomSection as CustomSection>⟧ self.new)) }
        ensures refused { OnErr result (meaning ⟦<dyn CustomSection as CustomSection>⟧ self.new
            ≡ meaning ⟦<dyn CustomSection as CustomSection>⟧ self.old) }
        ensures fails { FailsAsSection (meaning ⟦<dyn CustomSection as CustomSection>⟧ self.old).may_refuse
            result }
        ensures debug { IfErr result (λ _. is_in_turn false
            (meaning ⟦<dyn CustomSection as CustomSection>⟧ self.old).name ≡ true) }
        ensures same_kind { SameKind self.old self.new }
        ensures raw { IsRaw (Some self.old) → self.new ≡ self.old }
    {
        if !is_in_turn(self.name(), false) {
            return Ok(());
        }
        self.apply_code_transform(transform)
    }
}

impl ModuleCustomSections {
    ghost use Rattle.walrus_module.specs.Customs.{sections};

    // Whether the section of this id is a caller's own.
    fn is_boxed(&self, id: UntypedCustomSectionId) -> bool
        ensures raw { result ≡ false → IsRaw (item_at (sections self.now) (place id)) }
        ensures boxed { result ≡ true → IsRaw (item_at (sections self.now) (place id)) → ⊥ }
    {
        match self.get(id) {
            Some(SectionEntry::Boxed(_)) => true,
            Some(SectionEntry::Raw(_)) | None => false,
        }
    }

    // Has the section of this id follow the code, if one is there.
    fn follow_at(&mut self, id: UntypedCustomSectionId, transform: &CodeTransform) -> Result<()>
        ensures followed { OnOk result (OneComes ⟦<dyn CustomSection as CustomSection>⟧
            (Follows (transform_of transform.now)) (place id) (sections self.old) (sections self.new)) }
        ensures refused { OnErr result (OneComes ⟦<dyn CustomSection as CustomSection>⟧
            Stays (place id) (sections self.old) (sections self.new)) }
        ensures raw { IsRaw (item_at (sections self.old) (place id)) → self.new ≡ self.old }
        ensures fails { IfErr result (IsRefusedBy (MayRefuseAt ⟦<dyn CustomSection as CustomSection>⟧
            (item_at (sections self.old) (place id)))) }
    {
        if !self.is_boxed(id) {
            return Ok(());
        }
        match self.get_mut(id) {
            Some(entry) => entry.follow(transform),
            None => Ok(()),
        }
    }

    // Has each section follow the code, by rising id; those that did it before one refuses have followed.
    pub(crate) fn follow(&mut self, transform: &CodeTransform) -> Result<()>
        ensures followed { OnOk result (EachComes ⟦<dyn CustomSection as CustomSection>⟧
            (Follows (transform_of transform.now)) (sections self.old) (sections self.new)) }
        ensures refused { OnErr result (EachComes ⟦<dyn CustomSection as CustomSection>⟧
            (MayFollow (transform_of transform.now)) (sections self.old) (sections self.new)) }
        ensures raw { AreRaw (sections self.old) → self.new ≡ self.old }
        ensures fails { IfErr result (IsRefusedBy (OneAskedMayRefuse
            (map (meaning ⟦<dyn CustomSection as CustomSection>⟧) (items (sections self.old))))) }
    {
        for place in 0..self.arena.next_id().index() {
            self.follow_at(Id::at(place), transform)?;
        }
        Ok(())
    }
}
