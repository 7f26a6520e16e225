//! The bytes of a module's parts with custom sections of its own, which follow the code before, where that is asked for.
ghost use Rattle.std.specs.Prelude.{IfErr, IfOk, Err, true};
ghost use Rattle.walrus_code.specs.Indices.{index_of};
ghost use Rattle.walrus_contents.specs.View.{parts_view};
ghost use Rattle.walrus_model.specs.Dead.{HasDead};
ghost use Rattle.walrus_model.specs.Declared.{NothingUndeclared};
ghost use Rattle.walrus_module.specs.Asked.{OneAskedMayRefuse, asked_first};
ghost use Rattle.walrus_module.specs.Flags.{choices_of, config_of, flags_of};
ghost use Rattle.walrus_module.specs.View.{meant, with_sections};
ghost use Rattle.walrus_module.specs.Written.{FollowsCode, WritesParts, WritesSections};
ghost use Rattle.walrus_plan.specs.Prepared.{IsPrepared};
ghost use Rattle.walrus_theorem.specs.Refused.{RefusesToWrite};
ghost use Rattle.walrus_writing.specs.Emitted.{refusal_of};
ghost use Rattle.walrus_writing.specs.Transform.{TellsTransform};

use crate::asked::raw_customs;
use crate::customs::ModuleCustomSections;
use crate::switches::Switches;
use std::alloc::Global;
use walrus_contents::Parts;
use walrus_items::{CodeTransform, CustomSection, Result};
use walrus_plan::{Prepared, prepare};
use walrus_writing::{code_transform, write_prepared};

impl ModuleCustomSections {
    // Where the code comes to stand in the bytes of these parts with these sections.
    fn transform(
        &self,
        alloc: Global,
        parts: Parts<'_>,
        prepared: &Prepared,
        switches: Switches,
    ) -> Result<CodeTransform>
        requires there { HasDead (parts_view parts) → ⊥ }
        requires declared { NothingUndeclared (parts_view parts) }
        requires planned { IsPrepared parts prepared.now }
        ensures told { IfOk result (TellsTransform parts.entry
            (choices_of (config_of (flags_of switches))) (index_of prepared.now.indices)
            (asked_first (meant ⟦<dyn CustomSection as CustomSection>⟧ self.now)) true) }
        ensures refused { IfErr result (λ e. RefusesToWrite {X = Unit {0}}
            (OneAskedMayRefuse (meant ⟦<dyn CustomSection as CustomSection>⟧ self.now))
            (config_of (flags_of switches))
            (with_sections (parts_view parts.entry)
            (meant ⟦<dyn CustomSection as CustomSection>⟧ self.now)) (Err (refusal_of e))) }
    {
        self.names_are_texts();
        let asked = self.asked_first(alloc)?;
        let dylinks = raw_customs(alloc, asked.as_slice())?;
        code_transform(
            alloc,
            parts,
            prepared,
            dylinks.as_slice(),
            &switches.choices(),
        )
    }

    // The bytes of these parts with these sections, and where the code stands in them, where that is asked for.
    fn written(
        &self,
        alloc: Global,
        parts: Parts<'_>,
        prepared: Prepared,
        switches: Switches,
        tells: bool,
    ) -> Result<(Vec<u8>, CodeTransform)>
        requires there { HasDead (parts_view parts) → ⊥ }
        requires declared { NothingUndeclared (parts_view parts) }
        requires planned { IsPrepared parts prepared }
        ensures { WritesSections ⟦<dyn CustomSection as CustomSection>⟧ (flags_of switches) parts.entry
            (index_of prepared.indices) tells self.now result }
    {
        let asked = self.asked(alloc, &prepared.indices)?;
        let customs = raw_customs(alloc, asked.as_slice())?;
        write_prepared(
            alloc,
            parts,
            prepared,
            customs.as_slice(),
            &switches.choices(),
            tells,
        )
    }

    // Where the code comes to stand, behind which these sections have followed it.
    fn followed(
        &mut self,
        alloc: Global,
        parts: Parts<'_>,
        prepared: &Prepared,
        switches: Switches,
    ) -> Result<CodeTransform>
        requires there { HasDead (parts_view parts) → ⊥ }
        requires declared { NothingUndeclared (parts_view parts) }
        requires planned { IsPrepared parts prepared.now }
        ensures { FollowsCode ⟦<dyn CustomSection as CustomSection>⟧ (flags_of switches) parts.entry
            (index_of prepared.now.indices) self.old self.new result }
    {
        let transform = self.transform(alloc, parts, prepared, switches)?;
        self.follow(&transform)?;
        Ok(transform)
    }
}

// The bytes of parts in which nothing dead is named and nothing is undeclared, with these sections, and where the code stands in them, where that
// is asked for or these sections are to follow it. Under that flag each section is handed the transform before it is asked for its data, but those
// of dynamic linking and debug information; so it is told before the bytes are written. Else it is told of the records that are written.
pub(crate) fn write_parts(
    alloc: Global,
    parts: Parts<'_>,
    customs: &mut ModuleCustomSections,
    switches: Switches,
    tells: bool,
) -> Result<(Vec<u8>, CodeTransform)>
    requires there { HasDead (parts_view parts) → ⊥ }
    requires declared { NothingUndeclared (parts_view parts) }
    ensures { WritesParts ⟦<dyn CustomSection as CustomSection>⟧ (flags_of switches) parts.entry tells
        customs.old customs.new result }
{
    let prepared = prepare(alloc, parts)?;
    if !switches.preserve_code_transform {
        return customs.written(alloc, parts, prepared, switches, tells);
    }
    let transform = customs.followed(alloc, parts, &prepared, switches)?;
    let (bytes, untold) = customs.written(alloc, parts, prepared, switches, false)?;
    drop(untold);
    Ok((bytes, transform))
}
