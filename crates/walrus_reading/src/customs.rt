//! The custom sections of a module that are kept as they were read ("Binary Format > Modules > Custom Section").
ghost use Rattle.std.specs.Prelude.{◌≡◌, map, not, IfOk, IsOkUnless};
ghost use Rattle.wasm_frames.specs.Record.{custom_record};
ghost use Rattle.walrus_model.specs.Sections.{is_apart};
ghost use Rattle.walrus_items.specs.Errors.{out_of_memory};
ghost use Rattle.walrus_reading.specs.Customs.{kept_customs, section_seen};

use std::alloc::Global;
use walrus_items::{RawCustomSection, Result};
use wasm_frames::RawCustom;
use wasm_wire::{CustomGroup, is_debug};

// Whether a section of this name is kept as it was read: one of names, producers or debug information isn't.
fn is_kept(name: &str) -> bool
    ensures { result ≡ not (is_apart name.now) }
{
    !(CustomGroup::Names.has(name) || (CustomGroup::Producers.has(name) || is_debug(name)))
}

// The section, with a name and bytes of its own.
fn raw_section(alloc: Global, custom: &RawCustom<'_>) -> Result<RawCustomSection>
    ensures value { IfOk result (λ made. section_seen made ≡ custom_record custom.now) }
    ensures fails { IsOkUnless result out_of_memory }
{
    Ok(RawCustomSection {
        name: String::from_str(alloc, custom.name)?,
        data_: custom.bytes.to_vec(alloc)?,
    })
}

/// Those of these sections that are kept as they were read, in their order: all but names, producers and debug information. Want of
/// memory is the only refusal.
pub(crate) fn keep_sections(
    alloc: Global,
    customs: &[RawCustom<'_>],
) -> Result<Vec<RawCustomSection>>
    ensures kept { IfOk result
        (λ made. map section_seen made.items ≡ kept_customs (map custom_record customs.now)) }
    ensures fails { IsOkUnless result out_of_memory }
{
    let mut made = Vec::new(alloc);
    'sections: for custom in customs {
        if is_kept(custom.name) {
            made.push(raw_section(alloc, custom)?)?;
        }
    }
    Ok(made)
}
