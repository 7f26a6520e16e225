//! Custom sections that come, are written anew and go. They lie beside the module while it is edited.

ghost use Rattle.std.specs.Prelude.{◌≡◌, ◌↔◌, None, IfOk, IsOkUnless, IsTrue, MatchResult, option_map};
ghost use Rattle.walrus_base.specs.Arena.{IsLive};
ghost use Rattle.walrus_contents.specs.There.{IsRefusal};
ghost use Rattle.walrus_items.specs.Errors.{out_of_memory};
ghost use Rattle.walrus_model.specs.Sections.{is_apart};
ghost use Rattle.wasm_frames.specs.Record.{custom_record};
ghost use Rattle.walrus_edit_list.specs.Customs.{AddsCustom, DeletesCustom, LacksCustom, PutsBytes, RefusesCustom, SetsCustom};
ghost use Rattle.walrus_edit_list.specs.Held.{custom_value, customs};

use std::alloc::Global;
use walrus_items::{Error, ErrorKind, RawCustomSection, Result};
use wasm_frames::RawCustom;
use wasm_wire::{CustomGroup, is_debug};

// Whether a section of this name isn't kept as it is, but read: one of names, producers or debug information.
fn is_read(name: &str) -> bool
    ensures { result ≡ is_apart name.now }
{
    CustomGroup::Names.has(name) || (CustomGroup::Producers.has(name) || is_debug(name))
}

// The section, with a name and bytes of its own.
fn raw_section(alloc: Global, custom: &RawCustom<'_>) -> Result<RawCustomSection>
    ensures value { IfOk result (λ made. custom_value made ≡ custom_record custom.now) }
    ensures fails { IsOkUnless result out_of_memory }
{
    Ok(RawCustomSection {
        name: String::from_str(alloc, custom.name)?,
        data_: custom.bytes.to_vec(alloc)?,
    })
}

/// Adds a custom section behind the others (Binary Format > Modules > Custom Section).
///
/// # Errors
///
/// `InvalidWasm` exactly where it is one of names, producers or debug information, and `Memory`.
pub(crate) fn add_custom(
    alloc: Global,
    custom: &RawCustom<'_>,
    all: &mut Vec<Option<RawCustomSection>>,
) -> Result<()>
    ensures { MatchResult result
        (λ _. AddsCustom (custom_record custom.now) (customs all.old.items) (customs all.new.items))
        (RefusesCustom (custom_record custom.now)) }
{
    if is_read(custom.name) {
        return Err(Error::InvalidWasm(ErrorKind::InvalidWasm));
    }
    let section = raw_section(alloc, custom)?;
    all.push(Some(section))?;
    Ok(())
}

// Whether the section of this id is there.
fn has_custom(all: &[Option<RawCustomSection>], at: usize) -> bool
    ensures { IsTrue result ↔ IsLive (customs all.now) at }
{
    match all.get(at) {
        Some(slot) => slot.is_some(),
        None => false,
    }
}

// Gives the section that stands here these bytes behind its name.
fn put_bytes(alloc: Global, bytes: &[u8], slot: &mut Option<RawCustomSection>) -> Result<()>
    ensures { MatchResult result
        (λ _. PutsBytes bytes.now (option_map custom_value slot.old) (option_map custom_value slot.new))
        (IsRefusal (option_map custom_value slot.old ≡ None)) }
{
    match slot {
        Some(section) => {
            section.data_ = bytes.to_vec(alloc)?;
            Ok(())
        }
        None => Err(Error::DeadItem),
    }
}

/// Gives the custom section of this id these bytes behind its name.
///
/// # Errors
///
/// `DeadItem` exactly where it isn't there, and `Memory`.
pub(crate) fn set_custom(
    alloc: Global,
    number: u32,
    bytes: &[u8],
    all: &mut Vec<Option<RawCustomSection>>,
) -> Result<()>
    ensures { MatchResult result
        (λ _. SetsCustom number bytes.now (customs all.old.items) (customs all.new.items))
        (LacksCustom number (customs all.old.items)) }
{
    let at = number as usize;
    if at >= all.len() {
        return Err(Error::DeadItem);
    }
    put_bytes(alloc, bytes, &mut all[at])?;
    Ok(())
}

/// Takes the custom section of this id away.
///
/// # Errors
///
/// `DeadItem` exactly where it isn't there.
pub(crate) fn delete_custom(number: u32, all: &mut Vec<Option<RawCustomSection>>) -> Result<()>
    ensures { MatchResult result
        (λ _. DeletesCustom number (customs all.old.items) (customs all.new.items))
        (LacksCustom number (customs all.old.items)) }
{
    let at = number as usize;
    if !has_custom(all.as_slice(), at) {
        return Err(Error::DeadItem);
    }
    all[at] = None;
    Ok(())
}
