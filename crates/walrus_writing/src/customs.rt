//! The custom sections that a module is written with ("Binary Format > Modules > Custom Section"): the name section ("Appendix > Custom
//! Sections > Name Section") and the producers section (tool-conventions, "Producers Section").
ghost use Rattle.std.specs.Prelude.{◌≡◌, ◌<◌, ◌^◌, ◌++◌, ℕ, IfOk, IsOkUnless, List, Ok, OnOk, length, map, true};
ghost use Rattle.wasm_frames.specs.Record.{custom_record};
ghost use Rattle.wasm_payloads.specs.Lent.{locals_entry};
ghost use Rattle.wasm_payloads.specs.Spelling.{NameText};
ghost use Rattle.walrus_base.specs.Locals.{locals};
ghost use Rattle.walrus_base.specs.Operators.{Space};
ghost use Rattle.walrus_items.specs.Errors.{out_of_memory};
ghost use Rattle.walrus_model.specs.Abstract as model;
ghost use Rattle.walrus_plan.specs.Places.{places};
ghost use Rattle.walrus_writing.specs.Customs.{AreSpelled, SpellsBoth, SpellsFields, chosen_producers, payload_of, section_if_any, sections_of};
ghost use Rattle.walrus_writing.specs.Names.{SpellsNames, all_local_names, first_own, if_chosen, names_said};

use crate::names::names_payload;
use crate::producers::producers_payload;
use crate::write::Choices;
use std::alloc::Global;
use walrus_contents::Parts;
use walrus_items::Result;
use walrus_plan::Plan;
use wasm_frames::RawCustom;
use wasm_payloads::RawLocals;

/// The same sections.
pub fn copied<'a>(alloc: Global, own: &[RawCustom<'a>]) -> Result<Vec<RawCustom<'a>>>
    ensures value { IfOk result (λ raw. map custom_record raw.items ≡ map custom_record own.now) }
    ensures fails { IsOkUnless result out_of_memory }
{
    let mut raw = Vec::with_capacity(alloc, own.len())?;
    'sections: for section in own {
        raw.push(*section)?;
    }
    Ok(raw)
}

// The section of this name with a payload, where it has one, behind others.
fn push_section<'a>(to: &mut Vec<RawCustom<'a>>, name: &'a str, bytes: &'a [u8]) -> Result<()>
    ensures value { OnOk result (map custom_record to.new.items
        ≡ map custom_record to.old.items ++ section_if_any name.now bytes.now) }
    ensures fails { IsOkUnless result out_of_memory }
{
    if bytes.is_empty() {
        return Ok(());
    }
    to.push(RawCustom { name, bytes })?;
    Ok(())
}

/// The payloads of the sections that are made.
#[derive(Drop)]
pub struct Payloads {
    /// That of the name section.
    pub names: Vec<u8>,
    /// That of the producers section.
    pub producers: Vec<u8>,
}

// Both payloads, where both are there.
fn both_payloads(names: Option<Vec<u8>>, producers: Option<Vec<u8>>) -> Option<Payloads>
    ensures { (said : NameText) (fields : List model.ProducerField) → SpellsNames said (Ok names)
        → SpellsFields payload_of fields (Ok producers) → AreSpelled said fields result }
{
    let Some(names) = names else {
        return None;
    };
    let Some(producers) = producers else {
        return None;
    };
    Some(Payloads { names, producers })
}

/// The payloads of the sections that are made of a plan of these parts, each where it is chosen, with these names of used locals; none where one
/// doesn't fit: a count or a size in it passes 32 bits.
///
/// # Errors
///
/// `Memory`.
pub fn made_payloads<'a>(
    alloc: Global,
    parts: Parts<'a>,
    plan: &Plan,
    named: Vec<RawLocals<'a>>,
    choices: &Choices,
) -> Result<Option<Payloads>>
    requires few { (space : Space) → length (places plan.now space) < 2 ^ 32 }
    ensures { (used : List (List (ℕ × ℕ)))
        → (choices.now.names ≡ true → map locals_entry named.entry.items
        ≡ all_local_names (locals parts.entry.locals.now) (first_own plan.now) used)
        → SpellsBoth (if_chosen choices.now.names (names_said parts.entry (places plan.now)
        (first_own plan.now) used)) (chosen_producers parts.entry choices.now) result }
{
    let names = names_payload(alloc, parts, plan, named, choices.names)?;
    let producers = producers_payload(alloc, parts.producers, choices.producers)?;
    Ok(both_payloads(names, producers))
}

/// The custom sections: these, and then those of these payloads, where there are any.
pub fn raw_customs<'a>(
    alloc: Global,
    own: &'a [RawCustom<'a>],
    payloads: &'a Option<Payloads>,
) -> Result<Vec<RawCustom<'a>>>
    ensures value { IfOk result (λ raw. map custom_record raw.items
        ≡ map custom_record own.now ++ sections_of payloads.now) }
    ensures fails { IsOkUnless result out_of_memory }
{
    let mut raw = copied(alloc, own)?;
    if let Some(made) = payloads {
        push_section(&mut raw, "name", made.names.as_slice())?;
        push_section(&mut raw, "producers", made.producers.as_slice())?;
    }
    Ok(raw)
}
