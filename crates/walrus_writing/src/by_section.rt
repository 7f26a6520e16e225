//! A module written section by section: the records of each section are let go before those of the next are made, and each body is written
//! where it is made, so that none stand beside the bytes. It is told why it is refused where all records are made first, as `write.rt` does it.
ghost use Rattle.std.specs.Prelude.{◌≡◌, ◌++◌, IfOk, Ok, None, OnOk, map, option_and_then, option_map, true};
ghost use Rattle.wasm_frames.specs.Record.{custom_record};
ghost use Rattle.wasm_writer.specs.Writing.{written};
ghost use Rattle.walrus_base.specs.Id.{place};
ghost use Rattle.walrus_base.specs.Operators.{Functions};
ghost use Rattle.walrus_code.specs.Indices.{index_of};
ghost use Rattle.walrus_contents.specs.View.{parts_view};
ghost use Rattle.walrus_model.specs.Dead.{HasDead};
ghost use Rattle.walrus_plan.specs.Prepared.{IsPrepared};
ghost use Rattle.walrus_writing.specs.BySection.{GivesOrNone, IsFront, WritesBack, WritesFront};
ghost use Rattle.walrus_writing.specs.Customs.{sections_of, task};
ghost use Rattle.walrus_writing.specs.Records.{HasPlan, Spells};
ghost use Rattle.walrus_writing.specs.declared.write.Choices.{Choices};

use crate::behind::{append_customs, room_behind, write_data};
use crate::bodies::{Indexed, likely_lengths};
use crate::code::write_code;
use crate::customs::{Payloads, made_payloads, raw_customs};
use crate::functions::raw_functions;
use crate::names::first_index;
use crate::one_section::{
    measure_customs, write_count, write_customs, write_elements, write_exports, write_globals,
    write_imports, write_memories, write_start, write_tables, write_tags, write_types,
};
use crate::room::likely_whole;
use crate::start::raw_start;
use crate::write::Choices;
use std::alloc::Global;
use walrus_code::IdsToIndices;
use walrus_contents::Parts;
use walrus_items::{Error, Result};
use walrus_plan::Prepared;
use wasm_frames::RawCustom;
use wasm_wire::CustomGroup;
use wasm_writer::Writer;

// The sections before the code, of items that name nothing dead, by the indices that a plan of them gives, each from records of its own.
fn write_front(
    alloc: Global,
    to: &mut Writer,
    parts: Parts<'_>,
    indices: &IdsToIndices,
    count: Option<u32>,
    functions: &[u32],
    customs: &[RawCustom<'_>],
) -> Result<()>
    requires there { HasDead (parts_view parts) → ⊥ }
    requires planned { HasPlan parts indices.now count }
    ensures { OnOk result (WritesFront parts.entry (index_of indices.now) functions.now
        (option_and_then (index_of indices.now Functions) (option_map place parts.entry.start)) count
        (map custom_record customs.now) (written to.old) (written to.new)) }
{
    write_customs(to, CustomGroup::Dylink, customs)?;
    write_types(alloc, to, parts.types, indices)?;
    write_imports(alloc, to, parts, indices)?;
    to.function_section(functions)?;
    write_tables(alloc, to, parts.tables, indices)?;
    write_memories(alloc, to, parts.memories)?;
    write_tags(alloc, to, parts.tags, indices)?;
    write_globals(alloc, to, parts.globals, indices)?;
    write_exports(alloc, to, parts.exports, indices)?;
    write_start(to, raw_start(parts.start, indices))?;
    write_elements(alloc, to, parts.elements, parts.tables, indices)?;
    write_count(to, count)?;
    Ok(())
}

// The bytes in front of the code section: the header, and the sections before it, of items that name nothing dead, by a plan of them. There is
// room for so many bytes, these among them.
fn front_bytes(
    alloc: Global,
    parts: Parts<'_>,
    prepared: &Prepared,
    own: &[RawCustom<'_>],
    room: usize,
) -> Result<Vec<u8>>
    requires there { HasDead (parts_view parts) → ⊥ }
    requires planned { IsPrepared parts prepared.now }
    ensures { IfOk result (λ bytes. IsFront parts.entry prepared.now (map custom_record own.now)
        bytes.items) }
{
    let indices = &prepared.indices;
    let order = prepared.plan.own_functions.as_slice();
    let functions = raw_functions(alloc, parts, order, indices)?;
    let listed = functions.as_slice();
    let mut writer = Writer::new(alloc);
    writer.reserve(room)?;
    writer.header()?;
    write_front(
        alloc,
        &mut writer,
        parts,
        indices,
        prepared.data_count,
        listed,
        own,
    )?;
    Ok(writer.finish())
}

// The sections behind the code, of the same items: these custom sections are its own, and those of the payloads stand with them.
fn write_back<'a>(
    alloc: Global,
    to: &mut Vec<u8>,
    parts: Parts<'_>,
    prepared: &Prepared,
    own: &'a [RawCustom<'a>],
    payloads: &'a Option<Payloads>,
) -> Result<()>
    requires there { HasDead (parts_view parts) → ⊥ }
    requires planned { IsPrepared parts prepared.now }
    ensures { OnOk result (WritesBack parts.entry (index_of prepared.now.indices)
        (map custom_record own.now ++ sections_of payloads.now) to.old.items to.new.items) }
{
    let listed = raw_customs(alloc, own, payloads)?;
    let customs = listed.as_slice();
    measure_customs(customs)?;
    room_behind(to, parts.data_, customs)?;
    write_data(alloc, to, parts.data_, &prepared.indices)?;
    append_customs(to, CustomGroup::Names, customs)?;
    append_customs(to, CustomGroup::Producers, customs)?;
    append_customs(to, CustomGroup::Others, customs)?;
    Ok(())
}

// The bytes of the module of these items.
fn bytes_by_section(
    alloc: Global,
    parts: Parts<'_>,
    prepared: &Prepared,
    own: &[RawCustom<'_>],
    choices: &Choices,
) -> Result<Vec<u8>>
    requires there { HasDead (parts_view parts) → ⊥ }
    requires planned { IsPrepared parts prepared.now }
    ensures { IfOk result (λ bytes. Spells parts.entry
        (task choices.now (index_of prepared.now.indices) (map custom_record own.now)) bytes.items) }
{
    let under = Indexed {
        parts,
        indices: &prepared.indices,
        features: &choices.features,
    };
    let plan = &prepared.plan;
    let order = plan.own_functions.as_slice();
    let first = first_index(plan);
    let likely = likely_lengths(parts.funcs, order);
    let room = likely_whole(parts, plan, likely, own);
    let mut bytes = front_bytes(alloc, parts, prepared, own, room)?;
    let named = write_code(
        alloc,
        &mut bytes,
        under,
        order,
        first,
        choices.names,
        likely,
    )?;
    let payloads = made_payloads(alloc, parts, plan, named, choices)?;
    if payloads.is_none() {
        return Err(Error::TooLarge);
    }
    write_back(alloc, &mut bytes, parts, prepared, own, &payloads)?;
    Ok(bytes)
}

/// The bytes of the module of items that name nothing dead, by a plan of them, where no transform is asked for; none where one is, or where the
/// module can't be written.
///
/// # Errors
///
/// `Memory`.
pub fn write_by_section(
    alloc: Global,
    parts: Parts<'_>,
    prepared: &Prepared,
    own: &[RawCustom<'_>],
    choices: &Choices,
    tells: bool,
) -> Result<Option<Vec<u8>>>
    requires there { HasDead (parts_view parts) → ⊥ }
    requires planned { IsPrepared parts prepared.now }
    ensures spells { GivesOrNone (λ bytes. Spells parts.entry
        (task choices.now (index_of prepared.now.indices) (map custom_record own.now)) bytes.items) result }
    ensures untold { tells ≡ true → result ≡ Ok None }
{
    if tells {
        return Ok(None);
    }
    match bytes_by_section(alloc, parts, prepared, own, choices) {
        Ok(bytes) => Ok(Some(bytes)),
        Err(Error::Memory(refused)) => Err(Error::Memory(refused)),
        Err(_) => Ok(None),
    }
}
