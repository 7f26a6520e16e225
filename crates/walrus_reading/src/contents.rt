//! From the records of a module's sections to what a module in memory holds.
ghost use Rattle.std.specs.Prelude.{◌≡◌, ◌<◌, [], length, All, IfOk, OnOk, IsOkUnless};
ghost use Rattle.std.specs.Fn.{FnReturnsAt};
ghost use Rattle.walrus_base.specs.Arena.{items};
ghost use Rattle.walrus_base.specs.Locals.{locals};
ghost use Rattle.walrus_base.specs.ModuleTypes.{type_slots};
ghost use Rattle.walrus_base.specs.Operators.{Space};
ghost use Rattle.walrus_code.specs.Indices.{places_in, ids_at};
ghost use Rattle.walrus_functions.specs.ReadFunction.{GivenIf};
ghost use Rattle.walrus_items.specs.Exports.{exports};
ghost use Rattle.walrus_items.specs.Functions.{functions};
ghost use Rattle.walrus_items.specs.Tags.{tags};
ghost use Rattle.walrus_groups.specs.Groups.{types_from};
ghost use Rattle.walrus_model.specs.Reads.{declared};
ghost use Rattle.walrus_reading.specs.Imported.{HoldsImported};
ghost use Rattle.walrus_reading.specs.Numbers.{FitsIndices};
ghost use Rattle.walrus_reading.specs.Producers.{HoldsProducers};
ghost use Rattle.walrus_reading.specs.Rest.{RestStays};
ghost use Rattle.walrus_reading.specs.Taken.{AreLocatedIn, TakesBodies, TakesSections};
ghost use Rattle.walrus_reading.specs.Sections.{Rules};
ghost use Rattle.walrus_items.specs.Errors.{out_of_memory};
ghost use Rattle.wasm_frames.specs.Record.{sections};

use crate::bodies::texts_of;
use crate::data::add_data;
use crate::elements::add_elements;
use crate::exports::add_exports;
use crate::functions::{Under, add_functions};
use crate::globals::add_globals;
use crate::imports::add_imports;
use crate::input::Input;
use crate::memories::add_memories;
use crate::numbers::number_items;
use crate::producers::add_producers;
use crate::start::start_named;
use crate::tables::add_tables;
use crate::tags::{add_tags, types_of_tags};
use crate::types::add_types;
use crate::unread::Unread;
use std::alloc::Global;
use std::result;
use walrus_bodies::Features;
use walrus_code::{IndicesToIds, InstrLocId};
use walrus_contents::Contents;
use walrus_items::Result;
use wasm_frames::Raw;

/// What sections that keep the rules hold, where bodies may use these proposals and `locate` gives each operator its location; where the locals
/// of each function begin, with the end behind them; and how many types were read. With `as_texts` plain bodies are kept as they stand in the
/// input, and their operators are located by their places. The records of types, imports, functions, bodies and globals are let go as soon as
/// they are read.
///
/// # Errors
///
/// `InvalidWasm` exactly where a body isn't read, and `Memory`.
pub(crate) fn read_contents<L: Fn(&usize) -> InstrLocId>(
    alloc: Global,
    input: Input<'_>,
    raw: &mut Raw<'_>,
    features: &Features,
    as_texts: bool,
    locate: &L,
) -> Result<(Contents, Vec<usize>, usize)>
    requires rules { Rules (sections raw.old) }
    requires room { FitsIndices (sections raw.old) }
    requires callable { L.IsAlwaysCallable locate.now }
    ensures taken { TakesSections features.now (sections raw.old) result }
    ensures located { IfOk result (λ m. AreLocatedIn (GivenIf as_texts (FnReturnsAt L.Fn locate.now))
        (sections raw.old) (functions m.0.funcs)) }
    ensures produced { IfOk result (λ m. HoldsProducers (sections raw.old) m.0.producers) }
    ensures counted { IfOk result (λ m. m.2 ≡ length (types_from 0 (sections raw.old).types)) }
    ensures customs { OnOk result (raw.new.customs ≡ raw.old.customs) }
{
    let mut indices = IndicesToIds::new(alloc);
    let (mut contents, starts, type_count) = read_functions(
        alloc,
        input,
        raw,
        features,
        as_texts,
        locate,
        &mut indices,
    )?;
    raw.functions = Vec::new(alloc);
    raw.bodies = Vec::new(alloc);
    add_tables(alloc, &raw.tables, &indices, &mut contents.tables)?;
    add_memories(&raw.memories, &mut contents.memories)?;
    add_globals(alloc, &raw.globals, &indices, &mut contents.globals)?;
    raw.globals = Vec::new(alloc);
    add_elements(
        alloc,
        &raw.elements,
        &indices,
        &mut contents.tables,
        &mut contents.elements,
    )?;
    add_data(
        alloc,
        &raw.data_,
        &indices,
        &mut contents.memories,
        &mut contents.data_,
    )?;
    add_exports(&raw.exports, &indices, &mut contents.exports)?;
    contents.start = start_named(raw.start, &indices);
    add_producers(alloc, &raw.customs, &mut contents.producers)?;
    Ok((contents, starts, type_count))
}

/// The types of these sections, what their imports bring, their tags and their functions, as [`read_contents`] reads them; where the locals of each
/// function begin, with the end behind them; and how many types were read. Refused, the first function whose body isn't read is told.
/// The records of types and imports are let go in front of the functions.
pub(crate) fn read_functions<L: Fn(&usize) -> InstrLocId>(
    alloc: Global,
    input: Input<'_>,
    raw: &mut Raw<'_>,
    features: &Features,
    as_texts: bool,
    locate: &L,
    indices: &mut IndicesToIds,
) -> result::Result<(Contents, Vec<usize>, usize), Unread>
    requires rules { Rules (sections raw.old) }
    requires room { FitsIndices (sections raw.old) }
    requires callable { L.IsAlwaysCallable locate.now }
    requires no_indices { (space : Space) → places_in indices.old space ≡ [] }
    ensures taken { TakesBodies features.now (sections raw.old) result }
    ensures located { IfOk result (λ m. AreLocatedIn (GivenIf as_texts (FnReturnsAt L.Fn locate.now))
        (sections raw.old) (functions m.0.funcs)) }
    ensures counted { IfOk result (λ m. m.2 ≡ length (types_from 0 (sections raw.old).types)) }
    ensures numbered { OnOk result (ids_at indices.new ≡ declared (sections raw.old)) }
    ensures rest { OnOk result (RestStays raw.old raw.new) }
{
    let (mut contents, type_count) = read_imported(alloc, raw, indices)?;
    add_tags(&raw.tags, indices, &mut contents.tags)?;
    let tag_types = types_of_tags(alloc, &contents.tags)?;
    raw.types = Vec::new(alloc);
    raw.imports = Vec::new(alloc);
    let texts = texts_of(alloc, input, as_texts, raw, indices, &contents.types)?;
    let starts = add_functions(
        &Under {
            alloc,
            features,
            indices,
            tag_types: &tag_types,
            texts,
            locate,
        },
        &raw.functions,
        &raw.bodies,
        &mut contents.types,
        &mut contents.locals,
        &mut contents.funcs,
    )?;
    Ok((contents, starts, type_count))
}

// The types, how many there are, and what imports bring. All indices that sections declare lead to their items then.
fn read_imported(
    alloc: Global,
    raw: &Raw<'_>,
    indices: &mut IndicesToIds,
) -> Result<(Contents, usize)>
    requires rules { Rules (sections raw.now) }
    requires room { FitsIndices (sections raw.now) }
    requires no_indices { (space : Space) → places_in indices.old space ≡ [] }
    ensures begun { IfOk result (λ m. HoldsImported (sections raw.now) m.0) }
    ensures counted { IfOk result (λ m. m.1 ≡ length (type_slots m.0.types)) }
    ensures numbered { OnOk result (ids_at indices.new ≡ declared (sections raw.now)) }
    ensures fails { IsOkUnless result out_of_memory }
{
    let mut contents = Contents::new(alloc)?;
    add_types(alloc, &raw.types, indices, &mut contents.types)?;
    add_imports(&raw.imports, indices, &mut contents)?;
    number_items(alloc, raw, &contents, indices)?;
    let type_count = contents.types.next_id().index();
    Ok((contents, type_count))
}
