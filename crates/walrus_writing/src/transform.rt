//! Where the parts of the code section stand in the bytes of a module, told before these are written.
ghost use Rattle.std.specs.Prelude.{◌≡◌, List, IfErr, IfOk, length, map, true};
ghost use Rattle.std.specs.List.{AllZip};
ghost use Rattle.wasm_frames.specs.Record as wire;
ghost use Rattle.wasm_frames.specs.Record.{custom_record, sections};
ghost use Rattle.wasm_wire.specs.ModuleSpelling.{group_of};
ghost use Rattle.wasm_wire.specs.declared.written.CustomGroup.TheVariants.{Dylink};
ghost use Rattle.walrus_base.specs.Id.{place};
ghost use Rattle.walrus_code.specs.Indices.{index_of};
ghost use Rattle.walrus_contents.specs.View.{parts_view};
ghost use Rattle.walrus_model.specs.Dead.{HasDead};
ghost use Rattle.walrus_model.specs.Declared.{NothingUndeclared};
ghost use Rattle.walrus_plan.specs.Prepared.{IsPrepared};
ghost use Rattle.walrus_writing.specs.Customs.{task};
ghost use Rattle.walrus_writing.specs.Located.{ArePlaces, TellsBodies};
ghost use Rattle.walrus_writing.specs.Parts.{HasBytes};
ghost use Rattle.walrus_writing.specs.Refusals.{RefusesItems, RefusesModule};
ghost use Rattle.walrus_writing.specs.Transform.{RefusesTransform, TellsTransform};

use crate::bodies::Indexed;
use crate::customs::copied;
use crate::data::raw_data;
use crate::elements::raw_elements;
use crate::exports::raw_exports;
use crate::functions::raw_functions;
use crate::globals::raw_globals;
use crate::imports::raw_imports;
use crate::located::{all_places, function_ranges, instruction_map};
use crate::memories::raw_memories;
use crate::offsets::{LocatedBody, located_bodies, raw_located};
use crate::start::raw_start;
use crate::tables::raw_tables;
use crate::tags::raw_tags;
use crate::types::raw_types;
use crate::write::Choices;
use std::alloc::Global;
use walrus_base::FunctionId;
use walrus_contents::Parts;
use walrus_items::{CodeTransform, Result};
use walrus_plan::Prepared;
use wasm_frames::{Raw, RawCustom};
use wasm_wire::code_places;
use wasm_writer::CodePlaces;

// The places of the parts of the code section among the records of items that name nothing dead, in the order of their plan, by the indices
// that it gives, behind these sections of dynamic linking.
fn item_places<'a>(
    alloc: Global,
    parts: Parts<'a>,
    prepared: &Prepared,
    bodies: &'a [LocatedBody],
    dylinks: &'a [RawCustom<'a>],
    choices: &Choices,
) -> Result<CodePlaces>
    requires there { HasDead (parts_view parts) → ⊥ }
    requires planned { IsPrepared parts prepared.now }
    requires written { AllZip (λ id body.
        HasBytes parts (index_of prepared.now.indices) choices.now.features (place id) body.bytes.items)
        prepared.now.plan.own_functions.items bodies.now }
    ensures told { IfOk result (ArePlaces parts.entry (index_of prepared.now.indices) choices.now.features
        (map place prepared.now.plan.own_functions.items)
        (map (λ body. body.bytes.items) bodies.now) (map custom_record dylinks.now)) }
    ensures refused { (sections : List wire.Custom) → group_of Dylink sections ≡ map custom_record dylinks.now
        → RefusesItems parts.entry (task choices.now (index_of prepared.now.indices) sections) result }
{
    let indices = &prepared.indices;
    let order = prepared.plan.own_functions.as_slice();
    let types = raw_types(alloc, parts.types, indices)?;
    let functions = raw_functions(alloc, parts, order, indices)?;
    let customs = copied(alloc, dylinks)?;
    let code = raw_located(alloc, bodies)?;
    let imports = raw_imports(alloc, parts, indices)?;
    let tables = raw_tables(alloc, parts.tables, indices)?;
    let memories = raw_memories(alloc, parts.memories)?;
    let tags = raw_tags(alloc, parts.tags, indices)?;
    let globals = raw_globals(alloc, parts.globals, indices)?;
    let exports = raw_exports(alloc, parts.exports, indices)?;
    let start = raw_start(parts.start, indices);
    let elements = raw_elements(alloc, parts.elements, parts.tables, indices)?;
    let data_segments = raw_data(alloc, parts.data_, indices)?;
    let raw = Raw {
        order: Vec::new(alloc),
        types,
        imports,
        functions,
        tables,
        memories,
        tags,
        globals,
        exports,
        start,
        elements,
        data_count: prepared.data_count,
        bodies: code,
        data_: data_segments,
        customs,
    };
    let places = code_places(alloc, &raw)?;
    Ok(places)
}

/// The code transform of a module of these parts, in which nothing dead is named and nothing is undeclared, told before its bytes are
/// written: where the body of each function stands, behind its size, where the count of functions, and where the operators that have a
/// location ("Binary Format > Modules > Code Section"). It is true of all bytes that [`write_prepared`](crate::write_prepared) gives under
/// the same plan and choices with custom sections among which those of dynamic linking are these, since no others stand in front of the code.
///
/// # Errors
///
/// Those of [`write_prepared`](crate::write_prepared): each with a cause of its own.
pub fn code_transform<'a>(
    alloc: Global,
    parts: Parts<'a>,
    prepared: &Prepared,
    dylinks: &'a [RawCustom<'a>],
    choices: &Choices,
) -> Result<CodeTransform>
    requires there { HasDead (parts_view parts) → ⊥ }
    requires declared { NothingUndeclared (parts_view parts) }
    requires planned { IsPrepared parts prepared.now }
    ensures told { IfOk result (TellsTransform parts.entry choices.now (index_of prepared.now.indices)
        (map custom_record dylinks.now) true) }
    ensures refused { IfErr result (RefusesTransform parts.entry choices.now (index_of prepared.now.indices)
        (map custom_record dylinks.now)) }
{
    let under = Indexed {
        parts,
        indices: &prepared.indices,
        features: &choices.features,
    };
    let order = prepared.plan.own_functions.as_slice();
    let bodies = located_bodies(alloc, under, order)?;
    let lent = bodies.as_slice();
    let places = item_places(alloc, parts, prepared, lent, dylinks, choices)?;
    let ranges = places.bodies.as_slice();
    let by_id = function_ranges(alloc, order, ranges)?;
    let placed = all_places(alloc, order, ranges, lent)?;
    drop(bodies);
    let by_location = instruction_map(alloc, placed)?;
    Ok(CodeTransform {
        function_ranges: by_id,
        code_section_start: places.count,
        instruction_map: by_location,
    })
}

/// A transform of nothing.
pub fn untold(alloc: Global) -> CodeTransform {
    CodeTransform {
        function_ranges: Vec::new(alloc),
        code_section_start: 0,
        instruction_map: Vec::new(alloc),
    }
}

/// Where the bodies of these functions, which have these records, come to stand in the bytes of these, where that is asked for. No location is told.
pub fn bodies_told(
    alloc: Global,
    raw: &Raw<'_>,
    order: Vec<FunctionId>,
    asked: bool,
) -> Result<CodeTransform>
    requires as_many { asked ≡ true → length order.items ≡ length (sections raw.now).bodies }
    ensures told { asked ≡ true
        → IfOk result (TellsBodies (sections raw.now) (map place order.items)) }
    ensures refused { IfErr result (RefusesModule (sections raw.now)) }
{
    if !asked {
        return Ok(untold(alloc));
    }
    let places = code_places(alloc, raw)?;
    let functions = order.as_slice();
    let ranges = places.bodies.as_slice();
    let by_id = function_ranges(alloc, functions, ranges)?;
    Ok(CodeTransform {
        function_ranges: by_id,
        code_section_start: places.count,
        instruction_map: Vec::new(alloc),
    })
}
