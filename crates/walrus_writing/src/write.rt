//! Writing a module's parts as bytes.
ghost use Rattle.std.specs.Prelude.{◌≡◌, All, IfErr, IfOk, map, true};
ghost use Rattle.wasm_frames.specs.Record.{custom_record, sections};
ghost use Rattle.walrus_base.specs.Id.{place};
ghost use Rattle.walrus_code.specs.Indices.{index_of};
ghost use Rattle.walrus_model.specs.Abstract.{Abstract};
ghost use Rattle.walrus_model.specs.Config.{Config};
ghost use Rattle.walrus_model.specs.Dead.{HasDead};
ghost use Rattle.walrus_model.specs.Declared.{NothingUndeclared};
ghost use Rattle.walrus_contents.specs.View.{parts_view};
ghost use Rattle.walrus_writing.specs.Customs.{IsAsked, task};
ghost use Rattle.walrus_writing.specs.Emitted.{IsWrittenWith};
ghost use Rattle.walrus_writing.specs.Located.{TellsItems};
ghost use Rattle.walrus_plan.specs.Prepared.{IsPrepared};
ghost use Rattle.walrus_writing.specs.Parts.{IsIndexed};
ghost use Rattle.walrus_writing.specs.Records.{FollowPlan, HasPlan, IsMade, IsModuleOf, Spells};
ghost use Rattle.walrus_writing.specs.Refusals.{RefusesBodies, RefusesItems};
ghost use Rattle.walrus_writing.specs.Transform.{EmitsParts};
ghost use Rattle.walrus_writing.specs.declared.write.Choices.{Choices};

use crate::bodies::{Indexed, raw_bodies, written_bodies};
use crate::by_section::write_by_section;
use crate::customs::{Payloads, made_payloads, raw_customs};
use crate::data::raw_data;
use crate::elements::raw_elements;
use crate::exports::raw_exports;
use crate::functions::raw_functions;
use crate::globals::raw_globals;
use crate::imports::raw_imports;
use crate::joined::WrittenBodies;
use crate::memories::raw_memories;
use crate::names::first_index;
use crate::start::raw_start;
use crate::tables::raw_tables;
use crate::tags::raw_tags;
use crate::transform::{bodies_told, untold};
use crate::types::raw_types;
use std::alloc::Global;
use walrus_base::FunctionId;
use walrus_bodies::Features;
use walrus_code::IdsToIndices;
use walrus_contents::Parts;
use walrus_items::{CodeTransform, Error, Result};
use walrus_plan::{Plan, Prepared};
use wasm_frames::{Raw, RawCustom};
use wasm_wire::written_module;

/// What a module is written under.
#[derive(Clone, Copy, Debug)]
pub struct Choices {
    /// The proposals that bodies may use.
    pub features: Features,
    /// Whether the name section is written ("Appendix > Custom Sections > Name Section"). One that names nothing never is.
    pub names: bool,
    /// Whether the producers section is written (tool-conventions, "Producers Section"). One without fields never is.
    pub producers: bool,
}

// What is made for sections that only lend it: the bodies, and the payloads of custom sections.
#[derive(Drop)]
pub(crate) struct Made {
    pub(crate) bodies: WrittenBodies,
    pub(crate) payloads: Option<Payloads>,
}

// Makes it, of the plan of these parts.
fn make(alloc: Global, parts: Parts<'_>, prepared: &Prepared, choices: &Choices) -> Result<Made>
    requires planned { IsPrepared parts prepared.now }
    requires indexed { All (λ id. IsIndexed parts (index_of prepared.now.indices) choices.now.features
        (place id)) prepared.now.plan.own_functions.items }
    ensures written { IfOk result (IsMade parts.entry prepared.now choices.now) }
    ensures fails { IfErr result (RefusesBodies parts.entry choices.now.features) }
{
    let under = Indexed {
        parts,
        indices: &prepared.indices,
        features: &choices.features,
    };
    let plan = &prepared.plan;
    let order = plan.own_functions.as_slice();
    let first = first_index(plan);
    let written = written_bodies(alloc, under, order, first, choices.names)?;
    let payloads = made_payloads(alloc, parts, plan, written.named, choices)?;
    Ok(Made {
        bodies: written.bodies,
        payloads,
    })
}

// The records of items that name nothing dead, by the indices that a plan of them gives, with those of functions, which follow the plan.
fn raw_items<'a>(
    alloc: Global,
    parts: Parts<'a>,
    indices: &IdsToIndices,
    count: Option<u32>,
    functions: Vec<u32>,
    made: &'a Made,
    own: &'a [RawCustom<'a>],
) -> Result<Raw<'a>>
    requires there { HasDead (parts_view parts) → ⊥ }
    requires planned { HasPlan parts indices.now count }
    ensures records { (choices : Choices)
        → (follow : FollowPlan parts.entry indices.now count choices functions.items made.now)
        → IfOk result (λ raw. IsModuleOf parts.entry
        (task choices (index_of indices.now) (map custom_record own.now))
        (map place follow.prepared.plan.own_functions.items) (sections raw)) }
    ensures refused { (choices : Choices)
        → FollowPlan parts.entry indices.now count choices functions.items made.now
        → RefusesItems parts.entry
        (task choices (index_of indices.now) (map custom_record own.now)) result }
{
    let types = raw_types(alloc, parts.types, indices)?;
    let customs = raw_customs(alloc, own, &made.payloads)?;
    let code = raw_bodies(alloc, &made.bodies)?;
    let imports = raw_imports(alloc, parts, indices)?;
    let tables = raw_tables(alloc, parts.tables, indices)?;
    let memories = raw_memories(alloc, parts.memories)?;
    let tags = raw_tags(alloc, parts.tags, indices)?;
    let globals = raw_globals(alloc, parts.globals, indices)?;
    let exports = raw_exports(alloc, parts.exports, indices)?;
    let start = raw_start(parts.start, indices);
    let elements = raw_elements(alloc, parts.elements, parts.tables, indices)?;
    let data_segments = raw_data(alloc, parts.data_, indices)?;
    if made.payloads.is_none() {
        return Err(Error::TooLarge);
    }
    Ok(Raw {
        order: Vec::new(alloc),
        types,
        imports,
        functions,
        tables,
        memories,
        tags,
        globals,
        exports,
        start,
        elements,
        data_count: count,
        bodies: code,
        data_: data_segments,
        customs,
    })
}

/// The bytes of a module of these parts with custom sections of its own, in which nothing dead is named and nothing is undeclared, in the
/// order of a plan of the parts and by its indices; bodies may use the chosen proposals. These sections are what a module that is seen as the
/// parts asks to be written under the indices ("Binary Format > Modules > Custom Section"): sections of dynamic linking stand before all
/// others, and the others behind the name section and the producers section, each of which is written where it is chosen and says something.
///
/// With them, where `tells` asks for it, the code transform of the bytes, without locations: where the body of each function stands, behind
/// its size, and where the count of functions. Else a transform of nothing.
///
/// # Errors
///
/// Each with a cause of its own: `NotWritable` where a body isn't well formed, an exact heap type is written, or an initialiser, an offset or
/// an item of a segment has no operator; `TooLarge` where a count or a size passes 32 bits; and `Memory`. What [`walrus_plan::prepare`] refuses
/// comes before.
pub fn write_prepared<'a>(
    alloc: Global,
    parts: Parts<'a>,
    prepared: Prepared,
    customs: &'a [RawCustom<'a>],
    choices: &Choices,
    tells: bool,
) -> Result<(Vec<u8>, CodeTransform)>
    requires there { HasDead (parts_view parts) → ⊥ }
    requires declared { NothingUndeclared (parts_view parts) }
    requires planned { IsPrepared parts prepared }
    ensures spells { IfOk result (λ r. Spells parts.entry
        (task choices.now (index_of prepared.indices) (map custom_record customs.now)) r.0.items) }
    ensures written { (c : Config) (v : Abstract) → IsWrittenWith c choices.now
        → IsAsked parts.entry (index_of prepared.indices) (map custom_record customs.now) v
        → EmitsParts tells c parts.entry v result }
{
    write_items(alloc, parts, prepared, customs, choices, tells)
}

// Of a plan, in which order the module's own functions are written, where that is asked for: nothing else is left of it.
fn order_asked(alloc: Global, plan: Plan, asked: bool) -> Vec<FunctionId>
    ensures { asked ≡ true → result ≡ plan.own_functions }
{
    if asked {
        plan.own_functions
    } else {
        Vec::new(alloc)
    }
}

// The bytes of items that name nothing dead, in the order of their plan, by the indices that it gives, and where the bodies of functions stand
// in them, where that is asked for. Where no transform is asked for, the module is written section by section. If that gives up, or one is asked
// for, all records are made first, and a refusal comes with its cause: of the plan only the order of functions is left, if that, before the
// records that don't need it are made, and the indices are dropped before the bytes.
fn write_items<'a>(
    alloc: Global,
    parts: Parts<'a>,
    prepared: Prepared,
    own: &'a [RawCustom<'a>],
    choices: &Choices,
    tells: bool,
) -> Result<(Vec<u8>, CodeTransform)>
    requires there { HasDead (parts_view parts) → ⊥ }
    requires planned { IsPrepared parts prepared }
    ensures spells { IfOk result (λ r. Spells parts.entry
        (task choices.now (index_of prepared.indices) (map custom_record own.now)) r.0.items) }
    ensures refused { RefusesItems parts.entry
        (task choices.now (index_of prepared.indices) (map custom_record own.now)) result }
    ensures told { tells ≡ true → IfOk result (λ r. TellsItems parts.entry
        (task choices.now (index_of prepared.indices) (map custom_record own.now)) r.1) }
{
    let by_section = write_by_section(alloc, parts, &prepared, own, choices, tells)?;
    if let Some(whole) = by_section {
        return Ok((whole, untold(alloc)));
    }
    let made = make(alloc, parts, &prepared, choices)?;
    let order = prepared.plan.own_functions.as_slice();
    let functions = raw_functions(alloc, parts, order, &prepared.indices)?;
    let Prepared {
        plan,
        indices,
        data_count,
    } = prepared;
    let left = order_asked(alloc, plan, tells);
    let raw = raw_items(alloc, parts, &indices, data_count, functions, &made, own)?;
    drop(indices);
    let transform = bodies_told(alloc, &raw, left, tells)?;
    let bytes = written_module(alloc, &raw)?;
    Ok((bytes, transform))
}
