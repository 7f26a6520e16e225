//! An edit is applied: one function for each kind.

ghost use Rattle.std.specs.Prelude.{◌≡◌, MatchResult};
ghost use Rattle.wasm_frames.specs.Steps.{section_record};
ghost use Rattle.walrus_bodies.specs.declared.features.Features.{Features};
ghost use Rattle.walrus_code.specs.Indices.{index_of};
ghost use Rattle.walrus_functions.specs.Signatures.{tag_places};
ghost use Rattle.walrus_edit_list.specs.Applies.{AppliesFirst};
ghost use Rattle.walrus_edit_list.specs.Edits.{deletion_seen, edit_seen, setting_seen};
ghost use Rattle.walrus_edit_list.specs.Held.{held};
ghost use Rattle.walrus_edit_list.specs.Ids.{tag_types};
ghost use Rattle.walrus_edit_list.specs.Joined.{LeadsToItself};
ghost use Rattle.walrus_edit_list.specs.Makes.{
  AddsSection,
  Makes,
  RefusesMake,
  RefusesSection,
  RefusesSet,
  SetsItem,
};

use crate::beside::Beside;
use crate::bring::bring_function;
use crate::customs::{add_custom, delete_custom, set_custom};
use crate::data::{add_data, delete_data, set_data};
use crate::edit::{Deletion, Edit, Replacement};
use crate::elements::{add_elements, delete_element};
use crate::exports::{add_exports, delete_export, set_export};
use crate::front::front_function;
use crate::functions::{add_function, set_function};
use crate::globals::{add_globals, set_global};
use crate::imports::{add_imports, set_import};
use crate::memories::set_memory;
use crate::names::give_name;
use crate::producers::{add_producer, clear_producers};
use crate::read::read_edit;
use crate::start::{delete_start, set_start};
use crate::types::add_types;
use std::alloc::Global;
use walrus_base::TypeId;
use walrus_bodies::Features;
use walrus_code::IdsToIndices;
use walrus_items::{Error, ErrorKind, Result};
use walrus_module::Module;
use wasm_frames::RawSection;

// Adds what a section lists.
fn add_section<S>(
    alloc: Global,
    section: RawSection<'_>,
    module: &mut Module<S>,
    beside: &mut Beside,
) -> Result<()>
    ensures { MatchResult result
        (λ _. AddsSection (section_record section.entry) (held «module».old beside.old)
        (held «module».new beside.new))
        (RefusesSection (section_record section.entry) (held «module».old beside.old)) }
{
    match section {
        RawSection::Custom(custom) => add_custom(alloc, &custom, &mut beside.customs),
        RawSection::Types(groups) => add_types(alloc, &groups, module, beside),
        RawSection::Imports(imports) => add_imports(alloc, &imports, module),
        RawSection::Globals(globals) => add_globals(alloc, &globals, module),
        RawSection::Exports(exports) => add_exports(&exports, module),
        RawSection::Start(number) => set_start(number, module),
        RawSection::Elements(elements) => add_elements(alloc, &elements, module),
        RawSection::DataSegments(segments) => add_data(alloc, &segments, module),
        _ => Err(Error::InvalidWasm(ErrorKind::InvalidWasm)),
    }
}

// Writes something anew.
fn set_item<S>(
    alloc: Global,
    replacement: Replacement<'_>,
    features: &Features,
    tags: &[TypeId],
    module: &mut Module<S>,
    beside: &mut Beside,
) -> Result<()>
    requires tags { tag_places tags.now ≡ tag_types «module».old.tags }
    ensures { MatchResult result
        (λ _. SetsItem features.now (setting_seen replacement.entry) (held «module».old beside.old)
        (held «module».new beside.new))
        (RefusesSet features.now (setting_seen replacement.entry) (held «module».old beside.old)) }
{
    match replacement {
        Replacement::Custom(number, bytes) => set_custom(alloc, number, bytes, &mut beside.customs),
        Replacement::Import(number, from, name) => {
            set_import(alloc, number, from, name, &mut module.imports)
        }
        Replacement::Export(number, export) => set_export(alloc, number, &export, module),
        Replacement::Function(number, body) => {
            set_function(alloc, number, body, features, tags, module, beside)
        }
        Replacement::Global(number, global) => set_global(alloc, number, &global, module),
        Replacement::Memory(number, size) => set_memory(number, size, module),
        Replacement::Data(number, segment) => set_data(alloc, number, &segment, module),
    }
}

// Deletes something.
fn delete_item<S>(deletion: Deletion, module: &mut Module<S>, beside: &mut Beside) -> Result<()>
    ensures { (f : Features) → MatchResult result
        (λ _. Makes f (deletion_seen deletion) (held «module».old beside.old)
        (held «module».new beside.new))
        (RefusesMake f (deletion_seen deletion) (held «module».old beside.old)) }
{
    match deletion {
        Deletion::Custom(number) => delete_custom(number, &mut beside.customs),
        Deletion::Export(number) => delete_export(number, &mut module.exports),
        Deletion::Start => {
            delete_start(module);
            Ok(())
        }
        Deletion::Element(number) => delete_element(number, module),
        Deletion::Data(number) => delete_data(number, module),
    }
}

// Applies an edit.
fn apply<S>(
    alloc: Global,
    edit: Edit<'_>,
    features: &Features,
    tags: &[TypeId],
    places: &IdsToIndices,
    module: &mut Module<S>,
    beside: &mut Beside,
) -> Result<()>
    requires tags { tag_places tags.now ≡ tag_types «module».old.tags }
    requires places { LeadsToItself (index_of places.now) }
    ensures { MatchResult result
        (λ _. Makes features.now (edit_seen edit.entry) (held «module».old beside.old)
        (held «module».new beside.new))
        (RefusesMake features.now (edit_seen edit.entry) (held «module».old beside.old)) }
{
    match edit {
        Edit::Add(section) => add_section(alloc, section, module, beside),
        Edit::AddFunction(ty, body) => {
            add_function(alloc, ty, body, features, tags, module, beside)
        }
        Edit::Set(replacement) => { set_item(alloc, replacement, features, tags, module, beside) }
        Edit::Delete(deletion) => delete_item(deletion, module, beside),
        Edit::BringFunction(number, from, name) => bring_function(number, from, name, module),
        Edit::Name(naming) => give_name(alloc, naming, module),
        Edit::AddProducer(field, name, version) => {
            add_producer(field, name, version, &mut module.producers)
        }
        Edit::ClearProducers => {
            clear_producers(module);
            Ok(())
        }
        Edit::Front(number, operators) => {
            front_function(alloc, number, operators, features, places, module)
        }
    }
}

/// Applies the edit in front, and gives the bytes behind it.
///
/// # Errors
///
/// `InvalidWasm` where no edit stands there; else as the function of its kind.
pub(crate) fn apply_first<'a, S>(
    alloc: Global,
    edits: &'a [u8],
    features: &Features,
    tags: &[TypeId],
    places: &IdsToIndices,
    module: &mut Module<S>,
    beside: &mut Beside,
) -> Result<&'a [u8]>
    requires tags { tag_places tags.now ≡ tag_types «module».old.tags }
    requires places { LeadsToItself (index_of places.now) }
    ensures { AppliesFirst features.now edits.now (held «module».old beside.old)
        (held «module».new beside.new) result }
{
    let (edit, behind) = read_edit(alloc, edits)?;
    apply(alloc, edit, features, tags, places, module, beside)?;
    Ok(behind)
}
