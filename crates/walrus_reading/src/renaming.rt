//! The item of a place gets a name.
ghost use Rattle.std.specs.Prelude.{◌≡◌, Some, string_bytes};
ghost use Rattle.walrus_base.specs.ModuleTypes.{type_names, type_slots};
ghost use Rattle.walrus_items.specs.Data.{data_segments};
ghost use Rattle.walrus_items.specs.Elements.{elements};
ghost use Rattle.walrus_items.specs.Functions.{functions};
ghost use Rattle.walrus_items.specs.Globals.{globals};
ghost use Rattle.walrus_items.specs.Memories.{memories};
ghost use Rattle.walrus_items.specs.Tables.{tables};
ghost use Rattle.walrus_items.specs.Tags.{tags};
ghost use Rattle.walrus_reading.specs.Renamed.{named_at, renamed_by};
ghost use Rattle.walrus_reading.specs.Shown.{local_values, mend_data, mend_element, mend_function, mend_global, mend_local, mend_memory, mend_table, mend_tag, mend_type_name};
ghost use Rattle.walrus_reading.specs.TakenNames.{only_below};

use walrus_base::{Id, ModuleLocals, ModuleTypes};
use walrus_items::{
    ModuleData, ModuleElements, ModuleFunctions, ModuleGlobals, ModuleMemories, ModuleTables,
    ModuleTags,
};

/// Gives the function of a place this name, if one is there.
pub(crate) fn name_function(all: &mut ModuleFunctions, place: usize, name: String)
    ensures { functions all.new ≡ named_at mend_function place (string_bytes name) (functions all.old) }
{
    let id = Id::at(place);
    if all.contains(id) {
        all.get_mut(id).name = Some(name);
    }
}

/// Gives the table of a place this name, if one is there.
pub(crate) fn name_table(all: &mut ModuleTables, place: usize, name: String)
    ensures { tables all.new ≡ named_at mend_table place (string_bytes name) (tables all.old) }
{
    let id = Id::at(place);
    if all.contains(id) {
        all.get_mut(id).name = Some(name);
    }
}

/// Gives the memory of a place this name, if one is there.
pub(crate) fn name_memory(all: &mut ModuleMemories, place: usize, name: String)
    ensures { memories all.new ≡ named_at mend_memory place (string_bytes name) (memories all.old) }
{
    let id = Id::at(place);
    if all.contains(id) {
        all.get_mut(id).name = Some(name);
    }
}

/// Gives the tag of a place this name, if one is there.
pub(crate) fn name_tag(all: &mut ModuleTags, place: usize, name: String)
    ensures { tags all.new ≡ named_at mend_tag place (string_bytes name) (tags all.old) }
{
    let id = Id::at(place);
    if all.contains(id) {
        all.get_mut(id).name = Some(name);
    }
}

/// Gives the global of a place this name, if one is there.
pub(crate) fn name_global(all: &mut ModuleGlobals, place: usize, name: String)
    ensures { globals all.new ≡ named_at mend_global place (string_bytes name) (globals all.old) }
{
    let id = Id::at(place);
    if all.contains(id) {
        all.get_mut(id).name = Some(name);
    }
}

/// Gives the element segment of a place this name, if one is there.
pub(crate) fn name_element(all: &mut ModuleElements, place: usize, name: String)
    ensures { elements all.new ≡ named_at mend_element place (string_bytes name) (elements all.old) }
{
    let id = Id::at(place);
    if all.contains(id) {
        all.get_mut(id).name = Some(name);
    }
}

/// Gives the data segment of a place this name, if one is there.
pub(crate) fn name_data(all: &mut ModuleData, place: usize, name: String)
    ensures { data_segments all.new ≡ named_at mend_data place (string_bytes name) (data_segments all.old) }
{
    let id = Id::at(place);
    if all.contains(id) {
        all.get_mut(id).name = Some(name);
    }
}

// Gives the type of a place this name, if one is there.
fn name_any_type(all: &mut ModuleTypes, place: usize, name: String)
    ensures slots { type_slots all.new ≡ type_slots all.old }
    ensures names { type_names all.new ≡ named_at mend_type_name place (string_bytes name)
        (type_names all.old) }
{
    let id = Id::at(place);
    if all.contains(id) {
        all.set_name(id, Some(name));
    }
}

/// Gives the type of a place this name, if one is there and the place is below this count.
pub(crate) fn name_type(all: &mut ModuleTypes, count: usize, place: usize, name: String)
    ensures slots { type_slots all.new ≡ type_slots all.old }
    ensures names { type_names all.new ≡ renamed_by mend_type_name
        (only_below count (Some (place, string_bytes name))) (type_names all.old) }
{
    if place < count {
        name_any_type(all, place, name);
    }
}

/// Gives the local of a place this name, if one is there.
pub(crate) fn name_local(all: &mut ModuleLocals, place: usize, name: String)
    ensures { local_values all.new ≡ named_at mend_local place (string_bytes name) (local_values all.old) }
{
    let id = Id::at(place);
    if all.contains(id) {
        all.get_mut(id).name = Some(name);
    }
}
