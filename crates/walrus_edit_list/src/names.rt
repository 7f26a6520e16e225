//! Names that something gets or loses.

ghost use Rattle.std.specs.Prelude.{◌≡◌, IfOk, IsOkUnless, MatchResult};
ghost use Rattle.walrus_base.specs.ModuleTypes.{type_slots};
ghost use Rattle.walrus_base.specs.TypeDef.{name_bytes};
ghost use Rattle.walrus_contents.specs.There.{IsRefusal};
ghost use Rattle.walrus_items.specs.Data.{data_segments};
ghost use Rattle.walrus_items.specs.Elements.{elements};
ghost use Rattle.walrus_items.specs.Errors.{out_of_memory};
ghost use Rattle.walrus_items.specs.Functions.{functions};
ghost use Rattle.walrus_items.specs.Globals.{globals};
ghost use Rattle.walrus_items.specs.Memories.{memories};
ghost use Rattle.walrus_items.specs.Tables.{tables};
ghost use Rattle.walrus_items.specs.Tags.{tags};
ghost use Rattle.walrus_module.specs.View.{contents_of};
ghost use Rattle.walrus_edit_list.specs.Edits.{given_seen, name_given, named_seen};
ghost use Rattle.walrus_edit_list.specs.Naming.{GivesName, NamesType, RefusesName};
ghost use Rattle.walrus_edit_list.specs.Places.{ChangesAt, IsGone};

use crate::edit::Naming;
use std::alloc::Global;
use walrus_base::{Id, ModuleTypes};
use walrus_items::{
    Error, ModuleData, ModuleElements, ModuleFunctions, ModuleGlobals, ModuleMemories,
    ModuleTables, ModuleTags, Result,
};
use walrus_module::Module;

// A name of one's own, if one is given.
fn owned_name(alloc: Global, name: Option<&str>) -> Result<Option<String>>
    ensures value { IfOk result (λ owned. name_bytes owned ≡ name_given name.entry) }
    ensures fails { IsOkUnless result out_of_memory }
{
    match name {
        Some(name) => Ok(Some(String::from_str(alloc, name)?)),
        None => Ok(None),
    }
}

// Gives the type of this id this name, or none.
fn name_type(alloc: Global, number: u32, name: Option<&str>, all: &mut ModuleTypes) -> Result<()>
    ensures { MatchResult result
        (λ _. NamesType number (name_given name.entry) all.old all.new)
        (IsRefusal (IsGone (type_slots all.old) number)) }
{
    let id = Id::at(number as usize);
    if !all.contains(id) {
        return Err(Error::DeadItem);
    }
    let name = owned_name(alloc, name)?;
    all.set_name(id, name);
    Ok(())
}

// Gives the function of this id this name, or none.
fn name_function(
    alloc: Global,
    number: u32,
    name: Option<&str>,
    all: &mut ModuleFunctions,
) -> Result<()>
    ensures { MatchResult result
        (λ _. ChangesAt number (λ x. record x { name = name_given name.entry }) (functions all.old)
        (functions all.new))
        (IsRefusal (IsGone (functions all.old) number)) }
{
    let id = Id::at(number as usize);
    if !all.contains(id) {
        return Err(Error::DeadItem);
    }
    let name = owned_name(alloc, name)?;
    all.get_mut(id).name = name;
    Ok(())
}

// Gives the table of this id this name, or none.
fn name_table(alloc: Global, number: u32, name: Option<&str>, all: &mut ModuleTables) -> Result<()>
    ensures { MatchResult result
        (λ _. ChangesAt number (λ x. record x { name = name_given name.entry }) (tables all.old)
        (tables all.new))
        (IsRefusal (IsGone (tables all.old) number)) }
{
    let id = Id::at(number as usize);
    if !all.contains(id) {
        return Err(Error::DeadItem);
    }
    let name = owned_name(alloc, name)?;
    all.get_mut(id).name = name;
    Ok(())
}

// Gives the memory of this id this name, or none.
fn name_memory(
    alloc: Global,
    number: u32,
    name: Option<&str>,
    all: &mut ModuleMemories,
) -> Result<()>
    ensures { MatchResult result
        (λ _. ChangesAt number (λ x. record x { name = name_given name.entry }) (memories all.old)
        (memories all.new))
        (IsRefusal (IsGone (memories all.old) number)) }
{
    let id = Id::at(number as usize);
    if !all.contains(id) {
        return Err(Error::DeadItem);
    }
    let name = owned_name(alloc, name)?;
    all.get_mut(id).name = name;
    Ok(())
}

// Gives the tag of this id this name, or none.
fn name_tag(alloc: Global, number: u32, name: Option<&str>, all: &mut ModuleTags) -> Result<()>
    ensures { MatchResult result
        (λ _. ChangesAt number (λ x. record x { name = name_given name.entry }) (tags all.old)
        (tags all.new))
        (IsRefusal (IsGone (tags all.old) number)) }
{
    let id = Id::at(number as usize);
    if !all.contains(id) {
        return Err(Error::DeadItem);
    }
    let name = owned_name(alloc, name)?;
    all.get_mut(id).name = name;
    Ok(())
}

// Gives the global of this id this name, or none.
fn name_global(
    alloc: Global,
    number: u32,
    name: Option<&str>,
    all: &mut ModuleGlobals,
) -> Result<()>
    ensures { MatchResult result
        (λ _. ChangesAt number (λ x. record x { name = name_given name.entry }) (globals all.old)
        (globals all.new))
        (IsRefusal (IsGone (globals all.old) number)) }
{
    let id = Id::at(number as usize);
    if !all.contains(id) {
        return Err(Error::DeadItem);
    }
    let name = owned_name(alloc, name)?;
    all.get_mut(id).name = name;
    Ok(())
}

// Gives the segment of elements of this id this name, or none.
fn name_element(
    alloc: Global,
    number: u32,
    name: Option<&str>,
    all: &mut ModuleElements,
) -> Result<()>
    ensures { MatchResult result
        (λ _. ChangesAt number (λ x. record x { name = name_given name.entry }) (elements all.old)
        (elements all.new))
        (IsRefusal (IsGone (elements all.old) number)) }
{
    let id = Id::at(number as usize);
    if !all.contains(id) {
        return Err(Error::DeadItem);
    }
    let name = owned_name(alloc, name)?;
    all.get_mut(id).name = name;
    Ok(())
}

// Gives the segment of data of this id this name, or none.
fn name_data(alloc: Global, number: u32, name: Option<&str>, all: &mut ModuleData) -> Result<()>
    ensures { MatchResult result
        (λ _. ChangesAt number (λ x. record x { name = name_given name.entry }) (data_segments all.old)
        (data_segments all.new))
        (IsRefusal (IsGone (data_segments all.old) number)) }
{
    let id = Id::at(number as usize);
    if !all.contains(id) {
        return Err(Error::DeadItem);
    }
    let name = owned_name(alloc, name)?;
    all.get_mut(id).name = name;
    Ok(())
}

/// Gives something this name, or takes its name away.
///
/// # Errors
///
/// `DeadItem` exactly where it isn't there, and `Memory`.
pub(crate) fn give_name<S>(alloc: Global, naming: Naming<'_>, module: &mut Module<S>) -> Result<()>
    ensures { MatchResult result
        (λ _. GivesName (named_seen naming.entry) (given_seen naming.entry) (contents_of «module».old)
        (contents_of «module».new))
        (RefusesName (named_seen naming.entry) (contents_of «module».old)) }
{
    match naming {
        Naming::Type(id, name) => name_type(alloc, id, name, &mut module.types),
        Naming::Function(id, name) => name_function(alloc, id, name, &mut module.funcs),
        Naming::Table(id, name) => name_table(alloc, id, name, &mut module.tables),
        Naming::Memory(id, name) => name_memory(alloc, id, name, &mut module.memories),
        Naming::Tag(id, name) => name_tag(alloc, id, name, &mut module.tags),
        Naming::Global(id, name) => name_global(alloc, id, name, &mut module.globals),
        Naming::Element(id, name) => {
            name_element(alloc, id, name, &mut module.elements)?;
            Ok(())
        }
        Naming::Data(id, name) => name_data(alloc, id, name, &mut module.data_),
        Naming::Module(name) => {
            module.name = owned_name(alloc, name)?;
            Ok(())
        }
    }
}
