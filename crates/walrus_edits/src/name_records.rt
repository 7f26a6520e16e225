//! What is told of the names of items.

ghost use Rattle.std.specs.Prelude.{List, Option, ℕ, ◌≡◌, ◌++◌, IfOk, OnOk, map};
ghost use Rattle.walrus.specs.Base.Arena.{entries, live_places};
ghost use Rattle.walrus.specs.Base.ModuleTypes.{type_names, type_slots};
ghost use Rattle.walrus.specs.Items.Held.{held};
ghost use Rattle.walrus.specs.Items.Seen.{text_of};
ghost use Rattle.walrus.specs.Contents.View.{lent};
ghost use Rattle.walrus_edits.specs.ItemSteps.{IsNameOf, PutsAll, name_told};
ghost use Rattle.walrus_edits.specs.ItemValues.{all_names, named, names_in, type_names_in};

use crate::records::{Tells, put_byte, put_number, tell_all};
use std::alloc::{AllocError, Global};
use std::result;
use walrus::below::{Item, Items, Parts};
use walrus::{Data, Element, Function, Memory, ModuleTypes, Table, Tag};
use walrus_edit_list::numbers::{
    NAME, OF_DATA, OF_ELEMENT, OF_FUNCTION, OF_GLOBAL, OF_MEMORY, OF_MODULE, OF_TABLE, OF_TAG,
    OF_TYPE,
};
use wasm_forms::{WireError, write_name};

/// A name, what it is the name of, and that one's place.
#[derive(Clone, Copy)]
struct NameOf<'a> {
    what: u8,
    place: usize,
    name: &'a str,
}

impl<'a> Tells for NameOf<'a> {
    ghost told = { name_told };

    fn number(&self) -> u8 {
        NAME
    }

    fn write_payload(&self, _alloc: Global, to: &mut Vec<u8>) -> result::Result<(), WireError> {
        put_byte(to, self.what)?;
        put_number(to, self.place as u64)?;
        write_name(to, self.name)
    }
}

/// Puts the name of that of this place behind the others, where it has one.
fn push_name<'a>(
    to: &mut Vec<NameOf<'a>>,
    what: u8,
    place: usize,
    name: &'a Option<String>,
) -> result::Result<(), AllocError>
    ensures { OnOk result (map name_told to.new.items ≡ map name_told to.old.items
        ++ named what place (text_of name.now)) }
{
    if let Some(text) = name {
        to.push(NameOf {
            what,
            place,
            name: text.as_str(),
        })?;
    }
    Ok(())
}

/// An item that may have a name: `own`.
trait MayHaveName: Item {
    ghost own: { Self → Option (List ℕ) };

    /// Its name, if it has one.
    fn own_name(&self) -> &Option<String>
        ensures { text_of result.now ≡ own self.now };
}

impl MayHaveName for Function {
    ghost own = { λ f. text_of f.name };

    fn own_name(&self) -> &Option<String> {
        &self.name
    }
}

impl MayHaveName for Table {
    ghost own = { λ t. text_of t.name };

    fn own_name(&self) -> &Option<String> {
        &self.name
    }
}

impl MayHaveName for Memory {
    ghost own = { λ m. text_of m.name };

    fn own_name(&self) -> &Option<String> {
        &self.name
    }
}

impl MayHaveName for Tag {
    ghost own = { λ t. text_of t.name };

    fn own_name(&self) -> &Option<String> {
        &self.name
    }
}

impl MayHaveName for walrus_items::Global {
    ghost own = { λ g. text_of g.name };

    fn own_name(&self) -> &Option<String> {
        &self.name
    }
}

impl MayHaveName for Element {
    ghost own = { λ e. text_of e.name };

    fn own_name(&self) -> &Option<String> {
        &self.name
    }
}

impl MayHaveName for Data {
    ghost own = { λ d. text_of d.name };

    fn own_name(&self) -> &Option<String> {
        &self.name
    }
}

/// Puts the names of the items of one kind behind the others, by rising id.
fn push_names<'a, K, T: MayHaveName>(
    to: &mut Vec<NameOf<'a>>,
    what: u8,
    all: &'a Items<K, T>,
) -> result::Result<(), AllocError>
    ensures { OnOk result ((name_of : T.Seen → Option (List ℕ)) → IsNameOf T.own T.value name_of
        → map name_told to.new.items ≡ map name_told to.old.items
        ++ names_in what name_of (entries (held T.value all.now))) }
{
    'items: for (id, item) in all.iter_entries() {
        push_name(to, what, id.index(), item.own_name())?;
    }
    Ok(())
}

/// Puts the names of types behind the others, by rising id.
fn push_type_names<'a>(
    alloc: Global,
    to: &mut Vec<NameOf<'a>>,
    types: &'a ModuleTypes,
) -> result::Result<(), AllocError>
    ensures { OnOk result (map name_told to.new.items ≡ map name_told to.old.items
        ++ type_names_in (type_names types.now) (live_places (type_slots types.now))) }
{
    let ids = types.ids(alloc)?;
    'types: for id in &ids {
        push_name(to, OF_TYPE, id.index(), &types.get(*id).name)?;
    }
    Ok(())
}

/// All names that a module holds but those of locals: the module's, and those of types, functions, tables, memories, globals, tags, segments of
/// elements and of data.
fn names_of<'a>(alloc: Global, parts: Parts<'a>) -> result::Result<Vec<NameOf<'a>>, AllocError>
    ensures { IfOk result (λ names. map name_told names.items ≡ all_names (lent parts.entry)) }
{
    let mut names = Vec::new(alloc);
    push_name(&mut names, OF_MODULE, 0, parts.name)?;
    push_type_names(alloc, &mut names, parts.types)?;
    push_names(&mut names, OF_FUNCTION, parts.funcs)?;
    push_names(&mut names, OF_TABLE, parts.tables)?;
    push_names(&mut names, OF_MEMORY, parts.memories)?;
    push_names(&mut names, OF_GLOBAL, parts.globals)?;
    push_names(&mut names, OF_TAG, parts.tags)?;
    push_names(&mut names, OF_ELEMENT, parts.elements)?;
    push_names(&mut names, OF_DATA, parts.data_)?;
    Ok(names)
}

/// Tells all names that a module holds but those of locals.
pub(crate) fn tell_names(
    alloc: Global,
    to: &mut Vec<u8>,
    parts: Parts<'_>,
) -> result::Result<(), WireError>
    ensures { PutsAll result to.old.items to.new.items (all_names (lent parts.entry)) }
{
    let names = names_of(alloc, parts)?;
    tell_all(alloc, to, &names)
}
