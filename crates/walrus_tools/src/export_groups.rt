//! The names of exports, by what is exported.

ghost use Rattle.std.specs.Prelude.{◌≡◌, IfOk, OnOk, map, string_bytes};
ghost use Rattle.walrus.specs.Base.Arena.{items};
ghost use Rattle.walrus.specs.Code.Code.{item_of};
ghost use Rattle.walrus.specs.Items.Exports.{exports};
ghost use Rattle.walrus.specs.Items.Items.{space_number};
ghost use Rattle.walrus_tools.specs.LinkSteps.{AddsName, GroupsExports, key_of, names_at, texts};

use crate::lines::item_index;
use std::alloc::{AllocError, Global};
use std::collections::HashMap;
use walrus::{ItemId, ModuleExports};

/// The names of exports by what is exported: by the number of its kind, and its index.
#[derive(Drop)]
pub(crate) struct ExportGroups<'a> {
    names: HashMap<(u8, usize), Vec<&'a str>>,
}

/// The number of an item's kind: types, functions, tables, memories, tags, globals, elements and data from 0 on.
pub(crate) fn kind_number(item: ItemId) -> u8
    ensures { result ≡ space_number (item_of item).0 }
{
    match item {
        ItemId::Type(_) => 0,
        ItemId::Function(_) => 1,
        ItemId::Table(_) => 2,
        ItemId::Memory(_) => 3,
        ItemId::Tag(_) => 4,
        ItemId::Global(_) => 5,
        ItemId::Element(_) => 6,
        ItemId::Data(_) => 7,
    }
}

// What the names of an item stand under.
fn key_of(item: ItemId) -> (u8, usize)
    ensures { result ≡ key_of (item_of item) }
{
    (kind_number(item), item_index(item))
}

// Puts a name behind those that stand under a key.
fn add_name<'a>(
    alloc: Global,
    groups: &mut ExportGroups<'a>,
    key: (u8, usize),
    name: &'a str,
) -> Result<(), AllocError>
    ensures { OnOk result (AddsName key name.now groups.old groups.new) }
{
    match groups.names.get_mut(&key) {
        Some(names) => {
            names.push(name)?;
        }
        None => {
            let mut names = Vec::new(alloc);
            names.push(name)?;
            groups.names.insert(key, names)?;
        }
    }
    Ok(())
}

/// The names of these exports, by rising id under each item. Takes a walk over them.
pub(crate) fn groups_of<'a>(
    alloc: Global,
    all: &'a ModuleExports,
) -> Result<ExportGroups<'a>, AllocError>
    ensures { IfOk result (λ groups. GroupsExports (items (exports all.now)) groups) }
{
    let mut groups = ExportGroups {
        names: HashMap::new(alloc),
    };
    'exports: for export in all.iter() {
        add_name(
            alloc,
            &mut groups,
            key_of(export.item.item_id()),
            export.name.as_str(),
        )?;
    }
    Ok(groups)
}

// Texts of one's own.
fn all_owned(alloc: Global, names: &[&str]) -> Result<Vec<String>, AllocError>
    ensures { IfOk result (λ all. map string_bytes all.items ≡ texts names.now) }
{
    let mut all = Vec::new(alloc);
    'names: for name in names {
        all.push(String::from_str(alloc, name)?)?;
    }
    Ok(all)
}

/// The names under which the item is exported. Takes a look-up.
pub(crate) fn names_of(
    alloc: Global,
    groups: &ExportGroups<'_>,
    item: ItemId,
) -> Result<Vec<String>, AllocError>
    ensures { IfOk result (λ all. map string_bytes all.items ≡ names_at groups.now (key_of (item_of item))) }
{
    let key = key_of(item);
    match groups.names.get(&key) {
        Some(names) => all_owned(alloc, names.as_slice()),
        None => Ok(Vec::new(alloc)),
    }
}
