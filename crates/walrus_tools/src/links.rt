//! What is told of an item: its names, and what it costs.

ghost use Rattle.std.specs.Option.{option_to_list};
ghost use Rattle.std.specs.Prelude.{◌≡◌, IfOk, map, option_map};
ghost use Rattle.walrus.specs.Base.Id.{place};
ghost use Rattle.walrus.specs.Code.Code.{item_of};
ghost use Rattle.walrus.specs.Base.Arena.{items};
ghost use Rattle.walrus.specs.Contents.Named.{items_in};
ghost use Rattle.walrus.specs.Contents.View.{parts_view};
ghost use Rattle.walrus.specs.Items.Exports.{exports};
ghost use Rattle.walrus.specs.Items.Seen.{text_of};
ghost use Rattle.walrus.specs.Items.Transform.{range_of};
ghost use Rattle.walrus_tools.specs.LinkSteps.{AreRising, FindsBody, GroupsExports, lent_name};
ghost use Rattle.walrus_tools.specs.Links.{body_size, link_of, link_seen, links_in};

use crate::export_groups::{ExportGroups, groups_of, names_of};
use crate::item_names::name_in;
use std::alloc::{AllocError, Global};
use std::ops::Range;
use std::result;
use walrus::below::Parts;
use walrus::{FunctionId, ItemId};

/// An item that stays, with what is told of it.
#[derive(Drop)]
pub struct Link {
    /// The item, by its index in the bytes that were read.
    pub item: ItemId,
    /// Its name, if it has one.
    pub name: Option<String>,
    /// The names under which it is exported, by rising id of the exports.
    pub exports: Vec<String>,
    /// Of a function with a body: how many bytes that has in the module that is left.
    pub size: Option<usize>,
}

// A text of one's own.
fn owned(alloc: Global, name: Option<&str>) -> result::Result<Option<String>, AllocError>
    ensures { IfOk result (λ text. option_to_list (text_of text) ≡ lent_name name.entry) }
{
    match name {
        Some(name) => Ok(Some(String::from_str(alloc, name)?)),
        None => Ok(None),
    }
}

// The place of the body of the function of this id, if it is one of these.
fn place_of(bodies: &[(FunctionId, Range<usize>)], id: FunctionId) -> Option<usize>
    requires { AreRising (map range_of bodies.now) }
    ensures { FindsBody bodies.now (place id) result }
{
    let index = id.index();
    match bodies.binary_search_by_key(&index, |body| body.0.index()) {
        Ok(at) => Some(at),
        Err(_) => None,
    }
}

// How many bytes the body of the function has that the item is, if it is one of these.
fn body_size(bodies: &[(FunctionId, Range<usize>)], item: ItemId) -> Option<usize>
    requires { AreRising (map range_of bodies.now) }
    ensures { result ≡ body_size (map range_of bodies.now) (item_of item) }
{
    let ItemId::Function(id) = item else {
        return None;
    };
    let at = place_of(bodies, id)?;
    let range = &bodies[at].1;
    Some(range.end.saturating_sub(range.start))
}

// What is told of an item.
fn link_of(
    alloc: Global,
    parts: Parts<'_>,
    groups: &ExportGroups<'_>,
    bodies: &[(FunctionId, Range<usize>)],
    item: ItemId,
) -> result::Result<Link, AllocError>
    requires rise { AreRising (map range_of bodies.now) }
    requires grouped { GroupsExports (items (exports parts.exports.now)) groups.now }
    ensures { IfOk result (λ l. link_seen l
        ≡ link_of (parts_view parts.entry) (map range_of bodies.now) (item_of item)) }
{
    Ok(Link {
        item,
        name: owned(alloc, name_in(parts, item))?,
        exports: names_of(alloc, groups, item)?,
        size: body_size(bodies, item),
    })
}

/// What is told of these items of a module whose functions have these bodies. Takes a walk over all exports, and for each item two look-ups.
pub(crate) fn links_of(
    alloc: Global,
    parts: Parts<'_>,
    bodies: &[(FunctionId, Range<usize>)],
    items: &[ItemId],
) -> result::Result<Vec<Link>, AllocError>
    requires { AreRising (map range_of bodies.now) }
    ensures { IfOk result (λ links. map link_seen links.items
        ≡ map (link_of (parts_view parts.entry) (map range_of bodies.now)) (map item_of items.now)) }
{
    let groups = groups_of(alloc, parts.exports)?;
    let mut links = Vec::new(alloc);
    'items: for item in items {
        let link = link_of(alloc, parts, &groups, bodies, *item)?;
        links.push(link)?;
    }
    Ok(links)
}

/// The same of a chain, if there is one.
pub(crate) fn links_of_chain(
    alloc: Global,
    parts: Parts<'_>,
    bodies: &[(FunctionId, Range<usize>)],
    chain: &Option<Vec<ItemId>>,
) -> result::Result<Option<Vec<Link>>, AllocError>
    requires { AreRising (map range_of bodies.now) }
    ensures { IfOk result (λ links. links_in links ≡ option_map
        (map (link_of (parts_view parts.entry) (map range_of bodies.now))) (option_map items_in chain.now)) }
{
    match chain {
        Some(items) => Ok(Some(links_of(alloc, parts, bodies, items)?)),
        None => Ok(None),
    }
}
