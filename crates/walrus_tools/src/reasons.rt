//! Why an item stays.

use crate::goers::Alone;
use crate::links::Link;
use crate::roots::Root;
use walrus::ItemId;

/// Why an item stays where what nothing reaches goes. Its ids are those of the module that was read, whose indices are the ones in the bytes.
#[derive(Drop)]
pub struct Reason {
    /// The item.
    pub item: ItemId,
    /// The items of a chain of references that leads to it: a root first, each refers to the next, and the item is the last. None where it
    /// isn't reached.
    pub links: Option<Vec<Link>>,
    /// What makes the first link a root. None where there is no chain.
    pub root: Option<Root>,
    /// Of a function with a body that stays: it and what it alone keeps.
    pub alone: Option<Alone>,
}
