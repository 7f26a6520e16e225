//! How many items of each kind a module has.

ghost use Rattle.std.specs.Prelude.{◌≡◌, is_some};
ghost use Rattle.walrus.specs.Base.Arena.{item_at};
ghost use Rattle.walrus.specs.Items.Held.{held};
ghost use Rattle.walrus.specs.Modules.View.{contents_of};
ghost use Rattle.walrus_tools.specs.Kinds.{kinds_in, there};

use walrus::below::{Item, Items};
use walrus::{Id, Module};

/// How many items of each kind there are, imported ones among them.
#[derive(Clone, Copy, Debug, PartialEq, Eq)]
pub struct Kinds {
    pub functions: usize,
    pub tables: usize,
    pub memories: usize,
    pub tags: usize,
    pub globals: usize,
    pub elements: usize,
    pub data_: usize,
}

// Whether an item stands at the place.
fn is_there<K, T: Item>(all: &Items<K, T>, place: usize) -> bool
    ensures { result ≡ is_some (item_at (held T.value all.now) place) }
{
    all.contains(Id::at(place))
}

// At how many places an item stands.
fn count<K, T: Item>(all: &Items<K, T>) -> usize
    ensures { result ≡ there (held T.value all.now) }
{
    (0..all.next_id().index())
        .filter(|place| is_there(all, *place))
        .count()
}

/// How many items of each kind the module has.
pub(crate) fn kinds_of(module: &Module) -> Kinds
    ensures { result ≡ kinds_in (contents_of «module».now) }
{
    Kinds {
        functions: count(&module.funcs),
        tables: count(&module.tables),
        memories: count(&module.memories),
        tags: count(&module.tags),
        globals: count(&module.globals),
        elements: count(&module.elements),
        data_: count(&module.data_),
    }
}
