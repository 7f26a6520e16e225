//! Lists of what is told of a module, as bytes for callers of other languages.

ghost use Rattle.std.specs.Prelude.{◌≡◌, ◌++◌, ◌^◌, ◌≤◌, ◌<◌, ℕ, List, IfErr, IfOk, OnOk, flat_map, map};
ghost use Rattle.walrus.specs.Code.Code.{item_of};
ghost use Rattle.walrus_tools.specs.ExportList.{item_bytes, kind_number};
ghost use Rattle.walrus_sections.specs.Numbers.{RefusesIf};
ghost use Rattle.walrus_tools.specs.Spelled.{HasLong, NoneLong};

use crate::lines::item_index;
use std::alloc::Global;
use walrus::{ItemId, Result};
use walrus_sections::{add_number, narrow};

/// What is told of one item. Contracts see of it a `Seen`; `spell` is its bytes, and `IsLong` says that it has a number or a name that is too
/// long for them.
pub(crate) trait Told {
    ghost Seen: { Type 0 };

    ghost seen: { Self → Seen };

    ghost spell: { Seen → List ℕ };

    ghost IsLong: { Seen → Type 0 };

    /// Puts it behind the bytes.
    ///
    /// # Errors
    ///
    /// `TooLarge` exactly where a number or a name in it is too long, and `Memory`.
    fn add_to(&self, to: &mut Vec<u8>) -> Result<()>
        ensures value { OnOk result (to.new.items ≡ to.old.items ++ spell (seen self.now)) }
        ensures fits { OnOk result (IsLong (seen self.now) → ⊥) }
        ensures refused { IfErr result (RefusesIf (IsLong (seen self.now))) };
}

/// Puts all of these behind the bytes, one behind another.
///
/// # Errors
///
/// `TooLarge` exactly where one of them has a number or a name that is too long, and `Memory`.
pub(crate) fn add_all<T: Told>(to: &mut Vec<u8>, all: &[T]) -> Result<()>
    ensures value { OnOk result (to.new.items ≡ to.old.items ++ flat_map T.spell (map T.seen all.now)) }
    ensures fits { OnOk result (NoneLong T.IsLong (map T.seen all.now)) }
    ensures refused { IfErr result (RefusesIf (HasLong T.IsLong (map T.seen all.now))) }
{
    'added: for item in all {
        item.add_to(to)?;
    }
    Ok(())
}

/// The bytes of all of these, one behind another.
///
/// # Errors
///
/// `TooLarge` exactly where one of them has a number or a name that is too long, and `Memory`.
pub(crate) fn spelled<T: Told>(alloc: Global, all: &[T]) -> Result<Vec<u8>>
    ensures value { IfOk result (λ list. list.items ≡ flat_map T.spell (map T.seen all.now)) }
    ensures fits { OnOk result (NoneLong T.IsLong (map T.seen all.now)) }
    ensures refused { IfErr result (RefusesIf (HasLong T.IsLong (map T.seen all.now))) }
{
    let mut list = Vec::new(alloc);
    'told: for item in all {
        item.add_to(&mut list)?;
    }
    Ok(list)
}

// The number of what an item is.
fn kind_byte(item: ItemId) -> u8
    ensures { result ≡ kind_number ((item_of item).0) }
{
    match item {
        ItemId::Function(_) => 0,
        ItemId::Table(_) => 1,
        ItemId::Memory(_) => 2,
        ItemId::Global(_) => 3,
        ItemId::Tag(_) => 4,
        ItemId::Type(_) => 5,
        ItemId::Element(_) => 6,
        ItemId::Data(_) => 7,
    }
}

/// Puts what an item is and its index behind the bytes.
///
/// # Errors
///
/// `TooLarge` exactly where the index passes 32 bits, and `Memory`.
pub(crate) fn add_item(to: &mut Vec<u8>, item: ItemId) -> Result<()>
    ensures value { OnOk result (to.new.items ≡ to.old.items ++ item_bytes (item_of item)) }
    ensures fits { OnOk result ((item_of item).1 < 2 ^ 32) }
    ensures refused { IfErr result (RefusesIf (2 ^ 32 ≤ (item_of item).1)) }
{
    let index = narrow(item_index(item))?;
    to.push(kind_byte(item))?;
    Ok(add_number(to, index)?)
}
