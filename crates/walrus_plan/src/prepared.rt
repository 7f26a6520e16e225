//! The plan of a module's parts and the indices of their items, where each item has one ("Structure > Modules > Indices").
ghost use Rattle.std.specs.Prelude.{IfOk, IfErr};
ghost use Rattle.walrus_contents.specs.View.{parts_view};
ghost use Rattle.walrus_model.specs.Dead.{HasDead};
ghost use Rattle.walrus_plan.specs.Prepared.{IsPrepared};
ghost use Rattle.walrus_plan.specs.Refusals.{RefusesPlan};

use crate::count::count_of;
use crate::matched::check_matched;
use crate::plan::Plan;
use crate::reads::are_reads_in_order;
use std::alloc::Global;
use walrus_code::IdsToIndices;
use walrus_contents::Parts;
use walrus_groups::are_in_order;
use walrus_items::{Error, Result};

/// What a module's parts are written by: the order of their items, and the index that each has by it.
#[derive(Drop)]
pub struct Prepared {
    /// The items of each index space, in the order in which they are written.
    pub plan: Plan,
    /// The index of each of them.
    pub indices: IdsToIndices,
    /// How many data segments there are, where that has to be said ahead of the bodies: a segment is passive, or a body names one ("Binary
    /// Format > Modules > Data Count Section").
    pub data_count: Option<u32>,
}

/// The plan of these parts, in which nothing dead is named, and the indices of their items.
///
/// # Errors
///
/// Each with a cause of its own: `TwoIndices` where an import names an item that the module defines, or two imports name one; `NoIndex` where
/// an item says to be brought by an import that isn't there or names another item, the initialiser of a table reads a global of the module,
/// that of a global itself or a later one, or a type names one of a later group or a later supertype; `TooLarge` where an index space has 2^32
/// items or more, and none of these causes stands; and `Memory`.
pub fn prepare(alloc: Global, parts: Parts<'_>) -> Result<Prepared>
    requires there { HasDead (parts_view parts) → ⊥ }
    ensures prepared { IfOk result (IsPrepared parts.entry) }
    ensures refused { IfErr result (RefusesPlan parts.entry) }
{
    check_matched(parts)?;
    if !are_reads_in_order(alloc, parts)? {
        return Err(Error::NoIndex);
    }
    if !are_in_order(parts.types) {
        return Err(Error::NoIndex);
    }
    let plan = Plan::new(alloc, parts)?;
    let indices = plan.indices(alloc)?;
    let data_count = count_of(parts, plan.data_.len());
    Ok(Prepared {
        plan,
        indices,
        data_count,
    })
}
