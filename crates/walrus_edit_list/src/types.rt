//! Types that come (Binary Format > Modules > Type Section).

ghost use Rattle.std.specs.Prelude.{MatchResult, map};
ghost use Rattle.wasm_entries.specs.Record.{group};
ghost use Rattle.walrus_edit_list.specs.Held.{held};
ghost use Rattle.walrus_edit_list.specs.Types.{AddsTypes, RefusesTypes};

use crate::beside::Beside;
use std::alloc::Global;
use walrus_code::{IndexSpace, IndicesToIds};
use walrus_groups::read_types;
use walrus_items::{Error, ErrorKind, Result};
use walrus_module::Module;
use wasm_entries::RawGroup;

/// Adds these types behind the others, a group at a time; none has a name. A body that was read before may have added types of its own, so none
/// comes behind one: else their ids weren't those that the list counts on.
///
/// # Errors
///
/// `InvalidWasm` only where a body was read before, or a type names one that isn't declared before the end of its group, or has two supertypes,
/// `TooLarge` only where there are more than 2^32 types, and `Memory`.
pub(crate) fn add_types<S>(
    alloc: Global,
    groups: &[RawGroup],
    module: &mut Module<S>,
    beside: &Beside,
) -> Result<()>
    ensures { MatchResult result
        (λ _. AddsTypes (map group groups.now) (held «module».old beside.now) (held «module».new beside.now))
        (RefusesTypes (map group groups.now) (held «module».old beside.now)) }
{
    if beside.has_read {
        return Err(Error::InvalidWasm(ErrorKind::InvalidWasm));
    }
    let count = module.types.next_id().index();
    if count > 1 << 32 {
        return Err(Error::TooLarge);
    }
    let mut ids = IndicesToIds::new(alloc);
    ids.types = IndexSpace::in_place(alloc, count)?;
    read_types(alloc, groups, &mut ids, &mut module.types)?;
    Ok(())
}
