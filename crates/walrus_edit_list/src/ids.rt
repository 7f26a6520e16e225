//! The ids of a module by their numbers, as it is then ("Structure > Modules > Indices").

ghost use Rattle.std.specs.Prelude.{◌≡◌, ◌<◌, ◌^◌, IfOk, IsOkUnless, MatchResult};
ghost use Rattle.std.specs.List.{range_with_len};
ghost use Rattle.walrus_code.specs.Indices.{ids_at, index_in, index_of, places_of};
ghost use Rattle.walrus_functions.specs.Signatures.{tag_places};
ghost use Rattle.walrus_items.specs.Errors.{out_of_memory};
ghost use Rattle.walrus_module.specs.View.{contents_of};
ghost use Rattle.walrus_edit_list.specs.Ids.{HasTooMany, ids_of, tag_types};
ghost use Rattle.walrus_edit_list.specs.Joined.{IsPlaceItself, LeadsToItself};
ghost use Rattle.walrus_edit_list.specs.Refuses.{Refuses};

use std::alloc::{AllocError, Global};
use std::result;
use walrus_base::{Id, TypeId};
use walrus_code::{IdsToIndices, IndexSpace, IndicesToIds, Numbering};
use walrus_items::{Error, ModuleTags, Result};
use walrus_module::Module;

// The ids of so many first places.
fn first_ids<K>(alloc: Global, count: usize) -> Result<IndexSpace<K>>
    ensures { MatchResult result
        (λ space. places_of space ≡ range_with_len 0 count)
        (Refuses ⊥ (2 ^ 32 < count)) }
{
    if count > 1 << 32 {
        return Err(Error::TooLarge);
    }
    Ok(IndexSpace::in_place(alloc, count)?)
}

/// Each id by its number, those of what is gone among them. Takes no memory that grows with the module.
///
/// # Errors
///
/// `TooLarge` only where more than 2^32 ids of a space were given, and `Memory`.
pub(crate) fn ids_of<S>(alloc: Global, module: &Module<S>) -> Result<IndicesToIds>
    ensures { MatchResult result
        (λ ids. ids_at ids ≡ ids_of (contents_of «module».now))
        (Refuses ⊥ (HasTooMany (contents_of «module».now))) }
{
    Ok(IndicesToIds {
        types: first_ids(alloc, module.types.next_id().index())?,
        functions: first_ids(alloc, module.funcs.next_id().index())?,
        tables: first_ids(alloc, module.tables.next_id().index())?,
        memories: first_ids(alloc, module.memories.next_id().index())?,
        tags: first_ids(alloc, module.tags.next_id().index())?,
        globals: first_ids(alloc, module.globals.next_id().index())?,
        elements: first_ids(alloc, module.elements.next_id().index())?,
        data_: first_ids(alloc, module.data_.next_id().index())?,
    })
}

/// The types of the tags, by their places. No edit deletes a tag. `Memory` is the only error.
pub(crate) fn types_of_tags(alloc: Global, all: &ModuleTags) -> Result<Vec<TypeId>>
    ensures value { IfOk result (λ types. tag_places types.items ≡ tag_types all.now) }
    ensures fails { IsOkUnless result out_of_memory }
{
    let mut types = Vec::new(alloc);
    for tag in all.iter() {
        types.push(tag.ty)?;
    }
    Ok(types)
}

// The items at so many first places, each with its place as its index; at most 2^32 of them. Takes no memory.
fn first_places<K>(alloc: Global, count: usize) -> result::Result<Numbering<K>, AllocError>
    ensures { IfOk result (λ numbers. IsPlaceItself (index_in numbers)) }
{
    let mut numbers = Numbering::new(alloc);
    'places: for place in 0..count.min(1 << 32) {
        numbers.push(Id::at(place))?;
    }
    Ok(numbers)
}

/// The place of each item as its index. Takes no memory that grows with the module. `Memory` is the only error.
pub(crate) fn places_of_items<S>(alloc: Global, module: &Module<S>) -> Result<IdsToIndices>
    ensures value { IfOk result (λ places. LeadsToItself (index_of places)) }
    ensures fails { IsOkUnless result out_of_memory }
{
    Ok(IdsToIndices {
        types: first_places(alloc, module.types.next_id().index())?,
        functions: first_places(alloc, module.funcs.next_id().index())?,
        tables: first_places(alloc, module.tables.next_id().index())?,
        memories: first_places(alloc, module.memories.next_id().index())?,
        tags: first_places(alloc, module.tags.next_id().index())?,
        globals: first_places(alloc, module.globals.next_id().index())?,
        elements: first_places(alloc, module.elements.next_id().index())?,
        data_: first_places(alloc, module.data_.next_id().index())?,
    })
}
