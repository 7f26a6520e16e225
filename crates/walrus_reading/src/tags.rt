//! The tags of a module that is read.
ghost use Rattle.std.specs.Prelude.{◌≡◌, ◌<◌, [], map, All, IfOk, OnOk, IsOkUnless, Some, ◌∷◌};
ghost use Rattle.walrus_base.specs.Arena.{items};
ghost use Rattle.walrus_base.specs.Id.{place};
ghost use Rattle.walrus_code.specs.Indices.{ids_at};
ghost use Rattle.walrus_items.specs.Tags.{tags};
ghost use Rattle.walrus_items.specs.Errors.{out_of_memory};
ghost use Rattle.walrus_model.specs.Sections.{tag_of};
ghost use Rattle.walrus_reading.specs.Held.{HoldsTag};
ghost use Rattle.walrus_reading.specs.Placed.{AddsPlaced};
ghost use Rattle.walrus_reading.specs.Stays.{TypeStays};

use std::alloc::Global;
use walrus_base::TypeId;
use walrus_code::IndicesToIds;
use walrus_items::{ModuleTags, Result};

// The types of the tags, by their places.
pub fn types_of_tags(alloc: Global, all: &ModuleTags) -> Result<Vec<TypeId>>
    ensures value { IfOk result (λ ids. map place ids.items ≡ map (λ t. t.ty) (items (tags all.now))) }
    ensures fails { IsOkUnless result out_of_memory }
{
    let mut types = Vec::new(alloc);
    for tag in all.iter() {
        types.push(tag.ty)?;
    }
    Ok(types)
}

// A tag of the type of this index, with the next id.
fn add_tag(ty: u32, indices: &IndicesToIds, all: &mut ModuleTags) -> Result<()>
    requires stays { TypeStays (ids_at indices.now) ty }
    ensures added { OnOk result (AddsPlaced HoldsTag (tag_of ty ∷ []) (tags all.old) (tags all.new)) }
    ensures fails { IsOkUnless result out_of_memory }
{
    let Some(id) = indices.get_type(ty) else {
        unreachable!();
    };
    all.add(id)?;
    Ok(())
}

/// Adds the tags of a tag section, each of which has the type of its index (Binary Format > Modules > Tag Section).
pub(crate) fn add_tags(raw: &[u32], indices: &IndicesToIds, all: &mut ModuleTags) -> Result<()>
    requires stay { All (TypeStays (ids_at indices.now)) raw.now }
    ensures added { OnOk result (AddsPlaced HoldsTag (map tag_of raw.now) (tags all.old) (tags all.new)) }
    ensures fails { IsOkUnless result out_of_memory }
{
    all.reserve(raw.len())?;
    for ty in raw {
        add_tag(*ty, indices, all)?;
    }
    Ok(())
}
