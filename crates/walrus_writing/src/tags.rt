//! The tag section of a module that is written.
ghost use Rattle.std.specs.Prelude.{◌≡◌, map, All, Some, IsSome, IfOk, IsOkUnless};
ghost use Rattle.walrus_base.specs.Arena.{items};
ghost use Rattle.walrus_code.specs.Indices.{index_of};
ghost use Rattle.walrus_items.specs.Tags.{tags, tag_value};
ghost use Rattle.walrus_contents.specs.View.{tag_of};
ghost use Rattle.walrus_items.specs.Errors.{out_of_memory};
ghost use Rattle.walrus_plan.specs.Brought.{own_of};
ghost use Rattle.walrus_writing.specs.Parts.{tag_index};

use std::alloc::Global;
use walrus_code::IdsToIndices;
use walrus_items::{ModuleTags, Result, Tag};
use walrus_plan::tag_import;

fn raw_tag(tag: &Tag, indices: &IdsToIndices) -> Option<u32>
    ensures { result ≡ tag_index (index_of indices.now) (tag_of (tag_value tag.now)) }
{
    indices.get_type_index(tag.ty)
}

// The index of the type of each tag that the module defines, by rising id.
pub fn raw_tags(alloc: Global, all: &ModuleTags, indices: &IdsToIndices) -> Result<Vec<u32>>
    requires indexed { All (λ o. IsSome o) (map (λ t. tag_index (index_of indices.now) (tag_of t))
        (own_of (λ x. x.imported_by) (items (tags all.now)))) }
    ensures value { IfOk result (λ raw. map Some raw.items
        ≡ map (λ t. tag_index (index_of indices.now) (tag_of t))
        (own_of (λ x. x.imported_by) (items (tags all.now)))) }
    ensures fails { IsOkUnless result out_of_memory }
{
    let mut raw = Vec::with_capacity(alloc, all.len())?;
    for tag in all.iter() {
        if tag_import(&tag.kind).is_none() {
            let Some(index) = raw_tag(tag, indices) else {
                unreachable!();
            };
            raw.push(index)?;
        }
    }
    Ok(raw)
}
