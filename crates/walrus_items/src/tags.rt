//! The tags of a module ("Structure > Modules > Tags").
ghost use Rattle.std.specs.Prelude.{◌≡◌, [], Some, None, IsTrue, ◌↔◌, IsOkUnless, count_by, is_some, slice_set, IfOk, IsOk, OnOk, length};
ghost use Rattle.std.specs.Borrow.{sem};
ghost use Rattle.std.specs.Iterator.{YieldsFirstBy, item_count};
ghost use Rattle.walrus_base.specs.Id.{place};
ghost use Rattle.walrus_base.specs.Arena.{HasRoom, item_at, IsLive, items, entries, kept_by};
ghost use Rattle.walrus_items.specs.Errors.{out_of_memory};
ghost use Rattle.walrus_items.specs.Added.{IsAdded};

use crate::error::Result;
use crate::items::{Item, ItemEntries, ItemIter, Items, Marked};
use crate::kinds::TagKind;
use std::alloc::Global;
use walrus_base::{ImportId, TagId, TagKey, TombstoneArena, TypeId};

/// A tag of a module: a kind of exceptions.
#[derive(Drop)]
pub struct Tag {
    id: TagId,
    /// The type of a function that takes what an exception of the tag carries.
    pub ty: TypeId,
    /// Where the tag comes from.
    pub kind: TagKind,
    /// The name that the name section gives it.
    pub name: Option<String>,
}

impl Tag {
    ghost use Rattle.walrus_items.specs.Tags.{tag_value};

    /// A tag of the module's own, of this type, under this id, without a name.
    pub fn new(id: TagId, ty: TypeId) -> Tag
        ensures { tag_value result ≡ record {
          id = place id;
          ty = place ty;
          imported_by = None;
          name = None;
        } }
    {
        Tag {
            id,
            ty,
            kind: TagKind::Local,
            name: None,
        }
    }

    /// The id under which the tag was added.
    pub fn id(&self) -> TagId
        ensures { place result ≡ (tag_value self.now).id }
    {
        self.id
    }

    /// The id of its type.
    pub fn ty(&self) -> TypeId
        ensures { result ≡ self.now.ty }
    {
        self.ty
    }
}

impl Item for Tag {
    ghost use Rattle.walrus_items.specs.Tags.{TagValue, tag_value};

    ghost Seen = { TagValue };

    ghost value = { tag_value };
}

impl Marked for Tag {}

/// The tags of a module, by their ids. Deleted ids are never used again.
pub type ModuleTags = Items<TagKey, Tag>;

impl Items<TagKey, Tag> {
    ghost use Rattle.walrus_items.specs.Tags.{TagValue, tag_value, tags, tags_left, tag_entries_left};

    /// No tags. `Memory` is the only error.
    pub fn new(alloc: Global) -> Result<ModuleTags>
        ensures value { IfOk result (λ all. tags all ≡ []) }
        ensures fails { IsOkUnless result out_of_memory }
    {
        Ok(Items {
            arena: TombstoneArena::new(alloc),
            alloc,
        })
    }

    /// Adds a tag of this type, without a name. `Memory` is the only error; then nothing changes.
    pub fn add(&mut self, ty: TypeId) -> Result<TagId>
        ensures { IsAdded result (tags self.old) (tags self.new) (λ own. record {
          id = own;
          ty = place ty;
          imported_by = None;
          name = None;
        }) }
    {
        let id = self.arena.next_id();
        Ok(self.arena.alloc(Tag::new(id, ty))?)
    }

    /// Adds a tag that this import brings in, without a name. `Memory` is the only error; then nothing changes.
    pub fn add_import(&mut self, ty: TypeId, import: ImportId) -> Result<TagId>
        ensures added { IsAdded result (tags self.old) (tags self.new) (λ own. record {
          id = own;
          ty = place ty;
          imported_by = Some (place «import»);
          name = None;
        }) }
        ensures succeeds { HasRoom self.old.arena 1 → IsOk result }
    {
        let id = self.arena.next_id();
        Ok(
            self.arena.alloc(Tag {
                id,
                ty,
                kind: TagKind::Import(import),
                name: None,
            })?,
        )
    }
}

/// The tags of a module, by rising id.
pub type TagIter<'a> = ItemIter<'a, TagKey, Tag>;

/// The tags of a module with their ids, by rising id.
pub type TagEntries<'a> = ItemEntries<'a, TagKey, Tag>;
