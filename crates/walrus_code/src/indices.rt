//! Items by their indices (Structure > Modules > Indices).
ghost use Rattle.std.specs.Prelude.{◌≡◌, ◌≢◌, ◌≤◌, ◌<◌, ◌^◌, ◌++◌, ◌∷◌, [], ℕ, length, map, Some, Contains, IsFalse, IsTrue, IfOk, MatchResult, option_map, slice_get};
ghost use Rattle.std.specs.List.{range_with_len};
ghost use Rattle.walrus_base.specs.Id.{place};
ghost use Rattle.walrus_base.specs.Operators.{Space, Types, Functions, Tables, Memories, Tags, Globals, Elements, DataSegments};

use std::alloc::{AllocError, Global};
use walrus_base::{
    DataId, DataKey, ElementId, ElementKey, FunctionId, FunctionKey, GlobalId, GlobalKey, Id,
    MemoryId, MemoryKey, TableId, TableKey, TagId, TagKey, TypeId, TypeKey,
};

/// The ids of the items of one index space by their indices.
///
/// Those in front that are the places of their indices are counted, and take no memory.
#[derive(Drop)]
pub struct IndexSpace<K> {
    // So many are counted in front.
    front: usize,
    // Those behind.
    behind: Vec<Id<K>>,
    ghost few: { front ≤ 2 ^ 32 },
    ghost no_more: { slice_get (map place behind.items) 0 ≢ Some front },
}

impl<K> IndexSpace<K> {
    ghost use Rattle.walrus_code.specs.Indices.{places_of};

    /// No index is given yet. Takes no memory until an item comes that isn't at the place of its index.
    pub fn new(alloc: Global) -> IndexSpace<K>
        ensures { places_of result ≡ [] }
    {
        IndexSpace {
            front: 0,
            behind: Vec::new(alloc),
        }
    }

    /// A space whose ids are its indices: the items at so many first places, in their order.
    pub fn in_place(alloc: Global, count: usize) -> Result<IndexSpace<K>, AllocError>
        requires { count ≤ 2 ^ 32 }
        ensures { IfOk result (λ space. places_of space ≡ range_with_len 0 count) }
    {
        Ok(IndexSpace {
            front: count,
            behind: Vec::new(alloc),
        })
    }

    /// Gives the item, which has no index yet, the next one. Where memory runs out, nothing changes.
    pub fn push(&mut self, id: Id<K>) -> Result<(), AllocError>
        requires is_new { Contains (places_of self.old) (place id) → ⊥ }
        requires room { length (places_of self.old) < 2 ^ 32 }
        ensures { MatchResult result
            (λ _. places_of self.new ≡ places_of self.old ++ place id ∷ [])
            (λ _. places_of self.new ≡ places_of self.old) }
    {
        if self.goes_on_with(id) {
            self.front += 1;
            return Ok(());
        }
        self.behind.push(id)?;
        Ok(())
    }

    // Whether none is behind, and the item is at the place of the next index.
    #[inline]
    fn goes_on_with(&self, id: Id<K>) -> bool
        ensures yes { IsTrue result → (length self.now.behind.items ≡ 0) × (place id ≡ self.now.front) }
        ensures no { IsFalse result → length self.now.behind.items ≡ 0 → place id ≢ self.now.front }
    {
        self.behind.is_empty() && id.index() == self.front
    }

    /// The item of this index, if one is given it.
    pub fn get(&self, index: u32) -> Option<Id<K>>
        ensures { option_map place result ≡ slice_get (places_of self.now) index }
    {
        let index = index as usize;
        if index < self.front {
            return Some(Id::at(index));
        }
        self.behind.get(index - self.front).copied()
    }

    /// How many indices are given.
    pub fn len(&self) -> usize
        ensures { result ≡ length (places_of self.now) }
    {
        self.front + self.behind.len()
    }

    /// How many items stand in front each of which is at the place of its index.
    pub fn in_front(&self) -> usize
        ensures in_place { (index : ℕ) → index < result → slice_get (places_of self.now) index ≡ Some index }
        ensures no_more { slice_get (places_of self.now) result ≢ Some result }
    {
        self.front
    }
}

/// The ids of a module's items by their indices in the input.
#[derive(Drop)]
pub struct IndicesToIds {
    /// The types.
    pub types: IndexSpace<TypeKey>,
    /// The functions.
    pub functions: IndexSpace<FunctionKey>,
    /// The tables.
    pub tables: IndexSpace<TableKey>,
    /// The memories.
    pub memories: IndexSpace<MemoryKey>,
    /// The tags.
    pub tags: IndexSpace<TagKey>,
    /// The globals.
    pub globals: IndexSpace<GlobalKey>,
    /// The element segments.
    pub elements: IndexSpace<ElementKey>,
    /// The data segments.
    pub data_: IndexSpace<DataKey>,
}

impl IndicesToIds {
    ghost use Rattle.walrus_code.specs.Indices.{places_in, ids_at, Pushes, SamePlaces};

    /// No index is given yet. Takes no memory until the first one is.
    pub fn new(alloc: Global) -> IndicesToIds
        ensures { (space : Space) → places_in result space ≡ [] }
    {
        IndicesToIds {
            types: IndexSpace::new(alloc),
            functions: IndexSpace::new(alloc),
            tables: IndexSpace::new(alloc),
            memories: IndexSpace::new(alloc),
            tags: IndexSpace::new(alloc),
            globals: IndexSpace::new(alloc),
            elements: IndexSpace::new(alloc),
            data_: IndexSpace::new(alloc),
        }
    }

    /// Gives the type, which has no index yet, the next one. Where memory runs out, nothing changes.
    pub fn push_type(&mut self, id: TypeId) -> Result<(), AllocError>
        requires is_new { Contains (places_in self.old Types) (place id) → ⊥ }
        requires room { length (places_in self.old Types) < 2 ^ 32 }
        ensures { MatchResult result
            (λ _. Pushes self.old self.new Types (place id))
            (λ _. SamePlaces self.old self.new) }
    {
        self.types.push(id)
    }

    /// The type of this index, if one is given it.
    pub fn get_type(&self, index: u32) -> Option<TypeId>
        ensures { option_map place result ≡ ids_at self.now Types index }
    {
        self.types.get(index)
    }

    /// Gives the function, which has no index yet, the next one. Where memory runs out, nothing changes.
    pub fn push_func(&mut self, id: FunctionId) -> Result<(), AllocError>
        requires is_new { Contains (places_in self.old Functions) (place id) → ⊥ }
        requires room { length (places_in self.old Functions) < 2 ^ 32 }
        ensures { MatchResult result
            (λ _. Pushes self.old self.new Functions (place id))
            (λ _. SamePlaces self.old self.new) }
    {
        self.functions.push(id)
    }

    /// The function of this index, if one is given it.
    pub fn get_func(&self, index: u32) -> Option<FunctionId>
        ensures { option_map place result ≡ ids_at self.now Functions index }
    {
        self.functions.get(index)
    }

    /// Gives the table, which has no index yet, the next one. Where memory runs out, nothing changes.
    pub fn push_table(&mut self, id: TableId) -> Result<(), AllocError>
        requires is_new { Contains (places_in self.old Tables) (place id) → ⊥ }
        requires room { length (places_in self.old Tables) < 2 ^ 32 }
        ensures { MatchResult result
            (λ _. Pushes self.old self.new Tables (place id))
            (λ _. SamePlaces self.old self.new) }
    {
        self.tables.push(id)
    }

    /// The table of this index, if one is given it.
    pub fn get_table(&self, index: u32) -> Option<TableId>
        ensures { option_map place result ≡ ids_at self.now Tables index }
    {
        self.tables.get(index)
    }

    /// Gives the memory, which has no index yet, the next one. Where memory runs out, nothing changes.
    pub fn push_memory(&mut self, id: MemoryId) -> Result<(), AllocError>
        requires is_new { Contains (places_in self.old Memories) (place id) → ⊥ }
        requires room { length (places_in self.old Memories) < 2 ^ 32 }
        ensures { MatchResult result
            (λ _. Pushes self.old self.new Memories (place id))
            (λ _. SamePlaces self.old self.new) }
    {
        self.memories.push(id)
    }

    /// The memory of this index, if one is given it.
    pub fn get_memory(&self, index: u32) -> Option<MemoryId>
        ensures { option_map place result ≡ ids_at self.now Memories index }
    {
        self.memories.get(index)
    }

    /// Gives the tag, which has no index yet, the next one. Where memory runs out, nothing changes.
    pub fn push_tag(&mut self, id: TagId) -> Result<(), AllocError>
        requires is_new { Contains (places_in self.old Tags) (place id) → ⊥ }
        requires room { length (places_in self.old Tags) < 2 ^ 32 }
        ensures { MatchResult result
            (λ _. Pushes self.old self.new Tags (place id))
            (λ _. SamePlaces self.old self.new) }
    {
        self.tags.push(id)
    }

    /// The tag of this index, if one is given it.
    pub fn get_tag(&self, index: u32) -> Option<TagId>
        ensures { option_map place result ≡ ids_at self.now Tags index }
    {
        self.tags.get(index)
    }

    /// Gives the global, which has no index yet, the next one. Where memory runs out, nothing changes.
    pub fn push_global(&mut self, id: GlobalId) -> Result<(), AllocError>
        requires is_new { Contains (places_in self.old Globals) (place id) → ⊥ }
        requires room { length (places_in self.old Globals) < 2 ^ 32 }
        ensures { MatchResult result
            (λ _. Pushes self.old self.new Globals (place id))
            (λ _. SamePlaces self.old self.new) }
    {
        self.globals.push(id)
    }

    /// The global of this index, if one is given it.
    pub fn get_global(&self, index: u32) -> Option<GlobalId>
        ensures { option_map place result ≡ ids_at self.now Globals index }
    {
        self.globals.get(index)
    }

    /// Gives the element segment, which has no index yet, the next one. Where memory runs out, nothing changes.
    pub fn push_element(&mut self, id: ElementId) -> Result<(), AllocError>
        requires is_new { Contains (places_in self.old Elements) (place id) → ⊥ }
        requires room { length (places_in self.old Elements) < 2 ^ 32 }
        ensures { MatchResult result
            (λ _. Pushes self.old self.new Elements (place id))
            (λ _. SamePlaces self.old self.new) }
    {
        self.elements.push(id)
    }

    /// The element segment of this index, if one is given it.
    pub fn get_element(&self, index: u32) -> Option<ElementId>
        ensures { option_map place result ≡ ids_at self.now Elements index }
    {
        self.elements.get(index)
    }

    /// Gives the data segment, which has no index yet, the next one. Where memory runs out, nothing changes.
    pub fn push_data(&mut self, id: DataId) -> Result<(), AllocError>
        requires is_new { Contains (places_in self.old DataSegments) (place id) → ⊥ }
        requires room { length (places_in self.old DataSegments) < 2 ^ 32 }
        ensures { MatchResult result
            (λ _. Pushes self.old self.new DataSegments (place id))
            (λ _. SamePlaces self.old self.new) }
    {
        self.data_.push(id)
    }

    /// The data segment of this index, if one is given it.
    pub fn get_data(&self, index: u32) -> Option<DataId>
        ensures { option_map place result ≡ ids_at self.now DataSegments index }
    {
        self.data_.get(index)
    }
}
