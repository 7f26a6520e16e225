//! The indices of items (Structure > Modules > Indices).
ghost use Rattle.std.specs.Prelude.{◌≡◌, ◌≢◌, ◌≤◌, ◌<◌, ◌^◌, ℕ, Some, None, IfOk, MatchResult, length, map, nat_eq, slice_index_or};
ghost use Rattle.std.specs.List.{IsDistinct};
ghost use Rattle.walrus_base.specs.Id.{place};
ghost use Rattle.walrus_base.specs.Operators.{Space, Types, Functions, Tables, Memories, Tags, Globals, Elements, DataSegments};

use std::alloc::{AllocError, Global};
use std::marker::PhantomData;
use walrus_base::{
    DataId, DataKey, ElementId, ElementKey, FunctionId, FunctionKey, GlobalId, GlobalKey, Id,
    MemoryId, MemoryKey, TableId, TableKey, TagId, TagKey, TypeId, TypeKey,
};

/// The indices of the items of one index space by their ids.
///
/// Those in front that are the places of their items are counted, and take no memory.
#[derive(Drop)]
pub struct Numbering<K> {
    // So many are counted in front.
    front: usize,
    // Those behind, by the places of the items less `front`.
    indices: Vec<Option<u32>>,
    // How many are given.
    count: usize,
    kind: PhantomData<K>,
    ghost few: { front ≤ 2 ^ 32 },
}

impl<K> Numbering<K> {
    ghost use Rattle.walrus_code.specs.Indices.{AddsIndex, NumbersAlong, SameNumbering, given_in, index_in};

    /// No index is given yet. Takes no memory until one is that isn't the place of its item.
    pub fn new(alloc: Global) -> Numbering<K>
        ensures given { given_in result ≡ 0 }
        ensures indices { (number : ℕ) → index_in result number ≡ None }
    {
        Numbering {
            front: 0,
            indices: Vec::new(alloc),
            count: 0,
            kind: PhantomData,
        }
    }

    /// Gives each of these items the index at which it stands; no other item has one.
    pub fn along(alloc: Global, order: &[Id<K>]) -> Result<Numbering<K>, AllocError>
        requires distinct { IsDistinct nat_eq (map place order.now) }
        requires room { length order.now ≤ 2 ^ 32 }
        ensures { IfOk result (λ numbers. NumbersAlong numbers (map place order.now)) }
    {
        let mut numbers = Numbering::new(alloc);
        'ids: for id in order {
            numbers.push(*id)?;
        }
        Ok(numbers)
    }

    /// Gives the item, which has no index yet, the next one. Where memory runs out, nothing changes.
    pub fn push(&mut self, id: Id<K>) -> Result<(), AllocError>
        requires is_new { index_in self.old (place id) ≡ None }
        requires room { given_in self.old < 2 ^ 32 }
        ensures { MatchResult result
            (λ _. AddsIndex self.old self.new (place id))
            (λ _. SameNumbering self.old self.new) }
    {
        let place = id.index();
        if self.indices.is_empty() && place == self.front && self.count == self.front {
            self.front += 1;
        } else {
            put(&mut self.indices, place - self.front, self.count as u32)?;
        }
        self.count += 1;
        Ok(())
    }

    /// The index of the item, if it is given one.
    pub fn get(&self, id: Id<K>) -> Option<u32>
        ensures { result ≡ index_in self.now (place id) }
    {
        let place = id.index();
        if place < self.front {
            return Some(place as u32);
        }
        match self.indices.get(place - self.front) {
            Some(index) => *index,
            None => None,
        }
    }

    /// How many indices are given.
    pub fn count(&self) -> usize
        ensures { result ≡ given_in self.now }
    {
        self.count
    }
}

/// Writes the index at this place. Where memory runs out, nothing changes.
fn put(indices: &mut Vec<Option<u32>>, place: usize, index: u32) -> Result<(), AllocError>
    ensures { MatchResult result
        (λ _. (slice_index_or indices.new.items place None ≡ Some index)
        × ((other : ℕ) → other ≢ place
        → slice_index_or indices.new.items other None ≡ slice_index_or indices.old.items other None))
        (λ _. indices.new.items ≡ indices.old.items) }
{
    if place >= indices.len() {
        let Some(len) = place.checked_add(1) else {
            return Err(AllocError);
        };
        indices.resize(len, None)?;
    }
    indices[place] = Some(index);
    Ok(())
}

/// The indices that a module's items get in the output, by their ids.
#[derive(Drop)]
pub struct IdsToIndices {
    /// Those of types.
    pub types: Numbering<TypeKey>,
    /// Those of functions.
    pub functions: Numbering<FunctionKey>,
    /// Those of tables.
    pub tables: Numbering<TableKey>,
    /// Those of memories.
    pub memories: Numbering<MemoryKey>,
    /// Those of tags.
    pub tags: Numbering<TagKey>,
    /// Those of globals.
    pub globals: Numbering<GlobalKey>,
    /// Those of element segments.
    pub elements: Numbering<ElementKey>,
    /// Those of data segments.
    pub data_: Numbering<DataKey>,
}

impl IdsToIndices {
    ghost use Rattle.walrus_code.specs.Indices.{index_of, given, Numbers, SameIndices};

    /// No index is given yet. Takes no memory until the first one is.
    pub fn new(alloc: Global) -> IdsToIndices
        ensures given { (space : Space) → given result space ≡ 0 }
        ensures indices { (space : Space) (number : ℕ) → index_of result space number ≡ None }
    {
        IdsToIndices {
            types: Numbering::new(alloc),
            functions: Numbering::new(alloc),
            tables: Numbering::new(alloc),
            memories: Numbering::new(alloc),
            tags: Numbering::new(alloc),
            globals: Numbering::new(alloc),
            elements: Numbering::new(alloc),
            data_: Numbering::new(alloc),
        }
    }

    /// Gives the type, which has no index yet, the next one. Where memory runs out, nothing changes.
    pub fn push_type(&mut self, id: TypeId) -> Result<(), AllocError>
        requires is_new { index_of self.old Types (place id) ≡ None }
        requires room { given self.old Types < 2 ^ 32 }
        ensures { MatchResult result
            (λ _. Numbers self.old self.new Types (place id))
            (λ _. SameIndices self.old self.new) }
    {
        self.types.push(id)
    }

    /// The index of the type, if it is given one.
    pub fn get_type_index(&self, id: TypeId) -> Option<u32>
        ensures { result ≡ index_of self.now Types (place id) }
    {
        self.types.get(id)
    }

    /// Gives the function, which has no index yet, the next one. Where memory runs out, nothing changes.
    pub fn push_func(&mut self, id: FunctionId) -> Result<(), AllocError>
        requires is_new { index_of self.old Functions (place id) ≡ None }
        requires room { given self.old Functions < 2 ^ 32 }
        ensures { MatchResult result
            (λ _. Numbers self.old self.new Functions (place id))
            (λ _. SameIndices self.old self.new) }
    {
        self.functions.push(id)
    }

    /// The index of the function, if it is given one.
    pub fn get_func_index(&self, id: FunctionId) -> Option<u32>
        ensures { result ≡ index_of self.now Functions (place id) }
    {
        self.functions.get(id)
    }

    /// Gives the table, which has no index yet, the next one. Where memory runs out, nothing changes.
    pub fn push_table(&mut self, id: TableId) -> Result<(), AllocError>
        requires is_new { index_of self.old Tables (place id) ≡ None }
        requires room { given self.old Tables < 2 ^ 32 }
        ensures { MatchResult result
            (λ _. Numbers self.old self.new Tables (place id))
            (λ _. SameIndices self.old self.new) }
    {
        self.tables.push(id)
    }

    /// The index of the table, if it is given one.
    pub fn get_table_index(&self, id: TableId) -> Option<u32>
        ensures { result ≡ index_of self.now Tables (place id) }
    {
        self.tables.get(id)
    }

    /// Gives the memory, which has no index yet, the next one. Where memory runs out, nothing changes.
    pub fn push_memory(&mut self, id: MemoryId) -> Result<(), AllocError>
        requires is_new { index_of self.old Memories (place id) ≡ None }
        requires room { given self.old Memories < 2 ^ 32 }
        ensures { MatchResult result
            (λ _. Numbers self.old self.new Memories (place id))
            (λ _. SameIndices self.old self.new) }
    {
        self.memories.push(id)
    }

    /// The index of the memory, if it is given one.
    pub fn get_memory_index(&self, id: MemoryId) -> Option<u32>
        ensures { result ≡ index_of self.now Memories (place id) }
    {
        self.memories.get(id)
    }

    /// Gives the tag, which has no index yet, the next one. Where memory runs out, nothing changes.
    pub fn push_tag(&mut self, id: TagId) -> Result<(), AllocError>
        requires is_new { index_of self.old Tags (place id) ≡ None }
        requires room { given self.old Tags < 2 ^ 32 }
        ensures { MatchResult result
            (λ _. Numbers self.old self.new Tags (place id))
            (λ _. SameIndices self.old self.new) }
    {
        self.tags.push(id)
    }

    /// The index of the tag, if it is given one.
    pub fn get_tag_index(&self, id: TagId) -> Option<u32>
        ensures { result ≡ index_of self.now Tags (place id) }
    {
        self.tags.get(id)
    }

    /// Gives the global, which has no index yet, the next one. Where memory runs out, nothing changes.
    pub fn push_global(&mut self, id: GlobalId) -> Result<(), AllocError>
        requires is_new { index_of self.old Globals (place id) ≡ None }
        requires room { given self.old Globals < 2 ^ 32 }
        ensures { MatchResult result
            (λ _. Numbers self.old self.new Globals (place id))
            (λ _. SameIndices self.old self.new) }
    {
        self.globals.push(id)
    }

    /// The index of the global, if it is given one.
    pub fn get_global_index(&self, id: GlobalId) -> Option<u32>
        ensures { result ≡ index_of self.now Globals (place id) }
    {
        self.globals.get(id)
    }

    /// Gives the element segment, which has no index yet, the next one. Where memory runs out, nothing changes.
    pub fn push_element(&mut self, id: ElementId) -> Result<(), AllocError>
        requires is_new { index_of self.old Elements (place id) ≡ None }
        requires room { given self.old Elements < 2 ^ 32 }
        ensures { MatchResult result
            (λ _. Numbers self.old self.new Elements (place id))
            (λ _. SameIndices self.old self.new) }
    {
        self.elements.push(id)
    }

    /// The index of the element segment, if it is given one.
    pub fn get_element_index(&self, id: ElementId) -> Option<u32>
        ensures { result ≡ index_of self.now Elements (place id) }
    {
        self.elements.get(id)
    }

    /// Gives the data segment, which has no index yet, the next one. Where memory runs out, nothing changes.
    pub fn push_data(&mut self, id: DataId) -> Result<(), AllocError>
        requires is_new { index_of self.old DataSegments (place id) ≡ None }
        requires room { given self.old DataSegments < 2 ^ 32 }
        ensures { MatchResult result
            (λ _. Numbers self.old self.new DataSegments (place id))
            (λ _. SameIndices self.old self.new) }
    {
        self.data_.push(id)
    }

    /// The index of the data segment, if it is given one.
    pub fn get_data_index(&self, id: DataId) -> Option<u32>
        ensures { result ≡ index_of self.now DataSegments (place id) }
    {
        self.data_.get(id)
    }
}
