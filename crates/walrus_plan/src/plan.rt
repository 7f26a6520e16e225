//! The order in which items are written, and their indices ("Structure > Modules > Indices").
ghost use Rattle.std.specs.Prelude.{◌≡◌, ◌<◌, ◌≤◌, ◌^◌, ◌↔◌, map, length, IfOk, IfErr, IsOkUnless, IsTrue, OnOk, nat_eq};
ghost use Rattle.walrus_base.specs.Arena.{entries};
ghost use Rattle.std.specs.List.{IsDistinct};
ghost use Rattle.walrus_base.specs.Id.{place};
ghost use Rattle.walrus_base.specs.ModuleTypes.{type_slots};
ghost use Rattle.walrus_code.specs.Indices.{NumbersAlong, index_of};
ghost use Rattle.walrus_base.specs.Operators.{Space, Functions};
ghost use Rattle.walrus_items.specs.Functions.{functions};
ghost use Rattle.walrus_items.specs.Data.{data_segments};
ghost use Rattle.walrus_items.specs.Elements.{elements};
ghost use Rattle.walrus_items.specs.Globals.{global_import};
ghost use Rattle.walrus_model.specs.Plan.{AreNumbered};
ghost use Rattle.walrus_items.specs.Errors.{out_of_memory};
ghost use Rattle.walrus_plan.specs.Local.{is_own};
ghost use Rattle.walrus_plan.specs.Places.{places};
ghost use Rattle.walrus_plan.specs.Planned.{PlansItems};
ghost use Rattle.walrus_plan.specs.Refusals.{RefusesCounts};
ghost use Rattle.walrus_plan.specs.Sizes.{local_sizes, IsOrder};

use crate::by_import::{
    Brought, brought_ids, globals_by_import, memories_by_import, tables_by_import, tags_by_import,
};
use std::alloc::Global;
use std::cmp::Reverse;
use walrus_base::{
    DataId, ElementId, FunctionId, FunctionKey, GlobalId, MemoryId, ModuleTypes, TableId, TagId,
    TypeId,
};
use walrus_code::{IdsToIndices, Numbering};
use walrus_contents::Parts;
use walrus_items::{Error, GlobalKind, ModuleData, ModuleElements, ModuleFunctions, Result};

/// For each index space the ids of the items in the order in which they are written, so that each one's place in it is its index: what
/// imports bring, by rising import, and then what the module defines. Functions stand in two lists.
#[derive(Drop)]
pub struct Plan {
    /// The types, by rising id.
    pub types: Vec<TypeId>,
    /// The functions that imports bring, by rising import.
    pub brought_functions: Vec<FunctionId>,
    /// The functions that the module defines: the larger ones first, and of two as large the one of the smaller id.
    pub own_functions: Vec<FunctionId>,
    /// The tables, the module's own by rising id.
    pub tables: Vec<TableId>,
    /// The memories, the module's own by rising id.
    pub memories: Vec<MemoryId>,
    /// The tags, the module's own by rising id.
    pub tags: Vec<TagId>,
    /// The globals, the module's own by rising id.
    pub globals: Vec<GlobalId>,
    /// The element segments, by rising id.
    pub elements: Vec<ElementId>,
    /// The data segments, by rising id.
    pub data_: Vec<DataId>,
}

impl Plan {
    /// The order in which the items of these parts are written. Want of memory is the only refusal.
    pub fn new(alloc: Global, parts: Parts<'_>) -> Result<Plan>
        ensures planned { IfOk result (PlansItems parts.entry) }
        ensures fails { IsOkUnless result out_of_memory }
    {
        let brought = brought_ids(alloc, parts.imports)?;
        let Brought {
            functions,
            tables,
            memories,
            tags,
            globals,
        } = brought;
        Ok(Plan {
            types: types_in_order(alloc, parts.types)?,
            brought_functions: functions,
            own_functions: functions_by_size(alloc, parts.funcs)?,
            tables: tables_by_import(tables, parts.tables)?,
            memories: memories_by_import(memories, parts.memories)?,
            tags: tags_by_import(tags, parts.tags)?,
            globals: globals_by_import(globals, parts.globals)?,
            elements: elements_in_order(alloc, parts.elements)?,
            data_: data_in_order(alloc, parts.data_)?,
        })
    }

    /// All functions, in the order of their indices: those that imports bring, and then the module's own. Want of memory is the only refusal.
    pub fn functions(&self, alloc: Global) -> Result<Vec<FunctionId>>
        ensures value { IfOk result (λ ids. map place ids.items ≡ places self.now Functions) }
        ensures fails { IsOkUnless result out_of_memory }
    {
        let count = self
            .brought_functions
            .len()
            .saturating_add(self.own_functions.len());
        let mut ids = Vec::with_capacity(alloc, count)?;
        ids.extend_from_slice(self.brought_functions.as_slice())?;
        ids.extend_from_slice(self.own_functions.as_slice())?;
        Ok(ids)
    }

    // The index of each function.
    fn numbered_functions(&self, alloc: Global) -> Result<Numbering<FunctionKey>>
        requires distinct { IsDistinct nat_eq (places self.now Functions) }
        requires few { length (places self.now Functions) < 2 ^ 32 }
        ensures value { IfOk result (λ numbers. NumbersAlong numbers (places self.now Functions)) }
        ensures fails { IsOkUnless result out_of_memory }
    {
        let ids = self.functions(alloc)?;
        let numbers = Numbering::along(alloc, ids.as_slice())?;
        Ok(numbers)
    }

    /// The index of each item; what the plan doesn't hold has none. Refused with `TooLarge` where an index space has 2^32 items or more,
    /// and with `Memory`.
    pub fn indices(&self, alloc: Global) -> Result<IdsToIndices>
        requires distinct { (space : Space) → IsDistinct nat_eq (places self.now space) }
        ensures value { IfOk result (λ indices. AreNumbered (index_of indices) (places self.now)) }
        ensures few { IfOk result (λ _. (space : Space) → length (places self.now space) < 2 ^ 32) }
        ensures fails { IfErr result (RefusesCounts (places self.now)) }
    {
        check_counts(self)?;
        Ok(IdsToIndices {
            types: Numbering::along(alloc, self.types.as_slice())?,
            functions: self.numbered_functions(alloc)?,
            tables: Numbering::along(alloc, self.tables.as_slice())?,
            memories: Numbering::along(alloc, self.memories.as_slice())?,
            tags: Numbering::along(alloc, self.tags.as_slice())?,
            globals: Numbering::along(alloc, self.globals.as_slice())?,
            elements: Numbering::along(alloc, self.elements.as_slice())?,
            data_: Numbering::along(alloc, self.data_.as_slice())?,
        })
    }
}

/// Whether the module defines a global of this kind.
pub fn is_global_own(kind: &GlobalKind) -> bool
    ensures { result ≡ is_own (global_import kind.now) }
{
    match kind {
        GlobalKind::Local(_) => true,
        GlobalKind::Import(_) => false,
    }
}

// The functions with a body, with their sizes.
fn sized_functions(
    alloc: Global,
    funcs: &ModuleFunctions,
) -> Result<Vec<(Reverse<usize>, FunctionId)>>
    ensures value { IfOk result (λ sized. map (λ s. (s.0.0, place s.1)) sized.items
        ≡ local_sizes (functions funcs.now)) }
    ensures fails { IsOkUnless result out_of_memory }
{
    let mut sized = Vec::with_capacity(alloc, funcs.next_id().index())?;
    for (id, local) in funcs.iter_local() {
        sized.push((Reverse(local.size()), id))?;
    }
    Ok(sized)
}

// The functions with a body, the larger ones first, and of two as large the one of the smaller id.
pub fn functions_by_size(alloc: Global, funcs: &ModuleFunctions) -> Result<Vec<FunctionId>>
    ensures value { IfOk result (λ order. IsOrder (functions funcs.now) (map place order.items)) }
    ensures fails { IsOkUnless result out_of_memory }
{
    let mut sized = sized_functions(alloc, funcs)?;
    sized.sort_unstable();
    let ids = ids_of(alloc, sized.as_slice())?;
    Ok(ids)
}

fn ids_of(alloc: Global, sized: &[(Reverse<usize>, FunctionId)]) -> Result<Vec<FunctionId>>
    ensures value { IfOk result (λ ids. map place ids.items ≡ map (λ s. place s.1) sized.now) }
    ensures fails { IsOkUnless result out_of_memory }
{
    let mut ids = Vec::with_capacity(alloc, sized.len())?;
    for (_, id) in sized {
        ids.push(*id)?;
    }
    Ok(ids)
}

// The types, by rising id.
fn types_in_order(alloc: Global, types: &ModuleTypes) -> Result<Vec<TypeId>>
    ensures value { IfOk result (λ ids. map place ids.items
        ≡ map (λ e. e.0) (entries (type_slots types.now))) }
    ensures fails { IsOkUnless result out_of_memory }
{
    Ok(types.ids(alloc)?)
}

// The element segments, by rising id.
fn elements_in_order(alloc: Global, segments: &ModuleElements) -> Result<Vec<ElementId>>
    ensures value { IfOk result (λ order. map place order.items
        ≡ map (λ e. e.0) (entries (elements segments.now))) }
    ensures fails { IsOkUnless result out_of_memory }
{
    segments.ids(alloc)
}

// The data segments, by rising id.
fn data_in_order(alloc: Global, data_: &ModuleData) -> Result<Vec<DataId>>
    ensures value { IfOk result (λ ids. map place ids.items
        ≡ map (λ e. e.0) (entries (data_segments data_.now))) }
    ensures fails { IsOkUnless result out_of_memory }
{
    data_.ids(alloc)
}

// Whether there are more functions than indices.
fn has_too_many_functions(plan: &Plan) -> bool
    ensures { IsTrue result ↔ (2 ^ 32 ≤ length (places plan.now Functions)) }
{
    plan.brought_functions
        .len()
        .saturating_add(plan.own_functions.len())
        > u32::MAX as usize
}

// Refused where a space has more items than there are indices.
fn check_counts(plan: &Plan) -> Result<()>
    ensures few { OnOk result ((space : Space) → length (places plan.now space) < 2 ^ 32) }
    ensures fails { IfErr result (RefusesCounts (places plan.now)) }
{
    let most = u32::MAX as usize;
    if plan.types.len() > most
        || has_too_many_functions(plan)
        || plan.tables.len() > most
        || plan.memories.len() > most
        || plan.tags.len() > most
        || plan.globals.len() > most
        || plan.elements.len() > most
        || plan.data_.len() > most
    {
        return Err(Error::TooLarge);
    }
    Ok(())
}
