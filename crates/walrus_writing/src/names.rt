//! The name section of a module that is written: its payload.
ghost use Rattle.std.specs.Prelude.{◌≡◌, ◌<◌, ◌^◌, ℕ, List, true, IfOk, IsOkUnless, length, map, Option, option_and_then};
ghost use Rattle.wasm_payloads.specs.Lent.{entry, locals_entry, text, text_of};
ghost use Rattle.walrus_base.specs.Locals.{locals};
ghost use Rattle.walrus_base.specs.Operators.{Space, Functions};
ghost use Rattle.walrus_items.specs.Errors.{out_of_memory};
ghost use Rattle.walrus_plan.specs.Places.{places};
ghost use Rattle.walrus_writing.specs.Names.{SpellsNames, all_local_names, first_own, if_chosen, item_names, names_said};
ghost use Rattle.walrus_base.specs.Arena.{entries, item_at};
ghost use Rattle.walrus_base.specs.Id.{place};
ghost use Rattle.walrus_base.specs.ModuleTypes.{type_names};
ghost use Rattle.walrus_base.specs.TypeDef.{name_bytes};
ghost use Rattle.walrus_items.specs.Data.{data_segments};
ghost use Rattle.walrus_items.specs.Elements.{elements};
ghost use Rattle.walrus_items.specs.Functions.{functions};
ghost use Rattle.walrus_items.specs.Globals.{globals};
ghost use Rattle.walrus_items.specs.Memories.{memories};
ghost use Rattle.walrus_items.specs.Tables.{tables};
ghost use Rattle.walrus_items.specs.Tags.{tags};

use std::alloc::Global;
use walrus_base::{
    DataId, DataKey, ElementId, ElementKey, FunctionId, FunctionKey, GlobalId, GlobalKey, Id,
    MemoryId, MemoryKey, ModuleTypes, TableId, TableKey, TagId, TagKey, TypeId, TypeKey,
};
use walrus_contents::Parts;
use walrus_items::{
    Error, ModuleData, ModuleElements, ModuleFunctions, ModuleGlobals, ModuleMemories,
    ModuleTables, ModuleTags, Result,
};
use walrus_plan::Plan;
use wasm_forms::WireError;
use wasm_payloads::{RawLocals, RawName, RawNames, write_names};

/// The index of the first function that the module of a plan defines.
pub fn first_index(plan: &Plan) -> u32
    requires few { length plan.now.brought_functions.items < 2 ^ 32 }
    ensures { result ≡ first_own plan.now }
{
    plan.brought_functions.len() as u32
}

// The names of the functions of a plan, lent.
fn function_names<'a>(alloc: Global, parts: Parts<'a>, plan: &Plan) -> Result<Vec<RawName<'a>>>
    requires few { length (places plan.now Functions) < 2 ^ 32 }
    ensures value { IfOk result (λ raw. map entry raw.items
        ≡ item_names parts.entry (places plan.now) Functions) }
    ensures fails { IsOkUnless result out_of_memory }
{
    let ids = plan.functions(alloc)?;
    let names = names_along(alloc, parts.funcs, ids.as_slice())?;
    Ok(names)
}

// The names of the items of a plan, lent, with these of the used locals of its functions' bodies.
fn raw_names<'a>(
    alloc: Global,
    parts: Parts<'a>,
    plan: &Plan,
    named: Vec<RawLocals<'a>>,
) -> Result<RawNames<'a>>
    requires few { (space : Space) → length (places plan.now space) < 2 ^ 32 }
    ensures value { (used : List (List (ℕ × ℕ)))
        → map locals_entry named.entry.items
        ≡ all_local_names (locals parts.entry.locals.now) (first_own plan.now) used
        → IfOk result (λ raw. text raw ≡ names_said parts.entry (places plan.now) (first_own plan.now) used) }
    ensures fails { IsOkUnless result out_of_memory }
{
    Ok(RawNames {
        module_name: lent(parts.name),
        functions: function_names(alloc, parts, plan)?,
        locals: named,
        types: names_along(alloc, parts.types, plan.types.as_slice())?,
        tables: names_along(alloc, parts.tables, plan.tables.as_slice())?,
        memories: names_along(alloc, parts.memories, plan.memories.as_slice())?,
        globals: names_along(alloc, parts.globals, plan.globals.as_slice())?,
        elements: names_along(alloc, parts.elements, plan.elements.as_slice())?,
        data_segments: names_along(alloc, parts.data_, plan.data_.as_slice())?,
        tags: names_along(alloc, parts.tags, plan.tags.as_slice())?,
    })
}

// The payload of a section of these names; none where a count or a size in it passes 32 bits.
fn spelled(alloc: Global, raw: &RawNames<'_>) -> Result<Option<Vec<u8>>>
    ensures { SpellsNames (text raw.now) result }
{
    let mut bytes = Vec::new(alloc);
    match write_names(alloc, &mut bytes, raw) {
        Ok(()) => Ok(Some(bytes)),
        Err(WireError::Memory(refused)) => Err(Error::Memory(refused)),
        Err(WireError::Malformed | WireError::TooLarge) => Ok(None),
    }
}

/// The payload of the name section where it is chosen: the names of the module, of the items of a plan of these parts, each under its place
/// there, and of the used locals of the functions that the module defines, which are given under the indices of these. It is empty where no
/// section is written; none where a count or a size in it passes 32 bits.
///
/// # Errors
///
/// `Memory`.
pub fn names_payload<'a>(
    alloc: Global,
    parts: Parts<'a>,
    plan: &Plan,
    named: Vec<RawLocals<'a>>,
    chosen: bool,
) -> Result<Option<Vec<u8>>>
    requires few { (space : Space) → length (places plan.now space) < 2 ^ 32 }
    ensures { (used : List (List (ℕ × ℕ)))
        → (chosen ≡ true → map locals_entry named.entry.items
        ≡ all_local_names (locals parts.entry.locals.now) (first_own plan.now) used)
        → SpellsNames (if_chosen chosen (names_said parts.entry (places plan.now)
        (first_own plan.now) used)) result }
{
    if !chosen {
        return Ok(Some(Vec::new(alloc)));
    }
    let raw = raw_names(alloc, parts, plan, named)?;
    spelled(alloc, &raw)
}

/// A collection of items that can have names. `own_name` is that of the item at a place, if one is there and has a name.
pub trait Named {
    type Key;

    ghost own_name: { Self → ℕ → Option (List ℕ) };

    /// The name of the item of this id, if it is there and has one.
    fn name(&self, id: Id<Self::Key>) -> Option<&str>
        ensures { text_of result ≡ own_name self.now (place id) };
}

/// A text, lent.
pub fn lent(text: &Option<String>) -> Option<&str>
    ensures { text_of result ≡ name_bytes text.now }
{
    match text {
        Some(name) => Some(name.as_str()),
        None => None,
    }
}

impl Named for ModuleTypes {
    type Key = TypeKey;

    ghost own_name = { λ all i. option_and_then (λ n. n) (item_at (type_names all) i) };

    fn name(&self, id: TypeId) -> Option<&str>
        ensures { text_of result ≡ option_and_then (λ n. n) (item_at (type_names self.now) (place id)) }
    {
        if !self.contains(id) {
            return None;
        }
        lent(&self.get(id).name)
    }
}

impl Named for ModuleFunctions {
    type Key = FunctionKey;

    ghost own_name = { λ all i. option_and_then (λ f. f.name) (item_at (functions all) i) };

    fn name(&self, id: FunctionId) -> Option<&str>
        ensures { text_of result ≡ option_and_then (λ f. f.name) (item_at (functions self.now) (place id)) }
    {
        if !self.contains(id) {
            return None;
        }
        lent(&self.get(id).name)
    }
}

impl Named for ModuleTables {
    type Key = TableKey;

    ghost own_name = { λ all i. option_and_then (λ t. t.name) (item_at (tables all) i) };

    fn name(&self, id: TableId) -> Option<&str>
        ensures { text_of result ≡ option_and_then (λ t. t.name) (item_at (tables self.now) (place id)) }
    {
        if !self.contains(id) {
            return None;
        }
        lent(&self.get(id).name)
    }
}

impl Named for ModuleMemories {
    type Key = MemoryKey;

    ghost own_name = { λ all i. option_and_then (λ m. m.name) (item_at (memories all) i) };

    fn name(&self, id: MemoryId) -> Option<&str>
        ensures { text_of result ≡ option_and_then (λ m. m.name) (item_at (memories self.now) (place id)) }
    {
        if !self.contains(id) {
            return None;
        }
        lent(&self.get(id).name)
    }
}

impl Named for ModuleTags {
    type Key = TagKey;

    ghost own_name = { λ all i. option_and_then (λ t. t.name) (item_at (tags all) i) };

    fn name(&self, id: TagId) -> Option<&str>
        ensures { text_of result ≡ option_and_then (λ t. t.name) (item_at (tags self.now) (place id)) }
    {
        if !self.contains(id) {
            return None;
        }
        lent(&self.get(id).name)
    }
}

impl Named for ModuleGlobals {
    type Key = GlobalKey;

    ghost own_name = { λ all i. option_and_then (λ g. g.name) (item_at (globals all) i) };

    fn name(&self, id: GlobalId) -> Option<&str>
        ensures { text_of result ≡ option_and_then (λ g. g.name) (item_at (globals self.now) (place id)) }
    {
        if !self.contains(id) {
            return None;
        }
        lent(&self.get(id).name)
    }
}

impl Named for ModuleElements {
    type Key = ElementKey;

    ghost own_name = { λ all i. option_and_then (λ e. e.name) (item_at (elements all) i) };

    fn name(&self, id: ElementId) -> Option<&str>
        ensures { text_of result ≡ option_and_then (λ e. e.name) (item_at (elements self.now) (place id)) }
    {
        if !self.contains(id) {
            return None;
        }
        lent(&self.get(id).name)
    }
}

impl Named for ModuleData {
    type Key = DataKey;

    ghost own_name = { λ all i. option_and_then (λ d. d.name) (item_at (data_segments all) i) };

    fn name(&self, id: DataId) -> Option<&str>
        ensures { text_of result
            ≡ option_and_then (λ d. d.name) (item_at (data_segments self.now) (place id)) }
    {
        if !self.contains(id) {
            return None;
        }
        lent(&self.get(id).name)
    }
}

/// The names of the items of these ids, each with its place among them. Want of memory is the only refusal.
pub fn names_along<'a, C: Named>(
    alloc: Global,
    all: &'a C,
    order: &[Id<C::Key>],
) -> Result<Vec<RawName<'a>>>
    requires few { length order.now < 2 ^ 32 }
    ensures value { IfOk result (λ raw. map entry raw.items
        ≡ entries (map (λ id. C.own_name all.now (place id)) order.now)) }
    ensures fails { IsOkUnless result out_of_memory }
{
    let mut raw = Vec::new(alloc);
    let mut index: u32 = 0;
    'names: for id in order {
        if let Some(name) = all.name(*id) {
            raw.push(RawName { index, name })?;
        }
        index += 1;
    }
    Ok(raw)
}
