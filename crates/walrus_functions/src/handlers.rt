//! The function types of legacy exception handlers (Instructions > Control Instructions of the legacy exception handling proposal).
ghost use Rattle.std.specs.Prelude.{◌≡◌, ◌<◌, ◌∷◌, [], List, Option, true, IfOk, OnOk, length, map, option_and_then, option_map};
ghost use Rattle.std.specs.List.{list_any};
ghost use Rattle.walrus_base.specs.Arena.{item_at};
ghost use Rattle.walrus_base.specs.Id.{place};
ghost use Rattle.walrus_base.specs.Alone.{StandsFirst};
ghost use Rattle.walrus_base.specs.Composite.{function_type};
ghost use Rattle.walrus_base.specs.ModuleTypes.{type_slots};
ghost use Rattle.walrus_base.specs.TypeDef.{TypeDef};
ghost use Rattle.walrus_code.specs.Code.{arg_of, block_of, op_of, ops_of};
ghost use Rattle.walrus_functions.specs.Alike.{AreAlike};
ghost use Rattle.walrus_functions.specs.Handlers.{begins_handler, handlers_of};
ghost use Rattle.walrus_functions.specs.Known.{AddsIds, AreKnown, AreOf, IsOfTypes, NotesOnly, are_below};
ghost use Rattle.walrus_functions.specs.ReadFunction.{AddsTypes, StaysInFront};
ghost use Rattle.walrus_functions.specs.declared.signatures.Side.TheVariants.{Params, Results};
ghost use Rattle.walrus_functions.specs.Signatures.{arg_place, first_place, given_by, needed_by, pair_in, pair_of, pair_type, slots_of, tag_places, taken_by, try_block, types_in, types_below};

use crate::alike::Alike;
use crate::blocks::OpenBlocks;
use crate::signatures::{Side, Signatures};
use crate::tag_and_try::{TagAndTry, TryType};
use std::alloc::{AllocError, Global};
use std::collections::BTreeMap;
use walrus_base::{FunctionType, ModuleTypes, TypeId};
use walrus_code::{Arg, BlockType, Operator};
use wasm_opcodes::one_byte::{CATCH, CATCH_ALL};

/// The types of legacy exception handlers that were found: their ids, by the types of their tags and of their tries.
///
/// Of types of tags that take the same, the first one met stands for all, and so does it of types of tries that give back the same. Where many bodies
/// of a module are read with one of these, the type of each such pair is looked up once or twice, whatever their number. What it knows is so of the
/// types that it was used with, and stays so as types are added behind them.
#[derive(Drop)]
pub struct HandlerTypes {
    known: BTreeMap<TagAndTry, TypeId>,
    params: Alike,
    results: Alike,
}

impl HandlerTypes {
    /// Nothing is known yet.
    pub fn new(alloc: Global) -> HandlerTypes
        ensures { (slots : List (Option TypeDef)) → IsOfTypes slots result }
    {
        HandlerTypes {
            known: BTreeMap::new(alloc),
            params: Alike::new(alloc),
            results: Alike::new(alloc),
        }
    }

    // The handler of the first types met that are like those of this one. It needs the same type.
    fn first_like(
        &mut self,
        alloc: Global,
        signatures: &Signatures,
        handler: TagAndTry,
    ) -> Result<TagAndTry, AllocError>
        requires { AreOf signatures.now.bound (types_in signatures.now) (type_slots signatures.now.types.now)
            self.old }
        ensures kept { IfOk result (λ _. AreOf signatures.now.bound (types_in signatures.now)
            (type_slots signatures.now.types.now) self.new) }
        ensures same { IfOk result (λ first. pair_type (types_in signatures.now) (pair_of first)
            ≡ pair_type (types_in signatures.now) (pair_of handler)) }
    {
        let tag_type = first_tag(alloc, &mut self.params, signatures, handler.tag_type)?;
        let try_type = first_try(alloc, &mut self.results, signatures, handler.try_type)?;
        Ok(TagAndTry { tag_type, try_type })
    }
}

// The first type met that takes what the type of a tag takes, if it has one.
fn first_tag(
    alloc: Global,
    params: &mut Alike,
    signatures: &Signatures,
    tag_type: Option<TypeId>,
) -> Result<Option<TypeId>, AllocError>
    requires { AreAlike Params signatures.now.bound (types_in signatures.now) params.old }
    ensures same { IfOk result (λ first. taken_by (types_in signatures.now) (option_map place first)
        ≡ taken_by (types_in signatures.now) (option_map place tag_type)) }
    ensures kept { IfOk result (λ _. AreAlike Params signatures.now.bound (types_in signatures.now)
        params.new) }
{
    match tag_type {
        Some(id) => {
            let first = params.first_like(alloc, signatures, Side::Params, id)?;
            Ok(Some(first))
        }
        None => Ok(None),
    }
}

// The first type met that gives back what the type of a try gives back, if it is a function type.
fn first_try(
    alloc: Global,
    results: &mut Alike,
    signatures: &Signatures,
    try_type: TryType,
) -> Result<TryType, AllocError>
    requires { AreAlike Results signatures.now.bound (types_in signatures.now) results.old }
    ensures same { IfOk result (λ first. given_by (types_in signatures.now) (try_block first)
        ≡ given_by (types_in signatures.now) (try_block try_type)) }
    ensures kept { IfOk result (λ _. AreAlike Results signatures.now.bound (types_in signatures.now)
        results.new) }
{
    match try_type {
        TryType::OfType(id) => {
            let first = results.first_like(alloc, signatures, Side::Results, id)?;
            Ok(TryType::OfType(first))
        }
        other => Ok(other),
    }
}

// The place of the item that the first argument names by its index alone.
fn first_place(args: &[Arg]) -> Option<usize>
    ensures { result ≡ first_place (map arg_of args.now) }
{
    match args.first() {
        Some(arg) => named_place(arg),
        None => None,
    }
}

// The place of the item that an argument names by its index alone.
fn named_place(arg: &Arg) -> Option<usize>
    ensures { result ≡ arg_place (arg_of arg.now) }
{
    match *arg {
        Arg::Function(id) => Some(id.index()),
        Arg::Type(id) => Some(id.index()),
        Arg::Table(id) => Some(id.index()),
        Arg::Memory(id) => Some(id.index()),
        Arg::Global(id) => Some(id.index()),
        Arg::Tag(id) => Some(id.index()),
        Arg::Element(id) => Some(id.index()),
        Arg::Data(id) => Some(id.index()),
        _ => None,
    }
}

// The type of the tag that a `catch` with these arguments names.
fn tag_type(tag_types: &[TypeId], args: &[Arg]) -> Option<TypeId>
    ensures { option_map place result ≡ option_and_then (tag_places tag_types.now)
        (first_place (map arg_of args.now)) }
{
    let tag = first_place(args)?;
    tag_types.get(tag).copied()
}

// The handler that an operator begins directly in a try of this type, or in another block, which has none.
fn handler_begun(
    tag_types: &[TypeId],
    block: Option<BlockType>,
    operator: &Operator,
) -> Option<TagAndTry>
    ensures { option_map pair_of result ≡ pair_in (tag_places tag_types.now) (option_map block_of block)
        (op_of operator.now) }
{
    let Some(block) = block else {
        return None;
    };
    match operator.op {
        CATCH => Some(TagAndTry::new(tag_type(tag_types, operator.args.as_slice()), block)),
        CATCH_ALL => Some(TagAndTry::new(None, block)),
        _ => None,
    }
}

// How many places of types there are.
fn count_places(alloc: Global, types: &ModuleTypes) -> Result<usize, AllocError>
    ensures { IfOk result (λ count. count ≡ length (type_slots types.now)) }
{
    let next = types.next_ids(alloc, 1)?;
    match next.first() {
        Some(id) => Ok(id.index()),
        None => unreachable!(),
    }
}

// Notes the id of a handler's type that was found, which stands below `next`. One that was added isn't noted: where it names itself, it isn't what
// is looked for the next time.
fn note_found(
    known: &mut BTreeMap<TagAndTry, TypeId>,
    handler: TagAndTry,
    id: TypeId,
    next: TypeId,
) -> Result<(), AllocError>
    ensures { IfOk result (λ _. NotesOnly (λ p. (p ≡ place id) × (p < place next))
        handler known.old known.new) }
{
    if id.index() < next.index() {
        known.insert(handler, id)?;
    }
    Ok(())
}

// The same, if the types that the handler names stand below the bound: where none stands yet, one that is added may ask for another.
fn note_settled(
    known: &mut BTreeMap<TagAndTry, TypeId>,
    bound: usize,
    handler: TagAndTry,
    id: TypeId,
    next: TypeId,
) -> Result<(), AllocError>
    ensures { IfOk result (λ _. NotesOnly (λ p. (are_below bound (pair_of handler) ≡ true)
        × ((p ≡ place id) × (p < place next))) handler known.old known.new) }
{
    if handler.is_below(bound) {
        note_found(known, handler, id, next)?;
    }
    Ok(())
}

// Finds or adds the type that a handler needs, and puts its id behind the others.
fn add_type(
    types: &mut ModuleTypes,
    needed: &FunctionType,
    bound: usize,
    handler: TagAndTry,
    known: &mut BTreeMap<TagAndTry, TypeId>,
    ids: &mut Vec<TypeId>,
) -> Result<(), AllocError>
    ensures added { IfOk result (λ _. AddsIds (function_type needed.now ∷ []) (slots_of types.old)
        (slots_of types.new) ids.old.items ids.new.items) }
    ensures noted { IfOk result (λ _. NotesOnly (λ p. (are_below bound (pair_of handler) ≡ true)
        × StandsFirst (function_type needed.now) (type_slots types.old) p) handler known.old known.new) }
    ensures stays { StaysInFront (type_slots types.old) (type_slots types.new) }
{
    let next = types.next_id();
    let id = types.add(needed.params(), needed.results())?;
    note_settled(known, bound, handler, id, next)?;
    ids.push(id)?;
    Ok(())
}

// Finds or adds the type of a handler that isn't known, if it needs one.
fn add_unknown(
    alloc: Global,
    types: &mut ModuleTypes,
    bound: usize,
    handler: TagAndTry,
    known: &mut BTreeMap<TagAndTry, TypeId>,
    ids: &mut Vec<TypeId>,
) -> Result<(), AllocError>
    requires { AreKnown bound (types_below bound (type_slots types.old)) (type_slots types.old) known.old }
    ensures added { IfOk result (λ _. AddsIds (pair_type (types_below bound (type_slots types.old))
        (pair_of handler)) (slots_of types.old) (slots_of types.new) ids.old.items ids.new.items) }
    ensures kept { IfOk result (λ _. AreKnown bound (types_below bound (type_slots types.old))
        (type_slots types.new) known.new) }
    ensures stays { StaysInFront (type_slots types.old) (type_slots types.new) }
{
    let signatures = Signatures { types, bound };
    match signatures.needed(alloc, &handler)? {
        Some(needed) => {
            add_type(types, &needed, bound, handler, known, ids)?;
            Ok(())
        }
        None => Ok(()),
    }
}

// Puts the id of the type of a handler behind the others, if it needs one: the id that is known, or that of a type that is found or added.
fn add_handler(
    alloc: Global,
    types: &mut ModuleTypes,
    bound: usize,
    handler: TagAndTry,
    known: &mut BTreeMap<TagAndTry, TypeId>,
    ids: &mut Vec<TypeId>,
) -> Result<(), AllocError>
    requires { AreKnown bound (types_below bound (type_slots types.old)) (type_slots types.old) known.old }
    ensures added { IfOk result (λ _. AddsIds (pair_type (types_below bound (type_slots types.old))
        (pair_of handler)) (slots_of types.old) (slots_of types.new) ids.old.items ids.new.items) }
    ensures kept { IfOk result (λ _. AreKnown bound (types_below bound (type_slots types.old))
        (type_slots types.new) known.new) }
    ensures stays { StaysInFront (type_slots types.old) (type_slots types.new) }
{
    match known.get(&handler) {
        Some(id) => {
            ids.push(*id)?;
            Ok(())
        }
        None => add_unknown(alloc, types, bound, handler, known, ids),
    }
}

// The same for the handler that an operator begins, if it begins one.
fn add_needed(
    alloc: Global,
    types: &mut ModuleTypes,
    bound: usize,
    begun: Option<TagAndTry>,
    handlers: &mut HandlerTypes,
    ids: &mut Vec<TypeId>,
) -> Result<(), AllocError>
    requires { AreOf bound (types_below bound (type_slots types.old)) (type_slots types.old) handlers.old }
    ensures added { IfOk result (λ _. AddsIds (needed_by (types_below bound (type_slots types.old))
        (option_map pair_of begun)) (slots_of types.old) (slots_of types.new) ids.old.items ids.new.items) }
    ensures kept { IfOk result (λ _. AreOf bound (types_below bound (type_slots types.old))
        (type_slots types.new) handlers.new) }
    ensures stays { StaysInFront (type_slots types.old) (type_slots types.new) }
{
    let Some(handler) = begun else {
        return Ok(());
    };
    let signatures = Signatures { types, bound };
    let first = handlers.first_like(alloc, &signatures, handler)?;
    add_handler(alloc, types, bound, first, &mut handlers.known, ids)?;
    Ok(())
}

// Whether one of the operators begins a handler.
fn has_catch(operators: &[Operator]) -> bool
    ensures { result ≡ list_any (λ o. begins_handler o.op) operators.now }
{
    operators.iter().any(|o| o.op == CATCH || o.op == CATCH_ALL)
}

// The types of the legacy exception handlers of a body, in order: each is known, or found among the types, or added behind them.
pub(crate) fn add_handler_types(
    alloc: Global,
    types: &mut ModuleTypes,
    tag_types: &[TypeId],
    operators: &[Operator],
    handlers: &mut HandlerTypes,
) -> Result<Vec<TypeId>, AllocError>
    requires { IsOfTypes (type_slots types.old) handlers.old }
    ensures added { IfOk result
        (λ ids. AddsTypes (handlers_of (item_at (type_slots types.old)) (tag_places tag_types.now)
        (ops_of operators.now)) (slots_of types.old) (slots_of types.new) (map place ids.items)) }
    ensures kept { OnOk result (IsOfTypes (type_slots types.new) handlers.new) }
    ensures stays { StaysInFront (type_slots types.old) (type_slots types.new) }
{
    if !has_catch(operators) {
        return Ok(Vec::new(alloc));
    }
    let bound = count_places(alloc, types)?;
    let mut blocks = OpenBlocks::new(alloc)?;
    let mut ids = Vec::new(alloc);
    for operator in operators {
        let block = blocks.innermost_try();
        let handler = handler_begun(tag_types, block, operator);
        add_needed(alloc, types, bound, handler, handlers, &mut ids)?;
        blocks.step(operator)?;
    }
    Ok(ids)
}
