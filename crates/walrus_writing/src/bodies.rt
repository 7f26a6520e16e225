//! The bodies of functions, one behind another ("Binary Format > Modules > Code Section"), and the names of their used locals.
ghost use Rattle.std.specs.Prelude.{[], ◌∷◌, ◌≡◌, ◌<◌, ◌≤◌, ◌+◌, ◌^◌, ◌++◌, ℕ, List, All, IfErr, IfOk, IsFalse, IsOkUnless, IsTrue, OnOk, false, true, length, map, option_map, sum_by};
ghost use Rattle.wasm_forms.specs.Spelling.{block_bytes};
ghost use Rattle.wasm_frames.specs.Record.{body_record};
ghost use Rattle.wasm_writer.specs.Measuring.{size_with_count};
ghost use Rattle.wasm_payloads.specs.Lent.{locals_entry};
ghost use Rattle.walrus_base.specs.Id.{place};
ghost use Rattle.walrus_base.specs.Locals.{locals};
ghost use Rattle.walrus_base.specs.Unnamed.{AreUnnamed};
ghost use Rattle.walrus_code.specs.Indices.{index_of};
ghost use Rattle.walrus_items.specs.Functions.{functions};
ghost use Rattle.walrus_writing.specs.Names.{local_names, used_listed};
ghost use Rattle.walrus_writing.specs.Pushed.{with_map};
ghost use Rattle.walrus_items.specs.Errors.{out_of_memory};
ghost use Rattle.walrus_writing.specs.Bodies.{AppendsBodies, AreWritten, IsAppended, texts_in, texts_of};
ghost use Rattle.walrus_writing.specs.Parts.{local_in, unplaced, BodySeen, IsIndexed};
ghost use Rattle.walrus_writing.specs.Refusals.{RefusesBodies};

use crate::joined::WrittenBodies;
use crate::locals::push_local_names;
use std::alloc::Global;
use walrus_base::{FunctionId, ModuleLocals};
use walrus_bodies::{Features, LocalFunction};
use walrus_code::IdsToIndices;
use walrus_contents::Parts;
use walrus_functions::{AppendedBody, append_body, likely_length};
use walrus_items::{Error, FunctionKind, ModuleFunctions, Result};
use wasm_forms::write_u64;
use wasm_frames::RawBody;
use wasm_payloads::RawLocals;
use wasm_writer::number_len;

/// What bodies are written under: the module's parts, the indices of its items, and the proposals that bodies may use.
#[derive(Clone, Copy)]
pub struct Indexed<'a, 'b, 'c> {
    pub parts: Parts<'a>,
    pub indices: &'b IdsToIndices,
    pub features: &'c Features,
}

/// The bodies of functions, and the names of their used locals.
#[derive(Drop)]
pub struct NamedBodies<'a> {
    /// The bodies.
    pub bodies: WrittenBodies,
    /// The names, of each function that has some.
    pub named: Vec<RawLocals<'a>>,
}

/// What is told of bodies that are appended: how many bytes each has, and the names of their used locals.
#[derive(Drop)]
pub struct ToldBodies<'a> {
    /// The lengths, where they are asked for.
    pub lengths: Vec<usize>,
    /// The names, of each function that has some.
    pub named: Vec<RawLocals<'a>>,
}

/// The body at a place, if a function with one is there.
pub fn local_of(funcs: &ModuleFunctions, id: FunctionId) -> Option<&LocalFunction>
    ensures { option_map (λ local. (place id, local.now)) result ≡ local_in (functions funcs.now) (place id) }
{
    if !funcs.contains(id) {
        return None;
    }
    match &funcs.get(id).kind {
        FunctionKind::Local(local) => Some(local),
        FunctionKind::Import(_) | FunctionKind::Uninitialized(_) => None,
    }
}

// How many bytes those bodies have that are kept as they stand in the input, if the first of these functions has one.
fn kept_length(funcs: &ModuleFunctions, order: &[FunctionId]) -> Option<usize> {
    let first = local_of(funcs, *order.first()?)?;
    Some(first.text()?.code_length())
}

/// For how many bytes to reserve memory for the bodies of these functions.
pub fn likely_lengths(funcs: &ModuleFunctions, order: &[FunctionId]) -> usize {
    if let Some(kept) = kept_length(funcs, order) {
        return kept.saturating_add(order.len().saturating_mul(4));
    }
    let mut total: usize = 0;
    'order: for id in order {
        if let Some(local) = local_of(funcs, *id) {
            total = total.saturating_add(likely_length(local));
        }
    }
    total
}

// Whether names of used locals are to be told: they are chosen, and some local has one, as far as that is known.
fn tells_names(all: &ModuleLocals, chosen: bool) -> bool
    ensures chosen { IsTrue result → chosen ≡ true }
    ensures unnamed { IsFalse result → chosen ≡ true → AreUnnamed (locals all.now) }
{
    chosen && !all.are_unnamed()
}

// Whether a body has more locals than there are indices, as far as they are told.
fn has_too_many(body: &AppendedBody, tells: bool) -> bool
    ensures many { IsTrue result → (tells ≡ true) × (2 ^ 32 < length body.now.order.items) }
    ensures few { IsFalse result → tells ≡ true → length body.now.order.items ≤ 2 ^ 32 }
{
    tells && body.order.len() > 1 << 32
}

// Appends the body of the function of this id, under these indices; and tells its locals, where `tells` is true. Refused, what was appended
// means nothing.
fn append_one(
    alloc: Global,
    under: Indexed<'_, '_, '_>,
    id: FunctionId,
    tells: bool,
    to: &mut Vec<u8>,
) -> Result<AppendedBody>
    requires indexed { IsIndexed under.parts (index_of under.indices.now) under.features.now (place id) }
    ensures value { (seen : BodySeen) × (IfOk result (IsAppended under.entry.parts
        (index_of under.entry.indices.now) under.entry.features.now (place id) tells
        to.old.items to.new.items seen)) }
    ensures few { tells ≡ true → IfOk result (λ body. length body.order.items ≤ 2 ^ 32) }
    ensures as_many { tells ≡ true
        → IfOk result (λ body. length body.used.items ≡ length body.order.items) }
    ensures fails { IfErr result (RefusesBodies under.entry.parts under.entry.features.now) }
{
    let Some(local) = local_of(under.parts.funcs, id) else {
        unreachable!();
    };
    let body = append_body(
        alloc,
        local,
        under.parts.types,
        under.parts.locals,
        under.indices,
        under.features,
        tells,
        to,
    )?;
    if has_too_many(&body, tells) {
        return Err(Error::TooLarge);
    }
    Ok(body)
}

// Puts the names of a body's used locals behind others, where they are chosen.
fn push_names<'a>(
    alloc: Global,
    parts: Parts<'a>,
    chosen: bool,
    function: u32,
    body: &AppendedBody,
    to: &mut Vec<RawLocals<'a>>,
) -> Result<()>
    requires few { chosen ≡ true → length body.now.order.items ≤ 2 ^ 32 }
    requires as_many { chosen ≡ true → length body.now.used.items ≡ length body.now.order.items }
    ensures value { chosen ≡ true → OnOk result (map locals_entry to.new.items
        ≡ with_map (map locals_entry to.old.items) function (local_names (locals parts.entry.locals.now)
        (used_listed (map place body.now.order.items) body.now.used.items))) }
    ensures stays { chosen ≡ false → OnOk result (to.new.items ≡ to.old.items) }
    ensures fails { IsOkUnless result out_of_memory }
{
    if !chosen {
        return Ok(());
    }
    let order = body.order.as_slice();
    let used = body.used.as_slice();
    push_local_names(alloc, parts.locals, function, order, used, to)
}

// Appends a body behind its size; and puts its length behind others, where these are asked for.
fn append_sized(to: &mut Vec<u8>, body: &[u8], asked: bool, lengths: &mut Vec<usize>) -> Result<()>
    ensures value { OnOk result (to.new.items ≡ to.old.items ++ block_bytes body.now) }
    ensures told { asked ≡ true
        → OnOk result (lengths.new.items ≡ lengths.old.items ++ length body.now ∷ []) }
    ensures fails { IsOkUnless result out_of_memory }
{
    write_u64(to, body.len() as u64)?;
    to.extend_from_slice(body)?;
    if !asked {
        return Ok(());
    }
    lengths.push(body.len())?;
    Ok(())
}

/// Appends each function's body behind its size, in the order of the functions, of which the first has this index; and tells the names of their
/// used locals, where these are chosen, and the lengths of the bodies, where they are asked for. Each body is made in memory of its own, which
/// is used again for the next. Refused, what was appended means nothing.
pub fn append_bodies<'a>(
    alloc: Global,
    to: &mut Vec<u8>,
    under: Indexed<'a, '_, '_>,
    order: &[FunctionId],
    first: u32,
    chosen: bool,
    asked: bool,
) -> Result<ToldBodies<'a>>
    requires indexed { All (λ id.
        IsIndexed under.parts (index_of under.indices.now) under.features.now (place id)) order.now }
    requires few { first + length order.now < 2 ^ 32 }
    ensures value { IfOk result (λ told. AppendsBodies under.entry.parts (index_of under.entry.indices.now)
        under.entry.features.now order.now first chosen asked
        (map locals_entry told.named.items) told.lengths.items to.old.items to.new.items) }
    ensures fails { IfErr result (RefusesBodies under.entry.parts under.entry.features.now) }
{
    let tells = tells_names(under.parts.locals, chosen);
    let mut one = Vec::new(alloc);
    let mut lengths = Vec::new(alloc);
    let mut named = Vec::new(alloc);
    let mut function = first;
    'order: for id in order {
        one.clear();
        let body = append_one(alloc, under, *id, tells, &mut one)?;
        append_sized(to, one.as_slice(), asked, &mut lengths)?;
        push_names(alloc, under.parts, tells, function, &body, &mut named)?;
        function += 1;
    }
    Ok(ToldBodies { lengths, named })
}

/// Each function's body, in the order of the functions, of which the first has this index; and the names of their used locals, where these are
/// chosen.
pub fn written_bodies<'a>(
    alloc: Global,
    under: Indexed<'a, '_, '_>,
    order: &[FunctionId],
    first: u32,
    chosen: bool,
) -> Result<NamedBodies<'a>>
    requires indexed { All (λ id.
        IsIndexed under.parts (index_of under.indices.now) under.features.now (place id)) order.now }
    requires few { first + length order.now < 2 ^ 32 }
    ensures value { IfOk result (λ written. AreWritten under.entry.parts
        (index_of under.entry.indices.now) under.entry.features.now order.now first chosen
        (texts_of written.bodies) (map locals_entry written.named.items)) }
    ensures fails { IfErr result (RefusesBodies under.entry.parts under.entry.features.now) }
{
    let mut bytes = Vec::with_capacity(alloc, likely_lengths(under.parts.funcs, order))?;
    let told = append_bodies(alloc, &mut bytes, under, order, first, chosen, true)?;
    let bodies = WrittenBodies {
        bytes,
        lengths: told.lengths,
    };
    Ok(NamedBodies {
        bodies,
        named: told.named,
    })
}

// The records of bodies of these lengths, with which bytes begin, each behind its size.
fn raw_texts<'a>(alloc: Global, lengths: &[usize], bytes: &'a [u8]) -> Result<Vec<RawBody<'a>>>
    requires within { sum_by size_with_count lengths.now ≤ length bytes.now }
    ensures value { IfOk result (λ raw. map body_record raw.items
        ≡ map unplaced (texts_in lengths.now bytes.now)) }
    ensures fails { IsOkUnless result out_of_memory }
{
    let mut raw = Vec::with_capacity(alloc, lengths.len())?;
    let mut rest = bytes;
    'lengths: for size in lengths {
        let (_size, sized) = rest.split_at(number_len(*size as u64) as usize);
        let (text, behind) = sized.split_at(*size);
        raw.push(RawBody {
            start: 0,
            bytes: text,
        })?;
        rest = behind;
    }
    Ok(raw)
}

/// The records of bodies, lent.
pub fn raw_bodies<'a>(alloc: Global, bodies: &'a WrittenBodies) -> Result<Vec<RawBody<'a>>>
    ensures value { IfOk result (λ raw. map body_record raw.items ≡ map unplaced (texts_of bodies.now)) }
    ensures fails { IsOkUnless result out_of_memory }
{
    raw_texts(alloc, bodies.lengths.as_slice(), bodies.bytes.as_slice())
}
