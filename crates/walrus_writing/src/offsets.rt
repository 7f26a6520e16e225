//! The bodies of functions with where their operators stand in them ("Binary Format > Modules > Code Section").
ghost use Rattle.std.specs.Prelude.{◌≡◌, All, IfErr, IfOk, IsOkUnless, map};
ghost use Rattle.std.specs.List.{AllZip};
ghost use Rattle.wasm_frames.specs.Record.{body_record};
ghost use Rattle.walrus_base.specs.Id.{place};
ghost use Rattle.walrus_code.specs.Indices.{index_of};
ghost use Rattle.walrus_items.specs.Errors.{out_of_memory};
ghost use Rattle.walrus_items.specs.Transform.{location_of};
ghost use Rattle.walrus_writing.specs.Located.{AreOffsets};
ghost use Rattle.walrus_writing.specs.Parts.{unplaced, HasBytes, IsIndexed};
ghost use Rattle.walrus_writing.specs.Refusals.{RefusesBodies};

use crate::bodies::{Indexed, local_of};
use std::alloc::Global;
use walrus_base::FunctionId;
use walrus_code::InstrLocId;
use walrus_functions::emit_body;
use walrus_items::Result;
use wasm_frames::RawBody;

/// The body of a function as it is written.
#[derive(Drop)]
pub struct LocatedBody {
    /// Its bytes.
    pub bytes: Vec<u8>,
    /// The location of each operator, beside the place of its first byte, counted from the front of the body.
    pub places: Vec<(InstrLocId, usize)>,
}

// The body of the function of this id, under these indices.
fn one_body(alloc: Global, under: Indexed<'_, '_, '_>, id: FunctionId) -> Result<LocatedBody>
    requires indexed { IsIndexed under.parts (index_of under.indices.now) under.features.now (place id) }
    ensures value { IfOk result (λ body. HasBytes under.entry.parts (index_of under.entry.indices.now)
        under.entry.features.now (place id) body.bytes.items) }
    ensures located { IfOk result (λ body. AreOffsets under.entry.parts
        (place id) body.bytes.items (map location_of body.places.items)) }
    ensures fails { IfErr result (RefusesBodies under.entry.parts under.entry.features.now) }
{
    let Some(local) = local_of(under.parts.funcs, id) else {
        unreachable!();
    };
    let body = emit_body(
        alloc,
        local,
        under.parts.types,
        under.parts.locals,
        under.indices,
        under.features,
    )?;
    Ok(LocatedBody {
        bytes: body.bytes,
        places: body.places,
    })
}

/// Each function's body, in the order of the functions.
pub fn located_bodies(
    alloc: Global,
    under: Indexed<'_, '_, '_>,
    order: &[FunctionId],
) -> Result<Vec<LocatedBody>>
    requires indexed { All (λ id.
        IsIndexed under.parts (index_of under.indices.now) under.features.now (place id)) order.now }
    ensures value { IfOk result (λ bodies. AllZip (λ id body.
        HasBytes under.entry.parts (index_of under.entry.indices.now) under.entry.features.now
        (place id) body.bytes.items)
        order.now bodies.items) }
    ensures located { IfOk result (λ bodies. AllZip (λ id body.
        AreOffsets under.entry.parts (place id) body.bytes.items (map location_of body.places.items))
        order.now bodies.items) }
    ensures fails { IfErr result (RefusesBodies under.entry.parts under.entry.features.now) }
{
    let mut bodies = Vec::with_capacity(alloc, order.len())?;
    'order: for id in order {
        let one = one_body(alloc, under, *id)?;
        bodies.push(one)?;
    }
    Ok(bodies)
}

/// The records of these bodies, lent.
pub fn raw_located<'a>(alloc: Global, bodies: &'a [LocatedBody]) -> Result<Vec<RawBody<'a>>>
    ensures value { IfOk result (λ raw. map body_record raw.items
        ≡ map unplaced (map (λ body. body.bytes.items) bodies.now)) }
    ensures fails { IsOkUnless result out_of_memory }
{
    let mut raw = Vec::with_capacity(alloc, bodies.len())?;
    for body in bodies {
        raw.push(RawBody {
            start: 0,
            bytes: body.bytes.as_slice(),
        })?;
    }
    Ok(raw)
}
