//! Bodies.
ghost use Rattle.std.specs.Prelude.{IfOk};
ghost use Rattle.walrus_bodies.specs.Indices.{ids_at};
ghost use Rattle.walrus_ir.specs.PlainCode.{limits_in};
ghost use Rattle.walrus_ir.specs.Scanned.{AreInPlace};

use crate::bodies::ALL;
use std::alloc::{AllocError, Global};
use std::rc::Rc;
use std::test::Fail;
use test_support::{are, bytes_of, demand, first_id};
use walrus_base::FunctionId;
use walrus_bodies::FunctionTypes;
use walrus_ir::{
    IdsToIndices, IndicesToIds, InstrLocId, LocalFunction, ModuleLocals, ModuleTypes, PlainCode,
    ScanRoom, emit_body, limits_of, read_body, scan_body,
};

// Two locals of i32: i32.const 5, local.set 0, local.get 0, drop, call 0, nop, end
const BODY: &str = "01 02 7F 41 05 21 00 20 00 1A 10 00 01 0B";

// The same with the one local that is used.
const WRITTEN: &str = "01 01 7F 41 05 21 00 20 00 1A 10 00 01 0B";

// A table in which the function has the index 0.
fn function_by_index(alloc: Global, id: FunctionId) -> Result<IndicesToIds, AllocError> {
    let mut ids = IndicesToIds::new(alloc);
    ids.push_func(id)?;
    Ok(ids)
}

// A table in which the function has the index 0.
fn index_of_function(alloc: Global, id: FunctionId) -> Result<IdsToIndices, AllocError> {
    let mut indices = IdsToIndices::new(alloc);
    indices.push_func(id)?;
    Ok(indices)
}

fn is_written(
    alloc: Global,
    id: FunctionId,
    function: &LocalFunction,
    types: &ModuleTypes,
    locals: &ModuleLocals,
) -> bool {
    let Ok(indices) = index_of_function(alloc, id) else {
        return false;
    };
    match emit_body(alloc, function, types, locals, &indices, &ALL) {
        Ok(body) => are(alloc, &body.bytes, WRITTEN),
        Err(_) => false,
    }
}

// The code of this body alone.
fn scanned(alloc: Global, bytes: &[u8], ids: &IndicesToIds) -> Result<Rc<PlainCode>, AllocError>
    ensures { IfOk result (λ code. AreInPlace (limits_in code.value) (ids_at ids.now)) }
{
    let Ok(kept) = Rc::new(alloc, bytes.to_vec(alloc)?) else {
        return Err(AllocError);
    };
    let mut code = PlainCode::new(alloc, limits_of(ids), 1, kept, 40)?;
    let mut room = ScanRoom::new(alloc)?;
    scan_body(alloc, &mut code, bytes, 40, 0, &mut room)?;
    code.share(alloc)
}

fn read(
    alloc: Global,
    id: FunctionId,
    bytes: &[u8],
    types: &mut ModuleTypes,
    locals: &mut ModuleLocals,
) -> Option<LocalFunction> {
    let ids = function_by_index(alloc, id).ok()?;
    let ty = types.add(&[], &[]).ok()?;
    if !types.is_function_type(ty) {
        return None;
    }
    let locate = |place: &usize| InstrLocId::of_place(*place);
    let code = scanned(alloc, bytes, &ids).ok()?;
    read_body(
        alloc,
        bytes,
        40,
        &ALL,
        ty,
        &[],
        &ids,
        types,
        locals,
        &locate,
        &Some(code),
        0,
    )
    .ok()
}

fn comes_back(alloc: Global, id: FunctionId, bytes: &[u8]) -> bool {
    let mut types = ModuleTypes::new(alloc);
    let mut locals = ModuleLocals::new(alloc);
    match read(alloc, id, bytes, &mut types, &mut locals) {
        Some(function) => is_written(alloc, id, &function, &types, &locals),
        None => false,
    }
}

#[test]
fn a_body_is_read_and_written(rt: HostRuntime) -> Result<(), Fail> {
    let bytes = bytes_of(rt.alloc(), BODY)?;
    demand(comes_back(rt.alloc(), first_id(rt.alloc()), &bytes), BODY)
}
