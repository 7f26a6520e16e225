//! Constant expressions over indices and over ids.

use std::alloc::{AllocError, Global};
use std::test::Fail;
use test_support::{demand, second_id};
use walrus_base::{ConstExpr, ConstOp, GlobalId, Value};
use walrus_code::{IdsToIndices, IndicesToIds};
use walrus_constants::{raw_const, raw_consts, raw_op, read_const, read_consts, read_op};
use wasm_entries::{RawConst, RawExpression};

// The sum of five and the value of the global with the index 0.
const RAW_SUM: [RawConst; 3] = [
    RawConst::GlobalGet(0),
    RawConst::I32Const(5),
    RawConst::I32Add,
];

fn is_sum(expr: &ConstExpr, id: GlobalId) -> bool {
    match expr {
        ConstExpr::Extended(operators) => {
            operators.as_slice()
                == [
                    ConstOp::GlobalGet(id),
                    ConstOp::I32Const(5),
                    ConstOp::I32Add,
                ]
                .as_slice()
        }
        _ => false,
    }
}

fn is_read(alloc: Global, ids: &IndicesToIds, id: GlobalId) -> bool {
    read_op(&RawConst::GlobalGet(0), ids) == Some(ConstOp::GlobalGet(id))
        && matches!(read_const(alloc, RAW_SUM.as_slice(), ids), Ok(expr) if is_sum(&expr, id))
}

fn sum_is_read(alloc: Global) -> bool {
    let mut ids = IndicesToIds::new(alloc);
    let id = second_id(alloc);
    ids.push_global(id).is_ok() && is_read(alloc, &ids, id)
}

#[test]
fn a_sum_is_read(rt: HostRuntime) -> Result<(), Fail> {
    demand(sum_is_read(rt.alloc()), "a sum over ids")
}

// The items of a segment: the sum, and the value of the global.
fn items_over_indices(alloc: Global) -> Result<Vec<RawExpression>, AllocError> {
    let mut items = Vec::new(alloc);
    items.push(RawExpression::Listed(RAW_SUM.as_slice().to_vec(alloc)?))?;
    items.push(RawExpression::Single(RawConst::GlobalGet(0)))?;
    Ok(items)
}

fn are_items(found: &[ConstExpr], id: GlobalId) -> bool {
    match found {
        [sum, ConstExpr::Global(value)] => is_sum(sum, id) && *value == id,
        _ => false,
    }
}

fn are_read(alloc: Global, ids: &IndicesToIds, id: GlobalId) -> bool {
    let Ok(raw) = items_over_indices(alloc) else {
        return false;
    };
    matches!(read_consts(alloc, raw.as_slice(), ids), Ok(found) if are_items(found.as_slice(), id))
}

fn items_are_read(alloc: Global) -> bool {
    let mut ids = IndicesToIds::new(alloc);
    let id = second_id(alloc);
    ids.push_global(id).is_ok() && are_read(alloc, &ids, id)
}

#[test]
fn the_items_of_a_segment_are_read(rt: HostRuntime) -> Result<(), Fail> {
    demand(items_are_read(rt.alloc()), "a sum and a value over ids")
}

fn is_raw_value(found: &[RawConst]) -> bool {
    found == [RawConst::GlobalGet(0)].as_slice()
}

fn is_written(alloc: Global, indices: &IdsToIndices, id: GlobalId) -> bool {
    matches!(raw_op(&ConstOp::GlobalGet(id), indices), Ok(raw) if raw == RawConst::GlobalGet(0))
        && matches!(raw_const(alloc, &ConstExpr::Global(id), indices), Ok(raw) if is_raw_value(raw.operators()))
}

fn value_is_written(alloc: Global) -> bool {
    let mut indices = IdsToIndices::new(alloc);
    let id = second_id(alloc);
    indices.push_global(id).is_ok() && is_written(alloc, &indices, id)
}

#[test]
fn a_globals_value_is_written(rt: HostRuntime) -> Result<(), Fail> {
    demand(
        value_is_written(rt.alloc()),
        "the value of a global over indices",
    )
}

// The items of a segment: the value of the global, and five.
fn items_over_ids(alloc: Global, id: GlobalId) -> Result<Vec<ConstExpr>, AllocError> {
    let mut items = Vec::new(alloc);
    items.push(ConstExpr::Global(id))?;
    items.push(ConstExpr::Value(Value::I32(5)))?;
    Ok(items)
}

fn are_raw_items(found: &[RawExpression]) -> bool {
    match found {
        [value, five] => {
            is_raw_value(value.operators())
                && five.operators() == [RawConst::I32Const(5)].as_slice()
        }
        _ => false,
    }
}

fn are_written(alloc: Global, indices: &IdsToIndices, id: GlobalId) -> bool {
    let Ok(items) = items_over_ids(alloc, id) else {
        return false;
    };
    matches!(raw_consts(alloc, items.as_slice(), indices), Ok(raw) if are_raw_items(raw.as_slice()))
}

fn items_are_written(alloc: Global) -> bool {
    let mut indices = IdsToIndices::new(alloc);
    let id = second_id(alloc);
    indices.push_global(id).is_ok() && are_written(alloc, &indices, id)
}

#[test]
fn the_items_of_a_segment_are_written(rt: HostRuntime) -> Result<(), Fail> {
    demand(
        items_are_written(rt.alloc()),
        "the value of a global and a number over indices",
    )
}
