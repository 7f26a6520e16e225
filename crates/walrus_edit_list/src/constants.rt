//! Value types and constant expressions over ids.

ghost use Rattle.std.specs.Prelude.{map};
ghost use Rattle.wasm_entries.specs.Record.{expression};
ghost use Rattle.walrus_base.specs.ConstOps.{const_ops};
ghost use Rattle.walrus_base.specs.Value.{ref_type, val_type};
ghost use Rattle.walrus_code.specs.FromRaw.{val_of};
ghost use Rattle.walrus_code.specs.Indices.{ids_at};
ghost use Rattle.walrus_code.specs.Names.{named_val};
ghost use Rattle.walrus_constants.specs.Named.{named_const, named_ref};
ghost use Rattle.walrus_groups.specs.Named.{each};
ghost use Rattle.walrus_model.specs.Constants.{consts_of};
ghost use Rattle.walrus_model.specs.Sections.{ref_of};
ghost use Rattle.walrus_edit_list.specs.Constants.{Finds};

use std::alloc::Global;
use walrus_base::{ConstExpr, RefType, ValType};
use walrus_code::{IndicesToIds, IrError, name_value};
use walrus_constants::{read_const, read_consts};
use walrus_items::{Error, Result};
use wasm_entries::RawExpression;
use wasm_forms::{RawRef, RawVal};

/// The value type with the id for the number of a type in it. `DeadItem` exactly where that has none.
pub(crate) fn value_type(raw: RawVal, ids: &IndicesToIds) -> Result<ValType>
    ensures { Finds val_type result (named_val (ids_at ids.now) (val_of raw)) }
{
    match name_value(raw, ids) {
        Some(ty) => Ok(ty),
        None => Err(Error::DeadItem),
    }
}

/// The reference type with the id for the number of a type in it. `DeadItem` exactly where that has none.
pub(crate) fn reference_type(raw: RawRef, ids: &IndicesToIds) -> Result<RefType>
    ensures { Finds ref_type result (named_ref (ids_at ids.now) (ref_of raw)) }
{
    match name_value(RawVal::Ref(raw), ids) {
        Some(ValType::Ref(ty)) => Ok(ty),
        Some(_) => unreachable!(),
        None => Err(Error::DeadItem),
    }
}

/// The constant expression with the id for each number in it. `DeadItem` exactly where one has none.
pub(crate) fn constant(alloc: Global, raw: &RawExpression, ids: &IndicesToIds) -> Result<ConstExpr>
    ensures { Finds const_ops result (named_const (ids_at ids.now) (consts_of (expression raw.now))) }
{
    match read_const(alloc, raw.operators(), ids) {
        Ok(expression) => Ok(expression),
        Err(IrError::Memory(error)) => Err(Error::Memory(error)),
        Err(_) => Err(Error::DeadItem),
    }
}

/// The constant expressions with the id for each number in them. `DeadItem` exactly where one has none.
pub(crate) fn constants(
    alloc: Global,
    raw: &[RawExpression],
    ids: &IndicesToIds,
) -> Result<Vec<ConstExpr>>
    ensures { Finds (λ found. map const_ops found.items) result
        (each (named_const (ids_at ids.now)) (map consts_of (map expression raw.now))) }
{
    match read_consts(alloc, raw, ids) {
        Ok(expressions) => Ok(expressions),
        Err(IrError::Memory(error)) => Err(Error::Memory(error)),
        Err(_) => Err(Error::DeadItem),
    }
}
