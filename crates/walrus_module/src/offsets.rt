//! The offsets of active segments ("Validation > Modules > Element Segments", "Data Segments"), as far as one instruction tells.
ghost use Rattle.std.specs.Prelude.{◌≡◌};
ghost use Rattle.std.specs.List.{list_all};
ghost use Rattle.walrus_base.specs.Arena.{item_at, items};
ghost use Rattle.walrus_base.specs.Id.{place};
ghost use Rattle.walrus_items.specs.Data.{data_segments};
ghost use Rattle.walrus_items.specs.Elements.{elements};
ghost use Rattle.walrus_items.specs.Globals.{globals};
ghost use Rattle.walrus_items.specs.Memories.{memories};
ghost use Rattle.walrus_items.specs.Tables.{tables};
ghost use Rattle.walrus_base.specs.Value.{val_type};
ghost use Rattle.walrus_module.specs.Tested.{data_is_placed, element_is_placed, global_gives, is_address, offset_gives, op_gives, ops_give, value_gives};

use walrus_base::{ConstExpr, ConstOp, GlobalId, ValType, Value};
use walrus_contents::Parts;
use walrus_items::{DataKind, ElementKind, ModuleGlobals};

// Whether addresses of this width have this type.
fn is_address(wide: bool, ty: ValType) -> bool
    ensures { result ≡ is_address wide (val_type ty) }
{
    match ty {
        ValType::I32 => !wide,
        ValType::I64 => wide,
        ValType::F32 | ValType::F64 | ValType::V128 | ValType::Ref(_) => false,
    }
}

// Whether a global is there and holds an address of this width.
fn global_gives(all: &ModuleGlobals, wide: bool, id: GlobalId) -> bool
    ensures { result ≡ global_gives wide (item_at (globals all.now) (place id)) }
{
    all.contains(id) && is_address(wide, all.get(id).ty)
}

// Whether a constant is an address of this width.
fn value_gives(wide: bool, value: Value) -> bool
    ensures { result ≡ value_gives wide value }
{
    match value {
        Value::I32(_) => !wide,
        Value::I64(_) => wide,
        Value::F32(_) | Value::F64(_) | Value::V128(_) => false,
    }
}

// Whether an operator that stands alone gives an address of this width, where it gives a value at once.
fn op_gives(all: &ModuleGlobals, wide: bool, op: ConstOp) -> bool
    ensures { result ≡ op_gives (globals all.now) wide op }
{
    match op {
        ConstOp::GlobalGet(id) => global_gives(all, wide, id),
        ConstOp::I32Const(_) => !wide,
        ConstOp::I64Const(_) => wide,
        ConstOp::F32Const(_)
        | ConstOp::F64Const(_)
        | ConstOp::V128Const(_)
        | ConstOp::RefNull(_)
        | ConstOp::RefFunc(_) => false,
        ConstOp::I32Add
        | ConstOp::I32Sub
        | ConstOp::I32Mul
        | ConstOp::I64Add
        | ConstOp::I64Sub
        | ConstOp::I64Mul
        | ConstOp::StructNew(_)
        | ConstOp::StructNewDefault(_)
        | ConstOp::ArrayNew(_)
        | ConstOp::ArrayNewDefault(_)
        | ConstOp::ArrayNewFixed(_, _)
        | ConstOp::AnyConvertExtern
        | ConstOp::ExternConvertAny
        | ConstOp::RefI31 => true,
    }
}

// The same of these operators, if there is only one.
fn ops_give(all: &ModuleGlobals, wide: bool, ops: &[ConstOp]) -> bool
    ensures { result ≡ ops_give (globals all.now) wide ops.now }
{
    match ops {
        [only] => op_gives(all, wide, *only),
        _ => true,
    }
}

// Whether an offset gives an address of this width, where it is one operator that gives a value at once.
fn offset_gives(all: &ModuleGlobals, wide: bool, offset: &ConstExpr) -> bool
    ensures { result ≡ offset_gives (globals all.now) wide offset.now }
{
    match offset {
        ConstExpr::Value(value) => value_gives(wide, *value),
        ConstExpr::Global(id) => global_gives(all, wide, *id),
        ConstExpr::RefNull(_) | ConstExpr::RefFunc(_) => false,
        ConstExpr::Extended(ops) => ops_give(all, wide, ops.as_slice()),
    }
}

// Whether the offset of an active element segment gives an address of the width of its table.
fn is_element_placed(parts: Parts<'_>, kind: &ElementKind) -> bool
    ensures { result ≡ element_is_placed (globals parts.entry.globals.now)
        (tables parts.entry.tables.now) kind.now }
{
    match kind {
        ElementKind::Active { table, offset } => {
            !parts.tables.contains(*table)
                || offset_gives(parts.globals, parts.tables.get(*table).table64, offset)
        }
        ElementKind::Passive | ElementKind::Declared => true,
    }
}

// The same of all element segments.
pub(crate) fn are_elements_placed(parts: Parts<'_>) -> bool
    ensures { result ≡ list_all (λ e. element_is_placed (globals parts.entry.globals.now)
        (tables parts.entry.tables.now) e.kind) (items (elements parts.entry.elements.now)) }
{
    for segment in parts.elements.iter() {
        if !is_element_placed(parts, &segment.kind) {
            return false;
        }
    }
    true
}

// Whether the offset of an active data segment gives an address of the width of its memory.
fn is_data_placed(parts: Parts<'_>, kind: &DataKind) -> bool
    ensures { result ≡ data_is_placed (globals parts.entry.globals.now)
        (memories parts.entry.memories.now) kind.now }
{
    match kind {
        DataKind::Active { memory, offset } => {
            !parts.memories.contains(*memory)
                || offset_gives(parts.globals, parts.memories.get(*memory).memory64, offset)
        }
        DataKind::Passive => true,
    }
}

// The same of all data segments.
pub(crate) fn are_data_placed(parts: Parts<'_>) -> bool
    ensures { result ≡ list_all (λ d. data_is_placed (globals parts.entry.globals.now)
        (memories parts.entry.memories.now) d.kind) (items (data_segments parts.entry.data_.now)) }
{
    for segment in parts.data_.iter() {
        if !is_data_placed(parts, &segment.kind) {
            return false;
        }
    }
    true
}
