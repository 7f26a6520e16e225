//! Whether bytes spell types and constant expressions: no exact heap type stands in them, and no expression is empty ("Binary Format > Types",
//! "Binary Format > Instructions > Expressions").
ghost use Rattle.std.specs.Prelude.{◌≡◌, map, not};
ghost use Rattle.std.specs.List.{list_all};
ghost use Rattle.walrus_base.specs.Arena.{entries, items};
ghost use Rattle.walrus_code.specs.Results.{heap_is_exact};
ghost use Rattle.walrus_contents.specs.View.{lent};
ghost use Rattle.walrus_items.specs.Data.{data_segments};
ghost use Rattle.walrus_items.specs.Elements.{elements};
ghost use Rattle.walrus_items.specs.Globals.{globals, global_init};
ghost use Rattle.walrus_items.specs.Tables.{table_value, tables};
ghost use Rattle.walrus_base.specs.Composite.{comp_type, field_type};
ghost use Rattle.walrus_base.specs.ModuleTypes.{type_slots};
ghost use Rattle.walrus_base.specs.Value.{heap_type, val_type};
ghost use Rattle.walrus_module.specs.Tested.{comp_is_spelled, const_is_spelled, data_is_spelled, data_kind_is_spelled, element_is_spelled, element_items_are_spelled, element_kind_is_spelled, entry_is_spelled, field_is_spelled, forms_are_spelled, global_is_spelled, op_is_spelled, option_is_spelled, table_is_spelled, val_is_spelled};

use walrus_base::{
    CompositeType, ConstExpr, ConstOp, FieldType, HeapType, ModuleTypes, StorageType, ValType,
};
use walrus_contents::Parts;
use walrus_items::{
    DataKind, ElementItems, ElementKind, GlobalKind, ModuleData, ModuleElements, ModuleGlobals,
    ModuleTables, Table,
};

// Whether bytes spell a heap type: it isn't exact.
fn is_heap_spelled(heap: HeapType) -> bool
    ensures { result ≡ not (heap_is_exact (heap_type heap)) }
{
    match heap {
        HeapType::Abstract(_) | HeapType::Concrete(_) => true,
        HeapType::Exact(_) => false,
    }
}

// The same of a value type.
fn is_val_spelled(ty: ValType) -> bool
    ensures { result ≡ val_is_spelled (val_type ty) }
{
    match ty {
        ValType::I32 | ValType::I64 | ValType::F32 | ValType::F64 | ValType::V128 => true,
        ValType::Ref(reference) => is_heap_spelled(reference.heap_type),
    }
}

// The same of value types.
fn are_vals_spelled(types: &[ValType]) -> bool
    ensures { result ≡ list_all val_is_spelled (map val_type types.now) }
{
    for ty in types {
        if !is_val_spelled(*ty) {
            return false;
        }
    }
    true
}

// The same of a field.
fn is_field_spelled(field: &FieldType) -> bool
    ensures { result ≡ field_is_spelled (field_type field.now) }
{
    match field.element_type {
        StorageType::Val(ty) => is_val_spelled(ty),
        StorageType::I8 | StorageType::I16 => true,
    }
}

// The same of fields.
fn are_fields_spelled(fields: &[FieldType]) -> bool
    ensures { result ≡ list_all field_is_spelled (map field_type fields.now) }
{
    for field in fields {
        if !is_field_spelled(field) {
            return false;
        }
    }
    true
}

// The same of a composite type.
fn is_comp_spelled(comp: &CompositeType) -> bool
    ensures { result ≡ comp_is_spelled (comp_type comp.now) }
{
    match comp {
        CompositeType::Function(function) => {
            are_vals_spelled(function.params()) && are_vals_spelled(function.results())
        }
        CompositeType::Struct(record) => are_fields_spelled(record.fields.as_slice()),
        CompositeType::Array(array) => is_field_spelled(&array.field),
    }
}

// The same of all types.
fn are_types_spelled(types: &ModuleTypes) -> bool
    ensures { result ≡ list_all entry_is_spelled (entries (type_slots types.now)) }
{
    for ty in types.iter() {
        if !is_comp_spelled(ty.comp()) {
            return false;
        }
    }
    true
}

// The same of an operator of a constant expression.
fn is_op_spelled(op: ConstOp) -> bool
    ensures { result ≡ op_is_spelled op }
{
    match op {
        ConstOp::RefNull(heap) => is_heap_spelled(heap),
        _ => true,
    }
}

// The same of operators.
fn are_ops_spelled(ops: &[ConstOp]) -> bool
    ensures { result ≡ list_all op_is_spelled ops.now }
{
    for op in ops {
        if !is_op_spelled(*op) {
            return false;
        }
    }
    true
}

// Whether bytes spell a constant expression: no exact heap type stands in it, and it isn't empty.
fn is_const_spelled(expr: &ConstExpr) -> bool
    ensures { result ≡ const_is_spelled expr.now }
{
    match expr {
        ConstExpr::Value(_) | ConstExpr::Global(_) | ConstExpr::RefFunc(_) => true,
        ConstExpr::RefNull(ty) => is_heap_spelled(ty.heap_type),
        ConstExpr::Extended(ops) => !ops.is_empty() && are_ops_spelled(ops.as_slice()),
    }
}

// The same of constant expressions.
fn are_consts_spelled(all: &[ConstExpr]) -> bool
    ensures { result ≡ list_all const_is_spelled all.now }
{
    for expr in all {
        if !is_const_spelled(expr) {
            return false;
        }
    }
    true
}

// The same of an initialiser, if there is one.
fn is_option_spelled(init: &Option<ConstExpr>) -> bool
    ensures { result ≡ option_is_spelled init.now }
{
    match init {
        None => true,
        Some(expr) => is_const_spelled(expr),
    }
}

// The same of a table: of the type of its elements, and of its initialiser, where it isn't imported.
fn is_table_spelled(table: &Table) -> bool
    ensures { result ≡ table_is_spelled (table_value table.now) }
{
    is_heap_spelled(table.element_ty.heap_type)
        && (table.import.is_some() || is_option_spelled(&table.init))
}

// The same of all tables.
fn are_tables_spelled(all: &ModuleTables) -> bool
    ensures { result ≡ list_all table_is_spelled (items (tables all.now)) }
{
    for table in all.iter() {
        if !is_table_spelled(table) {
            return false;
        }
    }
    true
}

// The same of the initialiser of a global of this kind.
fn is_global_kind_spelled(kind: &GlobalKind) -> bool
    ensures { result ≡ option_is_spelled (global_init kind.now) }
{
    match kind {
        GlobalKind::Local(expr) => is_const_spelled(expr),
        GlobalKind::Import(_) => true,
    }
}

// The same of all globals: of their types and initialisers.
fn are_globals_spelled(all: &ModuleGlobals) -> bool
    ensures { result ≡ list_all global_is_spelled (items (globals all.now)) }
{
    for global in all.iter() {
        if !is_val_spelled(global.ty) || !is_global_kind_spelled(&global.kind) {
            return false;
        }
    }
    true
}

// The same of the offset of an element segment, if it has one.
fn is_element_kind_spelled(kind: &ElementKind) -> bool
    ensures { result ≡ element_kind_is_spelled kind.now }
{
    match kind {
        ElementKind::Active { offset, .. } => is_const_spelled(offset),
        ElementKind::Passive | ElementKind::Declared => true,
    }
}

// The same of what it holds.
fn are_element_items_spelled(held: &ElementItems) -> bool
    ensures { result ≡ element_items_are_spelled held.now }
{
    match held {
        ElementItems::Functions(_) => true,
        ElementItems::Expressions(ty, all) => {
            is_heap_spelled(ty.heap_type) && are_consts_spelled(all.as_slice())
        }
    }
}

// The same of all element segments.
fn are_elements_spelled(all: &ModuleElements) -> bool
    ensures { result ≡ list_all element_is_spelled (items (elements all.now)) }
{
    for segment in all.iter() {
        if !is_element_kind_spelled(&segment.kind) || !are_element_items_spelled(&segment.items) {
            return false;
        }
    }
    true
}

// The same of the offset of a data segment, if it has one.
fn is_data_kind_spelled(kind: &DataKind) -> bool
    ensures { result ≡ data_kind_is_spelled kind.now }
{
    match kind {
        DataKind::Active { offset, .. } => is_const_spelled(offset),
        DataKind::Passive => true,
    }
}

// The same of all data segments.
fn are_data_spelled(all: &ModuleData) -> bool
    ensures { result ≡ list_all data_is_spelled (items (data_segments all.now)) }
{
    for segment in all.iter() {
        if !is_data_kind_spelled(&segment.kind) {
            return false;
        }
    }
    true
}

// Whether bytes spell all that stands outside bodies.
pub(crate) fn are_forms_spelled(parts: Parts<'_>) -> bool
    ensures { result ≡ forms_are_spelled (lent parts.entry) }
{
    are_types_spelled(parts.types)
        && are_tables_spelled(parts.tables)
        && are_globals_spelled(parts.globals)
        && are_elements_spelled(parts.elements)
        && are_data_spelled(parts.data_)
}
