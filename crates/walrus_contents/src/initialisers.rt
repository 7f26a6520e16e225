//! What tables, tags, globals and segments name, and the constant expressions that initialise them
//! (Valid > Instructions > Expressions > Constant Expressions).

ghost use Rattle.std.specs.Prelude.{◌≡◌, flat_map, map, option_map, OnOk};
ghost use Rattle.std.specs.Option.{option_to_list};
ghost use Rattle.walrus_code.specs.Code.{item_of};
ghost use Rattle.walrus_items.specs.Data.{data_value};
ghost use Rattle.walrus_items.specs.Elements.{element_value};
ghost use Rattle.walrus_items.specs.Globals.{global_init, global_value};
ghost use Rattle.walrus_items.specs.Tables.{table_value};
ghost use Rattle.walrus_items.specs.Tags.{tag_value};
ghost use Rattle.walrus_model.specs.Refers.{data_kind_names, data_names, element_item_names, element_kind_names, element_names, global_names, named_by, table_names, tag_names};
ghost use Rattle.walrus_base.specs.ConstOps.{const_op, const_ops};
ghost use Rattle.walrus_base.specs.Operators.{function_item, names_of, op_names, type_item};
ghost use Rattle.walrus_base.specs.Value.{heap_type};
ghost use Rattle.walrus_base.specs.Types.{heap_names};
ghost use Rattle.walrus_base.specs.Id.{place};
ghost use Rattle.walrus_contents.specs.Named.{Puts};
ghost use Rattle.walrus_contents.specs.View.{data_kind_of, data_of, element_items_of, element_kind_of, element_of, global_of, table_of, tag_of};

use crate::names::{push_heap_type, push_value_type};
use std::alloc::AllocError;
use std::result;
use walrus_base::{ConstExpr, ConstOp, FunctionId, HeapType, TypeId};
use walrus_code::ItemId;
use walrus_items::{
    Data, DataKind, Element, ElementItems, ElementKind, Global, GlobalKind, Table, Tag,
};

// Puts what a table names behind `to`: the concrete type of its elements, and what its initialiser names, if no import brings it.
pub(crate) fn push_table_names(
    table: &Table,
    to: &mut Vec<ItemId>,
) -> result::Result<(), AllocError>
    ensures { OnOk result (Puts to.old to.new (table_names (table_of (table_value table.now)))) }
{
    push_heap_type(table.element_ty.heap_type, to)?;
    match table.import {
        Some(_) => Ok(()),
        None => push_initialiser_names(&table.init, to),
    }
}

// The same for the initialiser of a table that no import brings, if it has one.
fn push_initialiser_names(
    init: &Option<ConstExpr>,
    to: &mut Vec<ItemId>,
) -> result::Result<(), AllocError>
    ensures { OnOk result (Puts to.old to.new (named_by names_of (option_map const_ops init.now))) }
{
    match init {
        Some(initialiser) => push_const_names(initialiser, to),
        None => Ok(()),
    }
}

// The same for a tag: its type.
pub(crate) fn push_tag_names(tag: &Tag, to: &mut Vec<ItemId>) -> result::Result<(), AllocError>
    ensures { OnOk result (Puts to.old to.new (tag_names (tag_of (tag_value tag.now)))) }
{
    Ok(to.push(ItemId::Type(tag.ty()))?)
}

// The same for a global: the concrete type of its value, and what its initialiser names.
pub(crate) fn push_global_names(
    global: &Global,
    to: &mut Vec<ItemId>,
) -> result::Result<(), AllocError>
    ensures { OnOk result (Puts to.old to.new (global_names (global_of (global_value global.now)))) }
{
    push_value_type(global.ty, to)?;
    push_kind_names(&global.kind, to)
}

// The same for where a global comes from: an import, which names nothing, or its initialiser.
fn push_kind_names(kind: &GlobalKind, to: &mut Vec<ItemId>) -> result::Result<(), AllocError>
    ensures { OnOk result (Puts to.old to.new (named_by names_of
        (option_map const_ops (global_init kind.now)))) }
{
    match kind {
        GlobalKind::Import(_) => Ok(()),
        GlobalKind::Local(initialiser) => push_const_names(initialiser, to),
    }
}

// The same for an element segment: of an active one its table, and what its offset names, and then what it holds.
pub(crate) fn push_element_names(
    segment: &Element,
    to: &mut Vec<ItemId>,
) -> result::Result<(), AllocError>
    ensures { OnOk result (Puts to.old to.new (element_names (element_of (element_value segment.now)))) }
{
    push_mode_names(&segment.kind, to)?;
    push_held_names(&segment.items, to)
}

// The same for how an element segment is used.
fn push_mode_names(kind: &ElementKind, to: &mut Vec<ItemId>) -> result::Result<(), AllocError>
    ensures { OnOk result (Puts to.old to.new (element_kind_names (element_kind_of kind.now))) }
{
    match kind {
        ElementKind::Active { table, offset } => {
            to.push(ItemId::Table(*table))?;
            push_const_names(offset, to)
        }
        ElementKind::Passive | ElementKind::Declared => Ok(()),
    }
}

// The same for what it holds: its functions, or the concrete type of its expressions and what these name.
fn push_held_names(items: &ElementItems, to: &mut Vec<ItemId>) -> result::Result<(), AllocError>
    ensures { OnOk result (Puts to.old to.new (element_item_names (element_items_of items.now))) }
{
    match items {
        ElementItems::Functions(functions) => push_function_ids(functions.as_slice(), to),
        ElementItems::Expressions(ty, expressions) => {
            push_heap_type(ty.heap_type, to)?;
            push_all_consts(expressions.as_slice(), to)
        }
    }
}

// The same for functions.
fn push_function_ids(ids: &[FunctionId], to: &mut Vec<ItemId>) -> result::Result<(), AllocError>
    ensures { OnOk result (Puts to.old to.new (map function_item (map place ids.now))) }
{
    for id in ids {
        to.push(ItemId::Function(*id))?;
    }
    Ok(())
}

// The same for a data segment: of an active one its memory, and what its offset names.
pub(crate) fn push_data_names(
    segment: &Data,
    to: &mut Vec<ItemId>,
) -> result::Result<(), AllocError>
    ensures { OnOk result (Puts to.old to.new (data_names (data_of (data_value segment.now)))) }
{
    push_use_names(&segment.kind, to)
}

// The same for how a data segment is used.
fn push_use_names(kind: &DataKind, to: &mut Vec<ItemId>) -> result::Result<(), AllocError>
    ensures { OnOk result (Puts to.old to.new (data_kind_names (data_kind_of kind.now))) }
{
    match kind {
        DataKind::Active { memory, offset } => {
            to.push(ItemId::Memory(*memory))?;
            push_const_names(offset, to)
        }
        DataKind::Passive => Ok(()),
    }
}

// The same for a constant expression.
#[tactic(auto, using(crate::proofs::ConstNames::null_alone))]
fn push_const_names(expr: &ConstExpr, to: &mut Vec<ItemId>) -> result::Result<(), AllocError>
    ensures { OnOk result (Puts to.old to.new (names_of (const_ops expr.now))) }
{
    match expr {
        ConstExpr::Value(_) => Ok(()),
        ConstExpr::Global(id) => Ok(to.push(ItemId::Global(*id))?),
        ConstExpr::RefNull(reference) => push_heap_type(reference.heap_type, to),
        ConstExpr::RefFunc(id) => Ok(to.push(ItemId::Function(*id))?),
        ConstExpr::Extended(operators) => push_const_ops(operators.as_slice(), to),
    }
}

// The same for constant expressions.
fn push_all_consts(all: &[ConstExpr], to: &mut Vec<ItemId>) -> result::Result<(), AllocError>
    ensures { OnOk result (Puts to.old to.new (flat_map names_of (map const_ops all.now))) }
{
    for expr in all {
        push_const_names(expr, to)?;
    }
    Ok(())
}

// The same for operators of constant expressions.
fn push_const_ops(operators: &[ConstOp], to: &mut Vec<ItemId>) -> result::Result<(), AllocError>
    ensures { OnOk result (Puts to.old to.new (names_of (map const_op operators.now))) }
{
    for operator in operators {
        push_const_op(operator, to)?;
    }
    Ok(())
}

// The same for one.
fn push_const_op(operator: &ConstOp, to: &mut Vec<ItemId>) -> result::Result<(), AllocError>
    ensures { OnOk result (Puts to.old to.new (op_names (const_op operator.now))) }
{
    match item_of_const(operator) {
        Some(item) => Ok(to.push(item)?),
        None => Ok(()),
    }
}

// The item that an operator of a constant expression names.
fn item_of_const(operator: &ConstOp) -> Option<ItemId>
    ensures { map item_of (option_to_list result) ≡ op_names (const_op operator.now) }
{
    match *operator {
        ConstOp::GlobalGet(id) => Some(ItemId::Global(id)),
        ConstOp::RefFunc(id) => Some(ItemId::Function(id)),
        ConstOp::RefNull(heap) => type_of_heap(heap).map(ItemId::Type),
        ConstOp::StructNew(id)
        | ConstOp::StructNewDefault(id)
        | ConstOp::ArrayNew(id)
        | ConstOp::ArrayNewDefault(id)
        | ConstOp::ArrayNewFixed(id, _) => Some(ItemId::Type(id)),
        ConstOp::I32Const(_)
        | ConstOp::I64Const(_)
        | ConstOp::F32Const(_)
        | ConstOp::F64Const(_)
        | ConstOp::I32Add
        | ConstOp::I32Sub
        | ConstOp::I32Mul
        | ConstOp::I64Add
        | ConstOp::I64Sub
        | ConstOp::I64Mul
        | ConstOp::AnyConvertExtern
        | ConstOp::ExternConvertAny
        | ConstOp::RefI31 => None,
        ConstOp::V128Const(_) => None,
    }
}

// The type that a heap type names.
fn type_of_heap(heap: HeapType) -> Option<TypeId>
    ensures { map place (option_to_list result) ≡ heap_names (heap_type heap) }
{
    match heap {
        HeapType::Abstract(_) => None,
        HeapType::Concrete(id) | HeapType::Exact(id) => Some(id),
    }
}
