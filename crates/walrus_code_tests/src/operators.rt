//! Operators over ids and over indices, and what they name.

use std::alloc::{AllocError, Global};
use std::mem::size_of;
use std::test::Fail;
use test_support::{demand, first_id, second_id};
use walrus_base::{FunctionId, HeapType, LocalId, RefType, TypeId, ValType};
use walrus_bodies::LocalFunction;
use walrus_code::{
    Arg, Args, IdsToIndices, IndicesToIds, InstrLocId, ItemId, LocalNumbers, Operator,
    index_operator, index_value, name_operator, name_value, push_locals, push_names,
};
use wasm_forms::{RawHeap, RawRef, RawVal};
use wasm_opcodes::one_byte::{CALL, CALL_INDIRECT};
use wasm_operators::{RawArg, RawArgs, RawOperator};

// A body is a list of operators, so that its memory follows their size.
const _: () = prove!(size_of::<Operator>() == 48);

// An id takes no more room behind a tag than its eight bytes.
const _: () = prove!(size_of::<Arg>() == 32);

// `call_indirect` of the second type over the first table, with a local in it that no such operator has.
fn arguments(alloc: Global, ty: TypeId, local: LocalId) -> Result<Args, AllocError> {
    let mut arguments = Vec::new(alloc);
    arguments.push(Arg::Type(ty))?;
    arguments.push(Arg::Table(first_id(alloc)))?;
    arguments.push(Arg::Local(local))?;
    Ok(Args::from_vec(arguments))
}

fn names_are_listed(alloc: Global) -> bool {
    let (ty, local) = (second_id(alloc), second_id(alloc));
    let Ok(arguments) = arguments(alloc, ty, local) else {
        return false;
    };
    let operator = Operator::new(CALL_INDIRECT, arguments);
    let (mut names, mut locals) = (Vec::new(alloc), Vec::new(alloc));
    push_names(&mut names, &operator).is_ok()
        && push_locals(&mut locals, &operator).is_ok()
        && names.as_slice() == [ItemId::Type(ty), ItemId::Table(first_id(alloc))].as_slice()
        && locals.as_slice() == [local].as_slice()
}

#[test]
fn an_operators_names_are_listed(rt: HostRuntime) -> Result<(), Fail> {
    demand(names_are_listed(rt.alloc()), "a type, a table and a local")
}

// `call` of the function with the index 0.
const RAW_CALL: RawOperator = RawOperator {
    op: CALL,
    args: RawArgs::One(RawArg::Function(0)),
};

fn is_named(alloc: Global, id: FunctionId) -> bool {
    let mut ids = IndicesToIds::new(alloc);
    if ids.push_func(id).is_err() {
        return false;
    }
    match name_operator(alloc, &RAW_CALL, InstrLocId::new(7), &ids, &[]) {
        Ok(operator) => {
            operator.op == CALL
                && operator.args.as_slice() == [Arg::Function(id)].as_slice()
                && operator.loc.value() == 7
        }
        Err(_) => false,
    }
}

fn is_indexed(alloc: Global, id: FunctionId) -> bool {
    let mut indices = IdsToIndices::new(alloc);
    if indices.push_func(id).is_err() {
        return false;
    }
    let operator = Operator::new(CALL, Args::One(Arg::Function(id)));
    match index_operator(alloc, &operator, &indices, &LocalNumbers::new(alloc)) {
        Ok(raw) => raw.op == CALL && raw.args.as_slice() == [RawArg::Function(0)].as_slice(),
        Err(_) => false,
    }
}

#[test]
fn an_operator_is_named_and_indexed(rt: HostRuntime) -> Result<(), Fail> {
    let id = second_id(rt.alloc());
    demand(is_named(rt.alloc(), id), "a call over ids")?;
    demand(is_indexed(rt.alloc(), id), "a call over indices")
}

// A nullable reference to the type with the index 0, and with the id.
const REFERENCE: RawVal = RawVal::Ref(RawRef {
    nullable: true,
    heap: RawHeap::Index(0),
});

fn reference_to(id: TypeId) -> ValType {
    ValType::Ref(RefType {
        nullable: true,
        heap_type: HeapType::Concrete(id),
    })
}

fn value_is_named(alloc: Global, id: TypeId) -> bool {
    let mut ids = IndicesToIds::new(alloc);
    let is_unknown = name_value(REFERENCE, &ids).is_none();
    is_unknown && ids.push_type(id).is_ok() && name_value(REFERENCE, &ids) == Some(reference_to(id))
}

fn value_is_indexed(alloc: Global, id: TypeId) -> bool {
    let mut indices = IdsToIndices::new(alloc);
    let is_unknown = index_value(reference_to(id), &indices).is_err();
    is_unknown
        && indices.push_type(id).is_ok()
        && matches!(index_value(reference_to(id), &indices), Ok(value) if value == REFERENCE)
}

#[test]
fn a_value_type_is_named_and_indexed(rt: HostRuntime) -> Result<(), Fail> {
    let id = second_id(rt.alloc());
    demand(value_is_named(rt.alloc(), id), "a reference over ids")?;
    demand(value_is_indexed(rt.alloc(), id), "one over indices")
}

// Whether the arguments, as a vector, are the wanted ones.
fn are_given_back(alloc: Global, arguments: Args, wanted: &[Arg]) -> bool {
    match arguments.into_vec(alloc) {
        Ok(found) => found.as_slice() == wanted,
        Err(_) => false,
    }
}

fn many_are_given_back(alloc: Global) -> bool {
    let (ty, local) = (second_id(alloc), second_id(alloc));
    match arguments(alloc, ty, local) {
        Ok(arguments) => {
            let wanted = [
                Arg::Type(ty),
                Arg::Table(first_id(alloc)),
                Arg::Local(local),
            ];
            are_given_back(alloc, arguments, wanted.as_slice())
        }
        Err(_) => false,
    }
}

#[test]
fn arguments_are_given_back(rt: HostRuntime) -> Result<(), Fail> {
    let one = Arg::S32(-1);
    demand(are_given_back(rt.alloc(), Args::None, &[]), "none")?;
    demand(
        are_given_back(rt.alloc(), Args::One(one), &[Arg::S32(-1)]),
        "one",
    )?;
    demand(many_are_given_back(rt.alloc()), "three")
}

#[test]
fn what_came_from_nowhere_has_the_default_location(_rt: HostRuntime) -> Result<(), Fail> {
    demand(InstrLocId::DEFAULT.is_default(), "the largest number")?;
    demand(!InstrLocId::new(7).is_default(), "another")?;
    demand(
        Operator::new(Operator::END, Args::None).loc.is_default(),
        "an operator",
    )
}

#[test]
fn a_function_takes_another_type(rt: HostRuntime) -> Result<(), Fail> {
    let (first, second) = (first_id(rt.alloc()), second_id(rt.alloc()));
    let (args, operators) = (Vec::new(rt.alloc()), Vec::new(rt.alloc()));
    let mut function = LocalFunction::new(rt.alloc(), first, args, operators, None)?;
    function.set_ty(second);
    demand(function.ty() == second, "the other type")?;
    demand(function.size() == 0, "no operator")
}

#[test]
fn a_function_has_its_parts(rt: HostRuntime) -> Result<(), Fail> {
    let ty = second_id(rt.alloc());
    let mut operators = Vec::new(rt.alloc());
    let end = Operator::new(Operator::END, Args::None);
    demand(operators.push(end).is_ok(), "memory")?;
    let function = LocalFunction::new(rt.alloc(), ty, Vec::new(rt.alloc()), operators, None)?;
    demand(function.ty() == ty, "its type")?;
    demand(function.size() == 1, "one operator")?;
    demand(function.handler_types().is_empty(), "no handler's type")
}
