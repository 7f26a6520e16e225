//! Types, constant expressions and locals.

use std::alloc::{AllocError, Global};
use std::test::Fail;
use test_support::{demand, is_name};
use walrus_base::{
    AbstractHeapType, ArrayType, CompositeType, ConstExpr, ConstOp, FieldType, FunctionType,
    HeapType, Id, LocalId, ModuleLocals, ModuleTypes, NewType, RefType, StorageType, StructType,
    Type, TypeId, ValType, push_names,
};

const ANY: HeapType = HeapType::Abstract(AbstractHeapType::Any);

fn reference_to(id: TypeId) -> ValType {
    ValType::Ref(RefType {
        nullable: true,
        heap_type: HeapType::Concrete(id),
    })
}

// A struct with one field, which refers to the type, and an array of bytes.
fn members(alloc: Global, id: TypeId) -> Result<Vec<NewType>, AllocError> {
    let mut fields = Vec::new(alloc);
    fields.push(FieldType {
        element_type: StorageType::Val(reference_to(id)),
        mutable: false,
    })?;
    let mut members = Vec::new(alloc);
    members.push(NewType {
        is_final: true,
        supertype: None,
        comp: CompositeType::Struct(StructType { fields }),
    })?;
    members.push(NewType {
        is_final: false,
        supertype: None,
        comp: CompositeType::Array(ArrayType {
            field: FieldType {
                element_type: StorageType::I8,
                mutable: true,
            },
        }),
    })?;
    Ok(members)
}

// Whether the struct names the array alone.
fn names_it(alloc: Global, types: &ModuleTypes, first: TypeId, second: TypeId) -> bool {
    let mut names = Vec::new(alloc);
    types.contains(first)
        && push_names(&mut names, types.get(first)).is_ok()
        && names.as_slice() == [second].as_slice()
}

// Whether both types are of one group, of which the second is no final type.
fn are_of_one_group(types: &ModuleTypes, first: TypeId, second: TypeId) -> bool {
    if !types.contains(second) {
        return false;
    }
    let mut group = types.group(second);
    group.next() == Some(first)
        && group.next() == Some(second)
        && group.next().is_none()
        && !types.get(second).is_final()
        && types.len() == 2
}

fn add_group(alloc: Global, types: &mut ModuleTypes) -> Result<(), Fail> {
    let ids = types.next_ids(alloc, 2)?;
    let [first, second] = ids.as_slice() else {
        return demand(false, "two ids");
    };
    types.add_group(members(alloc, *second)?)?;
    demand(names_it(alloc, types, *first, *second), "what is named")?;
    demand(are_of_one_group(types, *first, *second), "one group")
}

#[test]
fn a_group_is_added(rt: HostRuntime) -> Result<(), Fail> {
    let mut types = ModuleTypes::new(rt.alloc());
    add_group(rt.alloc(), &mut types)
}

fn has_its_parts(types: &ModuleTypes, id: TypeId) -> bool {
    if !types.contains(id) {
        return false;
    }
    match types.get(id).as_function() {
        Some(function) => {
            function.params() == [ValType::I32].as_slice()
                && function.results() == [ValType::F64, ValType::V128].as_slice()
        }
        None => false,
    }
}

// Fails where it isn't one type, added twice.
fn add_twice(types: &mut ModuleTypes) -> Result<(), Fail> {
    let id = types.add(&[ValType::I32], &[ValType::F64, ValType::V128])?;
    let again = types.add(&[ValType::I32], &[ValType::F64, ValType::V128])?;
    demand(again == id, "the same id")?;
    demand(has_its_parts(types, id), "its parts")?;
    demand(types.len() == 1, "one type")
}

#[test]
fn function_types_are_added(rt: HostRuntime) -> Result<(), Fail> {
    let mut types = ModuleTypes::new(rt.alloc());
    add_twice(&mut types)
}

// The next type, alone in its group, with such parts as `has_its_parts` tells.
fn add_alone(alloc: Global, types: &mut ModuleTypes) -> Result<TypeId, AllocError> {
    let function = FunctionType::new(alloc, &[ValType::I32], &[ValType::F64, ValType::V128])?;
    types.add_alone(NewType {
        is_final: false,
        supertype: None,
        comp: CompositeType::Function(function),
    })
}

fn is_alone(types: &ModuleTypes, id: TypeId) -> bool {
    if !types.contains(id) {
        return false;
    }
    let mut group = types.group(id);
    group.next() == Some(id) && group.next().is_none()
}

// Fails where it isn't added twice, each time alone in its group.
fn add_each_alone(alloc: Global, types: &mut ModuleTypes) -> Result<(), Fail> {
    let next = types.next_id();
    let first = add_alone(alloc, types)?;
    let second = add_alone(alloc, types)?;
    demand(first == next && second != first, "their ids")?;
    demand(has_its_parts(types, second), "its parts")?;
    demand(is_alone(types, first), "the first alone")?;
    demand(is_alone(types, second), "the second alone")
}

#[test]
fn types_are_added_alone(rt: HostRuntime) -> Result<(), Fail> {
    let mut types = ModuleTypes::new(rt.alloc());
    add_each_alone(rt.alloc(), &mut types)
}

// The type of a function that takes the first so many of two values, and gives back the others.
fn taking_the_first(alloc: Global, count: usize) -> Result<FunctionType, AllocError> {
    let mut values = Vec::new(alloc);
    values.push(ValType::I32)?;
    values.push(ValType::F64)?;
    Ok(FunctionType::of(values, count))
}

#[test]
fn function_types_are_parted(rt: HostRuntime) -> Result<(), Fail> {
    let function = taking_the_first(rt.alloc(), 1)?;
    demand(function.params() == [ValType::I32].as_slice(), "the first")?;
    demand(function.results() == [ValType::F64].as_slice(), "the other")?;
    let taking_all = taking_the_first(rt.alloc(), 3)?;
    demand(taking_all.params().len() == 2, "both")?;
    demand(taking_all.results().is_empty(), "no other")
}

// A group of one type of functions, which take such a value.
fn taking_one(
    alloc: Global,
    is_final: bool,
    supertype: Option<TypeId>,
    param: ValType,
) -> Result<Vec<NewType>, AllocError> {
    let function = FunctionType::new(alloc, &[param], &[])?;
    let mut members = Vec::new(alloc);
    members.push(NewType {
        is_final,
        supertype,
        comp: CompositeType::Function(function),
    })?;
    Ok(members)
}

// A type that names itself, alone in its group. Returns its id.
fn add_naming_itself(alloc: Global, types: &mut ModuleTypes) -> Option<TypeId> {
    let ids = types.next_ids(alloc, 1).ok()?;
    let [id] = ids.as_slice() else {
        return None;
    };
    let members = taking_one(alloc, true, None, reference_to(*id)).ok()?;
    types.add_group(members).ok()?.next()
}

// Fails where a type that names it from outside isn't another, which is found from then on.
fn name_from_outside(alloc: Global, types: &mut ModuleTypes) -> Result<(), Fail> {
    let Some(own) = add_naming_itself(alloc, types) else {
        return demand(false, "a type that names itself");
    };
    let other = types.add(&[reference_to(own)], &[])?;
    let again = types.add(&[reference_to(own)], &[])?;
    demand(own.index() == 0, "the first place")?;
    demand(other.index() == 1, "the second place")?;
    demand(types.len() == 2, "two types")?;
    demand(again == other, "the second type again")
}

#[test]
fn a_type_that_names_itself_is_not_found(rt: HostRuntime) -> Result<(), Fail> {
    let mut types = ModuleTypes::new(rt.alloc());
    name_from_outside(rt.alloc(), &mut types)
}

fn function_is_cloned(alloc: Global) -> bool {
    let Ok(function) = FunctionType::new(alloc, &[ValType::F32], &[ValType::I64]) else {
        return false;
    };
    matches!(function.try_clone(alloc), Ok(copy) if copy == function)
}

fn expression_is_cloned(alloc: Global) -> bool {
    let mut operators = Vec::new(alloc);
    if operators.push(ConstOp::RefNull(ANY)).is_err() {
        return false;
    }
    let expression = ConstExpr::Extended(operators);
    matches!(expression.try_clone(alloc), Ok(copy) if copy == expression)
}

#[test]
fn clones_are_equal(rt: HostRuntime) -> Result<(), Fail> {
    demand(function_is_cloned(rt.alloc()), "a function type")?;
    demand(expression_is_cloned(rt.alloc()), "an expression")
}

fn is_held(locals: &ModuleLocals, id: LocalId, ty: ValType) -> bool {
    locals.contains(id) && locals.get(id).ty() == ty
}

fn has_a_local(locals: &mut ModuleLocals, name: String) -> bool {
    match locals.add(ValType::I64) {
        Ok(id) => {
            locals.get_mut(id).name = Some(name);
            is_held(locals, id, ValType::I64) && locals.len() == 1
        }
        Err(_) => false,
    }
}

#[test]
fn locals_are_added(rt: HostRuntime) -> Result<(), Fail> {
    let mut locals = ModuleLocals::new(rt.alloc());
    let name = String::from_str(rt.alloc(), "x")?;
    demand(locals.reserve(1).is_ok(), "memory")?;
    demand(has_a_local(&mut locals, name), "the local")
}

// A type of functions that isn't final, alone in its group.
fn add_open(alloc: Global, types: &mut ModuleTypes, supertype: Option<TypeId>) -> Option<TypeId> {
    let members = taking_one(alloc, false, supertype, ValType::I64).ok()?;
    types.add_group(members).ok()?.next()
}

fn takes_one_number(ty: &Type) -> bool {
    ty.is_function() && ty.params() == [ValType::I64].as_slice() && ty.results().is_empty()
}

fn is_subtype(types: &ModuleTypes, id: TypeId, supertype: TypeId) -> bool {
    if !types.contains(id) {
        return false;
    }
    let ty = types.get(id);
    ty.id() == id
        && ty.supertype() == Some(supertype)
        && matches!(ty.comp(), CompositeType::Function(_))
        && takes_one_number(ty)
}

fn are_ids<K>(ids: Result<Vec<Id<K>>, AllocError>, wanted: &[Id<K>]) -> bool {
    match ids {
        Ok(ids) => ids.as_slice() == wanted,
        Err(_) => false,
    }
}

fn has_a_subtype(alloc: Global, types: &mut ModuleTypes) -> bool {
    let Some(first) = add_open(alloc, types, None) else {
        return false;
    };
    match add_open(alloc, types, Some(first)) {
        Some(second) => {
            is_subtype(types, second, first)
                && types.iter().take(3).count() == 2
                && are_ids(types.ids(alloc), &[first, second])
        }
        None => false,
    }
}

#[test]
fn a_subtype_has_its_parts(rt: HostRuntime) -> Result<(), Fail> {
    let mut types = ModuleTypes::new(rt.alloc());
    demand(types.is_empty(), "no type")?;
    demand(
        has_a_subtype(rt.alloc(), &mut types),
        "a type of functions and its subtype",
    )
}

fn is_named(types: &mut ModuleTypes, id: TypeId, name: String) -> bool {
    if !types.contains(id) {
        return false;
    }
    types.set_name(id, Some(name));
    is_name(&types.get(id).name, "t")
}

fn is_deleted(types: &mut ModuleTypes, id: TypeId) -> bool {
    if !types.contains(id) {
        return false;
    }
    types.delete(id);
    !types.contains(id) && types.is_empty()
}

// Fails where it isn't found once it is added, gets no name, or doesn't go.
fn come_and_go(types: &mut ModuleTypes, function: &FunctionType, name: String) -> Result<(), Fail> {
    demand(types.find(function).is_none(), "no type")?;
    let id = types.add(function.params(), function.results())?;
    demand(types.find(function) == Some(id), "the type")?;
    demand(is_named(types, id, name), "its name")?;
    demand(is_deleted(types, id), "no type behind it")
}

#[test]
fn a_type_comes_and_goes(rt: HostRuntime) -> Result<(), Fail> {
    let mut types = ModuleTypes::new(rt.alloc());
    let function = FunctionType::new(rt.alloc(), &[], &[])?;
    let name = String::from_str(rt.alloc(), "t")?;
    come_and_go(&mut types, &function, name)
}

fn is_local(locals: &ModuleLocals, id: LocalId) -> bool {
    locals.contains(id) && locals.get(id).id() == id
}

fn are_listed(alloc: Global, locals: &mut ModuleLocals) -> bool {
    let (Ok(first), Ok(second)) = (locals.add(ValType::I32), locals.add(ValType::F32)) else {
        return false;
    };
    is_local(locals, first)
        && is_local(locals, second)
        && locals.iter().take(3).count() == 2
        && are_ids(locals.ids(alloc), &[first, second])
}

#[test]
fn locals_are_listed(rt: HostRuntime) -> Result<(), Fail> {
    let mut locals = ModuleLocals::new(rt.alloc());
    demand(locals.is_empty(), "no local")?;
    demand(are_listed(rt.alloc(), &mut locals), "two locals")?;
    demand(!locals.is_empty(), "not empty behind them")
}

fn is_called(locals: &ModuleLocals, id: LocalId, name: &str) -> bool {
    locals.contains(id) && is_name(&locals.get(id).name, name)
}

// Whether the name that the second of two locals gets is there, and no other.
fn is_named_alone(locals: &mut ModuleLocals, name: String) -> bool {
    let (Ok(first), Ok(second)) = (locals.add(ValType::I32), locals.add(ValType::F32)) else {
        return false;
    };
    let were_unnamed = locals.are_unnamed();
    if !locals.contains(second) {
        return false;
    }
    locals.get_mut(second).name = Some(name);
    were_unnamed
        && !locals.are_unnamed()
        && is_called(locals, second, "x")
        && !is_called(locals, first, "x")
}

#[test]
fn a_local_gets_a_name(rt: HostRuntime) -> Result<(), Fail> {
    let mut locals = ModuleLocals::new(rt.alloc());
    let name = String::from_str(rt.alloc(), "x")?;
    demand(is_named_alone(&mut locals, name), "the name")?;
    demand(locals.len() == 2, "two locals")
}
