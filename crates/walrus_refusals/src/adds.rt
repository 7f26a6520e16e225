//! What scenes add to a module beside imports and custom sections, one call a kind.

use crate::steps::Kind;
use std::alloc::Global;
use walrus::{
    AbstractHeapType, CompositeType, ConstExpr, DataKind, ElementKind, Error, ExportItem,
    FunctionBuilder, FunctionId, InstrSeqBuilder, LocalId, Module, ModuleData, ModuleElements,
    ModuleExports, ModuleFunctions, ModuleGlobals, ModuleLocals, ModuleMemories, ModuleProducers,
    ModuleTables, ModuleTags, ModuleTypes, NewType, Result, StructType, TypeId, ValType, Value,
};
use walrus_test_support::{listed, reference};

/// The first type.
pub fn first_type(types: &ModuleTypes) -> Option<TypeId> {
    let first = types.iter().next()?;
    Some(first.id())
}

/// The first function.
pub fn first_function(functions: &ModuleFunctions) -> Result<FunctionId> {
    match functions.iter().next() {
        Some(first) => Ok(first.id()),
        None => Err(Error::NotFound),
    }
}

// A type of functions that take a number of 32 bits.
fn add_type(types: &mut ModuleTypes) -> Result<()> {
    types.add(&[ValType::I32], &[])?;
    Ok(())
}

// A struct without fields.
fn empty_struct(alloc: Global) -> NewType {
    NewType {
        is_final: true,
        supertype: None,
        comp: CompositeType::Struct(StructType {
            fields: Vec::new(alloc),
        }),
    }
}

// A group of two such types.
fn add_group(alloc: Global, types: &mut ModuleTypes) -> Result<()> {
    let mut members = Vec::new(alloc);
    members.push(empty_struct(alloc))?;
    members.push(empty_struct(alloc))?;
    types.add_group(members)?;
    Ok(())
}

fn add_local(locals: &mut ModuleLocals) -> Result<()> {
    locals.add(ValType::I32)?;
    Ok(())
}

// A function of the type of `add_type` that drops its parameter, the last local. All that it takes of the types is there.
fn add_function(
    alloc: Global,
    types: &mut ModuleTypes,
    locals: &ModuleLocals,
    functions: &mut ModuleFunctions,
) -> Result<()> {
    let mut builder = FunctionBuilder::new(alloc, types, &[ValType::I32], &[])?;
    let mut parameters = Vec::new(alloc);
    if let Some(last) = locals.iter().last() {
        parameters.push(last.id())?;
        drop_local(builder.func_body(), last.id())?;
    }
    functions.add_local(builder.local_func(parameters)?)?;
    Ok(())
}

fn drop_local(body: &mut InstrSeqBuilder, local: LocalId) -> Result<()> {
    body.local_get(local)?;
    body.drop_()?;
    Ok(())
}

fn add_table(tables: &mut ModuleTables) -> Result<()> {
    tables.add_local(false, 1, None, reference(AbstractHeapType::Func))?;
    Ok(())
}

fn add_memory(memories: &mut ModuleMemories) -> Result<()> {
    memories.add_local(false, false, 1, None, None)?;
    Ok(())
}

fn add_global(globals: &mut ModuleGlobals) -> Result<()> {
    globals.add_local(ValType::I32, false, false, ConstExpr::Value(Value::I32(1)))?;
    Ok(())
}

fn add_tag(tags: &mut ModuleTags, types: &ModuleTypes) -> Result<()> {
    let Some(ty) = first_type(types) else {
        return Err(Error::NotFound);
    };
    tags.add(ty)?;
    Ok(())
}

fn add_element(
    alloc: Global,
    elements: &mut ModuleElements,
    functions: &ModuleFunctions,
) -> Result<()> {
    let items = listed(alloc, first_function(functions)?)?;
    elements.add(ElementKind::Passive, items)?;
    Ok(())
}

fn add_data(alloc: Global, segments: &mut ModuleData) -> Result<()> {
    let mut bytes = Vec::new(alloc);
    bytes.push(170)?;
    segments.add(DataKind::Passive, bytes)?;
    Ok(())
}

fn add_export(exports: &mut ModuleExports, functions: &ModuleFunctions) -> Result<()> {
    exports.add("x", ExportItem::Function(first_function(functions)?))?;
    Ok(())
}

fn add_value(producers: &mut ModuleProducers, kind: Kind) -> Result<()> {
    match kind {
        Kind::Language => producers.add_language("l", "1")?,
        Kind::Tool => producers.add_processed_by("t", "2")?,
        _ => producers.add_sdk("s", "3")?,
    }
    Ok(())
}

/// Adds what is of this kind.
pub fn add(alloc: Global, module: &mut Module, kind: Kind) -> Result<()> {
    match kind {
        Kind::Type => add_type(&mut module.types),
        Kind::Group => add_group(alloc, &mut module.types),
        Kind::Local => add_local(&mut module.locals),
        Kind::Function => add_function(alloc, &mut module.types, &module.locals, &mut module.funcs),
        Kind::Table => add_table(&mut module.tables),
        Kind::Memory => add_memory(&mut module.memories),
        Kind::Global => add_global(&mut module.globals),
        Kind::Tag => add_tag(&mut module.tags, &module.types),
        Kind::Element => add_element(alloc, &mut module.elements, &module.funcs),
        Kind::Data => add_data(alloc, &mut module.data_),
        Kind::Export => add_export(&mut module.exports, &module.funcs),
        Kind::Language | Kind::Tool | Kind::Sdk => add_value(&mut module.producers, kind),
    }
}
