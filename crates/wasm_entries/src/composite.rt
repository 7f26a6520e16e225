//! Storage, field, function and composite types (Binary Format > Types > Function Types, Composite Types), read and written.

ghost use Rattle.wasm_forms.specs.Reading.{Gives};
ghost use Rattle.wasm_forms.specs.Grammar.{at};
ghost use Rattle.wasm_forms.specs.Writing.{Adds, Keeps, TakesRoom};
ghost use Rattle.wasm_entries.specs.declared.record.RawFieldType.{RawFieldType};
ghost use Rattle.wasm_entries.specs.Record.{func_type, comp};
ghost use Rattle.wasm_entries.specs.TypeForms.{storage_from, storage_type, flag, field_type, signature, comp_from, composite_type};
ghost use Rattle.wasm_entries.specs.TypeSpelling.{storage_bytes, field_bytes, func_type_bytes, comp_bytes, FuncTypeFits, CompFits};

use crate::record::{RawComp, RawFieldType, RawFuncType, RawStorage};
use std::alloc::Global;
use wasm_forms::{
    Element, RawVal, WireError, Written, read_byte, read_value_from, read_vector, write_vector,
};
use wasm_opcodes::types::{ARRAY_TYPE, FUNC_TYPE, I8_TYPE, I16_TYPE, STRUCT_TYPE};

/// What a field that begins with the byte `first` holds.
#[tactic(auto, unfolding(crate::specs::TypeForms::storage_from))]
fn read_storage_from(first: u8, bytes: &[u8]) -> Result<(RawStorage, &[u8]), WireError>
    ensures { Gives (λ r. (r.0, r.1.now)) result (at (storage_from first) bytes.now) }
{
    match first {
        I8_TYPE => Ok((RawStorage::I8, bytes)),
        I16_TYPE => Ok((RawStorage::I16, bytes)),
        _ => {
            let (value, rest) = read_value_from(first, bytes)?;
            Ok((RawStorage::Val(value), rest))
        }
    }
}

/// What a field holds.
#[tactic(auto, unfolding(crate::specs::TypeForms::storage_type))]
fn read_storage(bytes: &[u8]) -> Result<(RawStorage, &[u8]), WireError>
    ensures { Gives (λ r. (r.0, r.1.now)) result (at storage_type bytes.now) }
{
    let (first, rest) = read_byte(bytes)?;
    read_storage_from(first, rest)
}

/// A byte that is 00 or 01.
#[tactic(auto, unfolding(crate::specs::TypeForms::flag))]
fn read_flag(bytes: &[u8]) -> Result<(bool, &[u8]), WireError>
    ensures { Gives (λ r. (r.0, r.1.now)) result (at flag bytes.now) }
{
    let (byte, rest) = read_byte(bytes)?;
    match byte {
        0 => Ok((false, rest)),
        1 => Ok((true, rest)),
        _ => Err(WireError::Malformed),
    }
}

/// A field, or what an array holds.
#[tactic(auto, unfolding(crate::specs::TypeForms::field_type))]
fn read_field(bytes: &[u8]) -> Result<(RawFieldType, &[u8]), WireError>
    ensures { Gives (λ r. (r.0, r.1.now)) result (at field_type bytes.now) }
{
    let (storage, after) = read_storage(bytes)?;
    let (mutable, rest) = read_flag(after)?;
    Ok((RawFieldType { storage, mutable }, rest))
}

impl<'a> Element<'a> for RawFieldType {
    ghost Seen = { RawFieldType };

    ghost view = { λ f. f };

    ghost form = { field_type };

    fn read(_alloc: Global, bytes: &'a [u8]) -> Result<(RawFieldType, &'a [u8]), WireError> {
        read_field(bytes)
    }
}

/// What a function takes and what it gives.
#[tactic(auto, unfolding(crate::specs::TypeForms::signature))]
fn read_signature(alloc: Global, bytes: &[u8]) -> Result<(RawFuncType, &[u8]), WireError>
    ensures { Gives (λ r. (func_type r.0, r.1.now)) result (at signature bytes.now) }
{
    let (params, after) = read_vector::<RawVal>(alloc, bytes)?;
    let (results, rest) = read_vector::<RawVal>(alloc, after)?;
    Ok((RawFuncType { params, results }, rest))
}

/// The composite type that begins with the byte `first`.
#[tactic(auto, unfolding(crate::specs::TypeForms::comp_from))]
pub(crate) fn read_composite_from(
    alloc: Global,
    first: u8,
    bytes: &[u8],
) -> Result<(RawComp, &[u8]), WireError>
    ensures { Gives (λ r. (comp r.0, r.1.now)) result (at (comp_from first) bytes.now) }
{
    match first {
        FUNC_TYPE => {
            let (func, rest) = read_signature(alloc, bytes)?;
            Ok((RawComp::Func(func), rest))
        }
        STRUCT_TYPE => {
            let (fields, rest) = read_vector::<RawFieldType>(alloc, bytes)?;
            Ok((RawComp::Struct(fields), rest))
        }
        ARRAY_TYPE => {
            let (field, rest) = read_field(bytes)?;
            Ok((RawComp::Array(field), rest))
        }
        _ => Err(WireError::Malformed),
    }
}

/// A composite type.
#[tactic(auto, unfolding(crate::specs::TypeForms::composite_type))]
pub(crate) fn read_composite(alloc: Global, bytes: &[u8]) -> Result<(RawComp, &[u8]), WireError>
    ensures { Gives (λ r. (comp r.0, r.1.now)) result (at composite_type bytes.now) }
{
    let (first, rest) = read_byte(bytes)?;
    read_composite_from(alloc, first, rest)
}

/// Writes what a field holds.
fn write_storage(to: &mut Vec<u8>, storage: &RawStorage) -> Result<(), WireError>
    ensures adds { Adds result to.old.items to.new.items (storage_bytes storage.now) (Unit {0}) }
    ensures room { TakesRoom result to.old to.new (storage_bytes storage.now) }
    ensures keeps { Keeps to.old.items to.new.items }
{
    match storage {
        RawStorage::Val(value) => value.write(to)?,
        RawStorage::I8 => to.push(I8_TYPE)?,
        RawStorage::I16 => to.push(I16_TYPE)?,
    }
    Ok(())
}

impl Written for RawFieldType {
    ghost spelled = { field_bytes };

    ghost Fits = { λ _. Unit {0} };

    fn write(&self, to: &mut Vec<u8>) -> Result<(), WireError> {
        write_storage(to, &self.storage)?;
        to.push(u8::from(self.mutable))?;
        Ok(())
    }
}

/// Writes what a function takes and what it gives.
fn write_signature(to: &mut Vec<u8>, func: &RawFuncType) -> Result<(), WireError>
    ensures adds { Adds result to.old.items to.new.items (func_type_bytes (func_type func.now))
        (FuncTypeFits (func_type func.now)) }
    ensures room { TakesRoom result to.old to.new (func_type_bytes (func_type func.now)) }
    ensures keeps { Keeps to.old.items to.new.items }
{
    write_vector(to, &func.params)?;
    write_vector(to, &func.results)
}

/// Writes a composite type.
pub(crate) fn write_composite(to: &mut Vec<u8>, composite: &RawComp) -> Result<(), WireError>
    ensures adds { Adds result to.old.items to.new.items (comp_bytes (comp composite.now))
        (CompFits (comp composite.now)) }
    ensures room { TakesRoom result to.old to.new (comp_bytes (comp composite.now)) }
    ensures keeps { Keeps to.old.items to.new.items }
{
    match composite {
        RawComp::Func(func) => {
            to.push(FUNC_TYPE)?;
            write_signature(to, func)
        }
        RawComp::Struct(fields) => {
            to.push(STRUCT_TYPE)?;
            write_vector(to, fields)
        }
        RawComp::Array(field) => {
            to.push(ARRAY_TYPE)?;
            field.write(to)
        }
    }
}
