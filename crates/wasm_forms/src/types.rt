//! Value, reference and heap types (Binary Format > Types): their records, read and written.

ghost use Rattle.std.specs.Prelude.{◌≡◌};
ghost use Rattle.wasm_forms.specs.declared.types.RawVal.{RawVal};
ghost use Rattle.wasm_forms.specs.Reading.{Gives};
ghost use Rattle.wasm_forms.specs.Grammar.{at};
ghost use Rattle.wasm_forms.specs.Writing.{Adds, Keeps, TakesRoom};
ghost use Rattle.wasm_forms.specs.Types.{is_abstract, heap_from, heap_type, reference_from, reference_type, value_from, value_type, heap_bytes, reference_bytes, value_bytes};

use crate::byte::read_byte;
use crate::error::WireError;
use crate::number::read_index_from;
use crate::vector::Element;
use crate::write::{Written, write_index};
use std::alloc::Global;
use wasm_opcodes::types::{
    F32_TYPE, F64_TYPE, HEAP_EXN, HEAP_NO_EXN, I32_TYPE, I64_TYPE, REF_NULL_TYPE, REF_TYPE,
    V128_TYPE,
};

/// A heap type (Binary Format > Types > Heap Types): the byte of an abstract one, from 0x69 to 0x74, or the index of a type.
#[derive(Clone, Copy, Debug, PartialEq, Eq)]
pub enum RawHeap {
    Abstract(u8),
    Index(u32),
}

/// A reference type (Binary Format > Types > Reference Types).
#[derive(Clone, Copy, Debug, PartialEq, Eq)]
pub struct RawRef {
    pub nullable: bool,
    pub heap: RawHeap,
}

/// A value type (Binary Format > Types > Value Types).
#[derive(Clone, Copy, Debug, PartialEq, Eq)]
pub enum RawVal {
    I32,
    I64,
    F32,
    F64,
    V128,
    Ref(RawRef),
}

/// Whether the byte is an abstract heap type.
#[inline]
fn names_abstract(byte: u8) -> bool
    ensures { result ≡ is_abstract byte }
{
    HEAP_EXN <= byte && byte <= HEAP_NO_EXN
}

/// The heap type that begins with the byte `first`.
#[tactic(auto, unfolding(crate::specs::Types::heap_from))]
fn read_heap_from(first: u8, bytes: &[u8]) -> Result<(RawHeap, &[u8]), WireError>
    ensures { Gives (λ r. (r.0, r.1.now)) result (at (heap_from first) bytes.now) }
{
    if names_abstract(first) {
        return Ok((RawHeap::Abstract(first), bytes));
    }
    let (index, rest) = read_index_from(first, bytes)?;
    Ok((RawHeap::Index(index), rest))
}

/// Reads a heap type (Binary Format > Types > Heap Types), and gives it with the bytes after it.
///
/// Refused as [`WireError::Malformed`] where none stands in front.
#[tactic(auto, unfolding(crate::specs::Types::heap_type))]
pub fn read_heap_type(bytes: &[u8]) -> Result<(RawHeap, &[u8]), WireError>
    ensures { Gives (λ r. (r.0, r.1.now)) result (at heap_type bytes.now) }
{
    let (first, rest) = read_byte(bytes)?;
    read_heap_from(first, rest)
}

/// Reads what stands behind the byte `first` of a reference type (Binary Format > Types > Reference Types), and gives the type with the
/// bytes after it.
///
/// Refused as [`WireError::Malformed`] where `first` and the bytes in front are no reference type.
#[tactic(auto, unfolding(crate::specs::Types::reference_from))]
pub fn read_reference_from(first: u8, bytes: &[u8]) -> Result<(RawRef, &[u8]), WireError>
    ensures { Gives (λ r. (r.0, r.1.now)) result (at (reference_from first) bytes.now) }
{
    if first == REF_NULL_TYPE {
        let (heap, rest) = read_heap_type(bytes)?;
        return Ok((
            RawRef {
                nullable: true,
                heap,
            },
            rest,
        ));
    }
    if first == REF_TYPE {
        let (heap, rest) = read_heap_type(bytes)?;
        return Ok((
            RawRef {
                nullable: false,
                heap,
            },
            rest,
        ));
    }
    if names_abstract(first) {
        let heap = RawHeap::Abstract(first);
        return Ok((
            RawRef {
                nullable: true,
                heap,
            },
            bytes,
        ));
    }
    Err(WireError::Malformed)
}

/// Reads a reference type (Binary Format > Types > Reference Types), and gives it with the bytes after it.
///
/// Refused as [`WireError::Malformed`] where none stands in front.
#[tactic(auto, unfolding(crate::specs::Types::reference_type))]
pub fn read_reference_type(bytes: &[u8]) -> Result<(RawRef, &[u8]), WireError>
    ensures { Gives (λ r. (r.0, r.1.now)) result (at reference_type bytes.now) }
{
    let (first, rest) = read_byte(bytes)?;
    read_reference_from(first, rest)
}

/// Reads what stands behind the byte `first` of a value type (Binary Format > Types > Value Types), and gives the type with the bytes
/// after it.
///
/// Refused as [`WireError::Malformed`] where `first` and the bytes in front are no value type.
#[tactic(auto, unfolding(crate::specs::Types::value_from))]
pub fn read_value_from(first: u8, bytes: &[u8]) -> Result<(RawVal, &[u8]), WireError>
    ensures { Gives (λ r. (r.0, r.1.now)) result (at (value_from first) bytes.now) }
{
    match first {
        I32_TYPE => Ok((RawVal::I32, bytes)),
        I64_TYPE => Ok((RawVal::I64, bytes)),
        F32_TYPE => Ok((RawVal::F32, bytes)),
        F64_TYPE => Ok((RawVal::F64, bytes)),
        V128_TYPE => Ok((RawVal::V128, bytes)),
        _ => {
            let (reference, rest) = read_reference_from(first, bytes)?;
            Ok((RawVal::Ref(reference), rest))
        }
    }
}

/// Reads a value type (Binary Format > Types > Value Types), and gives it with the bytes after it.
///
/// Refused as [`WireError::Malformed`] where none stands in front.
#[tactic(auto, unfolding(crate::specs::Types::value_type))]
pub fn read_value_type(bytes: &[u8]) -> Result<(RawVal, &[u8]), WireError>
    ensures { Gives (λ r. (r.0, r.1.now)) result (at value_type bytes.now) }
{
    let (first, rest) = read_byte(bytes)?;
    read_value_from(first, rest)
}

impl<'a> Element<'a> for RawVal {
    ghost Seen = { RawVal };

    ghost view = { λ v. v };

    ghost form = { value_type };

    fn read(_alloc: Global, bytes: &'a [u8]) -> Result<(RawVal, &'a [u8]), WireError> {
        read_value_type(bytes)
    }
}

/// Writes a heap type (Binary Format > Types > Heap Types) behind the bytes of `to`. Refused, the bytes written before stay, and what
/// was appended behind them means nothing.
pub fn write_heap_type(to: &mut Vec<u8>, heap: &RawHeap) -> Result<(), WireError>
    ensures adds { Adds result to.old.items to.new.items (heap_bytes heap.now) (Unit {0}) }
    ensures room { TakesRoom result to.old to.new (heap_bytes heap.now) }
    ensures keeps { Keeps to.old.items to.new.items }
{
    match heap {
        RawHeap::Abstract(byte) => to.push(*byte)?,
        RawHeap::Index(index) => write_index(to, *index)?,
    }
    Ok(())
}

/// Writes a reference type (Binary Format > Types > Reference Types) behind the bytes of `to`, one that is nullable and abstract as one
/// byte. Refused, the bytes written before stay, and what was appended behind them means nothing.
pub fn write_reference_type(to: &mut Vec<u8>, reference: &RawRef) -> Result<(), WireError>
    ensures adds { Adds result to.old.items to.new.items (reference_bytes reference.now) (Unit {0}) }
    ensures room { TakesRoom result to.old to.new (reference_bytes reference.now) }
    ensures keeps { Keeps to.old.items to.new.items }
{
    if !reference.nullable {
        to.push(REF_TYPE)?;
        return write_heap_type(to, &reference.heap);
    }
    match reference.heap {
        RawHeap::Abstract(byte) => to.push(byte)?,
        RawHeap::Index(index) => {
            to.push(REF_NULL_TYPE)?;
            write_index(to, index)?;
        }
    }
    Ok(())
}

impl Written for RawVal {
    ghost spelled = { value_bytes };

    ghost Fits = { λ _. Unit {0} };

    fn write(&self, to: &mut Vec<u8>) -> Result<(), WireError> {
        match self {
            RawVal::I32 => to.push(I32_TYPE)?,
            RawVal::I64 => to.push(I64_TYPE)?,
            RawVal::F32 => to.push(F32_TYPE)?,
            RawVal::F64 => to.push(F64_TYPE)?,
            RawVal::V128 => to.push(V128_TYPE)?,
            RawVal::Ref(reference) => write_reference_type(to, reference)?,
        }
        Ok(())
    }
}
