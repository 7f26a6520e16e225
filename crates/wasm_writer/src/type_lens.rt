//! The lengths of value, reference and heap types (Binary Format > Types), in bytes.

ghost use Rattle.std.specs.Prelude.{◌≡◌, ◌≤◌, length};
ghost use Rattle.wasm_forms.specs.Types.{heap_bytes, reference_bytes, value_bytes};
ghost use Rattle.wasm_entries.specs.TypeSpelling.{storage_bytes, field_bytes};

use crate::number::index_len;
use crate::vector::Measured;
use wasm_entries::{RawFieldType, RawStorage};
use wasm_forms::{RawHeap, RawRef, RawVal, WireError};

/// How many bytes a heap type has (Binary Format > Types > Heap Types).
pub fn heap_len(heap: &RawHeap) -> u32
    ensures written { result ≡ length (heap_bytes heap.now) }
    ensures short { result ≤ 10 }
{
    match heap {
        RawHeap::Abstract(_) => 1,
        RawHeap::Index(index) => index_len(*index),
    }
}

/// How many bytes a reference type has (Binary Format > Types > Reference Types).
pub fn reference_len(reference: &RawRef) -> u32
    ensures written { result ≡ length (reference_bytes reference.now) }
    ensures short { result ≤ 11 }
{
    if !reference.nullable {
        return 1 + heap_len(&reference.heap);
    }
    match reference.heap {
        RawHeap::Abstract(_) => 1,
        RawHeap::Index(index) => 1 + index_len(index),
    }
}

/// How many bytes a value type has (Binary Format > Types > Value Types).
pub fn value_len(value: &RawVal) -> u32
    ensures written { result ≡ length (value_bytes value.now) }
    ensures short { result ≤ 11 }
{
    match value {
        RawVal::I32 | RawVal::I64 | RawVal::F32 | RawVal::F64 | RawVal::V128 => 1,
        RawVal::Ref(reference) => reference_len(reference),
    }
}

impl Measured for RawVal {
    fn measured(&self) -> Result<u32, WireError> {
        Ok(value_len(self))
    }
}

/// How many bytes has what a field holds (Binary Format > Types > Composite Types, storage types).
pub fn storage_len(storage: &RawStorage) -> u32
    ensures written { result ≡ length (storage_bytes storage.now) }
    ensures short { result ≤ 11 }
{
    match storage {
        RawStorage::Val(value) => value_len(value),
        RawStorage::I8 | RawStorage::I16 => 1,
    }
}

/// How many bytes a field has, or the element of an array (Binary Format > Types > Composite Types, field types).
pub fn field_len(field: &RawFieldType) -> u32
    ensures written { result ≡ length (field_bytes field.now) }
    ensures short { result ≤ 12 }
{
    storage_len(&field.storage) + 1
}

impl Measured for RawFieldType {
    fn measured(&self) -> Result<u32, WireError> {
        Ok(field_len(self))
    }
}
