//! The laws of forms, as contracts.

ghost use Rattle.wasm_forms.specs.Grammar.{Form, Is, U32, S32, U64, S64, Index, F32, F64, Block, name, IsExact, HasOneReading, at};
ghost use Rattle.wasm_forms.specs.Spelling.{number_bytes, integer_bytes, index_bytes, f32_bytes, f64_bytes, block_bytes, name_bytes};
ghost use Rattle.wasm_forms.specs.Writing.{FitsLength};
ghost use Rattle.wasm_forms.specs.Types.{heap_type, reference_type, value_type, heap_bytes, reference_bytes, value_bytes, HeapStands, ValueStands};

use crate::types::{RawHeap, RawRef, RawVal};

/// A form, named by a type, so that the laws of forms can be stated of every form. It has no method.
pub trait Formed {
    ghost Seen: { Type 0 };

    ghost form: { Form Seen };
}

/// What is read of a form is what the form spells, and each such text is read, whatever stands behind it.
pub fn form_is_exact<F: Formed>()
    ensures { IsExact (Is F.form) (at F.form) }
{}

/// Bytes begin with at most one value of a form, and one rest.
pub fn form_has_one_reading<F: Formed>()
    ensures { HasOneReading (Is F.form) }
{}

/// What is written for a u32 is a text of the grammar with that value.
pub fn u32_spelling_stands(value: u32)
    ensures { Is U32 (number_bytes value) value }
{}

/// What is written for an s32 is a text of the grammar with that value.
pub fn s32_spelling_stands(value: i32)
    ensures { Is S32 (integer_bytes value) value }
{}

/// What is written for a u64 is a text of the grammar with that value.
pub fn u64_spelling_stands(value: u64)
    ensures { Is U64 (number_bytes value) value }
{}

/// What is written for an s64 is a text of the grammar with that value.
pub fn s64_spelling_stands(value: i64)
    ensures { Is S64 (integer_bytes value) value }
{}

/// What is written for an index is a text of the grammar with that value: a byte, and what stands behind it.
pub fn index_spelling_stands(index: u32)
    ensures { Is Index (index_bytes index) index }
{}

/// What is written for the bits of an f32 is a text of the grammar with these bits.
pub fn f32_spelling_stands(bits: u32)
    ensures { Is F32 (f32_bytes bits) bits }
{}

/// What is written for the bits of an f64 is a text of the grammar with these bits.
pub fn f64_spelling_stands(bits: u64)
    ensures { Is F64 (f64_bytes bits) bits }
{}

/// What is written for a block is a text of the grammar with that value.
pub fn block_spelling_stands(block: &[u8])
    ensures { FitsLength block.now → Is Block (block_bytes block.now) block.now }
{}

/// What is written for a name is a text of the grammar with that value.
pub fn name_spelling_stands(text: &str)
    ensures { FitsLength text.now → Is name (name_bytes text.now) text.now }
{}

/// What is written for a heap type is a text of the grammar with that value, where its byte is that of an abstract one.
pub fn heap_spelling_stands(heap: RawHeap)
    ensures { HeapStands heap → Is heap_type (heap_bytes heap) heap }
{}

/// What is written for a reference type is a text of the grammar with that value, where its heap type's is.
pub fn reference_spelling_stands(reference: RawRef)
    ensures { HeapStands reference.heap → Is reference_type (reference_bytes reference) reference }
{}

/// What is written for a value type is a text of the grammar with that value, where its heap type's is.
pub fn value_spelling_stands(value: RawVal)
    ensures { ValueStands value → Is value_type (value_bytes value) value }
{}
