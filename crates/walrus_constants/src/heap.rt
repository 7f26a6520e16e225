//! Heap types over indices and over ids (Structure > Types > Heap Types): each is that of a reference to it.
ghost use Rattle.std.specs.Prelude.{◌≡◌, option_map, IfOk};
ghost use Rattle.wasm_forms.specs.Types.{HeapStands};
ghost use Rattle.walrus_base.specs.Value.{heap_type};
ghost use Rattle.walrus_code.specs.FromRaw.{heap_of};
ghost use Rattle.walrus_code.specs.Indices.{ids_at, index_of};
ghost use Rattle.walrus_code.specs.Names.{named_heap};
ghost use Rattle.walrus_code.specs.Results.{heap_is_exact, IndexesIn, NeedsNoMemory};

use walrus_base::{HeapType, RefType, ValType};
use walrus_code::{IdsToIndices, IndicesToIds, IrError, index_value, name_value};
use wasm_forms::{RawHeap, RawRef, RawVal};

// The heap type with the id for the index of a type in it; none where that index isn't declared.
pub(crate) fn read_heap(heap: RawHeap, indices: &IndicesToIds) -> Option<HeapType>
    ensures { option_map heap_type result ≡ named_heap (ids_at indices.now) (heap_of heap) }
{
    let reference = RawVal::Ref(RawRef {
        nullable: true,
        heap,
    });
    match name_value(reference, indices)? {
        ValType::Ref(found) => Some(found.heap_type),
        _ => unreachable!(),
    }
}

// The heap type with the index for the id of a type in it. Refused as `NoIndex` where that type has no index, as
// `NotWritable` where it is exact.
pub(crate) fn raw_heap(heap: HeapType, indices: &IdsToIndices) -> Result<RawHeap, IrError>
    ensures indexed { IndexesIn heap_of result (heap_is_exact (heap_type heap))
        (named_heap (index_of indices.now) (heap_type heap)) }
    ensures spelled { IfOk result HeapStands }
    ensures memory { NeedsNoMemory result }
{
    let reference = ValType::Ref(RefType {
        nullable: true,
        heap_type: heap,
    });
    match index_value(reference, indices)? {
        RawVal::Ref(found) => Ok(found.heap),
        _ => unreachable!(),
    }
}
