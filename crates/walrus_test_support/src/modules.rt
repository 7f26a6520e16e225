//! Adding to a module, and failing where emission answered otherwise.

use std::alloc::Global;
use std::test::Fail;
use test_support::demand_bytes;
use walrus::{
    AbstractHeapType, ElementItems, Error, FunctionBuilder, FunctionId, HeapType, Module, RefType,
};

/// Adds a function that takes and gives nothing and does nothing.
pub fn add_function(alloc: Global, module: &mut Module) -> Result<FunctionId, Error> {
    let builder = FunctionBuilder::new(alloc, &mut module.types, &[], &[])?;
    let local = builder.local_func(Vec::new(alloc))?;
    module.funcs.add_local(local)
}

/// A nullable reference of this heap type.
pub fn reference(heap: AbstractHeapType) -> RefType {
    RefType {
        nullable: true,
        heap_type: HeapType::Abstract(heap),
    }
}

/// The items of an element segment that lists this function alone.
pub fn listed(alloc: Global, function: FunctionId) -> Result<ElementItems, Error> {
    let mut functions = Vec::new(alloc);
    functions.push(function)?;
    Ok(ElementItems::Functions(functions))
}

/// Fails a test where emission refused, or answered with other bytes than these, and tells the first that differs.
pub fn demand_output(
    alloc: Global,
    emitted: Result<Vec<u8>, Error>,
    expected: &str,
) -> Result<(), Fail> {
    demand_bytes(alloc, &emitted?, expected, expected)
}
