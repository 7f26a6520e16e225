//! What stands below a module, for programs that make or read parts of one: types, constant expressions, operators and bodies. Who reads a
//! body alone hands `read_body` `&None` for `texts` and 0 for `number`: it becomes a list of operators. Tools find here what a module's items
//! name, and what is wrong with bytes.

pub use walrus_base::push_names as push_type_names;
pub use walrus_code::{push_locals, push_names as push_operator_names};
pub use walrus_contents::{Parts, is_live, push_item_names};
pub use walrus_ir::{
    AbstractHeapType, Arg, Args, ArrayType, BlockType, CompositeType, ConstExpr, ConstOp,
    EmittedBody, Features, FieldType, FunctionBuilder, FunctionType, GroupIds, HeapType,
    IdsToIndices, IndicesToIds, InstrLocId, InstrSeqBuilder, IrError, ItemId, Local, LocalFunction,
    LocalIter, LocalNumbers, ModuleLocals, ModuleTypes, NewType, Operator, Operators, RefType,
    StorageType, StructType, TombstoneArena, Type, TypeIter, ValType, Value, emit_body, read_body,
};
pub use walrus_items::{Item, Items};
pub use walrus_module::{Fault, first_fault};
