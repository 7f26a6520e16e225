//! Building functions, operator by operator ("Structure > Modules > Functions").
//! It also gives one name to types, constant expressions, operators and bodies over ids, of which a module's items are made.
//!
//! Read first: `src/function.rt` (`FunctionBuilder`) and `specs/Sequence.antt` (what a contract sees of a sequence that is being built).
//! Main clause: `local_func` of `src/function.rt` promises `built`: the function's body is the operators that were built, in order, and the last end.
#![tactic(auto)]

mod function;
mod sequence;

pub use function::FunctionBuilder;
pub use sequence::InstrSeqBuilder;
pub use walrus_base::{
    AbstractHeapType, ArenaIter, ArrayType, CompositeType, ConstExpr, ConstOp, CustomSectionKey,
    DataId, DataKey, ElementId, ElementKey, ExportId, ExportKey, FieldType, FunctionId,
    FunctionKey, FunctionType, GlobalId, GlobalKey, GroupIds, HeapType, Id, IdHashSet,
    IdHashSetIter, ImportId, ImportKey, Local, LocalId, LocalIter, LocalKey, Marks, MarksIter,
    MemoryId, MemoryKey, ModuleLocals, ModuleTypes, NewType, RefType, StorageType, StructType,
    TableId, TableKey, TagId, TagKey, TombstoneArena, Type, TypeId, TypeIter, TypeKey,
    UntypedCustomSectionId, ValType, Value,
};
pub use walrus_bodies::{Features, LocalFunction, Operators, PlainCode, ScanRoom, limits_of};
pub use walrus_code::{
    Arg, Args, BlockType, IdsToIndices, IndexSpace, IndicesToIds, InstrLocId, IrError, ItemId,
    LocalNumbers, Numbering, Operator,
};
pub use walrus_functions::{EmittedBody, add_locals, emit_body, read_body, scan_body};
