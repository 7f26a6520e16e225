//! What the items of a module are kept in: ids, arenas, sets of ids and marks.
//! And its types (Structure > Types): value types, types in their groups, constant expressions and locals.
//!
//! Read first: `src/arena.rt` (items by their ids) and `specs/Arena.antt` (an arena as a list of slots).
//! Main clause: `alloc` of `src/arena.rt` promises `slots`: the item comes behind all slots, and its id is that place. Refused, the slots stay.
#![tactic(auto)]

mod arena;
mod composite;
mod const_expr;
mod group;
mod held_type;
mod id;
mod index;
mod keys;
mod law;
mod locals;
mod marks;
mod module_types;
mod names;
mod set;
mod slots;
mod type_iter;
mod types;
mod value;

pub use arena::{ArenaIter, TombstoneArena, keep_marked, live_ids};
pub use composite::{
    ArrayType, CompositeType, FieldType, FunctionType, NewType, StorageType, StructType,
};
pub use const_expr::{ConstExpr, ConstOp, Value};
pub use group::GroupIds;
pub use id::Id;
pub use keys::{
    CustomSectionKey, DataId, DataKey, ElementId, ElementKey, ExportId, ExportKey, FunctionId,
    FunctionKey, GlobalId, GlobalKey, ImportId, ImportKey, LocalId, LocalKey, MemoryId, MemoryKey,
    TableId, TableKey, TagId, TagKey, TypeId, TypeKey, UntypedCustomSectionId,
};
pub use law::{adding_keeps_shapes, groups_have_their_shapes, shapes_end};
pub use locals::{Local, LocalIter, ModuleLocals};
pub use marks::{Marks, MarksIter};
pub use module_types::ModuleTypes;
pub use names::push_names;
pub use set::{IdHashSet, IdHashSetIter};
pub use type_iter::TypeIter;
pub use types::Type;
pub use value::{AbstractHeapType, HeapType, RefType, ValType};
