//! Marks: where an argument stands that isn't copied as it is. A mark is sixteen times the offset of the argument among the bytes of
//! its operators, and its kind.

/// The index of a local.
pub const MARK_LOCAL: u32 = 0;
/// The index of a function.
pub const MARK_FUNCTION: u32 = 1;
/// The index of a global.
pub const MARK_GLOBAL: u32 = 2;
/// The index of a type.
pub const MARK_TYPE: u32 = 3;
/// The index of a table.
pub const MARK_TABLE: u32 = 4;
/// The index of a memory.
pub const MARK_MEMORY: u32 = 5;
/// An access to memory.
pub const MARK_ACCESS: u32 = 6;
/// A label or a count.
pub const MARK_NUMBER: u32 = 7;
/// The constant of `i32.const`.
pub const MARK_S32: u32 = 8;
/// The constant of `i64.const`.
pub const MARK_S64: u32 = 9;
/// The type of a block.
pub const MARK_BLOCK: u32 = 10;
