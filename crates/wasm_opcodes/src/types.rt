//! The bytes that types begin with (Binary Format > Types), and those that stand for them.

// Number Types, Vector Types, and the storage types of Composite Types
pub const I32_TYPE: u8 = 0x7F;

pub const I64_TYPE: u8 = 0x7E;

pub const F32_TYPE: u8 = 0x7D;

pub const F64_TYPE: u8 = 0x7C;

pub const V128_TYPE: u8 = 0x7B;

pub const I8_TYPE: u8 = 0x78;

pub const I16_TYPE: u8 = 0x77;

// Heap Types, the abstract ones: all bytes from HEAP_EXN to HEAP_NO_EXN
pub const HEAP_EXN: u8 = 0x69;

pub const HEAP_ARRAY: u8 = 0x6A;

pub const HEAP_STRUCT: u8 = 0x6B;

pub const HEAP_I31: u8 = 0x6C;

pub const HEAP_EQ: u8 = 0x6D;

pub const HEAP_ANY: u8 = 0x6E;

pub const HEAP_EXTERN: u8 = 0x6F;

pub const HEAP_FUNC: u8 = 0x70;

pub const HEAP_NONE: u8 = 0x71;

pub const HEAP_NO_EXTERN: u8 = 0x72;

pub const HEAP_NO_FUNC: u8 = 0x73;

pub const HEAP_NO_EXN: u8 = 0x74;

// Reference Types: nullable, and not
pub const REF_NULL_TYPE: u8 = 0x63;

pub const REF_TYPE: u8 = 0x64;

// Composite Types and Recursive Types
pub const FUNC_TYPE: u8 = 0x60;

pub const STRUCT_TYPE: u8 = 0x5F;

pub const ARRAY_TYPE: u8 = 0x5E;

pub const SUB_TYPE: u8 = 0x50;

pub const SUB_FINAL_TYPE: u8 = 0x4F;

pub const REC_TYPE: u8 = 0x4E;

// Where a type could stand: a block that gives nothing (Control Instructions), a table with an initialiser (Table Section)
pub const EMPTY_BLOCK: u8 = 0x40;

pub const TABLE_WITH_INITIAL: u8 = 0x40;
