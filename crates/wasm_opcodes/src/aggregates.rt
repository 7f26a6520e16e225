//! The opcodes of the byte FB and a number behind it: structs, arrays, casts and conversions (Binary Format > Instructions > Reference
//! Instructions, Aggregate Instructions). REF_TEST_NULL and REF_CAST_NULL are those of a type with null.

pub const STRUCT_NEW: u32 = 0xFB_0000;

pub const STRUCT_NEW_DEFAULT: u32 = 0xFB_0001;

pub const STRUCT_GET: u32 = 0xFB_0002;

pub const STRUCT_GET_S: u32 = 0xFB_0003;

pub const STRUCT_GET_U: u32 = 0xFB_0004;

pub const STRUCT_SET: u32 = 0xFB_0005;

pub const ARRAY_NEW: u32 = 0xFB_0006;

pub const ARRAY_NEW_DEFAULT: u32 = 0xFB_0007;

pub const ARRAY_NEW_FIXED: u32 = 0xFB_0008;

pub const ARRAY_NEW_DATA: u32 = 0xFB_0009;

pub const ARRAY_NEW_ELEM: u32 = 0xFB_000A;

pub const ARRAY_GET: u32 = 0xFB_000B;

pub const ARRAY_GET_S: u32 = 0xFB_000C;

pub const ARRAY_GET_U: u32 = 0xFB_000D;

pub const ARRAY_SET: u32 = 0xFB_000E;

pub const ARRAY_LEN: u32 = 0xFB_000F;

pub const ARRAY_FILL: u32 = 0xFB_0010;

pub const ARRAY_COPY: u32 = 0xFB_0011;

pub const ARRAY_INIT_DATA: u32 = 0xFB_0012;

pub const ARRAY_INIT_ELEM: u32 = 0xFB_0013;

pub const REF_TEST: u32 = 0xFB_0014;

pub const REF_TEST_NULL: u32 = 0xFB_0015;

pub const REF_CAST: u32 = 0xFB_0016;

pub const REF_CAST_NULL: u32 = 0xFB_0017;

pub const BR_ON_CAST: u32 = 0xFB_0018;

pub const BR_ON_CAST_FAIL: u32 = 0xFB_0019;

pub const ANY_CONVERT_EXTERN: u32 = 0xFB_001A;

pub const EXTERN_CONVERT_ANY: u32 = 0xFB_001B;

pub const REF_I31: u32 = 0xFB_001C;

pub const I31_GET_S: u32 = 0xFB_001D;

pub const I31_GET_U: u32 = 0xFB_001E;
