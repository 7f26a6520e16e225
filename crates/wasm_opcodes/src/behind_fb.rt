//! Numbers behind the byte FB (Binary Format > Instructions > Reference Instructions, Aggregate Instructions).

pub const STRUCT_NEW: u32 = 0x00;

pub const STRUCT_NEW_DEFAULT: u32 = 0x01;

pub const ARRAY_NEW: u32 = 0x06;

pub const ARRAY_NEW_DEFAULT: u32 = 0x07;

pub const ARRAY_NEW_FIXED: u32 = 0x08;

pub const ANY_CONVERT_EXTERN: u32 = 0x1A;

pub const EXTERN_CONVERT_ANY: u32 = 0x1B;

pub const REF_I31: u32 = 0x1C;
