//! Numbers behind the byte FC (Instructions of the wide arithmetic proposal).

pub const I64_ADD128: u32 = 0x13;

pub const I64_SUB128: u32 = 0x14;

pub const I64_MUL_WIDE_S: u32 = 0x15;

pub const I64_MUL_WIDE_U: u32 = 0x16;
