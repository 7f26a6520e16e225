//! The opcodes of the byte FC and a number behind it: saturating truncation, bulk memory and tables, wide arithmetic (Binary Format >
//! Instructions > Numeric Instructions, Memory Instructions, Table Instructions).

pub const I32_TRUNC_SAT_F32_S: u32 = 0xFC_0000;

pub const I32_TRUNC_SAT_F32_U: u32 = 0xFC_0001;

pub const I32_TRUNC_SAT_F64_S: u32 = 0xFC_0002;

pub const I32_TRUNC_SAT_F64_U: u32 = 0xFC_0003;

pub const I64_TRUNC_SAT_F32_S: u32 = 0xFC_0004;

pub const I64_TRUNC_SAT_F32_U: u32 = 0xFC_0005;

pub const I64_TRUNC_SAT_F64_S: u32 = 0xFC_0006;

pub const I64_TRUNC_SAT_F64_U: u32 = 0xFC_0007;

pub const MEMORY_INIT: u32 = 0xFC_0008;

pub const DATA_DROP: u32 = 0xFC_0009;

pub const MEMORY_COPY: u32 = 0xFC_000A;

pub const MEMORY_FILL: u32 = 0xFC_000B;

pub const TABLE_INIT: u32 = 0xFC_000C;

pub const ELEM_DROP: u32 = 0xFC_000D;

pub const TABLE_COPY: u32 = 0xFC_000E;

pub const TABLE_GROW: u32 = 0xFC_000F;

pub const TABLE_SIZE: u32 = 0xFC_0010;

pub const TABLE_FILL: u32 = 0xFC_0011;

pub const I64_ADD128: u32 = 0xFC_0013;

pub const I64_SUB128: u32 = 0xFC_0014;

pub const I64_MUL_WIDE_S: u32 = 0xFC_0015;

pub const I64_MUL_WIDE_U: u32 = 0xFC_0016;
