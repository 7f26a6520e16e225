//! The opcodes that are one byte, and the prefix bytes (Binary Format > Instructions).

// Control Instructions, with those of the legacy exception handling proposal: TRY, CATCH, RETHROW, DELEGATE, CATCH_ALL. Two that
// branch by a reference, BR_ON_NULL and BR_ON_NON_NULL, are among them.
pub const UNREACHABLE: u32 = 0x00;

pub const NOP: u32 = 0x01;

pub const BLOCK: u32 = 0x02;

pub const LOOP: u32 = 0x03;

pub const IF: u32 = 0x04;

pub const ELSE: u32 = 0x05;

pub const TRY: u32 = 0x06;

pub const CATCH: u32 = 0x07;

pub const THROW: u32 = 0x08;

pub const RETHROW: u32 = 0x09;

pub const THROW_REF: u32 = 0x0A;

pub const END: u32 = 0x0B;

pub const BR: u32 = 0x0C;

pub const BR_IF: u32 = 0x0D;

pub const BR_TABLE: u32 = 0x0E;

pub const RETURN: u32 = 0x0F;

pub const CALL: u32 = 0x10;

pub const CALL_INDIRECT: u32 = 0x11;

pub const RETURN_CALL: u32 = 0x12;

pub const RETURN_CALL_INDIRECT: u32 = 0x13;

pub const CALL_REF: u32 = 0x14;

pub const RETURN_CALL_REF: u32 = 0x15;

pub const DELEGATE: u32 = 0x18;

pub const CATCH_ALL: u32 = 0x19;

pub const TRY_TABLE: u32 = 0x1F;

pub const BR_ON_NULL: u32 = 0xD5;

pub const BR_ON_NON_NULL: u32 = 0xD6;

// Parametric Instructions: SELECT_TYPED is the one that lists a type
pub const DROP: u32 = 0x1A;

pub const SELECT: u32 = 0x1B;

pub const SELECT_TYPED: u32 = 0x1C;

// Variable Instructions
pub const LOCAL_GET: u32 = 0x20;

pub const LOCAL_SET: u32 = 0x21;

pub const LOCAL_TEE: u32 = 0x22;

pub const GLOBAL_GET: u32 = 0x23;

pub const GLOBAL_SET: u32 = 0x24;

// Table Instructions
pub const TABLE_GET: u32 = 0x25;

pub const TABLE_SET: u32 = 0x26;

// Memory Instructions
pub const I32_LOAD: u32 = 0x28;

pub const I64_LOAD: u32 = 0x29;

pub const F32_LOAD: u32 = 0x2A;

pub const F64_LOAD: u32 = 0x2B;

pub const I32_LOAD8_S: u32 = 0x2C;

pub const I32_LOAD8_U: u32 = 0x2D;

pub const I32_LOAD16_S: u32 = 0x2E;

pub const I32_LOAD16_U: u32 = 0x2F;

pub const I64_LOAD8_S: u32 = 0x30;

pub const I64_LOAD8_U: u32 = 0x31;

pub const I64_LOAD16_S: u32 = 0x32;

pub const I64_LOAD16_U: u32 = 0x33;

pub const I64_LOAD32_S: u32 = 0x34;

pub const I64_LOAD32_U: u32 = 0x35;

pub const I32_STORE: u32 = 0x36;

pub const I64_STORE: u32 = 0x37;

pub const F32_STORE: u32 = 0x38;

pub const F64_STORE: u32 = 0x39;

pub const I32_STORE8: u32 = 0x3A;

pub const I32_STORE16: u32 = 0x3B;

pub const I64_STORE8: u32 = 0x3C;

pub const I64_STORE16: u32 = 0x3D;

pub const I64_STORE32: u32 = 0x3E;

pub const MEMORY_SIZE: u32 = 0x3F;

pub const MEMORY_GROW: u32 = 0x40;

// Numeric Instructions
pub const I32_CONST: u32 = 0x41;

pub const I64_CONST: u32 = 0x42;

pub const F32_CONST: u32 = 0x43;

pub const F64_CONST: u32 = 0x44;

pub const I32_EQZ: u32 = 0x45;

pub const I32_EQ: u32 = 0x46;

pub const I32_NE: u32 = 0x47;

pub const I32_LT_S: u32 = 0x48;

pub const I32_LT_U: u32 = 0x49;

pub const I32_GT_S: u32 = 0x4A;

pub const I32_GT_U: u32 = 0x4B;

pub const I32_LE_S: u32 = 0x4C;

pub const I32_LE_U: u32 = 0x4D;

pub const I32_GE_S: u32 = 0x4E;

pub const I32_GE_U: u32 = 0x4F;

pub const I64_EQZ: u32 = 0x50;

pub const I64_EQ: u32 = 0x51;

pub const I64_NE: u32 = 0x52;

pub const I64_LT_S: u32 = 0x53;

pub const I64_LT_U: u32 = 0x54;

pub const I64_GT_S: u32 = 0x55;

pub const I64_GT_U: u32 = 0x56;

pub const I64_LE_S: u32 = 0x57;

pub const I64_LE_U: u32 = 0x58;

pub const I64_GE_S: u32 = 0x59;

pub const I64_GE_U: u32 = 0x5A;

pub const F32_EQ: u32 = 0x5B;

pub const F32_NE: u32 = 0x5C;

pub const F32_LT: u32 = 0x5D;

pub const F32_GT: u32 = 0x5E;

pub const F32_LE: u32 = 0x5F;

pub const F32_GE: u32 = 0x60;

pub const F64_EQ: u32 = 0x61;

pub const F64_NE: u32 = 0x62;

pub const F64_LT: u32 = 0x63;

pub const F64_GT: u32 = 0x64;

pub const F64_LE: u32 = 0x65;

pub const F64_GE: u32 = 0x66;

pub const I32_CLZ: u32 = 0x67;

pub const I32_CTZ: u32 = 0x68;

pub const I32_POPCNT: u32 = 0x69;

pub const I32_ADD: u32 = 0x6A;

pub const I32_SUB: u32 = 0x6B;

pub const I32_MUL: u32 = 0x6C;

pub const I32_DIV_S: u32 = 0x6D;

pub const I32_DIV_U: u32 = 0x6E;

pub const I32_REM_S: u32 = 0x6F;

pub const I32_REM_U: u32 = 0x70;

pub const I32_AND: u32 = 0x71;

pub const I32_OR: u32 = 0x72;

pub const I32_XOR: u32 = 0x73;

pub const I32_SHL: u32 = 0x74;

pub const I32_SHR_S: u32 = 0x75;

pub const I32_SHR_U: u32 = 0x76;

pub const I32_ROTL: u32 = 0x77;

pub const I32_ROTR: u32 = 0x78;

pub const I64_CLZ: u32 = 0x79;

pub const I64_CTZ: u32 = 0x7A;

pub const I64_POPCNT: u32 = 0x7B;

pub const I64_ADD: u32 = 0x7C;

pub const I64_SUB: u32 = 0x7D;

pub const I64_MUL: u32 = 0x7E;

pub const I64_DIV_S: u32 = 0x7F;

pub const I64_DIV_U: u32 = 0x80;

pub const I64_REM_S: u32 = 0x81;

pub const I64_REM_U: u32 = 0x82;

pub const I64_AND: u32 = 0x83;

pub const I64_OR: u32 = 0x84;

pub const I64_XOR: u32 = 0x85;

pub const I64_SHL: u32 = 0x86;

pub const I64_SHR_S: u32 = 0x87;

pub const I64_SHR_U: u32 = 0x88;

pub const I64_ROTL: u32 = 0x89;

pub const I64_ROTR: u32 = 0x8A;

pub const F32_ABS: u32 = 0x8B;

pub const F32_NEG: u32 = 0x8C;

pub const F32_CEIL: u32 = 0x8D;

pub const F32_FLOOR: u32 = 0x8E;

pub const F32_TRUNC: u32 = 0x8F;

pub const F32_NEAREST: u32 = 0x90;

pub const F32_SQRT: u32 = 0x91;

pub const F32_ADD: u32 = 0x92;

pub const F32_SUB: u32 = 0x93;

pub const F32_MUL: u32 = 0x94;

pub const F32_DIV: u32 = 0x95;

pub const F32_MIN: u32 = 0x96;

pub const F32_MAX: u32 = 0x97;

pub const F32_COPYSIGN: u32 = 0x98;

pub const F64_ABS: u32 = 0x99;

pub const F64_NEG: u32 = 0x9A;

pub const F64_CEIL: u32 = 0x9B;

pub const F64_FLOOR: u32 = 0x9C;

pub const F64_TRUNC: u32 = 0x9D;

pub const F64_NEAREST: u32 = 0x9E;

pub const F64_SQRT: u32 = 0x9F;

pub const F64_ADD: u32 = 0xA0;

pub const F64_SUB: u32 = 0xA1;

pub const F64_MUL: u32 = 0xA2;

pub const F64_DIV: u32 = 0xA3;

pub const F64_MIN: u32 = 0xA4;

pub const F64_MAX: u32 = 0xA5;

pub const F64_COPYSIGN: u32 = 0xA6;

pub const I32_WRAP_I64: u32 = 0xA7;

pub const I32_TRUNC_F32_S: u32 = 0xA8;

pub const I32_TRUNC_F32_U: u32 = 0xA9;

pub const I32_TRUNC_F64_S: u32 = 0xAA;

pub const I32_TRUNC_F64_U: u32 = 0xAB;

pub const I64_EXTEND_I32_S: u32 = 0xAC;

pub const I64_EXTEND_I32_U: u32 = 0xAD;

pub const I64_TRUNC_F32_S: u32 = 0xAE;

pub const I64_TRUNC_F32_U: u32 = 0xAF;

pub const I64_TRUNC_F64_S: u32 = 0xB0;

pub const I64_TRUNC_F64_U: u32 = 0xB1;

pub const F32_CONVERT_I32_S: u32 = 0xB2;

pub const F32_CONVERT_I32_U: u32 = 0xB3;

pub const F32_CONVERT_I64_S: u32 = 0xB4;

pub const F32_CONVERT_I64_U: u32 = 0xB5;

pub const F32_DEMOTE_F64: u32 = 0xB6;

pub const F64_CONVERT_I32_S: u32 = 0xB7;

pub const F64_CONVERT_I32_U: u32 = 0xB8;

pub const F64_CONVERT_I64_S: u32 = 0xB9;

pub const F64_CONVERT_I64_U: u32 = 0xBA;

pub const F64_PROMOTE_F32: u32 = 0xBB;

pub const I32_REINTERPRET_F32: u32 = 0xBC;

pub const I64_REINTERPRET_F64: u32 = 0xBD;

pub const F32_REINTERPRET_I32: u32 = 0xBE;

pub const F64_REINTERPRET_I64: u32 = 0xBF;

pub const I32_EXTEND8_S: u32 = 0xC0;

pub const I32_EXTEND16_S: u32 = 0xC1;

pub const I64_EXTEND8_S: u32 = 0xC2;

pub const I64_EXTEND16_S: u32 = 0xC3;

pub const I64_EXTEND32_S: u32 = 0xC4;

// Reference Instructions
pub const REF_NULL: u32 = 0xD0;

pub const REF_IS_NULL: u32 = 0xD1;

pub const REF_FUNC: u32 = 0xD2;

pub const REF_EQ: u32 = 0xD3;

pub const REF_AS_NON_NULL: u32 = 0xD4;

// The bytes that a number stands behind: references and aggregates; saturating truncation, bulk memory, tables and wide arithmetic;
// vectors; atomics
pub const PREFIX_FB: u32 = 0xFB;

pub const PREFIX_FC: u32 = 0xFC;

pub const PREFIX_FD: u32 = 0xFD;

pub const PREFIX_FE: u32 = 0xFE;
