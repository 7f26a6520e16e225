//! The opcodes of the byte FD and a number behind it (Binary Format > Instructions > Vector Instructions).

pub const V128_LOAD: u32 = 0xFD_0000;

pub const V128_LOAD8X8_S: u32 = 0xFD_0001;

pub const V128_LOAD8X8_U: u32 = 0xFD_0002;

pub const V128_LOAD16X4_S: u32 = 0xFD_0003;

pub const V128_LOAD16X4_U: u32 = 0xFD_0004;

pub const V128_LOAD32X2_S: u32 = 0xFD_0005;

pub const V128_LOAD32X2_U: u32 = 0xFD_0006;

pub const V128_LOAD8_SPLAT: u32 = 0xFD_0007;

pub const V128_LOAD16_SPLAT: u32 = 0xFD_0008;

pub const V128_LOAD32_SPLAT: u32 = 0xFD_0009;

pub const V128_LOAD64_SPLAT: u32 = 0xFD_000A;

pub const V128_STORE: u32 = 0xFD_000B;

pub const V128_CONST: u32 = 0xFD_000C;

pub const I8X16_SHUFFLE: u32 = 0xFD_000D;

pub const I8X16_SWIZZLE: u32 = 0xFD_000E;

pub const I8X16_SPLAT: u32 = 0xFD_000F;

pub const I16X8_SPLAT: u32 = 0xFD_0010;

pub const I32X4_SPLAT: u32 = 0xFD_0011;

pub const I64X2_SPLAT: u32 = 0xFD_0012;

pub const F32X4_SPLAT: u32 = 0xFD_0013;

pub const F64X2_SPLAT: u32 = 0xFD_0014;

pub const I8X16_EXTRACT_LANE_S: u32 = 0xFD_0015;

pub const I8X16_EXTRACT_LANE_U: u32 = 0xFD_0016;

pub const I8X16_REPLACE_LANE: u32 = 0xFD_0017;

pub const I16X8_EXTRACT_LANE_S: u32 = 0xFD_0018;

pub const I16X8_EXTRACT_LANE_U: u32 = 0xFD_0019;

pub const I16X8_REPLACE_LANE: u32 = 0xFD_001A;

pub const I32X4_EXTRACT_LANE: u32 = 0xFD_001B;

pub const I32X4_REPLACE_LANE: u32 = 0xFD_001C;

pub const I64X2_EXTRACT_LANE: u32 = 0xFD_001D;

pub const I64X2_REPLACE_LANE: u32 = 0xFD_001E;

pub const F32X4_EXTRACT_LANE: u32 = 0xFD_001F;

pub const F32X4_REPLACE_LANE: u32 = 0xFD_0020;

pub const F64X2_EXTRACT_LANE: u32 = 0xFD_0021;

pub const F64X2_REPLACE_LANE: u32 = 0xFD_0022;

pub const I8X16_EQ: u32 = 0xFD_0023;

pub const I8X16_NE: u32 = 0xFD_0024;

pub const I8X16_LT_S: u32 = 0xFD_0025;

pub const I8X16_LT_U: u32 = 0xFD_0026;

pub const I8X16_GT_S: u32 = 0xFD_0027;

pub const I8X16_GT_U: u32 = 0xFD_0028;

pub const I8X16_LE_S: u32 = 0xFD_0029;

pub const I8X16_LE_U: u32 = 0xFD_002A;

pub const I8X16_GE_S: u32 = 0xFD_002B;

pub const I8X16_GE_U: u32 = 0xFD_002C;

pub const I16X8_EQ: u32 = 0xFD_002D;

pub const I16X8_NE: u32 = 0xFD_002E;

pub const I16X8_LT_S: u32 = 0xFD_002F;

pub const I16X8_LT_U: u32 = 0xFD_0030;

pub const I16X8_GT_S: u32 = 0xFD_0031;

pub const I16X8_GT_U: u32 = 0xFD_0032;

pub const I16X8_LE_S: u32 = 0xFD_0033;

pub const I16X8_LE_U: u32 = 0xFD_0034;

pub const I16X8_GE_S: u32 = 0xFD_0035;

pub const I16X8_GE_U: u32 = 0xFD_0036;

pub const I32X4_EQ: u32 = 0xFD_0037;

pub const I32X4_NE: u32 = 0xFD_0038;

pub const I32X4_LT_S: u32 = 0xFD_0039;

pub const I32X4_LT_U: u32 = 0xFD_003A;

pub const I32X4_GT_S: u32 = 0xFD_003B;

pub const I32X4_GT_U: u32 = 0xFD_003C;

pub const I32X4_LE_S: u32 = 0xFD_003D;

pub const I32X4_LE_U: u32 = 0xFD_003E;

pub const I32X4_GE_S: u32 = 0xFD_003F;

pub const I32X4_GE_U: u32 = 0xFD_0040;

pub const F32X4_EQ: u32 = 0xFD_0041;

pub const F32X4_NE: u32 = 0xFD_0042;

pub const F32X4_LT: u32 = 0xFD_0043;

pub const F32X4_GT: u32 = 0xFD_0044;

pub const F32X4_LE: u32 = 0xFD_0045;

pub const F32X4_GE: u32 = 0xFD_0046;

pub const F64X2_EQ: u32 = 0xFD_0047;

pub const F64X2_NE: u32 = 0xFD_0048;

pub const F64X2_LT: u32 = 0xFD_0049;

pub const F64X2_GT: u32 = 0xFD_004A;

pub const F64X2_LE: u32 = 0xFD_004B;

pub const F64X2_GE: u32 = 0xFD_004C;

pub const V128_NOT: u32 = 0xFD_004D;

pub const V128_AND: u32 = 0xFD_004E;

pub const V128_ANDNOT: u32 = 0xFD_004F;

pub const V128_OR: u32 = 0xFD_0050;

pub const V128_XOR: u32 = 0xFD_0051;

pub const V128_BITSELECT: u32 = 0xFD_0052;

pub const V128_ANY_TRUE: u32 = 0xFD_0053;

pub const V128_LOAD8_LANE: u32 = 0xFD_0054;

pub const V128_LOAD16_LANE: u32 = 0xFD_0055;

pub const V128_LOAD32_LANE: u32 = 0xFD_0056;

pub const V128_LOAD64_LANE: u32 = 0xFD_0057;

pub const V128_STORE8_LANE: u32 = 0xFD_0058;

pub const V128_STORE16_LANE: u32 = 0xFD_0059;

pub const V128_STORE32_LANE: u32 = 0xFD_005A;

pub const V128_STORE64_LANE: u32 = 0xFD_005B;

pub const V128_LOAD32_ZERO: u32 = 0xFD_005C;

pub const V128_LOAD64_ZERO: u32 = 0xFD_005D;

pub const F32X4_DEMOTE_F64X2_ZERO: u32 = 0xFD_005E;

pub const F64X2_PROMOTE_LOW_F32X4: u32 = 0xFD_005F;

pub const I8X16_ABS: u32 = 0xFD_0060;

pub const I8X16_NEG: u32 = 0xFD_0061;

pub const I8X16_POPCNT: u32 = 0xFD_0062;

pub const I8X16_ALL_TRUE: u32 = 0xFD_0063;

pub const I8X16_BITMASK: u32 = 0xFD_0064;

pub const I8X16_NARROW_I16X8_S: u32 = 0xFD_0065;

pub const I8X16_NARROW_I16X8_U: u32 = 0xFD_0066;

pub const F32X4_CEIL: u32 = 0xFD_0067;

pub const F32X4_FLOOR: u32 = 0xFD_0068;

pub const F32X4_TRUNC: u32 = 0xFD_0069;

pub const F32X4_NEAREST: u32 = 0xFD_006A;

pub const I8X16_SHL: u32 = 0xFD_006B;

pub const I8X16_SHR_S: u32 = 0xFD_006C;

pub const I8X16_SHR_U: u32 = 0xFD_006D;

pub const I8X16_ADD: u32 = 0xFD_006E;

pub const I8X16_ADD_SAT_S: u32 = 0xFD_006F;

pub const I8X16_ADD_SAT_U: u32 = 0xFD_0070;

pub const I8X16_SUB: u32 = 0xFD_0071;

pub const I8X16_SUB_SAT_S: u32 = 0xFD_0072;

pub const I8X16_SUB_SAT_U: u32 = 0xFD_0073;

pub const F64X2_CEIL: u32 = 0xFD_0074;

pub const F64X2_FLOOR: u32 = 0xFD_0075;

pub const I8X16_MIN_S: u32 = 0xFD_0076;

pub const I8X16_MIN_U: u32 = 0xFD_0077;

pub const I8X16_MAX_S: u32 = 0xFD_0078;

pub const I8X16_MAX_U: u32 = 0xFD_0079;

pub const F64X2_TRUNC: u32 = 0xFD_007A;

pub const I8X16_AVGR_U: u32 = 0xFD_007B;

pub const I16X8_EXTADD_PAIRWISE_I8X16_S: u32 = 0xFD_007C;

pub const I16X8_EXTADD_PAIRWISE_I8X16_U: u32 = 0xFD_007D;

pub const I32X4_EXTADD_PAIRWISE_I16X8_S: u32 = 0xFD_007E;

pub const I32X4_EXTADD_PAIRWISE_I16X8_U: u32 = 0xFD_007F;

pub const I16X8_ABS: u32 = 0xFD_0080;

pub const I16X8_NEG: u32 = 0xFD_0081;

pub const I16X8_Q15MULR_SAT_S: u32 = 0xFD_0082;

pub const I16X8_ALL_TRUE: u32 = 0xFD_0083;

pub const I16X8_BITMASK: u32 = 0xFD_0084;

pub const I16X8_NARROW_I32X4_S: u32 = 0xFD_0085;

pub const I16X8_NARROW_I32X4_U: u32 = 0xFD_0086;

pub const I16X8_EXTEND_LOW_I8X16_S: u32 = 0xFD_0087;

pub const I16X8_EXTEND_HIGH_I8X16_S: u32 = 0xFD_0088;

pub const I16X8_EXTEND_LOW_I8X16_U: u32 = 0xFD_0089;

pub const I16X8_EXTEND_HIGH_I8X16_U: u32 = 0xFD_008A;

pub const I16X8_SHL: u32 = 0xFD_008B;

pub const I16X8_SHR_S: u32 = 0xFD_008C;

pub const I16X8_SHR_U: u32 = 0xFD_008D;

pub const I16X8_ADD: u32 = 0xFD_008E;

pub const I16X8_ADD_SAT_S: u32 = 0xFD_008F;

pub const I16X8_ADD_SAT_U: u32 = 0xFD_0090;

pub const I16X8_SUB: u32 = 0xFD_0091;

pub const I16X8_SUB_SAT_S: u32 = 0xFD_0092;

pub const I16X8_SUB_SAT_U: u32 = 0xFD_0093;

pub const F64X2_NEAREST: u32 = 0xFD_0094;

pub const I16X8_MUL: u32 = 0xFD_0095;

pub const I16X8_MIN_S: u32 = 0xFD_0096;

pub const I16X8_MIN_U: u32 = 0xFD_0097;

pub const I16X8_MAX_S: u32 = 0xFD_0098;

pub const I16X8_MAX_U: u32 = 0xFD_0099;

pub const I16X8_AVGR_U: u32 = 0xFD_009B;

pub const I16X8_EXTMUL_LOW_I8X16_S: u32 = 0xFD_009C;

pub const I16X8_EXTMUL_HIGH_I8X16_S: u32 = 0xFD_009D;

pub const I16X8_EXTMUL_LOW_I8X16_U: u32 = 0xFD_009E;

pub const I16X8_EXTMUL_HIGH_I8X16_U: u32 = 0xFD_009F;

pub const I32X4_ABS: u32 = 0xFD_00A0;

pub const I32X4_NEG: u32 = 0xFD_00A1;

pub const I32X4_ALL_TRUE: u32 = 0xFD_00A3;

pub const I32X4_BITMASK: u32 = 0xFD_00A4;

pub const I32X4_EXTEND_LOW_I16X8_S: u32 = 0xFD_00A7;

pub const I32X4_EXTEND_HIGH_I16X8_S: u32 = 0xFD_00A8;

pub const I32X4_EXTEND_LOW_I16X8_U: u32 = 0xFD_00A9;

pub const I32X4_EXTEND_HIGH_I16X8_U: u32 = 0xFD_00AA;

pub const I32X4_SHL: u32 = 0xFD_00AB;

pub const I32X4_SHR_S: u32 = 0xFD_00AC;

pub const I32X4_SHR_U: u32 = 0xFD_00AD;

pub const I32X4_ADD: u32 = 0xFD_00AE;

pub const I32X4_SUB: u32 = 0xFD_00B1;

pub const I32X4_MUL: u32 = 0xFD_00B5;

pub const I32X4_MIN_S: u32 = 0xFD_00B6;

pub const I32X4_MIN_U: u32 = 0xFD_00B7;

pub const I32X4_MAX_S: u32 = 0xFD_00B8;

pub const I32X4_MAX_U: u32 = 0xFD_00B9;

pub const I32X4_DOT_I16X8_S: u32 = 0xFD_00BA;

pub const I32X4_EXTMUL_LOW_I16X8_S: u32 = 0xFD_00BC;

pub const I32X4_EXTMUL_HIGH_I16X8_S: u32 = 0xFD_00BD;

pub const I32X4_EXTMUL_LOW_I16X8_U: u32 = 0xFD_00BE;

pub const I32X4_EXTMUL_HIGH_I16X8_U: u32 = 0xFD_00BF;

pub const I64X2_ABS: u32 = 0xFD_00C0;

pub const I64X2_NEG: u32 = 0xFD_00C1;

pub const I64X2_ALL_TRUE: u32 = 0xFD_00C3;

pub const I64X2_BITMASK: u32 = 0xFD_00C4;

pub const I64X2_EXTEND_LOW_I32X4_S: u32 = 0xFD_00C7;

pub const I64X2_EXTEND_HIGH_I32X4_S: u32 = 0xFD_00C8;

pub const I64X2_EXTEND_LOW_I32X4_U: u32 = 0xFD_00C9;

pub const I64X2_EXTEND_HIGH_I32X4_U: u32 = 0xFD_00CA;

pub const I64X2_SHL: u32 = 0xFD_00CB;

pub const I64X2_SHR_S: u32 = 0xFD_00CC;

pub const I64X2_SHR_U: u32 = 0xFD_00CD;

pub const I64X2_ADD: u32 = 0xFD_00CE;

pub const I64X2_SUB: u32 = 0xFD_00D1;

pub const I64X2_MUL: u32 = 0xFD_00D5;

pub const I64X2_EQ: u32 = 0xFD_00D6;

pub const I64X2_NE: u32 = 0xFD_00D7;

pub const I64X2_LT_S: u32 = 0xFD_00D8;

pub const I64X2_GT_S: u32 = 0xFD_00D9;

pub const I64X2_LE_S: u32 = 0xFD_00DA;

pub const I64X2_GE_S: u32 = 0xFD_00DB;

pub const I64X2_EXTMUL_LOW_I32X4_S: u32 = 0xFD_00DC;

pub const I64X2_EXTMUL_HIGH_I32X4_S: u32 = 0xFD_00DD;

pub const I64X2_EXTMUL_LOW_I32X4_U: u32 = 0xFD_00DE;

pub const I64X2_EXTMUL_HIGH_I32X4_U: u32 = 0xFD_00DF;

pub const F32X4_ABS: u32 = 0xFD_00E0;

pub const F32X4_NEG: u32 = 0xFD_00E1;

pub const F32X4_SQRT: u32 = 0xFD_00E3;

pub const F32X4_ADD: u32 = 0xFD_00E4;

pub const F32X4_SUB: u32 = 0xFD_00E5;

pub const F32X4_MUL: u32 = 0xFD_00E6;

pub const F32X4_DIV: u32 = 0xFD_00E7;

pub const F32X4_MIN: u32 = 0xFD_00E8;

pub const F32X4_MAX: u32 = 0xFD_00E9;

pub const F32X4_PMIN: u32 = 0xFD_00EA;

pub const F32X4_PMAX: u32 = 0xFD_00EB;

pub const F64X2_ABS: u32 = 0xFD_00EC;

pub const F64X2_NEG: u32 = 0xFD_00ED;

pub const F64X2_SQRT: u32 = 0xFD_00EF;

pub const F64X2_ADD: u32 = 0xFD_00F0;

pub const F64X2_SUB: u32 = 0xFD_00F1;

pub const F64X2_MUL: u32 = 0xFD_00F2;

pub const F64X2_DIV: u32 = 0xFD_00F3;

pub const F64X2_MIN: u32 = 0xFD_00F4;

pub const F64X2_MAX: u32 = 0xFD_00F5;

pub const F64X2_PMIN: u32 = 0xFD_00F6;

pub const F64X2_PMAX: u32 = 0xFD_00F7;

pub const I32X4_TRUNC_SAT_F32X4_S: u32 = 0xFD_00F8;

pub const I32X4_TRUNC_SAT_F32X4_U: u32 = 0xFD_00F9;

pub const F32X4_CONVERT_I32X4_S: u32 = 0xFD_00FA;

pub const F32X4_CONVERT_I32X4_U: u32 = 0xFD_00FB;

pub const I32X4_TRUNC_SAT_F64X2_S_ZERO: u32 = 0xFD_00FC;

pub const I32X4_TRUNC_SAT_F64X2_U_ZERO: u32 = 0xFD_00FD;

pub const F64X2_CONVERT_LOW_I32X4_S: u32 = 0xFD_00FE;

pub const F64X2_CONVERT_LOW_I32X4_U: u32 = 0xFD_00FF;

pub const I8X16_RELAXED_SWIZZLE: u32 = 0xFD_0100;

pub const I32X4_RELAXED_TRUNC_F32X4_S: u32 = 0xFD_0101;

pub const I32X4_RELAXED_TRUNC_F32X4_U: u32 = 0xFD_0102;

pub const I32X4_RELAXED_TRUNC_F64X2_S_ZERO: u32 = 0xFD_0103;

pub const I32X4_RELAXED_TRUNC_F64X2_U_ZERO: u32 = 0xFD_0104;

pub const F32X4_RELAXED_MADD: u32 = 0xFD_0105;

pub const F32X4_RELAXED_NMADD: u32 = 0xFD_0106;

pub const F64X2_RELAXED_MADD: u32 = 0xFD_0107;

pub const F64X2_RELAXED_NMADD: u32 = 0xFD_0108;

pub const I8X16_RELAXED_LANESELECT: u32 = 0xFD_0109;

pub const I16X8_RELAXED_LANESELECT: u32 = 0xFD_010A;

pub const I32X4_RELAXED_LANESELECT: u32 = 0xFD_010B;

pub const I64X2_RELAXED_LANESELECT: u32 = 0xFD_010C;

pub const F32X4_RELAXED_MIN: u32 = 0xFD_010D;

pub const F32X4_RELAXED_MAX: u32 = 0xFD_010E;

pub const F64X2_RELAXED_MIN: u32 = 0xFD_010F;

pub const F64X2_RELAXED_MAX: u32 = 0xFD_0110;

pub const I16X8_RELAXED_Q15MULR_S: u32 = 0xFD_0111;

pub const I16X8_RELAXED_DOT_I8X16_I7X16_S: u32 = 0xFD_0112;

pub const I32X4_RELAXED_DOT_I8X16_I7X16_ADD_S: u32 = 0xFD_0113;
