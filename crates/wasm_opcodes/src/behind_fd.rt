//! Numbers behind the byte FD (Binary Format > Instructions > Vector Instructions).

pub const V128_CONST: u32 = 0x0C;
