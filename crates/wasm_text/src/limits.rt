//! What the arguments of a body may name.

/// How many items of each kind, locals and open blocks there are. An index is within the limits where it is below its count.
#[derive(Clone, Copy, Debug)]
pub struct Limits {
    /// How many functions there are.
    pub functions: u32,
    /// How many globals there are.
    pub globals: u32,
    /// How many types there are.
    pub types: u32,
    /// How many tables there are.
    pub tables: u32,
    /// How many memories there are.
    pub memories: u32,
    /// How many locals the function has, its parameters among them.
    pub locals: u32,
    /// How many blocks are open.
    pub labels: usize,
}
