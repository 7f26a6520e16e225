//! Arguments without marks.

/// Which arguments of a body need no mark where they stand in their one spelling: locals from one on, and accesses to memory 0. Flags tell which of these
/// the body names.
#[derive(Drop)]
pub struct Unmarked {
    /// The index of the first local that needs no mark.
    pub first: u32,
    /// Of each local, whether it is one of these that the body names; of none where no local is one.
    pub named: Vec<bool>,
    /// Whether the body accesses memory 0 without a mark.
    pub accessed: bool,
}
