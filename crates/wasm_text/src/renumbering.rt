//! New numbers for what arguments name.

ghost use Rattle.std.specs.Prelude.{◌≡◌, ℕ, Option};
ghost use Rattle.wasm_text.specs.Filling.{Answers};

/// Where an index has no new number.
pub const NO_NUMBER: u64 = u64::MAX;

/// New numbers for what arguments name, by the kind of a mark and an index: `MARK_LOCAL`, `MARK_FUNCTION`, `MARK_GLOBAL`, `MARK_TYPE` (also the
/// type of a block), `MARK_TABLE` and `MARK_MEMORY` (also the memory of an access). `number` says which one an index has, or that it has
/// none.
pub trait Numbers {
    ghost number: { Self → ℕ → ℕ → Option ℕ };

    /// The new number, below 2^32; [`NO_NUMBER`] where there is none.
    fn new_number(&self, kind: u32, index: u32) -> u64
        ensures { Answers result (number self.now kind index) };
}
