//! Why bytes are refused.

ghost use Rattle.std.specs.Prelude.{◌≡◌, alloc_error};
ghost use Rattle.wasm_forms.specs.declared.error.WireError.TheVariants.{Memory};

use std::alloc::{AllocError, AllocFailed};

/// Why bytes were not read or not written.
#[derive(Debug, Drop, thiserror::Error)]
pub enum WireError {
    /// The bytes do not follow the grammar.
    #[error("malformed bytes")]
    Malformed,
    /// Memory ran out.
    #[error("out of memory")]
    Memory(AllocError),
    /// A length to be written is 2^32 or more, which a u32 does not hold.
    #[error("a length does not fit 32 bits")]
    TooLarge,
}

impl From<AllocError> for WireError {
    ghost from_gives = { λ _ e. e ≡ Memory alloc_error };

    fn from(failed: AllocError) -> WireError {
        WireError::Memory(failed)
    }
}

impl<T: Drop> From<AllocFailed<T>> for WireError {
    ghost from_gives = { λ _ e. e ≡ Memory alloc_error };

    fn from(_failed: AllocFailed<T>) -> WireError {
        WireError::Memory(AllocError)
    }
}
