//! Why a body isn't read or isn't written.
ghost use Rattle.std.specs.Prelude.{◌≡◌, alloc_error};
ghost use Rattle.walrus_code.specs.declared.error.IrError.TheVariants.{Memory};
ghost use Rattle.walrus_code.specs.Errors.{ir_error};

use std::alloc::{AllocError, AllocFailed};
use wasm_forms::WireError;

/// Why a body isn't read or isn't written.
#[derive(Debug, Drop, thiserror::Error)]
pub enum IrError {
    /// The bytes are no body.
    #[error("malformed body")]
    Malformed,
    /// Memory ran out.
    #[error("out of memory")]
    Memory(AllocError),
    /// An item that a body names has no index.
    #[error("an item of a body has no index")]
    NoIndex,
    /// The operators are no body that the binary format can spell.
    #[error("a body that cannot be written")]
    NotWritable,
    /// A number passes 32 bits.
    #[error("a number of a body passes 32 bits")]
    TooLarge,
}

impl From<AllocError> for IrError {
    ghost from_gives = { λ _ e. e ≡ Memory alloc_error };

    fn from(failed: AllocError) -> IrError {
        IrError::Memory(failed)
    }
}

impl<T: Drop> From<AllocFailed<T>> for IrError {
    ghost from_gives = { λ _ e. e ≡ Memory alloc_error };

    fn from(_failed: AllocFailed<T>) -> IrError {
        IrError::Memory(AllocError)
    }
}

impl From<WireError> for IrError {
    ghost from_gives = { λ failed e. e ≡ ir_error failed };

    fn from(failed: WireError) -> IrError {
        match failed {
            WireError::Malformed => IrError::Malformed,
            WireError::Memory(failed) => IrError::Memory(failed),
            WireError::TooLarge => IrError::TooLarge,
        }
    }
}
