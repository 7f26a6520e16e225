//! Why calls are refused.

ghost use Rattle.std.specs.Prelude.{◌≡◌, alloc_error};
ghost use Rattle.walrus_items.specs.declared.error.Error.TheVariants.{Memory};
ghost use Rattle.walrus_items.specs.Errors.{error_of_ir, error_of_wire, error_text};

use std::alloc::{AllocError, AllocFailed};
use std::{error, fmt, result};
use walrus_code::IrError;
use wasm_forms::WireError;

/// What is wrong with bytes that aren't a module.
#[derive(Clone, Copy, Debug, PartialEq, Eq)]
pub enum ErrorKind {
    /// The bytes aren't in the grammar of modules with its rules ("Binary Format > Modules").
    InvalidWasm,
}

impl fmt::Display for ErrorKind {
    fn fmt<W: fmt::Write>(&self, f: &mut fmt::Formatter<W>) -> fmt::Result {
        f.write_str("The input WebAssembly is invalid")
    }
}

impl error::Error for ErrorKind {}

/// Why a call was refused.
#[derive(Debug, Drop)]
pub enum Error {
    /// A request for memory was refused.
    Memory(AllocError),
    /// The bytes aren't in the grammar of modules with its rules ("Binary Format > Modules").
    InvalidWasm(ErrorKind),
    /// Something refers to an item, or names a local, that isn't live, or a function has no body and no import.
    DeadItem,
    /// A live item has no index where one is needed.
    NoIndex,
    /// An item would be numbered twice.
    TwoIndices,
    /// A count, a size or a 32-bit limit that is to be written passes 32 bits.
    TooLarge,
    /// An exact heap type, a constant expression with no instruction, or a body that isn't well formed.
    NotWritable,
    /// A search by name found nothing.
    NotFound,
    /// The module has more than one memory.
    SeveralMemories,
    /// The module has no memory.
    NoMemory,
    /// The module has more than one table of functions.
    SeveralFunctionTables,
    /// No export names the function.
    NotExported,
    /// No import names the function.
    NotImported,
    /// The function is exported and not local, or imported by name and not of import kind.
    NotReplaceable,
    /// A caller's section or closure refused, or the program that uses the library, with this text.
    Caller(String),
}

impl Error {
    /// What went wrong, in a few words without a full stop. A caller's own refusal has the text that it was made with.
    pub fn text(&self) -> &str
        ensures { result.now ≡ error_text self.now }
    {
        match self {
            Error::Memory(_) => "out of memory",
            Error::InvalidWasm(_) => "The input WebAssembly is invalid",
            Error::DeadItem => "reference to an item that is not live",
            Error::NoIndex => "an item has no index",
            Error::TwoIndices => "an item has two indices",
            Error::TooLarge => "a count or size passes 32 bits",
            Error::NotWritable => "a form that cannot be written",
            Error::NotFound => "not found",
            Error::SeveralMemories => "multiple memories unsupported",
            Error::NoMemory => "module does not export a memory",
            Error::SeveralFunctionTables => "module contains more than one function table",
            Error::NotExported => "no exported function with this id",
            Error::NotImported => "no imported function with this id",
            Error::NotReplaceable => "cannot replace function",
            Error::Caller(text) => text.as_str(),
        }
    }
}

impl fmt::Display for Error {
    fn fmt<W: fmt::Write>(&self, f: &mut fmt::Formatter<W>) -> fmt::Result {
        f.write_str(self.text())
    }
}

impl error::Error for Error {}

/// The answer of a call that may be refused.
pub type Result<T> = result::Result<T, Error>;

impl From<AllocError> for Error {
    ghost from_gives = { λ e r. r ≡ Memory e };

    fn from(e: AllocError) -> Error {
        Error::Memory(e)
    }
}

impl<T: Drop> From<AllocFailed<T>> for Error {
    ghost from_gives = { λ _ r. r ≡ Memory alloc_error };

    fn from(_e: AllocFailed<T>) -> Error {
        Error::Memory(AllocError)
    }
}

impl From<WireError> for Error {
    ghost from_gives = { λ e r. r ≡ error_of_wire e };

    fn from(e: WireError) -> Error {
        match e {
            WireError::Malformed => Error::InvalidWasm(ErrorKind::InvalidWasm),
            WireError::Memory(refused) => Error::Memory(refused),
            WireError::TooLarge => Error::TooLarge,
        }
    }
}

impl From<IrError> for Error {
    ghost from_gives = { λ e r. r ≡ error_of_ir e };

    fn from(e: IrError) -> Error {
        match e {
            IrError::Malformed => Error::InvalidWasm(ErrorKind::InvalidWasm),
            IrError::Memory(refused) => Error::Memory(refused),
            IrError::NoIndex => Error::NoIndex,
            IrError::NotWritable => Error::NotWritable,
            IrError::TooLarge => Error::TooLarge,
        }
    }
}
