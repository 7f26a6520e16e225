//! The first function of a module whose body isn't read.
ghost use Rattle.std.specs.Prelude.{◌≡◌, ℕ, List, IfOk};
ghost use Rattle.walrus_items.specs.Errors.{out_of_memory};
ghost use Rattle.walrus_reading.specs.Unread.{IsFirstUnread, error_of_unread, unread_of};
ghost use Rattle.walrus_reading.specs.declared.unread.Unread.TheVariants.{Fails};
ghost use Rattle.wasm_frames.specs.Frames.{Frames};
ghost use Rattle.wasm_frames.specs.Record.{sections};
ghost use Rattle.wasm_wire.specs.Rules.{Rules};

use crate::contents::read_functions;
use crate::input::Input;
use crate::numbers::check_room;
use std::alloc::{AllocError, AllocFailed, Global};
use std::result;
use walrus_bodies::Features;
use walrus_code::{IndicesToIds, InstrLocId, IrError};
use walrus_items::{Error, ErrorKind};
use wasm_frames::Raw;

/// Why the functions of a module aren't read.
#[derive(Drop)]
pub enum Unread {
    /// The body of the function of this index isn't read, and all in front of it are.
    Body(usize),
    /// Another refusal: `Memory` is the only one.
    Fails(Error),
}

impl From<Error> for Unread {
    ghost from_gives = { λ e r. r ≡ Fails e };

    fn from(e: Error) -> Unread {
        Unread::Fails(e)
    }
}

impl<T: Drop> From<AllocFailed<T>> for Unread {
    ghost from_gives = { λ _ r. r ≡ Fails out_of_memory };

    fn from(_e: AllocFailed<T>) -> Unread {
        Unread::Fails(Error::Memory(AllocError))
    }
}

impl From<Unread> for Error {
    ghost from_gives = { λ e r. r ≡ error_of_unread e };

    fn from(e: Unread) -> Error {
        match e {
            Unread::Body(_) => Error::InvalidWasm(ErrorKind::InvalidWasm),
            Unread::Fails(e) => e,
        }
    }
}

// Why a function isn't read, where its body is refused by this and its index is this one.
pub fn unread_at(index: usize, e: IrError) -> Unread
    ensures { result ≡ unread_of index e }
{
    match e {
        IrError::Malformed => Unread::Body(index),
        IrError::Memory(refused) => Unread::Fails(Error::Memory(refused)),
        IrError::NoIndex => Unread::Fails(Error::NoIndex),
        IrError::NotWritable => Unread::Fails(Error::NotWritable),
        IrError::TooLarge => Unread::Fails(Error::TooLarge),
    }
}

/// The index of the first function of these sections, which are those of the input, whose body isn't read, where bodies may use these proposals; none
/// where all are read. The functions that imports bring have the first indices, so the body of function f is the one of that number in the code section less these.
/// Records are let go once they are read.
///
/// # Errors
///
/// A request for memory was refused, or imports and functions are too many for indices.
pub fn unread_body(
    alloc: Global,
    input: Input<'_>,
    raw: &mut Raw<'_>,
    features: &Features,
) -> result::Result<Option<usize>, AllocError>
    requires framed { (bytes : List ℕ) × Frames bytes (sections raw.old) }
    requires rules { Rules (sections raw.old) }
    ensures { IfOk result (IsFirstUnread features.now (sections raw.old)) }
{
    let Ok(()) = check_room(raw) else {
        return Err(AllocError);
    };
    let locate = |_place: &usize| -> InstrLocId { InstrLocId::DEFAULT };
    let mut indices = IndicesToIds::new(alloc);
    match read_functions(alloc, input, raw, features, true, &locate, &mut indices) {
        Ok(_) => Ok(None),
        Err(Unread::Body(index)) => Ok(Some(index)),
        Err(Unread::Fails(Error::Memory(refused))) => Err(refused),
        Err(Unread::Fails(_)) => unreachable!(),
    }
}
