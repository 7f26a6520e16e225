//! What a call leaves behind: its status, the caller's room, and the length that is told.

ghost use Rattle.std.specs.Prelude.{◌≡◌};
ghost use Rattle.mulkavesh_c.specs.Answer.{Puts, status_of, told_of};

use walrus_tools::Error;

/// The answer stands in front of the room.
const DONE: u32 = 0;
/// The bytes are no module that keeps the rules.
const INVALID: u32 = 1;
/// What is kept has a count or a size past 32 bits.
pub(crate) const TOO_LARGE: u32 = 2;
/// Memory ran out.
pub(crate) const NO_MEMORY: u32 = 3;
/// The room is smaller than the answer, whose length is told.
const NO_ROOM: u32 = 4;
/// A flag isn't known, or the bytes of a list are none.
pub(crate) const UNKNOWN_FLAG: u32 = 5;
/// There is nothing of this name or index that the call could work on, or a NAME fits nothing.
const NOT_FOUND: u32 = 6;

/// What a call made.
#[derive(Drop)]
pub(crate) struct Made {
    /// The bytes, or why there are none.
    pub(crate) answer: Result<Vec<u8>, Error>,
    /// What is told as the length where something isn't found.
    pub(crate) number: usize,
}

impl Made {
    /// This answer, for which no number is told.
    pub(crate) fn of(answer: Result<Vec<u8>, Error>) -> Self
        ensures { (result.answer ≡ answer) × (result.number ≡ 0) }
    {
        Made { answer, number: 0 }
    }
}

/// The status of this refusal.
pub(crate) fn status_of(error: &Error) -> u32
    ensures { result ≡ status_of error.now }
{
    match error {
        Error::InvalidWasm(_) => INVALID,
        Error::TooLarge => TOO_LARGE,
        Error::Memory(_) => NO_MEMORY,
        _ => NOT_FOUND,
    }
}

fn told_of(error: &Error, number: usize) -> usize
    ensures { result ≡ told_of error.now number }
{
    match error {
        Error::NotFound => number,
        _ => 0,
    }
}

/// Nothing is written: the length is none, and this is the status.
pub(crate) fn refused(length: &mut usize, status: u32) -> u32
    ensures status { result ≡ status }
    ensures told { length.new ≡ 0 }
{
    *length = 0;
    status
}

/// Puts what was made in front of the room and tells its length, or tells why not.
pub(crate) fn put(made: Made, output: &mut [u8], length: &mut usize) -> u32
    ensures { Puts made.answer made.number output.old output.new length.new result }
{
    let Made { answer, number } = made;
    let bytes = match answer {
        Ok(bytes) => bytes,
        Err(error) => {
            *length = told_of(&error, number);
            return status_of(&error);
        }
    };
    *length = bytes.len();
    if output.len() < bytes.len() {
        return NO_ROOM;
    }
    let (front, _rest) = output.split_at_mut(bytes.len());
    front.copy_from_slice(&bytes);
    DONE
}
