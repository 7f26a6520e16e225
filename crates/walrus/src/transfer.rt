//! Reading all of a source, and writing all of some bytes to a sink.

ghost use Rattle.std.specs.Prelude.{◌≡◌, true, ℕ, ◌+◌, ◌<◌, ◌≤◌, ◌^◌, List, OnOk, OnErr, IfOk, vec_len};
ghost use Rattle.std.specs.Io.KnownBytes.{Consumes, Appends, Keeps, IsAtEnd};
ghost use Rattle.walrus.specs.Device.{WroteFront, Counts};
ghost use Rattle.walrus.specs.Transfer.{CountsRead};

use crate::device::{DeviceFailed, Sink, Source};
use std::alloc::{AllocError, Global};

/// Why not all was read.
#[derive(Debug, Drop)]
pub enum ReadAllError {
    /// The source failed.
    Device,
    /// The bytes found no memory.
    Memory(AllocError),
}

// Room for one read.
fn room(alloc: Global) -> Result<Vec<u8>, AllocError>
    ensures { IfOk result (λ chunk. 0 < vec_len chunk) }
{
    vec![in alloc; 0u8; 65536]
}

/// All bytes that the source has left, up to its end. Refused with `Device` where a read fails, which the source
/// then has counted, and with `Memory` where the bytes find no room.
pub fn read_all<R: Source>(alloc: Global, source: &mut R) -> Result<Vec<u8>, ReadAllError>
    ensures all { IfOk result (λ bytes. Consumes (R.left source.old) (R.left source.new) bytes.items) }
    ensures end { OnOk result (IsAtEnd (R.left source.new)) }
    ensures counts { CountsRead (R.read_failures source.old) (R.read_failures source.new) result }
{
    let mut bytes = Vec::new(alloc);
    let mut chunk = room(alloc).map_err(ReadAllError::Memory)?;
    for _turn in 0..u64::MAX {
        match source.read(&mut chunk) {
            Ok(0) => return Ok(bytes),
            Ok(count) => bytes
                .extend_from_slice(&chunk[..count])
                .map_err(ReadAllError::Memory)?,
            Err(_) => return Err(ReadAllError::Device),
        }
    }
    Err(ReadAllError::Memory(AllocError))
}

/// Writes all of the bytes, and flushes. Where that fails, a beginning of them may have been written.
pub fn write_all<W: Sink>(sink: &mut W, bytes: &[u8]) -> Result<(), DeviceFailed>
    ensures ok { OnOk result (Appends (W.held sink.old) (W.held sink.new) bytes.now) }
    ensures flushed { OnOk result (W.is_flushed sink.new ≡ true) }
    ensures begun { OnErr result (WroteFront (W.held sink.old) (W.held sink.new) bytes.now) }
    ensures counts { Counts (W.write_failures sink.old) (W.write_failures sink.new) result }
{
    let mut rest = bytes;
    while !rest.is_empty() {
        let count = sink.write(rest)?;
        let (_taken, after) = rest.split_at(count);
        rest = after;
    }
    sink.flush()
}
