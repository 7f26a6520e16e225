//! Where bytes come from and where they go: the two ends of the program, as its contracts see them.

ghost use Rattle.std.specs.Prelude.{◌≡◌, ℕ, ◌+◌, ◌-◌, ◌<◌, ◌≤◌, ◌^◌, Bool, false, true, List, Option, IfOk, OnOk, length, min};
ghost use Rattle.std.specs.Io.KnownBytes.{ReadConsumes, WriteAppends, Keeps};
ghost use Rattle.walrus.specs.Device.{Counts, TakesSome};

use std::io::{Read, Write};

/// A call on a device failed; the device has counted it.
#[derive(Clone, Copy, Debug, PartialEq, Eq)]
pub struct DeviceFailed;

/// Something that bytes are read from. It tells the bytes that are left, where they are known, and counts its
/// failures.
pub trait Source {
    ghost left: { Self → Option (List ℕ) };

    ghost read_failures: { Self → ℕ };

    /// Fills the buffer from its front with the next bytes, and answers how many: 0 only at the end of the bytes,
    /// or where the buffer has no room.
    fn read(&mut self, buffer: &mut [u8]) -> Result<usize, DeviceFailed>
        ensures bound { IfOk result (λ n. n ≤ length buffer.new) }
        ensures bytes { ReadConsumes (left self.old) (left self.new) result buffer.new }
        ensures counts { Counts (read_failures self.old) (read_failures self.new) result };
}

/// Something that bytes are written to. It tells the bytes that it holds, where they are known, and counts its
/// failures, among them a write that takes nothing. It also tells whether it was flushed, and took nothing since.
pub trait Sink {
    ghost held: { Self → Option (List ℕ) };

    ghost write_failures: { Self → ℕ };

    ghost is_flushed: { Self → Bool };

    /// Takes bytes from the front of these, and answers how many: at least one, where there is one.
    fn write(&mut self, bytes: &[u8]) -> Result<usize, DeviceFailed>
        ensures bound { IfOk result (λ n. n ≤ length bytes.now) }
        ensures takes { TakesSome result bytes.now }
        ensures bytes { WriteAppends (held self.old) (held self.new) result bytes.now }
        ensures waits { IfOk result (λ n. 0 < n → is_flushed self.new ≡ false) }
        ensures counts { Counts (write_failures self.old) (write_failures self.new) result };

    /// Passes on what was written.
    fn flush(&mut self) -> Result<(), DeviceFailed>
        ensures bytes { Keeps (held self.old) (held self.new) }
        ensures flushed { OnOk result (is_flushed self.new ≡ true) }
        ensures counts { Counts (write_failures self.old) (write_failures self.new) result };
}

/// A reader of std as a [`Source`].
#[derive(Drop)]
pub struct FromRead<R: Read> {
    reader: R,
    failures: u64,
}

impl<R: Read> FromRead<R> {
    /// The reader, with no failure counted yet.
    pub fn new(reader: R) -> FromRead<R>
        ensures left { ⟦<FromRead<R> as Source>⟧.left result ≡ R.remaining reader }
        ensures failures { ⟦<FromRead<R> as Source>⟧.read_failures result ≡ 0 }
    {
        FromRead {
            reader,
            failures: 0,
        }
    }
}

impl<R: Read> Source for FromRead<R> {
    ghost left = { λ s. R.remaining s.reader };

    ghost read_failures = { λ s. s.failures };

    fn read(&mut self, buffer: &mut [u8]) -> Result<usize, DeviceFailed> {
        match self.reader.read(buffer) {
            Ok(count) => Ok(count),
            Err(_) => {
                self.failures = self.failures.saturating_add(1);
                Err(DeviceFailed)
            }
        }
    }
}

/// A writer of std as a [`Sink`].
#[derive(Drop)]
pub struct FromWrite<W: Write> {
    writer: W,
    failed: u64,
    is_flushed: bool,
}

impl<W: Write> FromWrite<W> {
    /// The writer, with no failure counted yet. It isn't flushed, since the writer may have taken bytes before.
    pub fn new(writer: W) -> FromWrite<W>
        ensures held { ⟦<FromWrite<W> as Sink>⟧.held result ≡ W.contents writer }
        ensures failures { ⟦<FromWrite<W> as Sink>⟧.write_failures result ≡ 0 }
        ensures waits { ⟦<FromWrite<W> as Sink>⟧.is_flushed result ≡ false }
    {
        FromWrite {
            writer,
            failed: 0,
            is_flushed: false,
        }
    }

    // Counts a failure.
    fn count(&mut self) -> DeviceFailed
        ensures { self.new ≡ record self.old { failed = min (self.old.failed + 1) (2 ^ 64 - 1) } }
    {
        self.failed = self.failed.saturating_add(1);
        DeviceFailed
    }
}

impl<W: Write> Sink for FromWrite<W> {
    ghost held = { λ s. W.contents s.writer };

    ghost write_failures = { λ s. s.failed };

    ghost is_flushed = { λ s. s.is_flushed };

    fn write(&mut self, bytes: &[u8]) -> Result<usize, DeviceFailed> {
        self.is_flushed = false;
        match self.writer.write(bytes) {
            Ok(0) if !bytes.is_empty() => Err(self.count()),
            Ok(count) => Ok(count),
            Err(_) => Err(self.count()),
        }
    }

    fn flush(&mut self) -> Result<(), DeviceFailed> {
        match self.writer.flush() {
            Ok(()) => {
                self.is_flushed = true;
                Ok(())
            }
            Err(_) => Err(self.count()),
        }
    }
}
