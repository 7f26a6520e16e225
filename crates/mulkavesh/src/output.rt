//! Where the answer goes: a file, which is written whole or not at all, or standard output.

ghost use Rattle.std.specs.Prelude.{◌≡◌, ◌≤◌, ◌+◌, ◌-◌, ◌^◌, IfOk, None, length, min};

use crate::beside::Beside;
use crate::explains::Explains;
use crate::kinds::words_of;
use std::fs::{File, OpenOptions};
use std::io::{Error, ErrorKind, Write};
use std::{fs, io};
use walrus_tools::{DeviceFailed, Sink};

// What bytes are written to.
#[derive(Drop)]
enum Target {
    Unopened,
    Stream,
    Device(File),
    Beside(Beside),
    Finished,
}

/// A file that is opened at the first write and takes its place when it is flushed, or standard output.
#[derive(Drop)]
pub(crate) struct Output<'a> {
    rt: &'a HostRuntime,
    // The path of the file, or what people call standard output.
    name: &'a str,
    target: Target,
    failed: u64,
    is_flushed: bool,
    is_left: bool,
    trouble: &'static str,
}

impl<'a> Output<'a> {
    /// The file at the path, or standard output where there is none.
    pub(crate) fn new(rt: &'a HostRuntime, path: Option<&'a str>) -> Output<'a> {
        let target = match path {
            Some(_) => Target::Unopened,
            None => Target::Stream,
        };
        Output {
            rt,
            name: path.unwrap_or("standard output"),
            target,
            failed: 0,
            is_flushed: false,
            is_left: false,
            trouble: "",
        }
    }

    // Opens what isn't open: beside a plain file a new one, and anything else as it is.
    fn open(&mut self) -> io::Result<()>
        ensures failed { self.new.failed ≡ self.old.failed }
        ensures flushed { self.new.is_flushed ≡ self.old.is_flushed }
    {
        if !matches!(&self.target, Target::Unopened) {
            return Ok(());
        }
        self.target = match fs::metadata(self.rt, self.name) {
            Ok(old) if old.is_dir() => return Err(Error::from(ErrorKind::IsADirectory)),
            Ok(old) if !old.is_file() => {
                Target::Device(OpenOptions::new().write(true).open(self.rt, self.name)?)
            }
            Ok(old) => Target::Beside(Beside::instead(self.rt, self.name, &old)?),
            Err(error) if error.kind() == ErrorKind::NotFound => {
                Target::Beside(Beside::new(self.rt, self.name)?)
            }
            Err(error) => return Err(error),
        };
        Ok(())
    }

    fn write_some(&mut self, bytes: &[u8]) -> io::Result<usize>
        ensures bound { IfOk result (λ n. n ≤ length bytes.now) }
        ensures failed { self.new.failed ≡ self.old.failed }
        ensures flushed { self.new.is_flushed ≡ self.old.is_flushed }
    {
        self.open()?;
        match &mut self.target {
            Target::Unopened | Target::Finished => Ok(0),
            Target::Stream => self.rt.stdout().write(bytes),
            Target::Device(file) => file.write(bytes),
            Target::Beside(beside) => beside.write(bytes),
        }
    }

    // Puts a file in its place, and closes what was opened: what is said afterwards goes to none of it, whatever number the system gave it.
    fn finish(&mut self) -> io::Result<()>
        ensures { self.new.failed ≡ self.old.failed }
    {
        self.open()?;
        if let Target::Stream = &self.target {
            return self.rt.stdout().flush();
        }
        if let Target::Beside(beside) = &mut self.target {
            beside.take_place(self.rt)?;
        }
        self.target = Target::Finished;
        Ok(())
    }

    // Counts a failure, notes what it was, and leaves no file behind.
    fn fail(&mut self, error: &Error) -> DeviceFailed
        ensures { self.new.failed ≡ min (self.old.failed + 1) (2 ^ 64 - 1) }
    {
        if let Target::Beside(beside) = &self.target {
            beside.remove(self.rt);
        }
        self.target = Target::Finished;
        self.failed = self.failed.saturating_add(1);
        self.is_left = error.kind() == ErrorKind::BrokenPipe;
        self.trouble = words_of(error);
        DeviceFailed
    }
}

impl<'a> Sink for Output<'a> {
    ghost held = { λ s. None };

    ghost write_failures = { λ s. s.failed };

    ghost is_flushed = { λ s. s.is_flushed };

    fn write(&mut self, bytes: &[u8]) -> Result<usize, DeviceFailed> {
        self.is_flushed = false;
        match self.write_some(bytes) {
            Ok(0) if !bytes.is_empty() => Err(self.fail(&Error::from(ErrorKind::WriteZero))),
            Ok(count) => Ok(count),
            Err(error) => Err(self.fail(&error)),
        }
    }

    fn flush(&mut self) -> Result<(), DeviceFailed> {
        match self.finish() {
            Ok(()) => {
                self.is_flushed = true;
                Ok(())
            }
            Err(error) => Err(self.fail(&error)),
        }
    }
}

impl<'a> Explains for Output<'a> {
    ghost name = { λ s. s.name.now };

    ghost trouble = { λ s. s.trouble.now };

    ghost is_left = { λ s. s.is_left };

    fn name(&self) -> &str {
        self.name
    }

    fn trouble(&self) -> &str {
        self.trouble
    }

    fn is_left(&self) -> bool {
        self.is_left
    }
}
