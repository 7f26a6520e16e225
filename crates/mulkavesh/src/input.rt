//! Where the module comes from: a file, or standard input.

ghost use Rattle.std.specs.Prelude.{◌≡◌, ◌≤◌, IfOk, None, false, length};

use crate::explains::Explains;
use crate::kinds::words_of;
use std::fs::File;
use std::io;
use std::io::Read;
use walrus_tools::{DeviceFailed, Source};

/// A file that is opened at the first read, or standard input.
#[derive(Drop)]
pub(crate) struct Input<'a> {
    rt: &'a HostRuntime,
    // The path of the file, or what people call standard input.
    name: &'a str,
    is_stream: bool,
    file: Option<File>,
    failures: u64,
    trouble: &'static str,
}

impl<'a> Input<'a> {
    /// The file at the path, or standard input where there is none.
    pub(crate) fn new(rt: &'a HostRuntime, path: Option<&'a str>) -> Input<'a> {
        Input {
            rt,
            name: path.unwrap_or("standard input"),
            is_stream: path.is_none(),
            file: None,
            failures: 0,
            trouble: "",
        }
    }

    // Reads from the file, which is opened where it isn't yet, or from standard input.
    fn read_some(&mut self, buffer: &mut [u8]) -> io::Result<usize>
        ensures bound { IfOk result (λ n. n ≤ length buffer.new) }
        ensures same { self.new.failures ≡ self.old.failures }
    {
        if self.is_stream {
            return self.rt.stdin().read(buffer);
        }
        if let Some(file) = &mut self.file {
            return file.read(buffer);
        }
        let mut file = File::open(self.rt, self.name)?;
        let count = file.read(buffer);
        self.file = Some(file);
        count
    }
}

impl<'a> Source for Input<'a> {
    ghost left = { λ s. None };

    ghost read_failures = { λ s. s.failures };

    fn read(&mut self, buffer: &mut [u8]) -> Result<usize, DeviceFailed> {
        match self.read_some(buffer) {
            Ok(count) => Ok(count),
            Err(error) => {
                self.trouble = words_of(&error);
                self.failures = self.failures.saturating_add(1);
                Err(DeviceFailed)
            }
        }
    }
}

impl<'a> Explains for Input<'a> {
    ghost name = { λ s. s.name.now };

    ghost trouble = { λ s. s.trouble.now };

    ghost is_left = { λ s. false };

    fn name(&self) -> &str {
        self.name
    }

    fn trouble(&self) -> &str {
        self.trouble
    }

    fn is_left(&self) -> bool {
        false
    }
}
