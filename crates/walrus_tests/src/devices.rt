//! What the tests run the program on.

use std::alloc::Global;
use std::io;
use std::io::{Read, Write};

/// A reader that gives these bytes one at a time, and then fails or ends.
#[derive(Drop)]
pub struct Trickle<'a> {
    pub left: &'a [u8],
    pub fails: bool,
}

impl Read for Trickle<'_> {
    fn read(&mut self, buffer: &mut [u8]) -> io::Result<usize> {
        match self.left {
            [first, rest @ ..] if !buffer.is_empty() => {
                buffer[0] = *first;
                self.left = rest;
                Ok(1)
            }
            [] if self.fails => Err(io::Error::from(io::ErrorKind::Other)),
            _ => Ok(0),
        }
    }
}

/// A writer that takes so many bytes, one at a time, and then fails or takes nothing.
#[derive(Drop)]
pub struct Narrow {
    pub taken: Vec<u8>,
    pub room: usize,
    pub fails: bool,
}

impl Narrow {
    /// Nothing is taken yet.
    pub fn new(alloc: Global, room: usize, fails: bool) -> Narrow {
        Narrow {
            taken: Vec::new(alloc),
            room,
            fails,
        }
    }
}

impl Write for Narrow {
    fn write(&mut self, bytes: &[u8]) -> io::Result<usize> {
        match bytes {
            [first, ..] if self.taken.len() < self.room => {
                self.taken.push(*first)?;
                Ok(1)
            }
            [_, ..] if self.fails => Err(io::Error::from(io::ErrorKind::Other)),
            _ => Ok(0),
        }
    }

    fn flush(&mut self) -> io::Result<()> {
        Ok(())
    }
}
