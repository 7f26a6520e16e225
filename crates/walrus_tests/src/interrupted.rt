//! Devices that fail once and would go on then: a run doesn't try again. And a sink that takes all, and can't be flushed.

use std::alloc::Global;
use std::io;
use std::io::{Read, Write};
use std::test::Fail;
use test_support::{bytes_of, demand};
use walrus::tool::{FromRead, FromWrite, command};
use walrus_test_support::{Outcome, ended, refused};

// Two empty functions, of which the second is exported, and what comes of them with this program among the producers.
const INPUT: &str =
    "00 61 73 6D 01 00 00 00 01 04 01 60 00 00 03 03 02 00 00 07 05 01 01 66 00 01 0A 07 02 02 00 0B 02 00 0B";

const OUTPUT: &str =
    "00 61 73 6D 01 00 00 00 01 04 01 60 00 00 03 02 01 00 07 05 01 01 66 00 00 0A 04 01 02 00 0B 00 27 09 70 72 6F 64 75 63 65 72 73 01 0C 70 72 6F 63 65 73 73 65 64 2D 62 79 01 06 77 61 6C 72 75 73 06 30 2E 32 38 2E 30";

/// A reader that gives these bytes one at a time, and is interrupted once, behind so many calls.
#[derive(Drop)]
struct InterruptedReader<'a> {
    left: &'a [u8],
    until: usize,
}

impl Read for InterruptedReader<'_> {
    fn read(&mut self, buffer: &mut [u8]) -> io::Result<usize> {
        if self.until == 0 {
            self.until = usize::MAX;
            return Err(io::Error::from(io::ErrorKind::Interrupted));
        }
        self.until -= 1;
        match self.left {
            [first, rest @ ..] if !buffer.is_empty() => {
                buffer[0] = *first;
                self.left = rest;
                Ok(1)
            }
            _ => Ok(0),
        }
    }
}

/// A writer that takes one byte at a time, is interrupted once, behind so many calls, and says how flushing it ends.
#[derive(Drop)]
struct InterruptedWriter {
    taken: Vec<u8>,
    until: usize,
    is_flushed: bool,
}

impl Write for InterruptedWriter {
    fn write(&mut self, bytes: &[u8]) -> io::Result<usize> {
        if self.until == 0 {
            self.until = usize::MAX;
            return Err(io::Error::from(io::ErrorKind::Interrupted));
        }
        self.until -= 1;
        match bytes {
            [first, ..] => {
                self.taken.push(*first)?;
                Ok(1)
            }
            [] => Ok(0),
        }
    }

    fn flush(&mut self) -> io::Result<()> {
        if self.is_flushed {
            Ok(())
        } else {
            Err(io::Error::from(io::ErrorKind::Other))
        }
    }
}

// What a run answers and writes, whose source is interrupted behind so many calls.
fn run_on_interrupted(alloc: Global, left: &[u8], until: usize) -> Outcome {
    let mut output = Vec::new(alloc);
    let mut errors = Vec::new(alloc);
    let status = command(
        alloc,
        &[],
        &mut FromRead::new(InterruptedReader { left, until }),
        &mut FromWrite::new(&mut output),
        &mut FromWrite::new(&mut errors),
    );
    Outcome {
        status,
        output,
        errors,
    }
}

fn is_not_read_again(alloc: Global, input: &[u8], until: usize) -> bool {
    refused(
        &run_on_interrupted(alloc, input, until),
        1,
        "walrus-gc: read failed\n",
    )
}

// Up to the call that would say that the bytes end.
fn no_read_is_tried_again(alloc: Global, input: &[u8]) -> Result<(), Fail> {
    for until in 0..=input.len() {
        if !is_not_read_again(alloc, input, until) {
            return Err(Fail::new(format_args!("read {until} is interrupted")));
        }
    }
    Ok(())
}

#[test]
fn a_read_that_is_interrupted(rt: HostRuntime) -> Result<(), Fail> {
    let input = bytes_of(rt.alloc(), INPUT)?;
    no_read_is_tried_again(rt.alloc(), &input)
}

// What a run answers and writes, whose sink is interrupted behind so many calls, or can't be flushed.
fn run_into_interrupted(alloc: Global, input: &[u8], until: usize, is_flushed: bool) -> Outcome {
    let mut output = InterruptedWriter {
        taken: Vec::new(alloc),
        until,
        is_flushed,
    };
    let mut errors = Vec::new(alloc);
    let status = command(
        alloc,
        &[],
        &mut FromRead::new(input),
        &mut FromWrite::new(&mut output),
        &mut FromWrite::new(&mut errors),
    );
    Outcome {
        status,
        output: output.taken,
        errors,
    }
}

fn fails_behind(outcome: &Outcome, front: &[u8]) -> bool {
    ended(outcome, 1, "walrus-gc: write failed\n") && outcome.output.as_slice() == front
}

fn no_write_is_tried_again(alloc: Global, input: &[u8], whole: &[u8]) -> Result<(), Fail> {
    for until in 0..whole.len() {
        let (front, _) = whole.split_at(until);
        if !fails_behind(&run_into_interrupted(alloc, input, until, true), front) {
            return Err(Fail::new(format_args!("write {until} is interrupted")));
        }
    }
    Ok(())
}

#[test]
fn a_write_that_is_interrupted(rt: HostRuntime) -> Result<(), Fail> {
    let input = bytes_of(rt.alloc(), INPUT)?;
    let whole = bytes_of(rt.alloc(), OUTPUT)?;
    no_write_is_tried_again(rt.alloc(), &input, &whole)?;
    demand(
        fails_behind(
            &run_into_interrupted(rt.alloc(), &input, 1000, false),
            &whole,
        ),
        "a sink that can't be flushed has all bytes, and the run fails",
    )
}
