//! Devices that fail in mid-stream.

use crate::devices::{Narrow, Trickle};
use std::alloc::Global;
use std::test::Fail;
use test_support::{bytes_of, demand, demand_bytes};
use walrus::tool::{FromRead, FromWrite, command};
use walrus_test_support::{Outcome, ended, refused, words_of};

// Two empty functions, of which the second is exported, and what comes of them.
const INPUT: &str =
    "00 61 73 6D 01 00 00 00 01 04 01 60 00 00 03 03 02 00 00 07 05 01 01 66 00 01 0A 07 02 02 00 0B 02 00 0B";

const OUTPUT: &str =
    "00 61 73 6D 01 00 00 00 01 04 01 60 00 00 03 02 01 00 07 05 01 01 66 00 00 0A 04 01 02 00 0B";

// What a run answers and writes, whose source fails behind these bytes.
fn run_on_failing(alloc: Global, left: &[u8]) -> Outcome {
    let mut output = Vec::new(alloc);
    let mut errors = Vec::new(alloc);
    let status = command(
        alloc,
        &[],
        &mut FromRead::new(Trickle { left, fails: true }),
        &mut FromWrite::new(&mut output),
        &mut FromWrite::new(&mut errors),
    );
    Outcome {
        status,
        output,
        errors,
    }
}

fn is_read_refused(alloc: Global, left: &[u8]) -> bool {
    refused(&run_on_failing(alloc, left), 1, "walrus-gc: read failed\n")
}

fn each_read_is_refused(alloc: Global, whole: &[u8]) -> Result<(), Fail> {
    for length in 0..whole.len() {
        let (front, _) = whole.split_at(length);
        if !is_read_refused(alloc, front) {
            return Err(Fail::new(format_args!("a read fails at byte {length}")));
        }
    }
    Ok(())
}

#[test]
fn a_read_that_fails(rt: HostRuntime) -> Result<(), Fail> {
    let whole = bytes_of(rt.alloc(), INPUT)?;
    each_read_is_refused(rt.alloc(), &whole)
}

// What a run answers and writes, whose sink has this much room.
fn run_into_narrow(alloc: Global, input: &[u8], room: usize, fails: bool) -> Outcome {
    let mut output = Narrow::new(alloc, room, fails);
    let mut errors = Vec::new(alloc);
    let status = command(
        alloc,
        &[],
        &mut FromRead::new(Trickle {
            left: input,
            fails: false,
        }),
        &mut FromWrite::new(&mut output),
        &mut FromWrite::new(&mut errors),
    );
    Outcome {
        status,
        output: output.taken,
        errors,
    }
}

fn is_cut_off(outcome: &Outcome, front: &[u8]) -> bool {
    ended(outcome, 1, "walrus-gc: write failed\n") && outcome.output.as_slice() == front
}

// Whether so much is written, where the sink then fails and where it then takes nothing.
fn is_front_written(alloc: Global, input: &[u8], front: &[u8]) -> bool {
    is_cut_off(&run_into_narrow(alloc, input, front.len(), true), front)
        && is_cut_off(&run_into_narrow(alloc, input, front.len(), false), front)
}

fn each_front_is_written(alloc: Global, input: &[u8], whole: &[u8]) -> Result<(), Fail> {
    for room in 0..whole.len() {
        let (front, _) = whole.split_at(room);
        if !is_front_written(alloc, input, front) {
            return Err(Fail::new(format_args!("a write fails at byte {room}")));
        }
    }
    Ok(())
}

#[test]
fn a_write_that_fails(rt: HostRuntime) -> Result<(), Fail> {
    let input = bytes_of(rt.alloc(), INPUT)?;
    let whole = bytes_of(rt.alloc(), OUTPUT)?;
    each_front_is_written(rt.alloc(), &input, &whole)
}

// The status of a run that can't tell anything.
fn untold_status(
    alloc: Global,
    words: &[String],
    input: &[u8],
    fails: bool,
    output: &mut Narrow,
) -> u8 {
    let mut errors = Narrow::new(alloc, 0, true);
    command(
        alloc,
        words,
        &mut FromRead::new(Trickle { left: input, fails }),
        &mut FromWrite::new(output),
        &mut FromWrite::new(&mut errors),
    )
}

// Fails where a run doesn't write the output, or a second one, whose refusal can't be told, has another status or writes something.
fn write_once(
    alloc: Global,
    words: &[String],
    input: &[u8],
    output: &mut Narrow,
) -> Result<(), Fail> {
    let first = untold_status(alloc, words, input, false, output);
    demand(first == 0, "the status 0")?;
    demand_bytes(alloc, &output.taken, OUTPUT, "first")?;
    let second = untold_status(alloc, words, input, true, output);
    demand(second == 1, "the status 1 of the second")?;
    demand_bytes(alloc, &output.taken, OUTPUT, "behind the second")
}

#[test]
fn one_byte_at_a_time(rt: HostRuntime) -> Result<(), Fail> {
    let input = bytes_of(rt.alloc(), INPUT)?;
    let words = words_of(rt.alloc(), "--no-producers")?;
    let mut output = Narrow::new(rt.alloc(), 1000, true);
    write_once(rt.alloc(), &words, &input, &mut output)
}
