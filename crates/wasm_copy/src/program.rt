//! The program as a function of its task and its two streams.

ghost use Rattle.std.specs.Prelude.{IfErr, IfOk, OnOk};
ghost use Rattle.wasm_frames.specs.Record.{sections};
ghost use Rattle.wasm_frames.specs.Frames.{Frames};
ghost use Rattle.wasm_wire.specs.Rules.{Rules};
ghost use Rattle.wasm_copy.specs.Copy.{Copies};
ghost use Rattle.wasm_copy.specs.Program.{Does, IsUnwritten};

use crate::comparing::same_records;
use crate::failure::Failure;
use crate::listing::listing;
use crate::task::Task;
use std::alloc::Global;
use std::io::{Read, Write};
use wasm_frames::{Raw, read_module};
use wasm_wire::{check, written_module};

// The records of a module that keeps the rules.
fn read_checked(alloc: Global, bytes: &[u8]) -> Result<Raw<'_>, Failure>
    ensures frames { IfOk result (λ records. Frames bytes.now (sections records)) }
    ensures rules { IfOk result (λ records. Rules (sections records)) }
{
    let records = read_module(alloc, bytes).map_err(Failure::Reading)?;
    check(alloc, &records).map_err(Failure::Checking)?;
    Ok(records)
}

// Whether the copy reads as these records.
fn compare(alloc: Global, records: &Raw<'_>, copy: &[u8]) -> Result<(), Failure> {
    let again = read_module(alloc, copy).map_err(Failure::ReadingCopy)?;
    if same_records(records, &again) {
        Ok(())
    } else {
        Err(Failure::Differs)
    }
}

// What the program writes for a module.
fn output_for(alloc: Global, task: Task, bytes: &[u8]) -> Result<Vec<u8>, Failure>
    ensures { IfOk result (λ output. Copies task bytes.now output.items) }
{
    let records = read_checked(alloc, bytes)?;
    if task == Task::Read {
        return Ok(Vec::new(alloc));
    }
    if task == Task::Names {
        return listing(alloc, &records).map_err(Failure::Listing);
    }
    let copy = written_module(alloc, &records).map_err(Failure::Writing)?;
    if task == Task::CopyAndCompare {
        compare(alloc, &records, &copy)?;
    }
    Ok(copy)
}

/// Reads all of the input as a module, and writes what the task asks for. Where the module is refused, nothing is written.
pub fn run<R: Read, W: Write>(
    alloc: Global,
    task: Task,
    input: &mut R,
    output: &mut W,
) -> Result<(), Failure>
    ensures does { OnOk result (Does task (R.remaining input.old) (R.remaining input.new)
        (W.contents output.old) (W.contents output.new)) }
    ensures unwritten { IfErr result (IsUnwritten (W.contents output.old) (W.contents output.new)) }
{
    let mut bytes = Vec::new(alloc);
    input.read_to_end(&mut bytes).map_err(Failure::Input)?;
    let copy = output_for(alloc, task, &bytes)?;
    output.write_all(&copy).map_err(Failure::Output)?;
    output.flush().map_err(Failure::Output)
}
