//! One order from its source to its sink, and what is told of it.

ghost use Rattle.std.specs.Prelude.{◌≡◌, IfErr, OnOk, true};
ghost use Rattle.mulkavesh.specs.Cause.{SaysRefused, answer_of};
ghost use Rattle.mulkavesh.specs.Command.{Carries, FindsRead, RunsAndTells, Prints, TellsUnlessLeft, device_of, unaccepted_text};
ghost use Rattle.mulkavesh.specs.Subcommands.{AnswersOrder};
ghost use Rattle.mulkavesh.specs.Message.{line};
ghost use Rattle.walrus_tools.specs.Facade.{CountsReads, CountsWrites, Tells, stream_of};

use crate::cause::{Cause, said_of, text_said};
use crate::explains::Explains;
use crate::message::{refuse, refuse_in};
use crate::order::{Order, Work};
use crate::subcommands::{Made, make};
use std::alloc::Global;
use walrus_tools::{Error, ReadAllError, Sink, Source, read_all, write_all};

// Reads all of the source, and writes what the order makes of it to the sink.
fn carry<R: Source, W: Sink>(
    alloc: Global,
    order: &Order,
    input: &mut R,
    output: &mut W,
) -> Result<Made, Cause>
    ensures headline { Carries (AnswersOrder order.now) (R.left input.old) (R.left input.new)
        (W.held output.old) (W.held output.new) (answer_of result) }
    ensures found { IfErr result (FindsRead (AnswersOrder order.now) (R.left input.old) (R.left input.new)
        (W.held output.old) (W.held output.new) (SaysRefused order.now)) }
    ensures flushed { OnOk result (W.is_flushed output.new ≡ true) }
    ensures reads { CountsReads (R.read_failures input.old) (R.read_failures input.new) (answer_of result) }
    ensures writes { CountsWrites (W.write_failures output.old) (W.write_failures output.new)
        (answer_of result) }
{
    let bytes = match read_all(alloc, input) {
        Ok(bytes) => bytes,
        Err(ReadAllError::Device) => return Err(Cause::Read),
        Err(ReadAllError::Memory(error)) => return Err(Cause::Refused(Error::Memory(error), None)),
    };
    let answer = match make(alloc, order, &bytes) {
        Ok(answer) => answer,
        Err(error) => {
            let said = said_of(alloc, order, &bytes, &error);
            return Err(Cause::Refused(error, said));
        }
    };
    drop(bytes);
    match write_all(output, &answer.output) {
        Ok(()) => Ok(answer),
        Err(_) => Err(Cause::Write),
    }
}

/// Writes a text to the sink, and answers the status: 0, or 1 where that failed, which is told unless its reader went away.
pub(crate) fn say<W: Sink + Explains, E: Sink>(output: &mut W, errors: &mut E, text: &str) -> u8
    ensures { Prints text.now
        (device_of W.held W.write_failures W.name W.trouble W.is_left output.old output.new)
        (stream_of E.held E.write_failures errors.old errors.new) result }
{
    match write_all(output, text.as_bytes()) {
        Ok(()) => 0,
        Err(_) => unwritten(output, errors),
    }
}

// Tells that the sink failed, unless its reader went away.
fn unwritten<W: Explains, E: Sink>(output: &W, errors: &mut E) -> u8
    ensures status { result ≡ 1 }
    ensures told { TellsUnlessLeft (W.is_left output.now) (line (W.name output.now) (W.trouble output.now))
        (stream_of E.held E.write_failures errors.old errors.new) }
{
    if output.is_left() {
        return 1;
    }
    refuse(errors, output.name(), output.trouble())
}

// Tells what is noted of bytes that aren't accepted: of `check` in a line with the source's name, and else as it stands.
fn unaccepted<E: Sink>(errors: &mut E, work: Work, name: &str, note: &[u8]) -> u8
    ensures status { result ≡ 1 }
    ensures told { Tells (stream_of E.held E.write_failures errors.old errors.new)
        (unaccepted_text work name.now note.now) }
{
    match work {
        Work::Check => refuse_in(errors, name, note),
        _ => {
            let _told = write_all(errors, note);
            1
        }
    }
}

/// Runs one order: reads all of the source, writes what is made of it to the sink, and tells of a refusal in one line. The answer is the status: 0
/// where all was written, 1 where it was refused, or where the module that was checked isn't accepted. Where the reader of the sink went away,
/// nothing is told.
pub(crate) fn command<R: Source + Explains, W: Sink + Explains, E: Sink>(
    alloc: Global,
    order: &Order,
    input: &mut R,
    output: &mut W,
    errors: &mut E,
) -> u8
    ensures runs { RunsAndTells (AnswersOrder order.now) order.now.work (SaysRefused order.now)
        (device_of R.left R.read_failures R.name R.trouble R.is_left input.old input.new)
        (device_of W.held W.write_failures W.name W.trouble W.is_left output.old output.new)
        (stream_of E.held E.write_failures errors.old errors.new) result (W.is_flushed output.new) }
    ensures flushed { result ≡ 0 → W.is_flushed output.new ≡ true }
{
    match carry(alloc, order, input, output) {
        Ok(answer) if answer.is_refused => unaccepted(
            errors,
            order.work,
            input.name(),
            &answer.note,
        ),
        Ok(answer) => {
            let _told = write_all(errors, &answer.note);
            0
        }
        Err(Cause::Read) => refuse(errors, input.name(), input.trouble()),
        Err(Cause::Write) => unwritten(output, errors),
        Err(Cause::Refused(error, said)) => {
            refuse_in(errors, input.name(), text_said(order.work, &error, &said))
        }
    }
}
