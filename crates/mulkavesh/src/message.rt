//! The line in which a refusal is told.

ghost use Rattle.std.specs.Prelude.{◌≡◌, OnErr, OnOk};
ghost use Rattle.std.specs.Io.KnownBytes.{Appends};
ghost use Rattle.mulkavesh.specs.Message.{line};
ghost use Rattle.mulkavesh.specs.Visible.{shown};
ghost use Rattle.walrus_tools.specs.Facade.{Counts, Tells, WroteFront, stream_of};

use crate::visible::front_shown;
use walrus_tools::{DeviceFailed, Sink, write_all};

/// Writes a text as people see it.
pub(crate) fn write_shown<E: Sink>(errors: &mut E, text: &[u8]) -> Result<(), DeviceFailed>
    ensures ok { OnOk result (Appends (E.held errors.old) (E.held errors.new) (shown text.now)) }
    ensures begun { OnErr result
        (WroteFront (E.held errors.old) (E.held errors.new) (shown text.now)) }
    ensures counts { Counts (E.write_failures errors.old) (E.write_failures errors.new) result }
{
    let mut rest = text;
    'pieces: while !rest.is_empty() {
        let (piece, behind) = front_shown(rest);
        write_all(errors, piece)?;
        rest = behind;
    }
    Ok(())
}

// Writes the program's name, of what is told, as people see that, what is told, and a line end.
fn write_line<E: Sink>(errors: &mut E, of: &str, text: &[u8]) -> Result<(), DeviceFailed>
    ensures ok { OnOk result (Appends (E.held errors.old) (E.held errors.new) (line of.now text.now)) }
    ensures begun { OnErr result
        (WroteFront (E.held errors.old) (E.held errors.new) (line of.now text.now)) }
    ensures counts { Counts (E.write_failures errors.old) (E.write_failures errors.new) result }
{
    write_all(errors, b"mulkavesh: ")?;
    write_shown(errors, of.as_bytes())?;
    write_all(errors, b": ")?;
    write_all(errors, text)?;
    write_all(errors, b"\n")
}

/// Tells of a refusal in one line, and answers the status of a refused run. Where the line can't be written, the status is the same.
pub fn refuse_in<E: Sink>(errors: &mut E, of: &str, text: &[u8]) -> u8
    ensures status { result ≡ 1 }
    ensures told { Tells (stream_of E.held E.write_failures errors.old errors.new) (line of.now text.now) }
{
    let _told = write_line(errors, of, text);
    1
}

/// The same of a text.
pub fn refuse<E: Sink>(errors: &mut E, of: &str, text: &str) -> u8
    ensures status { result ≡ 1 }
    ensures told { Tells (stream_of E.held E.write_failures errors.old errors.new) (line of.now text.now) }
{
    refuse_in(errors, of, text.as_bytes())
}
