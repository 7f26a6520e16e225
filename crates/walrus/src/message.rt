//! What the program says of a refusal.

ghost use Rattle.std.specs.Prelude.{◌≡◌, OnOk, OnErr, ◌++◌, codes};
ghost use Rattle.std.specs.Io.KnownBytes.{Appends};
ghost use Rattle.walrus.specs.Device.{Counts, WroteFront};
ghost use Rattle.walrus.specs.Message.{Tells, line, stream_of};
ghost use Rattle.walrus.specs.Text.{tool_text};

use crate::device::{DeviceFailed, Sink};
use crate::tool::ToolError;
use crate::transfer::write_all;

/// Writes the program's name, the text and a line end. Where that fails, a beginning of the line may have been written.
pub fn write_line<E: Sink>(errors: &mut E, text: &str) -> Result<(), DeviceFailed>
    ensures ok { OnOk result (Appends (E.held errors.old) (E.held errors.new) (line text.now)) }
    ensures begun { OnErr result (WroteFront (E.held errors.old) (E.held errors.new) (line text.now)) }
    ensures counts { Counts (E.write_failures errors.old) (E.write_failures errors.new) result }
{
    write_all(errors, b"walrus-gc: ")?;
    write_all(errors, text.as_bytes())?;
    write_all(errors, b"\n")
}

/// The text of a refusal.
pub fn text_of(error: &ToolError) -> &str
    ensures { result.now ≡ tool_text error.now }
{
    match error {
        ToolError::Read => "read failed",
        ToolError::Write => "write failed",
        ToolError::Module(error) => error.text(),
    }
}

/// Tells of a refusal in one line, and answers the status of a refused run. Where the line can't be written, the status
/// is the same.
pub fn refuse<E: Sink>(errors: &mut E, text: &str) -> u8
    ensures status { result ≡ 1 }
    ensures told { Tells (stream_of E.held E.write_failures errors.old errors.new) (line text.now) }
{
    let _told = write_line(errors, text);
    1
}
