//! The program's work, over any source and any sink.

ghost use Rattle.std.specs.Prelude.{◌≡◌, OnOk, true};
ghost use Rattle.walrus.specs.Headline.{Runs};
ghost use Rattle.walrus.specs.Reported.{Reports};
ghost use Rattle.walrus.specs.Tool.{CountsReads, CountsWrites};
ghost use Rattle.walrus_module.specs.Flags.{config_of, flags};

pub use crate::command::command;
pub use crate::device::{DeviceFailed, FromRead, FromWrite, Sink, Source};
pub use crate::message::refuse;
pub use crate::slices::{report_of, smaller_of};
pub use crate::transfer::{ReadAllError, read_all, write_all};
use crate::work::{Report, Run, transfer};
use std::alloc::Global;
use walrus_module::{Error, ModuleConfig};

/// Why a run or a report was refused.
#[derive(Debug, Drop)]
pub enum ToolError {
    /// The source failed; it has counted the failure.
    Read,
    /// The sink failed; it has counted the failure. A beginning of the output may have been written.
    Write,
    /// What was read is refused, or memory ran out. Nothing was written.
    Module(Error),
}

/// Reads all of the source as a module, drops what nothing reaches, writes what is left to the sink, and flushes.
pub fn run<R: Source, W: Sink>(
    alloc: Global,
    source: &mut R,
    sink: &mut W,
    config: &ModuleConfig,
) -> Result<(), ToolError>
    ensures headline { Runs (config_of (flags config.now)) (R.left source.old) (R.left source.new)
        (W.held sink.old) (W.held sink.new) result }
    ensures flushed { OnOk result (W.is_flushed sink.new ≡ true) }
    ensures reads { CountsReads (R.read_failures source.old) (R.read_failures source.new) result }
    ensures writes { CountsWrites (W.write_failures sink.old) (W.write_failures sink.new) result }
{
    let is_last = false;
    transfer(alloc, source, sink, &Run { config, is_last })
}

// The same as the last thing that the process does: the module's memory is left to the system.
pub(crate) fn run_last<R: Source, W: Sink>(
    alloc: Global,
    source: &mut R,
    sink: &mut W,
    config: &ModuleConfig,
) -> Result<(), ToolError>
    ensures headline { Runs (config_of (flags config.now)) (R.left source.old) (R.left source.new)
        (W.held sink.old) (W.held sink.new) result }
    ensures flushed { OnOk result (W.is_flushed sink.new ≡ true) }
    ensures reads { CountsReads (R.read_failures source.old) (R.read_failures source.new) result }
    ensures writes { CountsWrites (W.write_failures sink.old) (W.write_failures sink.new) result }
{
    let is_last = true;
    transfer(alloc, source, sink, &Run { config, is_last })
}

/// Reads all of the source as a module, writes to the sink how many of its items [`run`] keeps and how many it drops, and flushes. Nothing is
/// dropped.
///
/// The text has seven lines, `functions kept 1 dropped 2` and the like, for functions, tables, memories, tags, globals, element segments
/// (`elements`) and data segments (`data`), imported items among them.
pub fn report<R: Source, W: Sink>(
    alloc: Global,
    source: &mut R,
    sink: &mut W,
    config: &ModuleConfig,
) -> Result<(), ToolError>
    ensures headline { Reports (config_of (flags config.now)) (R.left source.old) (R.left source.new)
        (W.held sink.old) (W.held sink.new) result }
    ensures flushed { OnOk result (W.is_flushed sink.new ≡ true) }
    ensures reads { CountsReads (R.read_failures source.old) (R.read_failures source.new) result }
    ensures writes { CountsWrites (W.write_failures sink.old) (W.write_failures sink.new) result }
{
    transfer(alloc, source, sink, &Report { config })
}
