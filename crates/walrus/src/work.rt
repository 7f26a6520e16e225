//! What is made of the bytes that were read, from the source to the sink: a smaller module, or a report.

ghost use Rattle.std.specs.Prelude.{◌≡◌, ℕ, List, OnOk, true};
ghost use Rattle.walrus.specs.Headline.{Answers, ComesOut, ComesOutTooLarge, Accepts, RunsOn, Transfers};
ghost use Rattle.walrus.specs.Reported.{IsReportOf, ReportsOn};
ghost use Rattle.walrus.specs.Tool.{CountsReads, CountsWrites};
ghost use Rattle.walrus_module.specs.Flags.{config_of, flags};

use crate::device::{Sink, Source};
use crate::passes::gc;
use crate::report::report_on;
use crate::tool::ToolError;
use crate::transfer::{ReadAllError, read_all, write_all};
use std::alloc::Global;
use std::mem::forget;
use walrus_module::{Error, Module, ModuleConfig};

/// What is made of all bytes of a source.
pub(crate) trait Work {
    // This is made of these bytes.
    ghost makes: { Self → List ℕ → List ℕ → Type 0 };

    // These bytes aren't refused as invalid.
    ghost takes: { Self → List ℕ → Type 0 };

    // What would be made of these bytes is too large.
    ghost is_large: { Self → List ℕ → Type 0 };

    /// What is made of these bytes.
    fn make(&self, alloc: Global, bytes: Vec<u8>) -> Result<Vec<u8>, Error>
        ensures { Answers (makes self.now) (takes self.now) (is_large self.now) bytes.items
            (λ output. output.items) result };
}

/// The module without what nothing reaches, under a configuration.
#[derive(Clone, Copy)]
pub(crate) struct Run<'a> {
    pub(crate) config: &'a ModuleConfig,
    // Whether the process ends behind it: the module's memory is left to the system then.
    pub(crate) is_last: bool,
}

impl<'a> Work for Run<'a> {
    ghost makes = { λ s. ComesOut (config_of (flags s.config.now)) };

    ghost takes = { λ s. Accepts (config_of (flags s.config.now)) };

    ghost is_large = { λ s. ComesOutTooLarge (config_of (flags s.config.now)) };

    fn make(&self, alloc: Global, bytes: Vec<u8>) -> Result<Vec<u8>, Error> {
        smaller(alloc, bytes, self.config, self.is_last)
    }
}

/// The report on the module, read under a configuration.
#[derive(Clone, Copy)]
pub(crate) struct Report<'a> {
    pub(crate) config: &'a ModuleConfig,
}

impl<'a> Work for Report<'a> {
    ghost makes = { λ s. IsReportOf (config_of (flags s.config.now)) };

    ghost takes = { λ s. Accepts (config_of (flags s.config.now)) };

    ghost is_large = { λ s bytes. ⊥ };

    fn make(&self, alloc: Global, bytes: Vec<u8>) -> Result<Vec<u8>, Error> {
        reported(alloc, bytes, self.config)
    }
}

// The bytes of the module without what nothing reaches. Its memory isn't given back where that is the last thing.
fn smaller(
    alloc: Global,
    bytes: Vec<u8>,
    config: &ModuleConfig,
    is_last: bool,
) -> Result<Vec<u8>, Error>
    ensures { RunsOn (config_of (flags config.now)) bytes.items (λ output. output.items) result }
{
    let mut module = config.parse_whole(alloc, bytes)?;
    gc::run(alloc, &mut module)?;
    let output = module.emit_whole(alloc);
    let_go(module, is_last);
    output
}

// Gives the module's memory back, unless that is left to the system.
fn let_go(module: Module, is_last: bool) {
    if is_last {
        forget(module);
    } else {
        drop(module);
    }
}

// The report on the module that the bytes say.
fn reported(alloc: Global, bytes: Vec<u8>, config: &ModuleConfig) -> Result<Vec<u8>, Error>
    ensures { ReportsOn (config_of (flags config.now)) bytes.items (λ text. text.items) result }
{
    let module = config.parse(alloc, &bytes)?;
    drop(bytes);
    report_on(alloc, &module)
}

/// Reads all of the source, and writes what is made of it to the sink.
pub(crate) fn transfer<R: Source, W: Sink, T: Work>(
    alloc: Global,
    source: &mut R,
    sink: &mut W,
    work: &T,
) -> Result<(), ToolError>
    ensures headline { Transfers (T.makes work.now) (T.takes work.now) (T.is_large work.now)
        (R.left source.old) (R.left source.new) (W.held sink.old) (W.held sink.new) result }
    ensures flushed { OnOk result (W.is_flushed sink.new ≡ true) }
    ensures reads { CountsReads (R.read_failures source.old) (R.read_failures source.new) result }
    ensures writes { CountsWrites (W.write_failures sink.old) (W.write_failures sink.new) result }
{
    let bytes = match read_all(alloc, source) {
        Ok(bytes) => bytes,
        Err(ReadAllError::Device) => return Err(ToolError::Read),
        Err(ReadAllError::Memory(error)) => return Err(ToolError::Module(Error::Memory(error))),
    };
    let output = match work.make(alloc, bytes) {
        Ok(output) => output,
        Err(error) => return Err(ToolError::Module(error)),
    };
    match write_all(sink, &output) {
        Ok(()) => Ok(()),
        Err(_) => Err(ToolError::Write),
    }
}
