//! The program's work on bytes that stay the caller's: from a slice to a smaller module, or to a report.

ghost use Rattle.walrus.specs.Headline.{RunsOn};
ghost use Rattle.walrus.specs.Reported.{ReportsOn};
ghost use Rattle.walrus_module.specs.Flags.{config_of, flags};

use crate::passes::gc;
use crate::report::report_on;
use std::alloc::Global;
use walrus_module::{ModuleConfig, Result};

/// The bytes of the module without what nothing reaches: what [`run`](crate::tool::run) writes of them.
///
/// # Errors
///
/// `InvalidWasm` only where the bytes are no module that keeps the rules, `TooLarge` only where what is kept has a count or a size past
/// 32 bits, and `Memory`.
pub fn smaller_of(alloc: Global, bytes: &[u8], config: &ModuleConfig) -> Result<Vec<u8>>
    ensures { RunsOn (config_of (flags config.now)) bytes.now (λ output. output.items) result }
{
    let mut module = config.parse(alloc, bytes)?;
    gc::run(alloc, &mut module)?;
    module.emit_whole(alloc)
}

/// The report on the module that the bytes say: what [`report`](crate::tool::report) writes of them.
///
/// # Errors
///
/// `InvalidWasm` only where the bytes are no module that keeps the rules, and `Memory`.
pub fn report_of(alloc: Global, bytes: &[u8], config: &ModuleConfig) -> Result<Vec<u8>>
    ensures { ReportsOn (config_of (flags config.now)) bytes.now (λ text. text.items) result }
{
    let module = config.parse(alloc, bytes)?;
    report_on(alloc, &module)
}
