//! What the program does, from bytes to bytes: a module without what nothing reaches, as its words ask for.

ghost use Rattle.walrus.specs.Headline.{RunsOn};
ghost use Rattle.walrus.specs.Wanted.{config_wanted};

use std::alloc::Global;
use walrus::tool::smaller_of;
use walrus::{ModuleConfig, Result, Wanted};

/// The bytes of the module without what nothing reaches.
///
/// # Errors
///
/// `InvalidWasm` only where the bytes are no module that keeps the rules, `TooLarge` only where what is kept has a count or a size past
/// 32 bits, and `Memory`.
pub fn gc(alloc: Global, bytes: &[u8], wanted: Wanted) -> Result<Vec<u8>>
    ensures { RunsOn (config_wanted wanted) bytes.now (λ output. output.items) result }
{
    let config = ModuleConfig::of_choices(wanted.names, wanted.producers, wanted.legacy);
    smaller_of(alloc, bytes, &config)
}
