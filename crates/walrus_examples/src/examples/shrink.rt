//! A linker's last step: a module without what nothing reaches.

ghost use Rattle.walrus.specs.Modules.Flags.{config_of, defaults};
ghost use Rattle.walrus.specs.Headline.{RunsOn};

use std::alloc::Global;
use walrus::passes::gc;
use walrus::{Module, Result};

/// The bytes of the module without what its roots don't reach.
///
/// # Errors
///
/// `InvalidWasm` only where the bytes are no module that keeps the rules, `TooLarge` only where what is kept has a count or a size past
/// 32 bits, and `Memory`.
pub fn shrink(alloc: Global, bytes: &[u8]) -> Result<Vec<u8>>
    ensures { RunsOn (config_of defaults) bytes.now (λ output. output.items) result }
{
    let mut module = Module::from_buffer(alloc, bytes)?;
    gc::run(alloc, &mut module)?;
    module.emit_wasm(alloc)
}
