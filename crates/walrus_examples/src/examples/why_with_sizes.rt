//! What a developer asks of a module that is too large: why a function stays, and what each function costs that does.

ghost use Rattle.walrus.specs.Modules.Flags.{config_of, defaults};
ghost use Rattle.walrus_tools.specs.Reasons.{AnswersReason};

use std::alloc::Global;
use walrus::passes::gc;
use walrus::passes::why::chain_to;
use walrus::{ItemId, Module, Result};
use walrus_tools::{Chain, chain_report, function_at};

/// Why the function of this index stays where what nothing reaches goes, and what each function costs that stays: a line for each item of
/// a chain of references that leads to it, a root first, or the one that it isn't reached; and then a line for each function with a body
/// that stays, by rising index, with the bytes of its body in the module that is left. Items are told by their indices in the bytes.
///
/// # Errors
///
/// `InvalidWasm` only where the bytes are no module that keeps the rules, `NotFound` only where the module has no function of this index,
/// `TooLarge` only where what is kept has a count or a size past 32 bits, and `Memory`.
pub fn why_with_sizes(alloc: Global, bytes: &[u8], function: u32) -> Result<String>
    ensures { AnswersReason (config_of defaults) bytes.now function result }
{
    let mut module = Module::from_buffer(alloc, bytes)?;
    let item = ItemId::Function(function_at(&module.funcs, function)?);
    let links = chain_to(alloc, &module, item)?;
    gc::run(alloc, &mut module)?;
    let (output, transform) = module.emit_wasm_with_transform(alloc)?;
    drop(output);
    Ok(chain_report(alloc, &Chain { item, links }, &transform)?)
}
