//! What a debugger or a maker of source maps needs of a linker's last step: where each operator that is left came from.

ghost use Rattle.std.specs.Prelude.{◌≡◌, IfOk, IsOkUnless, map};
ghost use Rattle.walrus.specs.Headline.{RunsOn};
ghost use Rattle.walrus.specs.Modules.Flags.{config_of, defaults};
ghost use Rattle.walrus.specs.Items.Errors.{out_of_memory};
ghost use Rattle.walrus.specs.Items.Transform.{location_of};
ghost use Rattle.walrus_examples.specs.Moves.{TellsMoves};

use std::alloc::Global;
use walrus::passes::gc;
use walrus::{InstrLocId, ModuleConfig, Result};

// The entries as pairs of places.
fn places_of(alloc: Global, entries: &[(InstrLocId, usize)]) -> Result<Vec<(usize, usize)>>
    ensures told { IfOk result (λ places. places.items ≡ map location_of entries.now) }
    ensures fails { IsOkUnless result out_of_memory }
{
    let mut places = Vec::new(alloc);
    'entries: for entry in entries {
        places.push((entry.0.value() as usize, entry.1))?;
    }
    Ok(places)
}

/// The bytes of the module without what its roots don't reach, and the old and the new place of the first byte of each operator that is left,
/// both in bytes from the front of their module, by rising old place. Operators from the place 2^32 - 1 on aren't told of.
///
/// # Errors
///
/// `InvalidWasm` only where the bytes are no module that keeps the rules, `TooLarge` only where what is kept has a count or a size past
/// 32 bits, and `Memory`.
pub fn moves(alloc: Global, bytes: &[u8]) -> Result<(Vec<u8>, Vec<(usize, usize)>)>
    ensures written { RunsOn (config_of defaults) bytes.now (λ r. r.0.items) result }
    ensures moved { IfOk result (λ r. TellsMoves (config_of defaults) bytes.now r.0.items r.1.items) }
{
    let mut config = ModuleConfig::new();
    let mut module = config.preserve_code_transform(true).parse(alloc, bytes)?;
    gc::run(alloc, &mut module)?;
    let (output, transform) = module.emit_wasm_with_transform(alloc)?;
    let places = places_of(alloc, &transform.instruction_map)?;
    Ok((output, places))
}
