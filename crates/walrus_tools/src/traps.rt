//! A body that traps.

ghost use Rattle.std.specs.Prelude.{◌≡◌, ◌++◌, ◌∷◌, [], MatchResult};
ghost use Rattle.walrus.specs.Ir.Instructions.{unreachable_op};
ghost use Rattle.walrus.specs.Ir.Sequence.{built};
ghost use Rattle.walrus.specs.Items.Errors.{out_of_memory};

use walrus::{InstrSeqBuilder, Result};

/// Puts a trap behind what was built.
///
/// # Errors
///
/// `Memory` alone.
pub fn put_trap(body: &mut InstrSeqBuilder) -> Result<()>
    ensures { MatchResult result (λ _. built body.new ≡ built body.old ++ unreachable_op ∷ [])
        (λ e. e ≡ out_of_memory) }
{
    body.unreachable()?;
    Ok(())
}
