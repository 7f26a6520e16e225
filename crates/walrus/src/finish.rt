//! What callers do last: what nothing reaches goes, and the module is written.

ghost use Rattle.walrus.specs.Ready.{FinishesReady, IsReady};

use crate::passes::gc;
use std::alloc::Global;
use walrus_module::{CustomSection, Module, Result};

/// The bytes of the module without what its roots don't reach.
///
/// # Errors
///
/// Of a module that is ready (`IsReady`): `TooLarge` only where what is kept has a count or a size past 32 bits, and `Memory`.
pub fn finished(alloc: Global, mut module: Module) -> Result<Vec<u8>>
    ensures { FinishesReady ⟦<dyn CustomSection as CustomSection>⟧ «module» result }
{
    gc::run(alloc, &mut module)?;
    module.emit_wasm(alloc)
}

/// What [`finished`] makes, of a module that is known to be ready, so that nothing dead is looked for a second time.
///
/// # Errors
///
/// `TooLarge` only where what is kept has a count or a size past 32 bits, and `Memory`.
pub fn finished_ready(alloc: Global, mut module: Module) -> Result<Vec<u8>>
    requires { IsReady ⟦<dyn CustomSection as CustomSection>⟧ «module» }
    ensures { FinishesReady ⟦<dyn CustomSection as CustomSection>⟧ «module» result }
{
    gc::run(alloc, &mut module)?;
    module.emit_whole(alloc)
}
