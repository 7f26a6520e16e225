//! A caller's function that tells where operators came from.

use walrus_code::InstrLocId;

/// A caller's function: the location of an operator whose first byte stands at this place of the input, in bytes from its front.
pub type OnInstrLoc = Box<dyn Fn(&usize) -> InstrLocId>;

/// A caller's function, kept.
#[derive(Drop)]
pub struct LocationHook {
    pub(crate) call: OnInstrLoc,
    ghost callable: { OnInstrLoc.IsAlwaysCallable call },
}
