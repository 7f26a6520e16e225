//! Laws of the definitions. Nothing runs here: each function is its contract.
ghost use Rattle.walrus_functions.specs.DeclaredLocals.{DeclaredOnce, GroupedOnce};
ghost use Rattle.walrus_functions.specs.Laws.{BodiesReadOnce, UnwritableIsIllFormed, LocalsMove, LocalsMoveBack};

/// No bytes are two bodies (Binary Format > Modules > Code Section).
pub fn bodies_read_once()
    ensures { BodiesReadOnce }
{}

/// What emission refuses as not writable is a body that isn't well formed.
pub fn unwritable_is_ill_formed()
    ensures { UnwritableIsIllFormed }
{}

/// Bytes are the same body, whatever places its locals get.
pub fn locals_move()
    ensures there { LocalsMove }
    ensures back { LocalsMoveBack }
{}

/// A body declares its locals in one order, by one list of declarations.
pub fn declared_in_one_order()
    ensures order { DeclaredOnce }
    ensures groups { GroupedOnce }
{}
