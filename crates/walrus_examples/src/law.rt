//! The law of moves, as a contract. Nothing runs here.

ghost use Rattle.walrus_examples.specs.Moves.{MovesOnce};

/// No bytes that come to an output have two lists of moves: what [`moves`](crate::moves) promises leaves one.
pub fn moves_once()
    ensures { MovesOnce }
{}
