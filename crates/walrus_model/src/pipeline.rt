//! What gc leaves. Nothing runs here: each function is its contract.

ghost use Rattle.walrus_model.specs.Pipeline.{CollectedOnce};

/// What gc leaves is all reached, or the memory that stays with data, and imports of that: a second run deletes nothing.
pub fn collected_once()
    ensures { CollectedOnce }
{}
