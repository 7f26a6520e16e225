//! What a custom section is ("Binary Format > Custom Section").
ghost use Rattle.std.specs.Prelude.{◌≡◌, ℕ, Bool, List, IfOk, OnOk, OnErr};
ghost use Rattle.walrus_base.specs.Operators.{Item};
ghost use Rattle.walrus_code.specs.Indices.{index_of};
ghost use Rattle.walrus_code.specs.Names.{Lookup};
ghost use Rattle.walrus_items.specs.Roots.{with_roots};
ghost use Rattle.walrus_code.specs.Transform.{Transform};
ghost use Rattle.walrus_items.specs.Transform.{transform_of};
ghost use Rattle.walrus_items.specs.Section.{FailsAsSection};

use crate::error::Result;
use crate::roots::Roots;
use crate::transform::CodeTransform;
use walrus_code::IdsToIndices;

/// A custom section of a caller's own ("Binary Format > Custom Section").
///
/// What it means is a set of definitions over its value alone, the ghost members; each method answers by them. A
/// method is refused with `Memory`, or, where the section may refuse, with `Caller` and a text, and with nothing else.
pub trait CustomSection: Drop {
    // The bytes of its name.
    ghost section_name: { Self → List ℕ };

    // All that a transform changes, as bytes of the section's choice.
    ghost state: { Self → List ℕ };

    // The items that it asks to keep, in order.
    ghost own_roots: { Self → List Item };

    // Whether it may refuse a call by a text of its own.
    ghost may_refuse: { Self → Bool };

    // Its data, where items have these indices.
    ghost contents: { Self → Lookup → List ℕ };

    // Its state after the code came to new places.
    ghost state_after: { Self → Transform → List ℕ };

    /// The section's name.
    fn name(&self) -> &str
        ensures { result.now ≡ section_name self.now };

    /// The section's data, which is what stands behind its name, where items have these indices.
    fn data(&self, indices: &IdsToIndices) -> Result<Vec<u8>>
        ensures value { IfOk result (λ bytes. bytes.items ≡ contents self.now (index_of indices.now)) }
        ensures fails { FailsAsSection (may_refuse self.now) result };

    /// Asks to keep what the section refers to, behind what was asked for before, and does nothing else. A section
    /// that refers to nothing answers `Ok(())`. [`Roots`] has no call for types, element segments and data segments, so that none is
    /// asked for.
    fn add_gc_roots(&self, roots: &mut Roots) -> Result<()>
        ensures value { OnOk result (roots.new ≡ with_roots roots.old (own_roots self.now)) }
        ensures fails { FailsAsSection (may_refuse self.now) result };

    /// Follows the code to its new places; the name stays. Refused, the section is as before. A section that names no
    /// place answers `Ok(())`.
    fn apply_code_transform(&mut self, transform: &CodeTransform) -> Result<()>
        ensures value { OnOk result (state self.new ≡ state_after self.old (transform_of transform.now)) }
        ensures same_name { section_name self.new ≡ section_name self.old }
        ensures refused { OnErr result (self.new ≡ self.old) }
        ensures fails { FailsAsSection (may_refuse self.old) result };
}
