//! Laws of the definitions. Nothing runs here: each function is its contract.
//!
//! A clause can't speak of all choices of items (they are no values), so each law is said of the choices that are made:
//! what gc keeps, and all that is live. The lemmas in `proofs/` hold for every choice.

ghost use Rattle.std.specs.Prelude.{ℕ, Option};
ghost use Rattle.walrus_model.specs.Abstract.{Abstract};
ghost use Rattle.walrus_model.specs.Carried.{Carried};
ghost use Rattle.walrus_model.specs.Closed.{NamesAreLive};
ghost use Rattle.walrus_model.specs.Config.{Config};
ghost use Rattle.walrus_model.specs.Examples.{SmallOnes, TwoFunctions};
ghost use Rattle.walrus_model.specs.Follows.{IsWide, KeptFollows, MemoriesRise, ReachedFollows, SetsFollow};
ghost use Rattle.walrus_model.specs.Kept.{Kept};
ghost use Rattle.walrus_model.specs.Laws.{CarriesAll, KeepsShapes, NamesFollow};
ghost use Rattle.walrus_model.specs.Live.{IsLive};
ghost use Rattle.walrus_model.specs.Out.{IsTheSegment, Out, Written};
ghost use Rattle.walrus_model.specs.Reached.{IsLeast};
ghost use Rattle.walrus_model.specs.Renaming.{Renaming, joined};

/// What is reached from the roots of a module holds the roots and all that its items refer to, and lies within every set
/// of items that does both.
pub fn reached_is_least()
    ensures { (m : Abstract) → IsLeast m }
{}

/// Two steps are one step, under the renamings joined: two that take all there is, or what gc keeps and then all of it
/// as it is written, with the one segment that writing may add.
pub fn renamings_compose()
    ensures all { (a b c : Abstract) (r s : Renaming) → CarriesAll r a b → CarriesAll s b c
        → CarriesAll (joined r s) a c }
    ensures kept { (a b c : Abstract) (r s : Renaming) (segment : Option ℕ) → Carried (Kept a) (λ x. ⊥) r a b
        → Carried (IsLive b) (IsTheSegment segment) s b c → Carried (Kept a) (IsTheSegment segment)
        (joined r s) a c }
{}

/// Chosen types keep their shapes ("Types > Recursive Types"): those that come out for a module, and those of a module
/// that is taken whole and names nothing that it lacks.
pub fn shapes_are_kept()
    ensures out { (c : Config) (m n : Abstract) (out : Out c m n) → KeepsShapes (Kept m) out.renaming m n }
    ensures all { (r : Renaming) (a b : Abstract) → NamesAreLive a → CarriesAll r a b
        → KeepsShapes (IsLive a) r a b }
{}

/// What is written in an item under its new number is what was written in it, renamed, for every kind of item.
pub fn names_follow()
    ensures out { (c : Config) (m n : Abstract) (out : Out c m n) → NamesFollow (Kept m) out.renaming m n }
    ensures written { (c : Config) (m n : Abstract) (written : Written c m n)
        → NamesFollow (IsLive m) written.renaming m n }
    ensures all { (r : Renaming) (a b : Abstract) → CarriesAll r a b → NamesFollow (IsLive a) r a b }
{}

/// Where a module is taken whole, an item is reached, or kept, exactly if the item of its new number is, and no other
/// is. Asked for: all that is reached or named is there, what items keep beside what is written in them follows too, and
/// (for what is kept) memories stay in order.
pub fn reached_follows()
    ensures reached { (r : Renaming) (a b : Abstract) → CarriesAll r a b → IsWide (IsLive a) a
        → SetsFollow (IsLive a) r a b → ReachedFollows r a b }
    ensures kept { (r : Renaming) (a b : Abstract) → CarriesAll r a b → IsWide (IsLive a) a
        → SetsFollow (IsLive a) r a b → MemoriesRise r a → KeptFollows r a b }
{}

/// The definitions at work: of a module with two functions gc keeps the exported one, and the module of that one
/// function comes out; and what single definitions say of small modules.
pub fn worked_examples()
    ensures two_functions { TwoFunctions }
    ensures small_ones { SmallOnes }
{}
