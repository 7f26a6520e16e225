//! Laws that are said once for all index spaces. Nothing runs here: each function is its contract.

ghost use Rattle.std.specs.Prelude.{ℕ, All, AllPairs, Contains, IsSome, List, [], length, None, Option, Some, filter_map, map, option_and_then, option_map, slice_get, ◌++◌, ◌≡◌, ◌<◌, ◌↔◌};
ghost use Rattle.std.specs.List.{AllZip};
ghost use Rattle.std.specs.List.Sorted.{IsPermutation};
ghost use Rattle.wasm_entries.specs.Record as wire;
ghost use Rattle.walrus_base.specs.Arena.{entries, item_at};
ghost use Rattle.walrus_base.specs.Operators.{Functions, Globals, Space, Tables};
ghost use Rattle.walrus_model.specs.Abstract.{Abstract, Defined, Function, Global, ImportedBy, Table, Uninitialised};
ghost use Rattle.walrus_model.specs.Carried.{Carries, In, KeepsApart};
ghost use Rattle.walrus_model.specs.Imported.{IsBrought, brought, import_number, numbered_from};
ghost use Rattle.walrus_model.specs.Kept.{IsImportOf, Kept};
ghost use Rattle.walrus_model.specs.Laws.{CarriesAll};
ghost use Rattle.walrus_model.specs.Customs.{AreIndices};
ghost use Rattle.walrus_model.specs.Live.{Has, IsLive};
ghost use Rattle.walrus_model.specs.Order.{ByImport};
ghost use Rattle.walrus_model.specs.Ordered.{FilledFrom, ListsEach, Ordered, StandsFor};
ghost use Rattle.walrus_model.specs.Pipeline.{Collected, KeepsOnly, ReachedIsLive};
ghost use Rattle.walrus_model.specs.Plan.{AreNumbered, IsImportedIn, IsOwnIn, IsPlan, IsWrittenAlong, Plan, numbers_by};
ghost use Rattle.walrus_model.specs.Refers.{named_by, written_in};
ghost use Rattle.walrus_model.specs.Renaming.{Renaming, renamed_export, renamed_import};
ghost use Rattle.walrus_model.specs.Rules.{Holds, LocalsHold, RulesHold};
ghost use Rattle.walrus_model.specs.Spaces.{SameThing, Thing, look, names_in_thing};

/// The items of a space, as they are looked up, are those of the module's field: what they name, which there are, what a step carries
/// and what gc leaves.
pub fn spaces_agree()
    ensures names { (m : Abstract) (s : Space) (i : ℕ) → written_in m (s, i) ≡ named_by (names_in_thing s)
        (look m s i) }
    ensures live { (m : Abstract) (s : Space) (i : ℕ) → IsLive m (s, i) ↔ IsSome (look m s i) }
    ensures carried { (m n : Abstract) (r : Renaming) → CarriesAll r m n → (s : Space)
        → Carries (In (IsLive m) s) (λ j. ⊥) (r.numbers s) (SameThing r s) (look m s) (look n s) }
    ensures collected { (v w : Abstract) → Collected v w → (s : Space) → KeepsOnly (In (Kept v) s) (look v s)
        (look w s) }
{}

/// What is written along a plan carries all there is, for all spaces at once, and numbers rise along it.
pub fn plans_carry()
    ensures carries { (names : Space → ℕ → Option ℕ) (plan : Plan) (v n : Abstract) (r : Renaming)
        → AreNumbered names plan → IsPlan v plan
        → ((s : Space) (i : ℕ) → r.numbers s i ≡ numbers_by names s i)
        → ((s : Space) → IsWrittenAlong r v n plan s) → (s : Space) → Carries (In (IsLive v) s) (λ j. ⊥)
        (r.numbers s) (SameThing r s) (look v s) (look n s) }
    ensures whole { (names : Space → ℕ → Option ℕ) (plan : Plan) (v n : Abstract) (r : Renaming)
        → AreNumbered names plan → IsPlan v plan
        → ((s : Space) (i : ℕ) → r.numbers s i ≡ numbers_by names s i)
        → ((s : Space) → IsWrittenAlong r v n plan s) → Carries (IsImportOf (IsLive v) v) (λ i. ⊥) r.imports
        (λ i x y. y ≡ renamed_import r x) v.imports n.imports → KeepsApart (IsImportOf (IsLive v) v) r.imports
        → n.exports ≡ map (renamed_export r) v.exports → n.start ≡ option_map (r.numbers Functions) v.start
        → CarriesAll r v n }
    ensures rises { (names : Space → ℕ → Option ℕ) (plan : Plan) (v n : Abstract) (r : Renaming)
        → AreNumbered names plan → IsPlan v plan
        → ((s : Space) (i : ℕ) → r.numbers s i ≡ numbers_by names s i) → (s : Space) (i j : ℕ)
        → IsLive v (s, i) → IsLive v (s, j) → ByImport v s i j → r.numbers s i < r.numbers s j }
{}

/// A plan gives each item that is there one index, and nothing else any; no two items of a space have the same. As many numbers as it holds
/// rise, put in order.
pub fn plans_number()
    ensures indices { (names : Space → ℕ → Option ℕ) (plan : Plan) (v : Abstract) (r : Renaming)
        → AreNumbered names plan → IsPlan v plan
        → ((s : Space) (i : ℕ) → r.numbers s i ≡ numbers_by names s i)
        → AreIndices v r (λ x. names x.0 x.1) }
    ensures one_each { (names : Space → ℕ → Option ℕ) (plan : Plan) (v : Abstract) → AreNumbered names plan
        → IsPlan v plan → (s : Space) (i j k : ℕ) → names s i ≡ Some k → names s j ≡ Some k → i ≡ j }
    ensures rising { (v : Abstract) (plan : Plan) → IsPlan v plan → (s : Space) → (numbers : List ℕ)
        × AllPairs (λ i j. i < j) numbers × All (Has v s) numbers × (length numbers ≡ length (plan s)) }
{}

/// Records of what stands along an order stand for it, where what is written of one thing is the same thing.
pub fn records_stand()
    ensures { (r : Renaming) (v : Abstract) (s : Space) (raw : Thing s → Option (Thing s))
        → ((p : ℕ) (x w : Thing s) → look v s p ≡ Some x → raw x ≡ Some w → SameThing r s p x w)
        → (order : List ℕ) (raws : List (Thing s)) → map Some raws
        ≡ map (λ p. option_and_then raw (look v s p)) order
        → AllZip (StandsFor (SameThing r s) (look v s)) order (map (λ w. w) raws) }
{}

/// Orders of what a module has: the entries of an arena, the same in another order, imported ones and behind them the others; and an
/// arena that is filled thing by thing carries each in its place.
pub fn orders_are_made()
    ensures entries { (slots : List (Option Table)) → Ordered (item_at slots)
        (map (λ e. e.0) (entries slots)) }
    ensures rising { (slots : List (Option Table)) → AllPairs (λ i j. i < j)
        (map (λ e. e.0) (entries slots)) }
    ensures seen { (slots : List (Option Table)) (order : List ℕ) → Ordered (item_at slots) order
        → Ordered (λ i. option_map (λ (t : Table). t) (item_at slots i)) order }
    ensures nothing { Ordered {X = Table} (λ i. None) [] }
    ensures permuted { (v : Abstract) (s : Space) (xs ys : List ℕ) → IsPermutation xs ys
        → Ordered (look v s) xs → Ordered (look v s) ys }
    ensures imported_first { (v : Abstract) (s : Space) (xs ys : List ℕ) → ListsEach (IsImportedIn v s) xs
        → ListsEach (IsOwnIn v s) ys → Ordered (look v s) (xs ++ ys) }
    ensures filled { (r : Renaming) (s : Space) (things : List (Thing s)) (slots : List (Option (Thing s)))
        → ((i : ℕ) → r.numbers s i ≡ i) → FilledFrom (λ x. x) (SameThing r s) 0 things slots
        → Carries (λ i. IsSome (slice_get things i)) (λ j. ⊥) (r.numbers s) (SameThing r s) (slice_get things)
        (λ i. option_map (λ x. x) (item_at slots i)) }
{}

/// Globals in the order of the imports that bring them, and then the others by place, are in order; and records written along an
/// order stand for the items.
pub fn orders_hold()
    ensures globals { (v : Abstract) (imports : List ℕ) (item_of : ℕ → Option ℕ) (local : List ℕ)
        → AllPairs (λ a b. a < b) imports
        → ((a i : ℕ) → item_of a ≡ Some i → option_map (λ (g : Global). g.origin) (v.globals i)
        ≡ Some (ImportedBy a)) → AllPairs (λ i j. i < j) local
        → ((i : ℕ) → Contains local i → option_map (λ (g : Global). g.origin) (v.globals i) ≡ Some Defined)
        → ((i : ℕ) → Contains (filter_map item_of imports) i → (a : ℕ)
        × (option_map (λ (g : Global). g.origin) (v.globals i) ≡ Some (ImportedBy a)))
        → AllPairs (ByImport v Globals) (filter_map item_of imports ++ local) }
    ensures tables { (r : Renaming) (v : Abstract) (slots : List (Option Table)) (raw : Table → Option Table)
        → ((p : ℕ) (x w : Table) → raw x ≡ Some w → SameThing r Tables p x w) → v.tables
        ≡ (λ i. option_map (λ t. t) (item_at slots i)) → (order : List ℕ) (raws : List Table) → map Some raws
        ≡ map (λ p. option_and_then raw (item_at slots p)) order
        → AllZip (StandsFor (SameThing r Tables) (look v Tables)) order raws }
{}

/// What imports bring lies along what they name, for each space.
pub fn imports_bring()
    ensures along { (r : Renaming) (v : Abstract) (s : Space) (order : List ℕ) (ws : List wire.Import)
        → AllZip (λ p e. IsBrought r v p e.0 e.1) order (numbered_from 0 ws)
        → AllZip (StandsFor (SameThing r s) (look v s)) (filter_map (import_number v s) order)
        (brought s ws) }
    ensures whole { (r : Renaming) (v n : Abstract) (plan : Plan) (s : Space) (order local : List ℕ)
        (ws : List wire.Import) (things : List (Thing s)) → plan s ≡ filter_map (import_number v s) order
        ++ local → ((j : ℕ) → look n s j ≡ slice_get (brought s ws ++ things) j)
        → AllZip (λ p e. IsBrought r v p e.0 e.1) order (numbered_from 0 ws)
        → AllZip (StandsFor (SameThing r s) (look v s)) local things → IsWrittenAlong r v n plan s }
{}

/// What gc leaves and what is written of a module that keeps the rules keeps them.
pub fn rules_are_kept()
    ensures collected { (v w : Abstract) → RulesHold (ByImport v) v → Collected v w → ReachedIsLive v
        → ((i : ℕ) (f : Function) → v.functions i ≡ Some f → f.kind ≡ Uninitialised → ⊥)
        → RulesHold (ByImport w) w }
    ensures written { (r : Renaming) (v n : Abstract) → RulesHold (ByImport v) v → CarriesAll r v n
        → ((s : Space) (i j : ℕ) → IsLive v (s, i) → IsLive v (s, j) → ByImport v s i j
        → r.numbers s i < r.numbers s j) → LocalsHold n → Holds n }
{}
