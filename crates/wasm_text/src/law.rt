//! Laws of bytes with marks, as the contracts of functions that do nothing.

ghost use Rattle.std.specs.Prelude.{List, ℕ, ◌≡◌, ◌-◌, ◌<◌, ◌≤◌, ◌^◌, ◌∷◌, [], ◌++◌, length, map};
ghost use Rattle.wasm_forms.specs.Grammar.{U32};
ghost use Rattle.wasm_forms.specs.Number.{AreBytes};
ghost use Rattle.wasm_operators.specs.Forms.{block_type};
ghost use Rattle.wasm_operators.specs.Operators.{Op};
ghost use Rattle.wasm_operators.specs.declared.operator.RawBlock.TheVariants.{OfType};
ghost use Rattle.wasm_operators.specs.declared.operator.RawArg.{RawArg as Arg};
ghost use Rattle.wasm_text.specs.Places.{between, IfPlace, IsNumberAt, IsPast, Stands};
ghost use Rattle.wasm_text.specs.Scans.{HasOperator};
ghost use Rattle.wasm_text.specs.declared.limits.Limits.{Limits as Limited};
ghost use Rattle.wasm_text.specs.Marks.{AreInOrder, Holds, HoldsOne, all_args, args_at, fill, shifted, with};
ghost use Rattle.wasm_text.specs.Filling.{HasNumber, Numbering, SomeLacks, anew};
ghost use Rattle.wasm_forms.specs.Spelling.{row_bytes};
ghost use Rattle.wasm_forms.specs.Writing.{EachFits};
ghost use Rattle.wasm_operators.specs.Spelling.{op_bytes};

/// A number below 2^32 that stands in front of the place behind it is a u32.
pub fn small_numbers_stand()
    ensures { (bytes : List ℕ) (at behind value : ℕ) → IsPast bytes at 5 behind → IsNumberAt bytes at value
        → value < 2 ^ 32 → IfPlace behind (Stands U32 bytes at behind value) }
{}

/// What stands in front of the first mark is copied.
pub fn runs_are_copied()
    ensures { (f : Arg → Arg) (bytes : List ℕ) (from start : ℕ) (marks : List ℕ) → from ≤ start
        → AreInOrder bytes start marks
        → between from start bytes ++ fill f bytes start marks ≡ fill f bytes from marks }
{}

/// Where the arguments of the first marks end within the bytes in front, these are filled without what stands behind them.
pub fn filled_behind_filled()
    ensures { (f : Arg → Arg) (bytes more : List ℕ) (from : ℕ) (marks marks' : List ℕ)
        → AreInOrder bytes from marks → AreInOrder (bytes ++ more) (length bytes) marks'
        → fill f (bytes ++ more) from (marks ++ marks')
        ≡ fill f bytes from marks ++ fill f (bytes ++ more) (length bytes) marks' }
{}

/// No bytes are no operators, with no marks.
pub fn nothing_is_held()
    ensures { Holds [] [] [] }
{}

/// An operator behind operators: its marks are counted from where these begin.
pub fn operator_behind_held()
    ensures { (bytes marks more marks' : List ℕ) (texts : List Op) (text : Op)
        → Holds bytes marks texts → HoldsOne more marks' text
        → Holds (bytes ++ more) (marks ++ map (shifted (length bytes)) marks') (texts ++ text ∷ []) }
{}

/// Operators behind operators are operators, with the marks of both.
pub fn held_behind_held()
    ensures { (bytes marks more marks' : List ℕ) (texts texts' : List Op)
        → Holds bytes marks texts → Holds more marks' texts'
        → Holds (bytes ++ more) (marks ++ map (shifted (length bytes)) marks') (texts ++ texts') }
{}

/// An operator that was scanned behind operators is one of them.
pub fn scanned_behind_held()
    ensures { (limits : Limited) (bytes marks new : List ℕ) (at behind : ℕ) (texts : List Op)
        → Holds (between 0 at bytes) marks texts → (found : HasOperator limits bytes at behind marks new)
        → Holds (between 0 behind bytes) new (texts ++ found.text ∷ []) }
{}

/// What is read at a place where a u32 stands is that number.
pub fn standing_numbers_are_read()
    ensures { (bytes : List ℕ) (at behind number value : ℕ) → Stands U32 bytes at behind number
        → IsNumberAt bytes at value → value ≡ number }
{}

/// The same where the type of a block stands that is the index of a type.
pub fn standing_indices_are_read()
    ensures { (bytes : List ℕ) (at behind index value : ℕ) → AreBytes bytes
        → Stands block_type bytes at behind (OfType index) → IsNumberAt bytes at value → value ≡ index }
{}

/// Where each argument at a mark has a new number, each argument of the operators has, and the bytes filled with these numbers are the
/// operators with them.
pub fn filled_operators_are_renamed()
    ensures { (number : Numbering) (bytes marks : List ℕ) (texts : List Op)
        → Holds bytes marks texts → EachFits (HasNumber number) (args_at bytes marks)
        → EachFits (HasNumber number) (all_args texts)
        × (fill (anew number) bytes 0 marks ≡ row_bytes op_bytes (map (with (anew number)) texts)) }
{}

/// Where an argument at a mark has no new number, an argument of the operators has none.
pub fn lacking_marks_are_of_operators()
    ensures { (number : Numbering) (bytes marks : List ℕ) (texts : List Op)
        → Holds bytes marks texts → SomeLacks number (args_at bytes marks)
        → SomeLacks number (all_args texts) }
{}
