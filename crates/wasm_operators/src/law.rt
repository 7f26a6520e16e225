//! The laws of operators, as contracts.

ghost use Rattle.std.specs.Prelude.{◌≡◌, ℕ, List, ◌++◌, true};
ghost use Rattle.wasm_forms.specs.Grammar.{Is, HasOneReading};
ghost use Rattle.wasm_forms.specs.Number.{AreBytes};
ghost use Rattle.wasm_operators.specs.Forms.{operator};
ghost use Rattle.wasm_operators.specs.Operators.{Op};
ghost use Rattle.wasm_operators.specs.Spelling.{op_bytes};
ghost use Rattle.wasm_operators.specs.Standing.{OpStands, spells};

/// What is written for an operator that bytes spell is a text of the grammar with that value.
pub fn operator_spelling_stands()
    ensures { (o : Op) → OpStands o → spells o ≡ true → Is operator (op_bytes o) o }
{}

/// Two operators in front of equal bytes are the same, with the same bytes behind them.
pub fn one_operator()
    ensures { HasOneReading (Is operator) }
{}

/// An operator that bytes are a text of is one that bytes spell, and its numbers are in their ranges.
pub fn read_operators_stand()
    ensures { (bytes : List ℕ) (o : Op) → AreBytes bytes → Is operator bytes o → (spells o ≡ true)
        × OpStands o }
{}
