//! What a second run writes, and what each run leaves as it is.

ghost use Rattle.std.specs.Prelude.{ℕ};
ghost use Rattle.walrus_theorem.specs.Again.{ComesToItself, WritesAgain, NeverTooLarge};
ghost use Rattle.walrus_theorem.specs.SettledForm.{ComesOutSettled, FixedPoints, SettledExamples};
ghost use Rattle.walrus_theorem.specs.Whole.{ComesWholeInForm, WholePoints};

/// What a run wrote comes to itself: a second run, under the same configuration, writes the same bytes, and these never come
/// out too large.
pub fn writes_again()
    ensures itself { ComesToItself }
    ensures again { WritesAgain }
    ensures size { NeverTooLarge }
{}

/// Bytes come to themselves exactly if they are the one spelling of a module in settled form that keeps the rules. What comes
/// out of a run is in this form. One small module is in it, and another isn't.
pub fn fixed_points()
    ensures points { FixedPoints }
    ensures out { ComesOutSettled }
    ensures examples { SettledExamples }
{}

/// The same without gc: bytes come whole to themselves exactly if they are the one spelling of a module that keeps the rules
/// and has the form in which it is written. What comes whole has this form.
pub fn whole_points()
    ensures points { WholePoints }
    ensures out { ComesWholeInForm }
{}
