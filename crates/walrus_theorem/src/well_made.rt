//! Well-made modules in memory, and why they are refused.

ghost use Rattle.walrus_theorem.specs.RefusedLaws.{FewRefusals, FitsNoLimit, OkFits, OkMatches, OkOrTooLarge};
ghost use Rattle.walrus_theorem.specs.WellMadeLaws.{BroughtWell, CollectedWell, LeavesWell, ParsedWell, WellNoCause};

/// Gc and the declared segment keep a module well made, behind the segment nothing is undeclared, and what is well made
/// has no cause to be refused but its size.
pub fn well_made_stays()
    ensures collected { CollectedWell }
    ensures leaves { LeavesWell }
    ensures no_cause { WellNoCause }
{}

/// What is parsed from bytes that keep the rules is well made, and so is all that the steps bring it to.
pub fn parsed_well()
    ensures well { ParsedWell }
    ensures brought { BroughtWell }
{}

/// To write a well-made module is refused only for lack of memory, for its size, or where one of its own sections
/// refuses; and what may be written isn't too large. In any module that may be written imports and items
/// name each other, all its sections fit, and where they do, no limit is passed.
pub fn few_refusals()
    ensures refused { FewRefusals }
    ensures size { OkOrTooLarge }
    ensures matches { OkMatches }
    ensures fits { OkFits }
    ensures no_limit { FitsNoLimit }
{}
