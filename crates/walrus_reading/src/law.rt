//! Where what reading asks for comes from, and what it leaves open, as contracts. Nothing runs here.
ghost use Rattle.walrus_reading.specs.Stays.{RulesKeepIndices};
ghost use Rattle.walrus_reading.specs.Told.{NamesTold};
ghost use Rattle.walrus_reading.specs.Unread.{OneUnread};

/// Where each declared item has the place of its index, each index that sections name leads to an item of that number, by the rules on
/// indices.
pub(crate) fn rules_keep_indices()
    ensures { RulesKeepIndices }
{}

/// Two modules that the same bytes are read as, and that are the same but for names, have the same names.
pub fn names_told()
    ensures { NamesTold }
{}

/// Of the same sections, under the same proposals, there is one answer to which function is the first whose body isn't read.
pub fn one_unread()
    ensures { OneUnread }
{}
