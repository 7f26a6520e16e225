//! The laws of lists of edits, as contracts. Nothing runs here.
ghost use Rattle.walrus_edit_list.specs.Applies.{EditsKeepFine};
ghost use Rattle.walrus_edit_list.specs.Edits.{HasOneList};
ghost use Rattle.walrus_edit_list.specs.Formed.{ReadIsFormed, SetsFormed};

/// Bytes are at most one list of edits.
pub fn one_list()
    ensures { HasOneList }
{}

/// From edit to edit bodies stay well formed, and the names of custom sections free.
pub fn edits_keep_fine()
    ensures { EditsKeepFine }
{}

/// A function that was read into a module's locals and types is well formed there.
pub fn bodies_read_are_formed()
    ensures { ReadIsFormed }
{}

/// Where a body is read and set, all bodies stay well formed.
pub fn sets_stay_formed()
    ensures { SetsFormed }
{}
