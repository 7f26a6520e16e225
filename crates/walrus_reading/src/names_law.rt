//! What comes of the names of a module.
ghost use Rattle.walrus_reading.specs.Laws.{AddedUncalled, ItemsCalled, LocalsCalled, ModuleCalled, NamesComeOut, OnlyRenamed, SameButNamed};

/// Naming changes names alone.
pub fn only_renamed()
    ensures { OnlyRenamed }
{}

/// A module whose items were named is the same but for its names.
pub fn same_but_named()
    ensures { SameButNamed }
{}

/// The module has the last name that is given to it.
pub fn module_called()
    ensures { ModuleCalled }
{}

/// Each item that was read has the last name that is given to it, or one that is made of its index.
pub fn items_called()
    ensures { ItemsCalled }
{}

/// A type that was added has no name.
pub fn added_uncalled()
    ensures { AddedUncalled }
{}

/// Each local has the last name that is given to it, or one that is made of its index.
pub fn locals_called()
    ensures { LocalsCalled }
{}

/// A module that was parsed with nothing named is, once its names are there, the module that was read with all names that are given to it.
pub fn names_come_out()
    ensures { NamesComeOut }
{}
