//! The law of equality of imports, as a contract.
ghost use Rattle.walrus_items.specs.EqualImports.{ComparesImports};

use crate::imports::Import;

/// Two imports are equal exactly where all their parts are.
pub fn imports_are_equal_by_parts()
    ensures { ComparesImports ⟦<Import as PartialEq>⟧.eq }
{}
