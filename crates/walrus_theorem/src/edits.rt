//! Edits that leave a well-made module well made: of each call that edits, what it does to a module, and what has to be asked.

ghost use Rattle.walrus_theorem.specs.EditLaws.{LeadsLive, CustomGained, CustomLost, CustomSwapped, ExportGained, ExportLost, ExportRenamed, ExportTurned, ImportRenamed, MadeLocal, MadeImported, BodiesSwapped, ItemGained, ImportedGained, ItemLost, ImportedLost};
ghost use Rattle.walrus_theorem.specs.Sound.{WellMadeIsSound};

/// A module is well made just where it is sound throughout: item by item, import by import, export by export.
pub fn well_made_is_sound()
    ensures { WellMadeIsSound }
{}

/// What an item leads to is there where the item is reached, where it is a type, and where nothing on the way keeps what
/// isn't there.
pub fn leads_live()
    ensures { LeadsLive }
{}

/// A custom section is added, taken out, or another one put in its place: under a name that is free.
pub fn customs_edited()
    ensures gained { CustomGained }
    ensures lost { CustomLost }
    ensures swapped { CustomSwapped }
{}

/// An export is added, deleted, renamed, or names another item: under a name that no other has, of an item that is there.
pub fn exports_edited()
    ensures gained { ExportGained }
    ensures lost { ExportLost }
    ensures renamed { ExportRenamed }
    ensures turned { ExportTurned }
{}

/// An import has other names; an imported function becomes local, with a body that reads; a local one becomes imported.
pub fn imports_edited()
    ensures renamed { ImportRenamed }
    ensures made_local { MadeLocal }
    ensures made_imported { MadeImported }
{}

/// Functions have other bodies, which read.
pub fn bodies_swapped()
    ensures { BodiesSwapped }
{}

/// An item is added, alone or with the import that brings it, and is sound; or one that nothing names is deleted.
pub fn items_edited()
    ensures gained { ItemGained }
    ensures imported { ImportedGained }
    ensures lost { ItemLost }
    ensures imported_lost { ImportedLost }
{}
