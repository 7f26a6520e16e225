//! What the calls that edit a module make of the abstract module, so that the laws of edits of `walrus_theorem` tell what stays. Nothing
//! runs here.

ghost use Rattle.walrus_module.specs.Edits.{BodiesSet, CustomAdded, CustomDeleted, CustomSet, DataAdded, DataDeleted, ElementDeleted, ExportAdded, ExportDeleted, ExportSet, ExportedReplaced, FunctionAdded, FunctionDeleted, FunctionImported, FunctionMadeImported, GlobalAdded, GlobalDeleted, HeldHasSegments, ImportReplaced, ImportSet, ImportedReplaced, MemoryDeleted, RawRemoved, TableDeleted, TagDeleted, TypeFound};

use crate::module::Module;
use walrus_base::LocalId;
use walrus_ir::InstrSeqBuilder;
use walrus_items::{CustomSection, Result};

/// A custom section that is [added](crate::ModuleCustomSections::add) stands behind the others of the abstract module, and asks to
/// keep what it asks for. The parameter only names the type of custom sections.
pub fn customs_are_added(_module: &Module)
    ensures { CustomAdded ⟦<dyn CustomSection as CustomSection>⟧ }
{}

/// A custom section that is [deleted](crate::ModuleCustomSections::delete), or [taken out](crate::ModuleCustomSections::remove_raw)
/// by its name, is gone. The parameter only names the type of custom sections.
pub fn customs_are_taken_out(_module: &Module)
    ensures deleted { CustomDeleted ⟦<dyn CustomSection as CustomSection>⟧ }
    ensures removed { RawRemoved ⟦<dyn CustomSection as CustomSection>⟧ }
{}

/// A custom section that is written at its place, as [`get_mut`](crate::ModuleCustomSections::get_mut) lends it, stands where another
/// stood. The parameter only names the type of custom sections.
pub fn customs_are_exchanged(_module: &Module)
    ensures { CustomSet ⟦<dyn CustomSection as CustomSection>⟧ }
{}

/// An export that is added stands behind the others.
pub fn exports_are_added()
    ensures { ExportAdded }
{}

/// An export that is written at its place, as `get_mut` lends it, under another name or for another item, stands where another
/// stood.
pub fn exports_are_exchanged()
    ensures { ExportSet }
{}

/// An export that is deleted is gone.
pub fn exports_are_deleted()
    ensures { ExportDeleted }
{}

/// An import that is written at its place under other names brings what it brought.
pub fn imports_are_renamed()
    ensures { ImportSet }
{}

/// An imported function that is [replaced](crate::Module::replace_imported_func) is local and its import is gone, in a module whose
/// imports and items name each other; its parameters are distinct locals of the types that its type takes. `_build` only names what
/// is built with.
pub fn imported_functions_become_local<
    S,
    F: FnOnce(&mut InstrSeqBuilder, &Vec<LocalId>) -> Result<()>,
>(module: &Module<S>, _build: &F)
    ensures { ImportedReplaced (F.post _build.now) «module».now }
{}

/// So is the function of an import that is [replaced](crate::Module::replace_import). `_build` only names what is built with.
pub fn brought_functions_become_local<
    S,
    F: FnOnce(&mut InstrSeqBuilder, &Vec<LocalId>) -> Result<()>,
>(module: &Module<S>, _build: &F)
    ensures { ImportReplaced (F.post _build.now) «module».now }
{}

/// A function with a body that is written as imported, by an import that is added, is imported.
pub fn local_functions_become_imported()
    ensures { FunctionMadeImported }
{}

/// Where an exported function is [replaced](crate::Module::replace_exported_func) another one came, and its export names that.
/// `_build` only names what is built with.
pub fn exported_functions_are_replaced<
    S,
    F: FnOnce(&mut InstrSeqBuilder, &Vec<LocalId>) -> Result<()>,
>(module: &Module<S>, _build: &F)
    ensures { ExportedReplaced (F.post _build.now) «module».now }
{}

/// Functions that are written with other bodies, of their types, have these; locals may come.
pub fn bodies_are_exchanged()
    ensures { BodiesSet }
{}

/// A function with a body that is added stands behind the others. So does one that is [imported](crate::Module::add_import_func),
/// and its import.
pub fn functions_are_added()
    ensures local { FunctionAdded }
    ensures imported { FunctionImported }
{}

/// A type of functions that is found or added is there, alone in its group.
pub fn types_are_found()
    ensures { TypeFound }
{}

/// A global that is added, and a data segment, stand behind the others.
pub fn items_are_added()
    ensures global { GlobalAdded }
    ensures segment { DataAdded }
{}

/// An item that is deleted, and that no import brought, is gone.
pub fn items_are_deleted()
    ensures function { FunctionDeleted }
    ensures table { TableDeleted }
    ensures memory { MemoryDeleted }
    ensures tag { TagDeleted }
    ensures global { GlobalDeleted }
    ensures element { ElementDeleted }
    ensures segment { DataDeleted }
{}

/// A module in memory, edited or not, has its list of active segments. So the law of `walrus_theorem` on what engines tell of an edited
/// module and of what it is written as can be begun.
pub fn active_segments_are_listed()
    ensures { HeldHasSegments }
{}
