//! Which import brings an item, by what the item itself says ("Structure > Modules > Imports").
ghost use Rattle.std.specs.Prelude.{◌≡◌, option_map};
ghost use Rattle.walrus_base.specs.Id.{place};
ghost use Rattle.walrus_contents.specs.View.{parts_view};
ghost use Rattle.walrus_items.specs.Globals.{global_import};
ghost use Rattle.walrus_items.specs.Tags.{tag_import};
ghost use Rattle.walrus_items.specs.Kinds.{imported};
ghost use Rattle.walrus_model.specs.Live.{IsLive};
ghost use Rattle.walrus_model.specs.WellMade.{import_of};
ghost use Rattle.walrus_plan.specs.Origins.{function_import};

use walrus_base::ImportId;
use walrus_contents::Parts;
use walrus_items::{FunctionKind, GlobalKind, ImportKind, TagKind};

/// The import that brings a function of this kind.
pub fn function_import(kind: &FunctionKind) -> Option<ImportId>
    ensures { option_map place result ≡ function_import kind.now }
{
    match kind {
        FunctionKind::Import(imported) => Some(imported.import),
        FunctionKind::Local(_) | FunctionKind::Uninitialized(_) => None,
    }
}

/// The import that brings a global of this kind.
pub fn global_import(kind: &GlobalKind) -> Option<ImportId>
    ensures { option_map place result ≡ global_import kind.now }
{
    match kind {
        GlobalKind::Import(import) => Some(*import),
        GlobalKind::Local(_) => None,
    }
}

/// The import that brings a tag of this kind.
pub fn tag_import(kind: &TagKind) -> Option<ImportId>
    ensures { option_map place result ≡ tag_import kind.now }
{
    match kind {
        TagKind::Import(import) => Some(*import),
        TagKind::Local => None,
    }
}

/// The import that an item says to be brought by.
pub fn import_of(parts: Parts<'_>, kind: ImportKind) -> Option<ImportId>
    requires live { IsLive (parts_view parts) (imported kind) }
    ensures { option_map place result ≡ import_of (parts_view parts.entry) (imported kind) }
{
    match kind {
        ImportKind::Function(id) => function_import(&parts.funcs.get(id).kind),
        ImportKind::Table(id) => parts.tables.get(id).import,
        ImportKind::Memory(id) => parts.memories.get(id).import,
        ImportKind::Global(id) => global_import(&parts.globals.get(id).kind),
        ImportKind::Tag(id) => tag_import(&parts.tags.get(id).kind),
    }
}
