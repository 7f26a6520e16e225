//! Adding an item together with the import that brings it ("Structure > Modules > Imports").
ghost use Rattle.std.specs.Prelude.{◌≡◌, Some, None};
ghost use Rattle.walrus_base.specs.Id.{place};
ghost use Rattle.walrus_base.specs.Value.{ref_type, val_type};
ghost use Rattle.walrus_items.specs.Functions.{functions};
ghost use Rattle.walrus_items.specs.Imports.{imports};
ghost use Rattle.walrus_items.specs.declared.function_kind.FunctionKind.TheVariants as functions;
ghost use Rattle.walrus_items.specs.declared.kinds.ImportKind.TheVariants.{Function, Table, Memory, Global, Tag};
ghost use Rattle.walrus_items.specs.Tables.{tables};
ghost use Rattle.walrus_items.specs.Memories.{memories};
ghost use Rattle.walrus_items.specs.Tags.{tags};
ghost use Rattle.walrus_items.specs.Globals.{globals};
ghost use Rattle.walrus_module.specs.Imported.{AddsImported, imported_global, imported_memory, imported_table};

use crate::module::Module;
use walrus_base::{
    FunctionId, GlobalId, ImportId, MemoryId, RefType, TableId, TagId, TypeId, ValType,
};
use walrus_items::{ImportKind, Result};

impl<S> Module<S> {
    /// Imports a function of this type by the name of its module and its own. Answers the ids of the function and of the import,
    /// which name each other. `Memory` is the only error; then nothing changes.
    pub fn add_import_func(
        &mut self,
        module: &str,
        name: &str,
        ty: TypeId,
    ) -> Result<(FunctionId, ImportId)>
        ensures added { AddsImported result (functions self.old.funcs) (functions self.new.funcs)
            (imports self.old.imports) (imports self.new.imports) «module».now name.now
            (λ own «import». record {
              id = own;
              kind = functions.Import (record { ty = ty; import = «import» });
              name = None;
            }) Function }
        ensures others { self.new ≡ record self.old { imports = self.new.imports; funcs = self.new.funcs } }
    {
        self.funcs.reserve(1)?;
        let id = self.funcs.next_id();
        let import = self.imports.add(module, name, ImportKind::Function(id))?;
        self.funcs.add_import(ty, import)?;
        Ok((id, import))
    }

    /// Imports a table of these limits and elements by the name of its module and its own. Answers the ids of the table and of the import,
    /// which name each other. `Memory` is the only error; then nothing changes.
    pub fn add_import_table(
        &mut self,
        module: &str,
        name: &str,
        table64: bool,
        initial: u64,
        maximum: Option<u64>,
        ty: RefType,
    ) -> Result<(TableId, ImportId)>
        ensures added { AddsImported result (tables self.old.tables) (tables self.new.tables)
            (imports self.old.imports) (imports self.new.imports) «module».now name.now
            (imported_table table64 initial maximum (ref_type ty)) Table }
        ensures others { self.new ≡ record self.old { imports = self.new.imports; tables = self.new.tables } }
    {
        self.tables.reserve(1)?;
        let id = self.tables.next_id();
        let import = self.imports.add(module, name, ImportKind::Table(id))?;
        self.tables
            .add_import(table64, initial, maximum, ty, import)?;
        Ok((id, import))
    }

    /// Imports a memory of these limits, in pages by the name of its module and its own. Answers the ids of the memory and of the import,
    /// which name each other. `Memory` is the only error; then nothing changes.
    pub fn add_import_memory(
        &mut self,
        module: &str,
        name: &str,
        shared: bool,
        memory64: bool,
        initial: u64,
        maximum: Option<u64>,
        page_size_log2: Option<u32>,
    ) -> Result<(MemoryId, ImportId)>
        ensures added { AddsImported result (memories self.old.memories) (memories self.new.memories)
            (imports self.old.imports) (imports self.new.imports) «module».now name.now
            (imported_memory shared memory64 initial maximum page_size_log2) Memory }
        ensures others { self.new
            ≡ record self.old { imports = self.new.imports; memories = self.new.memories } }
    {
        self.memories.reserve(1)?;
        let id = self.memories.next_id();
        let import = self.imports.add(module, name, ImportKind::Memory(id))?;
        self.memories
            .add_import(shared, memory64, initial, maximum, page_size_log2, import)?;
        Ok((id, import))
    }

    /// Imports a global of this type by the name of its module and its own. Answers the ids of the global and of the import,
    /// which name each other. `Memory` is the only error; then nothing changes.
    pub fn add_import_global(
        &mut self,
        module: &str,
        name: &str,
        ty: ValType,
        mutable: bool,
        shared: bool,
    ) -> Result<(GlobalId, ImportId)>
        ensures added { AddsImported result (globals self.old.globals) (globals self.new.globals)
            (imports self.old.imports) (imports self.new.imports) «module».now name.now
            (imported_global (val_type ty) mutable shared) Global }
        ensures others { self.new
            ≡ record self.old { imports = self.new.imports; globals = self.new.globals } }
    {
        self.globals.reserve(1)?;
        let id = self.globals.next_id();
        let import = self.imports.add(module, name, ImportKind::Global(id))?;
        self.globals.add_import(ty, mutable, shared, import)?;
        Ok((id, import))
    }

    /// Imports a tag of this type by the name of its module and its own. Answers the ids of the tag and of the import,
    /// which name each other. `Memory` is the only error; then nothing changes.
    pub fn add_import_tag(
        &mut self,
        module: &str,
        name: &str,
        ty: TypeId,
    ) -> Result<(TagId, ImportId)>
        ensures added { AddsImported result (tags self.old.tags) (tags self.new.tags)
            (imports self.old.imports) (imports self.new.imports) «module».now name.now
            (λ own «import». record {
              id = own;
              ty = place ty;
              imported_by = Some (place «import»);
              name = None;
            }) Tag }
        ensures others { self.new ≡ record self.old { imports = self.new.imports; tags = self.new.tags } }
    {
        self.tags.reserve(1)?;
        let id = self.tags.next_id();
        let import = self.imports.add(module, name, ImportKind::Tag(id))?;
        self.tags.add_import(ty, import)?;
        Ok((id, import))
    }
}
