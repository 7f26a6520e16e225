//! The module in memory.

ghost use Rattle.std.specs.Prelude.{◌≡◌, IfOk, IsOkUnless};
ghost use Rattle.walrus_base.specs.Arena.{items};
ghost use Rattle.walrus_items.specs.Errors.{out_of_memory};

use crate::config::ModuleConfig;
use crate::customs::ModuleCustomSections;
use crate::entry::SectionEntry;
use crate::switches::Switches;
use std::alloc::Global;
use walrus_base::{FunctionId, ModuleLocals, ModuleTypes};
use walrus_contents::Contents;
use walrus_items::{
    CustomSection, FunctionIter, ModuleData, ModuleElements, ModuleExports, ModuleFunctions,
    ModuleGlobals, ModuleImports, ModuleMemories, ModuleTables, ModuleTags, Result,
};
use walrus_producers::ModuleProducers;

/// A WebAssembly module ("Structure > Modules"). Its items are named by ids, which stay when other items come and go. `S` is what its
/// custom sections are: what doesn't look at them is there for each.
#[derive(Drop)]
pub struct Module<S = SectionEntry> {
    /// The imports.
    pub imports: ModuleImports,
    /// The tables.
    pub tables: ModuleTables,
    /// The types.
    pub types: ModuleTypes,
    /// The functions.
    pub funcs: ModuleFunctions,
    /// The globals.
    pub globals: ModuleGlobals,
    /// The locals of all local functions.
    pub locals: ModuleLocals,
    /// The exports.
    pub exports: ModuleExports,
    /// The memories.
    pub memories: ModuleMemories,
    /// The tags.
    pub tags: ModuleTags,
    /// The element segments.
    pub elements: ModuleElements,
    /// The data segments.
    pub data_: ModuleData,
    /// The start function, if there is one.
    pub start: Option<FunctionId>,
    /// The producers: what made the module (tool-conventions, "Producers Section").
    pub producers: ModuleProducers,
    /// The module's name, if it has one (Appendix > Custom Sections > Name Section).
    pub name: Option<String>,
    /// The custom sections.
    pub customs: ModuleCustomSections<S>,
    pub(crate) switches: Switches,
}

impl<S> Module<S> {
    ghost use Rattle.walrus_items.specs.Functions.{functions, functions_left};

    /// The functions, imported ones too, by rising id.
    pub fn functions(&self) -> FunctionIter<'_>
        ensures { functions_left result ≡ items (functions self.now.funcs) }
    {
        self.funcs.iter()
    }
}

impl Module {
    ghost use Rattle.walrus_module.specs.Flags.{defaults, flags, flags_of};
    ghost use Rattle.walrus_module.specs.Located.{Gives, IsPlace};
    ghost use Rattle.walrus_module.specs.Parsing.{Parses};
    ghost use Rattle.walrus_module.specs.Settings.{settings};
    ghost use Rattle.walrus_module.specs.View.{IsEmpty, contents_of};

    /// An empty module, to be written as the configuration says. Want of memory is the only refusal.
    pub fn with_config(alloc: Global, config: ModuleConfig) -> Result<Module>
        ensures empty { IfOk result (λ m. IsEmpty m) }
        ensures configured { IfOk result (λ m. settings m ≡ flags config) }
        ensures fails { IsOkUnless result out_of_memory }
    {
        let contents = Contents::new(alloc)?;
        let customs = ModuleCustomSections::<SectionEntry>::new(alloc);
        Ok(Module::holding(contents, customs, config.switches))
    }

    // The module that holds this, with these custom sections.
    pub(crate) fn holding(
        contents: Contents,
        customs: ModuleCustomSections,
        switches: Switches,
    ) -> Module
        ensures holds { contents_of result ≡ contents }
        ensures own { result.customs ≡ customs }
        ensures configured { settings result ≡ flags_of switches }
    {
        Module {
            imports: contents.imports,
            tables: contents.tables,
            types: contents.types,
            funcs: contents.funcs,
            globals: contents.globals,
            locals: contents.locals,
            exports: contents.exports,
            start: contents.start,
            memories: contents.memories,
            tags: contents.tags,
            elements: contents.elements,
            data_: contents.data_,
            producers: contents.producers,
            name: contents.name,
            customs,
            switches,
        }
    }

    /// The module that the bytes are, under the default configuration. Refused as [`ModuleConfig::parse`] is.
    pub fn from_buffer(alloc: Global, bytes: &[u8]) -> Result<Module>
        ensures { Parses ⟦<dyn CustomSection as CustomSection>⟧ defaults IsPlace bytes.now result }
    {
        Module::from_buffer_with_config(alloc, bytes, &ModuleConfig::new())
    }

    /// The module that the bytes are, under this configuration. Refused as [`ModuleConfig::parse`] is.
    pub fn from_buffer_with_config(
        alloc: Global,
        bytes: &[u8],
        config: &ModuleConfig,
    ) -> Result<Module>
        ensures { Parses ⟦<dyn CustomSection as CustomSection>⟧ (flags config.now) (Gives config.now)
            bytes.now result }
    {
        config.parse(alloc, bytes)
    }
}
