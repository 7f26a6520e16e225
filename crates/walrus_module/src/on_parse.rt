//! What a caller does with a module as soon as it is read.
ghost use Rattle.std.specs.Prelude.{◌≡◌, IfErr, IfOk, IsOkUnless};
ghost use Rattle.std.specs.List.{range_with_len};
ghost use Rattle.walrus_code.specs.Indices.{places_of};
ghost use Rattle.walrus_module.specs.Flags.{config_of, flags};
ghost use Rattle.walrus_module.specs.Located.{Gives};
ghost use Rattle.walrus_module.specs.OnParse.{AreInPlace, Effect, IsNumbered, IsUnread, RunsHook};
ghost use Rattle.walrus_module.specs.View.{contents_of};
ghost use Rattle.walrus_items.specs.Errors.{out_of_memory};
ghost use Rattle.walrus_theorem.specs.Headline.{Accepts};

use crate::config::ModuleConfig;
use crate::customs::ModuleCustomSections;
use crate::module::Module;
use std::alloc::{AllocError, Global};
use walrus_code::{IndexSpace, IndicesToIds};
use walrus_items::{CustomSection, Error, Result};

/// What is done with a module as soon as it is read. It is told in terms of [`OnParse::parse`], and says by one definition over its value, the
/// ghost member, what it does; one that promises nothing defines it as what always holds.
pub trait ParseHook: Drop {
    // What it does with a module and the ids of its items, and what it answers.
    ghost does: { Self → Effect };

    /// Is handed the module, which is as it was read, and the ids of its items by their indices in the input: under each index stands the
    /// id of the same place. Types that were added for legacy handlers have no index there.
    ///
    /// # Errors
    ///
    /// Any; then there is no module.
    fn on_parse(&self, module: &mut Module, ids: &IndicesToIds) -> Result<()>
        requires in_place { AreInPlace ids.now }
        ensures { does self.now _ _ ⟦<dyn CustomSection as CustomSection>⟧ ids.now
            «module».old «module».new result };
}

/// A configuration with a hook, which each module that is read by it is handed.
#[derive(Drop)]
pub struct OnParse<'a, H> {
    config: &'a ModuleConfig,
    hook: H,
}

// The first so many ids of a kind, by their places. There are fewer than 2^32 of what a section lists.
fn first_ids<K>(alloc: Global, count: usize) -> Result<IndexSpace<K>>
    ensures numbers { IfOk result (λ space. places_of space ≡ range_with_len 0 count) }
    ensures fails { IsOkUnless result out_of_memory }
{
    if count > 1 << 32 {
        return Err(Error::Memory(AllocError));
    }
    Ok(IndexSpace::in_place(alloc, count)?)
}

impl Module {
    // The ids of all items by their places, and of so many types.
    fn ids_in_place(&self, alloc: Global, type_count: usize) -> Result<IndicesToIds>
        ensures numbered { IfOk result (IsNumbered type_count (contents_of self.now)) }
        ensures fails { IsOkUnless result out_of_memory }
    {
        Ok(IndicesToIds {
            types: first_ids(alloc, type_count)?,
            functions: first_ids(alloc, self.funcs.next_id().index())?,
            tables: first_ids(alloc, self.tables.next_id().index())?,
            memories: first_ids(alloc, self.memories.next_id().index())?,
            tags: first_ids(alloc, self.tags.next_id().index())?,
            globals: first_ids(alloc, self.globals.next_id().index())?,
            elements: first_ids(alloc, self.elements.next_id().index())?,
            data_: first_ids(alloc, self.data_.next_id().index())?,
        })
    }
}

impl ModuleConfig {
    /// This configuration with a hook that is handed each module that is read by it. The configuration keeps none.
    pub fn on_parse<'a, H: ParseHook>(&'a self, hook: H) -> OnParse<'a, H>
        ensures config { result.config.now ≡ self.now }
        ensures hook { result.hook ≡ hook }
    {
        OnParse { config: self, hook }
    }
}

impl<'a, H: ParseHook> OnParse<'a, H> {
    /// The same configuration with another hook in place of this one.
    pub fn on_parse<G: ParseHook>(self, hook: G) -> OnParse<'a, G>
        ensures config { result.config.now ≡ self.entry.config.now }
        ensures hook { result.hook ≡ hook }
    {
        let OnParse { config, hook: _ } = self;
        OnParse { config, hook }
    }

    /// The module that the bytes are, as [`ModuleConfig::parse`] reads it, once the hook had it.
    ///
    /// # Errors
    ///
    /// `InvalidWasm` where the bytes aren't a module, `Memory`, and what the hook answers; then there is no module.
    pub fn parse(&self, alloc: Global, bytes: &[u8]) -> Result<Module>
        ensures accepted { IfOk result (λ _. Accepts (config_of (flags self.now.config.now)) bytes.now) }
        ensures refused { (Accepts (config_of (flags self.now.config.now)) bytes.now → ⊥)
            → IfErr result IsUnread }
        ensures ran { RunsHook ⟦<dyn CustomSection as CustomSection>⟧ (H.does self.now.hook)
            (flags self.now.config.now) (Gives self.now.config.now) bytes.now result }
    {
        let found = self.config.read(alloc, bytes, None)?;
        let type_count = found.type_count;
        let customs = ModuleCustomSections::keeping(alloc, found.customs)?;
        let mut module = Module::holding(found.contents, customs, self.config.switches);
        let ids = module.ids_in_place(alloc, type_count)?;
        self.hook.on_parse(&mut module, &ids)?;
        Ok(module)
    }
}
