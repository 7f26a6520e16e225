//! Reading a module from bytes.
ghost use Rattle.walrus_module.specs.Flags.{flags};
ghost use Rattle.walrus_module.specs.Located.{Gives};
ghost use Rattle.walrus_module.specs.Parsing.{Parses};

use crate::config::ModuleConfig;
use crate::customs::ModuleCustomSections;
use crate::module::Module;
use std::alloc::{AllocError, Global};
use std::rc::Rc;
use walrus_items::{CustomSection, Error, Result};

impl ModuleConfig {
    /// The module that the bytes are ("Binary Format > Modules"), to be written as the configuration says.
    ///
    /// # Errors
    ///
    /// `InvalidWasm` exactly where the bytes aren't a module, and `Memory`; then there is no module.
    pub fn parse(&self, alloc: Global, bytes: &[u8]) -> Result<Module>
        ensures { Parses ⟦<dyn CustomSection as CustomSection>⟧ (flags self.now) (Gives self.now)
            bytes.now result }
    {
        let found = self.read(alloc, bytes, None)?;
        let customs = ModuleCustomSections::keeping(alloc, found.customs)?;
        Ok(Module::holding(found.contents, customs, self.switches))
    }

    /// The module that the bytes are, as [`ModuleConfig::parse`] reads it. The bytes are handed over: so far as most of them are bodies of functions,
    /// the module keeps them as they are, and no copy of these.
    ///
    /// # Errors
    ///
    /// `InvalidWasm` exactly where the bytes aren't a module, and `Memory`; then there is no module.
    pub fn parse_whole(&self, alloc: Global, bytes: Vec<u8>) -> Result<Module>
        ensures { Parses ⟦<dyn CustomSection as CustomSection>⟧ (flags self.now) (Gives self.now)
            bytes.items result }
    {
        let whole = match Rc::new(alloc, bytes) {
            Ok(whole) => whole,
            Err(_) => return Err(Error::Memory(AllocError)),
        };
        let found = self.read(alloc, whole.as_ref().as_slice(), Some(&whole))?;
        let kept = ModuleCustomSections::keeping(alloc, found.customs)?;
        Ok(Module::holding(found.contents, kept, self.switches))
    }
}
