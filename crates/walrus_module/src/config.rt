//! How a module is read and written.

ghost use Rattle.std.specs.Prelude.{◌≡◌, ⊤};
ghost use Rattle.walrus_module.specs.Flags.{flags};
ghost use Rattle.walrus_module.specs.Located.{HasNoHook, Keeps};

use crate::hook::{LocationHook, OnInstrLoc};
use crate::switches::Switches;
use std::alloc::AllocError;
use std::fmt;

/// What to read and what to write. Made with the defaults by [`ModuleConfig::new`]: names, producers, strict
/// validation and legacy exceptions are on, all else is off. The setters can be chained.
#[derive(Drop)]
pub struct ModuleConfig {
    pub(crate) switches: Switches,
    pub(crate) on_instr_loc: Option<LocationHook>,
}

/// The same flags, and no function of the caller's. Never refused.
impl Clone for ModuleConfig {
    ghost is_clone = { λ c d. (flags d ≡ flags c) × HasNoHook d };

    ghost is_infallible = { λ _. ⊤ };

    fn clone(&self) -> Result<ModuleConfig, AllocError> {
        Ok(ModuleConfig {
            switches: self.switches,
            on_instr_loc: None,
        })
    }
}

/// The text of the original crate, by its names of the flags.
impl fmt::Debug for ModuleConfig {
    fn fmt<W: fmt::Write>(&self, f: &mut fmt::Formatter<W>) -> fmt::Result {
        let is = self.switches;
        let hook = if self.on_instr_loc.is_some() {
            Some("..")
        } else {
            None
        };
        let none: Option<&str> = None;
        f.debug_struct("ModuleConfig")
            .field("generate_dwarf", &is.generate_dwarf)
            .field(
                "generate_synthetic_names_for_anonymous_items",
                &is.generate_synthetic_names,
            )
            .field("only_stable_features", &is.only_stable_features)
            .field("skip_strict_validate", &!is.strict_validate)
            .field("skip_producers_section", &!is.generate_producers_section)
            .field("skip_name_section", &!is.generate_name_section)
            .field("skip_legacy_exceptions", &!is.legacy_exceptions)
            .field("preserve_code_transform", &is.preserve_code_transform)
            .field("on_parse", &none)
            .field("on_instr_loc", &hook)
            .finish()
    }
}

impl ModuleConfig {
    ghost use Rattle.walrus_module.specs.Flags.{defaults, with_choices, with_dwarf};
    ghost use Rattle.walrus_module.specs.Located.{IsHooked};

    /// The default configuration.
    pub fn new() -> ModuleConfig
        ensures value { flags result ≡ defaults }
        ensures hook { HasNoHook result }
    {
        ModuleConfig {
            switches: Switches::new(),
            on_instr_loc: None,
        }
    }

    /// The default configuration but for three choices: whether the name section is written, whether the producers section is, and whether
    /// legacy exception handling is read.
    pub fn of_choices(names: bool, producers: bool, legacy: bool) -> ModuleConfig
        ensures value { flags result ≡ with_choices names producers legacy defaults }
        ensures hook { HasNoHook result }
    {
        let mut switches = Switches::new();
        switches.generate_name_section = names;
        switches.generate_producers_section = producers;
        switches.legacy_exceptions = legacy;
        ModuleConfig {
            switches,
            on_instr_loc: None,
        }
    }

    /// Whether debug information is asked for. None is written, whatever this says: its places would be those of the
    /// input. Asking for it turns [`ModuleConfig::preserve_code_transform`] on too; asking for none leaves that flag.
    pub fn generate_dwarf(&mut self, generate: bool) -> &mut ModuleConfig
        ensures same_reference { result.ghost_name ≡ self.entry.ghost_name }
        ensures value { flags result.now ≡ with_dwarf generate (flags self.old) }
        ensures hook { Keeps self.old result.now }
    {
        self.switches.generate_dwarf = generate;
        if generate {
            self.switches.preserve_code_transform = true;
        }
        self
    }

    /// Whether the name section is written.
    pub fn generate_name_section(&mut self, generate: bool) -> &mut ModuleConfig
        ensures same_reference { result.ghost_name ≡ self.entry.ghost_name }
        ensures value { flags result.now ≡ record (flags self.old) { generate_name_section = generate } }
        ensures hook { Keeps self.old result.now }
    {
        self.switches.generate_name_section = generate;
        self
    }
    /// Whether a local function and its locals that have no name are given one when a module is read.
    pub fn generate_synthetic_names_for_anonymous_items(
        &mut self,
        generate: bool,
    ) -> &mut ModuleConfig
        ensures same_reference { result.ghost_name ≡ self.entry.ghost_name }
        ensures value { flags result.now ≡ record (flags self.old) { generate_synthetic_names = generate } }
        ensures hook { Keeps self.old result.now }
    {
        self.switches.generate_synthetic_names = generate;
        self
    }

    /// Kept and read by nothing, as in the original crate: a module is always checked as the grammar and its rules say.
    pub fn strict_validate(&mut self, strict: bool) -> &mut ModuleConfig
        ensures same_reference { result.ghost_name ≡ self.entry.ghost_name }
        ensures value { flags result.now ≡ record (flags self.old) { strict_validate = strict } }
        ensures hook { Keeps self.old result.now }
    {
        self.switches.strict_validate = strict;
        self
    }

    /// Whether the producers section is written.
    pub fn generate_producers_section(&mut self, generate: bool) -> &mut ModuleConfig
        ensures same_reference { result.ghost_name ≡ self.entry.ghost_name }
        ensures value { flags result.now ≡ record (flags self.old) { generate_producers_section = generate } }
        ensures hook { Keeps self.old result.now }
    {
        self.switches.generate_producers_section = generate;
        self
    }

    /// Whether wide arithmetic is refused when a module is read.
    pub fn only_stable_features(&mut self, only: bool) -> &mut ModuleConfig
        ensures same_reference { result.ghost_name ≡ self.entry.ghost_name }
        ensures value { flags result.now ≡ record (flags self.old) { only_stable_features = only } }
        ensures hook { Keeps self.old result.now }
    {
        self.switches.only_stable_features = only;
        self
    }

    /// Whether legacy exception handling is read.
    pub fn legacy_exceptions(&mut self, legacy: bool) -> &mut ModuleConfig
        ensures same_reference { result.ghost_name ≡ self.entry.ghost_name }
        ensures value { flags result.now ≡ record (flags self.old) { legacy_exceptions = legacy } }
        ensures hook { Keeps self.old result.now }
    {
        self.switches.legacy_exceptions = legacy;
        self
    }

    /// Whether emission tells where each instruction went, and hands that to the custom sections.
    pub fn preserve_code_transform(&mut self, preserve: bool) -> &mut ModuleConfig
        ensures same_reference { result.ghost_name ≡ self.entry.ghost_name }
        ensures value { flags result.now ≡ record (flags self.old) { preserve_code_transform = preserve } }
        ensures hook { Keeps self.old result.now }
    {
        self.switches.preserve_code_transform = preserve;
        self
    }

    /// Has each operator that is read located by this function, which is handed the place of its first byte; else its location is that place.
    /// A later function replaces it. A clone of the configuration has none.
    pub fn on_instr_loc(&mut self, call: OnInstrLoc) -> &mut ModuleConfig
        requires { OnInstrLoc.IsAlwaysCallable call }
        ensures same_reference { result.ghost_name ≡ self.entry.ghost_name }
        ensures value { flags result.now ≡ flags self.old }
        ensures hook { IsHooked call result.now }
    {
        self.on_instr_loc = Some(LocationHook { call });
        self
    }
}
