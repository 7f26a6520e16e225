//! What a configuration says by flags.
ghost use Rattle.std.specs.Prelude.{◌≡◌};

use walrus_bodies::Features;
use walrus_writing::Choices;

/// The flags of a configuration: all that a module keeps of it.
#[derive(Clone, Copy)]
pub struct Switches {
    pub(crate) generate_dwarf: bool,
    pub(crate) generate_name_section: bool,
    pub(crate) generate_synthetic_names: bool,
    pub(crate) strict_validate: bool,
    pub(crate) generate_producers_section: bool,
    pub(crate) only_stable_features: bool,
    pub(crate) legacy_exceptions: bool,
    pub(crate) preserve_code_transform: bool,
}

impl Switches {
    ghost use Rattle.walrus_theorem.specs.Features.{features_of};
    ghost use Rattle.walrus_module.specs.Flags.{choices_of, config_of, defaults, flags_of};

    // Those of the default configuration.
    pub(crate) fn new() -> Switches
        ensures { flags_of result ≡ defaults }
    {
        Switches {
            generate_dwarf: false,
            generate_name_section: true,
            generate_synthetic_names: false,
            strict_validate: true,
            generate_producers_section: true,
            only_stable_features: false,
            legacy_exceptions: true,
            preserve_code_transform: false,
        }
    }

    // The proposals that bodies may use.
    pub(crate) fn features(self) -> Features
        ensures { result ≡ features_of (config_of (flags_of self)) }
    {
        Features {
            legacy_exceptions: self.legacy_exceptions,
            only_stable: self.only_stable_features,
        }
    }

    // What a module is written under.
    pub(crate) fn choices(self) -> Choices
        ensures { result ≡ choices_of (config_of (flags_of self)) }
    {
        Choices {
            features: self.features(),
            names: self.generate_name_section,
            producers: self.generate_producers_section,
        }
    }
}
