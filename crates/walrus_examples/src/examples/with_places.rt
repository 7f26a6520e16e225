//! What a compiler or a debugger does with what it knows of a module's code: a custom section says it by places in the module, and these follow.

ghost use Rattle.std.specs.Prelude.{◌≡◌, ◌||◌, IfOk, IsOkUnless};
ghost use Rattle.walrus.specs.Model.Sections.{is_apart};
ghost use Rattle.walrus.specs.Items.Errors.{out_of_memory};
ghost use Rattle.walrus.specs.Modules.Asked.{is_dylink_name};
ghost use Rattle.walrus.specs.Modules.Flags.{config_of, defaults};
ghost use Rattle.walrus.specs.Places.{pairs_of, places_name};
ghost use Rattle.walrus_examples.specs.PlacesSection.{CarriesPlaces, given};

use crate::examples::with_metadata::is_taken;
use std::alloc::Global;
use walrus::{Error, ModuleConfig, PlacesSection, Result, SectionEntry};

// Whether the format, dynamic linking or the library keeps sections of this name for itself.
fn is_kept_apart(name: &str) -> bool
    ensures { result ≡ (is_apart name.now || is_dylink_name name.now) }
{
    is_taken(name) || (name == "dylink" || name == "dylink.0")
}

// A section of this name with these pairs.
fn places_section(alloc: Global, name: &str, pairs: &[(u32, u32)]) -> Result<PlacesSection>
    ensures name { IfOk result (λ s. places_name s ≡ name.now) }
    ensures pairs { IfOk result (λ s. pairs_of s ≡ given pairs.now) }
    ensures fails { IsOkUnless result out_of_memory }
{
    let mut section = PlacesSection::new(alloc, String::from_str(alloc, name)?);
    'pairs: for (place, value) in pairs {
        section.add(*place, *value)?;
    }
    Ok(section)
}

/// The bytes of the module with one custom section more, behind all others, of this name: it says what these pairs say, a place of an operator in the
/// input and what stands for it, by the places that operators have in the output, eight bytes a pair, and leaves out a pair whose place is none of an
/// operator's.
///
/// # Errors
///
/// `Caller` only where the format or dynamic linking keeps the name for itself, `InvalidWasm` only where the bytes are no module that keeps the rules,
/// `TooLarge` only where the module has a count or a size past 32 bits, and `Memory`.
pub fn with_places(alloc: Global, bytes: &[u8], name: &str, pairs: &[(u32, u32)]) -> Result<Vec<u8>>
    ensures { CarriesPlaces (config_of defaults) bytes.now name.now pairs.now result }
{
    if is_kept_apart(name) {
        return Err(Error::Caller(String::from_str(alloc, "a name of the format's own")?));
    }
    let section = places_section(alloc, name, pairs)?;
    let mut config = ModuleConfig::new();
    let mut module = config.preserve_code_transform(true).parse(alloc, bytes)?;
    let own = Box::new(alloc, section)?;
    module.customs.add(SectionEntry::Boxed(own))?;
    module.emit_wasm(alloc)
}
