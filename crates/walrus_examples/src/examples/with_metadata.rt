//! What a binding generator or a compiler does last: it puts data of its own into a module, in a custom section.

ghost use Rattle.std.specs.Prelude.{◌≡◌, IfOk, IsOkUnless};
ghost use Rattle.std.specs.String.{string_bytes};
ghost use Rattle.walrus.specs.Model.Sections.{is_apart};
ghost use Rattle.walrus.specs.Items.Errors.{out_of_memory};
ghost use Rattle.walrus.specs.Modules.Flags.{config_of, defaults};
ghost use Rattle.walrus_examples.specs.Metadata.{CarriesMetadata};

use std::alloc::Global;
use walrus::{Error, Module, RawCustomSection, Result, SectionEntry};

// Whether the format, or the library, keeps sections of this name for itself: names, producers and debug information.
pub(crate) fn is_taken(name: &str) -> bool
    ensures { result ≡ is_apart name.now }
{
    name == "name" || (name == "producers" || name.starts_with(".debug"))
}

// A section of this name with these bytes.
fn raw_section(alloc: Global, name: &str, payload: &[u8]) -> Result<RawCustomSection>
    ensures name { IfOk result (λ s. string_bytes s.name ≡ name.now) }
    ensures payload { IfOk result (λ s. s.data_.items ≡ payload.now) }
    ensures fails { IsOkUnless result out_of_memory }
{
    Ok(RawCustomSection {
        name: String::from_str(alloc, name)?,
        data_: payload.to_vec(alloc)?,
    })
}

/// The bytes of the module with one custom section more, behind all others, of this name and with this payload.
///
/// # Errors
///
/// `Caller` only where the format keeps the name for itself, `InvalidWasm` only where the bytes are no module that keeps the rules,
/// `TooLarge` only where the module has a count or a size past 32 bits, and `Memory`.
pub fn with_metadata(alloc: Global, bytes: &[u8], name: &str, payload: &[u8]) -> Result<Vec<u8>>
    ensures { CarriesMetadata (config_of defaults) bytes.now name.now payload.now result }
{
    if is_taken(name) {
        return Err(Error::Caller(String::from_str(alloc, "a name of the format's own")?));
    }
    let section = raw_section(alloc, name, payload)?;
    let mut module = Module::from_buffer(alloc, bytes)?;
    module.customs.add(SectionEntry::Raw(section))?;
    module.emit_wasm(alloc)
}
