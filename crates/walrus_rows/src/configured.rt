//! What a configuration keeps, and the values of a producers section.

use crate::page::Page;
use walrus::{ModuleConfig, ModuleProducers, ProducerField, Result};

/// Asks for debug information and then for none, and tells the configuration.
pub fn ask_for_debug_information(page: &mut Page) -> Result<()> {
    let mut config = ModuleConfig::new();
    config.generate_dwarf(true);
    config.generate_dwarf(false);
    let text = format!(in page.alloc(); "{config:?}")?;
    page.line("the configuration", &text)
}

fn tell_values(page: &mut Page, field: &ProducerField) -> Result<()> {
    page.line("field", field.name())?;
    for value in field.values() {
        page.line("value", value.name())?;
        page.line("version", value.version())?;
    }
    Ok(())
}

/// Adds an SDK in one version and then in another, and tells all fields and values.
pub fn name_sdk_twice(page: &mut Page, producers: &mut ModuleProducers) -> Result<()> {
    producers.add_sdk("a", "1")?;
    producers.add_sdk("a", "2")?;
    for field in producers.fields() {
        tell_values(page, field)?;
    }
    Ok(())
}
