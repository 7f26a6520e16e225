//! The producers section in memory.

use std::alloc::{AllocError, Global};
use std::test::Fail;
use test_support::{demand, is_text};
use walrus_producers::{ModuleProducers, ProducerField};

fn tell_field(text: &mut String, field: &ProducerField) -> Result<(), AllocError> {
    write!(text, "{}:", field.name())?;
    for value in field.values() {
        write!(text, " {} {},", value.name(), value.version())?;
    }
    text.push_str(";")
}

fn tells(alloc: Global, producers: &ModuleProducers, wanted: &str) -> bool {
    let mut text = String::new(alloc);
    for field in producers.fields() {
        if tell_field(&mut text, field).is_err() {
            return false;
        }
    }
    is_text(&text, wanted)
}

// The first value of a name is replaced, another goes last.
fn tools_are_added(producers: &mut ModuleProducers) -> Result<(), AllocError> {
    producers.add_processed_by("walrus", "0.27.0")?;
    producers.add_processed_by("rustc", "1.80")?;
    producers.add_processed_by("walrus", "0.28.0")
}

// A value goes into the first field of its name.
fn others_are_added(producers: &mut ModuleProducers) -> Result<(), AllocError> {
    producers.add_sdk("emscripten", "3")?;
    producers.push_field("language", &[("C", "11"), ("C", "17")])?;
    producers.add_language("C", "23")
}

fn all_are_added(producers: &mut ModuleProducers) -> bool {
    producers.add_language("Rust", "2024").is_ok()
        && tools_are_added(producers).is_ok()
        && others_are_added(producers).is_ok()
}

fn are_held(alloc: Global) -> bool {
    let mut producers = ModuleProducers::new(alloc);
    all_are_added(&mut producers)
        && tells(
            alloc,
            &producers,
            "language: Rust 2024, C 23,;processed-by: walrus 0.28.0, rustc 1.80,;sdk: emscripten 3,;language: C 11, C 17,;",
        )
}

fn are_cleared(alloc: Global) -> bool {
    let mut producers = ModuleProducers::new(alloc);
    let added = tools_are_added(&mut producers).is_ok();
    producers.clear();
    added && tells(alloc, &producers, "")
}

#[test]
fn producers_are_held(rt: HostRuntime) -> Result<(), Fail> {
    demand(are_held(rt.alloc()), "fields and values in order")?;
    demand(are_cleared(rt.alloc()), "no field is left")
}
