//! Modules of many sections, read, checked and written back.

use std::alloc::Global;
use std::test::Fail;
use test_support::{are, bytes_of, demand};
use wasm_wire::{Raw, RawCustom, WireError, Writer, check, read_module};

fn write_declarations(writer: &mut Writer, raw: &Raw<'_>) -> bool {
    writer.header().is_ok()
        && writer.type_section(&raw.types).is_ok()
        && writer.import_section(&raw.imports).is_ok()
        && writer.function_section(&raw.functions).is_ok()
}

fn write_definitions(writer: &mut Writer, raw: &Raw<'_>) -> bool {
    writer.table_section(&raw.tables).is_ok()
        && writer.memory_section(&raw.memories).is_ok()
        && writer.tag_section(&raw.tags).is_ok()
        && writer.global_section(&raw.globals).is_ok()
        && writer.export_section(&raw.exports).is_ok()
}

fn write_start(writer: &mut Writer, start: Option<u32>) -> bool {
    match start {
        Some(function) => writer.start_section(function).is_ok(),
        None => true,
    }
}

fn write_count(writer: &mut Writer, count: Option<u32>) -> bool {
    match count {
        Some(segments) => writer.data_count_section(segments).is_ok(),
        None => true,
    }
}

fn write_customs(writer: &mut Writer, customs: &[RawCustom<'_>]) -> bool {
    for custom in customs {
        if writer.custom(custom).is_err() {
            return false;
        }
    }
    true
}

fn write_contents(writer: &mut Writer, raw: &Raw<'_>) -> bool {
    write_start(writer, raw.start)
        && writer.element_section(&raw.elements).is_ok()
        && write_count(writer, raw.data_count)
        && writer.code_section(&raw.bodies).is_ok()
        && writer.data_section(&raw.data_).is_ok()
}

/// Whether the records are written as the bytes that the text says, custom sections last.
pub fn is_written_as(alloc: Global, raw: &Raw<'_>, text: &str) -> bool {
    let mut writer = Writer::new(alloc);
    write_declarations(&mut writer, raw)
        && write_definitions(&mut writer, raw)
        && write_contents(&mut writer, raw)
        && write_customs(&mut writer, &raw.customs)
        && are(alloc, &writer.finish(), text)
}

/// What becomes of bytes.
#[derive(Clone, Copy)]
pub enum Answer {
    /// They aren't read.
    Malformed,
    /// They are a module that breaks a rule.
    Refused,
    /// They are a module that keeps the rules, and is written as these.
    Written(&'static str),
}

fn is_checked_so(alloc: Global, raw: &Raw<'_>, answer: Answer) -> bool {
    match (check(alloc, raw), answer) {
        (Ok(()), Answer::Written(text)) => is_written_as(alloc, raw, text),
        (Err(WireError::Malformed), Answer::Refused) => true,
        _ => false,
    }
}

fn is_read_so(alloc: Global, bytes: &[u8], answer: Answer) -> bool {
    match read_module(alloc, bytes) {
        Ok(raw) => is_checked_so(alloc, &raw, answer),
        Err(WireError::Malformed) => matches!(answer, Answer::Malformed),
        Err(_) => false,
    }
}

/// Fails a test where these bytes aren't answered so.
pub fn demand_answer(alloc: Global, text: &str, answer: Answer) -> Result<(), Fail> {
    let bytes = bytes_of(alloc, text)?;
    demand(is_read_so(alloc, &bytes, answer), text)
}

/// Fails a test where not all of these are answered so.
pub fn each_is_answered(alloc: Global, rows: &[&str], answer: Answer) -> Result<(), Fail> {
    for text in rows {
        demand_answer(alloc, text, answer)?;
    }
    Ok(())
}

/// Fails a test where not all of these are written back as they are.
pub fn each_stays(alloc: Global, rows: &[&'static str]) -> Result<(), Fail> {
    for text in rows {
        demand_answer(alloc, text, Answer::Written(text))?;
    }
    Ok(())
}

const MODULES: [&str; 7] = [
    // two imported functions, of which the second is exported
    "00 61 73 6D 01 00 00 00 01 04 01 60 00 00 02 0D 02 01 6D 01 61 00 00 01 6D 01 62 00 00 07 05 01 01 66 00 01",
    // two globals, of which the second reads the first, and is exported
    "00 61 73 6D 01 00 00 00 06 0B 02 7F 00 41 00 0B 7F 00 23 00 0B 07 05 01 01 67 03 01",
    // an imported table, and a segment of expressions in it
    "00 61 73 6D 01 00 00 00 01 04 01 60 00 00 02 09 01 01 6D 01 74 01 70 00 01 03 02 01 00 09 0B 01 06 00 41 00 0B 70 01 D2 00 0B 0A 04 01 02 00 0B",
    // a table, and a segment of functions in it
    "00 61 73 6D 01 00 00 00 01 04 01 60 00 00 03 02 01 00 04 04 01 70 00 01 09 07 01 00 41 00 0B 01 00 0A 04 01 02 00 0B",
    // a memory, and a segment of data in it
    "00 61 73 6D 01 00 00 00 05 03 01 00 01 0C 01 01 0B 07 01 00 41 00 0B 01 AA",
    // a start function
    "00 61 73 6D 01 00 00 00 01 04 01 60 00 00 03 02 01 00 08 01 00 0A 04 01 02 00 0B",
    // a tag
    "00 61 73 6D 01 00 00 00 01 08 02 60 00 00 60 01 7F 00 03 02 01 00 0D 03 01 00 01 07 05 01 01 66 00 00 0A 0C 01 0A 00 06 7F 41 00 07 00 0B 1A 0B",
];

#[test]
fn modules_are_written_back(rt: HostRuntime) -> Result<(), Fail> {
    each_stays(rt.alloc(), &MODULES)
}

// Name and producers sections with faults, which are no faults of a module.
const FAULTY_SECTIONS: [&str; 6] = [
    // two name sections
    "00 61 73 6D 01 00 00 00 01 04 01 60 00 00 03 02 01 00 07 05 01 01 66 00 00 0A 04 01 02 00 0B 00 0B 04 6E 61 6D 65 01 04 01 00 01 61 00 0B 04 6E 61 6D 65 01 04 01 00 01 62",
    // a map of names that ends early
    "00 61 73 6D 01 00 00 00 01 04 01 60 00 00 03 02 01 00 07 05 01 01 66 00 00 0A 04 01 02 00 0B 00 0C 04 6E 61 6D 65 01 05 02 00 01 61 01",
    // a byte behind the module's name
    "00 61 73 6D 01 00 00 00 01 04 01 60 00 00 03 02 01 00 07 05 01 01 66 00 00 0A 04 01 02 00 0B 00 0A 04 6E 61 6D 65 00 03 01 6D FF",
    // a count of names that lies
    "00 61 73 6D 01 00 00 00 01 04 01 60 00 00 03 02 01 00 07 05 01 01 66 00 00 0A 04 01 02 00 0B 00 0F 04 6E 61 6D 65 01 08 FF FF FF FF 0F 00 01 61",
    // a field of producers that ends early, and one that stands twice
    "00 61 73 6D 01 00 00 00 00 15 09 70 72 6F 64 75 63 65 72 73 02 03 73 64 6B 01 01 61 01 31 05",
    "00 61 73 6D 01 00 00 00 00 1D 09 70 72 6F 64 75 63 65 72 73 02 03 73 64 6B 01 01 61 01 31 03 73 64 6B 01 01 61 01 32",
];

#[test]
fn faults_of_custom_sections_are_kept(rt: HostRuntime) -> Result<(), Fail> {
    each_stays(rt.alloc(), &FAULTY_SECTIONS)
}

const BROKEN: [&str; 4] = [
    // a start function that takes a number
    "00 61 73 6D 01 00 00 00 01 05 01 60 01 7F 00 03 02 01 00 08 01 00 0A 04 01 02 00 0B",
    // a global that reads a later one
    "00 61 73 6D 01 00 00 00 06 0B 02 7F 00 23 01 0B 7F 00 41 00 0B",
    // a table whose initialiser reads a global that isn't imported
    "00 61 73 6D 01 00 00 00 04 09 01 40 00 70 00 00 23 00 0B 06 06 01 70 00 D0 70 0B",
    // an offset of 64 bits into a memory of 32 bits
    "00 61 73 6D 01 00 00 00 05 03 01 00 01 0C 01 01 0B 08 01 02 00 42 00 0B 01 AA",
];

// A constant expression without an operator.
const NO_OPERATOR: &str = "00 61 73 6D 01 00 00 00 06 04 01 7F 00 0B";

#[test]
fn modules_that_break_a_rule_are_refused(rt: HostRuntime) -> Result<(), Fail> {
    each_is_answered(rt.alloc(), &BROKEN, Answer::Refused)?;
    demand_answer(rt.alloc(), NO_OPERATOR, Answer::Malformed)
}
