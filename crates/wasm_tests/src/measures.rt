//! How long sections are, told before they are written, for the sections of worked modules.

use std::alloc::Global;
use std::test::Fail;
use test_support::{are, bytes_of, demand};
use wasm_wire::{Raw, RawBody, RawCustom, Section, measure, read_module};

// Modules, and how many bytes each of their sections has with its id and its size, in hexadecimal: types, imports, functions, tables,
// memories, tags, globals, exports, start, elements, data count, code, data (00 where there is none), and then the custom ones. The
// lengths were taken from the bytes by a script of a few lines that steps over sections.
const ROWS: [(&str, &str); 34] = [
    (
        "00 61 73 6D 01 00 00 00",
        "00 00 00 00 00 00 00 00 00 00 00 00 00",
    ),
    (
        "00 61 73 6D 01 00 00 00 00 27 09 70 72 6F 64 75 63 65 72 73 01 0C 70 72 6F 63 65 73 73 65 64 2D 62 79 01 06 77 61 6C 72 75 73 06 30 2E 32 38 2E 30",
        "00 00 00 00 00 00 00 00 00 00 00 00 00 29",
    ),
    (
        "00 61 73 6D 01 00 00 00 01 09 01 4E 02 5F 00 5F 01 7F 00 06 07 01 63 00 00 D0 00 0B 07 05 01 01 67 03 00",
        "0B 00 00 00 00 00 09 07 00 00 00 00 00",
    ),
    (
        "00 61 73 6D 01 00 00 00 01 04 01 60 00 00 03 02 01 00 05 03 01 00 01 0D 03 01 00 00 07 0D 03 01 66 00 00 01 6D 02 00 01 74 04 00 0A 09 01 07 01 01 7F 20 00 1A 0B 00 1F 04 6E 61 6D 65 01 04 01 00 01 46 02 06 01 00 01 00 01 4C 06 04 01 00 01 4D 0B 04 01 00 01 54",
        "06 00 04 00 05 05 00 0F 00 00 00 0B 00 21",
    ),
    (
        "00 61 73 6D 01 00 00 00 00 0A 08 64 79 6C 69 6E 6B 2E 30 03 01 04 01 60 00 00 03 02 01 00 07 05 01 01 66 00 00 0A 04 01 02 00 0B 00 03 01 61 01 00 03 01 62 04",
        "06 00 04 00 00 00 00 07 00 00 00 06 00 0C 05 05",
    ),
    (
        "00 61 73 6D 01 00 00 00 01 04 01 60 00 00 03 02 01 00 07 05 01 01 66 00 00 0A 04 01 02 00 0B",
        "06 00 04 00 00 00 00 07 00 00 00 06 00",
    ),
    (
        "00 61 73 6D 01 00 00 00 05 04 01 08 01 00 07 05 01 01 6D 02 00",
        "00 00 00 00 06 00 00 07 00 00 00 00 00",
    ),
    (
        "00 61 73 6D 01 00 00 00 05 05 01 00 80 80 04 07 05 01 01 6D 02 00",
        "00 00 00 00 07 00 00 07 00 00 00 00 00",
    ),
    (
        "00 61 73 6D 01 00 00 00 00 30 09 70 72 6F 64 75 63 65 72 73 02 03 73 64 6B 01 01 61 01 31 0C 70 72 6F 63 65 73 73 65 64 2D 62 79 01 06 77 61 6C 72 75 73 06 30 2E 32 38 2E 30",
        "00 00 00 00 00 00 00 00 00 00 00 00 00 32",
    ),
    (
        "00 61 73 6D 01 00 00 00 01 0D 03 60 00 00 60 01 7F 00 60 01 7F 01 7F 03 02 01 00 0D 03 01 00 01 07 05 01 01 66 00 00 0A 0C 01 0A 00 06 7F 41 00 07 00 0B 1A 0B",
        "0F 00 04 00 00 05 00 07 00 00 00 0E 00",
    ),
    (
        "00 61 73 6D 01 00 00 00 01 04 01 60 00 00 03 02 01 00 05 03 01 00 01 07 05 01 01 66 00 00 0C 01 01 0A 07 01 05 00 FC 09 00 0B 0B 04 01 01 01 AA",
        "06 00 04 00 05 00 00 07 00 00 03 09 06",
    ),
    (
        "00 61 73 6D 01 00 00 00 01 04 01 60 00 00 03 02 01 00 06 06 01 70 00 D2 00 0B 07 05 01 01 67 03 00 09 05 01 03 00 01 00 0A 04 01 02 00 0B",
        "06 00 04 00 00 00 08 07 00 07 00 06 00",
    ),
    (
        "00 61 73 6D 01 00 00 00 01 04 01 60 00 00 03 02 01 00 04 04 01 70 00 01 09 07 01 00 41 00 0B 01 00 0A 04 01 02 00 0B",
        "06 00 04 06 00 00 00 00 00 09 00 06 00",
    ),
    (
        "00 61 73 6D 01 00 00 00 01 04 01 60 00 00 02 09 01 01 6D 01 74 01 70 00 01 03 02 01 00 09 07 01 00 41 00 0B 01 00 0A 04 01 02 00 0B",
        "06 0B 04 00 00 00 00 00 00 09 00 06 00",
    ),
    (
        "00 61 73 6D 01 00 00 00 01 04 01 60 00 00 03 03 02 00 00 07 09 02 01 61 00 01 01 62 00 00 0A 0A 02 05 00 41 00 1A 0B 02 00 0B",
        "06 00 05 00 00 00 00 0B 00 00 00 0C 00",
    ),
    (
        "00 61 73 6D 01 00 00 00 01 07 02 60 00 00 60 00 00 03 03 02 00 01 07 09 02 01 61 00 00 01 62 00 01 0A 07 02 02 00 0B 02 00 0B",
        "09 00 05 00 00 00 00 0B 00 00 00 09 00",
    ),
    (
        "00 61 73 6D 01 00 00 00 01 04 01 60 00 00 03 03 02 00 00 07 09 02 01 61 00 00 01 62 00 01 0A 07 02 02 00 0B 02 00 0B",
        "06 00 05 00 00 00 00 0B 00 00 00 09 00",
    ),
    (
        "00 61 73 6D 01 00 00 00 01 04 01 60 00 00 03 02 01 00 07 05 01 01 66 00 00 0A 04 01 02 00 0B 00 0B 04 6E 61 6D 65 01 04 01 00 01 61",
        "06 00 04 00 00 00 00 07 00 00 00 06 00 0D",
    ),
    (
        "00 61 73 6D 01 00 00 00 01 05 01 60 01 70 00 03 02 01 00 07 05 01 01 66 00 00 0A 04 01 02 00 0B",
        "07 00 04 00 00 00 00 07 00 00 00 06 00",
    ),
    (
        "00 61 73 6D 01 00 00 00 01 0C 02 50 00 60 00 00 50 01 00 60 00 00 03 02 01 01 07 05 01 01 66 00 00 0A 04 01 02 00 0B",
        "0E 00 04 00 00 00 00 07 00 00 00 06 00",
    ),
    (
        "00 61 73 6D 01 00 00 00 01 04 01 60 00 00 02 07 01 01 6D 01 62 00 00 07 05 01 01 66 00 00",
        "06 09 00 00 00 00 00 07 00 00 00 00 00",
    ),
    (
        "00 61 73 6D 01 00 00 00 06 0B 02 7F 00 41 00 0B 7F 00 23 00 0B 07 05 01 01 67 03 01",
        "00 00 00 00 00 00 0D 07 00 00 00 00 00",
    ),
    (
        "00 61 73 6D 01 00 00 00 01 04 01 60 00 00 02 09 01 01 6D 01 74 01 70 00 01 03 02 01 00 09 09 01 04 41 00 0B 01 D2 00 0B 0A 04 01 02 00 0B",
        "06 0B 04 00 00 00 00 00 00 0B 00 06 00",
    ),
    (
        "00 61 73 6D 01 00 00 00 05 03 01 00 01 0B 07 01 00 41 00 0B 01 AA",
        "00 00 00 00 05 00 00 00 00 00 00 00 09",
    ),
    (
        "00 61 73 6D 01 00 00 00 01 04 01 60 00 00 03 02 01 00 08 01 00 0A 04 01 02 00 0B",
        "06 00 04 00 00 00 00 00 03 00 00 06 00",
    ),
    (
        "00 61 73 6D 01 00 00 00 01 04 01 60 00 00 03 03 02 00 00 07 05 01 01 66 00 00 09 05 01 03 00 01 01 0A 0A 02 05 00 D2 01 1A 0B 02 00 0B",
        "06 00 05 00 00 00 00 07 00 07 00 0C 00",
    ),
    (
        "00 61 73 6D 01 00 00 00 00 01 00",
        "00 00 00 00 00 00 00 00 00 00 00 00 00 03",
    ),
    (
        "00 61 73 6D 01 00 00 00 00 39 09 70 72 6F 64 75 63 65 72 73 03 03 73 64 6B 01 01 61 01 31 03 73 64 6B 01 01 61 01 32 0C 70 72 6F 63 65 73 73 65 64 2D 62 79 01 06 77 61 6C 72 75 73 06 30 2E 32 38 2E 30",
        "00 00 00 00 00 00 00 00 00 00 00 00 00 3B",
    ),
    (
        "00 61 73 6D 01 00 00 00 01 04 01 60 00 00 03 02 01 00 07 05 01 01 66 00 00 0A 04 01 02 00 0B 00 0B 04 6E 61 6D 65 01 04 01 00 01 62",
        "06 00 04 00 00 00 00 07 00 00 00 06 00 0D",
    ),
    (
        "00 61 73 6D 01 00 00 00 01 04 01 60 00 00 03 02 01 00 07 05 01 01 66 00 00 0A 04 01 02 00 0B 00 0C 04 6E 61 6D 65 01 05 01 00 02 66 31",
        "06 00 04 00 00 00 00 07 00 00 00 06 00 0E",
    ),
    (
        "00 61 73 6D 01 00 00 00 01 04 01 60 00 00 03 02 01 00 0A 04 01 02 00 0B 00 03 01 73 00",
        "06 00 04 00 00 00 00 00 00 00 00 06 00 05",
    ),
    (
        "00 61 73 6D 01 00 00 00 01 04 01 60 00 00 03 02 01 00 07 09 02 01 66 00 00 01 70 00 00 0A 04 01 02 00 0B",
        "06 00 04 00 00 00 00 0B 00 00 00 06 00",
    ),
    (
        "00 61 73 6D 01 00 00 00 00 0A 08 64 79 6C 69 6E 6B 2E 30 03 01 04 01 60 00 00 03 02 01 00 07 05 01 01 66 00 00 0A 04 01 02 00 0B 00 03 01 61 01 00 03 01 62 04 00 03 01 73 27",
        "06 00 04 00 00 00 00 07 00 00 00 06 00 0C 05 05 05",
    ),
    (
        "00 61 73 6D 01 00 00 00 01 04 01 60 00 00 03 02 01 00 07 05 01 01 61 00 00 0A 07 01 05 00 41 00 1A 0B",
        "06 00 04 00 00 00 00 07 00 00 00 09 00",
    ),
];

fn push_length(lengths: &mut Vec<u8>, length: usize) -> bool {
    match u8::try_from(length) {
        Ok(byte) => lengths.push(byte).is_ok(),
        Err(_) => false,
    }
}

fn add_length(lengths: &mut Vec<u8>, section: Section<'_>) -> bool {
    match measure(&section) {
        Ok(length) => push_length(lengths, length),
        Err(_) => false,
    }
}

fn add_start(lengths: &mut Vec<u8>, start: Option<u32>) -> bool {
    match start {
        Some(function) => add_length(lengths, Section::Start(function)),
        None => lengths.push(0).is_ok(),
    }
}

fn add_data_count(lengths: &mut Vec<u8>, count: Option<u32>) -> bool {
    match count {
        Some(segments) => add_length(lengths, Section::DataCount(segments)),
        None => lengths.push(0).is_ok(),
    }
}

fn add_bodies(lengths: &mut Vec<usize>, bodies: &[RawBody<'_>]) -> bool {
    for body in bodies {
        if lengths.push(body.bytes.len()).is_err() {
            return false;
        }
    }
    true
}

fn add_code(alloc: Global, lengths: &mut Vec<u8>, bodies: &[RawBody<'_>]) -> bool {
    let mut sizes = Vec::new(alloc);
    add_bodies(&mut sizes, bodies) && add_length(lengths, Section::Code(&sizes))
}

fn add_customs(lengths: &mut Vec<u8>, customs: &[RawCustom<'_>]) -> bool {
    for custom in customs {
        let section = Section::Custom {
            name: custom.name,
            len: custom.bytes.len(),
        };
        if !add_length(lengths, section) {
            return false;
        }
    }
    true
}

fn add_first(lengths: &mut Vec<u8>, raw: &Raw<'_>) -> bool {
    add_length(lengths, Section::Types(&raw.types))
        && add_length(lengths, Section::Imports(&raw.imports))
        && add_length(lengths, Section::Functions(&raw.functions))
        && add_length(lengths, Section::Tables(&raw.tables))
        && add_length(lengths, Section::Memories(&raw.memories))
        && add_length(lengths, Section::Tags(&raw.tags))
        && add_length(lengths, Section::Globals(&raw.globals))
}

fn add_last(alloc: Global, lengths: &mut Vec<u8>, raw: &Raw<'_>) -> bool {
    add_length(lengths, Section::Exports(&raw.exports))
        && add_start(lengths, raw.start)
        && add_length(lengths, Section::Elements(&raw.elements))
        && add_data_count(lengths, raw.data_count)
        && add_code(alloc, lengths, &raw.bodies)
        && add_length(lengths, Section::Data(&raw.data_))
        && add_customs(lengths, &raw.customs)
}

fn has_lengths(alloc: Global, raw: &Raw<'_>, wanted: &str) -> bool {
    let mut lengths = Vec::new(alloc);
    add_first(&mut lengths, raw)
        && add_last(alloc, &mut lengths, raw)
        && are(alloc, &lengths, wanted)
}

fn are_measured(alloc: Global, bytes: &[u8], wanted: &str) -> bool {
    match read_module(alloc, bytes) {
        Ok(raw) => has_lengths(alloc, &raw, wanted),
        Err(_) => false,
    }
}

#[test]
fn sections_of_modules(rt: HostRuntime) -> Result<(), Fail> {
    for (module, wanted) in &ROWS {
        let bytes = bytes_of(rt.alloc(), module)?;
        demand(are_measured(rt.alloc(), &bytes, wanted), module)?;
    }
    Ok(())
}

fn add_twos(sizes: &mut Vec<usize>) -> bool {
    for _body in 0..128 {
        if sizes.push(2).is_err() {
            return false;
        }
    }
    true
}

fn is_length(section: &Section<'_>, wanted: usize) -> bool {
    match measure(section) {
        Ok(length) => length == wanted,
        Err(_) => false,
    }
}

// 128 bodies of two bytes: a count of two bytes, three bytes for each body, and in front the id and a size of two bytes.
#[test]
fn many_bodies(rt: HostRuntime) -> Result<(), Fail> {
    let mut sizes = Vec::new(rt.alloc());
    demand(
        add_twos(&mut sizes) && is_length(&Section::Code(&sizes), 389),
        "128 bodies",
    )
}
