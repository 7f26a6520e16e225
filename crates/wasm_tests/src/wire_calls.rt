//! Calls of `wasm_wire` by themselves: what the writer appends, and where.

use std::alloc::Global;
use std::test::Fail;
use test_support::{are, bytes_of, demand};
use wasm_wire::{
    Raw, RawComp, RawConst, RawCustom, RawFuncType, RawGroup, RawLimits, RawSub, Writer, check,
    code_places, leb128_len, measure_code, read_module, written_module,
};

// Two functions of one type, the second exported as `f`.
const TWO_FUNCTIONS: &str =
    "00 61 73 6D 01 00 00 00 01 04 01 60 00 00 03 03 02 00 00 07 05 01 01 66 00 01 0A 07 02 02 00 0B 02 00 0B";

// A group of the one type without parameters and results.
fn write_group(alloc: Global, writer: &mut Writer) -> bool {
    let mut group: RawGroup = Vec::new(alloc);
    let ty = RawSub {
        is_final: true,
        supers: Vec::new(alloc),
        comp: RawComp::Func(RawFuncType {
            params: Vec::new(alloc),
            results: Vec::new(alloc),
        }),
    };
    group.push(ty).is_ok() && writer.type_group(&group).is_ok()
}

fn write_numbers(writer: &mut Writer) -> bool {
    let limits = RawLimits {
        minimum: 1,
        maximum: Some(128),
        shared: true,
        wide: false,
        page: None,
    };
    writer.u32(16384).is_ok()
        && writer.limits(&limits).is_ok()
        && writer.const_expr(&[RawConst::I32Const(-1)]).is_ok()
}

fn write_names(writer: &mut Writer) -> bool {
    let custom = RawCustom {
        name: "a",
        bytes: b"\x01",
    };
    writer.name("f").is_ok()
        && writer.section(3, &[0x01, 0x00]).is_ok()
        && writer.rows_section(3, 2, &[0x00, 0x01]).is_ok()
        && writer.custom(&custom).is_ok()
}

#[test]
fn parts_are_written(rt: HostRuntime) -> Result<(), Fail> {
    let mut writer = Writer::new(rt.alloc());
    demand(
        write_numbers(&mut writer)
            && write_group(rt.alloc(), &mut writer)
            && write_names(&mut writer),
        "memory",
    )?;
    let known =
        "80 80 01 03 01 80 01 41 7F 0B 60 00 00 01 66 03 02 01 00 03 03 02 00 01 00 03 01 61 01";
    demand(are(rt.alloc(), &writer.finish(), known), known)
}

fn takes(number: u32, bytes: usize) -> bool {
    leb128_len(number) == bytes
}

#[test]
fn lengths_of_numbers(_rt: HostRuntime) -> Result<(), Fail> {
    demand(takes(0, 1) && takes(127, 1), "one byte")?;
    demand(takes(128, 2) && takes(16383, 2), "two bytes")?;
    demand(takes(16384, 3), "80 80 01")
}

// Where the count and the bodies of the code section stand, when all in front of it is written.
fn are_placed(raw: &Raw<'_>, writer: &mut Writer) -> bool {
    let is_begun = writer.header().is_ok()
        && writer.type_section(&raw.types).is_ok()
        && writer.function_section(&raw.functions).is_ok()
        && writer.export_section(&raw.exports).is_ok();
    match writer.code_section(&raw.bodies) {
        Ok(places) => {
            is_begun
                && places.count == 28
                && places.bodies.as_slice() == [30..32, 33..35].as_slice()
        }
        Err(_) => false,
    }
}

fn is_code_placed(alloc: Global, raw: &Raw<'_>) -> bool {
    matches!(measure_code(&raw.bodies), Ok(9)) && are_placed(raw, &mut Writer::new(alloc))
}

#[test]
fn bodies_have_their_places(rt: HostRuntime) -> Result<(), Fail> {
    let bytes = bytes_of(rt.alloc(), TWO_FUNCTIONS)?;
    let raw = read_module(rt.alloc(), &bytes)?;
    demand(is_code_placed(rt.alloc(), &raw), TWO_FUNCTIONS)
}

// An exported function, with custom sections `a`, `dylink.0` and `b` between its sections, and what is written of it.
const SCATTERED: &str =
    "00 61 73 6D 01 00 00 00 00 03 01 61 01 01 04 01 60 00 00 03 02 01 00 07 05 01 01 66 00 00 00 0A 08 64 79 6C 69 6E 6B 2E 30 03 0A 04 01 02 00 0B 00 03 01 62 04";

const GATHERED: &str =
    "00 61 73 6D 01 00 00 00 00 0A 08 64 79 6C 69 6E 6B 2E 30 03 01 04 01 60 00 00 03 02 01 00 07 05 01 01 66 00 00 0A 04 01 02 00 0B 00 03 01 61 01 00 03 01 62 04";

fn is_whole_written(alloc: Global, raw: &Raw<'_>, text: &str) -> bool {
    match written_module(alloc, raw) {
        Ok(written) => check(alloc, raw).is_ok() && are(alloc, &written, text),
        Err(_) => false,
    }
}

#[test]
fn custom_sections_have_their_places(rt: HostRuntime) -> Result<(), Fail> {
    let bytes = bytes_of(rt.alloc(), SCATTERED)?;
    let raw = read_module(rt.alloc(), &bytes)?;
    demand(is_whole_written(rt.alloc(), &raw, GATHERED), SCATTERED)
}

// Where the count and the body of the code section stand in GATHERED: behind 8 bytes of the header, 12 of `dylink.0`, 6 of the type, 4 of the
// function and 7 of the export.
fn is_code_told(alloc: Global, raw: &Raw<'_>) -> bool {
    match code_places(alloc, raw) {
        Ok(places) => places.count == 39 && places.bodies.as_slice() == [41..43].as_slice(),
        Err(_) => false,
    }
}

#[test]
fn code_has_its_places_unwritten(rt: HostRuntime) -> Result<(), Fail> {
    let bytes = bytes_of(rt.alloc(), SCATTERED)?;
    let raw = read_module(rt.alloc(), &bytes)?;
    demand(is_code_told(rt.alloc(), &raw), SCATTERED)
}
