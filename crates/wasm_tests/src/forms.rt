//! Numbers, blocks, names and vectors, against bytes known from the standard and from other encoders.

use std::alloc::Global;
use std::test::Fail;
use test_support::{are, demand, is_text};
use wasm_forms::{
    read_byte, read_f32, read_f64, read_index_from, read_name, read_s32, read_s64, read_u32,
    read_u64, read_vector, write_block, write_f32, write_f64, write_index, write_name, write_s32,
    write_s64, write_u32, write_u64, write_vector,
};

fn write_32(bytes: &mut Vec<u8>) -> bool {
    write_u32(bytes, 624_485).is_ok()
        && write_u32(bytes, u32::MAX).is_ok()
        && write_s32(bytes, -123_456).is_ok()
        && write_s32(bytes, 64).is_ok()
        && write_s32(bytes, i32::MIN).is_ok()
}

#[test]
fn numbers_are_written_as_other_encoders_write_them(rt: HostRuntime) -> Result<(), Fail> {
    let mut bytes = Vec::new(rt.alloc());
    let known = "E5 8E 26 FF FF FF FF 0F C0 BB 78 C0 00 80 80 80 80 78";
    demand(
        write_32(&mut bytes) && are(rt.alloc(), &bytes, known),
        known,
    )
}

fn write_64(bytes: &mut Vec<u8>) -> bool {
    write_u64(bytes, u64::MAX).is_ok()
        && write_s64(bytes, i64::MIN).is_ok()
        && write_index(bytes, 64).is_ok()
        && write_f32(bytes, 0x3F80_0000).is_ok()
        && write_f64(bytes, 0x3FF0_0000_0000_0000).is_ok()
}

// The same numbers, read again.
fn read_64(bytes: &[u8]) -> Result<(), Fail> {
    let (most, rest) = read_u64(bytes)?;
    demand(most == u64::MAX, "the largest")?;
    let (least, rest) = read_s64(rest)?;
    demand(least == i64::MIN, "the smallest")?;
    let (first, rest) = read_byte(rest)?;
    let (index, rest) = read_index_from(first, rest)?;
    demand(index == 64, "an index")?;
    let (single, rest) = read_f32(rest)?;
    demand(single == 0x3F80_0000, "1 in 32 bits")?;
    let (double, rest) = read_f64(rest)?;
    demand(
        double == 0x3FF0_0000_0000_0000 && rest.is_empty(),
        "1 in 64 bits",
    )
}

#[test]
fn numbers_of_64_bits_are_written_as_other_encoders_write_them(
    rt: HostRuntime,
) -> Result<(), Fail> {
    let mut bytes = Vec::new(rt.alloc());
    let known =
        "FF FF FF FF FF FF FF FF FF 01 80 80 80 80 80 80 80 80 80 7F C0 00 00 00 80 3F 00 00 00 00 00 00 F0 3F";
    demand(
        write_64(&mut bytes) && are(rt.alloc(), &bytes, known),
        known,
    )?;
    read_64(&bytes)
}

fn is_three_and_a_byte(bytes: &[u8]) -> bool {
    match read_u32(bytes) {
        Ok((number, rest)) => number == 3 && rest.len() == 1,
        Err(_) => false,
    }
}

fn is_minus_two(bytes: &[u8]) -> bool {
    match read_s32(bytes) {
        Ok((number, rest)) => number == -2 && rest.is_empty(),
        Err(_) => false,
    }
}

#[test]
fn longer_spellings_are_read(_rt: HostRuntime) -> Result<(), Fail> {
    demand(
        is_three_and_a_byte(b"\x83\x80\x80\x80\x00\x07") && is_minus_two(b"\xFE\xFF\x7F"),
        "spellings that aren't the shortest",
    )?;
    demand(
        read_u32(b"\x83\x80\x80\x80\x10").is_err()
            && read_u32(b"\x83\x80\x80\x80\x80\x00").is_err(),
        "more than 32 bits, and six bytes",
    )
}

fn write_others(bytes: &mut Vec<u8>) -> bool {
    write_block(bytes, b"\xFF").is_ok()
        && write_name(bytes, "f\u{E9}").is_ok()
        && write_vector(bytes, &[1u32, 200]).is_ok()
}

// Whether the numbers 1 and 200 stand here as a vector, and nothing else.
fn read_numbers(alloc: Global, bytes: &[u8]) -> bool {
    match read_vector::<u32>(alloc, bytes) {
        Ok((numbers, rest)) => { numbers.as_slice() == [1u32, 200].as_slice() && rest.is_empty() }
        Err(_) => false,
    }
}

fn read_others(alloc: Global, bytes: &[u8]) -> bool {
    match read_name(bytes) {
        Ok((name, rest)) => is_text(name, "f\u{E9}") && read_numbers(alloc, rest),
        Err(_) => false,
    }
}

#[test]
fn blocks_names_and_vectors_are_written_and_read(rt: HostRuntime) -> Result<(), Fail> {
    let mut bytes = Vec::new(rt.alloc());
    demand(
        write_others(&mut bytes) && are(rt.alloc(), &bytes, "01 FF 03 66 C3 A9 02 01 C8 01"),
        "written",
    )?;
    demand(
        bytes.len() == 10 && read_others(rt.alloc(), &bytes[2..]),
        "read",
    )
}
