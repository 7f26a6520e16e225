//! Numbers by their places. The bytes and values are those of the standard's definitions of uN and sN, worked by hand.

use std::test::Fail;
use test_support::{bytes_of, demand};
use wasm_text::{NO_PLACE, number_at, past_number, past_s32, past_s64, past_u64};

/// Where a number begins, and where it ends as a number of at most five bytes, an s32, an s64 and a u64, one behind another; 99 where
/// none of these begins there.
const ROWS: [(&str, usize, [usize; 4]); 9] = [
    ("00", 0, [1, 1, 1, 1]),
    ("7F", 0, [1, 1, 1, 1]),
    ("01 02 03", 1, [2, 2, 2, 2]),
    ("E5 8E 26", 0, [3, 3, 3, 3]),
    ("00 83 80 80 80 00", 1, [6, 6, 6, 6]),
    ("FF FF FF FF 0F", 0, [5, 99, 5, 5]),
    ("FF FF FF FF 77", 0, [5, 99, 5, 5]),
    ("FF FF FF FF FF FF FF FF FF 01", 0, [99, 99, 99, 10]),
    ("80 80", 0, [99, 99, 99, 99]),
];

/// Numbers of at most five bytes, and where they begin.
const VALUES: [(&str, usize, u64); 5] = [
    ("00", 0, 0),
    ("01 7F", 1, 127),
    ("E5 8E 26", 0, 624_485),
    ("10 83 80 80 80 00", 1, 3),
    ("FF FF FF FF 0F", 0, 4_294_967_295),
];

fn is_place(found: usize, wanted: usize) -> bool {
    if found == NO_PLACE {
        wanted == 99
    } else {
        found == wanted
    }
}

fn are_places(bytes: &[u8], at: usize, wanted: &[usize; 4]) -> bool {
    let [number, short, long, unsigned] = *wanted;
    is_place(past_number(bytes, at, 5), number)
        && is_place(past_s32(bytes, at), short)
        && is_place(past_s64(bytes, at), long)
        && is_place(past_u64(bytes, at), unsigned)
}

#[test]
fn places_behind_numbers(rt: HostRuntime) -> Result<(), Fail> {
    for (text, at, wanted) in &ROWS {
        let bytes = bytes_of(rt.alloc(), text)?;
        demand(are_places(&bytes, *at, wanted), text)?;
    }
    Ok(())
}

#[test]
fn numbers_at_places(rt: HostRuntime) -> Result<(), Fail> {
    for (text, at, wanted) in &VALUES {
        let bytes = bytes_of(rt.alloc(), text)?;
        demand(number_at(&bytes, *at) == *wanted, text)?;
    }
    Ok(())
}
