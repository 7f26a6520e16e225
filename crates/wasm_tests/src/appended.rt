//! Bodies that are written with new numbers, by hand.

ghost use Rattle.std.specs.Prelude.{Some, None, nat_lt, ◌+◌, if◌then◌else◌};

use crate::scans::{LIMITS, unmarked_from};
use std::alloc::{AllocError, Global};
use std::test::Fail;
use test_support::{bytes_of, demand_bytes};
use wasm_text::{NO_NUMBER, Numbers, append_filled, scan_body};

/// Bodies, and what they become where each index below 100 is ten more.
const ROWS: [(&str, &str); 9] = [
    ("6A 0B", "6A 0B"),
    ("20 00 0B", "20 0A 0B"),
    ("10 83 80 80 80 00 0B", "10 0D 0B"),
    ("21 E3 00 0B", "21 6D 0B"),
    ("11 02 00 0B", "11 0C 0A 0B"),
    ("41 C0 BB F8 7F 0B", "41 C0 BB 78 0B"),
    ("36 02 E5 8E A6 00 0B", "36 42 0A E5 8E 26 0B"),
    ("03 03 0B 0B", "03 0D 0B 0B"),
    (
        "02 40 0E 02 00 81 00 00 0B 0B",
        "02 40 0E 02 00 01 00 0B 0B",
    ),
];

// Each index below 100 is ten more, all others have no new number.
struct TenMore {}

impl Numbers for TenMore {
    ghost number = { λ _ _ index. if nat_lt index 100 then Some (index + 10) else None };

    fn new_number(&self, _kind: u32, index: u32) -> u64 {
        if index < 100 {
            u64::from(index) + 10
        } else {
            NO_NUMBER
        }
    }
}

fn rewritten(alloc: Global, bytes: &[u8]) -> Result<Vec<u8>, AllocError> {
    let mut marks = Vec::new(alloc);
    let mut to = Vec::new(alloc);
    let mut opened = Vec::new(alloc);
    let mut unmarked = unmarked_from(alloc, u32::MAX);
    if let Some(_count) = scan_body(bytes, &LIMITS, &mut opened, &mut unmarked, &mut marks)? {
        let _all = append_filled(&mut to, bytes, marks.as_slice(), &TenMore {})?;
    }
    Ok(to)
}

#[test]
fn indices_get_new_numbers(rt: HostRuntime) -> Result<(), Fail> {
    for (text, wanted) in &ROWS {
        let bytes = bytes_of(rt.alloc(), text)?;
        let given = rewritten(rt.alloc(), &bytes)?;
        demand_bytes(rt.alloc(), &given, wanted, text)?;
    }
    Ok(())
}
