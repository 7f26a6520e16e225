//! The items that are told of a small module.

use std::result;
use std::test::Fail;
use test_support::{bytes_of, demand, demand_bytes};
use walrus_edits::{Wanted, items};

const PLAIN: Wanted = Wanted {
    names: true,
    producers: false,
    legacy: true,
};

// One type; function 0 is imported as `env` `f`, and function 1, whose body has four bytes from the 42nd on, is exported as `g`. Told last is the
// producer that a module gets as it is parsed.
const SMALL: &str =
    "00 61 73 6D 01 00 00 00 01 06 01 60 01 7F 01 7F 02 09 01 03 65 6E 76 01 66 00 00 03 02 01 00 07 05 01 01 67 00 01 0A 06 01 04 00 20 00 0B";

const ITEMS: &str =
    "01 05 60 01 7F 01 7F 02 06 03 65 6E 76 01 66 0A 02 01 00 0A 04 00 00 2A 04 07 04 01 67 00 01 15 1B 0C 70 72 6F 63 65 73 73 65 64 2D 62 79 06 77 61 6C 72 75 73 06 30 2E 32 38 2E 30";

#[test]
fn items_are_told_in_order(rt: HostRuntime) -> result::Result<(), Fail> {
    let alloc = rt.alloc();
    let bytes = bytes_of(alloc, SMALL)?;
    let told = items(alloc, &bytes, PLAIN)?;
    demand_bytes(alloc, &told, ITEMS, "a small module")
}

#[test]
fn items_of_no_module_are_refused(rt: HostRuntime) -> result::Result<(), Fail> {
    let alloc = rt.alloc();
    let bytes = bytes_of(alloc, "00 61 73 6D 01 00 00 00 FF")?;
    demand(items(alloc, &bytes, PLAIN).is_err(), "no section")
}
