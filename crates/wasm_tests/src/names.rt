//! Payloads of the name section, and the namings that are told of them.

use crate::told::Told;
use std::alloc::Global;
use std::test::Fail;
use test_support::{bytes_of, demand, is_text};
use wasm_wire::read_names;

// Whether this is told of the payload, where the functions 0 and 1 are known.
fn says(alloc: Global, payload: &[u8], wanted: &str) -> bool {
    let mut told = Told::new(alloc, 2);
    read_names(payload, &mut told).is_ok() && is_text(&told.text, wanted)
}

// Each payload, and what is told of it.
const ROWS: [(&str, &str); 19] = [
    ("", ""),
    // each kind of name
    ("00 02 01 46", "module F;"),
    ("01 07 02 00 01 61 01 01 62", "function 0 a;function 1 b;"),
    ("02 06 01 00 01 00 01 4C", "local 0 0 L;"),
    (
        "04 04 01 00 01 4B 05 04 01 00 01 54 06 04 01 00 01 4D 07 04 01 00 01 47 08 04 01 00 01 45 09 04 01 00 01 44 0B 04 01 00 01 58",
        "type 0 K;table 0 T;memory 0 M;global 0 G;element 0 E;data 0 D;tag 0 X;",
    ),
    // an index that is out of range, and a name twice
    ("01 08 01 FF FF FF FF 0F 01 61", "function 4294967295 a;"),
    ("01 07 02 00 01 61 00 01 61", "function 0 a;function 0 a;"),
    // labels, fields and a subsection of no known kind are passed over
    ("03 01 78 0A 01 78 FF 01 78 00 02 01 46", "module F;"),
    // a map of two entries that ends in the second one
    ("01 05 02 00 01 61 01", "function 0 a;"),
    // a map that lies about its count
    ("01 08 FF FF FF FF 0F 00 01 61", "function 0 a;"),
    // a byte behind the module's name
    ("00 03 01 6D FF", ""),
    // a byte behind a map, and a subsection behind it
    ("01 05 01 00 01 61 FF 00 02 01 46", "function 0 a;"),
    // a name that is no text
    ("01 07 02 00 01 61 01 01 FF", "function 0 a;"),
    // subsections whose sizes pass the end
    ("00 02 01 46 01 05 01 00 01 61", "module F;"),
    ("00 02 01 46 FF FF FF FF FF 0F", "module F;"),
    // subsections up to one that isn't whole, and one behind it
    (
        "00 02 01 46 02 06 01 00 01 00 01 4C 06 04 01 00 01 4D 0B 04 01 00 01 54 09 01 78 00 02 01 47",
        "module F;local 0 0 L;memory 0 M;tag 0 T;",
    ),
    // the locals of a function that isn't known, of one before it and of one behind it
    (
        "02 10 03 00 01 00 01 61 02 01 00 01 62 01 01 00 01 63 01 04 01 00 01 64",
        "local 0 0 a;",
    ),
    ("02 02 01 02", ""),
    // a size and a count in longer spellings
    ("01 85 00 81 00 00 01 61", "function 0 a;"),
];

#[test]
fn namings_are_told(rt: HostRuntime) -> Result<(), Fail> {
    for (text, wanted) in &ROWS {
        let payload = bytes_of(rt.alloc(), text)?;
        demand(says(rt.alloc(), &payload, wanted), text)?;
    }
    Ok(())
}
