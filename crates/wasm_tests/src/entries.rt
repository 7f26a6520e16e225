//! The entries of sections, read and written: other spellings come out in the one that is written.

use std::alloc::Global;
use std::test::Fail;
use test_support::{add_bytes, are, demand, is_text};
use wasm_entries::{
    RawData, RawElement, RawExport, RawGlobal, RawImport, RawLimits, RawTable, read_expression,
    read_group, read_groups, write_expression, write_group, write_groups, write_limits,
};
use wasm_forms::{Element, WireError, Written};

/// What is read and written.
#[derive(Clone, Copy)]
enum Kind {
    Group,
    Groups,
    Import,
    Export,
    Table,
    Limits,
    Global,
    Expression,
    Element,
    Data,
}

fn rewrites_entry<'a, E: Element<'a> + Written + Drop>(
    alloc: Global,
    bytes: &'a [u8],
    written: &mut Vec<u8>,
) -> bool {
    match E::read(alloc, bytes) {
        Ok((entry, rest)) => rest.is_empty() && entry.write(written).is_ok(),
        Err(_) => false,
    }
}

fn rewrites_limits(alloc: Global, bytes: &[u8], written: &mut Vec<u8>) -> bool {
    match RawLimits::read(alloc, bytes) {
        Ok((limits, rest)) => rest.is_empty() && write_limits(written, &limits).is_ok(),
        Err(_) => false,
    }
}

fn rewrites_group(alloc: Global, bytes: &[u8], written: &mut Vec<u8>) -> bool {
    match read_group(alloc, bytes) {
        Ok((group, rest)) => rest.is_empty() && write_group(written, &group).is_ok(),
        Err(_) => false,
    }
}

fn rewrites_groups(alloc: Global, bytes: &[u8], written: &mut Vec<u8>) -> bool {
    match read_groups(alloc, bytes) {
        Ok((groups, rest)) => rest.is_empty() && write_groups(written, &groups).is_ok(),
        Err(_) => false,
    }
}

fn rewrites_expression(alloc: Global, bytes: &[u8], written: &mut Vec<u8>) -> bool {
    match read_expression(alloc, bytes) {
        Ok((expression, rest)) => rest.is_empty()
            && write_expression(written, expression.operators()).is_ok(),
        Err(_) => false,
    }
}

/// Whether these bytes are read as such an entry, which is then written.
fn rewrites(alloc: Global, kind: Kind, bytes: &[u8], written: &mut Vec<u8>) -> bool {
    match kind {
        Kind::Group => rewrites_group(alloc, bytes, written),
        Kind::Groups => rewrites_groups(alloc, bytes, written),
        Kind::Import => rewrites_entry::<RawImport<'_>>(alloc, bytes, written),
        Kind::Export => rewrites_entry::<RawExport<'_>>(alloc, bytes, written),
        Kind::Table => rewrites_entry::<RawTable>(alloc, bytes, written),
        Kind::Limits => rewrites_limits(alloc, bytes, written),
        Kind::Global => rewrites_entry::<RawGlobal>(alloc, bytes, written),
        Kind::Expression => rewrites_expression(alloc, bytes, written),
        Kind::Element => rewrites_entry::<RawElement>(alloc, bytes, written),
        Kind::Data => rewrites_entry::<RawData<'_>>(alloc, bytes, written),
    }
}

fn comes_out(alloc: Global, kind: Kind, input: &str, output: &str) -> bool {
    let mut bytes = Vec::new(alloc);
    let mut written = Vec::new(alloc);
    add_bytes(&mut bytes, input)
        && rewrites(alloc, kind, &bytes, &mut written)
        && are(alloc, &written, output)
}

// Entries that are written as they are.
const SAME: [(Kind, &str); 21] = [
    // a type with a supertype
    (Kind::Group, "50 01 00 60 00 00"),
    // a struct of one byte
    (Kind::Group, "5F 01 78 01"),
    (Kind::Groups, "02 50 00 60 00 00 50 01 00 60 00 00"),
    // a function, a table, a memory, a global and a tag
    (Kind::Import, "01 6D 01 62 00 00"),
    (Kind::Import, "01 6D 01 74 01 70 00 01"),
    (Kind::Import, "01 6D 01 79 02 01 01 02"),
    (Kind::Import, "01 6D 01 67 03 7F 01"),
    (Kind::Import, "01 6D 01 65 04 00 00"),
    (Kind::Export, "01 67 03 01"),
    // a table with an initialiser
    (Kind::Table, "40 00 70 00 00 D0 70 0B"),
    (Kind::Global, "7F 00 41 00 0B"),
    (
        Kind::Expression,
        "44 00 00 00 00 00 00 F0 3F 42 7F FB 08 01 02 0B",
    ),
    // segments of each flag
    (Kind::Element, "00 41 00 0B 01 00"),
    (Kind::Element, "01 00 01 00"),
    (Kind::Element, "02 00 41 00 0B 00 01 00"),
    (Kind::Element, "03 00 01 01"),
    (Kind::Element, "04 41 00 0B 01 D2 00 0B"),
    (Kind::Element, "05 70 01 D2 00 0B"),
    (Kind::Element, "06 00 41 00 0B 70 01 D2 00 0B"),
    (Kind::Element, "07 70 01 D2 00 0B"),
    (Kind::Data, "01 01 AA"),
];

// Other entries, and what is written of them.
const OTHERS: [(Kind, &str, &str); 5] = [
    // a group of one type, with its count
    (Kind::Group, "4E 01 60 00 00", "60 00 00"),
    // a final type without supertypes
    (Kind::Group, "4F 00 60 00 00", "60 00 00"),
    // a nullable reference to a function
    (Kind::Group, "60 01 63 70 00", "60 01 70 00"),
    // a minimum in two bytes
    (Kind::Limits, "01 80 00 02", "01 00 02"),
    // a memory's index that needs no mention
    (Kind::Data, "02 00 41 00 0B 01 AA", "00 41 00 0B 01 AA"),
];

fn each_stays(alloc: Global, rows: &[(Kind, &str)]) -> Result<(), Fail> {
    for (kind, text) in rows {
        demand(comes_out(alloc, *kind, text, text), text)?;
    }
    Ok(())
}

fn each_comes_out(alloc: Global, rows: &[(Kind, &str, &str)]) -> Result<(), Fail> {
    for (kind, input, output) in rows {
        demand(comes_out(alloc, *kind, input, output), input)?;
    }
    Ok(())
}

#[test]
fn entries_come_out_in_one_spelling(rt: HostRuntime) -> Result<(), Fail> {
    each_stays(rt.alloc(), &SAME)?;
    each_comes_out(rt.alloc(), &OTHERS)
}
