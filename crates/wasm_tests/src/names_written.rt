//! Payloads of the name section that are written, against bytes worked out from the standard.

use std::alloc::{AllocError, Global};
use std::test::Fail;
use test_support::{add_bytes, are, demand};
use wasm_payloads::{RawLocals, RawName, RawNames, write_names};

fn no_names(alloc: Global) -> RawNames<'static> {
    RawNames {
        module_name: None,
        functions: Vec::new(alloc),
        locals: Vec::new(alloc),
        types: Vec::new(alloc),
        tables: Vec::new(alloc),
        memories: Vec::new(alloc),
        globals: Vec::new(alloc),
        elements: Vec::new(alloc),
        data_segments: Vec::new(alloc),
        tags: Vec::new(alloc),
    }
}

fn one(alloc: Global, index: u32, name: &'static str) -> Result<Vec<RawName<'static>>, AllocError> {
    let mut names = Vec::new(alloc);
    names.push(RawName { index, name })?;
    Ok(names)
}

// The name of 0, and another.
fn two(
    alloc: Global,
    first: &'static str,
    index: u32,
    name: &'static str,
) -> Result<Vec<RawName<'static>>, AllocError> {
    let mut names = one(alloc, 0, first)?;
    names.push(RawName { index, name })?;
    Ok(names)
}

fn locals_of_one(alloc: Global) -> Result<Vec<RawLocals<'static>>, AllocError> {
    let names = two(alloc, "x", 2, "\u{E9}")?;
    let mut locals = Vec::new(alloc);
    locals.push(RawLocals { function: 1, names })?;
    Ok(locals)
}

// The module, two functions, locals of one of them, and a type.
fn some_names(alloc: Global) -> Result<RawNames<'static>, AllocError> {
    let mut names = no_names(alloc);
    names.module_name = Some("m");
    names.functions = two(alloc, "f", 200, "g")?;
    names.locals = locals_of_one(alloc)?;
    names.types = one(alloc, 3, "t")?;
    Ok(names)
}

// An item of each other space.
fn other_names(alloc: Global) -> Result<RawNames<'static>, AllocError> {
    let mut names = no_names(alloc);
    names.tables = one(alloc, 0, "T")?;
    names.memories = one(alloc, 0, "M")?;
    names.globals = one(alloc, 0, "G")?;
    names.elements = one(alloc, 0, "E")?;
    names.data_segments = one(alloc, 0, "D")?;
    names.tags = one(alloc, 0, "X")?;
    Ok(names)
}

fn is_written(alloc: Global, names: &RawNames<'_>, text: &str) -> bool {
    let mut bytes = Vec::new(alloc);
    write_names(alloc, &mut bytes, names).is_ok() && are(alloc, &bytes, text)
}

#[test]
fn names_are_written(rt: HostRuntime) -> Result<(), Fail> {
    let some =
        "00 02 01 6D 01 08 02 00 01 66 C8 01 01 67 02 0A 01 01 02 00 01 78 02 02 C3 A9 04 04 01 03 01 74";
    demand(is_written(rt.alloc(), &some_names(rt.alloc())?, some), some)?;
    let others =
        "05 04 01 00 01 54 06 04 01 00 01 4D 07 04 01 00 01 47 08 04 01 00 01 45 09 04 01 00 01 44 0B 04 01 00 01 58";
    demand(
        is_written(rt.alloc(), &other_names(rt.alloc())?, others),
        others,
    )
}

// Where nothing has a name, the bytes stay.
fn adds_nothing(alloc: Global, bytes: &mut Vec<u8>) -> bool {
    add_bytes(bytes, "AA")
        && write_names(alloc, bytes, &no_names(alloc)).is_ok()
        && are(alloc, bytes, "AA")
}

#[test]
fn no_names_are_no_bytes(rt: HostRuntime) -> Result<(), Fail> {
    let mut bytes = Vec::new(rt.alloc());
    demand(adds_nothing(rt.alloc(), &mut bytes), "no subsection")
}
