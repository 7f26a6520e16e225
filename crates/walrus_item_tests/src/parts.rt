//! Errors and their texts, roots, and custom sections.

use std::alloc::{AllocError, Global};
use std::test::Fail;
use test_support::{add_bytes, are, demand, first_id, is_text};
use walrus_ir::IdsToIndices;
use walrus_items::{CustomSection, Error, ErrorKind, RawCustomSection, Roots};

fn says(alloc: Global, error: Error, text: &str) -> Result<(), Fail> {
    demand(is_text(&error.to_string(alloc)?, text), text)
}

const INVALID: &str = "The input WebAssembly is invalid";

fn bytes_are_told(alloc: Global) -> Result<(), Fail> {
    demand(
        is_text(&ErrorKind::InvalidWasm.to_string(alloc)?, INVALID),
        INVALID,
    )?;
    says(alloc, Error::InvalidWasm(ErrorKind::InvalidWasm), INVALID)?;
    says(alloc, Error::TooLarge, "a count or size passes 32 bits")?;
    says(alloc, Error::NotWritable, "a form that cannot be written")?;
    says(alloc, Error::Memory(AllocError), "out of memory")
}

fn items_are_told(alloc: Global) -> Result<(), Fail> {
    let dead = "reference to an item that is not live";
    says(alloc, Error::DeadItem, dead)?;
    says(alloc, Error::NoIndex, "an item has no index")?;
    says(alloc, Error::TwoIndices, "an item has two indices")?;
    says(alloc, Error::NotFound, "not found")
}

fn memories_and_tables_are_told(alloc: Global) -> Result<(), Fail> {
    let several = "multiple memories unsupported";
    says(alloc, Error::SeveralMemories, several)?;
    says(alloc, Error::NoMemory, "module does not export a memory")?;
    let tables = "module contains more than one function table";
    says(alloc, Error::SeveralFunctionTables, tables)
}

fn functions_are_told(alloc: Global) -> Result<(), Fail> {
    let exported = "no exported function with this id";
    says(alloc, Error::NotExported, exported)?;
    let imported = "no imported function with this id";
    says(alloc, Error::NotImported, imported)?;
    says(alloc, Error::NotReplaceable, "cannot replace function")
}

#[test]
fn each_error_has_its_text(rt: HostRuntime) -> Result<(), Fail> {
    bytes_are_told(rt.alloc())?;
    items_are_told(rt.alloc())?;
    memories_and_tables_are_told(rt.alloc())?;
    functions_are_told(rt.alloc())?;
    let own = "a text of its own";
    let text = String::from_str(rt.alloc(), own)?;
    says(rt.alloc(), Error::Caller(text), own)
}

fn ask_for_each(alloc: Global, roots: &mut Roots) -> Result<(), Error> {
    roots
        .push_func(first_id(alloc))?
        .push_table(first_id(alloc))?
        .push_memory(first_id(alloc))?;
    roots
        .push_global(first_id(alloc))?
        .push_tag(first_id(alloc))?;
    Ok(())
}

#[test]
fn roots_of_each_kind(rt: HostRuntime) -> Result<(), Fail> {
    let mut roots = Roots::new(rt.alloc());
    ask_for_each(rt.alloc(), &mut roots)?;
    demand(roots.funcs().len() == 1, "a function")?;
    demand(roots.tables().len() == 1, "a table")?;
    demand(roots.memories().len() == 1, "a memory")?;
    demand(roots.globals().len() == 1, "a global")?;
    demand(roots.tags().len() == 1, "a tag")
}

fn tell_section(alloc: Global, section: &RawCustomSection) -> Result<(), Fail> {
    let bytes = section.data(&IdsToIndices::new(alloc))?;
    demand(are(alloc, &bytes, "01 02"), "its bytes")?;
    let copy = section.try_clone()?;
    demand(copy == *section, "its clone")
}

#[test]
fn a_raw_section(rt: HostRuntime) -> Result<(), Fail> {
    let mut section = RawCustomSection {
        name: String::from_str(rt.alloc(), "a")?,
        data_: Vec::new(rt.alloc()),
    };
    demand(add_bytes(&mut section.data_, "01 02"), "two bytes")?;
    tell_section(rt.alloc(), &section)
}
