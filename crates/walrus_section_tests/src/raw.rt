//! Sections that were read, and raw ones beside a caller's own.

use crate::made::{add_noted, demand_twice, read, two_functions};
use crate::noted::Refuses;
use std::alloc::Global;
use std::test::Fail;
use test_support::{demand, is_text};
use walrus::{
    Error, Module, ModuleCustomSections, RawCustomSection, SectionEntry, UntypedCustomSectionId,
};

// Sections `a` and `b`, debug information, and dynamic linking between two sections.
const READ: &str =
    "00 61 73 6D 01 00 00 00 00 03 01 61 01 00 0D 0B 2E 64 65 62 75 67 5F 69 6E 66 6F 02 01 04 01 60 00 00 03 02 01 00 07 05 01 01 66 00 00 00 0A 08 64 79 6C 69 6E 6B 2E 30 03 0A 04 01 02 00 0B 00 03 01 62 04";

// Without the debug information, dynamic linking first, and `a` and `b` behind all others.
const WRITTEN: &str =
    "00 61 73 6D 01 00 00 00 00 0A 08 64 79 6C 69 6E 6B 2E 30 03 01 04 01 60 00 00 03 02 01 00 07 05 01 01 66 00 00 0A 04 01 02 00 0B 00 03 01 61 01 00 03 01 62 04";

#[test]
fn sections_that_were_read_are_written_twice(rt: HostRuntime) -> Result<(), Fail> {
    let mut module = read(rt.alloc(), READ)?;
    demand_twice(rt.alloc(), &mut module, WRITTEN)
}

fn raw_section(alloc: Global, name: &str) -> Result<SectionEntry, Error> {
    let mut data = Vec::new(alloc);
    data.push(7)?;
    Ok(SectionEntry::Raw(RawCustomSection {
        name: String::from_str(alloc, name)?,
        data_: data,
    }))
}

fn takes_raw(customs: &mut ModuleCustomSections, name: &str) -> bool {
    match customs.remove_raw(name) {
        Some(section) => is_text(&section.name, name),
        None => false,
    }
}

fn takes_boxed(customs: &mut ModuleCustomSections, id: UntypedCustomSectionId) -> bool {
    matches!(customs.delete(id), Some(SectionEntry::Boxed(_)))
}

// Whether these are the ids of all sections that are there.
fn have_ids(
    alloc: Global,
    customs: &ModuleCustomSections,
    wanted: &[UntypedCustomSectionId],
) -> bool {
    match customs.ids(alloc) {
        Ok(ids) => ids.as_slice() == wanted,
        Err(_) => false,
    }
}

// Fails where a raw section isn't taken by its name, or the boxed one in front of it, which has the same, not by its id.
fn take_raw_and_boxed(alloc: Global, customs: &mut ModuleCustomSections) -> Result<(), Fail> {
    let Some((boxed, _)) = customs.iter().next() else {
        return demand(false, "a boxed section");
    };
    let raw = customs.add(raw_section(alloc, "s")?)?;
    demand(have_ids(alloc, customs, &[boxed, raw]), "both ids")?;
    demand(takes_raw(customs, "s"), "the raw one, by its name")?;
    demand(takes_boxed(customs, boxed), "the boxed one, by its id")
}

fn take_by_name_and_id(alloc: Global, module: &mut Module) -> Result<(), Fail> {
    demand(
        add_noted(alloc, module, "s", Refuses::Nothing),
        "a boxed section",
    )?;
    take_raw_and_boxed(alloc, &mut module.customs)
}

#[test]
fn a_raw_section_behind_a_boxed_one_of_its_name(rt: HostRuntime) -> Result<(), Fail> {
    let mut module = two_functions(rt.alloc())?;
    take_by_name_and_id(rt.alloc(), &mut module)
}
