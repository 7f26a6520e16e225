//! What the roots of a module reach: how many items, and how many ids the set of each kind holds.

use crate::made::read;
use std::alloc::Global;
use std::test::Fail;
use test_support::demand;
use walrus::passes::Used;
use walrus::{IdHashSet, Module};

// A function that drops a data segment, and the memory that stays with data, which isn't counted.
pub(crate) const DROPS_DATA: &str =
    "00 61 73 6D 01 00 00 00 01 04 01 60 00 00 03 02 01 00 05 03 01 00 01 07 05 01 01 66 00 00 0C 01 01 0A 07 01 05 00 FC 09 00 0B 0B 04 01 01 01 AA";

// An active segment of a function, and its table.
const ACTIVE: &str =
    "00 61 73 6D 01 00 00 00 01 04 01 60 00 00 03 02 01 00 04 04 01 70 00 01 09 07 01 00 41 00 0B 01 00 0A 04 01 02 00 0B";

// An exported global of the first type of a group of two.
pub(crate) const GROUP: &str =
    "00 61 73 6D 01 00 00 00 01 09 01 4E 02 5F 00 5F 01 7F 00 06 07 01 63 00 00 D0 00 0B 07 05 01 01 67 03 00";

// Whether the set holds so many ids.
fn holds<K>(ids: &IdHashSet<K>, count: usize) -> bool {
    ids.iter().take(9).count() == count
}

// Whether so many types, functions, globals and tags are used.
fn are_used(used: &Used, wanted: &[usize; 4]) -> bool {
    let [types, functions, globals, tags] = *wanted;
    holds(&used.types, types)
        && holds(&used.funcs, functions)
        && holds(&used.globals, globals)
        && holds(&used.tags, tags)
}

// The same of tables and memories, and of what is copied into them.
fn stand_with(used: &Used, wanted: &[usize; 4]) -> bool {
    let [tables, elements, memories, data] = *wanted;
    holds(&used.tables, tables)
        && holds(&used.elements, elements)
        && holds(&used.memories, memories)
        && holds(&used.data_, data)
}

fn reaches(
    alloc: Global,
    module: &Module,
    items: usize,
    ids: &[usize; 4],
    others: &[usize; 4],
) -> bool {
    match Used::counted(alloc, module) {
        Ok((used, reached)) => reached == items
            && are_used(&used, ids)
            && stand_with(&used, others),
        Err(_) => false,
    }
}

// Whether the roots of the module that the text says reach what they have to.
fn does_text_reach(
    alloc: Global,
    text: &str,
    items: usize,
    ids: &[usize; 4],
    others: &[usize; 4],
) -> bool {
    match read(alloc, text) {
        Ok(module) => reaches(alloc, &module, items, ids, others),
        Err(_) => false,
    }
}

// Modules, how many items their roots have to reach, how many types, functions, globals and tags, and how many tables, element segments,
// memories and data segments.
const ROWS: [(&str, usize, [usize; 4], [usize; 4]); 3] = [
    // the function, its type, the data segment, and the memory
    (DROPS_DATA, 3, [1, 1, 0, 0], [0, 0, 1, 1]),
    // the function, its type, the table and its segment
    (ACTIVE, 4, [1, 1, 0, 0], [1, 1, 0, 0]),
    // the global and both types
    (GROUP, 3, [2, 0, 1, 0], [0, 0, 0, 0]),
];

#[test]
fn what_is_used(rt: HostRuntime) -> Result<(), Fail> {
    for (text, items, ids, others) in &ROWS {
        demand(does_text_reach(rt.alloc(), text, *items, ids, others), text)?;
    }
    Ok(())
}
