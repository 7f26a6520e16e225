//! Items by their indices, and the indices of items and locals.

use std::alloc::Global;
use std::test::Fail;
use test_support::{demand, first_id, second_id};
use walrus_base::{Id, TableKey};
use walrus_code::{IdsToIndices, IndexSpace, IndicesToIds, LocalNumbers, Numbering};

fn items_are_found(alloc: Global) -> bool {
    let mut space: IndexSpace<TableKey> = IndexSpace::new(alloc);
    space.push(Id::at(5)).is_ok()
        && space.len() == 1
        && space.in_front() == 0
        && space.get(0) == Some(Id::at(5))
        && space.get(1).is_none()
}

fn an_item_in_place_is_found(alloc: Global) -> bool {
    let mut space: IndexSpace<TableKey> = IndexSpace::new(alloc);
    space.push(Id::at(0)).is_ok()
        && space.len() == 1
        && space.in_front() == 1
        && space.get(0) == Some(Id::at(0))
        && space.get(1).is_none()
}

fn items_are_in_place(alloc: Global) -> bool {
    let Ok(space) = IndexSpace::<TableKey>::in_place(alloc, 3) else {
        return false;
    };
    space.len() == 3
        && space.in_front() == 3
        && space.get(2) == Some(Id::at(2))
        && space.get(3).is_none()
}

fn items_are_numbered(alloc: Global) -> bool {
    let mut numbers: Numbering<TableKey> = Numbering::new(alloc);
    numbers.push(Id::at(5)).is_ok()
        && numbers.count() == 1
        && numbers.get(Id::at(5)) == Some(0)
        && numbers.get(Id::at(0)).is_none()
}

fn items_are_numbered_along(alloc: Global) -> bool {
    let order: [Id<TableKey>; 2] = [Id::at(2), Id::at(0)];
    let Ok(numbers) = Numbering::along(alloc, &order) else {
        return false;
    };
    numbers.count() == 2
        && numbers.get(order[0]) == Some(0)
        && numbers.get(order[1]) == Some(1)
        && numbers.get(Id::at(1)).is_none()
}

// Each way: the second item gets the index 0, the first one has none, and no item has the index 1.
macro_rules! both_ways {
    ($alloc:expr, $space:ident, $push:ident, $get:ident, $get_index:ident) => {{
        let (mut ids, mut indices) = (IndicesToIds::new($alloc), IdsToIndices::new($alloc));
        ids.$space = IndexSpace::new($alloc);
        indices.$space = Numbering::new($alloc);
        let (other, id) = (first_id($alloc), second_id($alloc));
        ids.$push(id).is_ok()
            && ids.$get(0) == Some(id)
            && ids.$get(1).is_none()
            && indices.$push(id).is_ok()
            && indices.$get_index(id) == Some(0)
            && indices.$get_index(other).is_none()
    }};
}

fn types_have_indices(alloc: Global) -> bool {
    both_ways!(alloc, types, push_type, get_type, get_type_index)
}

fn functions_have_indices(alloc: Global) -> bool {
    both_ways!(alloc, functions, push_func, get_func, get_func_index)
}

fn tables_have_indices(alloc: Global) -> bool {
    both_ways!(alloc, tables, push_table, get_table, get_table_index)
}

fn memories_have_indices(alloc: Global) -> bool {
    both_ways!(alloc, memories, push_memory, get_memory, get_memory_index)
}

fn tags_have_indices(alloc: Global) -> bool {
    both_ways!(alloc, tags, push_tag, get_tag, get_tag_index)
}

fn globals_have_indices(alloc: Global) -> bool {
    both_ways!(alloc, globals, push_global, get_global, get_global_index)
}

fn elements_have_indices(alloc: Global) -> bool {
    both_ways!(
        alloc,
        elements,
        push_element,
        get_element,
        get_element_index
    )
}

fn segments_have_indices(alloc: Global) -> bool {
    both_ways!(alloc, data_, push_data, get_data, get_data_index)
}

fn locals_are_numbered(alloc: Global) -> bool {
    let (other, id) = (first_id(alloc), second_id(alloc));
    let mut numbers = LocalNumbers::new(alloc);
    numbers.push(id).is_ok()
        && numbers.get(id) == Some(0)
        && numbers.get(other).is_none()
        && numbers.len() == 1
}

#[test]
fn a_space_has_indices(rt: HostRuntime) -> Result<(), Fail> {
    demand(items_are_found(rt.alloc()), "items pushed")?;
    demand(
        an_item_in_place_is_found(rt.alloc()),
        "an item pushed in place",
    )?;
    demand(items_are_in_place(rt.alloc()), "items in place")
}

#[test]
fn a_numbering_has_indices(rt: HostRuntime) -> Result<(), Fail> {
    demand(items_are_numbered(rt.alloc()), "items pushed")?;
    demand(items_are_numbered_along(rt.alloc()), "items in order")
}

#[test]
fn all_spaces_have_indices(rt: HostRuntime) -> Result<(), Fail> {
    demand(types_have_indices(rt.alloc()), "types")?;
    demand(functions_have_indices(rt.alloc()), "functions")?;
    demand(tables_have_indices(rt.alloc()), "tables")?;
    demand(memories_have_indices(rt.alloc()), "memories")?;
    demand(tags_have_indices(rt.alloc()), "tags")?;
    demand(globals_have_indices(rt.alloc()), "globals")?;
    demand(elements_have_indices(rt.alloc()), "element segments")?;
    demand(segments_have_indices(rt.alloc()), "data segments")
}

#[test]
fn locals_have_indices(rt: HostRuntime) -> Result<(), Fail> {
    demand(locals_are_numbered(rt.alloc()), "locals")
}
