//! Element and data segments: how they are added, and clones of what element segments are.

use std::alloc::Global;
use std::test::Fail;
use test_support::{demand, first_id, second_id};
use walrus_base::DataId;
use walrus_ir::{AbstractHeapType, ConstExpr, HeapType, RefType, Value};
use walrus_items::{DataKind, Element, ElementItems, ElementKind, ModuleData, ModuleElements};

fn is_declared(kind: &ElementKind) -> bool {
    matches!(kind, ElementKind::Declared)
}

fn is_kind_cloned(alloc: Global, kind: &ElementKind) -> bool {
    match kind.try_clone(alloc) {
        Ok(copy) => is_declared(&copy) == is_declared(kind),
        Err(_) => false,
    }
}

fn length_of(items: &ElementItems) -> usize {
    match items {
        ElementItems::Functions(all) => all.len(),
        ElementItems::Expressions(_, all) => all.len(),
    }
}

fn are_items_cloned(alloc: Global, items: &ElementItems) -> bool {
    match items.try_clone(alloc) {
        Ok(copy) => length_of(&copy) == length_of(items),
        Err(_) => false,
    }
}

fn is_cloned(alloc: Global, element: &Element) -> bool {
    is_kind_cloned(alloc, &element.kind) && are_items_cloned(alloc, &element.items)
}

fn add_active(alloc: Global, elements: &mut ModuleElements) -> Result<(), Fail> {
    let externref = RefType {
        nullable: true,
        heap_type: HeapType::Abstract(AbstractHeapType::Extern),
    };
    let mut nulls = Vec::new(alloc);
    nulls.push(ConstExpr::RefNull(externref))?;
    let kind = ElementKind::Active {
        table: second_id(alloc),
        offset: ConstExpr::Value(Value::I32(7)),
    };
    let id = elements.add(kind, ElementItems::Expressions(externref, nulls))?;
    demand(
        elements.contains(id) && elements.get(id).id() == id,
        "an active segment",
    )?;
    demand(
        elements.contains(id) && is_cloned(alloc, elements.get(id)),
        "its clones",
    )
}

fn add_declared(alloc: Global, elements: &mut ModuleElements) -> Result<(), Fail> {
    let mut functions = Vec::new(alloc);
    functions.push(first_id(alloc))?;
    let id = elements.add(ElementKind::Declared, ElementItems::Functions(functions))?;
    demand(id.index() == 1, "a declared segment")?;
    demand(
        elements.contains(id) && is_cloned(alloc, elements.get(id)),
        "its clones",
    )
}

#[test]
fn elements_are_added(rt: HostRuntime) -> Result<(), Fail> {
    let mut elements = ModuleElements::new(rt.alloc());
    add_active(rt.alloc(), &mut elements)?;
    add_declared(rt.alloc(), &mut elements)
}

fn is_passive(segments: &ModuleData, id: DataId) -> bool {
    segments.contains(id) && segments.get(id).id() == id && segments.get(id).is_passive()
}

#[test]
fn data_are_added(rt: HostRuntime) -> Result<(), Fail> {
    let mut segments = ModuleData::new(rt.alloc());
    let id = segments.add(DataKind::Passive, Vec::new(rt.alloc()))?;
    demand(is_passive(&segments, id), "a passive segment")
}
