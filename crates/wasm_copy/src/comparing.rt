//! Whether two modules hold the same records.

ghost use Rattle.std.specs.Prelude.{◌≡◌, true, map};

use wasm_frames::{Raw, RawBody, RawCustom};
use wasm_wire::CustomGroup;

// Whether the module holds anything in the section of this id. A section that holds nothing isn't written.
fn holds(records: &Raw<'_>, id: u8) -> bool {
    match id {
        1 => !records.types.is_empty(),
        2 => !records.imports.is_empty(),
        3 => !records.functions.is_empty(),
        4 => !records.tables.is_empty(),
        5 => !records.memories.is_empty(),
        6 => !records.globals.is_empty(),
        7 => !records.exports.is_empty(),
        8 => records.start.is_some(),
        9 => !records.elements.is_empty(),
        10 => !records.bodies.is_empty(),
        11 => !records.data_.is_empty(),
        12 => records.data_count.is_some(),
        13 => !records.tags.is_empty(),
        _ => false,
    }
}

// Whether the copy has the sections of the module that hold anything, in their order.
fn same_order(records: &Raw<'_>, copy: &Raw<'_>) -> bool {
    records
        .order
        .iter()
        .filter(|id| holds(records, **id))
        .eq(copy.order.iter())
}

// Whether the bodies have the same bytes, wherever they start.
fn same_bodies(bodies: &[RawBody<'_>], copies: &[RawBody<'_>]) -> bool
    ensures { result ≡ true → map (λ b. b.bytes.now) bodies.now ≡ map (λ b. b.bytes.now) copies.now }
{
    bodies.len() == copies.len()
        && bodies
            .iter()
            .zip(copies.iter())
            .all(|(body, copy)| body.bytes == copy.bytes)
}

// Whether the copy has the custom sections of this group, in their order.
fn same_group(group: CustomGroup, customs: &[RawCustom<'_>], copies: &[RawCustom<'_>]) -> bool {
    customs
        .iter()
        .filter(|custom| group.has(custom.name))
        .eq(copies.iter().filter(|copy| group.has(copy.name)))
}

// Whether the copy has the custom sections of the module, group by group.
fn same_customs(customs: &[RawCustom<'_>], copies: &[RawCustom<'_>]) -> bool {
    same_group(CustomGroup::Dylink, customs, copies)
        && same_group(CustomGroup::Names, customs, copies)
        && same_group(CustomGroup::Producers, customs, copies)
        && same_group(CustomGroup::Others, customs, copies)
}

/// Whether a checked module and its copy hold the same records: all fields, but where bodies start, the order without the
/// sections that hold nothing, and custom sections group by group.
pub fn same_records(records: &Raw<'_>, copy: &Raw<'_>) -> bool
    ensures functions { result ≡ true → records.now.functions.items ≡ copy.now.functions.items }
    ensures tags { result ≡ true → records.now.tags.items ≡ copy.now.tags.items }
    ensures start { result ≡ true → records.now.start ≡ copy.now.start }
    ensures data_count { result ≡ true → records.now.data_count ≡ copy.now.data_count }
    ensures bodies { result ≡ true → map (λ b. b.bytes.now) records.now.bodies.items
        ≡ map (λ b. b.bytes.now) copy.now.bodies.items }
{
    same_order(records, copy)
        && records.types == copy.types
        && records.imports == copy.imports
        && records.functions == copy.functions
        && records.tables == copy.tables
        && records.memories == copy.memories
        && records.tags == copy.tags
        && records.globals == copy.globals
        && records.exports == copy.exports
        && records.start == copy.start
        && records.elements == copy.elements
        && records.data_count == copy.data_count
        && same_bodies(&records.bodies, &copy.bodies)
        && records.data_ == copy.data_
        && same_customs(&records.customs, &copy.customs)
}
