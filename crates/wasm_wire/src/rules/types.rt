//! Types name earlier ones (Validation > Types > Recursive Types).

ghost use Rattle.std.specs.Prelude.{ℕ, ◌<◌, map};
ghost use Rattle.wasm_entries.specs.Record.{Comp, Sub, comp, group, sub};
ghost use Rattle.wasm_frames.specs.Record.{sections};
ghost use Rattle.wasm_wire.specs.Indices.{
  HeapHolds,
  ValueHolds,
  StorageHolds,
  FieldHolds,
  CompHolds,
  SubRefers,
  GroupRefers,
  TypesRefer,
};
ghost use Rattle.wasm_wire.specs.Gathering.{EachRefers};
ghost use Rattle.wasm_wire.specs.Rules.{Checks};
ghost use Rattle.wasm_forms.specs.declared.types.RawVal.{RawVal};
ghost use Rattle.wasm_entries.specs.declared.record.RawFieldType.{RawFieldType};

use super::counts::check_below;
use super::each::{NumberedRule, Rule, add, check_all, check_from};
use wasm_entries::{RawComp, RawFieldType, RawGroup, RawStorage, RawSub};
use wasm_forms::{RawHeap, RawVal, WireError};
use wasm_frames::Raw;

/// The indices below this count.
#[derive(Clone, Copy)]
pub struct Below {
    pub count: usize,
}

impl Rule<u32> for Below {
    ghost Seen = { ℕ };

    ghost view = { λ n. n };

    ghost Holds = { λ r n. n < r.count };

    fn check(&self, item: &u32) -> Result<(), WireError> {
        check_below(*item, self.count)
    }
}

/// Whether a heap type names one of so many types.
pub fn check_heap(types: usize, heap: RawHeap) -> Result<(), WireError>
    ensures { Checks result (HeapHolds types heap) }
{
    match heap {
        RawHeap::Index(index) => check_below(index, types),
        RawHeap::Abstract(_) => Ok(()),
    }
}

/// Whether a value type names one of so many types.
pub fn check_value(types: usize, value: RawVal) -> Result<(), WireError>
    ensures { Checks result (ValueHolds types value) }
{
    match value {
        RawVal::Ref(reference) => check_heap(types, reference.heap),
        RawVal::I32 | RawVal::I64 | RawVal::F32 | RawVal::F64 | RawVal::V128 => Ok(()),
    }
}

/// Whether what a field holds names one of so many types.
fn check_field(types: usize, field: RawFieldType) -> Result<(), WireError>
    ensures { Checks result (FieldHolds types field) }
{
    match field.storage {
        RawStorage::Val(value) => check_value(types, value),
        RawStorage::I8 | RawStorage::I16 => Ok(()),
    }
}

impl Rule<RawVal> for Below {
    ghost Seen = { RawVal };

    ghost view = { λ v. v };

    ghost Holds = { λ r v. ValueHolds r.count v };

    fn check(&self, item: &RawVal) -> Result<(), WireError> {
        check_value(self.count, *item)
    }
}

impl Rule<RawFieldType> for Below {
    ghost Seen = { RawFieldType };

    ghost view = { λ f. f };

    ghost Holds = { λ r f. FieldHolds r.count f };

    fn check(&self, item: &RawFieldType) -> Result<(), WireError> {
        check_field(self.count, *item)
    }
}

/// Whether a composite type names types below this index alone.
fn check_comp(end: usize, held: &RawComp) -> Result<(), WireError>
    ensures { Checks result (CompHolds end (comp held.now)) }
{
    let below = Below { count: end };
    match held {
        RawComp::Func(ty) => {
            check_all(&below, &ty.params)?;
            check_all(&below, &ty.results)
        }
        RawComp::Struct(fields) => check_all(&below, fields),
        RawComp::Array(field) => check_field(end, *field),
    }
}

/// Whether the type of this index names types before this end, and one supertype at most, before itself.
fn check_sub(end: usize, index: usize, held: &RawSub) -> Result<(), WireError>
    ensures { Checks result (SubRefers end index (sub held.now)) }
{
    if held.supers.len() > 1 {
        return Err(WireError::Malformed);
    }
    check_all(&Below { count: index }, &held.supers)?;
    check_comp(end, &held.comp)
}

/// The types of a group that ends before this index.
#[derive(Clone, Copy)]
struct Members {
    end: usize,
}

impl NumberedRule<RawSub> for Members {
    ghost Seen = { Sub };

    ghost view = { sub };

    ghost Holds = { λ r n s. SubRefers r.end n s };

    fn check(&self, number: usize, item: &RawSub) -> Result<(), WireError> {
        check_sub(self.end, number, item)
    }
}

/// Whether the types of a group, the first of which has this index, name types of earlier groups and of their own.
fn check_group(first: usize, held: &RawGroup) -> Result<(), WireError>
    ensures { Checks result (GroupRefers first (group held.now)) }
{
    let end = add(first, held.len())?;
    check_from(&Members { end }, first, held)
}

/// Whether the types of each group, as it lies in memory, name types of earlier groups and of their own.
fn check_each_group(groups: &[RawGroup]) -> Result<(), WireError>
    ensures { Checks result (EachRefers groups.now) }
{
    let mut first: usize = 0;
    for held in groups {
        check_group(first, held)?;
        first = add(first, held.len())?;
    }
    Ok(())
}

/// Whether the types of each group name types of earlier groups and of their own.
fn check_groups(groups: &[RawGroup]) -> Result<(), WireError>
    ensures { Checks result (TypesRefer (map group groups.now)) }
{
    check_each_group(groups)
}

/// Whether the types of a module name types of earlier groups and of their own.
pub fn check_types(raw: &Raw<'_>) -> Result<(), WireError>
    ensures { Checks result (TypesRefer (sections raw.now).types) }
{
    check_groups(&raw.types)
}
