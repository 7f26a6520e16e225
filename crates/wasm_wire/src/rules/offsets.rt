//! The offsets of active segments (Validation > Modules > Element Segments, Data Segments).

ghost use Rattle.std.specs.Prelude.{◌≡◌, map, slice_get, Bool};
ghost use Rattle.wasm_entries.specs.Record.{Element, Segment, element_entry, data_entry, element_mode, data_mode};
ghost use Rattle.wasm_frames.specs.Record.{sections};
ghost use Rattle.wasm_wire.specs.Broken.{OffsetsHold};
ghost use Rattle.wasm_wire.specs.Gathering.{context};
ghost use Rattle.wasm_wire.specs.Rules.{IsAddress, GlobalIsAddress, SingleHolds, OffsetHolds, TableOffsetHolds, MemoryOffsetHolds, ElementOffsetHolds, DataOffsetHolds, Checks};

use super::declared::Declared;
use super::each::{Rule, check_all};
use wasm_entries::{
    RawConst, RawData, RawDataMode, RawElement, RawElementMode, RawGlobalType, RawLimits,
    RawTableType,
};
use wasm_forms::{RawVal, WireError};
use wasm_frames::Raw;

/// Whether addresses of this width have this type.
fn check_address(wide: bool, value: RawVal) -> Result<(), WireError>
    ensures { Checks result (IsAddress wide value) }
{
    match (wide, value) {
        (true, RawVal::I64) | (false, RawVal::I32) => Ok(()),
        _ => Err(WireError::Malformed),
    }
}

/// Whether addresses are of this width.
fn check_width(wide: bool, wanted: bool) -> Result<(), WireError>
    ensures { Checks result (wide ≡ wanted) }
{
    if wide == wanted {
        Ok(())
    } else {
        Err(WireError::Malformed)
    }
}

/// Whether a single instruction gives an address of this width, where it is plain.
fn check_single(globals: &[RawGlobalType], wide: bool, op: &RawConst) -> Result<(), WireError>
    ensures { Checks result (SingleHolds globals.now wide op.now) }
{
    match op {
        RawConst::I32Const(_) => check_width(wide, false),
        RawConst::I64Const(_) => check_width(wide, true),
        RawConst::GlobalGet(global) => match globals.get(*global as usize) {
            Some(ty) => check_address(wide, ty.value),
            None => Err(WireError::Malformed),
        },
        RawConst::F32Const(_)
        | RawConst::F64Const(_)
        | RawConst::V128Const(_)
        | RawConst::RefNull(_)
        | RawConst::RefFunc(_) => Err(WireError::Malformed),
        RawConst::I32Add
        | RawConst::I32Sub
        | RawConst::I32Mul
        | RawConst::I64Add
        | RawConst::I64Sub
        | RawConst::I64Mul
        | RawConst::StructNew(_)
        | RawConst::StructNewDefault(_)
        | RawConst::ArrayNew(_)
        | RawConst::ArrayNewDefault(_)
        | RawConst::ArrayNewFixed(_, _)
        | RawConst::AnyConvertExtern
        | RawConst::ExternConvertAny
        | RawConst::RefI31 => Ok(()),
    }
}

/// Whether an offset gives an address of this width, where it is a single plain instruction.
fn check_offset(globals: &[RawGlobalType], wide: bool, offset: &[RawConst]) -> Result<(), WireError>
    ensures { Checks result (OffsetHolds globals.now wide offset.now) }
{
    if offset.len() == 1 {
        return check_single(globals, wide, &offset[0]);
    }
    Ok(())
}

/// Offsets in these tables and memories, by these globals.
#[derive(Clone, Copy)]
struct Offsets<'d> {
    tables: &'d [RawTableType],
    memories: &'d [RawLimits],
    globals: &'d [RawGlobalType],
}

impl<'d> Rule<RawElement> for Offsets<'d> {
    ghost Seen = { Element };

    ghost view = { element_entry };

    ghost Holds = { λ r e. ElementOffsetHolds r.tables.now r.globals.now e };

    fn check(&self, item: &RawElement) -> Result<(), WireError> {
        match &item.mode {
            RawElementMode::Active(table, offset) => {
                match self.tables.get(table.unwrap_or(0) as usize) {
                    Some(ty) => check_offset(self.globals, ty.limits.wide, offset.operators()),
                    None => Ok(()),
                }
            }
            RawElementMode::Passive | RawElementMode::Declared => Ok(()),
        }
    }
}

impl<'d, 'a> Rule<RawData<'a>> for Offsets<'d> {
    ghost Seen = { Segment };

    ghost view = { data_entry };

    ghost Holds = { λ r d. DataOffsetHolds r.memories.now r.globals.now d };

    fn check(&self, item: &RawData<'a>) -> Result<(), WireError> {
        match &item.mode {
            RawDataMode::Active(memory, offset) => match self.memories.get(*memory as usize) {
                Some(limits) => check_offset(self.globals, limits.wide, offset.operators()),
                None => Ok(()),
            },
            RawDataMode::Passive => Ok(()),
        }
    }
}

/// Whether the offsets of all segments are addresses.
pub fn check_offsets(declared: &Declared<'_>, raw: &Raw<'_>) -> Result<(), WireError>
    ensures { Checks result (OffsetsHold (context declared.now) (sections raw.now)) }
{
    let offsets = Offsets {
        tables: &declared.tables,
        memories: &declared.memories,
        globals: &declared.globals,
    };
    check_all(&offsets, &raw.elements)?;
    check_all(&offsets, &raw.data_)
}
