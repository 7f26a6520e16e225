//! Subtypes, and groups of types that may name one another (Binary Format > Types > Recursive Types), read and written.

ghost use Rattle.std.specs.Prelude.{map};
ghost use Rattle.wasm_forms.specs.Reading.{Gives};
ghost use Rattle.wasm_forms.specs.Grammar.{Row, Vector, at};
ghost use Rattle.wasm_forms.specs.Spelling.{row_bytes, vector_bytes};
ghost use Rattle.wasm_forms.specs.Writing.{Adds, Keeps, TakesRoom, EachFits, FitsVector};
ghost use Rattle.wasm_entries.specs.Record.{Sub, sub, group};
ghost use Rattle.wasm_entries.specs.TypeForms.{sub_with, sub_from, sub_type, group_from, group_form};
ghost use Rattle.wasm_entries.specs.TypeSpelling.{sub_bytes, group_bytes, SubFits, GroupFits};

use crate::composite::{read_composite, read_composite_from, write_composite};
use crate::record::{RawGroup, RawSub};
use std::alloc::Global;
use wasm_forms::{
    Element, WireError, Written, read_byte, read_u32, read_vector, room_for, write_u32,
    write_vector,
};
use wasm_opcodes::types::{REC_TYPE, SUB_FINAL_TYPE, SUB_TYPE};

/// The supertypes of a subtype, and its composite type.
#[tactic(auto, unfolding(crate::specs::TypeForms::sub_with))]
fn read_sub_with(alloc: Global, is_final: bool, bytes: &[u8]) -> Result<(RawSub, &[u8]), WireError>
    ensures { Gives (λ r. (sub r.0, r.1.now)) result (at (sub_with is_final) bytes.now) }
{
    let (supers, after) = read_vector::<u32>(alloc, bytes)?;
    let (comp, rest) = read_composite(alloc, after)?;
    let subtype = RawSub {
        is_final,
        supers,
        comp,
    };
    Ok((subtype, rest))
}

/// The subtype that begins with the byte `first`.
#[tactic(auto, unfolding(crate::specs::TypeForms::sub_from))]
fn read_sub_from(alloc: Global, first: u8, bytes: &[u8]) -> Result<(RawSub, &[u8]), WireError>
    ensures { Gives (λ r. (sub r.0, r.1.now)) result (at (sub_from first) bytes.now) }
{
    match first {
        SUB_TYPE => read_sub_with(alloc, false, bytes),
        SUB_FINAL_TYPE => read_sub_with(alloc, true, bytes),
        _ => {
            let (comp, rest) = read_composite_from(alloc, first, bytes)?;
            let subtype = RawSub {
                is_final: true,
                supers: Vec::new(alloc),
                comp,
            };
            Ok((subtype, rest))
        }
    }
}

impl<'a> Element<'a> for RawSub {
    ghost Seen = { Sub };

    ghost view = { sub };

    ghost form = { sub_type };

    #[tactic(auto, unfolding(crate::specs::TypeForms::sub_type))]
    fn read(alloc: Global, bytes: &'a [u8]) -> Result<(RawSub, &'a [u8]), WireError> {
        let (first, rest) = read_byte(bytes)?;
        read_sub_from(alloc, first, rest)
    }
}

/// The group that begins with the byte `first`.
#[tactic(auto, unfolding(crate::specs::TypeForms::group_from))]
fn read_group_from(alloc: Global, first: u8, bytes: &[u8]) -> Result<(RawGroup, &[u8]), WireError>
    ensures { Gives (λ r. (group r.0, r.1.now)) result (at (group_from first) bytes.now) }
{
    if first == REC_TYPE {
        return read_vector::<RawSub>(alloc, bytes);
    }
    let (subtype, rest) = read_sub_from(alloc, first, bytes)?;
    let mut types = Vec::with_capacity(alloc, 1)?;
    types.push(subtype)?;
    Ok((types, rest))
}

/// Reads a group of types (Binary Format > Types > Recursive Types), and gives it with the bytes after it. A type alone is a group of one.
///
/// Refused as [`WireError::Malformed`] where no group stands in front.
#[tactic(auto, unfolding(crate::specs::TypeForms::group_form))]
pub fn read_group(alloc: Global, bytes: &[u8]) -> Result<(RawGroup, &[u8]), WireError>
    ensures { Gives (λ r. (group r.0, r.1.now)) result (at group_form bytes.now) }
{
    let (first, rest) = read_byte(bytes)?;
    read_group_from(alloc, first, rest)
}

/// So many groups, one after another.
fn take_groups(alloc: Global, count: u32, bytes: &[u8]) -> Result<(Vec<RawGroup>, &[u8]), WireError>
    ensures { Gives (λ r. (map group r.0.items, r.1.now)) result (at (Row group_form count) bytes.now) }
{
    let mut groups = Vec::with_capacity(alloc, room_for(count, bytes))?;
    let mut rest = bytes;
    'groups: for _taken in 0..count {
        let (types, after) = read_group(alloc, rest)?;
        groups.push(types)?;
        rest = after;
    }
    Ok((groups, rest))
}

/// Reads a count and that many groups of types (Binary Format > Modules > Type Section), and gives them with the bytes after them.
///
/// Refused as [`WireError::Malformed`] where no count stands in front, or fewer groups. Memory is taken for as many groups as are told, but
/// for no more than there are bytes left.
pub fn read_groups(alloc: Global, bytes: &[u8]) -> Result<(Vec<RawGroup>, &[u8]), WireError>
    ensures { Gives (λ r. (map group r.0.items, r.1.now)) result (at (Vector group_form) bytes.now) }
{
    let (count, rest) = read_u32(bytes)?;
    take_groups(alloc, count, rest)
}

impl Written for RawSub {
    ghost spelled = { λ s. sub_bytes (sub s) };

    ghost Fits = { λ s. SubFits (sub s) };

    fn write(&self, to: &mut Vec<u8>) -> Result<(), WireError> {
        if self.is_final && self.supers.is_empty() {
            return write_composite(to, &self.comp);
        }
        to.push(if self.is_final {
            SUB_FINAL_TYPE
        } else {
            SUB_TYPE
        })?;
        write_vector(to, &self.supers)?;
        write_composite(to, &self.comp)
    }
}

/// Writes a group of types (Binary Format > Types > Recursive Types) behind the bytes of `to`, a type alone without a count. Refused,
/// the bytes written before stay, and what was appended behind them means nothing.
///
/// [`WireError::TooLarge`] where one of its counts is 2^32 or more.
pub fn write_group(to: &mut Vec<u8>, types: &RawGroup) -> Result<(), WireError>
    ensures adds { Adds result to.old.items to.new.items (group_bytes (group types.now))
        (GroupFits (group types.now)) }
    ensures room { TakesRoom result to.old to.new (group_bytes (group types.now)) }
    ensures keeps { Keeps to.old.items to.new.items }
{
    if types.len() == 1 {
        return types[0].write(to);
    }
    to.push(REC_TYPE)?;
    write_vector(to, types)
}

/// Writes groups one after another.
fn write_each(to: &mut Vec<u8>, groups: &[RawGroup]) -> Result<(), WireError>
    ensures adds { Adds result to.old.items to.new.items (row_bytes (λ g. group_bytes (group g)) groups.now)
        (EachFits (λ g. GroupFits (group g)) groups.now) }
    ensures room { TakesRoom result to.old to.new (row_bytes (λ g. group_bytes (group g)) groups.now) }
    ensures keeps { Keeps to.old.items to.new.items }
{
    'groups: for types in groups {
        write_group(to, types)?;
    }
    Ok(())
}

/// Writes the count of the groups and each group (Binary Format > Modules > Type Section). Refused, the bytes written before stay, and
/// what was appended behind them means nothing.
///
/// [`WireError::TooLarge`] where there are 2^32 groups or more, or one of them is too large.
pub fn write_groups(to: &mut Vec<u8>, groups: &[RawGroup]) -> Result<(), WireError>
    ensures adds { Adds result to.old.items to.new.items (vector_bytes group_bytes (map group groups.now))
        (FitsVector GroupFits (map group groups.now)) }
    ensures room { TakesRoom result to.old to.new (vector_bytes group_bytes (map group groups.now)) }
    ensures keeps { Keeps to.old.items to.new.items }
{
    let Ok(count) = u32::try_from(groups.len()) else {
        return Err(WireError::TooLarge);
    };
    write_u32(to, count)?;
    write_each(to, groups)
}
