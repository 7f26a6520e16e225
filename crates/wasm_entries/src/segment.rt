//! Element and data segments (Binary Format > Modules > Element Section, Data Section), read and written.

ghost use Rattle.std.specs.Prelude.{map};
ghost use Rattle.wasm_forms.specs.Reading.{Gives};
ghost use Rattle.wasm_forms.specs.Grammar.{at};
ghost use Rattle.wasm_forms.specs.Writing.{Adds, Keeps, TakesRoom, FitsLength};
ghost use Rattle.wasm_forms.specs.Spelling.{number_bytes, vector_bytes};
ghost use Rattle.wasm_entries.specs.Record.{Element, Segment, Functions, Expressions, expression, element_mode, items_of, element_entry, data_mode, data_entry};
ghost use Rattle.wasm_entries.specs.Forms.{functions_form, kinded, typed, of_functions, in_first, in_table, element_from, element_form, data_from, data_form};
ghost use Rattle.wasm_entries.specs.Spelling.{element_spelled, element_bytes, data_mode_bytes, data_bytes, ElementFits, DataFits};

use crate::constant::{read_expression, read_expressions};
use crate::operator::{write_expression, write_expressions};
use crate::record::{RawData, RawDataMode, RawElement, RawElementMode, RawExpression, RawItems};
use std::alloc::Global;
use wasm_forms::{
    Element, RawHeap, RawRef, WireError, Written, read_block, read_byte, read_reference_type,
    read_u32, read_vector, write_block, write_reference_type, write_u32, write_vector,
};
use wasm_opcodes::types::HEAP_FUNC;

/// Functions that a segment lists.
#[tactic(auto, unfolding(crate::specs::Forms::functions_form))]
fn read_functions(alloc: Global, bytes: &[u8]) -> Result<(RawItems, &[u8]), WireError>
    ensures { Gives (λ r. (items_of r.0, r.1.now)) result (at functions_form bytes.now) }
{
    let (functions, rest) = read_vector::<u32>(alloc, bytes)?;
    Ok((RawItems::Functions(functions), rest))
}

/// Functions behind an element kind, which is 00.
#[tactic(auto, unfolding(crate::specs::Forms::kinded))]
fn read_kinded(alloc: Global, bytes: &[u8]) -> Result<(RawItems, &[u8]), WireError>
    ensures { Gives (λ r. (items_of r.0, r.1.now)) result (at kinded bytes.now) }
{
    let (kind, rest) = read_byte(bytes)?;
    if kind != 0 {
        return Err(WireError::Malformed);
    }
    read_functions(alloc, rest)
}

/// Expressions behind their type.
#[tactic(auto, unfolding(crate::specs::Forms::typed))]
fn read_typed(alloc: Global, bytes: &[u8]) -> Result<(RawItems, &[u8]), WireError>
    ensures { Gives (λ r. (items_of r.0, r.1.now)) result (at typed bytes.now) }
{
    let (ty, after) = read_reference_type(bytes)?;
    let (expressions, rest) = read_expressions(alloc, after)?;
    Ok((RawItems::Expressions(ty, expressions), rest))
}

/// Expressions of the type of all functions.
#[tactic(auto, unfolding(crate::specs::Forms::of_functions))]
fn read_of_functions(alloc: Global, bytes: &[u8]) -> Result<(RawItems, &[u8]), WireError>
    ensures { Gives (λ r. (items_of r.0, r.1.now)) result (at of_functions bytes.now) }
{
    let any_function = RawRef {
        nullable: true,
        heap: RawHeap::Abstract(HEAP_FUNC),
    };
    let (expressions, rest) = read_expressions(alloc, bytes)?;
    Ok((RawItems::Expressions(any_function, expressions), rest))
}

/// Where a segment in table 0 that does not name its table stands.
#[tactic(auto, unfolding(crate::specs::Forms::in_first))]
fn read_in_first(alloc: Global, bytes: &[u8]) -> Result<(RawElementMode, &[u8]), WireError>
    ensures { Gives (λ r. (element_mode r.0, r.1.now)) result (at in_first bytes.now) }
{
    let (offset, rest) = read_expression(alloc, bytes)?;
    Ok((RawElementMode::Active(None, offset), rest))
}

/// Where a segment that names its table stands.
#[tactic(auto, unfolding(crate::specs::Forms::in_table))]
fn read_in_table(alloc: Global, bytes: &[u8]) -> Result<(RawElementMode, &[u8]), WireError>
    ensures { Gives (λ r. (element_mode r.0, r.1.now)) result (at in_table bytes.now) }
{
    let (table, after) = read_u32(bytes)?;
    let (offset, rest) = read_expression(alloc, after)?;
    Ok((RawElementMode::Active(Some(table), offset), rest))
}

/// The segment of elements with these flags.
#[tactic(auto, unfolding(crate::specs::Forms::element_from, crate::specs::Forms::segment_of))]
fn read_element_from(
    alloc: Global,
    flags: u32,
    bytes: &[u8],
) -> Result<(RawElement, &[u8]), WireError>
    ensures { Gives (λ r. (element_entry r.0, r.1.now)) result (at (element_from flags) bytes.now) }
{
    let (mode, after) = match flags {
        0 | 4 => read_in_first(alloc, bytes)?,
        1 | 5 => (RawElementMode::Passive, bytes),
        2 | 6 => read_in_table(alloc, bytes)?,
        3 | 7 => (RawElementMode::Declared, bytes),
        _ => return Err(WireError::Malformed),
    };
    let (items, rest) = match flags {
        0 => read_functions(alloc, after)?,
        4 => read_of_functions(alloc, after)?,
        1..=3 => read_kinded(alloc, after)?,
        _ => read_typed(alloc, after)?,
    };
    Ok((RawElement { mode, items }, rest))
}

impl<'a> Element<'a> for RawElement {
    ghost Seen = { Element };

    ghost view = { element_entry };

    ghost form = { element_form };

    #[tactic(auto, unfolding(crate::specs::Forms::element_form))]
    fn read(alloc: Global, bytes: &'a [u8]) -> Result<(RawElement, &'a [u8]), WireError> {
        let (flags, rest) = read_u32(bytes)?;
        read_element_from(alloc, flags, rest)
    }
}

/// The segment of data with these flags.
#[tactic(auto, unfolding(crate::specs::Forms::data_from, crate::specs::Forms::data_with))]
fn read_data_from(
    alloc: Global,
    flags: u32,
    bytes: &[u8],
) -> Result<(RawData<'_>, &[u8]), WireError>
    ensures { Gives (λ r. (data_entry r.0, r.1.now)) result (at (data_from flags) bytes.now) }
{
    match flags {
        0 => {
            let (offset, after) = read_expression(alloc, bytes)?;
            let mode = RawDataMode::Active(0, Box::new(alloc, offset)?);
            let (bytes, rest) = read_block(after)?;
            Ok((RawData { mode, bytes }, rest))
        }
        1 => {
            let mode = RawDataMode::Passive;
            let (bytes, rest) = read_block(bytes)?;
            Ok((RawData { mode, bytes }, rest))
        }
        2 => {
            let (memory, behind) = read_u32(bytes)?;
            let (offset, after) = read_expression(alloc, behind)?;
            let mode = RawDataMode::Active(memory, Box::new(alloc, offset)?);
            let (bytes, rest) = read_block(after)?;
            Ok((RawData { mode, bytes }, rest))
        }
        _ => Err(WireError::Malformed),
    }
}

impl<'a> Element<'a> for RawData<'a> {
    ghost Seen = { Segment };

    ghost view = { data_entry };

    ghost form = { data_form };

    #[tactic(auto, unfolding(crate::specs::Forms::data_form))]
    fn read(alloc: Global, bytes: &'a [u8]) -> Result<(RawData<'a>, &'a [u8]), WireError> {
        let (flags, rest) = read_u32(bytes)?;
        read_data_from(alloc, flags, rest)
    }
}

/// Writes the count of the indices and each of them.
fn write_indices(to: &mut Vec<u8>, indices: &[u32]) -> Result<(), WireError>
    ensures adds { Adds result to.old.items to.new.items (vector_bytes number_bytes indices.now)
        (FitsLength indices.now) }
    ensures room { TakesRoom result to.old to.new (vector_bytes number_bytes indices.now) }
    ensures keeps { Keeps to.old.items to.new.items }
{
    write_vector(to, indices)
}

/// Writes a segment that lists functions.
fn write_functions(
    to: &mut Vec<u8>,
    mode: &RawElementMode,
    functions: &[u32],
) -> Result<(), WireError>
    ensures adds { Adds result to.old.items to.new.items
        (element_spelled (element_mode mode.now) (Functions functions.now)) (FitsLength functions.now) }
    ensures room { TakesRoom result to.old to.new
        (element_spelled (element_mode mode.now) (Functions functions.now)) }
    ensures keeps { Keeps to.old.items to.new.items }
{
    match mode {
        RawElementMode::Active(None, offset) => {
            to.push(0)?;
            write_expression(to, offset.operators())?;
        }
        RawElementMode::Passive => {
            to.push(1)?;
            to.push(0)?;
        }
        RawElementMode::Active(Some(table), offset) => {
            to.push(2)?;
            write_u32(to, *table)?;
            write_expression(to, offset.operators())?;
            to.push(0)?;
        }
        RawElementMode::Declared => {
            to.push(3)?;
            to.push(0)?;
        }
    }
    write_indices(to, functions)
}

/// Writes a segment that lists expressions of this type.
fn write_typed(
    to: &mut Vec<u8>,
    mode: &RawElementMode,
    ty: &RawRef,
    expressions: &[RawExpression],
) -> Result<(), WireError>
    ensures adds { Adds result to.old.items to.new.items
        (element_spelled (element_mode mode.now) (Expressions ty.now (map expression expressions.now)))
        (FitsLength expressions.now) }
    ensures room { TakesRoom result to.old to.new
        (element_spelled (element_mode mode.now) (Expressions ty.now (map expression expressions.now))) }
    ensures keeps { Keeps to.old.items to.new.items }
{
    match mode {
        RawElementMode::Active(None, offset) => {
            to.push(4)?;
            write_expression(to, offset.operators())?;
        }
        RawElementMode::Passive => {
            to.push(5)?;
            write_reference_type(to, ty)?;
        }
        RawElementMode::Active(Some(table), offset) => {
            to.push(6)?;
            write_u32(to, *table)?;
            write_expression(to, offset.operators())?;
            write_reference_type(to, ty)?;
        }
        RawElementMode::Declared => {
            to.push(7)?;
            write_reference_type(to, ty)?;
        }
    }
    write_expressions(to, expressions)
}

impl Written for RawElement {
    ghost spelled = { λ e. element_bytes (element_entry e) };

    ghost Fits = { λ e. ElementFits (element_entry e) };

    fn write(&self, to: &mut Vec<u8>) -> Result<(), WireError> {
        match &self.items {
            RawItems::Functions(functions) => write_functions(to, &self.mode, functions),
            RawItems::Expressions(ty, expressions) => {
                write_typed(to, &self.mode, ty, expressions)
            }
        }
    }
}

/// Writes when a segment of data is used.
fn write_data_mode(to: &mut Vec<u8>, mode: &RawDataMode) -> Result<(), WireError>
    ensures adds { Adds result to.old.items to.new.items (data_mode_bytes (data_mode mode.now)) (Unit {0}) }
    ensures room { TakesRoom result to.old to.new (data_mode_bytes (data_mode mode.now)) }
    ensures keeps { Keeps to.old.items to.new.items }
{
    match mode {
        RawDataMode::Passive => {
            to.push(1)?;
            Ok(())
        }
        RawDataMode::Active(memory, offset) => {
            if *memory == 0 {
                to.push(0)?;
                return write_expression(to, offset.operators());
            }
            to.push(2)?;
            write_u32(to, *memory)?;
            write_expression(to, offset.operators())
        }
    }
}

impl<'a> Written for RawData<'a> {
    ghost spelled = { λ d. data_bytes (data_entry d) };

    ghost Fits = { λ d. DataFits (data_entry d) };

    fn write(&self, to: &mut Vec<u8>) -> Result<(), WireError> {
        write_data_mode(to, &self.mode)?;
        write_block(to, self.bytes)
    }
}
