//! What is told of the entries of sections.

ghost use Rattle.std.specs.Prelude.{◌≡◌, IfOk, map, zip};
ghost use Rattle.walrus.specs.Forms.Spelling.{row_bytes, vector_bytes};
ghost use Rattle.wasm_forms.specs.Writing.{Adds, EachFits, FitsVector};
ghost use Rattle.wasm_entries.specs.Record.{data_entry, data_mode, element_entry, element_mode, export_entry, expression, global_entry, group, import_entry, items_of, table_entry};
ghost use Rattle.walrus.specs.Frames.Record.{body_record};
ghost use Rattle.walrus_edits.specs.ItemSteps.{defined_told};
ghost use Rattle.walrus_edits.specs.ItemValues.{functions_in};
ghost use Rattle.walrus_edits.specs.ItemRecords.{AGlobal, AGroup, AMemory, ASegment, ATable, ATag, AnElement, AnExport, AnImport, Brought, DataModeFits, ElementModeFits, ElementsFit, InitialFits, SizedFits, TheStart, data_mode_bytes, element_mode_bytes, elements_bytes, initial_bytes, sized, table_of};

use crate::records::{Tells, put_byte, put_number};
use std::alloc::{AllocError, Global};
use std::result;
use walrus_edit_list::numbers::{
    OF_DATA, OF_ELEMENT, OF_EXPORT, OF_FUNCTION, OF_GLOBAL, OF_IMPORT, OF_MEMORY, OF_START,
    OF_TABLE, OF_TAG, OF_TYPE,
};
use wasm_entries::{
    RawData, RawDataMode, RawDesc, RawElement, RawElementMode, RawExport, RawExpression, RawGlobal,
    RawGroup, RawImport, RawItems, RawLimits, RawTable, write_expression, write_global_type,
    write_group, write_limits, write_table_type,
};
use wasm_forms::{WireError, Written, write_block, write_name, write_reference_type, write_vector};
use wasm_frames::RawBody;

/// What stands in front of what an import brings, and of what the module defines.
const BROUGHT: u8 = 1;

const DEFINED: u8 = 0;

/// Puts a constant expression behind the bytes, its size first.
fn write_sized(
    alloc: Global,
    to: &mut Vec<u8>,
    raw: &RawExpression,
) -> result::Result<(), WireError>
    ensures { Adds result to.old.items to.new.items (sized (expression raw.now))
        (SizedFits (expression raw.now)) }
{
    let mut bytes = Vec::new(alloc);
    write_expression(&mut bytes, raw.operators())?;
    write_block(to, &bytes)
}

/// Puts constant expressions behind the bytes, each behind its size.
fn write_each_sized(
    alloc: Global,
    to: &mut Vec<u8>,
    all: &[RawExpression],
) -> result::Result<(), WireError>
    ensures { Adds result to.old.items to.new.items (row_bytes sized (map expression all.now))
        (EachFits SizedFits (map expression all.now)) }
{
    'expressions: for raw in all {
        write_sized(alloc, to, raw)?;
    }
    Ok(())
}

/// Puts the count of constant expressions behind the bytes, and each of them behind its size.
fn write_all_sized(
    alloc: Global,
    to: &mut Vec<u8>,
    all: &[RawExpression],
) -> result::Result<(), WireError>
    ensures { Adds result to.old.items to.new.items (vector_bytes sized (map expression all.now))
        (FitsVector SizedFits (map expression all.now)) }
{
    let Ok(count) = u32::try_from(all.len()) else {
        return Err(WireError::TooLarge);
    };
    put_number(to, u64::from(count))?;
    write_each_sized(alloc, to, all)
}

impl Tells for RawGroup {
    ghost told = { λ g. AGroup (group g) };

    fn number(&self) -> u8 {
        OF_TYPE
    }

    fn write_payload(&self, _alloc: Global, to: &mut Vec<u8>) -> result::Result<(), WireError> {
        write_group(to, self)
    }
}

impl<'a> Tells for RawImport<'a> {
    ghost told = { λ i. AnImport (import_entry i) };

    fn number(&self) -> u8 {
        OF_IMPORT
    }

    fn write_payload(&self, _alloc: Global, to: &mut Vec<u8>) -> result::Result<(), WireError> {
        write_name(to, self.from)?;
        write_name(to, self.name)
    }
}

/// What an import brings.
impl Tells for RawDesc {
    ghost told = { λ d. Brought d };

    fn number(&self) -> u8 {
        match self {
            RawDesc::Function(_) => OF_FUNCTION,
            RawDesc::Table(_) => OF_TABLE,
            RawDesc::Memory(_) => OF_MEMORY,
            RawDesc::Global(_) => OF_GLOBAL,
            RawDesc::Tag(_) => OF_TAG,
        }
    }

    fn write_payload(&self, _alloc: Global, to: &mut Vec<u8>) -> result::Result<(), WireError> {
        put_byte(to, BROUGHT)?;
        match self {
            RawDesc::Function(ty) | RawDesc::Tag(ty) => put_number(to, u64::from(*ty)),
            RawDesc::Table(ty) => write_table_type(to, ty),
            RawDesc::Memory(limits) => write_limits(to, limits),
            RawDesc::Global(ty) => write_global_type(to, ty),
        }
    }
}

/// A function that the module defines: its type, and its body.
#[derive(Clone, Copy)]
pub(crate) struct DefinedFunction<'a> {
    pub(crate) ty: u32,
    pub(crate) body: RawBody<'a>,
}

impl<'a> Tells for DefinedFunction<'a> {
    ghost told = { defined_told };

    fn number(&self) -> u8 {
        OF_FUNCTION
    }

    fn write_payload(&self, _alloc: Global, to: &mut Vec<u8>) -> result::Result<(), WireError> {
        put_byte(to, DEFINED)?;
        put_number(to, u64::from(self.ty))?;
        put_number(to, self.body.start as u64)?;
        put_number(to, self.body.bytes.len() as u64)
    }
}

/// The functions of these bodies and types.
pub(crate) fn defined_functions<'a>(
    alloc: Global,
    bodies: &[RawBody<'a>],
    types: &[u32],
) -> result::Result<Vec<DefinedFunction<'a>>, AllocError>
    ensures { IfOk result (λ all. map defined_told all.items
        ≡ functions_in (zip (map body_record bodies.now) types.now)) }
{
    let mut all = Vec::new(alloc);
    'functions: for index in 0..bodies.len().min(types.len()) {
        all.push(DefinedFunction {
            ty: types[index],
            body: bodies[index],
        })?;
    }
    Ok(all)
}

/// Puts the initialiser of a table behind the bytes, where it has one.
fn write_initial(alloc: Global, to: &mut Vec<u8>, table: &RawTable) -> result::Result<(), WireError>
    ensures { Adds result to.old.items to.new.items (initial_bytes (table_entry table.now).initial)
        (InitialFits (table_entry table.now).initial) }
{
    match &table.initial {
        Some(initial) => write_sized(alloc, to, initial),
        None => Ok(()),
    }
}

impl Tells for RawTable {
    ghost told = { λ t. ATable (table_entry t) };

    fn number(&self) -> u8 {
        OF_TABLE
    }

    fn write_payload(&self, alloc: Global, to: &mut Vec<u8>) -> result::Result<(), WireError> {
        put_byte(to, DEFINED)?;
        write_table_type(to, &self.ty)?;
        write_initial(alloc, to, self)
    }
}

/// A memory that the module defines.
impl Tells for RawLimits {
    ghost told = { λ l. AMemory l };

    fn number(&self) -> u8 {
        OF_MEMORY
    }

    fn write_payload(&self, _alloc: Global, to: &mut Vec<u8>) -> result::Result<(), WireError> {
        put_byte(to, DEFINED)?;
        write_limits(to, self)
    }
}

/// A tag that the module defines, by the index of its type.
impl Tells for u32 {
    ghost told = { λ ty. ATag ty };

    fn number(&self) -> u8 {
        OF_TAG
    }

    fn write_payload(&self, _alloc: Global, to: &mut Vec<u8>) -> result::Result<(), WireError> {
        put_byte(to, DEFINED)?;
        put_number(to, u64::from(*self))
    }
}

impl Tells for RawGlobal {
    ghost told = { λ g. AGlobal (global_entry g) };

    fn number(&self) -> u8 {
        OF_GLOBAL
    }

    fn write_payload(&self, alloc: Global, to: &mut Vec<u8>) -> result::Result<(), WireError> {
        put_byte(to, DEFINED)?;
        write_global_type(to, &self.ty)?;
        write_sized(alloc, to, &self.initial)
    }
}

impl<'a> Tells for RawExport<'a> {
    ghost told = { λ e. AnExport (export_entry e) };

    fn number(&self) -> u8 {
        OF_EXPORT
    }

    fn write_payload(&self, _alloc: Global, to: &mut Vec<u8>) -> result::Result<(), WireError> {
        self.write(to)
    }
}

/// The start function, by its index.
#[derive(Clone, Copy)]
pub(crate) struct Start(pub(crate) u32);

impl Tells for Start {
    ghost told = { λ s. TheStart s.0 };

    fn number(&self) -> u8 {
        OF_START
    }

    fn write_payload(&self, _alloc: Global, to: &mut Vec<u8>) -> result::Result<(), WireError> {
        put_number(to, u64::from(self.0))
    }
}

/// Puts how a segment of elements is used behind the bytes: 0, a table and an offset; 1, by operators alone; 2, to declare.
fn write_element_mode(
    alloc: Global,
    to: &mut Vec<u8>,
    mode: &RawElementMode,
) -> result::Result<(), WireError>
    ensures { Adds result to.old.items to.new.items (element_mode_bytes (element_mode mode.now))
        (ElementModeFits (element_mode mode.now)) }
{
    match mode {
        RawElementMode::Active(table, offset) => {
            put_byte(to, 0)?;
            put_number(to, u64::from(table.unwrap_or(0)))?;
            write_sized(alloc, to, offset)
        }
        RawElementMode::Passive => put_byte(to, 1),
        RawElementMode::Declared => put_byte(to, 2),
    }
}

/// Puts what a segment of elements lists behind the bytes: 0 and functions; 1, a reference type and expressions.
fn write_elements(
    alloc: Global,
    to: &mut Vec<u8>,
    items: &RawItems,
) -> result::Result<(), WireError>
    ensures { Adds result to.old.items to.new.items (elements_bytes (items_of items.now))
        (ElementsFit (items_of items.now)) }
{
    match items {
        RawItems::Functions(functions) => {
            put_byte(to, 0)?;
            write_vector(to, functions)
        }
        RawItems::Expressions(ty, expressions) => {
            put_byte(to, 1)?;
            write_reference_type(to, ty)?;
            write_all_sized(alloc, to, expressions)
        }
    }
}

impl Tells for RawElement {
    ghost told = { λ e. AnElement (element_entry e) };

    fn number(&self) -> u8 {
        OF_ELEMENT
    }

    fn write_payload(&self, alloc: Global, to: &mut Vec<u8>) -> result::Result<(), WireError> {
        write_element_mode(alloc, to, &self.mode)?;
        write_elements(alloc, to, &self.items)
    }
}

/// Puts how a segment of data is used behind the bytes: 0, a memory and an offset; 1, by operators alone.
fn write_data_mode(
    alloc: Global,
    to: &mut Vec<u8>,
    mode: &RawDataMode,
) -> result::Result<(), WireError>
    ensures { Adds result to.old.items to.new.items (data_mode_bytes (data_mode mode.now))
        (DataModeFits (data_mode mode.now)) }
{
    match mode {
        RawDataMode::Active(memory, offset) => {
            put_byte(to, 0)?;
            put_number(to, u64::from(*memory))?;
            write_sized(alloc, to, offset)
        }
        RawDataMode::Passive => put_byte(to, 1),
    }
}

impl<'a> Tells for RawData<'a> {
    ghost told = { λ d. ASegment (data_entry d) };

    fn number(&self) -> u8 {
        OF_DATA
    }

    fn write_payload(&self, alloc: Global, to: &mut Vec<u8>) -> result::Result<(), WireError> {
        write_data_mode(alloc, to, &self.mode)?;
        write_block(to, self.bytes)
    }
}
