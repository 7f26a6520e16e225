//! Imports, tables, globals and exports (Binary Format > Modules), read and written.

ghost use Rattle.std.specs.Prelude.{◌≡◌};
ghost use Rattle.wasm_forms.specs.Reading.{Gives};
ghost use Rattle.wasm_forms.specs.Grammar.{at};
ghost use Rattle.wasm_forms.specs.Writing.{Adds, Keeps, TakesRoom};
ghost use Rattle.wasm_entries.specs.Record.{Import, Table, Global, Export, import_entry, table_entry, global_entry, export_entry};
ghost use Rattle.wasm_entries.specs.Forms.{desc_from, desc, import_form, table_from, table_form, global_form, kind_from, kind_form, export_form};
ghost use Rattle.wasm_entries.specs.Spelling.{desc_bytes, import_bytes, table_bytes, global_bytes, export_bytes, DescFits, ImportFits, TableFits, ExportFits};
ghost use Rattle.wasm_entries.specs.Spelling as spelling;

use crate::constant::read_expression;
use crate::limits::{
    read_global_type, read_memory_type, read_table_type, read_table_type_from, read_tag_type,
    write_global_type, write_limits, write_table_type,
};
use crate::operator::write_expression;
use crate::record::{RawDesc, RawExport, RawExportKind, RawGlobal, RawImport, RawTable};
use std::alloc::Global;
use wasm_forms::{
    Element, WireError, Written, read_byte, read_name, read_u32, write_name, write_u32,
};
use wasm_opcodes::types::TABLE_WITH_INITIAL;

/// What an import of this kind brings.
#[tactic(auto, unfolding(crate::specs::Forms::desc_from))]
fn read_desc_from(kind: u8, bytes: &[u8]) -> Result<(RawDesc, &[u8]), WireError>
    ensures { Gives (λ r. (r.0, r.1.now)) result (at (desc_from kind) bytes.now) }
{
    match kind {
        0 => {
            let (ty, rest) = read_u32(bytes)?;
            Ok((RawDesc::Function(ty), rest))
        }
        1 => {
            let (ty, rest) = read_table_type(bytes)?;
            Ok((RawDesc::Table(ty), rest))
        }
        2 => {
            let (limits, rest) = read_memory_type(bytes)?;
            Ok((RawDesc::Memory(limits), rest))
        }
        3 => {
            let (ty, rest) = read_global_type(bytes)?;
            Ok((RawDesc::Global(ty), rest))
        }
        4 => {
            let (ty, rest) = read_tag_type(bytes)?;
            Ok((RawDesc::Tag(ty), rest))
        }
        _ => Err(WireError::Malformed),
    }
}

/// What an import brings.
#[tactic(auto, unfolding(crate::specs::Forms::desc))]
fn read_desc(bytes: &[u8]) -> Result<(RawDesc, &[u8]), WireError>
    ensures { Gives (λ r. (r.0, r.1.now)) result (at desc bytes.now) }
{
    let (kind, rest) = read_byte(bytes)?;
    read_desc_from(kind, rest)
}

impl<'a> Element<'a> for RawImport<'a> {
    ghost Seen = { Import };

    ghost view = { import_entry };

    ghost form = { import_form };

    #[tactic(auto, unfolding(crate::specs::Forms::import_form))]
    fn read(alloc: Global, bytes: &'a [u8]) -> Result<(RawImport<'a>, &'a [u8]), WireError> {
        let (from, behind) = read_name(bytes)?;
        let (name, after) = read_name(behind)?;
        let (desc, rest) = read_desc(after)?;
        let import = RawImport::new(alloc, from, name, desc)?;
        Ok((import, rest))
    }
}

/// The table whose first byte this is.
#[tactic(auto, unfolding(crate::specs::Forms::table_from))]
fn read_table_from(alloc: Global, first: u8, bytes: &[u8]) -> Result<(RawTable, &[u8]), WireError>
    ensures { Gives (λ r. (table_entry r.0, r.1.now)) result (at (table_from first) bytes.now) }
{
    if first != TABLE_WITH_INITIAL {
        let (ty, rest) = read_table_type_from(first, bytes)?;
        return Ok((RawTable { ty, initial: None }, rest));
    }
    let (zero, behind) = read_byte(bytes)?;
    if zero != 0 {
        return Err(WireError::Malformed);
    }
    let (ty, after) = read_table_type(behind)?;
    let (initial, rest) = read_expression(alloc, after)?;
    Ok((
        RawTable {
            ty,
            initial: Some(Box::new(alloc, initial)?),
        },
        rest,
    ))
}

impl<'a> Element<'a> for RawTable {
    ghost Seen = { Table };

    ghost view = { table_entry };

    ghost form = { table_form };

    #[tactic(auto, unfolding(crate::specs::Forms::table_form))]
    fn read(alloc: Global, bytes: &'a [u8]) -> Result<(RawTable, &'a [u8]), WireError> {
        let (first, rest) = read_byte(bytes)?;
        read_table_from(alloc, first, rest)
    }
}

impl<'a> Element<'a> for RawGlobal {
    ghost Seen = { Global };

    ghost view = { global_entry };

    ghost form = { global_form };

    #[tactic(auto, unfolding(crate::specs::Forms::global_form))]
    fn read(alloc: Global, bytes: &'a [u8]) -> Result<(RawGlobal, &'a [u8]), WireError> {
        let (ty, after) = read_global_type(bytes)?;
        let (initial, rest) = read_expression(alloc, after)?;
        Ok((RawGlobal { ty, initial }, rest))
    }
}

/// What kind of item an export names.
#[tactic(auto, unfolding(crate::specs::Forms::kind_form, crate::specs::Forms::kind_from))]
fn read_kind(bytes: &[u8]) -> Result<(RawExportKind, &[u8]), WireError>
    ensures { Gives (λ r. (r.0, r.1.now)) result (at kind_form bytes.now) }
{
    let (first, rest) = read_byte(bytes)?;
    match first {
        0 => Ok((RawExportKind::Function, rest)),
        1 => Ok((RawExportKind::Table, rest)),
        2 => Ok((RawExportKind::Memory, rest)),
        3 => Ok((RawExportKind::Global, rest)),
        4 => Ok((RawExportKind::Tag, rest)),
        _ => Err(WireError::Malformed),
    }
}

impl<'a> Element<'a> for RawExport<'a> {
    ghost Seen = { Export };

    ghost view = { export_entry };

    ghost form = { export_form };

    #[tactic(auto, unfolding(crate::specs::Forms::export_form))]
    fn read(_alloc: Global, bytes: &'a [u8]) -> Result<(RawExport<'a>, &'a [u8]), WireError> {
        let (name, behind) = read_name(bytes)?;
        let (kind, after) = read_kind(behind)?;
        let (index, rest) = read_u32(after)?;
        Ok((RawExport { name, kind, index }, rest))
    }
}

/// Writes what an import brings.
fn write_desc(to: &mut Vec<u8>, desc: &RawDesc) -> Result<(), WireError>
    ensures adds { Adds result to.old.items to.new.items (desc_bytes desc.now) (DescFits desc.now) }
    ensures room { TakesRoom result to.old to.new (desc_bytes desc.now) }
    ensures keeps { Keeps to.old.items to.new.items }
{
    match desc {
        RawDesc::Function(ty) => {
            to.push(0)?;
            write_u32(to, *ty)?;
            Ok(())
        }
        RawDesc::Table(ty) => {
            to.push(1)?;
            write_table_type(to, ty)
        }
        RawDesc::Memory(limits) => {
            to.push(2)?;
            write_limits(to, limits)
        }
        RawDesc::Global(ty) => {
            to.push(3)?;
            write_global_type(to, ty)
        }
        RawDesc::Tag(ty) => {
            to.push(4)?;
            to.push(0)?;
            write_u32(to, *ty)?;
            Ok(())
        }
    }
}

impl<'a> Written for RawImport<'a> {
    ghost spelled = { λ i. import_bytes (import_entry i) };

    ghost Fits = { λ i. ImportFits (import_entry i) };

    fn write(&self, to: &mut Vec<u8>) -> Result<(), WireError> {
        write_name(to, self.from)?;
        write_name(to, self.name)?;
        write_desc(to, &self.desc())
    }
}

impl Written for RawTable {
    ghost spelled = { λ t. table_bytes (table_entry t) };

    ghost Fits = { λ t. TableFits (table_entry t) };

    fn write(&self, to: &mut Vec<u8>) -> Result<(), WireError> {
        match &self.initial {
            None => write_table_type(to, &self.ty),
            Some(initial) => {
                to.push(TABLE_WITH_INITIAL)?;
                to.push(0)?;
                write_table_type(to, &self.ty)?;
                write_expression(to, initial.operators())
            }
        }
    }
}

impl Written for RawGlobal {
    ghost spelled = { λ g. global_bytes (global_entry g) };

    ghost Fits = { λ _. Unit {0} };

    fn write(&self, to: &mut Vec<u8>) -> Result<(), WireError> {
        write_global_type(to, &self.ty)?;
        write_expression(to, self.initial.operators())
    }
}

/// The byte of the kind of what is exported.
fn kind_byte(kind: RawExportKind) -> u8
    ensures { result ≡ spelling.kind_byte kind }
{
    match kind {
        RawExportKind::Function => 0,
        RawExportKind::Table => 1,
        RawExportKind::Memory => 2,
        RawExportKind::Global => 3,
        RawExportKind::Tag => 4,
    }
}

impl<'a> Written for RawExport<'a> {
    ghost spelled = { λ e. export_bytes (export_entry e) };

    ghost Fits = { λ e. ExportFits (export_entry e) };

    fn write(&self, to: &mut Vec<u8>) -> Result<(), WireError> {
        write_name(to, self.name)?;
        to.push(kind_byte(self.kind))?;
        write_u32(to, self.index)?;
        Ok(())
    }
}
