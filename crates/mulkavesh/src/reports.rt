//! The report on a module, for people and for programs.

ghost use Rattle.std.specs.Prelude.{◌≡◌, ◌++◌, IfOk, OnOk};
ghost use Rattle.mulkavesh.specs.Reports.{bytes_json, kind_json, kinds_json, number_json, weighed_json, weighed_told};

use crate::numbers::add_decimal;
use std::alloc::{AllocError, Global};
use walrus_tools::{Kinds, Weighed, report_lines};

/// The report, for people or for programs.
pub(crate) fn told(alloc: Global, is_json: bool, told: &Weighed) -> Result<Vec<u8>, AllocError>
    ensures { IfOk result (λ text. text.items ≡ weighed_told is_json told.now) }
{
    if is_json {
        return json(alloc, *told);
    }
    Ok(report_lines(alloc, told)?.into_bytes())
}

// An object with a member for each kind of items, and one of bytes.
fn json(alloc: Global, told: Weighed) -> Result<Vec<u8>, AllocError>
    ensures { IfOk result (λ text. text.items ≡ weighed_json told) }
{
    let mut text = Vec::new(alloc);
    add_kinds(alloc, &mut text, told.before, told.after)?;
    add_bytes(alloc, &mut text, told)?;
    text.extend_from_slice(b"}\n")?;
    Ok(text)
}

// Puts the member of each kind behind the text: how many items are kept, and how many are dropped.
fn add_kinds(alloc: Global, to: &mut Vec<u8>, before: Kinds, after: Kinds) -> Result<(), AllocError>
    ensures { OnOk result (to.new.items ≡ to.old.items ++ kinds_json before after) }
{
    add_kind(alloc, to, "{\"functions", before.functions, after.functions)?;
    add_kind(alloc, to, ",\"tables", before.tables, after.tables)?;
    add_kind(alloc, to, ",\"memories", before.memories, after.memories)?;
    add_kind(alloc, to, ",\"tags", before.tags, after.tags)?;
    add_kind(alloc, to, ",\"globals", before.globals, after.globals)?;
    add_kind(alloc, to, ",\"elements", before.elements, after.elements)?;
    add_kind(alloc, to, ",\"data", before.data_, after.data_)?;
    Ok(())
}

// Puts the member of a kind of items behind the text, which begins so: of those there were before and those that are left.
fn add_kind(
    alloc: Global,
    to: &mut Vec<u8>,
    begin: &str,
    before: usize,
    after: usize,
) -> Result<(), AllocError>
    ensures { OnOk result (to.new.items ≡ to.old.items ++ kind_json begin.now before after) }
{
    to.extend_from_slice(begin.as_bytes())?;
    to.extend_from_slice(b"\":{\"kept\":")?;
    add_decimal(alloc, to, after as u64)?;
    to.extend_from_slice(b",\"dropped\":")?;
    add_decimal(alloc, to, before.saturating_sub(after) as u64)?;
    Ok(to.push(b'}')?)
}

// Puts a number behind the text, and in front of it what begins so.
fn add_number(alloc: Global, to: &mut Vec<u8>, begin: &str, number: usize) -> Result<(), AllocError>
    ensures { OnOk result (to.new.items ≡ to.old.items ++ number_json begin.now number) }
{
    to.extend_from_slice(begin.as_bytes())?;
    add_decimal(alloc, to, number as u64)
}

// Puts the member of bytes behind the text.
fn add_bytes(alloc: Global, to: &mut Vec<u8>, told: Weighed) -> Result<(), AllocError>
    ensures { OnOk result (to.new.items ≡ to.old.items ++ bytes_json told) }
{
    add_number(alloc, to, ",\"bytes\":{\"read\":", told.read)?;
    add_number(alloc, to, ",\"written\":", told.written)?;
    add_number(alloc, to, ",\"dropped\":", told.bodies)?;
    add_number(alloc, to, ",\"debug\":", told.debug)?;
    Ok(to.push(b'}')?)
}
