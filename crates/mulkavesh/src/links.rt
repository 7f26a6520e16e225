//! The items of a chain, and those that refer to an item, as a text.

ghost use Rattle.std.specs.Prelude.{◌≡◌, ◌++◌, OnOk, codes, map, string_bytes};
ghost use Rattle.mulkavesh.specs.Json.{separated, string_json};
ghost use Rattle.mulkavesh.specs.Links.{exports_text, link_line, link_members, link_object, link_text, quoted, size_json, size_text};

use crate::json::{add_comma, add_string};
use crate::numbers::add_decimal;
use crate::rows::{Row, add_item, add_item_members, add_name, add_name_json};
use crate::visible::add_shown;
use std::alloc::{AllocError, Global};
use walrus_tools::Link;

// ---- for people

// Puts behind the text how many bytes the body has, of a function with one.
fn add_size(alloc: Global, to: &mut Vec<u8>, size: Option<usize>) -> Result<(), AllocError>
    ensures { OnOk result (to.new.items ≡ to.old.items ++ size_text size) }
{
    let Some(size) = size else {
        return Ok(());
    };
    to.extend_from_slice(b", ")?;
    add_decimal(alloc, to, size as u64)?;
    to.extend_from_slice(b" bytes")
}

// Puts a name behind the text, between quotation marks and as people see it.
fn add_quoted(to: &mut Vec<u8>, name: &str) -> Result<(), AllocError>
    ensures { OnOk result (to.new.items ≡ to.old.items ++ quoted name.now) }
{
    to.push(b'"')?;
    add_shown(to, name.as_bytes())?;
    Ok(to.push(b'"')?)
}

// Puts names behind the text, with a comma between each two.
fn add_all_quoted(to: &mut Vec<u8>, names: &[String]) -> Result<(), AllocError>
    ensures { OnOk result (to.new.items ≡ to.old.items
        ++ separated (codes ", ") (map quoted (map string_bytes names.now))) }
{
    'names: for (place, name) in names.iter().enumerate() {
        add_comma(to, ", ", place)?;
        add_quoted(to, name.as_str())?;
    }
    Ok(())
}

// Puts the names behind the text under which an item is exported, if there are any.
fn add_exports(to: &mut Vec<u8>, names: &[String]) -> Result<(), AllocError>
    ensures { OnOk result (to.new.items ≡ to.old.items ++ exports_text (map string_bytes names.now)) }
{
    if names.is_empty() {
        return Ok(());
    }
    to.extend_from_slice(b", exported as ")?;
    add_all_quoted(to, names)?;
    Ok(())
}

/// Puts behind the text what an item is, its name, how many bytes its body has, and the names under which it is exported.
pub(crate) fn add_link(alloc: Global, to: &mut Vec<u8>, link: &Link) -> Result<(), AllocError>
    ensures { OnOk result (to.new.items ≡ to.old.items ++ link_text link.now) }
{
    add_item(alloc, to, link.item)?;
    add_name(to, &link.name)?;
    add_size(alloc, to, link.size)?;
    add_exports(to, &link.exports)
}

// ---- for programs

// Puts names behind the text as strings, with a comma between each two.
fn add_strings(to: &mut Vec<u8>, names: &[String]) -> Result<(), AllocError>
    ensures { OnOk result (to.new.items ≡ to.old.items
        ++ separated (codes ",") (map string_json (map string_bytes names.now))) }
{
    'names: for (place, name) in names.iter().enumerate() {
        add_comma(to, ",", place)?;
        add_string(to, name.as_bytes())?;
    }
    Ok(())
}

// Puts a size behind the text; or that there is none.
fn add_size_json(alloc: Global, to: &mut Vec<u8>, size: Option<usize>) -> Result<(), AllocError>
    ensures { OnOk result (to.new.items ≡ to.old.items ++ size_json size) }
{
    match size {
        Some(size) => add_decimal(alloc, to, size as u64),
        None => to.extend_from_slice(b"null"),
    }
}

// Puts behind the text what is told of an item, but for what it is.
fn add_members(alloc: Global, to: &mut Vec<u8>, link: &Link) -> Result<(), AllocError>
    ensures { OnOk result (to.new.items ≡ to.old.items ++ link_members link.now) }
{
    to.extend_from_slice(b",\"name\":")?;
    add_name_json(to, &link.name)?;
    to.extend_from_slice(b",\"exports\":[")?;
    add_strings(to, &link.exports)?;
    to.extend_from_slice(b"],\"size\":")?;
    add_size_json(alloc, to, link.size)
}

impl Row for Link {
    ghost line = { link_line };

    ghost object = { link_object };

    fn add_line(&self, alloc: Global, to: &mut Vec<u8>) -> Result<(), AllocError> {
        add_link(alloc, to, self)?;
        Ok(to.push(b'\n')?)
    }

    fn add_object(&self, alloc: Global, to: &mut Vec<u8>) -> Result<(), AllocError> {
        add_item_members(alloc, to, self.item)?;
        add_members(alloc, to, self)?;
        Ok(to.push(b'}')?)
    }
}
