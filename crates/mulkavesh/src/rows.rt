//! A list as a text: for people a line each, for programs an array of objects.

ghost use Rattle.std.specs.Prelude.{◌≡◌, ◌++◌, IfOk, List, OnOk, false, flat_map, map, true, ℕ};
ghost use Rattle.mulkavesh.specs.Json.{separated};
ghost use Rattle.mulkavesh.specs.Rows.{item_members, name_json, name_text, rows_text};
ghost use Rattle.walrus_tools.specs.Facade.{item_of};
ghost use Rattle.walrus_tools.specs.Reasons.{item_text};

use crate::json::{add_comma, add_string};
use crate::numbers::add_decimal;
use crate::visible::add_shown;
use std::alloc::{AllocError, Global};
use walrus_tools::{ItemId, item_index, item_word};

/// What stands in a list.
pub(crate) trait Row {
    ghost line: { Self → List ℕ };

    ghost object: { Self → List ℕ };

    /// Puts its line behind the text, for people.
    fn add_line(&self, alloc: Global, to: &mut Vec<u8>) -> Result<(), AllocError>
        ensures { OnOk result (to.new.items ≡ to.old.items ++ line self.now) };

    /// Puts its object behind the text, for programs.
    fn add_object(&self, alloc: Global, to: &mut Vec<u8>) -> Result<(), AllocError>
        ensures { OnOk result (to.new.items ≡ to.old.items ++ object self.now) };
}

/// Puts a line for each behind the text.
pub(crate) fn add_lines<T: Row>(
    alloc: Global,
    to: &mut Vec<u8>,
    rows: &[T],
) -> Result<(), AllocError>
    ensures { OnOk result (to.new.items ≡ to.old.items ++ flat_map T.line rows.now) }
{
    'rows: for row in rows {
        row.add_line(alloc, to)?;
    }
    Ok(())
}

/// Puts their objects behind the text, with a comma between each two.
pub(crate) fn add_objects<T: Row>(
    alloc: Global,
    to: &mut Vec<u8>,
    comma: &str,
    rows: &[T],
) -> Result<(), AllocError>
    ensures { OnOk result (to.new.items ≡ to.old.items
        ++ separated comma.now (map T.object rows.now)) }
{
    'rows: for (place, row) in rows.iter().enumerate() {
        add_comma(to, comma, place)?;
        row.add_object(alloc, to)?;
    }
    Ok(())
}

// A line for each.
fn text<T: Row>(alloc: Global, rows: &[T]) -> Result<Vec<u8>, AllocError>
    ensures { IfOk result (λ text. text.items ≡ rows_text T.line T.object false rows.now) }
{
    let mut text = Vec::new(alloc);
    add_lines(alloc, &mut text, rows)?;
    Ok(text)
}

// An array of objects.
fn json<T: Row>(alloc: Global, rows: &[T]) -> Result<Vec<u8>, AllocError>
    ensures { IfOk result (λ text. text.items ≡ rows_text T.line T.object true rows.now) }
{
    let mut text = Vec::new(alloc);
    text.push(b'[')?;
    add_objects(alloc, &mut text, ",\n ", rows)?;
    text.extend_from_slice(b"]\n")?;
    Ok(text)
}

/// The list, for people or for programs.
pub(crate) fn told<T: Row>(alloc: Global, is_json: bool, rows: &[T]) -> Result<Vec<u8>, AllocError>
    ensures { IfOk result (λ text. text.items ≡ rows_text T.line T.object is_json rows.now) }
{
    if is_json {
        return json(alloc, rows);
    }
    text(alloc, rows)
}

// ---- what stands in them

/// Puts a name behind the text, if there is one, behind a blank and as people see it.
pub(crate) fn add_name(to: &mut Vec<u8>, name: &Option<String>) -> Result<(), AllocError>
    ensures { OnOk result (to.new.items ≡ to.old.items ++ name_text name.now) }
{
    let Some(name) = name else {
        return Ok(());
    };
    to.push(b' ')?;
    add_shown(to, name.as_bytes())
}

/// Puts a name behind the text as a string; or that there is none.
pub(crate) fn add_name_json(to: &mut Vec<u8>, name: &Option<String>) -> Result<(), AllocError>
    ensures { OnOk result (to.new.items ≡ to.old.items ++ name_json name.now) }
{
    match name {
        Some(name) => add_string(to, name.as_bytes()),
        None => to.extend_from_slice(b"null"),
    }
}

/// Puts the kind of an item and its index behind the text.
pub(crate) fn add_item(alloc: Global, to: &mut Vec<u8>, item: ItemId) -> Result<(), AllocError>
    ensures { OnOk result (to.new.items ≡ to.old.items ++ item_text (item_of item)) }
{
    to.extend_from_slice(item_word(item).as_bytes())?;
    to.push(b' ')?;
    add_decimal(alloc, to, item_index(item) as u64)
}

/// Puts the members that say what an item is behind the text, and in front of them what begins an object.
pub(crate) fn add_item_members(
    alloc: Global,
    to: &mut Vec<u8>,
    item: ItemId,
) -> Result<(), AllocError>
    ensures { OnOk result (to.new.items ≡ to.old.items ++ item_members (item_of item)) }
{
    to.extend_from_slice(b"{\"kind\":\"")?;
    to.extend_from_slice(item_word(item).as_bytes())?;
    to.extend_from_slice(b"\",\"index\":")?;
    add_decimal(alloc, to, item_index(item) as u64)
}
