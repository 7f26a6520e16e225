//! Functions by the size of their bodies, as a text: the larger ones first, with the share that each has of all of them.

ghost use Rattle.std.specs.Prelude.{◌≡◌, ◌≤◌, ◌++◌, IfOk, OnOk, flat_map, true};
ghost use Rattle.mulkavesh.specs.Entries.{IsBySize, TellsListed, share_line, share_text, shares_text, thousandths, total_line, total_of};

use crate::entries::first_of;
use crate::numbers::add_decimal;
use crate::rows::{self, add_name};
use std::alloc::{AllocError, Global};
use std::cmp::Reverse;
use walrus_tools::Listed;

// Puts the one of the larger body first, and of two as large the one of the smaller index.
fn order_by_size(functions: &mut Vec<Listed>)
    ensures { IsBySize functions.old.items functions.new.items }
{
    functions.sort_unstable_by_key(|function| (Reverse(function.size), function.index));
}

// How many bytes all their bodies have; or what 64 bits hold.
fn total_of(functions: &[Listed]) -> u64
    ensures { result ≡ total_of functions.now }
{
    let mut total = 0u64;
    'functions: for function in functions {
        total = total.saturating_add(function.size as u64);
    }
    total
}

// How many thousandths of the total this is, cut; of no bytes none.
fn thousandths(size: u64, total: u64) -> u128
    ensures { result ≡ thousandths size total }
{
    if total == 0 {
        return 0;
    }
    size as u128 * 1000 / total as u128
}

// Puts the share behind the text that this is of the total, in percent with one decimal.
fn add_share(alloc: Global, to: &mut Vec<u8>, size: u64, total: u64) -> Result<(), AllocError>
    ensures { OnOk result (to.new.items ≡ to.old.items ++ share_text size total) }
{
    let share = thousandths(size, total);
    let text = format!(in alloc; "{}.{}%", share / 10, share % 10)?;
    to.extend_from_slice(text.as_bytes())
}

// Puts the line of a function behind the text.
fn add_line(
    alloc: Global,
    to: &mut Vec<u8>,
    total: u64,
    function: &Listed,
) -> Result<(), AllocError>
    ensures { OnOk result (to.new.items ≡ to.old.items ++ share_line total function.now) }
{
    add_decimal(alloc, to, function.size as u64)?;
    to.push(b' ')?;
    add_share(alloc, to, function.size as u64, total)?;
    to.push(b' ')?;
    add_decimal(alloc, to, function.index as u64)?;
    add_name(to, &function.name)?;
    Ok(to.push(b'\n')?)
}

// Puts a line for each of the functions behind the text.
fn add_lines(
    alloc: Global,
    to: &mut Vec<u8>,
    total: u64,
    functions: &[Listed],
) -> Result<(), AllocError>
    ensures { OnOk result (to.new.items ≡ to.old.items
        ++ flat_map (share_line total) functions.now) }
{
    'functions: for function in functions {
        add_line(alloc, to, total, function)?;
    }
    Ok(())
}

// Puts the line of all of them behind the text.
fn add_total(alloc: Global, to: &mut Vec<u8>, total: u64, count: usize) -> Result<(), AllocError>
    ensures { OnOk result (to.new.items ≡ to.old.items ++ total_line total count) }
{
    add_decimal(alloc, to, total)?;
    to.extend_from_slice(b" 100.0% of ")?;
    add_decimal(alloc, to, count as u64)?;
    to.extend_from_slice(b" functions\n")?;
    Ok(())
}

// For people so many lines, and one of all; for programs so many objects.
fn text(
    alloc: Global,
    is_json: bool,
    count: Option<u32>,
    functions: &[Listed],
) -> Result<Vec<u8>, AllocError>
    ensures { IfOk result (λ text. text.items ≡ shares_text is_json count functions.now) }
{
    let first = first_of(functions, count);
    if is_json {
        return rows::told(alloc, true, first);
    }
    let total = total_of(functions);
    let mut text = Vec::new(alloc);
    add_lines(alloc, &mut text, total, first)?;
    add_total(alloc, &mut text, total, functions.len())?;
    Ok(text)
}

/// So many of the functions by size, for people or for programs.
pub(crate) fn told(
    alloc: Global,
    is_json: bool,
    count: Option<u32>,
    functions: Vec<Listed>,
) -> Result<Vec<u8>, AllocError>
    ensures { IfOk result (λ text. TellsListed is_json true count functions.items text.items) }
{
    let mut ordered = functions;
    order_by_size(&mut ordered);
    text(alloc, is_json, count, &ordered)
}
