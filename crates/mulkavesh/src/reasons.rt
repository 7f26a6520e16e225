//! Why an item stays, as a text: for people a line for each item of a chain, for programs an object.

ghost use Rattle.std.specs.Prelude.{◌≡◌, ◌++◌, IfOk, OnOk};
ghost use Rattle.mulkavesh.specs.Reasons.{alone_json, alone_text, chain_json, chain_of, chain_text, reach_text, reached_json, reason_json, reason_text, reason_told, root_json, root_text};
ghost use Rattle.walrus_tools.specs.Facade.{item_of};

use crate::links::add_link;
use crate::numbers::add_decimal;
use crate::rows::{add_item, add_lines, add_objects};
use std::alloc::{AllocError, Global};
use walrus_tools::{Alone, Link, Reason, Root};

/// Why the item stays, for people or for programs.
pub(crate) fn told(alloc: Global, is_json: bool, reason: &Reason) -> Result<Vec<u8>, AllocError>
    ensures { IfOk result (λ text. text.items ≡ reason_told is_json reason.now) }
{
    if is_json {
        return json(alloc, reason);
    }
    text(alloc, reason)
}

// ---- for people

// What makes the first item of a chain a root, where that isn't the name of an export.
fn root_text(root: Option<Root>) -> &'static str
    ensures { result.now ≡ root_text root }
{
    match root {
        None | Some(Root::Exported) => "",
        Some(Root::Start) => ", the start function",
        Some(Root::Active) => ", an active segment",
        Some(Root::Declared) => ", a declared segment",
    }
}

// Puts a line for each item of a chain behind the text.
fn add_chain(
    alloc: Global,
    to: &mut Vec<u8>,
    root: Option<Root>,
    chain: &[Link],
) -> Result<(), AllocError>
    ensures { OnOk result (to.new.items ≡ to.old.items ++ chain_text root chain.now) }
{
    let [first, others @ ..] = chain else {
        return Ok(());
    };
    add_link(alloc, to, first)?;
    to.extend_from_slice(root_text(root).as_bytes())?;
    to.push(b'\n')?;
    add_lines(alloc, to, others)
}

// Puts the lines of the chain behind the text, or one that the item isn't reached.
fn add_reach(alloc: Global, to: &mut Vec<u8>, reason: &Reason) -> Result<(), AllocError>
    ensures { OnOk result (to.new.items ≡ to.old.items
        ++ reach_text (item_of reason.now.item) reason.now.root (chain_of reason.now)) }
{
    match &reason.links {
        Some(chain) => add_chain(alloc, to, reason.root, chain),
        None => {
            add_item(alloc, to, reason.item)?;
            to.extend_from_slice(b" isn't reached\n")
        }
    }
}

// Puts behind the text what would go with the item, where that is told.
fn add_alone(alloc: Global, to: &mut Vec<u8>, alone: Option<Alone>) -> Result<(), AllocError>
    ensures { OnOk result (to.new.items ≡ to.old.items ++ alone_text alone) }
{
    let Some(alone) = alone else {
        return Ok(());
    };
    to.extend_from_slice(b"it and what it alone keeps: functions ")?;
    add_decimal(alloc, to, alone.functions as u64)?;
    to.extend_from_slice(b", bytes ")?;
    add_decimal(alloc, to, alone.bytes as u64)?;
    to.extend_from_slice(b"\n")?;
    Ok(())
}

// The lines.
fn text(alloc: Global, reason: &Reason) -> Result<Vec<u8>, AllocError>
    ensures { IfOk result (λ text. text.items ≡ reason_text reason.now) }
{
    let mut text = Vec::new(alloc);
    add_reach(alloc, &mut text, reason)?;
    add_alone(alloc, &mut text, reason.alone)?;
    Ok(text)
}

// ---- for programs

// Whether a chain leads to the item, behind what begins an object.
fn reached_json(reason: &Reason) -> &'static str
    ensures { result.now ≡ reached_json (chain_of reason.now) }
{
    match &reason.links {
        Some(_) => "{\"reached\":true",
        None => "{\"reached\":false",
    }
}

// What makes the first item of a chain a root, if it is told.
fn root_json(root: Option<Root>) -> &'static str
    ensures { result.now ≡ root_json root }
{
    match root {
        None => "null",
        Some(Root::Exported) => "\"exported\"",
        Some(Root::Start) => "\"start\"",
        Some(Root::Active) => "\"active\"",
        Some(Root::Declared) => "\"declared\"",
    }
}

// Puts the objects of the chain behind the text, if there is one.
fn add_chain_json(alloc: Global, to: &mut Vec<u8>, reason: &Reason) -> Result<(), AllocError>
    ensures { OnOk result (to.new.items ≡ to.old.items ++ chain_json (chain_of reason.now)) }
{
    match &reason.links {
        Some(chain) => add_objects(alloc, to, ",", chain.as_slice()),
        None => Ok(()),
    }
}

// Puts the object behind the text of what would go with the item; or that it isn't told.
fn add_alone_json(alloc: Global, to: &mut Vec<u8>, alone: Option<Alone>) -> Result<(), AllocError>
    ensures { OnOk result (to.new.items ≡ to.old.items ++ alone_json alone) }
{
    let Some(alone) = alone else {
        return to.extend_from_slice(b"null");
    };
    to.extend_from_slice(b"{\"functions\":")?;
    add_decimal(alloc, to, alone.functions as u64)?;
    to.extend_from_slice(b",\"bytes\":")?;
    add_decimal(alloc, to, alone.bytes as u64)?;
    Ok(to.push(b'}')?)
}

// An object.
fn json(alloc: Global, reason: &Reason) -> Result<Vec<u8>, AllocError>
    ensures { IfOk result (λ text. text.items ≡ reason_json reason.now) }
{
    let mut text = Vec::new(alloc);
    text.extend_from_slice(reached_json(reason).as_bytes())?;
    text.extend_from_slice(b",\"root\":")?;
    text.extend_from_slice(root_json(reason.root).as_bytes())?;
    text.extend_from_slice(b",\"chain\":[")?;
    add_chain_json(alloc, &mut text, reason)?;
    text.extend_from_slice(b"],\"alone\":")?;
    add_alone_json(alloc, &mut text, reason.alone)?;
    text.extend_from_slice(b"}\n")?;
    Ok(text)
}
