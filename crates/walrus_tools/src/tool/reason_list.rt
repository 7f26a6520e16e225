//! Why an item stays, and what refers to it, as bytes for callers of other languages.

ghost use Rattle.std.specs.Prelude.{◌≡◌, ◌++◌, ◌<◌, ◌^◌, ◌≤◌, IfErr, IfOk, OnOk, flat_map, string_bytes};
ghost use Rattle.walrus.specs.Code.Code.{item_of};
ghost use Rattle.walrus.specs.Model.Abstract.{Name};
ghost use Rattle.walrus_sections.specs.Choice.{choices_seen};
ghost use Rattle.walrus_tools.specs.ExportList.{text_bytes};
ghost use Rattle.walrus_tools.specs.Links.{LinkTold, link_seen, links_in};
ghost use Rattle.walrus_sections.specs.Numbers.{RefusesIf};
ghost use Rattle.walrus_tools.specs.ReasonAnswers.{AnswersCallerList, AnswersReasonList};
ghost use Rattle.walrus_tools.specs.ReasonBytes.{IsLongAlone, IsLongLink, IsLongReason, IsLongSize, IsLongText, alone_bytes, chain_links, item_bytes, link_bytes, reason_bytes, reason_seen, root_number, size_bytes};
ghost use Rattle.walrus_tools.specs.Spelled.{HasLong};
ghost use Rattle.walrus.specs.Wanted.{config_wanted};

use crate::export_groups::kind_number;
use crate::goers::Alone;
use crate::lines::item_index;
use crate::links::Link;
use crate::reasons::Reason;
use crate::roots::Root;
use crate::spelled::{Told, add_all, spelled};
use crate::tool::callers::callers;
use crate::tool::list::add_name;
use crate::tool::why::why;
use std::alloc::Global;
use walrus::{Error, ItemId, Result, Wanted};
use walrus_sections::{Choice, NO_NAME, add_number, add_text, narrow};

// ---- a link

// Puts the number of an item's kind and its index behind the bytes.
fn add_item(to: &mut Vec<u8>, item: ItemId) -> Result<()>
    ensures value { OnOk result (to.new.items ≡ to.old.items ++ item_bytes (item_of item)) }
    ensures fits { OnOk result ((item_of item).1 < 2 ^ 32) }
    ensures refused { IfErr result (RefusesIf (2 ^ 32 ≤ (item_of item).1)) }
{
    let index = narrow(item_index(item))?;
    to.push(kind_number(item))?;
    Ok(add_number(to, index)?)
}

// Puts a size behind the bytes, or what says that there is none.
fn add_size(to: &mut Vec<u8>, size: Option<usize>) -> Result<()>
    ensures value { OnOk result (to.new.items ≡ to.old.items ++ size_bytes size) }
    ensures fits { OnOk result (IsLongSize size → ⊥) }
    ensures refused { IfErr result (RefusesIf (IsLongSize size)) }
{
    let Some(size) = size else {
        return Ok(add_number(to, NO_NAME)?);
    };
    let narrow = narrow(size)?;
    if narrow == NO_NAME {
        return Err(Error::TooLarge);
    }
    Ok(add_number(to, narrow)?)
}

impl Told for String {
    ghost Seen = { Name };

    ghost seen = { string_bytes };

    ghost spell = { text_bytes };

    ghost IsLong = { IsLongText };

    fn add_to(&self, to: &mut Vec<u8>) -> Result<()> {
        add_text(to, self.as_str())
    }
}

impl Told for Link {
    ghost Seen = { LinkTold };

    ghost seen = { link_seen };

    ghost spell = { link_bytes };

    ghost IsLong = { IsLongLink };

    fn add_to(&self, to: &mut Vec<u8>) -> Result<()> {
        add_item(to, self.item)?;
        add_size(to, self.size)?;
        add_name(to, &self.name)?;
        let count = narrow(self.exports.len())?;
        add_number(to, count)?;
        add_all(to, &self.exports)
    }
}

// ---- a reason

// The number of what makes an item a root.
fn root_byte(root: Option<Root>) -> u8
    ensures { result ≡ root_number root }
{
    match root {
        None => 0,
        Some(Root::Exported) => 1,
        Some(Root::Start) => 2,
        Some(Root::Active) => 3,
        Some(Root::Declared) => 4,
    }
}

// Puts what goes with an item behind the bytes, or that it isn't told.
fn add_alone(to: &mut Vec<u8>, alone: Option<Alone>) -> Result<()>
    ensures value { OnOk result (to.new.items ≡ to.old.items ++ alone_bytes alone) }
    ensures fits { OnOk result (IsLongAlone alone → ⊥) }
    ensures refused { IfErr result (RefusesIf (IsLongAlone alone)) }
{
    let (told, functions, bytes) = match alone {
        Some(alone) => (1, narrow(alone.functions)?, narrow(alone.bytes)?),
        None => (0, 0, 0),
    };
    to.push(told)?;
    add_number(to, functions)?;
    Ok(add_number(to, bytes)?)
}

// Puts the links of a chain behind the bytes, if there is one.
fn add_chain(to: &mut Vec<u8>, links: &Option<Vec<Link>>) -> Result<()>
    ensures value { OnOk result (to.new.items ≡ to.old.items
        ++ flat_map link_bytes (chain_links (links_in links.now))) }
    ensures fits { OnOk result (HasLong IsLongLink (chain_links (links_in links.now)) → ⊥) }
    ensures refused { IfErr result (RefusesIf (HasLong IsLongLink (chain_links (links_in links.now)))) }
{
    match links {
        Some(links) => add_all(to, links),
        None => Ok(()),
    }
}

// The bytes of a reason.
fn reason_bytes(alloc: Global, reason: &Reason) -> Result<Vec<u8>>
    ensures value { IfOk result (λ list. list.items ≡ reason_bytes (reason_seen reason.now)) }
    ensures fits { OnOk result (IsLongReason (reason_seen reason.now) → ⊥) }
    ensures refused { IfErr result (RefusesIf (IsLongReason (reason_seen reason.now))) }
{
    let mut list = Vec::new(alloc);
    add_item(&mut list, reason.item)?;
    list.push(root_byte(reason.root))?;
    add_alone(&mut list, reason.alone)?;
    add_chain(&mut list, &reason.links)?;
    Ok(list)
}

/// What [`why`](crate::why) answers, as bytes for callers of other languages. All numbers but bytes have 32 bits, the lowest byte first.
///
/// - The item: a byte of its kind (0 a type, 1 a function, 2 a table, 3 a memory, 4 a tag, 5 a global, 6 a segment of elements, 7 one of data), and
///   its index.
/// - A byte of what makes the first link a root: 0 where there is no chain, 1 exported, 2 the start function, 3 an active segment, 4 a declared one.
/// - A byte that is 1 where it is told what goes with the item, and two numbers, how many functions and bytes do; else all of this is 0.
/// - The links of the chain, to the end: of each the kind and the index, the size, and the length of the name, [`NO_NAME`] for none of both, with the
///   name behind it; then how many export names there are, and the length and the bytes of each.
///
/// # Errors
///
/// Those of [`why`](crate::why), and `TooLarge` also where what is told has a number or a name past 32 bits.
pub fn reason_list(
    alloc: Global,
    bytes: &[u8],
    wanted: Wanted,
    choices: &[Choice<'_>],
    text: &str,
) -> Result<Vec<u8>>
    ensures { AnswersReasonList (config_wanted wanted) bytes.now (choices_seen choices.now) text.now result }
{
    let reason = why(alloc, bytes, wanted, choices, text)?;
    reason_bytes(alloc, &reason)
}

/// What [`callers`](crate::callers) answers, as bytes for callers of other languages: links as in [`reason_list`].
///
/// # Errors
///
/// Those of [`callers`](crate::callers), and `TooLarge` also where what is told has a number or a name past 32 bits.
pub fn caller_list(
    alloc: Global,
    bytes: &[u8],
    wanted: Wanted,
    choices: &[Choice<'_>],
    text: &str,
) -> Result<Vec<u8>>
    ensures { AnswersCallerList (config_wanted wanted) bytes.now (choices_seen choices.now) text.now result }
{
    let links = callers(alloc, bytes, wanted, choices, text)?;
    spelled(alloc, &links)
}
