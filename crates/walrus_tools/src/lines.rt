//! The lines of a report on a function: a chain of references, and what functions cost.

ghost use Rattle.std.specs.Prelude.{◌≡◌, ◌++◌, IfOk, OnOk, codes, decimal, flat_map, map, string_bytes};
ghost use Rattle.walrus.specs.Base.Id.{place};
ghost use Rattle.walrus.specs.Code.Code.{item_of};
ghost use Rattle.walrus.specs.Items.Transform.{range_of, transform_of};
ghost use Rattle.walrus_tools.specs.Reasons.{chain_seen, chain_text, item_line, item_text, report_text, size_line, size_text, word_of};

use std::alloc::{AllocError, Global};
use std::ops::Range;
use std::result;
use walrus::{CodeTransform, FunctionId, ItemId};

/// Why an item stays where what nothing reaches goes. Its ids are those of the module that was read, whose indices are the ones in the bytes.
#[derive(Drop)]
pub struct Chain {
    /// The item.
    pub item: ItemId,
    /// The items of a chain of references that leads to it: a root first, each refers to the next, and the item is the last. None where it
    /// isn't reached.
    pub links: Option<Vec<ItemId>>,
}

/// The lines of the chain, or the one that the item isn't reached, and then those of the functions.
///
/// # Errors
///
/// Where memory runs out, and never else.
pub fn chain_report(
    alloc: Global,
    chain: &Chain,
    transform: &CodeTransform,
) -> result::Result<String, AllocError>
    ensures { IfOk result (λ text. string_bytes text ≡ report_text (item_of chain.now.item)
        (chain_seen chain.now) (transform_of transform.now)) }
{
    let mut text = chain_lines(alloc, chain)?;
    add_sizes(alloc, &mut text, transform.function_ranges.as_slice())?;
    Ok(text)
}

/// A line for each item of the chain, as `function 3`, a root first; or one that the item isn't reached.
///
/// # Errors
///
/// Where memory runs out, and never else.
pub fn chain_lines(alloc: Global, chain: &Chain) -> result::Result<String, AllocError>
    ensures { IfOk result (λ text. string_bytes text
        ≡ chain_text (item_of chain.now.item) (chain_seen chain.now)) }
{
    match &chain.links {
        Some(items) => lines_of(alloc, items.as_slice()),
        None => line_of(alloc, chain.item, " isn't reached\n"),
    }
}

// A line for each item.
fn lines_of(alloc: Global, items: &[ItemId]) -> result::Result<String, AllocError>
    ensures { IfOk result (λ text. string_bytes text ≡ flat_map item_line (map item_of items.now)) }
{
    let mut text = String::new(alloc);
    for item in items {
        let line = line_of(alloc, *item, "\n")?;
        text.push_str(line.as_str())?;
    }
    Ok(text)
}

// Puts behind the text a line for each function, with the length of its body.
fn add_sizes(
    alloc: Global,
    text: &mut String,
    functions: &[(FunctionId, Range<usize>)],
) -> result::Result<(), AllocError>
    ensures { OnOk result (string_bytes text.new ≡ string_bytes text.old
        ++ flat_map size_line (map range_of functions.now)) }
{
    for function in functions {
        let bytes = function.1.end.saturating_sub(function.1.start);
        let line = size_of(alloc, function.0, bytes)?;
        text.push_str(line.as_str())?;
    }
    Ok(())
}

// The line of a function whose body has so many bytes.
#[tactic(auto, using(crate::proofs::LineLemmas::size_joined))]
fn size_of(alloc: Global, function: FunctionId, bytes: usize) -> result::Result<String, AllocError>
    ensures { IfOk result (λ text. string_bytes text ≡ size_text (place function) bytes) }
{
    let size = line(alloc, ":", bytes, " bytes\n")?;
    line(alloc, "function", function.index(), size.as_str())
}

// The item, and this behind it.
fn line_of(alloc: Global, item: ItemId, end: &str) -> result::Result<String, AllocError>
    ensures { IfOk result (λ text. string_bytes text ≡ item_text (item_of item) ++ end.now) }
{
    line(alloc, item_word(item), item_index(item), end)
}

// A word, a number behind it, and what follows.
#[tactic(auto, using(crate::proofs::LineLemmas::nested_line))]
fn line(alloc: Global, word: &str, number: usize, end: &str) -> result::Result<String, AllocError>
    ensures { IfOk result (λ text. string_bytes text
        ≡ word.now ++ codes " " ++ decimal number ++ end.now) }
{
    format!(in alloc; "{word} {number}{end}")
}

/// The kind of the item, as a word.
pub fn item_word(item: ItemId) -> &'static str
    ensures { result.now ≡ word_of (item_of item).0 }
{
    match item {
        ItemId::Type(_) => "type",
        ItemId::Function(_) => "function",
        ItemId::Table(_) => "table",
        ItemId::Memory(_) => "memory",
        ItemId::Tag(_) => "tag",
        ItemId::Global(_) => "global",
        ItemId::Element(_) => "element",
        ItemId::Data(_) => "data",
    }
}

/// Its index in the bytes that were read.
pub fn item_index(item: ItemId) -> usize
    ensures { result ≡ (item_of item).1 }
{
    match item {
        ItemId::Type(id) => id.index(),
        ItemId::Function(id) => id.index(),
        ItemId::Table(id) => id.index(),
        ItemId::Memory(id) => id.index(),
        ItemId::Tag(id) => id.index(),
        ItemId::Global(id) => id.index(),
        ItemId::Element(id) => id.index(),
        ItemId::Data(id) => id.index(),
    }
}
