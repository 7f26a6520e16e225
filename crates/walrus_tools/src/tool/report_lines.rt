//! What is told of a module that becomes smaller, as lines for people.

ghost use Rattle.std.specs.Prelude.{◌≡◌, ◌++◌, IfOk, OnOk, codes, string_bytes};
ghost use Rattle.walrus.specs.Theorem.Report.{line};
ghost use Rattle.walrus_tools.specs.WeighText.{bytes_text, kind_line, kinds_text, longer_line, number_line, rest_line, rest_of, sizes_line, weighed_text};

use crate::kinds::Kinds;
use crate::weigh::Weighed;
use std::alloc::{AllocError, Global};
use std::result;

// ---- items

// A line of a kind.
#[tactic(auto, using(crate::proofs::WeighLines::kind_nested))]
fn kind_of(
    alloc: Global,
    word: &str,
    kept: usize,
    dropped: usize,
) -> result::Result<String, AllocError>
    ensures { IfOk result (λ text. string_bytes text ≡ line word.now kept dropped) }
{
    format!(in alloc; "{word} kept {kept} dropped {dropped}\n")
}

// Puts the line of a kind behind the text.
fn add_kind(
    alloc: Global,
    text: &mut String,
    word: &str,
    before: usize,
    after: usize,
) -> result::Result<(), AllocError>
    ensures { OnOk result (string_bytes text.new ≡ string_bytes text.old
        ++ kind_line word.now before after) }
{
    let kind = kind_of(alloc, word, after, before.saturating_sub(after))?;
    text.push_str(kind.as_str())
}

// Puts a line for each kind behind the text.
fn add_kinds(
    alloc: Global,
    text: &mut String,
    before: Kinds,
    after: Kinds,
) -> result::Result<(), AllocError>
    ensures { OnOk result (string_bytes text.new ≡ string_bytes text.old ++ kinds_text before after) }
{
    add_kind(alloc, text, "functions", before.functions, after.functions)?;
    add_kind(alloc, text, "tables", before.tables, after.tables)?;
    add_kind(alloc, text, "memories", before.memories, after.memories)?;
    add_kind(alloc, text, "tags", before.tags, after.tags)?;
    add_kind(alloc, text, "globals", before.globals, after.globals)?;
    add_kind(alloc, text, "elements", before.elements, after.elements)?;
    add_kind(alloc, text, "data", before.data_, after.data_)?;
    Ok(())
}

// ---- bytes

// The line of what was read and written.
#[tactic(auto, using(crate::proofs::WeighLines::sizes_nested))]
fn sizes_of(
    alloc: Global,
    word: &str,
    read: usize,
    written: usize,
) -> result::Result<String, AllocError>
    ensures { IfOk result (λ text. string_bytes text ≡ sizes_line word.now read written) }
{
    format!(in alloc; "{word} read {read} written {written}\n")
}

// Puts it behind the text.
fn add_sizes(
    alloc: Global,
    text: &mut String,
    read: usize,
    written: usize,
) -> result::Result<(), AllocError>
    ensures { OnOk result (string_bytes text.new ≡ string_bytes text.old
        ++ sizes_line (codes "bytes") read written) }
{
    let sizes = sizes_of(alloc, "bytes", read, written)?;
    text.push_str(sizes.as_str())
}

// A line that ends in a number.
#[tactic(auto, using(crate::proofs::WeighLines::number_nested))]
fn number_of(alloc: Global, word: &str, number: usize) -> result::Result<String, AllocError>
    ensures { IfOk result (λ text. string_bytes text ≡ number_line word.now number) }
{
    format!(in alloc; "bytes of {word} {number}\n")
}

// Puts such a line behind the text.
fn add_number(
    alloc: Global,
    text: &mut String,
    word: &str,
    number: usize,
) -> result::Result<(), AllocError>
    ensures { OnOk result (string_bytes text.new ≡ string_bytes text.old
        ++ number_line word.now number) }
{
    let line = number_of(alloc, word, number)?;
    text.push_str(line.as_str())
}

// The line of what is neither: so many bytes became so many others.
#[tactic(auto, using(crate::proofs::WeighLines::rest_nested))]
fn rest_line(alloc: Global, rest: usize, written: usize) -> result::Result<String, AllocError>
    ensures { IfOk result (λ text. string_bytes text ≡ rest_line rest written) }
{
    if rest < written {
        let more = written - rest;
        return format!(in alloc; "bytes of the rest {more} more\n");
    }
    let less = rest - written;
    format!(in alloc; "bytes of the rest {less} less\n")
}

// Puts it behind the text.
fn add_rest(
    alloc: Global,
    text: &mut String,
    rest: usize,
    written: usize,
) -> result::Result<(), AllocError>
    ensures { OnOk result (string_bytes text.new ≡ string_bytes text.old ++ rest_line rest written) }
{
    let line = rest_line(alloc, rest, written)?;
    text.push_str(line.as_str())
}

// Why there is more than there was, where it is so.
fn longer(read: usize, written: usize) -> &'static str
    ensures { result.now ≡ longer_line read written }
{
    if read < written {
        return "functions stand by falling size, so indices may take more bytes\n";
    }
    ""
}

// Puts the lines of bytes behind the text.
fn add_bytes(alloc: Global, text: &mut String, told: Weighed) -> result::Result<(), AllocError>
    ensures { OnOk result (string_bytes text.new ≡ string_bytes text.old ++ bytes_text told) }
{
    add_sizes(alloc, text, told.read, told.written)?;
    add_number(alloc, text, "dropped functions", told.bodies)?;
    add_number(alloc, text, "debug information", told.debug)?;
    add_rest(alloc, text, rest_of(told), told.written)?;
    text.push_str(longer(told.read, told.written))?;
    Ok(())
}

/// How many bytes of the input are neither bodies of functions that are dropped nor debug information.
pub fn rest_of(told: Weighed) -> usize
    ensures { result ≡ rest_of told }
{
    told.read
        .saturating_sub(told.bodies)
        .saturating_sub(told.debug)
}

/// What is told of a module that becomes smaller: seven lines with how many items of each kind are kept and dropped, and four or five with how many
/// bytes there were, and where they went.
///
/// # Errors
///
/// Where memory runs out, and never else.
pub fn report_lines(alloc: Global, told: &Weighed) -> result::Result<String, AllocError>
    ensures { IfOk result (λ text. string_bytes text ≡ weighed_text told.now) }
{
    let mut text = String::new(alloc);
    add_kinds(alloc, &mut text, told.before, told.after)?;
    add_bytes(alloc, &mut text, *told)?;
    Ok(text)
}
