//! What is said in a line of a module that became smaller: what was dropped of it, items, bytes and debug information, and what became of the rest.

ghost use Rattle.std.specs.Prelude.{◌≡◌, ◌++◌, IfOk, OnOk, codes, map};
ghost use Rattle.mulkavesh.specs.Notes.{change_text, debug_part, debug_text, functions_word, item_parts, kind_part, kind_text, longer_text, note_text, parts_text, rest_text, sizes_text, vec_bytes};
ghost use Rattle.mulkavesh.specs.Json.{separated};
ghost use Rattle.walrus_tools.specs.WeighText.{rest_of};

use crate::json::add_comma;
use crate::numbers::add_grouped;
use std::alloc::{AllocError, Global};
use walrus_tools::{Kinds, Weighed, rest_of};

/// What became of a module, in a line: `mulkavesh: 2,073 bytes become 1,991; dropped: 1 of 20 functions (60 bytes); rest: 22 bytes less`.
pub(crate) fn note_of(alloc: Global, told: &Weighed) -> Result<Vec<u8>, AllocError>
    ensures { IfOk result (λ note. note.items ≡ note_text told.now) }
{
    let parts = parts_of(alloc, *told)?;
    let mut note = Vec::new(alloc);
    add_sizes(alloc, &mut note, told.read, told.written)?;
    add_parts(&mut note, &parts)?;
    add_rest(alloc, &mut note, rest_of(*told), told.written)?;
    note.extend_from_slice(longer(told.read, told.written).as_bytes())?;
    note.push(b'\n')?;
    Ok(note)
}

// ---- bytes

// Puts behind the text how many bytes become how many.
fn add_sizes(alloc: Global, to: &mut Vec<u8>, read: usize, written: usize) -> Result<(), AllocError>
    ensures { OnOk result (to.new.items ≡ to.old.items ++ sizes_text read written) }
{
    to.extend_from_slice(b"mulkavesh: ")?;
    add_grouped(alloc, to, read as u64)?;
    to.extend_from_slice(b" bytes become ")?;
    add_grouped(alloc, to, written as u64)?;
    to.extend_from_slice(b"; dropped: ")?;
    Ok(())
}

// Puts behind the text by how many bytes all else becomes more or less.
fn add_change(
    alloc: Global,
    to: &mut Vec<u8>,
    rest: usize,
    written: usize,
) -> Result<(), AllocError>
    ensures { OnOk result (to.new.items ≡ to.old.items ++ change_text rest written) }
{
    if rest < written {
        add_grouped(alloc, to, (written - rest) as u64)?;
        return to.extend_from_slice(b" bytes more");
    }
    add_grouped(alloc, to, (rest - written) as u64)?;
    to.extend_from_slice(b" bytes less")
}

// Puts that behind the text, and what it is told of.
fn add_rest(alloc: Global, to: &mut Vec<u8>, rest: usize, written: usize) -> Result<(), AllocError>
    ensures { OnOk result (to.new.items ≡ to.old.items ++ rest_text rest written) }
{
    to.extend_from_slice(b"; rest: ")?;
    add_change(alloc, to, rest, written)
}

// Why there are more bytes than there were, where it is so.
fn longer(read: usize, written: usize) -> &'static str
    ensures { result.now ≡ longer_text read written }
{
    if read < written {
        "; functions stand by falling size, so indices may take more bytes"
    } else {
        ""
    }
}

// ---- what was dropped

// What was dropped, a text each.
fn parts_of(alloc: Global, told: Weighed) -> Result<Vec<Vec<u8>>, AllocError>
    ensures { IfOk result (λ parts. map vec_bytes parts.items
        ≡ item_parts told.bodies told.before told.after ++ debug_part told.debug) }
{
    let mut parts = Vec::new(alloc);
    add_item_parts(alloc, &mut parts, told)?;
    add_debug_part(alloc, &mut parts, told.debug)?;
    Ok(parts)
}

// Puts behind the others a text for each kind of items, if some of them were dropped.
fn add_item_parts(alloc: Global, to: &mut Vec<Vec<u8>>, told: Weighed) -> Result<(), AllocError>
    ensures { OnOk result (map vec_bytes to.new.items ≡ map vec_bytes to.old.items
        ++ item_parts told.bodies told.before told.after) }
{
    let (before, after) = (told.before, told.after);
    let functions = functions_word(alloc, told.bodies)?;
    add_kind_part(alloc, to, &functions, before.functions, after.functions)?;
    add_kind_part(alloc, to, b"tables", before.tables, after.tables)?;
    add_kind_part(alloc, to, b"memories", before.memories, after.memories)?;
    add_kind_part(alloc, to, b"tags", before.tags, after.tags)?;
    add_kind_part(alloc, to, b"globals", before.globals, after.globals)?;
    add_kind_part(alloc, to, b"elements", before.elements, after.elements)?;
    add_kind_part(alloc, to, b"data", before.data_, after.data_)?;
    Ok(())
}

// The word for functions, with how many bytes the bodies of those have that were dropped.
fn functions_word(alloc: Global, bodies: usize) -> Result<Vec<u8>, AllocError>
    ensures { IfOk result (λ word. word.items ≡ functions_word bodies) }
{
    let mut word = Vec::new(alloc);
    word.extend_from_slice(b"functions (")?;
    add_grouped(alloc, &mut word, bodies as u64)?;
    word.extend_from_slice(b" bytes)")?;
    Ok(word)
}

// How many items of a kind were dropped of so many.
fn kind_of(alloc: Global, word: &[u8], before: usize, dropped: usize) -> Result<Vec<u8>, AllocError>
    ensures { IfOk result (λ text. text.items ≡ kind_text word.now before dropped) }
{
    let mut text = Vec::new(alloc);
    add_grouped(alloc, &mut text, dropped as u64)?;
    text.extend_from_slice(b" of ")?;
    add_grouped(alloc, &mut text, before as u64)?;
    text.push(b' ')?;
    text.extend_from_slice(word)?;
    Ok(text)
}

// Puts that behind the others, if some were dropped.
fn add_kind_part(
    alloc: Global,
    to: &mut Vec<Vec<u8>>,
    word: &[u8],
    before: usize,
    after: usize,
) -> Result<(), AllocError>
    ensures { OnOk result (map vec_bytes to.new.items ≡ map vec_bytes to.old.items
        ++ kind_part word.now before after) }
{
    let dropped = before.saturating_sub(after);
    if dropped == 0 {
        return Ok(());
    }
    let text = kind_of(alloc, word, before, dropped)?;
    Ok(to.push(text)?)
}

// How many bytes of debug information were dropped.
fn debug_of(alloc: Global, debug: usize) -> Result<Vec<u8>, AllocError>
    ensures { IfOk result (λ text. text.items ≡ debug_text debug) }
{
    let mut text = Vec::new(alloc);
    add_grouped(alloc, &mut text, debug as u64)?;
    text.extend_from_slice(b" bytes of debug information")?;
    Ok(text)
}

// Puts that behind the others, if there was any.
fn add_debug_part(alloc: Global, to: &mut Vec<Vec<u8>>, debug: usize) -> Result<(), AllocError>
    ensures { OnOk result (map vec_bytes to.new.items ≡ map vec_bytes to.old.items ++ debug_part debug) }
{
    if debug == 0 {
        return Ok(());
    }
    let text = debug_of(alloc, debug)?;
    Ok(to.push(text)?)
}

// Puts texts behind the text, with a comma between each two.
fn add_all(to: &mut Vec<u8>, parts: &[Vec<u8>]) -> Result<(), AllocError>
    ensures { OnOk result (to.new.items ≡ to.old.items ++ separated (codes ", ") (map vec_bytes parts.now)) }
{
    'parts: for (place, part) in parts.iter().enumerate() {
        add_comma(to, ", ", place)?;
        to.extend_from_slice(part)?;
    }
    Ok(())
}

// Puts behind the text what was dropped; or that it was nothing.
fn add_parts(to: &mut Vec<u8>, parts: &[Vec<u8>]) -> Result<(), AllocError>
    ensures { OnOk result (to.new.items ≡ to.old.items ++ parts_text (map vec_bytes parts.now)) }
{
    let [_, ..] = parts else {
        return to.extend_from_slice(b"nothing");
    };
    add_all(to, parts)
}
