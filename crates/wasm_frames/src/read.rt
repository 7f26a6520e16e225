//! Reading a module's bytes.

ghost use Rattle.std.specs.Prelude.{◌≡◌, ◌+◌, ◌-◌, ◌^◌, ◌<◌, ◌++◌, ◌∷◌, [], ℕ, Some, IfOk, OnOk, IsErrOf, length};
ghost use Rattle.wasm_forms.specs.Reading.{Gives};
ghost use Rattle.wasm_frames.specs.Record.{Module, sections, no_sections};
ghost use Rattle.wasm_frames.specs.Frames.{Frames, HasOneRecord, header, with_section};
ghost use Rattle.wasm_frames.specs.Steps.{ReadsHeader, GoesOn, section_record, next_at};
ghost use Rattle.wasm_frames.specs.Until.{HoldsWhole, IsFramed, HasOnePlace, IsNoModule};

use crate::record::Raw;
use crate::section::{RawSection, read_section};
use std::alloc::{AllocError, Global};
use wasm_forms::WireError;

/// How far bytes are a module: what [`framed_until`] found.
#[derive(Drop)]
pub enum Framed<'a> {
    /// All of them: the records.
    Whole(Raw<'a>),
    /// The magic number and the version don't stand in front.
    NoHeader,
    /// Whole sections stand up to this place, in bytes from the start of the input. Bytes are left there, and none stands in
    /// front of them.
    Until(usize),
}

/// What stands behind the magic number and the version (Binary Format > Modules).
pub fn read_header(bytes: &[u8]) -> Option<&[u8]>
    ensures { ReadsHeader (λ r. r.now) bytes.now result }
{
    match bytes {
        [0x00, 0x61, 0x73, 0x6D, 0x01, 0x00, 0x00, 0x00, rest @ ..] => Some(rest),
        _ => None,
    }
}

/// Records without sections.
fn no_records<'a>(alloc: Global) -> Raw<'a>
    ensures { sections result ≡ no_sections }
{
    Raw {
        order: Vec::new(alloc),
        types: Vec::new(alloc),
        imports: Vec::new(alloc),
        functions: Vec::new(alloc),
        tables: Vec::new(alloc),
        memories: Vec::new(alloc),
        tags: Vec::new(alloc),
        globals: Vec::new(alloc),
        exports: Vec::new(alloc),
        start: None,
        elements: Vec::new(alloc),
        data_count: None,
        bodies: Vec::new(alloc),
        data_: Vec::new(alloc),
        customs: Vec::new(alloc),
    }
}

/// Adds a section's id to the order, and its entries behind the earlier ones.
fn append<T: Drop>(
    order: &mut Vec<u8>,
    id: u8,
    list: &mut Vec<T>,
    mut entries: Vec<T>,
) -> Result<(), AllocError>
    ensures ordered { OnOk result (order.new.items ≡ order.old.items ++ id ∷ []) }
    ensures longer { OnOk result (list.new.items ≡ list.old.items ++ entries.items) }
{
    order.push(id)?;
    if list.is_empty() {
        *list = entries;
        return Ok(());
    }
    list.append(&mut entries)
}

/// Adds a section: its id to the order, its records behind the earlier ones.
fn add_section<'a>(raw: &mut Raw<'a>, section: RawSection<'a>) -> Result<(), AllocError>
    ensures { OnOk result (sections raw.new ≡ with_section (sections raw.old)
        (section_record section.entry)) }
{
    let order = &mut raw.order;
    match section {
        RawSection::Custom(custom) => raw.customs.push(custom)?,
        RawSection::Types(types) => append(order, 1, &mut raw.types, types)?,
        RawSection::Imports(imports) => append(order, 2, &mut raw.imports, imports)?,
        RawSection::Functions(functions) => append(order, 3, &mut raw.functions, functions)?,
        RawSection::Tables(tables) => append(order, 4, &mut raw.tables, tables)?,
        RawSection::Memories(memories) => append(order, 5, &mut raw.memories, memories)?,
        RawSection::Globals(globals) => append(order, 6, &mut raw.globals, globals)?,
        RawSection::Exports(exports) => append(order, 7, &mut raw.exports, exports)?,
        RawSection::Start(function) => {
            order.push(8)?;
            raw.start = Some(function);
        }
        RawSection::Elements(elements) => append(order, 9, &mut raw.elements, elements)?,
        RawSection::Code(bodies) => append(order, 10, &mut raw.bodies, bodies)?,
        RawSection::DataSegments(segments) => append(order, 11, &mut raw.data_, segments)?,
        RawSection::DataCount(count) => {
            order.push(12)?;
            raw.data_count = Some(count);
        }
        RawSection::Tags(tags) => append(order, 13, &mut raw.tags, tags)?,
    }
    Ok(())
}

/// Reads the section at this place and adds it, and gives the bytes behind it.
#[tactic(auto, unfolding(crate::specs::Steps::next_at))]
fn read_next<'a>(
    alloc: Global,
    place: usize,
    bytes: &'a [u8],
    raw: &mut Raw<'a>,
) -> Result<&'a [u8], WireError>
    requires { place + length bytes.now < 2 ^ 64 }
    ensures { Gives (λ r. (sections raw.new, r.now)) result (next_at place (sections raw.old) bytes.now) }
{
    let (section, rest) = read_section(alloc, place, bytes)?;
    add_section(raw, section)?;
    Ok(rest)
}

/// What stands behind the section at this place, which is added, or `None` where no section stands there.
fn next_rest<'a>(
    alloc: Global,
    place: usize,
    bytes: &'a [u8],
    raw: &mut Raw<'a>,
) -> Result<Option<&'a [u8]>, AllocError>
    requires { place + length bytes.now < 2 ^ 64 }
    ensures { IfOk result (λ o. GoesOn (λ r. (sections raw.new, r.now)) o
        (next_at place (sections raw.old) bytes.now)) }
{
    match read_next(alloc, place, bytes, raw) {
        Ok(rest) => Ok(Some(rest)),
        Err(WireError::Memory(failed)) => Err(failed),
        // no reader refuses anything as too large
        Err(WireError::Malformed | WireError::TooLarge) => Ok(None),
    }
}

/// How far bytes are a module: the records of all of them, names and bodies borrowed from them, or up to which place whole
/// sections stand (Binary Format > Modules).
///
/// # Errors
///
/// Where memory runs out, and never else.
pub fn framed_until(alloc: Global, bytes: &[u8]) -> Result<Framed<'_>, AllocError>
    ensures found { IfOk result (λ f. IsFramed bytes.now f) }
    ensures only { (m : Module) → Frames bytes.now m → IfOk result (λ f. HoldsWhole m f) }
{
    let Some(mut rest) = read_header(bytes) else {
        return Ok(Framed::NoHeader);
    };
    let mut raw = no_records(alloc);
    while !rest.is_empty() {
        let place = bytes.len() - rest.len();
        let Some(behind) = next_rest(alloc, place, rest, &mut raw)? else {
            return Ok(Framed::Until(place));
        };
        rest = behind;
    }
    Ok(Framed::Whole(raw))
}

/// The place up to which whole sections stand, where bytes that none begins follow, is one: the one that [`framed_until`]
/// gives. A module has none.
pub fn one_place()
    ensures once { HasOnePlace }
    ensures apart { IsNoModule }
{}

/// The records of a module's bytes, names and bodies borrowed from them (Binary Format > Modules).
///
/// # Errors
///
/// `Malformed` exactly where the bytes are no module, and `Memory`. Never `TooLarge`.
pub fn read_module(alloc: Global, bytes: &[u8]) -> Result<Raw<'_>, WireError>
    ensures found { IfOk result (λ r. Frames bytes.now (sections r)) }
    ensures only { (m : Module) → Frames bytes.now m → Gives sections result (Some m) }
    ensures not_large { ¬ IsErrOf result WireError.TooLarge }
{
    match framed_until(alloc, bytes)? {
        Framed::Whole(raw) => Ok(raw),
        Framed::NoHeader | Framed::Until(_) => Err(WireError::Malformed),
    }
}

/// The bytes of a module hold one thing: the records that [`read_module`] gives are the only ones.
pub fn one_record()
    ensures { HasOneRecord }
{}
