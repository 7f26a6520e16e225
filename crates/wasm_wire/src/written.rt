//! Writing a whole module (Binary Format > Modules).

ghost use Rattle.std.specs.Prelude.{◌≡◌, All, IfSome, length, map, sum};
ghost use Rattle.wasm_frames.specs.Record.{sections, custom_record};
ghost use Rattle.wasm_frames.specs.Frames.{CustomSection, Start, DataCount};
ghost use Rattle.wasm_writer.specs.Measuring.{Tells};
ghost use Rattle.wasm_writer.specs.Spelling.{all_spelled, SectionFits};
ghost use Rattle.wasm_writer.specs.Writing.{written};
ghost use Rattle.wasm_wire.specs.ModuleSpelling.{is_debug_name, is_in, group_of, if_given, up_to_globals, before_code, sections_in_order, ModuleFits, WritesModule, ModuleFrames};
ghost use Rattle.wasm_wire.specs.ModuleWriting.{front_of, IsUnlessHuge, Tried, TellsLen, Appends};

use std::alloc::Global;
use wasm_forms::WireError;
use wasm_frames::{Raw, RawCustom};
use wasm_writer::{Section, Writer, measure, measure_code};

/// The groups in which custom sections are written. What isn't custom stands behind the first of them, and before the others.
#[derive(Clone, Copy, Debug, PartialEq, Eq)]
pub enum CustomGroup {
    /// Dynamic linking: `dylink` and `dylink.0`.
    Dylink,
    /// `name`.
    Names,
    /// `producers`.
    Producers,
    /// All others.
    Others,
}

impl CustomGroup {
    /// Whether a custom section of this name is one of the group.
    pub fn has(self, name: &str) -> bool
        ensures { result ≡ is_in self name.now }
    {
        match self {
            CustomGroup::Dylink => name == "dylink" || name == "dylink.0",
            CustomGroup::Names => name == "name",
            CustomGroup::Producers => name == "producers",
            CustomGroup::Others => {
                !(name == "dylink" || name == "dylink.0" || name == "name" || name == "producers")
            }
        }
    }
}

/// Whether a custom section of this name is debug information (DWARF, "Object Files": names that begin with `.debug`).
pub fn is_debug(name: &str) -> bool
    ensures { result ≡ is_debug_name name.now }
{
    name.starts_with(".debug")
}

/// How many bytes the start section has, none where there is none.
fn start_len(start: Option<u32>) -> Result<usize, WireError>
    ensures { TellsLen result (length (all_spelled (if_given Start start)))
        (IfSome start (λ f. SectionFits (Start f))) }
{
    match start {
        Some(function) => measure(&Section::Start(function)),
        None => Ok(0),
    }
}

/// How many bytes the data count section has, none where there is none.
fn data_count_len(count: Option<u32>) -> Result<usize, WireError>
    ensures { TellsLen result (length (all_spelled (if_given DataCount count)))
        (IfSome count (λ n. SectionFits (DataCount n))) }
{
    match count {
        Some(number) => measure(&Section::DataCount(number)),
        None => Ok(0),
    }
}

/// How many bytes a custom section has.
pub(crate) fn custom_len(custom: &RawCustom<'_>) -> Result<usize, WireError>
    ensures { Tells result (CustomSection (custom_record custom.now)) }
{
    measure(&Section::Custom {
        name: custom.name,
        len: custom.bytes.len(),
    })
}

/// How many bytes the custom sections have, as far as a `usize` can tell it.
fn customs_len(customs: &[RawCustom<'_>]) -> Result<usize, WireError>
    ensures { Tried result (All (λ c. SectionFits (CustomSection c)) (map custom_record customs.now)) }
{
    let mut total: usize = 0;
    'customs: for custom in customs {
        let len = custom_len(custom)?;
        total = total.saturating_add(len);
    }
    Ok(total)
}

/// The lengths together, as far as a `usize` can tell it.
pub(crate) fn total_len(lengths: &[usize]) -> usize
    ensures { IsUnlessHuge result (sum lengths.now) }
{
    let mut total: usize = 0;
    'lengths: for len in lengths {
        total = total.saturating_add(*len);
    }
    total
}

/// How many bytes what isn't custom has up to the code section, as far as a `usize` can tell it. It takes no memory.
pub(crate) fn before_code_len(raw: &Raw<'_>) -> Result<usize, WireError>
    ensures { TellsLen result (length (all_spelled (before_code (sections raw.now))))
        (ModuleFits (front_of (sections raw.now))) }
{
    let types = measure(&Section::Types(&raw.types))?;
    let imports = measure(&Section::Imports(&raw.imports))?;
    let functions = measure(&Section::Functions(&raw.functions))?;
    let tables = measure(&Section::Tables(&raw.tables))?;
    let memories = measure(&Section::Memories(&raw.memories))?;
    let tags = measure(&Section::Tags(&raw.tags))?;
    let globals = measure(&Section::Globals(&raw.globals))?;
    let exports = measure(&Section::Exports(&raw.exports))?;
    let start = start_len(raw.start)?;
    let elements = measure(&Section::Elements(&raw.elements))?;
    let data_count = data_count_len(raw.data_count)?;
    Ok(total_len(&[
        types, imports, functions, tables, memories, tags, globals, exports, start, elements,
        data_count,
    ]))
}

/// How many bytes the sections have, as far as a `usize` can tell it. It takes no memory.
pub(crate) fn sections_len(raw: &Raw<'_>) -> Result<usize, WireError>
    ensures { Tried result (ModuleFits (sections raw.now)) }
{
    let before = before_code_len(raw)?;
    let bodies = measure_code(&raw.bodies)?;
    let segments = measure(&Section::Data(&raw.data_))?;
    let customs = customs_len(&raw.customs)?;
    Ok(total_len(&[before, bodies, segments, customs]))
}

/// Writes the start section, where there is one.
fn write_start(writer: &mut Writer, start: Option<u32>) -> Result<(), WireError>
    ensures { Appends result (written writer.old) (written writer.new) (if_given Start start) }
{
    match start {
        Some(function) => writer.start_section(function),
        None => Ok(()),
    }
}

/// Writes the data count section, where there is one.
fn write_data_count(writer: &mut Writer, count: Option<u32>) -> Result<(), WireError>
    ensures { Appends result (written writer.old) (written writer.new) (if_given DataCount count) }
{
    match count {
        Some(number) => writer.data_count_section(number),
        None => Ok(()),
    }
}

/// Writes the custom sections of a group, in the order in which they are.
fn write_customs(
    writer: &mut Writer,
    group: CustomGroup,
    customs: &[RawCustom<'_>],
) -> Result<(), WireError>
    requires fits { All (λ c. SectionFits (CustomSection c)) (map custom_record customs.now) }
    ensures { Appends result (written writer.old) (written writer.new)
        (map CustomSection (group_of group (map custom_record customs.now))) }
{
    'sections: for section in customs {
        if group.has(section.name) {
            writer.custom(section)?;
        }
    }
    Ok(())
}

/// Writes what isn't custom, up to the globals.
fn write_up_to_globals(writer: &mut Writer, raw: &Raw<'_>) -> Result<(), WireError>
    requires fits { ModuleFits (sections raw.now) }
    ensures { Appends result (written writer.old) (written writer.new) (up_to_globals (sections raw.now)) }
{
    writer.type_section(&raw.types)?;
    writer.import_section(&raw.imports)?;
    writer.function_section(&raw.functions)?;
    writer.table_section(&raw.tables)?;
    writer.memory_section(&raw.memories)?;
    writer.tag_section(&raw.tags)?;
    writer.global_section(&raw.globals)
}

/// Writes what isn't custom, up to the code section.
fn write_before_code(writer: &mut Writer, raw: &Raw<'_>) -> Result<(), WireError>
    requires fits { ModuleFits (sections raw.now) }
    ensures { Appends result (written writer.old) (written writer.new) (before_code (sections raw.now)) }
{
    write_up_to_globals(writer, raw)?;
    writer.export_section(&raw.exports)?;
    write_start(writer, raw.start)?;
    writer.element_section(&raw.elements)?;
    write_data_count(writer, raw.data_count)
}

/// Writes the sections, in their order.
fn write_sections(writer: &mut Writer, raw: &Raw<'_>) -> Result<(), WireError>
    requires fits { ModuleFits (sections raw.now) }
    ensures { Appends result (written writer.old) (written writer.new)
        (sections_in_order (sections raw.now)) }
{
    write_customs(writer, CustomGroup::Dylink, &raw.customs)?;
    write_before_code(writer, raw)?;
    writer.bodies_section(&raw.bodies)?;
    writer.data_section(&raw.data_)?;
    write_customs(writer, CustomGroup::Names, &raw.customs)?;
    write_customs(writer, CustomGroup::Producers, &raw.customs)?;
    write_customs(writer, CustomGroup::Others, &raw.customs)
}

/// The bytes of the module that these records are: the header; the custom sections of dynamic linking; what isn't custom, in the
/// standard's order, without what lists nothing; and the other custom sections, `name` first, then `producers`. The record's own `order`
/// and where its bodies start don't matter. All sections are measured before memory is taken, once for all of them, and then each
/// is written straight into its place (Binary Format > Modules).
///
/// # Errors
///
/// `TooLarge` exactly where a count, a size or a limit of 32 bits in some section is 2^32 or more, and else `Memory`.
pub fn written_module(alloc: Global, raw: &Raw<'_>) -> Result<Vec<u8>, WireError>
    ensures { WritesModule result (sections raw.now) }
{
    let len = sections_len(raw)?;
    let mut writer = Writer::new(alloc);
    writer.reserve(len.saturating_add(8))?;
    writer.header()?;
    write_sections(&mut writer, raw)?;
    Ok(writer.finish())
}

/// The bytes of a module that fits and stands, as [`written_module`] gives them, are framed as that module: its order and its custom
/// sections as they are written, and each body where it then starts (Binary Format > Modules).
pub fn written_module_frames()
    ensures { ModuleFrames }
{}
