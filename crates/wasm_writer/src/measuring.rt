//! How many bytes a section has, told before one of them is written. Nothing here takes memory.

ghost use Rattle.std.specs.Prelude.{◌≡◌, ◌≤◌, ℕ, [], List, length, map, sum_by, if◌then◌else◌};
ghost use Rattle.wasm_forms.specs.Writing.{FitsLength, FitsVector};
ghost use Rattle.wasm_forms.specs.Spelling.{row_bytes, vector_bytes};
ghost use Rattle.wasm_writer.specs.Measures.{Measures, Sums};
ghost use Rattle.wasm_frames.specs.Frames as frames;
ghost use Rattle.wasm_frames.specs.Record.{Body, body_record};
ghost use Rattle.wasm_frames.specs.Spelling.{custom_bytes, body_bytes};
ghost use Rattle.wasm_writer.specs.Spelling.{tag_bytes, spelled, content_bytes, EntriesFit};
ghost use Rattle.wasm_writer.specs.Measuring.{body_len, size_with_count, IsOf, appended, Tells};

use crate::composite::measured_groups;
use crate::number::number_len;
use crate::places::code_len;
use crate::sum::plus;
use crate::vector::{counted_len, measured_name, measured_vector};
use wasm_entries::{
    RawData, RawElement, RawExport, RawGlobal, RawGroup, RawImport, RawLimits, RawTable,
};
use wasm_forms::WireError;
use wasm_frames::RawBody;

/// A section to be measured, by its kind (Binary Format > Modules): its records, as the [`crate::Writer`] takes them. Of a custom section
/// `len` is the number of the bytes behind its name; of a code section it is enough to know how many bytes each body has, its size not
/// among them.
#[derive(Clone, Copy, Debug)]
pub enum Section<'a> {
    Custom { name: &'a str, len: usize },
    Types(&'a [RawGroup]),
    Imports(&'a [RawImport<'a>]),
    Functions(&'a [u32]),
    Tables(&'a [RawTable]),
    Memories(&'a [RawLimits]),
    Tags(&'a [u32]),
    Globals(&'a [RawGlobal]),
    Exports(&'a [RawExport<'a>]),
    Start(u32),
    Elements(&'a [RawElement]),
    DataCount(u32),
    Code(&'a [usize]),
    Data(&'a [RawData<'a>]),
}

/// How many bytes the content of a custom section has: its name, and `len` bytes behind that.
pub(crate) fn custom_content_len(name: &str, len: usize) -> Result<u32, WireError>
    ensures { (bytes : List ℕ) → length bytes ≡ len
        → Measures result (custom_bytes (record { name = name.now; bytes = bytes })) (FitsLength name.now) }
{
    let Ok(behind) = u32::try_from(len) else {
        return Err(WireError::TooLarge);
    };
    plus(measured_name(name)?, behind)
}

/// How many bytes a tag has: 00 and the index of its type.
fn tag_len(ty: u32) -> u32
    ensures written { result ≡ length (tag_bytes ty) }
    ensures short { result ≤ 11 }
{
    1 + number_len(u64::from(ty))
}

/// How many bytes the tags have, one after another.
fn tags_len(tags: &[u32]) -> Result<u32, WireError>
    ensures { Measures result (row_bytes tag_bytes tags.now) (Unit {0}) }
{
    let mut total: u32 = 0;
    'tags: for tag in tags {
        total = plus(total, tag_len(*tag))?;
    }
    Ok(total)
}

/// How many bytes the content of a tag section has.
pub(crate) fn tags_content_len(tags: &[u32]) -> Result<u32, WireError>
    ensures { Measures result (vector_bytes tag_bytes tags.now) (FitsLength tags.now) }
{
    let Ok(count) = u32::try_from(tags.len()) else {
        return Err(WireError::TooLarge);
    };
    plus(number_len(u64::from(count)), tags_len(tags)?)
}

/// How many bytes a body of this length has with the count of its bytes in front.
fn body_size(len: usize) -> Result<u32, WireError>
    ensures { Sums result (size_with_count len) }
{
    counted_len(len)
}

/// How many bytes bodies of these lengths have, one after another, each behind the count of its bytes.
fn bodies_len(lengths: &[usize]) -> Result<u32, WireError>
    ensures { Sums result (sum_by size_with_count lengths.now) }
{
    let mut total: u32 = 0;
    'bodies: for len in lengths {
        total = plus(total, body_size(*len)?)?;
    }
    Ok(total)
}

/// How many bytes the content of a code section has whose bodies have these lengths.
fn code_content_len(lengths: &[usize]) -> Result<u32, WireError>
    ensures { (bodies : List Body) → map body_len bodies ≡ lengths.now
        → Measures result (vector_bytes body_bytes bodies) (FitsVector (λ b. FitsLength b.bytes) bodies) }
{
    let Ok(count) = u32::try_from(lengths.len()) else {
        return Err(WireError::TooLarge);
    };
    plus(number_len(u64::from(count)), bodies_len(lengths)?)
}

/// How many bytes the content of the section has, also where it lists nothing.
fn content_len(section: &Section<'_>) -> Result<u32, WireError>
    ensures { (s : frames.Section) → IsOf section.now s → Measures result (content_bytes s) (EntriesFit s) }
{
    match *section {
        Section::Custom { name, len } => custom_content_len(name, len),
        Section::Types(groups) => measured_groups(groups),
        Section::Imports(imports) => measured_vector(imports),
        Section::Functions(functions) => measured_vector(functions),
        Section::Tables(tables) => measured_vector(tables),
        Section::Memories(memories) => measured_vector(memories),
        Section::Tags(tags) => tags_content_len(tags),
        Section::Globals(globals) => measured_vector(globals),
        Section::Exports(exports) => measured_vector(exports),
        Section::Start(index) => Ok(number_len(u64::from(index))),
        Section::Elements(elements) => measured_vector(elements),
        Section::DataCount(count) => Ok(number_len(u64::from(count))),
        Section::Code(lengths) => code_content_len(lengths),
        Section::Data(segments) => measured_vector(segments),
    }
}

/// Whether nothing is written for the section, since it lists nothing.
fn is_omitted(section: &Section<'_>) -> bool
    ensures { (s : frames.Section) → IsOf section.now s → appended s ≡ (if result then [] else spelled s) }
{
    match *section {
        Section::Custom { .. } | Section::Start(_) | Section::DataCount(_) => false,
        Section::Types(groups) => groups.is_empty(),
        Section::Imports(imports) => imports.is_empty(),
        Section::Functions(functions) => functions.is_empty(),
        Section::Tables(tables) => tables.is_empty(),
        Section::Memories(memories) => memories.is_empty(),
        Section::Tags(tags) => tags.is_empty(),
        Section::Globals(globals) => globals.is_empty(),
        Section::Exports(exports) => exports.is_empty(),
        Section::Elements(elements) => elements.is_empty(),
        Section::Code(lengths) => lengths.is_empty(),
        Section::Data(segments) => segments.is_empty(),
    }
}

/// How many bytes the call of a [`crate::Writer`] for this section appends: its id, its size and its content, and none where it lists
/// nothing. It takes no memory.
///
/// # Errors
///
/// `TooLarge` exactly where that call answers it: where a count or a size in the section, its own size, or a size of limits that are not
/// wide is 2^32 or more.
pub fn measure(section: &Section<'_>) -> Result<usize, WireError>
    ensures { (s : frames.Section) → IsOf section.now s → Tells result s }
{
    let content = content_len(section)?;
    if is_omitted(section) {
        return Ok(0);
    }
    let size = number_len(u64::from(content));
    Ok(1 + size as usize + content as usize)
}

/// How many bytes [`crate::Writer::code_section`] appends for these bodies, as [`measure`] tells it of their lengths. It takes no memory.
///
/// # Errors
///
/// `TooLarge` exactly where that call answers it: where the number of bodies, the size of one, or their size is 2^32 or more.
pub fn measure_code(bodies: &[RawBody<'_>]) -> Result<usize, WireError>
    ensures { Tells result (frames.Code (map body_record bodies.now)) }
{
    let content = code_len(bodies)?;
    if bodies.is_empty() {
        return Ok(0);
    }
    let size = number_len(u64::from(content));
    Ok(1 + size as usize + content as usize)
}
