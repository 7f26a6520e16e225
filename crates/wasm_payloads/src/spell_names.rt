//! Writing the payload of the name section (Appendix > Custom Sections > Name Section), names lent.

ghost use Rattle.std.specs.Prelude.{◌≡◌, [], ◌∷◌, map};
ghost use Rattle.wasm_forms.specs.Writing.{Adds, Keeps, TakesRoom, Wrote, FitsLength, EachFits};
ghost use Rattle.wasm_forms.specs.Spelling.{block_bytes, row_bytes};
ghost use Rattle.wasm_payloads.specs.Lent.{entry, entries, locals_entry, text_of, EntryFits, FunctionFits, PartFits, ModuleNameFits, SpaceFits, NamesFit, text};
ghost use Rattle.wasm_payloads.specs.Spelling.{entry_bytes, function_bytes, part_bytes, module_name_bytes, space_bytes, names_bytes, further_spaces};
ghost use Rattle.wasm_payloads.specs.declared.naming.NameSpace.TheVariants as spaces;

use std::alloc::Global;
use wasm_forms::{WireError, Written, write_block, write_name, write_u32, write_vector};

/// An index, and the name of what has it (Name Maps).
#[derive(Clone, Copy, Debug)]
pub struct RawName<'a> {
    pub index: u32,
    pub name: &'a str,
}

/// A function's index, and the names of its locals (Local Names).
#[derive(Debug, Drop)]
pub struct RawLocals<'a> {
    pub function: u32,
    pub names: Vec<RawName<'a>>,
}

/// What a name section says: the module's name, those of items, by rising index in each space, and those of locals, by rising index
/// of functions and then of locals.
#[derive(Debug, Drop)]
pub struct RawNames<'a> {
    pub module_name: Option<&'a str>,
    pub functions: Vec<RawName<'a>>,
    pub locals: Vec<RawLocals<'a>>,
    pub types: Vec<RawName<'a>>,
    pub tables: Vec<RawName<'a>>,
    pub memories: Vec<RawName<'a>>,
    pub globals: Vec<RawName<'a>>,
    pub elements: Vec<RawName<'a>>,
    pub data_segments: Vec<RawName<'a>>,
    pub tags: Vec<RawName<'a>>,
}

impl Written for RawName<'_> {
    ghost spelled = { λ n. entry_bytes (entry n) };

    ghost Fits = { λ n. EntryFits (entry n) };

    fn write(&self, to: &mut Vec<u8>) -> Result<(), WireError> {
        write_u32(to, self.index)?;
        write_name(to, self.name)
    }
}

impl Written for RawLocals<'_> {
    ghost spelled = { λ l. function_bytes (locals_entry l) };

    ghost Fits = { λ l. FunctionFits (locals_entry l) };

    fn write(&self, to: &mut Vec<u8>) -> Result<(), WireError> {
        write_u32(to, self.function)?;
        write_vector(to, &self.names)
    }
}

/// Writes a subsection of this id and content.
fn write_subsection(to: &mut Vec<u8>, id: u8, content: &[u8]) -> Result<(), WireError>
    ensures adds { Adds result to.old.items to.new.items (id ∷ block_bytes content.now)
        (FitsLength content.now) }
    ensures keeps { Keeps to.old.items to.new.items }
{
    to.push(id)?;
    write_block(to, content)
}

/// Writes the subsection of this id that lists items, and none where there are none.
fn write_part<E: Written>(
    alloc: Global,
    to: &mut Vec<u8>,
    id: u8,
    items: &[E],
) -> Result<(), WireError>
    ensures adds { Adds result to.old.items to.new.items (part_bytes id E.spelled items.now)
        (PartFits E.spelled E.Fits items.now) }
    ensures keeps { Keeps to.old.items to.new.items }
{
    if items.is_empty() {
        return Ok(());
    }
    let mut content = Vec::new(alloc);
    write_vector(&mut content, items)?;
    write_subsection(to, id, &content)
}

/// Writes the subsection with the module's name, and none where it has none.
fn write_module_name(alloc: Global, to: &mut Vec<u8>, name: Option<&str>) -> Result<(), WireError>
    ensures adds { Adds result to.old.items to.new.items (module_name_bytes (text_of name.entry))
        (ModuleNameFits (text_of name.entry)) }
    ensures keeps { Keeps to.old.items to.new.items }
{
    let Some(text) = name else {
        return Ok(());
    };
    let mut content = Vec::new(alloc);
    write_name(&mut content, text)?;
    write_subsection(to, 0, &content)
}

/// Writes the subsection of this id that lists names of items, and none where there are none.
fn write_items(
    alloc: Global,
    to: &mut Vec<u8>,
    id: u8,
    names: &[RawName<'_>],
) -> Result<(), WireError>
    ensures adds { Adds result to.old.items to.new.items
        (part_bytes id entry_bytes (entries names.now))
        (PartFits entry_bytes EntryFits (entries names.now)) }
    ensures keeps { Keeps to.old.items to.new.items }
{
    write_part(alloc, to, id, names)
}

/// Writes the subsection with the names of locals, and none where there are none.
fn write_locals(alloc: Global, to: &mut Vec<u8>, locals: &[RawLocals<'_>]) -> Result<(), WireError>
    ensures adds { Adds result to.old.items to.new.items
        (part_bytes 2 function_bytes (map locals_entry locals.now))
        (PartFits function_bytes FunctionFits (map locals_entry locals.now)) }
    ensures keeps { Keeps to.old.items to.new.items }
{
    write_part(alloc, to, 2, locals)
}

/// Writes the names of elements, data segments and tags.
fn write_last(alloc: Global, to: &mut Vec<u8>, names: &RawNames<'_>) -> Result<(), WireError>
    ensures adds { let last = spaces.Elements ∷ spaces.DataSegments ∷ spaces.Tags ∷ [] in
        Adds result to.old.items to.new.items (row_bytes (space_bytes (text names.now)) last)
        (EachFits (SpaceFits (text names.now)) last) }
    ensures keeps { Keeps to.old.items to.new.items }
{
    write_items(alloc, to, 8, &names.elements)?;
    write_items(alloc, to, 9, &names.data_segments)?;
    write_items(alloc, to, 11, &names.tags)
}

/// Writes the names of memories and globals, and those behind them.
fn write_later(alloc: Global, to: &mut Vec<u8>, names: &RawNames<'_>) -> Result<(), WireError>
    ensures adds { let later = spaces.Memories ∷ spaces.Globals ∷ spaces.Elements ∷ spaces.DataSegments
        ∷ spaces.Tags ∷ [] in
        Adds result to.old.items to.new.items (row_bytes (space_bytes (text names.now)) later)
        (EachFits (SpaceFits (text names.now)) later) }
    ensures keeps { Keeps to.old.items to.new.items }
{
    write_items(alloc, to, 6, &names.memories)?;
    write_items(alloc, to, 7, &names.globals)?;
    write_last(alloc, to, names)
}

/// Writes the names of types and tables, and those behind them.
fn write_further(alloc: Global, to: &mut Vec<u8>, names: &RawNames<'_>) -> Result<(), WireError>
    ensures adds { Adds result to.old.items to.new.items
        (row_bytes (space_bytes (text names.now)) further_spaces)
        (EachFits (SpaceFits (text names.now)) further_spaces) }
    ensures keeps { Keeps to.old.items to.new.items }
{
    write_items(alloc, to, 4, &names.types)?;
    write_items(alloc, to, 5, &names.tables)?;
    write_later(alloc, to, names)
}

/// Writes all subsections.
fn write_all(alloc: Global, to: &mut Vec<u8>, names: &RawNames<'_>) -> Result<(), WireError>
    ensures adds { Adds result to.old.items to.new.items (names_bytes (text names.now))
        (NamesFit (text names.now)) }
    ensures keeps { Keeps to.old.items to.new.items }
{
    write_module_name(alloc, to, names.module_name)?;
    write_items(alloc, to, 1, &names.functions)?;
    write_locals(alloc, to, &names.locals)?;
    write_further(alloc, to, names)
}

/// Appends the payload of a name section: each subsection that names something, by rising id, as [`crate::read_names`] reads it.
///
/// # Errors
///
/// `TooLarge` exactly where a list of names, a name or a subsection has a count or a size of 2^32 or more; and `Memory`: each
/// subsection is made in memory of its own first. Refused, the bytes stay.
pub fn write_names(alloc: Global, to: &mut Vec<u8>, names: &RawNames<'_>) -> Result<(), WireError>
    ensures { Wrote result to.old.items to.new.items (names_bytes (text names.now))
        (NamesFit (text names.now)) }
{
    let before = to.len();
    if let Err(error) = write_all(alloc, to, names) {
        to.truncate(before);
        return Err(error);
    }
    Ok(())
}
