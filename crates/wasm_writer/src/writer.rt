//! Writing a module's bytes, each record in its one spelling.

ghost use Rattle.std.specs.Prelude.{◌≡◌, ◌+◌, ◌<◌, ◌≤◌, ◌↔◌, ⊤, [], ◌∷◌, ◌++◌, length, map, IfOk, IsOkUnless, IsTrue, OnErr, OnOk, alloc_error, vec_capacity};
ghost use Rattle.wasm_forms.specs.declared.error.WireError.TheVariants.{Memory};
ghost use Rattle.wasm_forms.specs.Writing.{Wrote, FitsLength, FitsVector};
ghost use Rattle.wasm_forms.specs.Spelling.{number_bytes, block_bytes, vector_bytes};
ghost use Rattle.wasm_entries.specs.Record.{group, import_entry, table_entry, global_entry, export_entry, element_entry, data_entry};
ghost use Rattle.wasm_entries.specs.TypeSpelling.{group_bytes, limits_bytes, GroupFits, LimitsFit};
ghost use Rattle.wasm_entries.specs.Spelling.{expression_bytes};
ghost use Rattle.wasm_frames.specs.Record.{body_record, custom_record};
ghost use Rattle.wasm_frames.specs.Frames.{CustomSection, Types, Imports, Functions, Tables, Memories, Globals, Exports, Start, Elements, Code, DataSegments, DataCount, Tags, header};
ghost use Rattle.wasm_writer.specs.Writing.{written, unless_empty, room, UsesRoom};
ghost use Rattle.wasm_writer.specs.Spelling.{section_bytes, spelled, listed, SectionFits, WrittenFrames, count_place, first_body, placed_bodies, range_of};

use crate::composite::measured_groups;
use crate::measuring::{custom_content_len, tags_content_len};
use crate::number::number_len;
use crate::places::{CodePlaces, code_len, places_of_code, write_bodies};
use crate::tag::write_tags;
use crate::vector::{Measured, measured_vector};
use std::alloc::Global;
use wasm_entries::{
    RawConst, RawData, RawElement, RawExport, RawGlobal, RawGroup, RawImport, RawLimits, RawTable,
    write_expression, write_group, write_groups, write_limits,
};
use wasm_forms::{
    WireError, Written, leb128_len, write_block, write_name, write_u32, write_vector,
};
use wasm_frames::{RawBody, RawCustom};

/// The magic number and the version (Binary Format > Modules).
const HEADER: [u8; 8] = [0x00, 0x61, 0x73, 0x6D, 0x01, 0x00, 0x00, 0x00];

/// The bytes of a module as far as they are written. Where there is room for what a call appends, as behind a [`Writer::reserve`] of
/// as many bytes as [`crate::measure`] tells, the call isn't refused for lack of memory, but for `code_section`, whose answer takes some.
#[derive(Drop)]
pub struct Writer {
    bytes: Vec<u8>,
}

impl Writer {
    /// A writer with no bytes. It takes no memory.
    pub fn new(alloc: Global) -> Writer
        ensures { written result ≡ [] }
    {
        Writer {
            bytes: Vec::new(alloc),
        }
    }

    /// How many bytes are written. Takes no memory.
    pub fn len(&self) -> usize
        ensures { result ≡ length (written self.now) }
    {
        self.bytes.len()
    }

    /// Whether no byte is written yet.
    pub fn is_empty(&self) -> bool
        ensures { IsTrue result ↔ (written self.now ≡ []) }
    {
        self.bytes.is_empty()
    }

    /// Makes room for so many bytes more: calls that append no more than these, all in all, aren't refused for lack of memory.
    ///
    /// # Errors
    ///
    /// `Memory` alone, and only where there was less room. Refused, the bytes and the room stay.
    pub fn reserve(&mut self, additional: usize) -> Result<(), WireError>
        ensures unchanged { written self.new ≡ written self.old }
        ensures ready { OnOk result (additional ≤ room self.new) }
        ensures full { OnErr result (room self.old < additional) }
        ensures kept { room self.old ≤ room self.new }
        ensures refused { IsOkUnless result (Memory alloc_error) }
    {
        self.bytes.reserve(additional)?;
        Ok(())
    }

    /// Appends the magic number and the version (Binary Format > Modules).
    ///
    /// # Errors
    ///
    /// `Memory` alone. Refused, the bytes stay.
    pub fn header(&mut self) -> Result<(), WireError>
        ensures appends { Wrote result (written self.old) (written self.new) header ⊤ }
        ensures room { UsesRoom result self.old self.new header }
    {
        self.bytes.extend_from_slice(&HEADER)?;
        Ok(())
    }

    /// Appends a number in its shortest spelling (Binary Format > Values > Integers).
    ///
    /// # Errors
    ///
    /// `Memory` alone. Refused, the bytes stay.
    pub fn u32(&mut self, value: u32) -> Result<(), WireError>
        ensures appends { Wrote result (written self.old) (written self.new) (number_bytes value) ⊤ }
        ensures room { UsesRoom result self.old self.new (number_bytes value) }
    {
        write_u32(&mut self.bytes, value)?;
        Ok(())
    }

    /// Appends a name: the count of its bytes, and these (Binary Format > Values > Names).
    ///
    /// # Errors
    ///
    /// `TooLarge` exactly where the name has 2^32 bytes or more, and `Memory`. Refused, the bytes stay.
    pub fn name(&mut self, name: &str) -> Result<(), WireError>
        ensures appends { Wrote result (written self.old) (written self.new) (block_bytes name.now)
            (FitsLength name.now) }
        ensures room { UsesRoom result self.old self.new (block_bytes name.now) }
    {
        write_name(&mut self.bytes, name)
    }

    /// Appends limits (Binary Format > Types > Limits).
    ///
    /// # Errors
    ///
    /// `TooLarge` exactly where addresses have 32 bits and a size is 2^32 or more, and `Memory`. Refused, the bytes stay.
    pub fn limits(&mut self, limits: &RawLimits) -> Result<(), WireError>
        ensures appends { Wrote result (written self.old) (written self.new) (limits_bytes limits.now)
            (LimitsFit limits.now) }
        ensures room { UsesRoom result self.old self.new (limits_bytes limits.now) }
    {
        let before = self.len();
        if let Err(error) = write_limits(&mut self.bytes, limits) {
            self.bytes.truncate(before);
            return Err(error);
        }
        Ok(())
    }

    /// Appends a group of types, one alone without a count (Binary Format > Types > Recursive Types).
    ///
    /// # Errors
    ///
    /// `TooLarge` exactly where one of its counts is 2^32 or more, and `Memory`. Refused, the bytes stay.
    pub fn type_group(&mut self, types: &RawGroup) -> Result<(), WireError>
        ensures appends { Wrote result (written self.old) (written self.new) (group_bytes (group types.now))
            (GroupFits (group types.now)) }
        ensures room { UsesRoom result self.old self.new (group_bytes (group types.now)) }
    {
        let before = self.len();
        if let Err(error) = write_group(&mut self.bytes, types) {
            self.bytes.truncate(before);
            return Err(error);
        }
        Ok(())
    }

    /// Appends a constant expression: its operators, and the byte that ends it (Binary Format > Instructions > Expressions).
    ///
    /// # Errors
    ///
    /// `Memory` alone. Refused, the bytes stay.
    pub fn const_expr(&mut self, operators: &[RawConst]) -> Result<(), WireError>
        ensures appends { Wrote result (written self.old) (written self.new)
            (expression_bytes operators.now) ⊤ }
        ensures room { UsesRoom result self.old self.new (expression_bytes operators.now) }
    {
        let before = self.len();
        if let Err(error) = write_expression(&mut self.bytes, operators) {
            self.bytes.truncate(before);
            return Err(error);
        }
        Ok(())
    }

    /// Appends a section of this id and content (Binary Format > Modules > Sections).
    ///
    /// # Errors
    ///
    /// `TooLarge` exactly where the content has 2^32 bytes or more, and `Memory`. Refused, the bytes stay.
    pub fn section(&mut self, id: u8, content: &[u8]) -> Result<(), WireError>
        ensures appends { Wrote result (written self.old) (written self.new) (section_bytes id content.now)
            (FitsLength content.now) }
        ensures room { UsesRoom result self.old self.new (section_bytes id content.now) }
    {
        self.bytes.push(id)?;
        if let Err(error) = write_block(&mut self.bytes, content) {
            let _ = self.bytes.pop();
            return Err(error);
        }
        Ok(())
    }

    /// Appends the section of this id that lists so many entries, whose bytes these are, one behind another (Binary Format > Conventions >
    /// Lists; Modules > Sections).
    ///
    /// # Errors
    ///
    /// `TooLarge` exactly where the content has 2^32 bytes or more, and `Memory`. Refused, the bytes stay.
    pub fn rows_section(&mut self, id: u8, count: u32, rows: &[u8]) -> Result<(), WireError>
        ensures appends { let content = number_bytes count ++ rows.now in
            Wrote result (written self.old) (written self.new)
            (section_bytes id content) (FitsLength content) }
        ensures room { UsesRoom result self.old self.new (section_bytes id (number_bytes count ++ rows.now)) }
    {
        let Ok(size) = u32::try_from(leb128_len(count) + rows.len()) else {
            return Err(WireError::TooLarge);
        };
        self.open(id, size)?;
        write_u32(&mut self.bytes, count)?;
        self.bytes.extend_from_slice(rows)?;
        Ok(())
    }

    /// Appends a custom section: its name, and the bytes behind that (Binary Format > Modules > Custom Section).
    ///
    /// # Errors
    ///
    /// `TooLarge` exactly where the size of the name or of the section is 2^32 or more, and `Memory`. Refused, the bytes stay.
    pub fn custom(&mut self, custom: &RawCustom<'_>) -> Result<(), WireError>
        ensures appends { let written_section = CustomSection (custom_record custom.now) in
            Wrote result (written self.old) (written self.new)
            (spelled written_section) (SectionFits written_section) }
        ensures room { UsesRoom result self.old self.new
            (spelled (CustomSection (custom_record custom.now))) }
    {
        let size = custom_content_len(custom.name, custom.bytes.len())?;
        self.open(0, size)?;
        custom.write(&mut self.bytes)
    }

    /// Appends the type section, or nothing where there are no types (Binary Format > Modules > Type Section).
    ///
    /// # Errors
    ///
    /// `TooLarge` exactly where a count or the size of the section is 2^32 or more, and `Memory`. Refused, the bytes stay.
    pub fn type_section(&mut self, groups: &[RawGroup]) -> Result<(), WireError>
        ensures appends { let written_groups = map group groups.now in
            Wrote result (written self.old) (written self.new)
            (listed Types written_groups) (SectionFits (Types written_groups)) }
        ensures room { UsesRoom result self.old self.new (listed Types (map group groups.now)) }
    {
        if groups.is_empty() {
            return Ok(());
        }
        let size = measured_groups(groups)?;
        self.open(1, size)?;
        write_groups(&mut self.bytes, groups)
    }

    /// Appends the import section, or nothing where there are no imports (Binary Format > Modules > Import Section).
    ///
    /// # Errors
    ///
    /// `TooLarge` exactly where a count, a size, or a size of limits that are not wide is 2^32 or more, and `Memory`. Refused, the bytes stay.
    pub fn import_section(&mut self, imports: &[RawImport<'_>]) -> Result<(), WireError>
        ensures appends { let written_imports = map import_entry imports.now in
            Wrote result (written self.old) (written self.new)
            (listed Imports written_imports) (SectionFits (Imports written_imports)) }
        ensures room { UsesRoom result self.old self.new (listed Imports (map import_entry imports.now)) }
    {
        self.list(2, imports)
    }

    /// Appends the function section, each function's type, or nothing where there are no functions (Binary Format > Modules > Function Section).
    ///
    /// # Errors
    ///
    /// `TooLarge` exactly where the count or the size of the section is 2^32 or more, and `Memory`. Refused, the bytes stay.
    pub fn function_section(&mut self, functions: &[u32]) -> Result<(), WireError>
        ensures appends { Wrote result (written self.old) (written self.new) (listed Functions functions.now)
            (SectionFits (Functions functions.now)) }
        ensures room { UsesRoom result self.old self.new (listed Functions functions.now) }
    {
        self.list(3, functions)
    }

    /// Appends the table section, or nothing where there are no tables (Binary Format > Modules > Table Section).
    ///
    /// # Errors
    ///
    /// `TooLarge` exactly where the count, the size of the section, or a size of limits that are not wide is 2^32 or more, and `Memory`. Refused, the bytes stay.
    pub fn table_section(&mut self, tables: &[RawTable]) -> Result<(), WireError>
        ensures appends { let written_tables = map table_entry tables.now in
            Wrote result (written self.old) (written self.new)
            (listed Tables written_tables) (SectionFits (Tables written_tables)) }
        ensures room { UsesRoom result self.old self.new (listed Tables (map table_entry tables.now)) }
    {
        self.list(4, tables)
    }

    /// Appends the memory section, or nothing where there are no memories (Binary Format > Modules > Memory Section).
    ///
    /// # Errors
    ///
    /// `TooLarge` exactly where the count, the size of the section, or a size of limits that are not wide is 2^32 or more, and `Memory`. Refused, the bytes stay.
    pub fn memory_section(&mut self, memories: &[RawLimits]) -> Result<(), WireError>
        ensures appends { Wrote result (written self.old) (written self.new) (listed Memories memories.now)
            (SectionFits (Memories memories.now)) }
        ensures room { UsesRoom result self.old self.new (listed Memories memories.now) }
    {
        self.list(5, memories)
    }

    /// Appends the tag section, each tag's type, or nothing where there are no tags (Binary Format > Modules > Tag Section).
    ///
    /// # Errors
    ///
    /// `TooLarge` exactly where the count or the size of the section is 2^32 or more, and `Memory`. Refused, the bytes stay.
    pub fn tag_section(&mut self, tags: &[u32]) -> Result<(), WireError>
        ensures appends { Wrote result (written self.old) (written self.new) (listed Tags tags.now)
            (SectionFits (Tags tags.now)) }
        ensures room { UsesRoom result self.old self.new (listed Tags tags.now) }
    {
        if tags.is_empty() {
            return Ok(());
        }
        let size = tags_content_len(tags)?;
        self.open(13, size)?;
        write_tags(&mut self.bytes, tags)
    }

    /// Appends the global section, or nothing where there are no globals (Binary Format > Modules > Global Section).
    ///
    /// # Errors
    ///
    /// `TooLarge` exactly where the count or the size of the section is 2^32 or more, and `Memory`. Refused, the bytes stay.
    pub fn global_section(&mut self, globals: &[RawGlobal]) -> Result<(), WireError>
        ensures appends { let written_globals = map global_entry globals.now in
            Wrote result (written self.old) (written self.new)
            (listed Globals written_globals) (SectionFits (Globals written_globals)) }
        ensures room { UsesRoom result self.old self.new (listed Globals (map global_entry globals.now)) }
    {
        self.list(6, globals)
    }

    /// Appends the export section, or nothing where there are no exports (Binary Format > Modules > Export Section).
    ///
    /// # Errors
    ///
    /// `TooLarge` exactly where a count or a size is 2^32 or more, and `Memory`. Refused, the bytes stay.
    pub fn export_section(&mut self, exports: &[RawExport<'_>]) -> Result<(), WireError>
        ensures appends { let written_exports = map export_entry exports.now in
            Wrote result (written self.old) (written self.new)
            (listed Exports written_exports) (SectionFits (Exports written_exports)) }
        ensures room { UsesRoom result self.old self.new (listed Exports (map export_entry exports.now)) }
    {
        self.list(7, exports)
    }

    /// Appends the start section (Binary Format > Modules > Start Section).
    ///
    /// # Errors
    ///
    /// `Memory` alone. Refused, the bytes stay.
    pub fn start_section(&mut self, function: u32) -> Result<(), WireError>
        ensures appends { Wrote result (written self.old) (written self.new) (spelled (Start function)) ⊤ }
        ensures room { UsesRoom result self.old self.new (spelled (Start function)) }
    {
        self.number(8, function)
    }

    /// Appends the element section, or nothing where there are no element segments (Binary Format > Modules > Element Section).
    ///
    /// # Errors
    ///
    /// `TooLarge` exactly where a count or the size of the section is 2^32 or more, and `Memory`. Refused, the bytes stay.
    pub fn element_section(&mut self, elements: &[RawElement]) -> Result<(), WireError>
        ensures appends { let written_elements = map element_entry elements.now in
            Wrote result (written self.old) (written self.new)
            (listed Elements written_elements) (SectionFits (Elements written_elements)) }
        ensures room { UsesRoom result self.old self.new (listed Elements (map element_entry elements.now)) }
    {
        self.list(9, elements)
    }

    /// Appends the data count section (Binary Format > Modules > Data Count Section).
    ///
    /// # Errors
    ///
    /// `Memory` alone. Refused, the bytes stay.
    pub fn data_count_section(&mut self, count: u32) -> Result<(), WireError>
        ensures appends { Wrote result (written self.old) (written self.new) (spelled (DataCount count)) ⊤ }
        ensures room { UsesRoom result self.old self.new (spelled (DataCount count)) }
    {
        self.number(12, count)
    }

    /// Appends the code section, or nothing where there are no bodies, and tells where its parts stand. Where a body began plays
    /// no part (Binary Format > Modules > Code Section).
    ///
    /// # Errors
    ///
    /// `TooLarge` exactly where a count or a size is 2^32 or more, and `Memory`, also where there is room for the section: the list
    /// of the bodies' places takes memory of its own. Refused, the bytes stay.
    pub fn code_section(&mut self, bodies: &[RawBody<'_>]) -> Result<CodePlaces, WireError>
        ensures appends { let written_bodies = map body_record bodies.now in
            Wrote result (written self.old) (written self.new)
            (listed Code written_bodies) (SectionFits (Code written_bodies)) }
        ensures count { IfOk result (λ places. places.count ≡ count_place (length (written self.old))
            (map body_record bodies.now)) }
        ensures places { let written_bodies = map body_record bodies.now in
            IfOk result (λ places. places.bodies.items
            ≡ map range_of
            (placed_bodies (first_body (length (written self.old)) written_bodies) written_bodies)) }
        ensures room { OnOk result
            (room self.old ≤ room self.new + length (listed Code (map body_record bodies.now))) }
    {
        let alloc = *self.bytes.allocator();
        let places = places_of_code(alloc, self.len(), bodies)?;
        self.bodies_section(bodies)?;
        Ok(places)
    }

    /// Appends the code section as [`Writer::code_section`] does, and tells no places: so it takes no memory but room for the section
    /// (Binary Format > Modules > Code Section).
    ///
    /// # Errors
    ///
    /// `TooLarge` exactly where a count or a size is 2^32 or more, and `Memory`. Refused, the bytes stay.
    pub fn bodies_section(&mut self, bodies: &[RawBody<'_>]) -> Result<(), WireError>
        ensures appends { let written_bodies = map body_record bodies.now in
            Wrote result (written self.old) (written self.new)
            (listed Code written_bodies) (SectionFits (Code written_bodies)) }
        ensures room { UsesRoom result self.old self.new (listed Code (map body_record bodies.now)) }
    {
        if bodies.is_empty() {
            return Ok(());
        }
        let size = code_len(bodies)?;
        self.open(10, size)?;
        write_bodies(&mut self.bytes, bodies)
    }

    /// Appends the data section, or nothing where there are no data segments (Binary Format > Modules > Data Section).
    ///
    /// # Errors
    ///
    /// `TooLarge` exactly where a count or a size is 2^32 or more, and `Memory`. Refused, the bytes stay.
    pub fn data_section(&mut self, segments: &[RawData<'_>]) -> Result<(), WireError>
        ensures appends { let written_segments = map data_entry segments.now in
            Wrote result (written self.old) (written self.new)
            (listed DataSegments written_segments) (SectionFits (DataSegments written_segments)) }
        ensures room { UsesRoom result self.old self.new (listed DataSegments (map data_entry segments.now)) }
    {
        self.list(11, segments)
    }

    /// Makes room for a section, and appends its id and its size. `size` is the number of its content's bytes.
    fn open(&mut self, id: u8, size: u32) -> Result<(), WireError>
        ensures opened { Wrote result (written self.old) (written self.new) (id ∷ number_bytes size) ⊤ }
        ensures ready { OnOk result (size ≤ room self.new) }
        ensures kept { vec_capacity self.old.bytes ≤ vec_capacity self.new.bytes }
        ensures full { OnErr result (room self.old < 1 + length (number_bytes size) + size) }
    {
        self.bytes
            .reserve(1 + number_len(u64::from(size)) as usize + size as usize)?;
        self.bytes.push(id)?;
        write_u32(&mut self.bytes, size)?;
        Ok(())
    }

    /// Appends the section of this id that lists these, or nothing where there are none.
    fn list<E: Measured>(&mut self, id: u8, items: &[E]) -> Result<(), WireError>
        ensures appends { let content = vector_bytes E.spelled items.now in
            Wrote result (written self.old) (written self.new)
            (unless_empty items.now (section_bytes id content))
            (FitsVector E.Fits items.now × FitsLength content) }
        ensures room { UsesRoom result self.old self.new
            (unless_empty items.now (section_bytes id (vector_bytes E.spelled items.now))) }
    {
        if items.is_empty() {
            return Ok(());
        }
        let size = measured_vector(items)?;
        self.open(id, size)?;
        write_vector(&mut self.bytes, items)
    }

    /// Appends the section of this id that holds a number.
    fn number(&mut self, id: u8, held: u32) -> Result<(), WireError>
        ensures appends { Wrote result (written self.old) (written self.new)
            (section_bytes id (number_bytes held)) ⊤ }
        ensures room { UsesRoom result self.old self.new (section_bytes id (number_bytes held)) }
    {
        self.open(id, number_len(u64::from(held)))?;
        write_u32(&mut self.bytes, held)?;
        Ok(())
    }

    /// The bytes that were written.
    pub fn finish(self) -> Vec<u8>
        ensures { result.items ≡ written self }
    {
        let Writer { bytes: finished } = self;
        finished
    }
}

/// The bytes of a header, and of sections that can be written behind it, in any order and number, are a module that holds
/// what they hold, each body where it then starts (Binary Format > Modules).
pub fn written_frames()
    ensures { WrittenFrames }
{}
