//! The names that a module's custom sections give, and what it was made with, as lines of text.

ghost use Rattle.std.specs.Prelude.{◌≡◌, ◌≤◌, ◌+◌, ◌++◌, ℕ, List, length, map, filter_map, string_bytes, alloc_error, IfOk, OnOk};
ghost use Rattle.wasm_forms.specs.Spelling.{row_bytes};
ghost use Rattle.wasm_forms.specs.declared.error.WireError.TheVariants.{Memory};
ghost use Rattle.wasm_entries.specs.Record.{import_entry};
ghost use Rattle.wasm_frames.specs.Record.{custom_record, sections};
ghost use Rattle.wasm_payloads.specs.Names.{named};
ghost use Rattle.wasm_payloads.specs.Producers.{field_record};
ghost use Rattle.wasm_wire.specs.Context.{imported, desc_function};
ghost use Rattle.wasm_copy.specs.Listing.{word_of, naming_line, value_line, field_lines, IsListed, AreListed, is_below, has_function};

use std::alloc::{AllocError, Global};
use wasm_entries::{RawDesc, RawImport};
use wasm_forms::WireError;
use wasm_frames::{Raw, RawCustom};
use wasm_payloads::{NameSink, NameSpace, Naming, RawField, read_names, read_producers};

// Takes namings as lines, where so many functions are known.
#[derive(Drop)]
struct Lines {
    alloc: Global,
    text: String,
    functions: usize,
}

impl NameSink for Lines {
    ghost Seen = { List ℕ };

    ghost seen = { λ s. string_bytes s.text };

    ghost after = { λ text n. text ++ naming_line n };

    ghost known = { λ s. is_below s.functions };

    ghost refuses = { λ _ _ e. e ≡ Memory alloc_error };

    fn function_known(&self, index: u32) -> bool {
        (index as usize) < self.functions
    }

    fn naming(&mut self, naming: Naming<'_>) -> Result<(), WireError> {
        let line = naming_text(self.alloc, naming)?;
        self.text.push_str(&line)?;
        Ok(())
    }
}

fn word(space: NameSpace) -> &'static str
    ensures { result.now ≡ word_of space }
{
    match space {
        NameSpace::Functions => "function",
        NameSpace::Types => "type",
        NameSpace::Tables => "table",
        NameSpace::Memories => "memory",
        NameSpace::Globals => "global",
        NameSpace::Elements => "element",
        NameSpace::DataSegments => "data",
        NameSpace::Tags => "tag",
    }
}

// The line of a naming.
fn naming_text(alloc: Global, naming: Naming<'_>) -> Result<String, AllocError>
    ensures { IfOk result (λ text. string_bytes text ≡ naming_line (named naming.entry)) }
{
    match naming {
        Naming::Module(name) => format!(in alloc; "module \"{name}\"\n"),
        Naming::Item(space, index, name) => {
            format!(in alloc; "{} {index} \"{name}\"\n", word(space))
        }
        Naming::Local(function, index, name) => {
            format!(in alloc; "local {function} {index} \"{name}\"\n")
        }
    }
}

// The line of a field's value.
fn value_text(alloc: Global, field: &str, name: &str, version: &str) -> Result<String, AllocError>
    ensures { IfOk result (λ text. string_bytes text ≡ value_line field.now (name.now, version.now)) }
{
    format!(in alloc; "producers {field} \"{name}\" \"{version}\"\n")
}

// Writes each value of a field as a line.
fn write_field(alloc: Global, text: &mut String, field: &RawField<'_>) -> Result<(), AllocError>
    ensures { OnOk result (string_bytes text.new ≡ string_bytes text.old
        ++ field_lines (field_record field.now)) }
{
    'values: for (name, version) in &field.values {
        let line = value_text(alloc, field.name, name, version)?;
        text.push_str(&line)?;
    }
    Ok(())
}

fn write_fields(alloc: Global, text: &mut String, fields: &[RawField<'_>]) -> Result<(), AllocError>
    ensures { OnOk result (string_bytes text.new ≡ string_bytes text.old ++ row_bytes field_lines
        (map field_record fields.now)) }
{
    'fields: for field in fields {
        write_field(alloc, text, field)?;
    }
    Ok(())
}

// Writes the lines of a custom section.
fn write_section(lines: &mut Lines, section: &RawCustom<'_>) -> Result<(), WireError>
    ensures listed { OnOk result
        ((text : List ℕ) × (IsListed (is_below lines.old.functions) (custom_record section.now) text
        × (string_bytes lines.new.text ≡ string_bytes lines.old.text ++ text))) }
    ensures same_known { is_below lines.new.functions ≡ is_below lines.old.functions }
{
    match section.name {
        "name" => read_names(section.bytes, lines),
        "producers" => {
            let fields = read_producers(lines.alloc, section.bytes)?;
            write_fields(lines.alloc, &mut lines.text, &fields)?;
            Ok(())
        }
        _ => Ok(()),
    }
}

fn imported_function(desc: &RawDesc) -> Option<u32>
    ensures { result ≡ desc_function desc.now }
{
    match desc {
        RawDesc::Function(ty) => Some(*ty),
        _ => None,
    }
}

fn count_imported(imports: &[RawImport<'_>]) -> usize
    ensures value { result ≡ length (filter_map (λ i. desc_function (import_entry i).desc) imports.now) }
    ensures bound { result ≤ length imports.now }
{
    imports
        .iter()
        .filter_map(|import| imported_function(&import.desc()))
        .count()
}

// How many functions the module has, imported ones among them.
fn count_functions(records: &Raw<'_>) -> usize
    ensures { result ≡ length (imported desc_function (sections records.now).imports) + length
        records.now.functions.items }
{
    let functions = records.functions.as_slice();
    count_imported(&records.imports) + functions.len()
}

/// A line for each naming of each custom section `name`, and for each value of each custom section `producers`, in the order in
/// which they stand. A module is `module "NAME"`; an item its kind, its index and its name, as in `function 3 "NAME"`; a local
/// `local`, the indices of its function and of itself, and its name; a value `producers`, its field, its name and its version, as in
/// `producers language "NAME" "VERSION"`. Names stand as they are, without escapes. Refused for want of memory alone.
pub fn listing(alloc: Global, records: &Raw<'_>) -> Result<Vec<u8>, WireError>
    ensures { IfOk result (λ text. AreListed (has_function (sections records.now))
        (sections records.now).customs text.items) }
{
    let mut lines = Lines {
        alloc,
        text: String::new(alloc),
        functions: count_functions(records),
    };
    'sections: for section in &records.customs {
        write_section(&mut lines, section)?;
    }
    Ok(lines.text.into_bytes())
}
