//! What is told of the names of locals.

ghost use Rattle.std.specs.Prelude.{List, ◌≡◌, ◌++◌, IfErr, IfOk, OnOk, alloc_error, map};
ghost use Rattle.wasm_forms.specs.declared.error.WireError.TheVariants.{Memory};
ghost use Rattle.walrus.specs.Frames.Record.{custom_record};
ghost use Rattle.walrus_edits.specs.ItemRecords.{Told};
ghost use Rattle.walrus_edits.specs.ItemValues.{local_named};
ghost use Rattle.walrus_edits.specs.LocalNames.{AreLocalNames, SaysLocals, are_known, local_told, name_payloads};

use crate::records::{LOCAL_NAME, Tells, put_number};
use std::alloc::{AllocError, Global};
use std::result;
use wasm_forms::{WireError, write_name};
use wasm_frames::RawCustom;
use wasm_payloads::{NameSink, Naming, read_names};
use wasm_wire::CustomGroup;

/// A function, one of its locals, and the name of this.
#[derive(Drop)]
pub(crate) struct NameOfLocal {
    function: u32,
    local: u32,
    name: String,
}

impl Tells for NameOfLocal {
    ghost told = { local_told };

    fn number(&self) -> u8 {
        LOCAL_NAME
    }

    fn write_payload(&self, _alloc: Global, to: &mut Vec<u8>) -> result::Result<(), WireError> {
        put_number(to, u64::from(self.function))?;
        put_number(to, u64::from(self.local))?;
        write_name(to, self.name.as_str())
    }
}

/// How many functions there are: those that are imported, and those that are defined.
#[derive(Clone, Copy)]
pub(crate) struct Functions {
    pub(crate) imported: usize,
    pub(crate) defined: usize,
}

/// The names of locals among the namings that come, of a module with so many functions.
#[derive(Drop)]
struct LocalNames {
    alloc: Global,
    functions: Functions,
    names: Vec<NameOfLocal>,
}

impl NameSink for LocalNames {
    ghost Seen = { List Told };

    ghost seen = { λ s. map local_told s.names.items };

    ghost after = { λ told naming. told ++ local_named naming };

    ghost known = { λ s. are_known s.functions };

    ghost refuses = { λ _ _ e. e ≡ Memory alloc_error };

    fn function_known(&self, index: u32) -> bool {
        let place = index as usize;
        place < self.functions.imported || place - self.functions.imported < self.functions.defined
    }

    fn naming(&mut self, naming: Naming<'_>) -> result::Result<(), WireError> {
        match naming {
            Naming::Local(function, local, name) => {
                let name = String::from_str(self.alloc, name)?;
                self.names.push(NameOfLocal {
                    function,
                    local,
                    name,
                })?;
                Ok(())
            }
            Naming::Module(_) | Naming::Item(_, _, _) => Ok(()),
        }
    }
}

/// The sections called `name` among these.
fn name_sections<'a>(
    alloc: Global,
    customs: &[RawCustom<'a>],
) -> result::Result<Vec<RawCustom<'a>>, AllocError>
    ensures { IfOk result (λ kept. map (λ c. c.bytes.now) kept.items
        ≡ name_payloads (map custom_record customs.now)) }
{
    let mut kept = Vec::new(alloc);
    'sections: for custom in customs {
        if CustomGroup::Names.has(custom.name) {
            kept.push(*custom)?;
        }
    }
    Ok(kept)
}

/// Takes the names of locals that a section called `name` gives.
fn take_section(section: &RawCustom<'_>, sink: &mut LocalNames) -> result::Result<(), WireError>
    ensures taken { OnOk result (SaysLocals (are_known sink.old.functions) section.now.bytes.now
        (map local_told sink.old.names.items) (map local_told sink.new.names.items)) }
    ensures same { OnOk result (are_known sink.new.functions ≡ are_known sink.old.functions) }
    ensures fails { IfErr result (λ e. e ≡ Memory alloc_error) }
{
    read_names(section.bytes, sink)?;
    Ok(())
}

/// The names of locals that these payloads of sections called `name` give, of a module with so many functions, in their order.
pub(crate) fn local_names(
    alloc: Global,
    customs: &[RawCustom<'_>],
    functions: Functions,
) -> result::Result<Vec<NameOfLocal>, WireError>
    ensures value { IfOk result (λ names. AreLocalNames (are_known functions)
        (map custom_record customs.now) (map local_told names.items)) }
    ensures fails { IfErr result (λ e. e ≡ Memory alloc_error) }
{
    let sections = name_sections(alloc, customs)?;
    let mut sink = LocalNames {
        alloc,
        functions,
        names: Vec::new(alloc),
    };
    'sections: for section in &sections {
        take_section(section, &mut sink)?;
    }
    Ok(sink.names)
}
