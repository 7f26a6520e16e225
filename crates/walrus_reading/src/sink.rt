//! A sink of namings that names what a module holds.
ghost use Rattle.std.specs.Prelude.{◌≡◌, ◌<◌, ◌^◌, Some, IsOkUnless, alloc_error, string_bytes, option_map};
ghost use Rattle.wasm_forms.specs.declared.error.WireError.TheVariants.{Memory};
ghost use Rattle.wasm_payloads.specs.Names.{ItemName, LocalName};
ghost use Rattle.walrus_reading.specs.Shown.{Shown, local_values, mend_local, shown};
ghost use Rattle.walrus_reading.specs.Sink.{bounds_of, once_seen, seen_by};
ghost use Rattle.walrus_reading.specs.Renamed.{renamed_by};
ghost use Rattle.walrus_reading.specs.TakenNames.{Bounds, is_known, local_in, once_named, place_of};

use crate::renaming::{
    name_data, name_element, name_function, name_global, name_local, name_memory, name_table,
    name_tag, name_type,
};
use std::alloc::Global;
use walrus_base::ModuleLocals;
use walrus_contents::Contents;
use wasm_forms::WireError;
use wasm_payloads::{NameSink, NameSpace, Naming};

/// Which indices may be named.
#[derive(Drop)]
pub struct NameBounds {
    /// How many types were read. Those behind them have no index.
    pub types: usize,
    /// The first place of the locals of each function, and behind these the count of all locals.
    pub starts: Vec<usize>,
    /// Whether what has no name is given one, so that an empty name of a local doesn't count.
    pub synthetic: bool,
}

/// Names what a module holds, as namings come.
#[derive(Drop)]
pub(crate) struct Namer {
    pub(crate) alloc: Global,
    pub(crate) bounds: NameBounds,
    pub(crate) contents: Contents,
}

impl NameSink for Namer {
    ghost Seen = { Bounds × Shown };

    ghost seen = { seen_by };

    ghost after = { once_seen };

    ghost known = { λ s. is_known s.bounds.starts.items };

    ghost refuses = { λ _ _ e. e ≡ Memory alloc_error };

    fn function_known(&self, index: u32) -> bool {
        index as usize + 1 < self.bounds.starts.len()
    }

    fn naming(&mut self, naming: Naming<'_>) -> Result<(), WireError> {
        match naming {
            Naming::Module(name) => {
                self.contents.name = Some(String::from_str(self.alloc, name)?);
            }
            Naming::Item(space, index, name) => {
                let name = String::from_str(self.alloc, name)?;
                name_item(&self.bounds, space, index, name, &mut self.contents);
            }
            Naming::Local(function, local, name) => {
                let name = String::from_str(self.alloc, name)?;
                let locals = &mut self.contents.locals;
                name_local_of(&self.bounds, function, local, name, locals);
            }
        }
        Ok(())
    }
}

// Names the item of an index, if there is one.
fn name_item(
    bounds: &NameBounds,
    space: NameSpace,
    index: u32,
    name: String,
    contents: &mut Contents,
)
    ensures { shown contents.new ≡ once_named (bounds_of bounds.now) (shown contents.old)
        (ItemName space index (string_bytes name)) }
{
    let place = index as usize;
    match space {
        NameSpace::Functions => name_function(&mut contents.funcs, place, name),
        NameSpace::Types => name_type(&mut contents.types, bounds.types, place, name),
        NameSpace::Tables => name_table(&mut contents.tables, place, name),
        NameSpace::Memories => name_memory(&mut contents.memories, place, name),
        NameSpace::Globals => name_global(&mut contents.globals, place, name),
        NameSpace::Elements => name_element(&mut contents.elements, place, name),
        NameSpace::DataSegments => name_data(&mut contents.data_, place, name),
        NameSpace::Tags => name_tag(&mut contents.tags, place, name),
    }
}

// Names a local of a function, if there is one and the name counts.
fn name_local_of(
    bounds: &NameBounds,
    function: u32,
    local: u32,
    name: String,
    all: &mut ModuleLocals,
)
    ensures { local_values all.new ≡ renamed_by mend_local (local_in (bounds_of bounds.now)
        (LocalName function local (string_bytes name))) (local_values all.old) }
{
    if bounds.synthetic && name.is_empty() {
        return;
    }
    if let Some(place) = local_place(&bounds.starts, function as usize, local as usize) {
        name_local(all, place, name);
    }
}

// The place of a local of a function, if there is such a local. The first places of each function's locals are given.
fn local_place(starts: &[usize], function: usize, local: usize) -> Option<usize>
    requires small { function < 2 ^ 32 }
    ensures { result ≡ place_of starts.now function local }
{
    let first = *starts.get(function)?;
    let end = *starts.get(function + 1)?;
    let place = first.checked_add(local)?;
    if place < end { Some(place) } else { None }
}
