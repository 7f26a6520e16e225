//! What a linker does with functions that only its own data names: a custom section lists them, they are kept, and it lists them by their new
//! indices.

ghost use Rattle.walrus.specs.Items.Functions.{functions};
ghost use Rattle.walrus.specs.Modules.Flags.{config_of, defaults};
ghost use Rattle.walrus_examples.specs.ListSteps.{FindsFirst, FindsListed};
ghost use Rattle.walrus_examples.specs.ListAnswers.{AnswersKeepListed};

use std::alloc::Global;
use walrus::{
    Error, FunctionId, ListedSection, Module, ModuleFunctions, RawCustomSection, Result,
    SectionEntry, finished,
};

// The function whose index stands first in the bytes, and the bytes behind it.
fn first_listed<'a>(funcs: &ModuleFunctions, bytes: &'a [u8]) -> Result<(FunctionId, &'a [u8])>
    ensures { FindsFirst (functions funcs.now) bytes.now result }
{
    let [a, b, c, d, rest @ ..] = bytes else {
        return Err(Error::NotFound);
    };
    let id = FunctionId::at(u32::from_le_bytes([*a, *b, *c, *d]) as usize);
    if !funcs.contains(id) {
        return Err(Error::NotFound);
    }
    Ok((id, rest))
}

// The functions that the bytes list.
fn listed(alloc: Global, funcs: &ModuleFunctions, bytes: &[u8]) -> Result<Vec<FunctionId>>
    ensures { FindsListed (functions funcs.now) bytes.now result }
{
    let mut ids = Vec::new(alloc);
    let mut rest = bytes;
    'indices: while !rest.is_empty() {
        let (id, after) = first_listed(funcs, rest)?;
        ids.push(id)?;
        rest = after;
    }
    Ok(ids)
}

/// The bytes of the module without what nothing reaches, where the functions stay that the first custom section of this name lists by their
/// indices, four bytes each, the lowest first. That section comes to stand behind the others, and lists them by their new indices; but one of
/// dynamic linking (`dylink`, `dylink.0`) is asked for its data before there are indices, and so lists none.
///
/// # Errors
///
/// `InvalidWasm` only where the bytes are no module that keeps the rules, `NotFound` only where that section's data is no list of indices of
/// functions, `TooLarge` only where what is kept has a count or a size past 32 bits, and `Memory`.
pub fn keep_listed(alloc: Global, bytes: &[u8], name: &str) -> Result<Vec<u8>>
    ensures { AnswersKeepListed (config_of defaults) bytes.now name.now result }
{
    let mut module = Module::from_buffer(alloc, bytes)?;
    let Some(section) = module.customs.remove_raw(name) else {
        return finished(alloc, module);
    };
    let RawCustomSection { name, data_ } = section;
    let ids = listed(alloc, &module.funcs, &data_)?;
    let own = Box::new(alloc, ListedSection::new(alloc, name, ids))?;
    module.customs.add(SectionEntry::Boxed(own))?;
    finished(alloc, module)
}
