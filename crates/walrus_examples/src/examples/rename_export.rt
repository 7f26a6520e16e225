//! What a bundler does with a module's exports: one is found under another name, and one is gone.

ghost use Rattle.std.specs.Prelude.{◌≡◌, is_some, option_map};
ghost use Rattle.walrus.specs.Base.Id.{place};
ghost use Rattle.walrus.specs.Items.Exports.{exports};
ghost use Rattle.walrus.specs.Modules.Flags.{config_of, defaults};
ghost use Rattle.walrus_tools.specs.ExportNames.{AnswersRenamed, EditsExports, named};

use std::alloc::Global;
use walrus::{Error, ExportId, Module, ModuleExports, Result, finished};

// The id of the first export of this name.
fn find(all: &ModuleExports, name: &str) -> Option<ExportId>
    ensures { option_map place result ≡ option_map (λ e. e.0)
        (named name.now (exports all.now)) }
{
    for (at, export) in all.iter_entries() {
        if export.name.as_str() == name {
            return Some(at);
        }
    }
    None
}

// Whether something is exported under this name.
pub(crate) fn is_taken(all: &ModuleExports, name: &str) -> bool
    ensures { result ≡ is_some (named name.now (exports all.now)) }
{
    find(all, name).is_some()
}

// The first export of the last name is gone, and then that of the first name has the second.
fn edit(alloc: Global, all: &mut ModuleExports, from: &str, to: &str, dropped: &str) -> Result<()>
    ensures { EditsExports from.now to.now dropped.now all.old all.new result }
{
    let Some(gone) = find(all, dropped) else {
        return Err(Error::NotFound);
    };
    all.remove_root(gone);
    let Some(at) = find(all, from) else {
        return Err(Error::NotFound);
    };
    if is_taken(all, to) {
        return Err(Error::Caller(String::from_str(alloc, "a name that is taken")?));
    }
    let name = String::from_str(alloc, to)?;
    all.get_mut(at).name = name;
    Ok(())
}

/// The bytes of the module without the export of the name `dropped`, where what was exported as `from` is exported as `to`; then without
/// what nothing reaches.
///
/// # Errors
///
/// `InvalidWasm` only where the bytes are no module that keeps the rules, `NotFound` only where nothing is exported under one of the names
/// `dropped` and `from`, `Caller` only where something else is exported as `to`, `TooLarge` only where what is kept has a count
/// or a size past 32 bits, and `Memory`.
pub fn rename_export(
    alloc: Global,
    bytes: &[u8],
    from: &str,
    to: &str,
    dropped: &str,
) -> Result<Vec<u8>>
    ensures { AnswersRenamed (config_of defaults) bytes.now from.now to.now dropped.now result }
{
    let mut module = Module::from_buffer(alloc, bytes)?;
    edit(alloc, &mut module.exports, from, to, dropped)?;
    finished(alloc, module)
}
