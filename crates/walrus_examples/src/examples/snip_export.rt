//! What a snipper does: an exported function that won't be called is replaced by one that traps, and what it alone reached goes.

ghost use Rattle.std.specs.Prelude.{◌≡◌};
ghost use Rattle.walrus.specs.Base.Id.{place};
ghost use Rattle.walrus.specs.Base.Operators.{function_item};
ghost use Rattle.walrus.specs.Items.Exports.{exports, exports_item};
ghost use Rattle.walrus.specs.Items.Searches.{first};
ghost use Rattle.walrus.specs.Modules.Flags.{config_of, defaults};
ghost use Rattle.walrus.specs.Modules.Replaced.{ReplacesExported};
ghost use Rattle.walrus_examples.specs.SnipAnswers.{AnswersSnipped, FindsNamed, SnipsExport, first_named};
ghost use Rattle.walrus_tools.specs.StubAnswers.{PutsTrap};

use std::alloc::Global;
use walrus::{
    Error, FunctionId, InstrSeqBuilder, LocalId, Module, ModuleExports, Result, finished,
};
use walrus_tools::put_trap;

// Whether the function's first export has this name.
fn is_named_first(all: &ModuleExports, id: FunctionId, name: &str) -> bool
    ensures { result ≡ first_named name.now
        (first (exports_item (function_item (place id))) (exports all.now)) }
{
    match all.get_exported_func(id) {
        Some(export) => export.name.as_str() == name,
        None => false,
    }
}

// The function that is exported under this name, and under no other before.
fn exported(all: &ModuleExports, name: &str) -> Result<FunctionId>
    ensures { FindsNamed name.now (exports all.now) result }
{
    let id = all.get_func(name)?;
    if !is_named_first(all, id, name) {
        return Err(Error::NotReplaceable);
    }
    Ok(id)
}

// The first export of the function names one that traps.
fn trap_export<S>(alloc: Global, module: &mut Module<S>, id: FunctionId) -> Result<FunctionId>
    ensures { ReplacesExported PutsTrap id «module».old «module».new result }
{
    module.replace_exported_func(
        alloc,
        id,
        |body: &mut InstrSeqBuilder, _args: &Vec<LocalId>| -> Result<()> { put_trap(body) },
    )
}

// What is exported under this name traps.
fn trap_named<S>(alloc: Global, module: &mut Module<S>, name: &str) -> Result<FunctionId>
    ensures { SnipsExport name.now «module».old «module».new result }
{
    let id = exported(&module.exports, name)?;
    trap_export(alloc, module, id)
}

/// The bytes of the module where the function that is exported under this name is replaced by one of its type that traps; then without
/// what nothing reaches.
///
/// # Errors
///
/// `InvalidWasm` only where the bytes are no module that keeps the rules, `NotFound` only where no function is exported under the name,
/// `NotReplaceable` only where that is imported or is exported under another name before, `TooLarge` only where what is kept has a count
/// or a size past 32 bits, and `Memory`.
pub fn snip_export(alloc: Global, bytes: &[u8], name: &str) -> Result<Vec<u8>>
    ensures { AnswersSnipped (config_of defaults) bytes.now name.now result }
{
    let mut module = Module::from_buffer(alloc, bytes)?;
    trap_named(alloc, &mut module, name)?;
    finished(alloc, module)
}
