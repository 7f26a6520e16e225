//! What a tool does that knows functions by their indices alone, as a test driver or a debugger: it exports one of them, in a hook that is
//! handed the module as soon as it is read.

ghost use Rattle.std.specs.Prelude.{MatchResult};
ghost use Rattle.walrus.specs.Items.Exports.{exports};
ghost use Rattle.walrus.specs.Modules.Flags.{config_of, defaults};
ghost use Rattle.walrus_examples.specs.ExportHook.{AddsExport, AnswersExport, ExportsIndexed, RefusesName};

use crate::examples::rename_export::is_taken;
use std::alloc::Global;
use walrus::{
    Error, ExportItem, FunctionId, IndicesToIds, Module, ModuleConfig, ModuleExports, ParseHook,
    Result, finished,
};

// The function is exported under this name, which no other export has.
fn add_export(alloc: Global, all: &mut ModuleExports, name: &str, id: FunctionId) -> Result<()>
    ensures { MatchResult result (λ done. AddsExport id name.now (exports all.old) (exports all.new))
        (RefusesName name.now (exports all.old)) }
{
    if is_taken(all, name) {
        return Err(Error::Caller(String::from_str(alloc, "a name that is taken")?));
    }
    all.add(name, ExportItem::Function(id))?;
    Ok(())
}

// A hook that exports the function of this index under this name.
#[derive(Drop)]
struct Exporting<'a> {
    alloc: Global,
    index: u32,
    name: &'a str,
}

impl<'a> ParseHook for Exporting<'a> {
    ghost does = { λ hook sections own means ids old new answer.
        ExportsIndexed hook.index hook.name.now ids old new answer };

    fn on_parse(&self, module: &mut Module, ids: &IndicesToIds) -> Result<()> {
        let Some(id) = ids.get_func(self.index) else {
            return Err(Error::NotFound);
        };
        add_export(self.alloc, &mut module.exports, self.name, id)
    }
}

/// The bytes of the module where the function that has this index in the input is exported under this name too, behind all other exports; then
/// without what nothing reaches.
///
/// # Errors
///
/// `InvalidWasm` only where the bytes are no module that keeps the rules, `NotFound` only where no function has the index, `Caller` only where
/// something is exported under the name, `TooLarge` only where what is kept has a count or a size past 32 bits, and `Memory`.
pub fn with_export(alloc: Global, bytes: &[u8], index: u32, name: &str) -> Result<Vec<u8>>
    ensures { AnswersExport (config_of defaults) bytes.now index name.now result }
{
    let config = ModuleConfig::new();
    let hook = Exporting { alloc, index, name };
    let module = config.on_parse(hook).parse(alloc, bytes)?;
    finished(alloc, module)
}
