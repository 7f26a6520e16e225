//! A function by its index, or by a name.

ghost use Rattle.walrus.specs.Items.Exports.{exports};
ghost use Rattle.walrus.specs.Items.Functions.{functions};
ghost use Rattle.walrus_tools.specs.FunctionNames.{FindsCalled};
ghost use Rattle.walrus_tools.specs.Reasons.{FindsFunction};

use walrus::{Error, FunctionId, ModuleExports, ModuleFunctions, Result};

/// The function of this index.
///
/// # Errors
///
/// `NotFound` alone, and only where there is none.
pub fn function_at(all: &ModuleFunctions, function: u32) -> Result<FunctionId>
    ensures { FindsFunction (functions all.now) function result }
{
    let id = FunctionId::at(function as usize);
    if !all.contains(id) {
        return Err(Error::NotFound);
    }
    Ok(id)
}

/// The first function of this name, or else the first that is exported under it. `NotFound` is the only error.
pub(crate) fn function_called(
    all: &ModuleFunctions,
    exported: &ModuleExports,
    name: &str,
) -> Result<FunctionId>
    ensures { FindsCalled name.now (functions all.now) (exports exported.now) result }
{
    match all.by_name(name) {
        Some(id) => Ok(id),
        None => exported.get_func(name),
    }
}
