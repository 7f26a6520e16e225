//! The start function, written anew or none any more.

ghost use Rattle.std.specs.Prelude.{◌≡◌, MatchResult};
ghost use Rattle.walrus_module.specs.View.{contents_of};
ghost use Rattle.walrus_edit_list.specs.Start.{DeletesStart, RefusesStart, SetsStart};

use walrus_base::FunctionId;
use walrus_items::{Error, Result};
use walrus_module::Module;

/// Makes the function of this id the start function (Binary Format > Modules > Start Section).
///
/// # Errors
///
/// `DeadItem` exactly where it isn't there.
pub(crate) fn set_start<S>(number: u32, module: &mut Module<S>) -> Result<()>
    ensures { MatchResult result
        (λ _. SetsStart number (contents_of «module».old) (contents_of «module».new))
        (RefusesStart number (contents_of «module».old)) }
{
    let id = FunctionId::at(number as usize);
    if !module.funcs.contains(id) {
        return Err(Error::DeadItem);
    }
    module.start = Some(id);
    Ok(())
}

/// Leaves no start function.
pub(crate) fn delete_start<S>(module: &mut Module<S>)
    ensures { DeletesStart (contents_of «module».old) (contents_of «module».new) }
{
    module.start = None;
}
