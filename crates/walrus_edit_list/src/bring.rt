//! Functions of a module's own that come to be imported ("Structure > Modules > Imports").

ghost use Rattle.std.specs.Prelude.{◌≡◌, IsTrue, ◌↔◌, MatchResult};
ghost use Rattle.walrus_items.specs.FunctionKinds.{IsImport};
ghost use Rattle.walrus_module.specs.View.{contents_of};
ghost use Rattle.walrus_edit_list.specs.Bringing.{BringsFunction, RefusesBring};

use walrus_base::FunctionId;
use walrus_items::{Error, FunctionKind, ImportKind, ImportedFunction, Result};
use walrus_module::Module;

// Whether an import brings a function of this kind.
fn is_imported(kind: &FunctionKind) -> bool
    ensures { IsTrue result ↔ IsImport kind.now }
{
    match kind {
        FunctionKind::Import(_) => true,
        FunctionKind::Local(_) | FunctionKind::Uninitialized(_) => false,
    }
}

/// Has the function of this number, one of the module's own, imported by these two names: a new import brings it, and its body is gone. Its type, its
/// name and its id stay.
///
/// # Errors
///
/// `DeadItem` exactly where it isn't there, `NotReplaceable` exactly where an import brings it already, and `Memory`.
pub(crate) fn bring_function<S>(
    number: u32,
    from: &str,
    name: &str,
    module: &mut Module<S>,
) -> Result<()>
    ensures { MatchResult result
        (λ _. BringsFunction number from.now name.now (contents_of «module».old) (contents_of «module».new))
        (RefusesBring number (contents_of «module».old)) }
{
    let id = FunctionId::at(number as usize);
    if !module.funcs.contains(id) {
        return Err(Error::DeadItem);
    }
    let function = module.funcs.get(id);
    if is_imported(&function.kind) {
        return Err(Error::NotReplaceable);
    }
    let ty = function.ty();
    let import = module.imports.add(from, name, ImportKind::Function(id))?;
    module.funcs.get_mut(id).kind = FunctionKind::Import(ImportedFunction { ty, import });
    Ok(())
}
