//! Where a function comes from ("Structure > Modules > Functions").
ghost use Rattle.std.specs.Prelude.{◌≡◌};
ghost use Rattle.std.specs.Borrow.{sem};
ghost use Rattle.walrus_items.specs.FunctionKinds.{IsImport, IsLocal};
ghost use Rattle.walrus_items.specs.LendsKind.{LendsImported, LendsLocal};
ghost use Rattle.walrus_items.specs.declared.function_kind.FunctionKind.TheVariants.{Import, Local};

use walrus_base::{ImportId, TypeId};
use walrus_ir::LocalFunction;

/// A function that an import brings in.
#[derive(Drop)]
pub struct ImportedFunction {
    /// Its type.
    pub ty: TypeId,
    /// The import.
    pub import: ImportId,
}

/// Where a function comes from.
#[derive(Drop)]
pub enum FunctionKind {
    /// From an import.
    Import(ImportedFunction),
    /// From the module: it has a body.
    Local(LocalFunction),
    /// From the module, with this type, and its body isn't known yet.
    Uninitialized(TypeId),
}

impl FunctionKind {
    /// What a function of an import is. Asks for such a function.
    pub fn unwrap_import(&self) -> &ImportedFunction
        requires { IsImport self.now }
        ensures { self.now ≡ Import result.now }
    {
        match self {
            FunctionKind::Import(imported) => imported,
            _ => unreachable!(),
        }
    }

    /// The body of a local function. Asks for such a function.
    pub fn unwrap_local(&self) -> &LocalFunction
        requires { IsLocal self.now }
        ensures { self.now ≡ Local result.now }
    {
        match self {
            FunctionKind::Local(local) => local,
            _ => unreachable!(),
        }
    }

    /// What a function of an import is, for writing. Asks for such a function.
    pub fn unwrap_import_mut(&mut self) -> &mut ImportedFunction
        requires { IsImport self.old }
        ensures* writes_back { sem 𝓛 (LendsImported self.entry result) }
        ensures value { self.old ≡ Import result.now }
    {
        match self {
            FunctionKind::Import(imported) => imported,
            _ => unreachable!(),
        }
    }

    /// The body of a local function, for writing. Asks for such a function.
    pub fn unwrap_local_mut(&mut self) -> &mut LocalFunction
        requires { IsLocal self.old }
        ensures* writes_back { sem 𝓛 (LendsLocal self.entry result) }
        ensures value { self.old ≡ Local result.now }
    {
        match self {
            FunctionKind::Local(local) => local,
            _ => unreachable!(),
        }
    }
}
