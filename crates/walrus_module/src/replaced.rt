//! Replacing a function by one that is built ("Structure > Modules > Functions").

ghost use Rattle.std.specs.Prelude.{◌≡◌, map, option_map, slice_set};
ghost use Rattle.walrus_base.specs.Arena.{item_at, IsLive};
ghost use Rattle.walrus_base.specs.Id.{place};
ghost use Rattle.walrus_base.specs.ModuleTypes.{type_slots};
ghost use Rattle.walrus_base.specs.Value.{val_type};
ghost use Rattle.walrus_items.specs.Exports.{exports};
ghost use Rattle.walrus_items.specs.Functions.{functions};
ghost use Rattle.walrus_items.specs.Imports.{imports};
ghost use Rattle.walrus_model.specs.BlockHandlers.{params_of};
ghost use Rattle.walrus_module.specs.Replaced.{LendsBody, MakesSlotLocal, Rebuilds, ReplacesExported, ReplacesImport, ReplacesImported, TellsBrought, TellsType, naming, with_body};

use crate::module::Module;
use std::alloc::Global;
use walrus_base::{ExportId, FunctionId, ImportId, LocalId, ModuleTypes, TypeId, ValType};
use walrus_bodies::LocalFunction;
use walrus_functions::add_locals;
use walrus_ir::InstrSeqBuilder;
use walrus_items::{
    Error, ExportItem, FunctionKind, ImportKind, ModuleExports, ModuleFunctions, ModuleImports,
    Result,
};

// The body of the function of this id.
fn body_at(all: &ModuleFunctions, id: FunctionId) -> Result<&LocalFunction>
    ensures { LendsBody (item_at (functions all.now) (place id)) result }
{
    if !all.contains(id) {
        return Err(Error::DeadItem);
    }
    match &all.get(id).kind {
        FunctionKind::Local(local) => Ok(local),
        FunctionKind::Import(_) | FunctionKind::Uninitialized(_) => Err(Error::NotReplaceable),
    }
}

// The function that the import of this id brings.
fn brought(all: &ModuleImports, at: ImportId) -> Result<FunctionId>
    ensures { TellsBrought (item_at (imports all.now) (place at)) result }
{
    if !all.contains(at) {
        return Err(Error::DeadItem);
    }
    match all.get(at).kind {
        ImportKind::Function(id) => Ok(id),
        _ => Err(Error::NotImported),
    }
}

// The type of the imported function of this id.
fn imported_type(all: &ModuleFunctions, id: FunctionId) -> Result<TypeId>
    ensures { TellsType (item_at (functions all.now) (place id)) result }
{
    if !all.contains(id) {
        return Err(Error::DeadItem);
    }
    match &all.get(id).kind {
        FunctionKind::Import(imported) => Ok(imported.ty),
        FunctionKind::Local(_) | FunctionKind::Uninitialized(_) => Err(Error::NotReplaceable),
    }
}

// What the type takes, if it is a function type.
fn parameters(types: &ModuleTypes, ty: TypeId) -> &[ValType]
    requires { IsLive (type_slots types.now) (place ty) }
    ensures { map val_type result.now ≡ params_of (item_at (type_slots types.now) (place ty)) }
{
    match types.get(ty).as_function() {
        Some(function) => function.params(),
        None => &[],
    }
}

// A function of this type with these parameters, whose body is built.
fn rebuilt<F: FnOnce(&mut InstrSeqBuilder, &Vec<LocalId>) -> Result<()>>(
    alloc: Global,
    ty: TypeId,
    args: Vec<LocalId>,
    build: F,
) -> Result<LocalFunction>
    requires callable { F.IsAlwaysCallable build }
    ensures { Rebuilds (F.post build) ty args.items result }
{
    let mut body = InstrSeqBuilder::new(alloc);
    if let Err(e) = build(&mut body, &args) {
        return Err(e);
    }
    Ok(body.into_function(alloc, ty, args)?)
}

// The export of this live id names this function from now on.
fn redirect(all: &mut ModuleExports, at: ExportId, id: FunctionId)
    requires { IsLive (exports all.old) (place at) }
    ensures { exports all.new ≡ slice_set (exports all.old) (place at)
        (option_map (naming id) (item_at (exports all.old) (place at))) }
{
    all.get_mut(at).item = ExportItem::Function(id);
}

// The function of this live id has this body from now on.
fn give_body(all: &mut ModuleFunctions, id: FunctionId, local: LocalFunction)
    requires { IsLive (functions all.old) (place id) }
    ensures { functions all.new ≡ slice_set (functions all.old) (place id)
        (option_map (with_body local) (item_at (functions all.old) (place id))) }
{
    all.get_mut(id).kind = FunctionKind::Local(local);
}

impl<S> Module<S> {
    /// Replaces an exported function by one that `build` builds: a function of the same type and with the same parameters is added, without
    /// a name, and the first export of the old one names it; answers its id. `build` is handed an empty body and the parameters; the last
    /// `0B` is put behind what it leaves. The old function stays.
    ///
    /// # Errors
    ///
    /// `NotExported` where no export names the function, else `DeadItem` where it isn't there, else `NotReplaceable` where it has no body;
    /// then nothing changes. What `build` answers, and `Memory`; then no function is added.
    pub fn replace_exported_func<F: FnOnce(&mut InstrSeqBuilder, &Vec<LocalId>) -> Result<()>>(
        &mut self,
        alloc: Global,
        fid: FunctionId,
        build: F,
    ) -> Result<FunctionId>
        requires callable { F.IsAlwaysCallable build }
        ensures { ReplacesExported (F.post build) fid self.old self.new result }
    {
        let Some(export) = self.exports.first_id_of(ExportItem::Function(fid)) else {
            return Err(Error::NotExported);
        };
        let old = body_at(&self.funcs, fid)?;
        let args = old.args(alloc)?;
        let function = rebuilt(alloc, old.ty(), args, build)?;
        let id = self.funcs.add_local(function)?;
        redirect(&mut self.exports, export, id);
        Ok(id)
    }

    /// Replaces an imported function by one that `build` builds, under the same id and name; the first import of it goes. `build` is
    /// handed an empty body and a fresh local for each parameter, none where its type is no function type; the last `0B` is put behind
    /// what it leaves.
    ///
    /// # Errors
    ///
    /// `NotImported` where no import names the function, else `DeadItem` where it isn't there, else `NotReplaceable` where it isn't
    /// imported, else `DeadItem` where its type isn't there; then nothing changes. What `build` answers, and `Memory`; then no more than
    /// locals were added.
    pub fn replace_imported_func<F: FnOnce(&mut InstrSeqBuilder, &Vec<LocalId>) -> Result<()>>(
        &mut self,
        alloc: Global,
        fid: FunctionId,
        build: F,
    ) -> Result<FunctionId>
        requires callable { F.IsAlwaysCallable build }
        ensures { ReplacesImported (F.post build) fid self.old self.new result }
    {
        let Some(import) = self.imports.first_id_of(ImportKind::Function(fid)) else {
            return Err(Error::NotImported);
        };
        self.make_local(alloc, import, fid, build)
    }

    /// Replaces the function that this import brings by one that `build` builds, as [`replace_imported_func`](Module::replace_imported_func)
    /// does, and this import goes; answers the function's id. No import is searched for, so that many functions are replaced in linear time.
    /// Where another import brings the same function, that stays; behind parsing there is none.
    ///
    /// # Errors
    ///
    /// `DeadItem` where the import isn't there, else `NotImported` where it brings no function, else as `replace_imported_func`.
    pub fn replace_import<F: FnOnce(&mut InstrSeqBuilder, &Vec<LocalId>) -> Result<()>>(
        &mut self,
        alloc: Global,
        import: ImportId,
        build: F,
    ) -> Result<FunctionId>
        requires callable { F.IsAlwaysCallable build }
        ensures { ReplacesImport (F.post build) «import» self.old self.new result }
    {
        let fid = brought(&self.imports, import)?;
        self.make_local(alloc, import, fid, build)
    }

    // The imported function is local, and this import of it goes.
    fn make_local<F: FnOnce(&mut InstrSeqBuilder, &Vec<LocalId>) -> Result<()>>(
        &mut self,
        alloc: Global,
        import: ImportId,
        fid: FunctionId,
        build: F,
    ) -> Result<FunctionId>
        requires callable { F.IsAlwaysCallable build }
        requires live { IsLive (imports self.old.imports) (place «import») }
        ensures { MakesSlotLocal (F.post build) fid (place «import»)
            (item_at (functions self.old.funcs) (place fid)) self.old self.new result }
    {
        let ty = imported_type(&self.funcs, fid)?;
        if !self.types.contains(ty) {
            return Err(Error::DeadItem);
        }
        let args = add_locals(alloc, parameters(&self.types, ty), &mut self.locals)?;
        let function = rebuilt(alloc, ty, args, build)?;
        give_body(&mut self.funcs, fid, function);
        self.imports.delete(import);
        Ok(fid)
    }
}
