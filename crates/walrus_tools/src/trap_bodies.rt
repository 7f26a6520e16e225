//! Functions that trap from now on, under their own ids: whoever calls them traps.

ghost use Rattle.std.specs.Prelude.{◌≡◌, MatchResult};
ghost use Rattle.walrus.specs.Base.Id.{place};
ghost use Rattle.walrus.specs.Base.Marks.{is_marked};
ghost use Rattle.walrus.specs.Items.Errors.{out_of_memory};
ghost use Rattle.walrus.specs.Items.Functions.{functions};
ghost use Rattle.walrus_tools.specs.FunctionMeaning.{texts};
ghost use Rattle.walrus_tools.specs.TrapEdit.{HitTrap, IsTrapOf, KindTraps, PlaceTraps, TrapsAll};

use crate::function_meaning::{Meant, marks_of};
use crate::traps::put_trap;
use std::alloc::Global;
use walrus::{
    FunctionId, FunctionKey, FunctionKind, InstrSeqBuilder, LocalFunction, Marks, Module,
    ModuleFunctions, Result,
};

// A function of the type of this one and with its parameters, which traps.
pub(crate) fn trap_of(alloc: Global, old: &LocalFunction) -> Result<LocalFunction>
    ensures { MatchResult result (IsTrapOf old.now) (λ e. e ≡ out_of_memory) }
{
    let args = old.args(alloc)?;
    let mut body = InstrSeqBuilder::new(alloc);
    put_trap(&mut body)?;
    Ok(body.into_function(alloc, old.ty(), args)?)
}

// The function traps, if it has a body.
fn trap_kind(alloc: Global, kind: &mut FunctionKind) -> Result<()>
    ensures { MatchResult result (λ _. KindTraps kind.old kind.new) (λ e. e ≡ out_of_memory) }
{
    let FunctionKind::Local(function) = kind else {
        return Ok(());
    };
    *function = trap_of(alloc, function)?;
    Ok(())
}

// The function of this id traps, if it is marked, is there and has a body.
fn trap_at(
    alloc: Global,
    all: &mut ModuleFunctions,
    at: FunctionId,
    marks: &Marks<FunctionKey>,
) -> Result<()>
    ensures { MatchResult result
        (λ _. PlaceTraps (is_marked marks.now (place at)) (place at) (functions all.old) (functions all.new))
        (λ e. e ≡ out_of_memory) }
{
    if !marks.is_marked(at) {
        return Ok(());
    }
    if !all.contains(at) {
        return Ok(());
    }
    trap_kind(alloc, &mut all.get_mut(at).kind)?;
    Ok(())
}

// Each function that is marked traps, if it has a body.
fn trap_marked(alloc: Global, all: &mut ModuleFunctions, marks: &Marks<FunctionKey>) -> Result<()>
    ensures { MatchResult result
        (λ _. HitTrap (is_marked marks.now) (functions all.old) (functions all.new))
        (λ e. e ≡ out_of_memory) }
{
    'places: for at in 0..all.next_id().index() {
        trap_at(alloc, all, FunctionId::at(at), marks)?;
    }
    Ok(())
}

/// The functions that the texts mean trap.
///
/// # Errors
///
/// Those of [`marks_of`], and `Memory`.
pub(crate) fn trap_meant<S>(
    alloc: Global,
    module: &mut Module<S>,
    meant: &[Meant<'_>],
) -> Result<()>
    ensures { TrapsAll (texts meant.now) «module».old «module».new result }
{
    let marks = marks_of(alloc, &module.funcs, &module.exports, meant)?;
    trap_marked(alloc, &mut module.funcs, &marks)
}
