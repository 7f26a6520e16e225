//! What would go with a function if its body trapped: what it alone keeps, and what that costs.

ghost use Rattle.std.specs.Prelude.{◌≡◌, ◌<◌, ◌^◌, IfOk, MatchResult, count_by, map};
ghost use Rattle.std.specs.List.{range_with_len, sum_by};
ghost use Rattle.walrus.specs.Base.Arena.{IsLive as IsLiveAt};
ghost use Rattle.walrus.specs.Base.Id.{place};
ghost use Rattle.walrus.specs.Base.IdSet.{has_id};
ghost use Rattle.walrus.specs.Base.Marks.{is_marked, mark_places};
ghost use Rattle.walrus.specs.Items.Errors.{out_of_memory};
ghost use Rattle.walrus.specs.Items.Functions.{functions};
ghost use Rattle.walrus.specs.Items.Transform.{range_of};
ghost use Rattle.walrus_tools.specs.Alone.{bytes_of};
ghost use Rattle.walrus_tools.specs.AloneSteps.{HasBodyAgain, MarksGoers, MarksIf, TradesIfAny, TradesKind, alone_in, goes_at, size_if};

use crate::trap_bodies::trap_of;
use std::alloc::{AllocError, Global};
use std::ops::Range;
use std::{mem, result};
use walrus::{
    FunctionId, FunctionKey, FunctionKind, IdHashSet, LocalFunction, Marks, Module,
    ModuleFunctions, Result,
};

/// Functions that stay and wouldn't if the body of one of them trapped, that one among them.
#[derive(Clone, Copy, Debug, PartialEq, Eq)]
pub struct Alone {
    /// How many functions.
    pub functions: usize,
    /// How many bytes the bodies of those have that have one.
    pub bytes: usize,
}

// ---- the trap

// A body that traps in place of this one, which is answered. None where there is none.
fn trade_body(alloc: Global, kind: &mut FunctionKind) -> Result<Option<LocalFunction>>
    ensures { MatchResult result (TradesKind kind.old kind.new) (λ e. e ≡ out_of_memory) }
{
    let FunctionKind::Local(function) = kind else {
        return Ok(None);
    };
    let trap = trap_of(alloc, function)?;
    Ok(Some(mem::replace(function, trap)))
}

/// The function of this id traps, if it is there and has a body: that is answered, for [`put_back`]. `Memory` is the only error.
pub(crate) fn trap_one<S>(
    alloc: Global,
    module: &mut Module<S>,
    id: FunctionId,
) -> Result<Option<LocalFunction>>
    ensures { MatchResult result (TradesIfAny (place id) «module».old «module».new) (λ e. e ≡ out_of_memory) }
{
    if !module.funcs.contains(id) {
        return Ok(None);
    }
    trade_body(alloc, &mut module.funcs.get_mut(id).kind)
}

/// The function of this id has this body again.
pub(crate) fn put_back<S>(module: &mut Module<S>, id: FunctionId, body: LocalFunction)
    requires { IsLiveAt (functions «module».old.funcs) (place id) }
    ensures { HasBodyAgain (place id) body «module».old «module».new }
{
    module.funcs.get_mut(id).kind = FunctionKind::Local(body);
}

// ---- what goes

// Whether a function is there and goes with the one of this id: it is that one, or isn't used without it.
fn goes(
    all: &ModuleFunctions,
    used: &IdHashSet<FunctionKey>,
    id: FunctionId,
    at: FunctionId,
) -> bool
    ensures { result ≡ goes_at (functions all.now) (has_id used.now) (place id) (place at) }
{
    all.contains(at) && (at == id || !used.contains(at))
}

// Marks a function if it goes.
fn mark_goer(goes: bool, at: FunctionId, marks: &mut Marks<FunctionKey>)
    requires { place at < mark_places marks.old }
    ensures { MarksIf goes (place at) marks.old marks.new }
{
    if goes {
        let _is_new = marks.mark(at);
    }
}

/// Marks of the functions that go with the one of this id: of those that are there itself, and each that isn't used where it traps.
pub(crate) fn goers(
    alloc: Global,
    all: &ModuleFunctions,
    used: &IdHashSet<FunctionKey>,
    id: FunctionId,
) -> result::Result<Marks<FunctionKey>, AllocError>
    ensures { IfOk result (MarksGoers (functions all.now) (has_id used.now) (place id)) }
{
    let mut marks = Marks::new(alloc, all.next_id().index())?;
    'places: for at in 0..all.next_id().index() {
        mark_goer(
            goes(all, used, id, FunctionId::at(at)),
            FunctionId::at(at),
            &mut marks,
        );
    }
    Ok(marks)
}

// ---- what that costs

// How many bytes a body has, if its function is marked; else none.
fn size_if_marked(marks: &Marks<FunctionKey>, body: &(FunctionId, Range<usize>)) -> usize
    ensures { result ≡ size_if (is_marked marks.now) (range_of body.now) }
{
    if !marks.is_marked(body.0) {
        return 0;
    }
    body.1.end.saturating_sub(body.1.start)
}

// How many bytes those of the bodies have whose functions are marked.
fn size_of_marked(marks: &Marks<FunctionKey>, bodies: &[(FunctionId, Range<usize>)]) -> usize
    requires { bytes_of (map range_of bodies.now) < 2 ^ 64 }
    ensures { result ≡ sum_by (size_if (is_marked marks.now)) (map range_of bodies.now) }
{
    let mut sum = 0;
    for body in bodies {
        sum += size_if_marked(marks, body);
    }
    sum
}

// How many functions are marked.
fn count_marked(marks: &Marks<FunctionKey>) -> usize
    ensures { result ≡ count_by (is_marked marks.now) (range_with_len 0 (mark_places marks.now)) }
{
    (0..marks.places())
        .filter(|place| marks.is_marked(FunctionId::at(*place)))
        .count()
}

/// How many functions are marked, and how many bytes those of these bodies have that are theirs.
pub(crate) fn alone_of(goers: &Marks<FunctionKey>, bodies: &[(FunctionId, Range<usize>)]) -> Alone
    requires { bytes_of (map range_of bodies.now) < 2 ^ 64 }
    ensures { result ≡ alone_in goers.now (map range_of bodies.now) }
{
    Alone {
        functions: count_marked(goers),
        bytes: size_of_marked(goers, bodies),
    }
}
