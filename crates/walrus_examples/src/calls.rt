//! Bodies that begin with a call.

ghost use Rattle.std.specs.Prelude.{MatchResult, ◌≡◌};
ghost use Rattle.walrus.specs.Base.Id.{place};
ghost use Rattle.walrus.specs.Items.Errors.{out_of_memory};
ghost use Rattle.walrus_examples.specs.Count.{CallsFirst, KindCalls};

use std::alloc::Global;
use walrus::opcodes::CALL;
use walrus::{Arg, Args, FunctionId, FunctionKind, LocalFunction, Operator, Result};

// Puts a call of a function in front of the operators of this one.
fn put_call(alloc: Global, function: &mut LocalFunction, called: FunctionId) -> Result<()>
    ensures { MatchResult result (λ _. CallsFirst (place called) function.old function.new)
        (λ e. e ≡ out_of_memory) }
{
    let call = Operator::new(CALL, Args::One(Arg::Function(called)));
    function.operators_mut(alloc)?.insert(0, call)?;
    Ok(())
}

/// Puts a call of a function in front of the operators of this one, if it has a body. `Memory` is the only error.
pub(crate) fn call_first(alloc: Global, kind: &mut FunctionKind, called: FunctionId) -> Result<()>
    ensures { MatchResult result (λ _. KindCalls (place called) kind.old kind.new) (λ e. e ≡ out_of_memory) }
{
    let FunctionKind::Local(function) = kind else {
        return Ok(());
    };
    put_call(alloc, function, called)?;
    Ok(())
}
