//! What an instrumenter does: a function is imported, and each function of the module begins with a call of it, so that whoever gives it
//! can count calls.

ghost use Rattle.std.specs.Prelude.{MatchResult, ◌≡◌};
ghost use Rattle.std.specs.List.{AllZip};
ghost use Rattle.walrus.specs.Base.Id.{place};
ghost use Rattle.walrus.specs.Items.Functions.{functions};
ghost use Rattle.walrus.specs.Modules.Flags.{config_of, defaults};
ghost use Rattle.walrus.specs.Items.Errors.{out_of_memory};
ghost use Rattle.walrus_examples.specs.Count.{PlaceCalls, SlotCalls};
ghost use Rattle.walrus_examples.specs.CountAnswers.{AnswersCounted, CountsAll, ImportsOne};

use crate::calls::call_first;
use std::alloc::Global;
use walrus::{FunctionId, Module, ModuleFunctions, Result, finished};

// The function of this id begins with a call, if it is there and has a body.
fn call_at(
    alloc: Global,
    all: &mut ModuleFunctions,
    at: FunctionId,
    called: FunctionId,
) -> Result<()>
    ensures { MatchResult result
        (λ _. PlaceCalls (place called) (place at) (functions all.old) (functions all.new))
        (λ e. e ≡ out_of_memory) }
{
    if !all.contains(at) {
        return Ok(());
    }
    call_first(alloc, &mut all.get_mut(at).kind, called)?;
    Ok(())
}

// Each function with a body begins with a call.
fn call_all(alloc: Global, all: &mut ModuleFunctions, called: FunctionId) -> Result<()>
    ensures { MatchResult result
        (λ _. AllZip (SlotCalls (place called)) (functions all.old) (functions all.new))
        (λ e. e ≡ out_of_memory) }
{
    'places: for at in 0..all.next_id().index() {
        call_at(alloc, all, FunctionId::at(at), called)?;
    }
    Ok(())
}

// Imports a function that takes and gives nothing.
fn import_one<S>(module: &mut Module<S>, from: &str, name: &str) -> Result<FunctionId>
    ensures { ImportsOne from.now name.now «module».old «module».new result }
{
    let ty = module.types.add(&[], &[])?;
    let (called, _) = module.add_import_func(from, name, ty)?;
    Ok(called)
}

// Imports it, and each function with a body begins with a call of it.
fn count_all<S>(alloc: Global, module: &mut Module<S>, from: &str, name: &str) -> Result<()>
    ensures { CountsAll from.now name.now «module».old «module».new result }
{
    let called = import_one(module, from, name)?;
    call_all(alloc, &mut module.funcs, called)
}

/// The bytes of the module with an import more, behind all others: of a function that takes and gives nothing, by the name of its module
/// and its own. The body of each function begins with a call of it. Then without what nothing reaches.
///
/// # Errors
///
/// `InvalidWasm` only where the bytes are no module that keeps the rules, `TooLarge` only where what is kept has a count or a size past
/// 32 bits, and `Memory`.
pub fn count_calls(alloc: Global, bytes: &[u8], from: &str, name: &str) -> Result<Vec<u8>>
    ensures { AnswersCounted (config_of defaults) bytes.now from.now name.now result }
{
    let mut module = Module::from_buffer(alloc, bytes)?;
    count_all(alloc, &mut module, from, name)?;
    finished(alloc, module)
}
