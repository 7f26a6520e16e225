//! How many locals a body declares ("Appendix > Implementation Limitations").
ghost use Rattle.std.specs.Prelude.{◌≡◌, ◌++◌, All, IfOk, IsTrue, map};
ghost use Rattle.std.specs.Bool.{Decides};
ghost use Rattle.walrus_base.specs.Arena.{items};
ghost use Rattle.walrus_base.specs.Id.{place};
ghost use Rattle.walrus_code.specs.Code.{ops_of};
ghost use Rattle.walrus_functions.specs.Declaring.{AreOnce};
ghost use Rattle.walrus_items.specs.Functions.{functions};
ghost use Rattle.walrus_base.specs.Operators.{locals_of};
ghost use Rattle.walrus_module.specs.Tested.{DeclaresFew, KindDeclaresFew};

use std::alloc::{AllocError, Global};
use std::result;
use walrus_base::LocalId;
use walrus_bodies::LocalFunction;
use walrus_code::{Operator, push_locals};
use walrus_items::{FunctionKind, ModuleFunctions};

// The most locals that a body declares.
const MOST_LOCALS: usize = 50_000;

// Puts the locals that operators name behind others, in order.
fn push_named(to: &mut Vec<LocalId>, operators: &[Operator]) -> result::Result<(), AllocError>
    ensures { IfOk result (λ _. map place to.new.items
        ≡ map place to.old.items ++ locals_of (ops_of operators.now)) }
{
    for operator in operators {
        push_locals(to, operator)?;
    }
    Ok(())
}

// Takes each of these locals once, by rising place.
fn take_once(ids: &mut Vec<LocalId>)
    ensures { AreOnce (map place ids.old.items) (map place ids.new.items) }
{
    ids.sort_unstable();
    ids.dedup();
}

// Whether a body that is kept as it stands in the input has no more locals than that, its parameters counted.
fn has_few(function: &LocalFunction) -> bool
    ensures { IsTrue result → DeclaresFew function.now }
{
    let Some(text) = function.text() else {
        return false;
    };
    text.is_plain();
    text.local_count() as usize <= MOST_LOCALS
}

// Whether a body uses no more than 50,000 locals beside its parameters.
fn declares_few(alloc: Global, function: &LocalFunction) -> result::Result<bool, AllocError>
    ensures { IfOk result (λ few. Decides few (DeclaresFew function.now)) }
{
    if has_few(function) {
        return Ok(true);
    }
    let mut parameters = function.args(alloc)?;
    let mut used = function.args(alloc)?;
    let operators = function.operators(alloc)?;
    push_named(&mut used, operators.as_slice())?;
    take_once(&mut parameters);
    take_once(&mut used);
    Ok(used.len().saturating_sub(parameters.len()) <= MOST_LOCALS)
}

// The same of a function of this kind.
fn kind_declares_few(alloc: Global, kind: &FunctionKind) -> result::Result<bool, AllocError>
    ensures { IfOk result (λ few. Decides few (KindDeclaresFew kind.now)) }
{
    match kind {
        FunctionKind::Local(function) => declares_few(alloc, function),
        FunctionKind::Import(_) | FunctionKind::Uninitialized(_) => Ok(true),
    }
}

// The same of all functions.
pub(crate) fn do_all_declare_few(
    alloc: Global,
    funcs: &ModuleFunctions,
) -> result::Result<bool, AllocError>
    ensures { IfOk result (λ few. Decides few
        (All (λ f. KindDeclaresFew f.kind) (items (functions funcs.now)))) }
{
    for function in funcs.iter() {
        if !kind_declares_few(alloc, &function.kind)? {
            return Ok(false);
        }
    }
    Ok(true)
}
