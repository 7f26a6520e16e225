//! Functions that `ref.func` names in bodies and that nothing declares.

use std::alloc::{AllocError, Global};
use std::test::Fail;
use test_support::{demand, first_id, second_id};
use walrus_base::FunctionId;
use walrus_contents::{Contents, undeclared_functions};
use walrus_ir::{Arg, Args, LocalFunction, Operator};
use wasm_opcodes::one_byte::{DROP, REF_FUNC};

// A function whose body names another.
fn naming(alloc: Global, other: FunctionId) -> Result<LocalFunction, AllocError> {
    let mut body = Vec::new(alloc);
    body.push(Operator::new(REF_FUNC, Args::One(Arg::Function(other))))?;
    body.push(Operator::new(DROP, Args::None))?;
    body.push(Operator::new(Operator::END, Args::None))?;
    LocalFunction::new(alloc, first_id(alloc), Vec::new(alloc), body, None)
}

// Two functions that name each other, of which the first is exported.
fn add_two(alloc: Global, contents: &mut Contents) -> Result<(), Fail> {
    let first = contents.funcs.add_local(naming(alloc, second_id(alloc))?)?;
    contents.funcs.add_local(naming(alloc, first)?)?;
    contents.exports.add("f", first.into())?;
    Ok(())
}

fn is_second(alloc: Global, ids: &[FunctionId]) -> bool {
    match ids {
        [id] => *id == second_id(alloc),
        _ => false,
    }
}

#[test]
fn a_function_is_declared_by_its_export(rt: HostRuntime) -> Result<(), Fail> {
    let mut contents = Contents::new(rt.alloc())?;
    add_two(rt.alloc(), &mut contents)?;
    let undeclared = undeclared_functions(rt.alloc(), contents.parts())?;
    demand(
        is_second(rt.alloc(), &undeclared),
        "the function that isn't exported",
    )
}
