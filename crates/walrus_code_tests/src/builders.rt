//! Builders of functions.

use std::alloc::{AllocError, Global};
use std::test::Fail;
use test_support::{demand, first_id};
use walrus_base::{ModuleTypes, ValType};
use walrus_bodies::LocalFunction;
use walrus_code::{Arg, Args, BlockType, Operator};
use walrus_ir::{FunctionBuilder, InstrSeqBuilder};
use wasm_opcodes::opcodes;
use wasm_opcodes::opcodes::{CALL, DROP, END, I32_CONST, LOCAL_GET, NOP, UNREACHABLE};

// unreachable, i32.const 5, drop, call of the first function, local.get of the first local, nop
fn build(alloc: Global, body: &mut InstrSeqBuilder) -> Result<(), AllocError> {
    body.unreachable()?
        .i32_const(5)?
        .drop_()?
        .call(first_id(alloc))?
        .local_get(first_id(alloc))?
        .instr(Operator::new(NOP, Args::None))?;
    Ok(())
}

fn is(operator: &Operator, op: u32, arguments: &[Arg]) -> bool {
    operator.op == op && operator.args.as_slice() == arguments
}

fn are_built(alloc: Global, operators: &[Operator]) -> bool {
    let [trap, number, drop_, call, get, nop, end] = operators else {
        return false;
    };
    is(trap, UNREACHABLE, &[])
        && is(number, I32_CONST, &[Arg::S32(5)])
        && is(drop_, DROP, &[])
        && is(call, CALL, &[Arg::Function(first_id(alloc))])
        && is(get, LOCAL_GET, &[Arg::Local(first_id(alloc))])
        && is(nop, NOP, &[])
        && is(end, END, &[])
}

// One operator behind another, before they are a function's.
#[test]
fn a_sequence_is_built(rt: HostRuntime) -> Result<(), Fail> {
    let mut sequence = InstrSeqBuilder::new(rt.alloc());
    build(rt.alloc(), &mut sequence)?;
    demand(sequence.len() == 6, "six operators")?;
    demand(
        matches!(sequence.operators(), [first, ..] if is(first, UNREACHABLE, &[])),
        "unreachable first",
    )
}

fn function(alloc: Global, types: &mut ModuleTypes) -> Result<LocalFunction, AllocError> {
    let mut builder = FunctionBuilder::new(alloc, types, &[], &[ValType::I32])?;
    builder.name(String::from_str(alloc, "f")?);
    build(alloc, builder.func_body())?;
    builder.local_func(Vec::new(alloc))
}

fn is_called(function: &LocalFunction, name: &str) -> bool {
    match function.name() {
        Some(own) => own.as_str() == name,
        None => false,
    }
}

#[test]
fn a_function_is_built(rt: HostRuntime) -> Result<(), Fail> {
    let mut types = ModuleTypes::new(rt.alloc());
    let built = function(rt.alloc(), &mut types)?;
    demand(is_called(&built, "f"), "its name")?;
    demand(types.len() == 1, "one type")?;
    let operators = built.operators(rt.alloc())?;
    demand(
        are_built(rt.alloc(), operators.as_slice()),
        "seven operators",
    )
}

fn build_control(alloc: Global, body: &mut InstrSeqBuilder) -> Result<(), AllocError> {
    body.block(BlockType::NoResult)?
        .loop_(BlockType::OneResult(ValType::I32))?
        .if_(BlockType::OfType(first_id(alloc)))?
        .br(2)?
        .else_()?
        .br_if(1)?
        .return_()?
        .end()?;
    Ok(())
}

fn is_control(alloc: Global, operators: &[Operator]) -> bool {
    let [block, turns, choice, jump, other, maybe, back, end] = operators else {
        return false;
    };
    let of_type = BlockType::OfType(first_id(alloc));
    is(block, opcodes::BLOCK, &[Arg::Block(BlockType::NoResult)])
        && is(
            turns,
            opcodes::LOOP,
            &[Arg::Block(BlockType::OneResult(ValType::I32))],
        )
        && is(choice, opcodes::IF, &[Arg::Block(of_type)])
        && is(jump, opcodes::BR, &[Arg::Label(2)])
        && is(other, opcodes::ELSE, &[])
        && is(maybe, opcodes::BR_IF, &[Arg::Label(1)])
        && is(back, opcodes::RETURN, &[])
        && is(end, END, &[])
}

#[test]
fn blocks_and_branches_are_built(rt: HostRuntime) -> Result<(), Fail> {
    let mut sequence = InstrSeqBuilder::new(rt.alloc());
    build_control(rt.alloc(), &mut sequence)?;
    demand(
        is_control(rt.alloc(), sequence.operators()),
        "eight operators",
    )
}

fn build_values(alloc: Global, body: &mut InstrSeqBuilder) -> Result<(), AllocError> {
    body.local_set(first_id(alloc))?
        .local_tee(first_id(alloc))?
        .global_get(first_id(alloc))?
        .global_set(first_id(alloc))?
        .i64_const(-7)?
        .f32_const(8)?
        .f64_const(9)?
        .select()?;
    Ok(())
}

fn are_values(alloc: Global, operators: &[Operator]) -> bool {
    let [set, tee, global, changed, long, single, double, choice] = operators else {
        return false;
    };
    is(set, opcodes::LOCAL_SET, &[Arg::Local(first_id(alloc))])
        && is(tee, opcodes::LOCAL_TEE, &[Arg::Local(first_id(alloc))])
        && is(global, opcodes::GLOBAL_GET, &[Arg::Global(first_id(alloc))])
        && is(
            changed,
            opcodes::GLOBAL_SET,
            &[Arg::Global(first_id(alloc))],
        )
        && is(long, opcodes::I64_CONST, &[Arg::S64(-7)])
        && is(single, opcodes::F32_CONST, &[Arg::F32(8)])
        && is(double, opcodes::F64_CONST, &[Arg::F64(9)])
        && is(choice, opcodes::SELECT, &[])
}

#[test]
fn values_are_built(rt: HostRuntime) -> Result<(), Fail> {
    let mut sequence = InstrSeqBuilder::new(rt.alloc());
    build_values(rt.alloc(), &mut sequence)?;
    demand(
        are_values(rt.alloc(), sequence.operators()),
        "eight operators",
    )
}

fn build_accesses(alloc: Global, body: &mut InstrSeqBuilder) -> Result<(), AllocError> {
    body.load(opcodes::I32_LOAD8_U, first_id(alloc), 0, 16)?
        .store(opcodes::I64_STORE32, first_id(alloc), 2, 8)?
        .ref_func(first_id(alloc))?
        .call_indirect(first_id(alloc), first_id(alloc))?
        .op(opcodes::I32_ADD)?;
    Ok(())
}

fn access(alloc: Global, flags: u32, offset: u64) -> Arg {
    Arg::Access {
        flags,
        memory: first_id(alloc),
        offset,
    }
}

fn are_accesses(alloc: Global, operators: &[Operator]) -> bool {
    let [load, store, reference, call, sum] = operators else {
        return false;
    };
    let called = [Arg::Type(first_id(alloc)), Arg::Table(first_id(alloc))];
    is(load, opcodes::I32_LOAD8_U, &[access(alloc, 0, 16)])
        && is(store, opcodes::I64_STORE32, &[access(alloc, 2, 8)])
        && is(
            reference,
            opcodes::REF_FUNC,
            &[Arg::Function(first_id(alloc))],
        )
        && is(call, opcodes::CALL_INDIRECT, &called)
        && is(sum, opcodes::I32_ADD, &[])
}

#[test]
fn accesses_and_calls_are_built(rt: HostRuntime) -> Result<(), Fail> {
    let mut sequence = InstrSeqBuilder::new(rt.alloc());
    build_accesses(rt.alloc(), &mut sequence)?;
    demand(
        are_accesses(rt.alloc(), sequence.operators()),
        "five operators",
    )
}
