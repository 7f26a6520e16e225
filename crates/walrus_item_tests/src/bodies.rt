//! The parts of bodies: declared locals, blocks, the operators by themselves.

use std::alloc::Global;
use std::test::Fail;
use test_support::{are, bytes_of, demand};
use walrus_bodies::{
    Features, OpenBlocks, blocks_hold, emit_operators, read_declarations, read_operators,
};
use walrus_ir::{IdsToIndices, IndicesToIds, InstrLocId, LocalNumbers, ModuleTypes, Operator};

/// Legacy exceptions, and what isn't stable.
pub(crate) const ALL: Features = Features {
    legacy_exceptions: true,
    only_stable: false,
};

// try
#[test]
fn features_allow_operators(_rt: HostRuntime) -> Result<(), Fail> {
    demand(ALL.is_allowed(0x06), "a legacy exception")
}

// Two locals of i32 and one of f64, and a byte behind them.
fn are_declared(alloc: Global, bytes: &[u8]) -> bool {
    match read_declarations(alloc, bytes) {
        Ok((found, rest)) => found.len() == 2 && are(alloc, rest, "0B"),
        Err(_) => false,
    }
}

#[test]
fn declarations_are_read(rt: HostRuntime) -> Result<(), Fail> {
    demand(
        are_declared(rt.alloc(), b"\x02\x02\x7F\x01\x7C\x0B"),
        "two declarations",
    )
}

// block, end, end: nothing is open then.
#[test]
fn blocks_open_and_close(rt: HostRuntime) -> Result<(), Fail> {
    let mut blocks = OpenBlocks::new(rt.alloc())?;
    demand(blocks.step(0x02, &[])?, "a block")?;
    demand(blocks.step(0x0B, &[])?, "its end")?;
    demand(blocks.step(0x0B, &[])?, "the end of the body")?;
    demand(blocks.is_closed(), "nothing is open")
}

// i32.const 5, drop, end
const OPERATORS: &str = "41 85 00 1A 0B";

fn read(alloc: Global, bytes: &[u8]) -> Option<Vec<Operator>> {
    let indices = IndicesToIds::new(alloc);
    let types = ModuleTypes::new(alloc);
    let locate = |place: &usize| InstrLocId::of_place(*place);
    let read = read_operators(alloc, bytes, 100, &ALL, &indices, &types, &[], &locate);
    match read {
        Ok(operators) if blocks_hold(&types, &operators) => Some(operators),
        _ => None,
    }
}

fn are_written(alloc: Global, operators: &[Operator]) -> bool {
    let mut written = Vec::new(alloc);
    let indices = IdsToIndices::new(alloc);
    let locals = LocalNumbers::new(alloc);
    match emit_operators(alloc, &mut written, operators, &indices, &locals, &ALL) {
        Ok(placed) => placed.len() == 3 && are(alloc, &written, "41 05 1A 0B"),
        Err(_) => false,
    }
}

fn come_back(alloc: Global, bytes: &[u8]) -> bool {
    match read(alloc, bytes) {
        Some(operators) => are_written(alloc, &operators),
        None => false,
    }
}

#[test]
fn operators_are_read_and_written(rt: HostRuntime) -> Result<(), Fail> {
    let bytes = bytes_of(rt.alloc(), OPERATORS)?;
    demand(come_back(rt.alloc(), &bytes), OPERATORS)
}
