//! The order of the sections (Binary Format > Modules).

ghost use Rattle.std.specs.Prelude.{◌≡◌, ◌↔◌, IsTrue};
ghost use Rattle.wasm_frames.specs.Order.{StandsBefore, InOrder};
ghost use Rattle.wasm_wire.specs.Rules.{Checks};
ghost use Rattle.wasm_wire.specs.Ranks.{rank_of};

use wasm_forms::WireError;

/// The place of a section in the standard's order, from 1 on, or 0 where the order has no such section.
fn rank(id: u8) -> u8
    ensures { result ≡ rank_of id }
{
    match id {
        1 => 1,
        2 => 2,
        3 => 3,
        4 => 4,
        5 => 5,
        13 => 6,
        6 => 7,
        7 => 8,
        8 => 9,
        9 => 10,
        12 => 11,
        10 => 12,
        11 => 13,
        _ => 0,
    }
}

/// Whether a section with the one id stands before one with the other.
fn stands_before(a: u8, b: u8) -> bool
    ensures { IsTrue result ↔ StandsBefore a b }
{
    let first = rank(a);
    first > 0 && first < rank(b)
}

/// Whether each section stands before all that follow it.
pub fn check_order(order: &[u8]) -> Result<(), WireError>
    ensures { Checks result (InOrder order.now) }
{
    for index in 1..order.len() {
        if !stands_before(order[index - 1], order[index]) {
            return Err(WireError::Malformed);
        }
    }
    Ok(())
}
