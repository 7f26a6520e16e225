//! Which proposals a body may use.
ghost use Rattle.std.specs.Prelude.{◌≡◌};
ghost use Rattle.walrus_bodies.specs.Features.{is_legacy, is_wide_arithmetic, is_allowed};

use wasm_opcodes::behind;
use wasm_opcodes::behind_fc::{I64_ADD128, I64_MUL_WIDE_U};
use wasm_opcodes::one_byte::{CATCH, CATCH_ALL, DELEGATE, PREFIX_FC, RETHROW, TRY};

/// Which proposals a body may use.
#[derive(Clone, Copy, Debug, PartialEq, Eq)]
pub struct Features {
    /// Whether it may use the blocks of legacy exceptions: `try`, `catch`, `rethrow`, `delegate`, `catch_all`.
    pub legacy_exceptions: bool,
    /// Whether it may use only what is stable: no wide arithmetic.
    pub only_stable: bool,
}

impl Features {
    /// Whether a body may use the operator: its byte, or its prefix byte times 65,536 and its number.
    pub fn is_allowed(&self, op: u32) -> bool
        ensures { result ≡ is_allowed self.now op }
    {
        (!is_legacy(op) || self.legacy_exceptions) && !(is_wide_arithmetic(op) && self.only_stable)
    }
}

// Whether the operator is one of legacy exceptions.
fn is_legacy(op: u32) -> bool
    ensures { result ≡ is_legacy op }
{
    op == TRY || op == CATCH || op == RETHROW || op == DELEGATE || op == CATCH_ALL
}

// Whether the operator is one of wide arithmetic.
fn is_wide_arithmetic(op: u32) -> bool
    ensures { result ≡ is_wide_arithmetic op }
{
    behind(PREFIX_FC, I64_ADD128) <= op && op <= behind(PREFIX_FC, I64_MUL_WIDE_U)
}
