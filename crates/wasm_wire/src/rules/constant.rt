//! Constant expressions name what is declared (Validation > Instructions > Constant Expressions).

ghost use Rattle.std.specs.Prelude.{◌≡◌};
ghost use Rattle.wasm_entries.specs.Record.{Expression, expression};
ghost use Rattle.wasm_entries.specs.declared.record.RawConst.{RawConst};
ghost use Rattle.wasm_wire.specs.Indices.{ConstHolds, ExpressionHolds, with_globals};
ghost use Rattle.wasm_wire.specs.Rules.{Checks};

use super::counts::{Counts, check_below};
use super::each::{Rule, check_all};
use super::types::check_heap;
use wasm_entries::{RawConst, RawExpression};
use wasm_forms::WireError;

/// These counts, with so many globals in scope.
pub fn with_globals(counts: &Counts, globals: usize) -> Counts
    ensures { result ≡ with_globals counts.now globals }
{
    Counts { globals, ..*counts }
}

/// Whether an instruction names what is declared.
fn check_const(counts: &Counts, op: &RawConst) -> Result<(), WireError>
    ensures { Checks result (ConstHolds counts.now op.now) }
{
    match op {
        RawConst::GlobalGet(global) => check_below(*global, counts.globals),
        RawConst::RefFunc(function) => check_below(*function, counts.functions),
        RawConst::RefNull(heap) => check_heap(counts.types, *heap),
        RawConst::StructNew(ty)
        | RawConst::StructNewDefault(ty)
        | RawConst::ArrayNew(ty)
        | RawConst::ArrayNewDefault(ty)
        | RawConst::ArrayNewFixed(ty, _) => check_below(*ty, counts.types),
        RawConst::I32Const(_)
        | RawConst::I64Const(_)
        | RawConst::F32Const(_)
        | RawConst::F64Const(_)
        | RawConst::V128Const(_)
        | RawConst::I32Add
        | RawConst::I32Sub
        | RawConst::I32Mul
        | RawConst::I64Add
        | RawConst::I64Sub
        | RawConst::I64Mul
        | RawConst::AnyConvertExtern
        | RawConst::ExternConvertAny
        | RawConst::RefI31 => Ok(()),
    }
}

/// Expressions that name what is declared.
#[derive(Clone, Copy)]
pub struct Expressions {
    pub counts: Counts,
}

impl Rule<RawConst> for Expressions {
    ghost Seen = { RawConst };

    ghost view = { λ op. op };

    ghost Holds = { λ r op. ConstHolds r.counts op };

    fn check(&self, item: &RawConst) -> Result<(), WireError> {
        check_const(&self.counts, item)
    }
}

/// Whether an expression names what is declared.
pub fn check_expression(counts: &Counts, held: &[RawConst]) -> Result<(), WireError>
    ensures { Checks result (ExpressionHolds counts.now held.now) }
{
    check_all(&Expressions { counts: *counts }, held)
}

impl Rule<RawExpression> for Expressions {
    ghost Seen = { Expression };

    ghost view = { expression };

    ghost Holds = { λ r e. ExpressionHolds r.counts e };

    fn check(&self, item: &RawExpression) -> Result<(), WireError> {
        check_expression(&self.counts, item.operators())
    }
}
