//! The lengths of element and data segments (Binary Format > Modules > Element Section, Data Section), in bytes.

ghost use Rattle.std.specs.Prelude.{map};
ghost use Rattle.wasm_forms.specs.Writing.{FitsLength};
ghost use Rattle.wasm_entries.specs.Record.{Functions, Expressions, expression, element_mode, data_mode};
ghost use Rattle.wasm_entries.specs.Spelling.{element_spelled, data_mode_bytes};
ghost use Rattle.wasm_writer.specs.Measures.{Measures};

use crate::composite::measured_indices;
use crate::constant::{measured_expression, measured_expressions};
use crate::number::number_len;
use crate::sum::plus;
use crate::type_lens::reference_len;
use crate::vector::{Measured, measured_block};
use wasm_entries::{RawData, RawDataMode, RawElement, RawElementMode, RawExpression, RawItems};
use wasm_forms::{RawRef, WireError};

/// How many bytes a segment has that lists functions.
fn measured_functions(mode: &RawElementMode, functions: &[u32]) -> Result<u32, WireError>
    ensures { Measures result (element_spelled (element_mode mode.now) (Functions functions.now))
        (FitsLength functions.now) }
{
    let listed = measured_indices(functions)?;
    match mode {
        RawElementMode::Active(None, offset) => {
            plus(plus(1, measured_expression(offset.operators())?)?, listed)
        }
        RawElementMode::Active(Some(table), offset) => {
            let front = 2 + number_len(u64::from(*table));
            plus(
                plus(front, measured_expression(offset.operators())?)?,
                listed,
            )
        }
        RawElementMode::Passive | RawElementMode::Declared => plus(2, listed),
    }
}

/// How many bytes a segment has that lists expressions of this type.
fn measured_typed(
    mode: &RawElementMode,
    ty: &RawRef,
    expressions: &[RawExpression],
) -> Result<u32, WireError>
    ensures { Measures result
        (element_spelled (element_mode mode.now) (Expressions ty.now (map expression expressions.now)))
        (FitsLength expressions.now) }
{
    let listed = measured_expressions(expressions)?;
    match mode {
        RawElementMode::Active(None, offset) => {
            plus(plus(1, measured_expression(offset.operators())?)?, listed)
        }
        RawElementMode::Active(Some(table), offset) => {
            let front = 1 + number_len(u64::from(*table)) + reference_len(ty);
            plus(
                plus(front, measured_expression(offset.operators())?)?,
                listed,
            )
        }
        RawElementMode::Passive | RawElementMode::Declared => plus(1 + reference_len(ty), listed),
    }
}

impl Measured for RawElement {
    fn measured(&self) -> Result<u32, WireError> {
        match &self.items {
            RawItems::Functions(functions) => measured_functions(&self.mode, functions),
            RawItems::Expressions(ty, expressions) => measured_typed(&self.mode, ty, expressions),
        }
    }
}

/// How many bytes has what says when a segment of data is used.
fn measured_data_mode(mode: &RawDataMode) -> Result<u32, WireError>
    ensures { Measures result (data_mode_bytes (data_mode mode.now)) (Unit {0}) }
{
    match mode {
        RawDataMode::Passive => Ok(1),
        RawDataMode::Active(memory, offset) => {
            if *memory == 0 {
                return plus(1, measured_expression(offset.operators())?);
            }
            plus(
                1 + number_len(u64::from(*memory)),
                measured_expression(offset.operators())?,
            )
        }
    }
}

impl<'a> Measured for RawData<'a> {
    fn measured(&self) -> Result<u32, WireError> {
        plus(measured_data_mode(&self.mode)?, measured_block(self.bytes)?)
    }
}
