//! The lengths of imports, tables, globals and exports (Binary Format > Modules), in bytes.

ghost use Rattle.wasm_entries.specs.Spelling.{desc_bytes, DescFits};
ghost use Rattle.wasm_writer.specs.Measures.{Measures};

use crate::constant::measured_expression;
use crate::limits::{global_type_len, measured_limits, measured_table_type};
use crate::number::number_len;
use crate::sum::plus;
use crate::vector::{Measured, measured_name};
use wasm_entries::{RawDesc, RawExport, RawGlobal, RawImport, RawTable};
use wasm_forms::WireError;

/// How many bytes has what an import brings, its kind among them (Binary Format > Modules > Import Section).
///
/// # Errors
///
/// `TooLarge` exactly where addresses have 32 bits, and a size is 2^32 or more.
pub fn measured_desc(desc: &RawDesc) -> Result<u32, WireError>
    ensures { Measures result (desc_bytes desc.now) (DescFits desc.now) }
{
    match desc {
        RawDesc::Function(ty) => Ok(1 + number_len(u64::from(*ty))),
        RawDesc::Table(ty) => plus(1, measured_table_type(ty)?),
        RawDesc::Memory(limits) => plus(1, measured_limits(limits)?),
        RawDesc::Global(ty) => Ok(1 + global_type_len(ty)),
        RawDesc::Tag(ty) => Ok(2 + number_len(u64::from(*ty))),
    }
}

impl<'a> Measured for RawImport<'a> {
    fn measured(&self) -> Result<u32, WireError> {
        let names = plus(measured_name(self.from)?, measured_name(self.name)?)?;
        plus(names, measured_desc(&self.desc())?)
    }
}

impl Measured for RawTable {
    fn measured(&self) -> Result<u32, WireError> {
        match &self.initial {
            None => measured_table_type(&self.ty),
            Some(initial) => {
                let front = plus(2, measured_table_type(&self.ty)?)?;
                plus(front, measured_expression(initial.operators())?)
            }
        }
    }
}

impl Measured for RawGlobal {
    fn measured(&self) -> Result<u32, WireError> {
        plus(
            global_type_len(&self.ty),
            measured_expression(self.initial.operators())?,
        )
    }
}

impl<'a> Measured for RawExport<'a> {
    fn measured(&self) -> Result<u32, WireError> {
        plus(
            measured_name(self.name)?,
            1 + number_len(u64::from(self.index)),
        )
    }
}
