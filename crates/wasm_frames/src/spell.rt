//! Bodies and custom sections as they are written.

ghost use Rattle.wasm_forms.specs.Writing.{FitsLength};
ghost use Rattle.wasm_frames.specs.Record.{body_record, custom_record};
ghost use Rattle.wasm_frames.specs.Spelling.{body_bytes, custom_bytes};

use crate::record::{RawBody, RawCustom};
use wasm_forms::{WireError, Written, write_block, write_name};

impl<'a> Written for RawBody<'a> {
    ghost spelled = { λ b. body_bytes (body_record b) };

    ghost Fits = { λ b. FitsLength b.bytes.now };

    fn write(&self, to: &mut Vec<u8>) -> Result<(), WireError> {
        write_block(to, self.bytes)
    }
}

impl<'a> Written for RawCustom<'a> {
    ghost spelled = { λ c. custom_bytes (custom_record c) };

    ghost Fits = { λ c. FitsLength c.name.now };

    fn write(&self, to: &mut Vec<u8>) -> Result<(), WireError> {
        write_name(to, self.name)?;
        to.extend_from_slice(self.bytes)?;
        Ok(())
    }
}
