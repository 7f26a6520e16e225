//! The exports and the imports of a module, as a text: a line or an object each.

ghost use Rattle.std.specs.Prelude.{◌≡◌, ◌++◌};
ghost use Rattle.mulkavesh.specs.Interface.{export_line, export_object, import_line, import_object};

use crate::json::add_string;
use crate::rows::{Row, add_item, add_item_members};
use crate::visible::add_shown;
use std::alloc::{AllocError, Global};
use walrus_tools::{Exported, Imported};

impl Row for Exported {
    ghost line = { export_line };

    ghost object = { export_object };

    fn add_line(&self, alloc: Global, to: &mut Vec<u8>) -> Result<(), AllocError> {
        add_item(alloc, to, self.item)?;
        to.push(b' ')?;
        add_shown(to, self.name.as_bytes())?;
        Ok(to.push(b'\n')?)
    }

    fn add_object(&self, alloc: Global, to: &mut Vec<u8>) -> Result<(), AllocError> {
        add_item_members(alloc, to, self.item)?;
        to.extend_from_slice(b",\"name\":")?;
        add_string(to, self.name.as_bytes())?;
        Ok(to.push(b'}')?)
    }
}

impl Row for Imported {
    ghost line = { import_line };

    ghost object = { import_object };

    fn add_line(&self, alloc: Global, to: &mut Vec<u8>) -> Result<(), AllocError> {
        add_item(alloc, to, self.item)?;
        to.push(b' ')?;
        add_shown(to, self.module.as_bytes())?;
        to.push(b' ')?;
        add_shown(to, self.name.as_bytes())?;
        Ok(to.push(b'\n')?)
    }

    fn add_object(&self, alloc: Global, to: &mut Vec<u8>) -> Result<(), AllocError> {
        add_item_members(alloc, to, self.item)?;
        to.extend_from_slice(b",\"module\":")?;
        add_string(to, self.module.as_bytes())?;
        to.extend_from_slice(b",\"name\":")?;
        add_string(to, self.name.as_bytes())?;
        Ok(to.push(b'}')?)
    }
}
