//! The functions that stay, or those that go, as a text: a line or an object each.

ghost use Rattle.std.specs.Prelude.{◌≡◌, IfOk};
ghost use Rattle.mulkavesh.specs.Entries.{TellsListed, first_of, listed_line, listed_object};

use crate::numbers::add_decimal;
use crate::order::Listing;
use crate::rows::{self, Row, add_name, add_name_json};
use crate::shares;
use std::alloc::{AllocError, Global};
use walrus_tools::Listed;

impl Row for Listed {
    ghost line = { listed_line };

    ghost object = { listed_object };

    fn add_line(&self, alloc: Global, to: &mut Vec<u8>) -> Result<(), AllocError> {
        add_decimal(alloc, to, self.size as u64)?;
        to.push(b' ')?;
        add_decimal(alloc, to, self.index as u64)?;
        add_name(to, &self.name)?;
        Ok(to.push(b'\n')?)
    }

    fn add_object(&self, alloc: Global, to: &mut Vec<u8>) -> Result<(), AllocError> {
        to.extend_from_slice(b"{\"index\":")?;
        add_decimal(alloc, to, self.index as u64)?;
        to.extend_from_slice(b",\"size\":")?;
        add_decimal(alloc, to, self.size as u64)?;
        to.extend_from_slice(b",\"name\":")?;
        add_name_json(to, &self.name)?;
        Ok(to.push(b'}')?)
    }
}

/// So many of a list, where that is said; and else all.
pub(crate) fn first_of<T>(all: &[T], count: Option<u32>) -> &[T]
    ensures { result.now ≡ first_of count all.now }
{
    let Some(count) = count else {
        return all;
    };
    let count = count as usize;
    if count < all.len() {
        return &all[..count];
    }
    all
}

/// So many of the functions as they stand, or so many of them by size, for people or for programs.
pub(crate) fn told(
    alloc: Global,
    is_json: bool,
    listing: Listing,
    functions: Vec<Listed>,
) -> Result<Vec<u8>, AllocError>
    ensures { IfOk result (λ text. TellsListed is_json listing.by_size listing.count functions.items
        text.items) }
{
    if listing.by_size {
        return shares::told(alloc, is_json, listing.count, functions);
    }
    rows::told(alloc, is_json, first_of(&functions, listing.count))
}
