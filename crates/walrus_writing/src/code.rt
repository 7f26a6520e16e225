//! The code section of a module ("Binary Format > Modules > Code Section"), appended to the bytes of the sections before: its bodies are made
//! where they are written, with no list of them. Its size is known behind them alone, so a likely size stands in front until then. A refusal
//! says nothing.
ghost use Rattle.std.specs.Prelude.{◌≡◌, ◌<◌, ◌≤◌, ◌+◌, ◌^◌, ◌++◌, All, IfOk, OnOk, drop, length, map, take, vec_len};
ghost use Rattle.wasm_forms.specs.Spelling.{number_bytes};
ghost use Rattle.wasm_payloads.specs.Lent.{locals_entry};
ghost use Rattle.walrus_base.specs.Id.{place};
ghost use Rattle.walrus_code.specs.Indices.{index_of};
ghost use Rattle.walrus_writing.specs.BySection.{WritesCode};
ghost use Rattle.walrus_writing.specs.Parts.{IsIndexed};

use crate::bodies::{Indexed, append_bodies};
use std::alloc::Global;
use walrus_base::FunctionId;
use walrus_items::{Error, Result};
use wasm_forms::write_u32;
use wasm_payloads::RawLocals;

// Puts a number in the place of the bytes from a place up to another. Those behind are moved only where its spelling is longer or shorter.
fn put_number(alloc: Global, to: &mut Vec<u8>, from: usize, until: usize, number: u32) -> Result<()>
    requires order { from ≤ until }
    requires within { until ≤ vec_len to.old }
    ensures { OnOk result (to.new.items
        ≡ take from to.old.items ++ (number_bytes number ++ drop until to.old.items)) }
{
    let mut spelling = Vec::new(alloc);
    write_u32(&mut spelling, number)?;
    let _replaced = to.splice(from..until, spelling)?;
    Ok(())
}

// A size of so many bytes as it is written until the true one is known.
fn guess_of(likely: usize) -> u32 {
    match u32::try_from(likely) {
        Ok(guess) => guess,
        Err(_) => u32::MAX,
    }
}

/// The code section of these functions, the first of which has this index, and which likely has so many bytes; and the names of their used
/// locals, where these are chosen.
pub fn write_code<'a>(
    alloc: Global,
    to: &mut Vec<u8>,
    under: Indexed<'a, '_, '_>,
    order: &[FunctionId],
    first: u32,
    chosen: bool,
    likely: usize,
) -> Result<Vec<RawLocals<'a>>>
    requires indexed { All (λ id.
        IsIndexed under.parts (index_of under.indices.now) under.features.now (place id)) order.now }
    requires few { first + length order.now < 2 ^ 32 }
    ensures { IfOk result (λ named. WritesCode under.entry.parts (index_of under.entry.indices.now)
        under.entry.features.now order.now first chosen (map locals_entry named.items)
        to.old.items to.new.items) }
{
    if order.is_empty() {
        return Ok(Vec::new(alloc));
    }
    to.push(10)?;
    let from = to.len();
    write_u32(to, guess_of(likely))?;
    let until = to.len();
    write_u32(to, order.len() as u32)?;
    let told = append_bodies(alloc, to, under, order, first, chosen, false)?;
    let Ok(size) = u32::try_from(to.len() - until) else {
        return Err(Error::TooLarge);
    };
    put_number(alloc, to, from, until, size)?;
    Ok(told.named)
}
