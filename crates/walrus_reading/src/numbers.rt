//! The indices of what a module holds ("Structure > Modules > Indices"): while a module is read, each item gets the id of its index.
ghost use Rattle.std.specs.Prelude.{◌≡◌, ◌≢◌, ◌+◌, ◌<◌, ◌^◌, [], length, IfOk, OnOk, IsOkUnless, unwrap_or};
ghost use Rattle.std.specs.List.{range_with_len};
ghost use Rattle.wasm_frames.specs.Record.{sections};
ghost use Rattle.wasm_wire.specs.Rules.{Checks};
ghost use Rattle.walrus_base.specs.Operators.{Space, Types};
ghost use Rattle.walrus_code.specs.Indices.{ids_at, places_in, places_of};
ghost use Rattle.walrus_groups.specs.Groups.{types_from};
ghost use Rattle.walrus_model.specs.Reads.{declared};
ghost use Rattle.walrus_items.specs.Errors.{out_of_memory};
ghost use Rattle.walrus_reading.specs.Imported.{HoldsImports};
ghost use Rattle.walrus_reading.specs.Numbers.{FitsIndices, HasRoomFor};

use std::alloc::Global;
use std::result;
use walrus_code::{IndexSpace, IndicesToIds};
use walrus_contents::Contents;
use walrus_items::Result;
use wasm_forms::WireError;
use wasm_frames::Raw;

/// Whether there are indices for all functions that a module imports and defines. There are for all else: of what takes two bytes or more a
/// section has fewer than 2^31.
///
/// # Errors
///
/// `Malformed` exactly where imports and functions are too many.
pub(crate) fn check_room(raw: &Raw<'_>) -> result::Result<(), WireError>
    ensures { Checks result (HasRoomFor (sections raw.now)) }
{
    let functions = raw.functions.len();
    if functions < 1 << 32 && raw.imports.len() < (1 << 32) - functions {
        Ok(())
    } else {
        Err(WireError::Malformed)
    }
}

/// The indices of all that sections declare, where its types have theirs and the imported items are there: these come first in each space.
pub(crate) fn number_items(
    alloc: Global,
    raw: &Raw<'_>,
    contents: &Contents,
    indices: &mut IndicesToIds,
) -> Result<()>
    requires room { FitsIndices (sections raw.now) }
    requires held { HoldsImports (sections raw.now).imports contents.now }
    requires types { places_in indices.old Types
        ≡ range_with_len 0 (length (types_from 0 (sections raw.now).types)) }
    requires none { (space : Space) → space ≢ Types → places_in indices.old space ≡ [] }
    ensures numbered { OnOk result (ids_at indices.new ≡ declared (sections raw.now)) }
    ensures fails { IsOkUnless result out_of_memory }
{
    indices.functions = in_place(alloc, contents.funcs.next_id().index(), raw.functions.len())?;
    indices.tables = in_place(alloc, contents.tables.next_id().index(), raw.tables.len())?;
    indices.memories = in_place(
        alloc,
        contents.memories.next_id().index(),
        raw.memories.len(),
    )?;
    indices.tags = in_place(alloc, contents.tags.next_id().index(), raw.tags.len())?;
    indices.globals = in_place(alloc, contents.globals.next_id().index(), raw.globals.len())?;
    indices.elements = in_place(alloc, 0, raw.elements.len())?;
    indices.data_ = in_place(alloc, 0, data_count(raw) as usize)?;
    Ok(())
}

// How many data segments bodies may name: as many as the data count says, if there is one. The segments come behind the bodies.
fn data_count(raw: &Raw<'_>) -> u32
    ensures { result ≡ unwrap_or (sections raw.now).data_count 0 }
{
    raw.data_count.unwrap_or(0)
}

// The indices of the items of a kind: those that imports brought, so many, come first, and those that a section defines behind them.
fn in_place<K>(alloc: Global, first: usize, own: usize) -> Result<IndexSpace<K>>
    requires room { first + own < 2 ^ 32 }
    ensures numbers { IfOk result (λ space. places_of space ≡ range_with_len 0 (first + own)) }
    ensures fails { IsOkUnless result out_of_memory }
{
    Ok(IndexSpace::in_place(alloc, first + own)?)
}
